//! Picks one in so many.
ghost use Rattle.std.specs.Prelude.{◌≡◌, ◌≤◌, ◌↔◌, IsTrue, if◌then◌else◌};
ghost use Rattle.serve_observe.specs.Sampling.{one_more};

/// Picks one in so many: after each one that it picks it leaves out so many less one.
#[derive(Drop)]
pub(crate) struct Sample {
    every: u64,
    // how many were left out since one was picked
    passed: u64,
}

impl Sample {
    /// Picks one in so many. Of 0 it picks each one.
    pub(crate) fn new(every: u64) -> Sample
        ensures { (result.every ≡ every) × (result.passed ≡ 0) }
    {
        Sample { every, passed: 0 }
    }

    /// Returns whether the next one is picked.
    pub(crate) fn picks_next(&mut self) -> bool
        ensures picked { IsTrue result ↔ (self.old.every ≤ one_more self.old.passed) }
        ensures passed { self.new.passed ≡ (if result then 0 else one_more self.old.passed) }
        ensures every { self.new.every ≡ self.old.every }
    {
        self.passed = self.passed.saturating_add(1);
        if self.passed < self.every {
            return false;
        }
        self.passed = 0;
        true
    }
}
