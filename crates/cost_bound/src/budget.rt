//! How much work the conditions of a filter may take, and how much they take.

ghost use Rattle.std.specs.Prelude.{◌≡◌, MatchBool};
ghost use Rattle.cost_bound.specs.Budgets.{Covers, IsBudget, nothing, of_steps, sum_of};

/// The steps of a budget, if none are declared.
pub const USUAL_STEPS: u64 = 1_000_000;

/// The visits of a budget, if none are declared.
pub const USUAL_VISITS: u64 = 4_194_304;

/// The most steps that a budget may have.
pub const MOST_STEPS: u64 = 100_000_000;

/// The most visits that a budget may have, 2^63 - 1.
pub const MOST_VISITS: u64 = 9_223_372_036_854_775_807;

/// The steps and the visits that conditions may take together; or those that they take. Steps are those of a
/// condition's run. Visits are those of its measuring, by which its steps are bounded.
#[derive(Clone, Copy, PartialEq, Eq, Debug)]
pub struct Budget {
    pub steps: u64,
    pub visits: u64,
}

impl Budget {
    /// No steps and no visits.
    pub fn nothing() -> Budget
        ensures { result ≡ nothing }
    {
        Budget {
            steps: 0,
            visits: 0,
        }
    }

    /// So many steps, and the usual visits.
    pub fn of_steps(steps: u64) -> Budget
        ensures { result ≡ of_steps steps }
    {
        Budget {
            steps,
            visits: USUAL_VISITS,
        }
    }

    /// Whether a filter may have this budget: 1 to 100,000,000 steps, and 1 to 2^63 - 1 visits.
    pub fn is_allowed(self) -> bool
        ensures { MatchBool result (IsBudget self) (IsBudget self → ⊥) }
    {
        if self.steps == 0 || self.steps > MOST_STEPS {
            return false;
        }
        self.visits > 0 && self.visits <= MOST_VISITS
    }

    /// What is left of the budget after these needs, which it covers.
    pub fn less(self, needs: Budget) -> Budget
        requires { Covers self needs }
        ensures { sum_of needs result ≡ self }
    {
        Budget {
            steps: self.steps - needs.steps,
            visits: self.visits - needs.visits,
        }
    }
}
