//! What a server counts: verdicts, and why connections end.

/// The verdict on a request.
#[derive(Clone, Copy, PartialEq, Eq, Debug)]
pub enum Verdict {
    Allow,
    Deny,
    /// Denied, since the conditions took all steps of the budget.
    Steps,
    /// A filter has no policies yet.
    Unready,
    /// Memory ran out.
    Memory,
    /// The head has a fault; the status of the answer.
    Fault(u16),
}

/// The words for the verdicts, by their places.
pub(crate) const VERDICTS: [&str; 6] = ["allow", "deny", "steps", "unready", "memory", "fault"];

impl Verdict {
    /// The place of its word.
    pub(crate) fn place(self) -> usize {
        match self {
            Verdict::Allow => 0,
            Verdict::Deny => 1,
            Verdict::Steps => 2,
            Verdict::Unready => 3,
            Verdict::Memory => 4,
            Verdict::Fault(_) => 5,
        }
    }
}

/// Why a connection ended.
#[derive(Clone, Copy, PartialEq, Eq, Debug)]
pub enum Closed {
    /// It was served to its end.
    Served,
    /// It failed.
    Reset,
    /// A request was not complete in time.
    HeadTimeout,
    /// It was not used for too long.
    IdleTimeout,
    /// It did not take its answers in time.
    WriteTimeout,
    /// Memory ran out.
    Memory,
    /// The server ends.
    Drained,
    /// What is known of it is outside the limits.
    Unfit,
    /// It was idle for the longest time, and all places were taken.
    IdleFull,
}

/// The words for the reasons, by their places.
pub(crate) const REASONS: [&str; 9] = [
    "served",
    "reset",
    "head",
    "idle",
    "blocked",
    "memory",
    "drained",
    "unfit",
    "idle_full",
];

impl Closed {
    /// The place of its word.
    pub(crate) fn place(self) -> usize {
        match self {
            Closed::Served => 0,
            Closed::Reset => 1,
            Closed::HeadTimeout => 2,
            Closed::IdleTimeout => 3,
            Closed::WriteTimeout => 4,
            Closed::Memory => 5,
            Closed::Drained => 6,
            Closed::Unfit => 7,
            Closed::IdleFull => 8,
        }
    }
}
