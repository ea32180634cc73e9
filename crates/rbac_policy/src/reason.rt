//! Why a policy matches a request, or does not.

ghost use Rattle.std.specs.Prelude.{◌≡◌};
ghost use Rattle.rbac_policy.specs.Trials.{is_match};

use cel_value::CelError;

/// The reason why a policy matches a request, or does not.
#[derive(Clone, Copy, PartialEq, Eq, Debug)]
pub enum Reason {
    /// No permission matches.
    NoPermission,
    /// A permission matches, but no principal does.
    NoPrincipal,
    /// The policy matches, and has no condition.
    Matches,
    /// The policy's condition is false.
    ConditionFalse,
    /// The policy's condition is this error, which is no match.
    ConditionFails(CelError),
    /// The policy matches: its condition is true, after `steps` of the `bound` steps that it may take.
    ConditionTrue { steps: u64, bound: u64 },
}

impl Reason {
    /// Whether the policy matches.
    pub(crate) fn is_match(self) -> bool
        ensures { result ≡ is_match self }
    {
        match self {
            Reason::Matches | Reason::ConditionTrue { .. } => true,
            Reason::NoPermission
            | Reason::NoPrincipal
            | Reason::ConditionFalse
            | Reason::ConditionFails(_) => false,
        }
    }
}
