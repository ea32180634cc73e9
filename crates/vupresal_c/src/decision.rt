//! Decisions, as C gets them.

ghost use Rattle.std.specs.Prelude.{◌≡◌, ◌≢◌, IfOk, IfErr};
ghost use Rattle.vupresal_c.specs.Decisions.{decision_of, refused};
ghost use Rattle.vupresal_c.specs.Statuses.{done, status_of};

use crate::fault::{Fault, OK};
use rbac_policy::Verdict;

/// A filter's decision on a request.
#[repr(C)]
#[derive(Drop)]
pub struct Decision {
    /// The number of the first policy that matches, in ascending order of names; 0 if none does.
    pub matched: u64,
    /// Whether a policy matches.
    pub is_matched: bool,
    /// Whether the request is let through.
    pub is_allowed: bool,
}

impl Decision {
    /// The decision that refuses, and names no policy.
    pub(crate) fn refused() -> Decision
        ensures { result ≡ refused }
    {
        Decision {
            matched: 0,
            is_matched: false,
            is_allowed: false,
        }
    }

    /// The decision of a verdict.
    pub(crate) fn of(verdict: Verdict) -> Decision
        ensures { result ≡ decision_of verdict }
    {
        let (matched, is_matched) = match verdict.matched {
            Some(number) => (number as u64, true),
            None => (0, false),
        };
        Decision {
            matched,
            is_matched,
            is_allowed: verdict.allowed,
        }
    }
}

/// Writes the decision, and returns the status.
pub(crate) fn answered(answer: Result<Verdict, Fault>, decision: &mut Decision) -> i32
    ensures found { IfOk answer (λ v. (result ≡ done) × (decision.new ≡ decision_of v)) }
    ensures fault { IfErr answer (λ e. (result ≡ status_of e) × (result ≢ done)
        × (decision.new ≡ refused)) }
{
    match answer {
        Ok(verdict) => {
            *decision = Decision::of(verdict);
            OK
        }
        Err(fault) => {
            *decision = Decision::refused();
            fault.status()
        }
    }
}
