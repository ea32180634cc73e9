//! The outcomes of the program, with their texts and their exit statuses.
ghost use Rattle.std.specs.Prelude.{◌≡◌, ◌↔◌, IsTrue};
ghost use Rattle.rbac_judge.specs.Judging.{IsDecision};
ghost use Rattle.rbac_judge.specs.Outcome.{status_of};
ghost use Rattle.rbac_judge.specs.private.Judged.{matched_in};

use http_front::HeadFault;
use proto_wire::Refusal;
use std::fmt;

/// The outcome of checking one policy file, or of judging one head by it.
#[derive(Clone, Copy)]
pub enum Outcome {
    /// The policy is admitted.
    Admitted {
        /// The number of its policies.
        policies: usize,
        /// The greatest number of steps that all its conditions may take together.
        bound: u64,
    },
    /// The request is let through. The number is that of the policy that matched, if one did.
    Allowed(Option<usize>),
    /// The request is refused. The number is that of the policy that matched, if one did.
    Denied(Option<usize>),
    /// A condition exceeded its steps, so the request is refused.
    OutOfSteps,
    /// The policy is not admitted.
    Refused(Refusal),
    /// The head has a fault.
    Fault(HeadFault),
    /// Memory ran out.
    Memory,
}

impl Outcome {
    /// The number of the policy that matched, if one did.
    pub(crate) fn matched(self) -> Option<usize>
        ensures { result ≡ matched_in self }
    {
        match self {
            Outcome::Allowed(matched) => matched,
            Outcome::Denied(matched) => matched,
            Outcome::Admitted { .. } => None,
            Outcome::OutOfSteps => None,
            Outcome::Refused(_) => None,
            Outcome::Fault(_) => None,
            Outcome::Memory => None,
        }
    }

    /// Whether the outcome is a verdict.
    pub(crate) fn is_decision(self) -> bool
        ensures { IsTrue result ↔ IsDecision self }
    {
        match self {
            Outcome::Allowed(_) | Outcome::Denied(_) => true,
            Outcome::Admitted { .. }
            | Outcome::OutOfSteps
            | Outcome::Refused(_)
            | Outcome::Fault(_)
            | Outcome::Memory => false,
        }
    }

    /// The exit status: 0 admitted or let through, 1 policy refused, 3 denied, 4 head fault, 5 out of memory.
    pub fn status(self) -> u8
        ensures { result ≡ status_of self }
    {
        match self {
            Outcome::Admitted { .. } => 0,
            Outcome::Allowed(_) => 0,
            Outcome::Refused(Refusal::Memory) => 5,
            Outcome::Refused(_) => 1,
            Outcome::Denied(_) => 3,
            Outcome::OutOfSteps => 3,
            Outcome::Fault(_) => 4,
            Outcome::Memory => 5,
        }
    }
}

/// Writes the outcome in words, such as `allow 0`, `deny -` or `refused: 5 OutOfRange`.
impl fmt::Display for Outcome {
    ghost use Rattle.std.specs.Prelude.{Some};
    ghost use Rattle.rbac_judge.specs.Outcome.{text_of};

    ghost output = { λ outcome. Some (text_of outcome) };

    fn fmt<W: fmt::Write>(&self, f: &mut fmt::Formatter<W>) -> fmt::Result {
        match *self {
            Outcome::Admitted { policies, bound } => {
                write!(f, "admitted: policies {policies} bound {bound}")
            }
            Outcome::Allowed(Some(matched)) => write!(f, "allow {matched}"),
            Outcome::Allowed(None) => f.write_str("allow -"),
            Outcome::Denied(Some(matched)) => write!(f, "deny {matched}"),
            Outcome::Denied(None) => f.write_str("deny -"),
            Outcome::OutOfSteps => f.write_str("deny steps"),
            Outcome::Refused(refusal) => write!(f, "refused: {refusal}"),
            Outcome::Fault(fault) => write!(f, "head: {fault}"),
            Outcome::Memory => f.write_str("memory"),
        }
    }
}
