//! Why bytes are no CheckRequest that is read.

ghost use Rattle.std.specs.Prelude.{◌≡◌, Ok, IsErrAnd, MatchResult};

use crate::part::CheckPart;
use proto_wire::Refusal;
use std::alloc::{AllocError, AllocFailed};

/// Why bytes are no CheckRequest that is read, and the part that has the fault. Out of memory has no part.
#[derive(Clone, Copy, PartialEq, Eq, Debug)]
pub struct CheckFault {
    pub part: CheckPart,
    pub refusal: Refusal,
}

impl From<AllocError> for CheckFault {
    ghost use Rattle.proto_wire.specs.declared.refusal.Refusal.TheVariants.{Memory};

    ghost from_gives = { λ _ fault. fault.refusal ≡ Memory };

    fn from(_error: AllocError) -> CheckFault {
        CheckFault {
            part: CheckPart::Whole,
            refusal: Refusal::Memory,
        }
    }
}

impl<T: Drop> From<AllocFailed<T>> for CheckFault {
    ghost use Rattle.proto_wire.specs.declared.refusal.Refusal.TheVariants.{Memory};

    ghost from_gives = { λ _ fault. fault.refusal ≡ Memory };

    fn from(_error: AllocFailed<T>) -> CheckFault {
        CheckFault {
            part: CheckPart::Whole,
            refusal: Refusal::Memory,
        }
    }
}

/// What was read of this part, or its refusal as the part's fault.
#[inline(always)]
pub(crate) fn at<T>(read: Result<T, Refusal>, part: CheckPart) -> Result<T, CheckFault>
    ensures { MatchResult read (λ x. result ≡ Ok x)
        (λ e. IsErrAnd result (λ f. (f.refusal ≡ e) × (f.part ≡ part))) }
{
    match read {
        Ok(value) => Ok(value),
        Err(refusal) => Err(CheckFault { part, refusal }),
    }
}
