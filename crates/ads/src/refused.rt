//! Why a response is not accepted: it is refused, or memory ran out.

ghost use Rattle.std.specs.Prelude.{◌≡◌, ◌≢◌, Err, IfOk, OnErr, Some};
ghost use Rattle.proto_wire.specs.declared.refusal.Refusal.TheVariants.{Memory};
ghost use Rattle.ads.specs.declared.refused.NotAccepted.TheVariants.{NoMemory, Refused};
ghost use Rattle.ads.specs.private.Taking.{IsWhole, IsWholeRefused};

use cost_bound::Budget;
use proto_wire::{Fault, Refusal};
use std::alloc::{AllocError, AllocFailed};

/// Why a response is refused, and where.
#[derive(Clone, Copy, Debug)]
pub(crate) struct RefusalCause<'a> {
    /// The refusal, and the part of the filter's message that has the fault.
    pub(crate) fault: Fault,
    /// The filter that is refused.
    pub(crate) filter: Option<usize>,
    /// The bytes of the filter's message, if it is not admitted.
    pub(crate) message: &'a [u8],
    /// What the conditions before the fault leave of the filter's budget.
    pub(crate) left: Budget,
}

impl<'a> RefusalCause<'a> {
    /// The same of the filter at this place.
    pub(crate) fn at(self, place: usize) -> RefusalCause<'a>
        ensures fault { result.fault ≡ self.entry.fault }
        ensures filter { result.filter ≡ Some place }
        ensures message { result.message ≡ self.entry.message }
    {
        RefusalCause {
            fault: self.fault,
            filter: Some(place),
            message: self.message,
            left: self.left,
        }
    }
}

impl<'a> From<Refusal> for RefusalCause<'a> {
    ghost from_gives = { λ refusal e. IsWhole refusal e };

    fn from(refusal: Refusal) -> RefusalCause<'a> {
        RefusalCause {
            fault: Fault::from(refusal),
            filter: None,
            message: &[],
            left: Budget::nothing(),
        }
    }
}

/// Why a response is not accepted.
#[derive(Clone, Copy, Debug)]
pub(crate) enum NotAccepted<'a> {
    /// It is refused, for this reason.
    Refused(RefusalCause<'a>),
    /// Memory ran out outside of an admission.
    NoMemory,
}

impl<'a> From<Refusal> for NotAccepted<'a> {
    ghost from_gives = { λ refusal e. IsWholeRefused refusal e };

    fn from(refusal: Refusal) -> NotAccepted<'a> {
        NotAccepted::Refused(RefusalCause::from(refusal))
    }
}

impl<'a> From<AllocError> for NotAccepted<'a> {
    ghost from_gives = { λ _ e. e ≡ NoMemory };

    fn from(_error: AllocError) -> NotAccepted<'a> {
        NotAccepted::NoMemory
    }
}

impl<'a, T: Drop> From<AllocFailed<T>> for NotAccepted<'a> {
    ghost from_gives = { λ _ e. e ≡ NoMemory };

    fn from(_error: AllocFailed<T>) -> NotAccepted<'a> {
        NotAccepted::NoMemory
    }
}

/// What was read, or any refusal except `Memory`. The error is out of memory exactly if `Memory` is the refusal.
pub(crate) fn memory_apart<T: Drop>(
    read: Result<T, Refusal>,
) -> Result<Result<T, Refusal>, AllocError>
    ensures found { IfOk result (λ apart. (apart ≡ read) × (apart ≢ Err Memory)) }
    ensures fault { OnErr result (read ≡ Err Memory) }
{
    match read {
        Ok(value) => Ok(Ok(value)),
        Err(Refusal::Memory) => Err(AllocError),
        Err(refusal) => Ok(Err(refusal)),
    }
}
