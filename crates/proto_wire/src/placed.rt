//! Why a message is refused, and which part of it has the fault.

ghost use Rattle.std.specs.Prelude.{◌≡◌, Ok, IfErr, MatchResult, IsErrAnd};
ghost use Rattle.proto_wire.specs.Places.{IsAt, IsInside, path_at, path_of};
ghost use Rattle.proto_wire.specs.declared.refusal.Refusal.TheVariants.{Memory};

use crate::place::Place;
use crate::refusal::Refusal;
use std::alloc::{AllocError, AllocFailed};

/// Why a message is refused, and the part of it that has the fault.
#[derive(Clone, Copy, PartialEq, Eq, Debug)]
pub struct Fault {
    pub refusal: Refusal,
    pub place: Place,
}

// Each reader's result has room for a fault, so a larger one would slow all reading.
const _: () = prove!(size_of::<Fault>() <= 32);

impl Fault {
    /// A fault of the message itself if the number is 0, or of its field of this number.
    #[cold]
    #[inline(never)]
    pub fn at(refusal: Refusal, number: u32) -> Fault
        ensures refusal { result.refusal ≡ refusal }
        ensures place { path_of result.place ≡ path_at number }
    {
        Fault {
            refusal,
            place: Place::at(number),
        }
    }

    /// The same fault, of the message that has this one in the field of this number at this position.
    #[cold]
    #[inline(never)]
    pub fn inside(self, number: u32, position: usize) -> Fault
        ensures { IsInside number position self result }
    {
        Fault {
            refusal: self.refusal,
            place: self.place.inside(number, position),
        }
    }
}

impl From<Refusal> for Fault {
    ghost from_gives = { λ refusal fault. IsAt 0 refusal fault };

    fn from(refusal: Refusal) -> Fault {
        Fault::at(refusal, 0)
    }
}

impl From<AllocError> for Fault {
    ghost from_gives = { λ _ fault. fault.refusal ≡ Memory };

    fn from(_error: AllocError) -> Fault {
        Fault::at(Refusal::Memory, 0)
    }
}

impl<T: Drop> From<AllocFailed<T>> for Fault {
    ghost from_gives = { λ _ fault. fault.refusal ≡ Memory };

    fn from(_error: AllocFailed<T>) -> Fault {
        Fault::at(Refusal::Memory, 0)
    }
}

impl From<Fault> for Refusal {
    ghost from_gives = { λ fault refusal. refusal ≡ fault.refusal };

    fn from(fault: Fault) -> Refusal {
        fault.refusal
    }
}

/// What was read of the field of this number, or its refusal as the field's fault.
#[inline(always)]
pub fn at_field<T>(read: Result<T, Refusal>, number: u32) -> Result<T, Fault>
    ensures same { MatchResult read (λ x. result ≡ Ok x)
        (λ e. IsErrAnd result (λ f. f.refusal ≡ e)) }
    ensures place { IfErr result (λ f. path_of f.place ≡ path_at number) }
{
    match read {
        Ok(value) => Ok(value),
        Err(refusal) => Err(Fault::at(refusal, number)),
    }
}

/// What was read of the field of this number at this position, or its fault as one inside the field.
#[inline(always)]
pub fn inside_field<T>(read: Result<T, Fault>, number: u32, position: usize) -> Result<T, Fault>
    ensures { MatchResult read (λ x. result ≡ Ok x)
        (λ e. IsErrAnd result (IsInside number position e)) }
{
    match read {
        Ok(value) => Ok(value),
        Err(fault) => Err(fault.inside(number, position)),
    }
}
