//! How an evaluation ends without an answer.

ghost use Rattle.std.specs.Prelude.{◌≡◌, ◌+◌, ◌<◌, IfErr, OnOk};

use std::alloc::{AllocError, AllocFailed};

/// Why an evaluation ends without an answer.
#[derive(Clone, Copy, PartialEq, Eq, Debug)]
pub enum Stopped {
    /// Out of memory.
    Memory,
    /// It takes more steps than it may.
    OutOfSteps,
}

impl From<AllocError> for Stopped {
    ghost use Rattle.std.specs.Prelude.{◌≡◌};
    ghost use Rattle.cel_meaning.specs.declared.stopped.Stopped.TheVariants.{Memory};

    ghost from_gives = { λ _ e. e ≡ Memory };

    fn from(_: AllocError) -> Stopped {
        Stopped::Memory
    }
}

impl<T: Drop> From<AllocFailed<T>> for Stopped {
    ghost use Rattle.std.specs.Prelude.{◌≡◌};
    ghost use Rattle.cel_meaning.specs.declared.stopped.Stopped.TheVariants.{Memory};

    ghost from_gives = { λ _ e. e ≡ Memory };

    fn from(_: AllocFailed<T>) -> Stopped {
        Stopped::Memory
    }
}

/// Takes a step from those that are left; `OutOfSteps` if none is left.
pub(super) fn spend(left: &mut u64) -> Result<(), Stopped>
    ensures taken { OnOk result (1 + left.new ≡ left.old) }
    ensures out { IfErr result (λ e. (e ≡ Stopped.OutOfSteps) × (left.old < 1)) }
{
    if *left < 1 {
        return Err(Stopped::OutOfSteps);
    }
    *left -= 1;
    Ok(())
}
