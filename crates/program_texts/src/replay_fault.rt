//! Why a replay or a batch ends before its input does.
ghost use Rattle.std.specs.Prelude.{◌≡◌, ◌≢◌};
ghost use Rattle.std.specs.IoError.{error_kind};
ghost use Rattle.program_texts.specs.InputLines.{IsReadingFault};

use std::alloc::AllocError;
use std::io::{self, ErrorKind};

/// Why a replay or a batch ends before its input does.
#[derive(Drop)]
pub enum ReplayFault {
    /// The line with this number, counted from 1, is no event, for this cause.
    Line(u64, String),
    /// The input cannot be read, for this cause.
    Input(io::Error),
    /// The output cannot be written, for this cause.
    Output(io::Error),
    /// Memory ran out.
    Memory,
}

impl From<AllocError> for ReplayFault {
    ghost use Rattle.std.specs.Prelude.{◌≡◌};
    ghost use Rattle.program_texts.specs.declared.replay_fault.ReplayFault.TheVariants.{Memory};

    ghost from_gives = { λ _ e. e ≡ Memory };

    fn from(_refused: AllocError) -> ReplayFault {
        ReplayFault::Memory
    }
}

/// The fault of a replay or a batch whose input fails for this cause: `Memory` exactly if memory ran out.
pub fn input_fault(cause: io::Error) -> ReplayFault
    ensures reading { IsReadingFault result }
    ensures memory { error_kind cause ≡ ErrorKind.OutOfMemory → result ≡ ReplayFault.Memory }
    ensures input { error_kind cause ≢ ErrorKind.OutOfMemory → result ≡ ReplayFault.Input cause }
{
    if cause.kind() == ErrorKind::OutOfMemory {
        return ReplayFault::Memory;
    }
    ReplayFault::Input(cause)
}
