//! Why a line of an input cannot be read.

use crate::members::InvalidValue;
use std::alloc::AllocError;
use std::error::Error;
use std::fmt;

/// Why a line cannot be read.
#[derive(Clone, Copy, Debug)]
pub enum LineFault {
    /// The line is no JSON object of an event.
    BadLine,
    /// Memory ran out.
    Memory,
}

impl fmt::Display for LineFault {
    ghost use Rattle.program_texts.specs.InputLines.{fault_text};
    ghost use Rattle.std.specs.Prelude.{Some};

    ghost output = { λ fault. Some (fault_text fault) };

    fn fmt<W: fmt::Write>(&self, f: &mut fmt::Formatter<W>) -> fmt::Result {
        f.write_str(match self {
            LineFault::BadLine => "bad line",
            LineFault::Memory => "memory",
        })
    }
}

impl Error for LineFault {}

impl From<AllocError> for LineFault {
    ghost use Rattle.std.specs.Prelude.{◌≡◌};
    ghost use Rattle.program_texts.specs.declared.line_fault.LineFault.TheVariants.{Memory};

    ghost from_gives = { λ _ e. e ≡ Memory };

    fn from(_refused: AllocError) -> LineFault {
        LineFault::Memory
    }
}

impl From<InvalidValue> for LineFault {
    ghost use Rattle.std.specs.Prelude.{◌≡◌};
    ghost use Rattle.program_texts.specs.declared.line_fault.LineFault.TheVariants.{BadLine};

    ghost from_gives = { λ _ e. e ≡ BadLine };

    fn from(_misfit: InvalidValue) -> LineFault {
        LineFault::BadLine
    }
}

impl From<serde_json::Error> for LineFault {
    ghost use Rattle.std.specs.Prelude.{◌≡◌, ◌⊎◌};
    ghost use Rattle.serde_json.specs.Errors.{IsMemory};
    ghost use Rattle.program_texts.specs.declared.line_fault.LineFault.TheVariants.{BadLine, Memory};

    ghost from_gives = { λ error e. ((e ≡ Memory) × IsMemory error) ⊎ ((e ≡ BadLine) × ¬ IsMemory error) };

    fn from(error: serde_json::Error) -> LineFault {
        if error.is_memory() {
            LineFault::Memory
        } else {
            LineFault::BadLine
        }
    }
}
