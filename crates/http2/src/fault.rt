//! Why a connection or a stream ends.

ghost use Rattle.std.specs.Prelude.{◌≡◌};
ghost use Rattle.http2.specs.declared.fault.Fault.TheVariants.{Memory};

use std::alloc::{AllocError, AllocFailed};

/// The error codes (RFC 9113, 7).
#[derive(Clone, Copy, Debug, PartialEq, Eq)]
pub enum Code {
    NoError = 0,
    Protocol = 1,
    Internal = 2,
    FlowControl = 3,
    SettingsTimeout = 4,
    StreamClosed = 5,
    FrameSize = 6,
    RefusedStream = 7,
    Cancel = 8,
    Compression = 9,
    Connect = 10,
    EnhanceYourCalm = 11,
}

/// What is wrong, and what it ends.
#[derive(Clone, Copy, Debug, PartialEq, Eq)]
pub enum Fault {
    /// Memory ran out.
    Memory,
    /// The connection ends with this code.
    Connection(Code),
    /// The stream ends with this code.
    Stream(Code),
}

impl Fault {
    ghost use Rattle.std.specs.Prelude.{◌≡◌};
    ghost use Rattle.http2.specs.Exchanged.{number_of, code_of};

    /// The code that the peer gets.
    pub fn code(&self) -> Code
        ensures { number_of result ≡ code_of self.now }
    {
        match self {
            Fault::Memory => Code::Internal,
            Fault::Connection(code) => *code,
            Fault::Stream(code) => *code,
        }
    }
}

impl From<AllocError> for Fault {
    ghost from_gives = { λ _ e. e ≡ Memory };

    fn from(_e: AllocError) -> Fault {
        Fault::Memory
    }
}

impl<T: Drop> From<AllocFailed<T>> for Fault {
    ghost from_gives = { λ _ e. e ≡ Memory };

    fn from(_e: AllocFailed<T>) -> Fault {
        Fault::Memory
    }
}
