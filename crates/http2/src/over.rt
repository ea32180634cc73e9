//! How a call that was served ends.

ghost use Rattle.std.specs.Prelude.{◌≡◌};

use crate::fault::{Code, Fault};

/// Why a call that was served is over.
#[derive(Clone, Copy, Debug, PartialEq, Eq)]
pub enum Over {
    /// The connection or the call broke by the peer's fault, or memory ran out.
    Broken(Fault),
    /// The peer reset the call, with this code (RFC 9113, 6.4).
    Reset(u32),
    /// The answer was written to its end.
    Answered,
}

/// The connection broke with this code.
pub(crate) fn broke(code: Code) -> Over
    ensures { result ≡ Over.Broken (Fault.Connection code) }
{
    Over::Broken(Fault::Connection(code))
}

/// The call broke with this code.
pub(crate) fn stopped(code: Code) -> Over
    ensures { result ≡ Over.Broken (Fault.Stream code) }
{
    Over::Broken(Fault::Stream(code))
}
