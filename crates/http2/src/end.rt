//! How a call ends.

ghost use Rattle.std.specs.Prelude.{◌≡◌};
ghost use Rattle.http2.specs.Control.{ControlValue, next_of, went_away};

use crate::fault::{Code, Fault};
use crate::frame::word;

/// Why the call is over.
#[derive(Clone, Copy, Debug, PartialEq, Eq)]
pub enum End {
    /// The connection or the call broke by the peer's fault, or memory ran out.
    Broken(Fault),
    /// The peer reset the call, with this code (RFC 9113, 6.4).
    Reset(u32),
    /// The peer goes away and will not serve the call; the code says why (RFC 9113, 6.8).
    Away(u32),
    /// The answer is no answer of gRPC: its status of HTTP is not 200, or its content is of another type. The status, and
    /// its grpc-status; if that was not told, the one that the status means.
    Refused(u32, u32),
    /// The call ended, with this grpc-status if it was told.
    Status(Option<u32>),
    /// The client gave the call up.
    Cancelled,
}

/// The connection broke with this code.
pub(crate) fn broken(code: Code) -> End
    ensures { result ≡ End.Broken (Fault.Connection code) }
{
    End::Broken(Fault::Connection(code))
}

/// The call broke with this code.
pub(crate) fn failed(code: Code) -> End
    ensures { result ≡ End.Broken (Fault.Stream code) }
{
    End::Broken(Fault::Stream(code))
}

/// Why the call is over if the peer goes away with this payload of GOAWAY.
pub(crate) fn went_away(payload: &[u8]) -> Option<End>
    ensures { (c : ControlValue) → next_of result c ≡ went_away c payload.now }
{
    if word(payload, 0) % (1 << 31) == 0 {
        return Some(End::Away(word(payload, 4)));
    }
    None
}
