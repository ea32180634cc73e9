//! What a frame of the client brings to a server of unary calls.

ghost use Rattle.std.specs.Prelude.{◌≡◌, ◌<◌};

use crate::fault::{Code, Fault};
use crate::stream::Call;

/// A stream that the server resets, and the code.
#[derive(Clone, Copy, Debug)]
pub(crate) struct Reset {
    pub(crate) stream: u32,
    pub(crate) code: Code,
    ghost small: { stream < 2147483648 },
}

/// What a frame brings.
#[derive(Debug, Drop)]
pub(crate) enum News {
    /// Nothing.
    Quiet,
    /// A stream is reset.
    Resets(Reset),
    /// A call is whole.
    Asks(Call),
    /// The connection is over.
    Over(Fault),
}

impl News {
    ghost use Rattle.http2.specs.Exchange.{ExchangeValue, on, resets};
    ghost use Rattle.http2.specs.Exchanges.{turn_of};

    /// A stream is reset with this code.
    pub(crate) fn resets(stream: u32, code: Code) -> News
        requires { stream < 2147483648 }
        ensures reset { (c : ExchangeValue) → turn_of result c ≡ on c (resets stream code) }
    {
        News::Resets(Reset { stream, code })
    }

    /// The connection broke with this code.
    pub(crate) fn breaks(code: Code) -> News
        ensures { result ≡ News.Over (Fault.Connection code) }
    {
        News::Over(Fault::Connection(code))
    }
}
