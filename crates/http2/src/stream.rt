//! The streams that a client has open, and the calls that they bring.

ghost use Rattle.std.specs.Prelude.{◌≡◌, ◌<◌, ◌^◌};

use hpack::Field;

/// A request.
#[derive(Debug, Drop)]
pub struct Request {
    pub fields: Vec<Field>,
    pub content: Vec<u8>,
}

/// A call whose request is whole, and its stream.
#[derive(Debug, Drop)]
pub struct Call {
    pub stream: u32,
    pub request: Request,
}

/// A stream that is open.
#[derive(Debug, Drop)]
pub(crate) struct Stream {
    pub(crate) number: u32,
    /// Its request until that is whole, and what is still to come of the content, if that was told.
    pub(crate) request: Option<Request>,
    pub(crate) left: Option<u64>,
    /// Whether the answer's fields were written.
    pub(crate) begun: bool,
    /// What the client added to the stream's window, and how much of the window was used.
    pub(crate) raised: u64,
    pub(crate) used: u64,
    ghost small: { number < 2147483648 },
    ghost sum: { raised < 2 ^ 63 },
}

impl Stream {
    ghost use Rattle.std.specs.Option.{option_map};
    ghost use Rattle.http2.specs.Streams.{fresh};
    ghost use Rattle.http2.specs.StreamViews.{stream_view, request_view};

    /// A stream that was just opened.
    pub(crate) fn fresh(number: u32, request: Option<Request>, left: Option<u64>) -> Stream
        requires { number < 2147483648 }
        ensures { stream_view result ≡ fresh number (option_map request_view request) left }
    {
        Stream {
            number,
            request,
            left,
            begun: false,
            raised: 0,
            used: 0,
        }
    }
}
