//! The protocol of a request.
ghost use Rattle.std.specs.Prelude.{◌≡◌};
ghost use Rattle.attributes.specs.Request.{head_protocol, protocol_of};

/// The protocol of a request (RFC 9110, section 2.5).
#[derive(Clone, Copy, Debug, PartialEq, Eq)]
pub enum Protocol {
    /// HTTP/1.0 (RFC 9112).
    Http10,
    /// HTTP/1.1 (RFC 9112).
    Http11,
    /// HTTP/2 (RFC 9113).
    Http2,
    /// HTTP/3 (RFC 9114).
    Http3,
}

impl Protocol {
    /// The protocol of a head of HTTP/1, which is HTTP/1.1 or, if not, HTTP/1.0.
    pub fn of_head(http11: bool) -> Protocol
        ensures { result ≡ head_protocol http11 }
    {
        if http11 {
            Protocol::Http11
        } else {
            Protocol::Http10
        }
    }

    /// The protocol as Envoy writes it in `request.protocol`.
    pub fn text(self) -> &'static str
        ensures { result.now ≡ protocol_of self }
    {
        match self {
            Protocol::Http10 => "HTTP/1.0",
            Protocol::Http11 => "HTTP/1.1",
            Protocol::Http2 => "HTTP/2",
            Protocol::Http3 => "HTTP/3",
        }
    }
}
