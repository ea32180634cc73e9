//! A request by its parts, as C gives it.

ghost use Rattle.std.specs.Prelude.{◌≡◌, map};
ghost use Rattle.c_inputs.specs.Requests.{are_too_long, has_long_line, is_long_line, parts_given, protocol_given, protocol_numbered};
ghost use Rattle.http_front.specs.Parts.{field_view};

use attributes::{Limit, Limits, Protocol};
use http_front::Line;

// A longer value is not read: its length may be wrong. A head has at most so many bytes, and white space around a value
// does not count for its limit.
const MOST_BYTES: usize = 65_536;

/// A request by its parts. Names are in any case; the host is a line `host` or `:authority`. The protocol is 2 for HTTP/2
/// and 3 for HTTP/3. It is 0 for HTTP/1, which is HTTP/1.1 or, if not, HTTP/1.0.
#[repr(C)]
#[derive(Drop)]
pub struct RequestInput<'a> {
    pub method: &'a [u8],
    pub target: &'a [u8],
    pub lines: &'a [Line<'a>],
    pub is_http11: bool,
    pub protocol: u64,
}

impl<'a> RequestInput<'a> {
    /// Whether the request is outside the limits by the lengths of its parts alone. No byte of a part is read.
    pub fn is_too_long(&self, limits: &Limits) -> bool
        ensures { result ≡ are_too_long limits.now (parts_given self.now) }
    {
        self.method.len() > limits.get(Limit::Method)
            || self.target.len() > limits.get(Limit::Target)
            || self.lines.len() > limits.get(Limit::Fields)
            || has_long_line(self.lines, limits.get(Limit::Name))
    }

    /// The protocol; `None` if its number is that of none.
    pub fn given_protocol(&self) -> Option<Protocol>
        ensures { result ≡ protocol_given self.now }
    {
        protocol_numbered(self.is_http11, self.protocol)
    }
}

// The protocol of this number.
fn protocol_numbered(http11: bool, number: u64) -> Option<Protocol>
    ensures { result ≡ protocol_numbered http11 number }
{
    match number {
        0 => Some(Protocol::of_head(http11)),
        2 => Some(Protocol::Http2),
        3 => Some(Protocol::Http3),
        _ => None,
    }
}

// Whether some line's name has more than `most` bytes, or its value more than a head.
fn has_long_line(lines: &[Line<'_>], most: usize) -> bool
    ensures { result ≡ has_long_line most (map field_view lines.now) }
{
    for line in lines {
        if is_long_line(line, most) {
            return true;
        }
    }
    false
}

fn is_long_line(line: &Line<'_>, most: usize) -> bool
    ensures { result ≡ is_long_line most (field_view line.now) }
{
    line.name.len() > most || line.value.len() > MOST_BYTES
}
