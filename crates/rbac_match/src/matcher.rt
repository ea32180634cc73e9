//! The leaves of permissions and principals: tests of one fact of a request.

use crate::cidr::AddressSource;
use crate::header::HeaderMatcher;
use crate::ports::PortRange;
use crate::text::TextMatcher;
use attributes::Cidr;

/// A test of one fact of a request, as a message has it. The reader refuses every fault, so a test cannot
/// fail.
#[derive(Drop)]
pub enum Matcher<'a> {
    /// A header of the request passes.
    Header(HeaderMatcher<'a>),
    /// An address of the request is in the range; an unknown address is in no range.
    Address(AddressSource, Cidr),
    /// The request goes to this port.
    Port(u16),
    /// The request goes to one of these ports.
    PortRange(PortRange),
    /// The requested server name passes; an absent one is the empty text.
    ServerName(TextMatcher<'a>),
    /// The target up to its first `?` or `#` passes.
    UrlPath(TextMatcher<'a>),
    /// The connection uses mutual TLS, and its peer's name passes, if there is a test of it.
    Authenticated(Option<TextMatcher<'a>>),
}
