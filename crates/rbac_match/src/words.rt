//! The leaves that decide, in words for an operator. No contract describes these texts.

ghost use Rattle.rbac_match.specs.private.Leaves.{GoodLeaf, GoodName, GoodText, IsWithin};

use crate::authenticated::peer_name;
use crate::causes::{Cause, Causes, Step};
use crate::cidr::AddressSource;
use crate::int64_range::Int64Range;
use crate::leaves::{Leaf, Leaves, NameLeaf};
use crate::list::Joint;
use crate::pool::{Pool, Span, TextLeaf};
use crate::ports::PortRange;
use crate::rule::Side;
use crate::text::{Ends, Pattern};
use attributes::{Cidr, Ip, Request};
use std::alloc::{AllocError, Global};
use std::fmt::Write;
use std::net::{Ipv4Addr, Ipv6Addr};

// How many characters of a text are shown.
const SHOWN: usize = 100;

impl Causes<'_> {
    /// Appends each cause in words, such as
    /// `permissions[0].and_rules.rules[1].header "x-user": exact "alice", is "bob"`. The causes are those of the
    /// rules of this side for the request.
    pub fn push_words(
        &self,
        alloc: Global,
        side: Side,
        request: &Request,
        lines: &mut Vec<String>,
    ) -> Result<(), AllocError> {
        for cause in &self.found {
            lines.push(words_of(alloc, self.leaves, cause, side, request)?)?;
        }
        Ok(())
    }
}

// A cause in words.
fn words_of(
    alloc: Global,
    leaves: &Leaves,
    cause: &Cause,
    side: Side,
    request: &Request,
) -> Result<String, AllocError> {
    let mut text = String::new(alloc);
    write_cause(&mut text, leaves, cause, side, request)?;
    Ok(text)
}

// Writes a cause. This function and those below write to a text that they do not own, so that no exit of them frees
// one.
fn write_cause(
    text: &mut String,
    leaves: &Leaves,
    cause: &Cause,
    side: Side,
    request: &Request,
) -> Result<(), AllocError> {
    write_path(text, side, &cause.path)?;
    text.push('.')?;
    write_test(text, leaves, cause.place, request)
}

// The path, with the names of the fields that hold rules.
fn write_path(text: &mut String, side: Side, path: &[Step]) -> Result<(), AllocError> {
    for (depth, step) in path.iter().enumerate() {
        let name = if depth == 0 {
            side_name(side)
        } else {
            joint_name(side, step.joint)
        };
        text.push_str(name)?;
        if step.joint != Joint::Not {
            write!(text, "[{}]", step.index)?;
        }
    }
    Ok(())
}

fn side_name(side: Side) -> &'static str {
    match side {
        Side::Permission => "permissions",
        Side::Principal => "principals",
    }
}

fn joint_name(side: Side, joint: Joint) -> &'static str {
    match (side, joint) {
        (Side::Permission, Joint::And) => ".and_rules.rules",
        (Side::Permission, Joint::Or) => ".or_rules.rules",
        (Side::Permission, Joint::Not) => ".not_rule",
        (Side::Principal, Joint::And) => ".and_ids.ids",
        (Side::Principal, Joint::Or) => ".or_ids.ids",
        (Side::Principal, Joint::Not) => ".not_id",
    }
}

// The test at this place, and what the request has.
fn write_test(
    text: &mut String,
    leaves: &Leaves,
    place: Option<u32>,
    request: &Request,
) -> Result<(), AllocError> {
    let found = match place {
        Some(place) => leaves.leaf(place),
        None => None,
    };
    match found {
        Some((pool, leaf)) => write_leaf(text, pool, leaf, request),
        None => text.push_str("any"),
    }
}

fn write_leaf(
    text: &mut String,
    pool: &Pool,
    leaf: &Leaf,
    request: &Request,
) -> Result<(), AllocError>
    requires { GoodLeaf pool.now leaf.now }
{
    match leaf {
        Leaf::Present(name, wanted) => write_presence(text, pool, name, *wanted, request),
        Leaf::HeaderText(name, test) => write_header_text(text, pool, name, test, request),
        Leaf::HeaderRange(name, range) => write_header_range(text, pool, name, range, request),
        Leaf::Address(source, place) => {
            write_address(text, *source, &pool.ranges[*place as usize], request)
        }
        Leaf::Port(port) => write_port(text, *port, request),
        Leaf::PortRange(ports) => write_port_range(text, ports, request),
        Leaf::ServerName(test) => write_server_name(text, pool, test, request),
        Leaf::UrlPath(test) => write_url_path(text, pool, test, request),
        Leaf::Mutual => write_mutual(text, request),
        Leaf::Named(test) => write_peer(text, pool, test, request),
    }
}

// The test of a header's presence, and what the request has.
fn write_presence(
    text: &mut String,
    pool: &Pool,
    name: &NameLeaf,
    wanted: bool,
    request: &Request,
) -> Result<(), AllocError>
    requires { GoodName pool.now name.now }
{
    write_header(text, pool, name)?;
    text.push_str(if wanted { "present" } else { "missing" })?;
    write_value(text, pool, name, request)
}

// The test of a header's text, and what the request has.
fn write_header_text(
    text: &mut String,
    pool: &Pool,
    name: &NameLeaf,
    test: &TextLeaf,
    request: &Request,
) -> Result<(), AllocError>
    requires name { GoodName pool.now name.now }
    requires text { GoodText pool.now test.now }
{
    write_header(text, pool, name)?;
    write_text_test(text, pool, test)?;
    write_value(text, pool, name, request)
}

// The test of a number in a header, and what the request has.
fn write_header_range(
    text: &mut String,
    pool: &Pool,
    name: &NameLeaf,
    range: &Int64Range,
    request: &Request,
) -> Result<(), AllocError>
    requires { GoodName pool.now name.now }
{
    write_header(text, pool, name)?;
    write!(text, "range [{}, {})", range.start, range.end)?;
    write_value(text, pool, name, request)
}

// The name of a header, before its test.
fn write_header(text: &mut String, pool: &Pool, name: &NameLeaf) -> Result<(), AllocError>
    requires { GoodName pool.now name.now }
{
    text.push_str("header ")?;
    write_quoted(text, part_text(pool, name.name))?;
    text.push_str(": ")
}

// Whether the test of a header is inverted, and the header's value in the request.
fn write_value(
    text: &mut String,
    pool: &Pool,
    name: &NameLeaf,
    request: &Request,
) -> Result<(), AllocError>
    requires { GoodName pool.now name.now }
{
    if name.invert_match {
        text.push_str(" (inverted)")?;
    }
    text.push_str(", is ")?;
    write_found(text, request.header(part_text(pool, name.name)))
}

// The test of a text, such as `exact "alice"`.
fn write_text_test(text: &mut String, pool: &Pool, test: &TextLeaf) -> Result<(), AllocError>
    requires { GoodText pool.now test.now }
{
    match test {
        TextLeaf::Plain(pattern, span) => {
            write_sought(text, pattern_name(*pattern), part_text(pool, *span))
        }
        TextLeaf::AnyCase(ends, span) => {
            write_any_case(text, ends_name(*ends), part_text(pool, *span))
        }
        TextLeaf::Searched(span, _) => write_any_case(text, "contains ", part_text(pool, *span)),
    }
}

fn write_sought(text: &mut String, pattern: &str, sought: &str) -> Result<(), AllocError> {
    text.push_str(pattern)?;
    write_quoted(text, sought)
}

fn write_any_case(text: &mut String, pattern: &str, sought: &str) -> Result<(), AllocError> {
    write_sought(text, pattern, sought)?;
    text.push_str(" ignoring case")
}

fn pattern_name(pattern: Pattern) -> &'static str {
    match pattern {
        Pattern::Exact => "exact ",
        Pattern::Prefix => "prefix ",
        Pattern::Suffix => "suffix ",
        Pattern::Contains => "contains ",
    }
}

fn ends_name(ends: Ends) -> &'static str {
    match ends {
        Ends::Exact => "exact ",
        Ends::Prefix => "prefix ",
        Ends::Suffix => "suffix ",
    }
}

// The range of addresses, and the request's address.
fn write_address(
    text: &mut String,
    source: AddressSource,
    range: &Cidr,
    request: &Request,
) -> Result<(), AllocError> {
    text.push_str(source_name(source))?;
    write_ip(text, range.address())?;
    write!(text, "/{}, is ", range.prefix_len())?;
    match source.of(request.conn()) {
        Some(ip) => write_ip(text, ip),
        None => text.push_str("unknown"),
    }
}

fn source_name(source: AddressSource) -> &'static str {
    match source {
        AddressSource::Destination => "destination_ip: ",
        AddressSource::DirectRemote => "direct_remote_ip: ",
        AddressSource::Remote => "remote_ip: ",
    }
}

fn write_ip(text: &mut String, ip: Ip) -> Result<(), AllocError> {
    match ip {
        Ip::V4(number) => write!(text, "{}", Ipv4Addr::from_bits(number)),
        Ip::V6(number) => write!(text, "{}", Ipv6Addr::from_bits(number)),
    }
}

fn write_port(text: &mut String, port: u16, request: &Request) -> Result<(), AllocError> {
    write!(text, "destination_port: {port}, is ")?;
    write_found_port(text, request)
}

fn write_port_range(
    text: &mut String,
    ports: &PortRange,
    request: &Request,
) -> Result<(), AllocError> {
    let (start, end) = (ports.start, ports.end);
    write!(text, "destination_port_range: [{start}, {end}), is ")?;
    write_found_port(text, request)
}

fn write_found_port(text: &mut String, request: &Request) -> Result<(), AllocError> {
    match request.conn().destination_port {
        Some(port) => write!(text, "{port}"),
        None => text.push_str("unknown"),
    }
}

// The test of the server name that the client requested, and this name.
fn write_server_name(
    text: &mut String,
    pool: &Pool,
    test: &TextLeaf,
    request: &Request,
) -> Result<(), AllocError>
    requires { GoodText pool.now test.now }
{
    text.push_str("requested_server_name: ")?;
    write_text_test(text, pool, test)?;
    text.push_str(", is ")?;
    match &request.conn().requested_server_name {
        Some(name) => write_quoted(text, name.as_str()),
        None => text.push_str("missing"),
    }
}

// The test of the path, and the path.
fn write_url_path(
    text: &mut String,
    pool: &Pool,
    test: &TextLeaf,
    request: &Request,
) -> Result<(), AllocError>
    requires { GoodText pool.now test.now }
{
    text.push_str("url_path: ")?;
    write_text_test(text, pool, test)?;
    text.push_str(", is ")?;
    write_quoted(text, request.url_path())
}

// That mutual TLS is required, and whether it is used.
fn write_mutual(text: &mut String, request: &Request) -> Result<(), AllocError> {
    text.push_str("authenticated: mutual TLS, is ")?;
    text.push_str(match request.conn().mtls {
        Some(true) => "true",
        Some(false) => "false",
        None => "unknown",
    })
}

// The test of the peer's name, and this name, or that the connection does not use mutual TLS.
fn write_peer(
    text: &mut String,
    pool: &Pool,
    test: &TextLeaf,
    request: &Request,
) -> Result<(), AllocError>
    requires { GoodText pool.now test.now }
{
    let conn = request.conn();
    text.push_str("authenticated: ")?;
    write_text_test(text, pool, test)?;
    text.push_str(", is ")?;
    if conn.mtls == Some(true) {
        return write_found(text, peer_name(conn));
    }
    text.push_str("without mutual TLS")
}

// A text of the request in quotes, if it is present.
fn write_found(text: &mut String, found: Option<&str>) -> Result<(), AllocError> {
    match found {
        Some(found) => write_quoted(text, found),
        None => text.push_str("missing"),
    }
}

// The first characters of this part in quotes, and `..` if more follow.
fn write_quoted(text: &mut String, part: &str) -> Result<(), AllocError> {
    match part.char_indices().nth(SHOWN) {
        Some((count, _)) => {
            let start = part.get(..count).unwrap_or("");
            write!(text, "{start:?}..")
        }
        None => write!(text, "{part:?}"),
    }
}

// The text of a span of the pool.
fn part_text(pool: &Pool, span: Span) -> &str
    requires { IsWithin span pool.now }
{
    str::from_utf8(pool.part(span)).unwrap_or("")
}
