//! The request that a CheckRequest means (`envoy.service.auth.v3.CheckRequest`).

ghost use Rattle.std.specs.Prelude.{◌≡◌, Some, true, IfErr, IfOk, map};
ghost use Rattle.http_front.specs.Parts.{parts_view};
ghost use Rattle.proto_wire.specs.Fields.{field_view};
ghost use Rattle.proto_wire.specs.Values.{bytes_at};
ghost use Rattle.check_request.specs.Check.{IsCheck, IsContext, IsKnown, is_scheme, protocol_named};
ghost use Rattle.check_request.specs.Faults.{ContextFault, FaultOr, HasFault, HttpFault};
ghost use Rattle.check_request.specs.Numbers.{http_field};
ghost use Rattle.check_request.specs.View.{check_view, known_view};
ghost use Rattle.check_request.specs.private.Contexts.{KnownFault};

use crate::fault::CheckFault;
use crate::fields::{fields_in, inner, text_in};
use crate::filters::read_filters;
use crate::known::{Known, conn_of};
use crate::lines::read_lines;
use crate::part::{CheckPart, End, PrincipalName};
use crate::socket::read_end;
use attributes::{Conn, Protocol};
use http_front::{HeadParts, Line};
use proto_wire::{Field, Refusal, bytes_at, payloads_of};
use std::alloc::Global;

/// What a CheckRequest asks: the parts of a request, the facts of its connection, and which filters are asked.
#[derive(Drop)]
pub struct Check<'a> {
    pub method: &'a [u8],
    pub target: &'a [u8],
    pub protocol: Protocol,
    /// The field lines, with the host as `:authority` and no other pseudo-header.
    pub lines: Vec<Line<'a>>,
    pub conn: Conn,
    /// The value of `filters` among the extensions, if it is there.
    pub filters: Option<&'a str>,
}

// The number of `attributes` in a CheckRequest.
const ATTRIBUTES: u32 = 1;

// The numbers of the fields of an AttributeContext.
const SOURCE: u32 = 1;

const DESTINATION: u32 = 2;

const REQUEST: u32 = 4;

const EXTENSIONS: u32 = 10;

const SESSION: u32 = 12;

// The number of `principal` in a Peer.
const PRINCIPAL: u32 = 4;

// The number of `http` in a Request.
const HTTP: u32 = 2;

// The numbers of the fields of an HttpRequest.
const METHOD: u32 = 2;

const PATH: u32 = 4;

const SCHEME: u32 = 6;

const PROTOCOL: u32 = 10;

// The number of `sni` in a TLSSession.
const SNI: u32 = 1;

impl<'a> Check<'a> {
    /// The parts of the request.
    pub fn parts(&self) -> HeadParts<'_>
        ensures { parts_view result ≡ (check_view self.now).parts }
    {
        HeadParts {
            method: self.method,
            target: self.target,
            protocol: self.protocol,
            lines: &self.lines,
        }
    }
}

/// What the bytes of a CheckRequest ask; `name` says which name of its certificate the peer's principal is. If there
/// are several faults, gives one of them.
pub fn read_check<'a>(
    alloc: Global,
    name: PrincipalName,
    bytes: &'a [u8],
) -> Result<Check<'a>, CheckFault>
    ensures found { IfOk result (λ c. IsCheck name bytes.now (check_view c)) }
    ensures fault { IfErr result (FaultOr (HasFault bytes.now)) }
{
    let check = fields_in(alloc, &[bytes], CheckPart::Whole)?;
    let context = inner(alloc, &check, ATTRIBUTES, CheckPart::Attributes)?;
    read_context(alloc, name, &context)
}

// What an AttributeContext with these fields asks.
fn read_context<'a>(
    alloc: Global,
    name: PrincipalName,
    context: &[Field<'a>],
) -> Result<Check<'a>, CheckFault>
    ensures found { IfOk result (λ c. IsContext name (map field_view context.now) (check_view c)) }
    ensures fault { IfErr result (FaultOr (ContextFault (map field_view context.now))) }
{
    let request = inner(alloc, context, REQUEST, CheckPart::Request)?;
    let http = inner(alloc, &request, HTTP, CheckPart::Http)?;
    let protocol = read_protocol(&http)?;
    let lines = read_lines(alloc, &http)?;
    let known = read_known(alloc, context, &http)?;
    let extensions = payloads_of(alloc, context, EXTENSIONS)?;
    Ok(Check {
        method: bytes_at(&http, METHOD),
        target: bytes_at(&http, PATH),
        protocol,
        lines,
        conn: conn_of(alloc, name, &known)?,
        filters: read_filters(alloc, &extensions)?,
    })
}

// What an AttributeContext and its HttpRequest with these fields say of the connection.
fn read_known<'a>(
    alloc: Global,
    context: &[Field<'a>],
    http: &[Field<'a>],
) -> Result<Known<'a>, CheckFault>
    ensures found { IfOk result (λ k.
        IsKnown (map field_view context.now) (map field_view http.now) (known_view k)) }
    ensures fault { IfErr result (FaultOr (KnownFault (map field_view context.now)
        (map field_view http.now))) }
{
    let source = inner(alloc, context, SOURCE, CheckPart::Peer(End::Source))?;
    let destination = inner(
        alloc,
        context,
        DESTINATION,
        CheckPart::Peer(End::Destination),
    )?;
    let session = inner(alloc, context, SESSION, CheckPart::Session)?;
    Ok(Known {
        scheme: read_scheme(http)?,
        source: read_end(alloc, &source, End::Source)?,
        destination: read_end(alloc, &destination, End::Destination)?,
        principal: text_in(&source, PRINCIPAL, CheckPart::Principal)?,
        server_name: text_in(&session, SNI, CheckPart::ServerName)?,
    })
}

// The protocol of an HttpRequest with these fields.
fn read_protocol(http: &[Field<'_>]) -> Result<Protocol, CheckFault>
    ensures found { IfOk result (λ p.
        protocol_named (bytes_at http_field.protocol (map field_view http.now)) ≡ Some p) }
    ensures fault { IfErr result (λ f. HttpFault (map field_view http.now) f.part f.refusal) }
{
    match protocol_named(bytes_at(http, PROTOCOL)) {
        Some(protocol) => Ok(protocol),
        None => Err(CheckFault {
            part: CheckPart::Protocol,
            refusal: Refusal::OutOfRange,
        }),
    }
}

// The protocol of this name.
fn protocol_named(name: &[u8]) -> Option<Protocol>
    ensures { result ≡ protocol_named name.now }
{
    if name == b"HTTP/1.0".as_slice() {
        return Some(Protocol::Http10);
    }
    if name == b"HTTP/1.1".as_slice() {
        return Some(Protocol::Http11);
    }
    if name == b"HTTP/2".as_slice() {
        return Some(Protocol::Http2);
    }
    if name == b"HTTP/3".as_slice() {
        return Some(Protocol::Http3);
    }
    None
}

// The scheme of an HttpRequest with these fields.
fn read_scheme<'a>(http: &[Field<'a>]) -> Result<&'a str, CheckFault>
    ensures found { let scheme = bytes_at http_field.scheme (map field_view http.now) in
        IfOk result (λ t. (t.now ≡ scheme) × (is_scheme scheme ≡ true)) }
    ensures fault { IfErr result (λ f. HttpFault (map field_view http.now) f.part f.refusal) }
{
    let scheme = text_in(http, SCHEME, CheckPart::Scheme)?;
    if is_scheme(scheme) {
        return Ok(scheme);
    }
    Err(CheckFault {
        part: CheckPart::Scheme,
        refusal: Refusal::OutOfRange,
    })
}

fn is_scheme(scheme: &str) -> bool
    ensures { result ≡ is_scheme scheme.now }
{
    scheme == "http" || scheme == "https"
}
