//! Reads what one head asks.
ghost use Rattle.std.specs.Prelude.{◌≡◌, ◌<◌, ◌≤◌, ◌==◌, IfNone, IfOk, IfSome, IsOk, count_by, length, take};
ghost use Rattle.attributes.specs.Conn.{Facts, conn_view};
ghost use Rattle.httparse.specs.Ascii.{line_feed};
ghost use Rattle.http_front.specs.declared.fault.HeadFault.{HeadFault};
ghost use Rattle.http_front.specs.Head.{head_room};
ghost use Rattle.http_front.specs.Asks.{AskFault, HasFault, HeadAsks, IfFault, IfJudge, IsUnfinished};
ghost use Rattle.http_front.specs.Rules.{RuleFault};
ghost use Rattle.http_front.specs.private.Parsed.{AreTexts};
ghost use Rattle.http_front.specs.private.Asks.{IsAskIn, IsAskOf, IsAskWithin, IsNoHead};

use crate::fault::HeadFault;
use crate::head::{Head, Parsed, parse, parse_few};
use attributes::{Conn, Limits, Request};
use httparse::spans::{EMPTY_HEADER_SPAN, HeaderSpan};
use memchr::memchr_iter;
use std::alloc::{AllocError, Global};
use std::sync::Arc;

/// The greatest length of a head in bytes.
pub(crate) const HEAD_ROOM: usize = 65_536;

/// The spans of so many fields take no memory of the heap. No request within the limits has more.
pub(crate) const FEW_LINES: usize = 64;

/// The request that a head asks for, or its fault.
#[derive(Debug, Drop)]
pub enum HeadAsk {
    /// The request is to be judged.
    Judge(Request),
    /// There is this fault.
    Fault(HeadFault),
}

/// Reads what the head at the front of the bytes asks, on the connection `conn`. Ignores the bytes
/// after the head. If there are several faults, gives one of them. `None` if the head is
/// incomplete, and has not passed its greatest length.
pub fn read_head(
    alloc: Global,
    bytes: &[u8],
    limits: &Limits,
    conn: Conn,
) -> Result<Option<HeadAsk>, AllocError>
    ensures judged { IfOk result (λ found.
        IfJudge found (HeadAsks bytes.now limits.now (conn_view conn))) }
    ensures fault { IfOk result (λ found.
        IfFault found (HasFault bytes.now limits.now (conn_view conn))) }
    ensures unfinished { IfOk result (λ found. IfNone found (IsUnfinished bytes.now)) }
{
    let room = &bytes[..bytes.len().min(HEAD_ROOM)];
    let mut few = [EMPTY_HEADER_SPAN; FEW_LINES];
    if let Some(parsed) = parse_few(room, &mut few) {
        return ask_in(alloc, parsed, bytes.len(), limits, conn);
    }
    let mut fields = vec![in alloc; EMPTY_HEADER_SPAN; line_feeds(room)]?;
    ask_with(alloc, bytes, &mut fields, limits, conn)
}

// The same with `fields`, room for as many fields as the bytes have line feeds.
fn ask_with(
    alloc: Global,
    bytes: &[u8],
    fields: &mut [HeaderSpan],
    limits: &Limits,
    conn: Conn,
) -> Result<Option<HeadAsk>, AllocError>
    requires { length fields.old ≡ count_by (λ b. b == line_feed) (take head_room bytes.now) }
    ensures judged { IfOk result (λ found.
        IfJudge found (HeadAsks bytes.now limits.now (conn_view conn))) }
    ensures fault { IfOk result (λ found.
        IfFault found (HasFault bytes.now limits.now (conn_view conn))) }
    ensures unfinished { IfOk result (λ found. IfNone found (IsUnfinished bytes.now)) }
{
    let room = &bytes[..bytes.len().min(HEAD_ROOM)];
    ask_in(alloc, parse(room, fields), bytes.len(), limits, conn)
}

// The ask of what the parser gave for as many bytes as a head may have; `length` is the number of all bytes. Without
// a whole head no memory is taken.
fn ask_in(
    alloc: Global,
    parsed: Parsed<'_>,
    length: usize,
    limits: &Limits,
    conn: Conn,
) -> Result<Option<HeadAsk>, AllocError>
    ensures found { IfOk result (IsAskIn limits.now (conn_view conn) length parsed.entry) }
    ensures sure { IsNoHead parsed.entry → IsOk result }
{
    match parsed {
        Parsed::Whole(head, _) => Ok(Some(ask_of(alloc, &head, limits, conn)?)),
        Parsed::Hopeless(part) => Ok(Some(HeadAsk::Fault(HeadFault::Malformed(part)))),
        Parsed::Unfinished => {
            if length > HEAD_ROOM {
                Ok(Some(HeadAsk::Fault(HeadFault::TooLong)))
            } else {
                Ok(None)
            }
        }
    }
}

/// The number of line feeds in the bytes; any head in them has fewer fields.
pub(crate) fn line_feeds(bytes: &[u8]) -> usize
    ensures { result ≡ count_by (λ b. b == line_feed) bytes.now }
{
    memchr_iter(b'\n', bytes).count()
}

/// The request or the fault of a whole head. No memory is taken for a head that breaks a rule or has too many fields.
pub(crate) fn ask_of(
    alloc: Global,
    head: &Head<'_>,
    limits: &Limits,
    conn: Conn,
) -> Result<HeadAsk, AllocError>
    ensures found { IfOk result (IsAskOf limits.now (conn_view conn) head.now) }
    ensures broken { (fault : HeadFault) → RuleFault head.now fault → IsOk result }
    ensures many { limits.now.fields < length head.now.fields → IsOk result }
{
    if let Some(fault) = refusal_of(head, limits) {
        return Ok(HeadAsk::Fault(fault));
    }
    ask_on(alloc, head, limits, Arc::new(alloc, conn)?)
}

/// The fault of a head that breaks a rule or has too many fields.
pub(crate) fn refusal_of(head: &Head<'_>, limits: &Limits) -> Option<HeadFault>
    ensures sound { IfNone result ((fault : HeadFault) → ¬ (RuleFault head.now fault)) }
    ensures texts { IfNone result (AreTexts head.now) }
    ensures few { IfNone result (length head.now.fields ≤ limits.now.fields) }
    ensures fault { (facts : Facts) → IfSome result (AskFault limits.now facts head.now) }
{
    if let Some(fault) = head.fault() {
        return Some(fault);
    }
    if head.exceeds(limits) {
        return Some(HeadFault::OutsideLimits);
    }
    None
}

/// The ask of a head that breaks no rule, on the connection `conn`.
pub(crate) fn ask_on(
    alloc: Global,
    head: &Head<'_>,
    limits: &Limits,
    conn: Arc<Conn>,
) -> Result<HeadAsk, AllocError>
    requires sound { (fault : HeadFault) → ¬ (RuleFault head.now fault) }
    requires texts { AreTexts head.now }
    ensures { IfOk result (IsAskOf limits.now (conn_view conn.value) head.now) }
{
    let request = head.to_request(alloc, conn)?;
    Ok(ask_within(limits, request))
}

// The ask for a request; a fault if the request is outside the limits.
#[inline(always)]
fn ask_within(limits: &Limits, request: Request) -> HeadAsk
    ensures { IsAskWithin limits.now request result }
{
    if limits.fits(&request) {
        HeadAsk::Judge(request)
    } else {
        HeadAsk::Fault(HeadFault::OutsideLimits)
    }
}
