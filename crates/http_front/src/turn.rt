//! The first ask of some bytes.
ghost use Rattle.std.specs.Prelude.{◌≡◌, ◌≤◌, ℕ, List, IfOk, IsOk, length, take};
ghost use Rattle.attributes.specs.Conn.{Facts, conn_view};
ghost use Rattle.attributes.specs.Limits.{LimitsValue};
ghost use Rattle.http_front.specs.Head.{head_room};
ghost use Rattle.http_front.specs.private.Asks.{IsAskOf, IsNoHead, KeepsRules};
ghost use Rattle.http_front.specs.private.Parsed.{IsParsed};
ghost use Rattle.http_front.specs.private.Turns.{IsParsedOf, IsTurn, IsTurnIn, IsTurnOf, IsTurnOfFirst};

use crate::ask::Ask;
use crate::fault::HeadFault;
use crate::head::{Head, Parsed, parse, parse_few};
use crate::read::{FEW_LINES, HEAD_ROOM, HeadAsk, ask_on, line_feeds, refusal_of};
use attributes::{Conn, Limits, Request};
use httparse::spans::EMPTY_HEADER_SPAN;
use memchr::memchr_iter;
use std::alloc::{AllocError, Global};
use std::sync::Arc;

/// The first ask of some bytes, and how they continue after it.
#[derive(Debug, Drop)]
pub(crate) enum Turn {
    /// There is no ask yet.
    Rest,
    /// This ask, and the connection closes.
    Close(Ask),
    /// This request is to be judged. The number is the length of its head and its body.
    Pass(Request, u64),
}

/// If there are more bytes than this, the end of the first head is sought before it is parsed. Then the bytes after the
/// head cost nothing.
pub(crate) const FEW: usize = 1_024;

/// The first ask of the bytes.
pub(crate) fn turn_of(
    alloc: Global,
    limits: &Limits,
    conn: &Arc<Conn>,
    bytes: &[u8],
) -> Result<Turn, AllocError>
    ensures { IfOk result (IsTurn limits.now (conn_view conn.now.value) bytes.now) }
{
    if bytes.len() > FEW {
        match turn_of_first(alloc, limits, conn, bytes, likely_end(bytes))? {
            Turn::Rest => (),
            turn => return Ok(turn),
        }
    }
    turn_of_room(alloc, limits, conn, bytes)
}

// The first ask of the bytes, by as many of them as a head may have.
fn turn_of_room(
    alloc: Global,
    limits: &Limits,
    conn: &Arc<Conn>,
    bytes: &[u8],
) -> Result<Turn, AllocError>
    ensures { IfOk result (IsTurn limits.now (conn_view conn.now.value) bytes.now) }
{
    let turn = turn_of_first(alloc, limits, conn, bytes, bytes.len().min(HEAD_ROOM))?;
    Ok(turn_in_room(turn, bytes.len()))
}

// The turn of `count` bytes, by that of as many of them as a head may have.
#[inline(always)]
fn turn_in_room(turn: Turn, count: usize) -> Turn
    ensures { IsTurnIn count turn result }
{
    match turn {
        Turn::Rest => {
            if count > HEAD_ROOM {
                Turn::Close(Ask::Fault(HeadFault::TooLong))
            } else {
                Turn::Rest
            }
        }
        turn => turn,
    }
}

// The first ask of the bytes, if the first `count` of them suffice for it.
fn turn_of_first(
    alloc: Global,
    limits: &Limits,
    conn: &Arc<Conn>,
    bytes: &[u8],
    count: usize,
) -> Result<Turn, AllocError>
    requires { (count ≤ length bytes.now) × (count ≤ head_room) }
    ensures { IfOk result (IsTurnOfFirst limits.now (conn_view conn.now.value) count bytes.now) }
{
    let first = &bytes[..count];
    let mut few = [EMPTY_HEADER_SPAN; FEW_LINES];
    if let Some(parsed) = parse_few(first, &mut few) {
        return turn_of_parsed(alloc, limits, conn, parsed, count);
    }
    let mut fields = vec![in alloc; EMPTY_HEADER_SPAN; line_feeds(first)]?;
    turn_of_parsed(alloc, limits, conn, parse(first, &mut fields), count)
}

// The first ask, if the parser gave this for `count` bytes. Without a whole head no memory is taken.
fn turn_of_parsed(
    alloc: Global,
    limits: &Limits,
    conn: &Arc<Conn>,
    parsed: Parsed<'_>,
    count: usize,
) -> Result<Turn, AllocError>
    requires { IsParsedOf count parsed }
    ensures found { IfOk result (λ turn. (bytes : List ℕ) → count ≤ length bytes
        → IsParsed (take count bytes) parsed.entry → IsTurnOfFirst limits.now (conn_view conn.now.value) count bytes turn) }
    ensures sure { IsNoHead parsed.entry → IsOk result }
{
    match parsed {
        Parsed::Whole(head, rest) => turn_of_head(alloc, limits, conn, &head, count - rest.len()),
        Parsed::Hopeless(part) => Ok(Turn::Close(Ask::Fault(HeadFault::Malformed(part)))),
        Parsed::Unfinished => Ok(Turn::Rest),
    }
}

// The ask of a whole head of this size.
fn turn_of_head(
    alloc: Global,
    limits: &Limits,
    conn: &Arc<Conn>,
    head: &Head<'_>,
    size: usize,
) -> Result<Turn, AllocError>
    requires { size ≤ 65536 }
    ensures { IfOk result (IsTurnOf limits.now (conn_view conn.now.value) head.now size) }
{
    if let Some(fault) = refusal_of(head, limits) {
        return Ok(Turn::Close(Ask::Fault(fault)));
    }
    let ask = ask_on(alloc, head, limits, conn.clone()?)?;
    Ok(turn_of_ask(ask, head, size))
}

// How the bytes continue after the ask of a whole head of this size.
#[inline(always)]
fn turn_of_ask(ask: HeadAsk, head: &Head<'_>, size: usize) -> Turn
    requires size { size ≤ 65536 }
    requires ask { KeepsRules head.now ask }
    ensures { (limits : LimitsValue) (facts : Facts) → IsAskOf limits facts head.now ask
        → IsTurnOf limits facts head.now size result }
{
    match ask {
        HeadAsk::Fault(fault) => Turn::Close(Ask::Fault(fault)),
        HeadAsk::Judge(request) => {
            if head.closes() {
                return Turn::Close(Ask::Judge(request, true));
            }
            Turn::Pass(request, size as u64 + head.body())
        }
    }
}

/// How many bytes the first head has, if its end is within the greatest length. No contract depends on it.
pub(crate) fn likely_end(bytes: &[u8]) -> usize
    ensures { (result ≤ length bytes.now) × (result ≤ head_room) }
{
    let room = bytes.len().min(HEAD_ROOM);
    head_end(&bytes[..room]).min(room)
}

// The index after the first empty line that follows a line which is not empty.
fn head_end(bytes: &[u8]) -> usize {
    let begin = bytes
        .iter()
        .position(|&byte| byte != b'\r' && byte != b'\n')
        .unwrap_or(0);
    let line = bytes.get(begin..).unwrap_or(&[]);
    for feed in memchr_iter(b'\n', line) {
        let next = usize::saturating_add(feed, 1);
        match line.get(next..) {
            Some([b'\n', ..]) => return begin.saturating_add(next).saturating_add(1),
            Some([b'\r', b'\n', ..]) => return begin.saturating_add(next).saturating_add(2),
            _ => (),
        }
    }
    bytes.len()
}
