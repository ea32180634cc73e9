//! The field lines of the head that some bytes begin with.
ghost use Rattle.std.specs.Prelude.{◌≤◌, IfOk, length, option_map, take};
ghost use Rattle.attributes.specs.Headers.{lines_view};
ghost use Rattle.http_front.specs.Head.{head_room};
ghost use Rattle.http_front.specs.Lines.{AreHeadLines, AreLinesOf};

use crate::head::{Head, Parsed, parse};
use crate::read::{HEAD_ROOM, line_feeds};
use crate::turn::{FEW, likely_end};
use httparse::spans::EMPTY_HEADER_SPAN;
use std::alloc::{AllocError, Global};

// A name in lower case and a value.
type Line = (String, String);

/// The field lines of the head that the bytes begin with. `None` if they begin with no whole head, or with one that
/// breaks a rule.
pub(crate) fn lines_at(alloc: Global, bytes: &[u8]) -> Result<Option<Vec<Line>>, AllocError>
    ensures { IfOk result (λ found.
        AreHeadLines bytes.now (option_map (λ lines. lines_view lines.items) found)) }
{
    if bytes.len() > FEW {
        let found = lines_of_first(alloc, bytes, likely_end(bytes))?;
        if found.is_some() {
            return Ok(found);
        }
    }
    lines_of_first(alloc, bytes, bytes.len().min(HEAD_ROOM))
}

// The field lines, if the first `count` of the bytes have the whole head.
fn lines_of_first(
    alloc: Global,
    bytes: &[u8],
    count: usize,
) -> Result<Option<Vec<Line>>, AllocError>
    requires { (count ≤ length bytes.now) × (count ≤ head_room) }
    ensures { IfOk result (λ found.
        AreHeadLines (take count bytes.now) (option_map (λ lines. lines_view lines.items) found)) }
{
    let first = &bytes[..count];
    let mut fields = vec![in alloc; EMPTY_HEADER_SPAN; line_feeds(first)]?;
    match parse(first, &mut fields) {
        Parsed::Whole(head, _) => lines_of_head(alloc, &head),
        Parsed::Unfinished => Ok(None),
        Parsed::Hopeless(_) => Ok(None),
    }
}

// The field lines of a whole head; none if it breaks a rule.
fn lines_of_head(alloc: Global, head: &Head<'_>) -> Result<Option<Vec<Line>>, AllocError>
    ensures { IfOk result (λ found. AreLinesOf head.now (option_map (λ lines. lines_view lines.items) found)) }
{
    match head.fault() {
        None => Ok(Some(head.lines(alloc)?)),
        Some(_) => Ok(None),
    }
}
