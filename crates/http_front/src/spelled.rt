//! The head that the parts of a request spell (RFC 9112, sections 3 and 5).
ghost use Rattle.std.specs.Prelude.{◌≡◌, ◌+◌, ◌++◌, ◌↔◌, ◌<◌, ◌≤◌, All, IfErr, IfNone, IfOk, IfSome, IsTrue, OnOk, codes, if◌then◌else◌, length, map};
ghost use Rattle.std.specs.List.{flat_map};
ghost use Rattle.httparse.specs.Ascii.{crlf_bytes};
ghost use Rattle.httparse.specs.Grammar.{IsField, IsRequestHead, print_field, print_request, print_version};
ghost use Rattle.http_front.specs.Head.{head_room};
ghost use Rattle.http_front.specs.Parts.{AreMalformedIn, IsMalformedIn, IsTarget, field_view, line_of, parts_view, spelled_head, spells_http11, without_host, without_repeated};
ghost use Rattle.http_front.specs.private.Parts.{IsLineMalformedIn, IsSpellingFault, head_in};

use crate::fault::{HeadFault, HeadPart};
use crate::parts::{HeadParts, Line};
use crate::read::HEAD_ROOM;
use attributes::Protocol;
use httparse::{is_header_value, is_token, is_uri_token};
use std::alloc::{AllocError, Global};
use std::str;

/// The head that parts spell. Its lines are those before and those after a Host that repeats `:authority`.
#[derive(Drop)]
pub(crate) struct Spelled<'a> {
    pub(crate) method: &'a [u8],
    pub(crate) target: &'a [u8],
    pub(crate) is_http11: bool,
    pub(crate) front: &'a [Line<'a>],
    pub(crate) back: &'a [Line<'a>],
}

// The bytes of a head beside its method, its target and its lines: two spaces, the version, and two line ends.
const FIXED: usize = 14;

// The bytes of a line beside its name and its value: the colon and the line end.
const FIXED_OF_LINE: usize = 3;

impl<'a> Spelled<'a> {
    /// The head that these parts spell.
    pub(crate) fn of(parts: &HeadParts<'a>) -> Spelled<'a>
        ensures { head_in result ≡ spelled_head (parts_view parts.now) }
    {
        let (front, back) = without_repeated(parts.lines);
        Spelled {
            method: parts.method,
            target: parts.target,
            is_http11: spells_http11(parts.protocol),
            front,
            back,
        }
    }

    /// The number of bytes of the head, or its fault if it is not of the grammar or too long.
    pub(crate) fn size(&self) -> Result<usize, HeadFault>
        ensures found { IfOk result (λ size. IsRequestHead (head_in self.now)
            × (size ≡ length (print_request (head_in self.now))) × (size ≤ head_room)) }
        ensures fault { IfErr result (IsSpellingFault (head_in self.now)) }
    {
        if let Some(part) = self.malformed() {
            return Err(HeadFault::Malformed(part));
        }
        match self.left() {
            Some(left) => Ok(HEAD_ROOM - left),
            None => Err(HeadFault::TooLong),
        }
    }

    // The part in which the head is malformed, if there is one.
    fn malformed(&self) -> Option<HeadPart>
        ensures none { IfNone result (IsRequestHead (head_in self.now)) }
        ensures part { IfSome result (IsMalformedIn (head_in self.now)) }
    {
        if !is_token(self.method) {
            return Some(HeadPart::Method);
        }
        if !is_target(self.target) {
            return Some(HeadPart::Target);
        }
        if let Some(part) = malformed_line(self.front) {
            return Some(part);
        }
        malformed_line(self.back)
    }

    // How many bytes a head could have more than this one; none if it is too long.
    fn left(&self) -> Option<usize>
        ensures some { IfSome result (λ left. length (print_request (head_in self.now)) + left ≡ head_room) }
        ensures none { IfNone result (head_room < length (print_request (head_in self.now))) }
    {
        let left = (HEAD_ROOM - FIXED).checked_sub(self.method.len())?;
        let left = left.checked_sub(self.target.len())?;
        let left = left_after(left, self.front)?;
        left_after(left, self.back)
    }
}

// Whether a request of this protocol is spelled as a head of HTTP/1.1, or else of HTTP/1.0.
fn spells_http11(protocol: Protocol) -> bool
    ensures { result ≡ spells_http11 protocol }
{
    match protocol {
        Protocol::Http10 => false,
        Protocol::Http11 | Protocol::Http2 | Protocol::Http3 => true,
    }
}

// The lines before and after a Host that has the value of the first `:authority`. Without such a Host, all lines.
fn without_repeated<'a>(lines: &'a [Line<'a>]) -> (&'a [Line<'a>], &'a [Line<'a>])
    ensures { map field_view result.0.now ++ map field_view result.1.now
        ≡ without_repeated (map field_view lines.now) (map field_view lines.now) }
{
    for line in lines {
        if line.is_authority() {
            return without_host(lines, line.value);
        }
    }
    (lines, &[])
}

// The lines before and after the first Host with this value. Without such a Host, all lines.
fn without_host<'a>(lines: &'a [Line<'a>], value: &[u8]) -> (&'a [Line<'a>], &'a [Line<'a>])
    ensures { map field_view result.0.now ++ map field_view result.1.now
        ≡ without_host value.now (map field_view lines.now) }
{
    for at in 0..lines.len() {
        if lines[at].is_host_of(value) {
            return (&lines[..at], &lines[at + 1..]);
        }
    }
    (lines, &[])
}

// Whether the bytes are a target by the grammar of a head.
fn is_target(target: &[u8]) -> bool
    ensures { IsTrue result ↔ IsTarget target.now }
{
    !target.is_empty()
        && target.iter().all(|byte| is_uri_token(*byte))
        && str::from_utf8(target).is_ok()
}

// The part in which one of the lines is malformed.
fn malformed_line(lines: &[Line<'_>]) -> Option<HeadPart>
    ensures none { IfNone result (All IsField (map line_of (map field_view lines.now))) }
    ensures part { IfSome result (AreMalformedIn (map line_of (map field_view lines.now))) }
{
    for line in lines {
        if let Some(part) = malformed_in(line) {
            return Some(part);
        }
    }
    None
}

// The part in which the line is malformed.
fn malformed_in(line: &Line<'_>) -> Option<HeadPart>
    ensures none { IfNone result (IsField (line_of (field_view line.now))) }
    ensures part { IfSome result (IsLineMalformedIn (line_of (field_view line.now))) }
{
    if !is_token(line.head_name()) {
        return Some(HeadPart::FieldName);
    }
    if !is_header_value(line.value) {
        return Some(HeadPart::FieldValue);
    }
    None
}

// What is left of so many bytes after these lines, if there is room for them.
fn left_after(room: usize, lines: &[Line<'_>]) -> Option<usize>
    ensures some { IfSome result (λ left.
        length (flat_map print_field (map line_of (map field_view lines.now))) + left ≡ room) }
    ensures none { IfNone result (room < length (flat_map print_field (map line_of (map field_view lines.now)))) }
{
    let mut left = room;
    for line in lines {
        left = left_after_line(left, line)?;
    }
    Some(left)
}

// What is left of so many bytes after this line, if there is room for it.
fn left_after_line(room: usize, line: &Line<'_>) -> Option<usize>
    ensures some { IfSome result (λ left. length (print_field (line_of (field_view line.now))) + left ≡ room) }
    ensures none { IfNone result (room < length (print_field (line_of (field_view line.now)))) }
{
    let left = room.checked_sub(FIXED_OF_LINE)?;
    let left = left.checked_sub(line.head_name().len())?;
    left.checked_sub(line.value.len())
}
