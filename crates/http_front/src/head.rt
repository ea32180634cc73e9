//! A request head, borrowed from the bytes that it was read from.
ghost use Rattle.std.specs.Prelude.{◌≡◌, ◌≤◌, ◌<◌, ◌^◌, ◌↔◌, ◌==◌, All, Any, IfNone, IfOk, IfSome, IsSome, IsTrue, MatchBool, count_by, length};
ghost use Rattle.std.specs.Bool.{OnFalse, OnTrue};
ghost use Rattle.attributes.specs.Conn.{conn_view};
ghost use Rattle.attributes.specs.Headers.{lines_view};
ghost use Rattle.httparse.specs.Ascii.{line_feed};
ghost use Rattle.http_front.specs.declared.fault.HeadFault.{HeadFault};
ghost use Rattle.http_front.specs.private.Parsed.{AreTexts, IsParsed};
ghost use Rattle.http_front.specs.Asks.{request_of_head};
ghost use Rattle.http_front.specs.Bodies.{body_of};
ghost use Rattle.http_front.specs.Closing.{closes};
ghost use Rattle.http_front.specs.Head.{head_room};
ghost use Rattle.http_front.specs.Rules.{IsBadLength, IsBadText, IsOriginForm, RuleFault, lines_of};

use crate::body::body_length;
use crate::closing::list_close;
use crate::fault::{HeadFault, HeadPart};
use crate::fields::{add_fields, lower_lines, text_of};
use crate::framing::framing_of;
use crate::part::part_of;
use attributes::{Conn, Draft, Limit, Limits, Protocol, Request, Room};
use httparse::spans::{HeaderSpan, parse_request};
use httparse::{Error, Status};
use std::alloc::{AllocError, Global};
use std::marker::Model;
use std::str;
use std::sync::Arc;

/// A whole head as it was sent.
#[derive(Drop)]
pub(crate) struct Head<'a> {
    // all bytes of the head
    bytes: &'a [u8],
    method: &'a [u8],
    target: &'a [u8],
    is_http11: bool,
    // the spans of the fields in the bytes
    fields: &'a [HeaderSpan],
}

impl<'a> Model for Head<'a> {
    ghost use Rattle.std.specs.Prelude.{map};
    ghost use Rattle.httparse.specs.Spans.{header_bytes};
    ghost use Rattle.http_front.specs.Head.{HeadValue};

    ghost Value = { HeadValue };

    ghost use Rattle.http_front.specs.private.Parsed.{LieInBytes};

    ghost view = { λ h. record {
      method = h.method.now;
      target = h.target.now;
      http11 = h.is_http11;
      fields = map (header_bytes h.bytes.now) h.fields.now;
    } };

    ghost invariant = { λ h. LieInBytes h.bytes.now h.fields.now (record {
      method = h.method.now;
      target = h.target.now;
      http11 = h.is_http11;
      fields = map (header_bytes h.bytes.now) h.fields.now;
    }) };
}

/// What some bytes begin with.
#[derive(Drop)]
pub(crate) enum Parsed<'a> {
    /// A whole head, and the bytes after it.
    Whole(Head<'a>, &'a [u8]),
    /// The bytes end inside the head.
    Unfinished,
    /// The bytes can become no head; the parser stopped in this part.
    Hopeless(HeadPart),
}

/// Reads the head that the bytes begin with. `fields` has room for as many fields as the bytes have line
/// feeds.
pub(crate) fn parse<'a>(bytes: &'a [u8], fields: &'a mut [HeaderSpan]) -> Parsed<'a>
    requires few { length bytes.now ≤ head_room }
    requires room { length fields.old ≡ count_by (λ b. b == line_feed) bytes.now }
    ensures { IsParsed bytes.now result }
{
    match parse_few(bytes, fields) {
        Some(parsed) => parsed,
        None => unreachable!(),
    }
}

/// The same with any room. `None` if the head has more fields than that.
pub(crate) fn parse_few<'a>(bytes: &'a [u8], fields: &'a mut [HeaderSpan]) -> Option<Parsed<'a>>
    requires { length bytes.now ≤ head_room }
    ensures parsed { IfSome result (IsParsed bytes.now) }
    ensures room { length fields.old ≡ count_by (λ b. b == line_feed) bytes.now → IsSome result }
{
    match parse_request(bytes, fields) {
        Ok(Status::Complete(spans)) => {
            let (own, rest) = bytes.split_at(spans.len);
            let head = Head {
                bytes: own,
                method: spans.method.of(own),
                target: spans.path.of(own),
                is_http11: spans.version == 1,
                fields: &fields[..spans.headers],
            };
            Some(Parsed::Whole(head, rest))
        }
        Ok(Status::Partial) => Some(Parsed::Unfinished),
        Err(Error::TooManyHeaders) => None,
        Err(error) => Some(Parsed::Hopeless(part_of(error, bytes))),
    }
}

impl<'a> Head<'a> {
    /// The fault of the head, if it breaks a rule.
    pub(crate) fn fault(&self) -> Option<HeadFault>
        ensures sound { IfNone result ((fault : HeadFault) → ¬ (RuleFault self.now fault)) }
        ensures texts { IfNone result (AreTexts self.now) }
        ensures fault { IfSome result (RuleFault self.now) }
    {
        if !is_origin_form(self.target) {
            return Some(HeadFault::OtherForm);
        }
        if !self.is_text() {
            return Some(HeadFault::BadText);
        }
        framing_of(self.bytes, self.fields).fault(self.is_http11)
    }

    // Whether each value is UTF-8; all other bytes of a head are in any case.
    fn is_text(&self) -> bool
        ensures texts { OnTrue result (AreTexts self.now) }
        ensures others { OnFalse result (Any IsBadText self.now.fields) }
    {
        str::from_utf8(self.bytes).is_ok()
    }

    /// The request of the head, on this connection.
    #[inline(always)]
    pub(crate) fn to_request(&self, alloc: Global, conn: Arc<Conn>) -> Result<Request, AllocError>
        requires { AreTexts self.now }
        ensures { IfOk result (λ r. r ≡ request_of_head self.now (conn_view conn.value)) }
    {
        let room = Room {
            lines: self.fields.len(),
            bytes: self.bytes.len(),
        };
        let mut draft = Draft::new(alloc, text_of(self.method), text_of(self.target), room)?;
        add_fields(&mut draft, self.bytes, self.fields)?;
        draft.finish(alloc, Protocol::of_head(self.is_http11), conn)
    }

    /// The field lines of the head, each a name in lower case and a value.
    pub(crate) fn lines(&self, alloc: Global) -> Result<Vec<(String, String)>, AllocError>
        requires { AreTexts self.now }
        ensures { IfOk result (λ lines. lines_view lines.items ≡ lines_of self.now) }
    {
        lower_lines(alloc, self.bytes, self.fields)
    }

    /// Whether the head has more fields than any request within the limits. This is tested before a request
    /// is made.
    pub(crate) fn exceeds(&self, limits: &Limits) -> bool
        ensures { MatchBool result (limits.now.fields < length self.now.fields)
            (length self.now.fields ≤ limits.now.fields) }
    {
        self.fields.len() > limits.get(Limit::Fields)
    }

    /// How many bytes of a body follow the head.
    pub(crate) fn body(&self) -> u64
        requires { All (λ l. ¬ (IsBadLength l)) (lines_of self.now) }
        ensures value { result ≡ body_of self.now }
        ensures small { result < 10 ^ 18 }
    {
        body_length(self.bytes, self.fields)
    }

    /// Whether the connection closes after the head.
    pub(crate) fn closes(&self) -> bool
        ensures { result ≡ closes self.now }
    {
        !self.is_http11 || list_close(self.bytes, self.fields)
    }
}

/// Whether the target is in origin form, which begins with a slash.
pub(crate) fn is_origin_form(target: &[u8]) -> bool
    ensures { IsTrue result ↔ IsOriginForm target.now }
{
    matches!(target, [b'/', ..])
}
