//! What the head that parts spell asks for: the rules that it breaks, and its request (RFC 9112, sections 3 and 5).
ghost use Rattle.std.specs.Prelude.{◌≡◌, ◌+◌, ◌++◌, ◌<◌, ◌≤◌, ◌^◌, All, Any, IfNone, IfOk, IfSome, IsUtf8, List, MatchBool, OnOk, length, map};
ghost use Rattle.std.specs.Bool.{OnFalse, OnTrue};
ghost use Rattle.attributes.specs.Conn.{Facts, conn_view};
ghost use Rattle.attributes.specs.Draft.{with_entries};
ghost use Rattle.attributes.specs.Headers.{Entry, line_entry};
ghost use Rattle.attributes.specs.Request.{IsTextEntry};
ghost use Rattle.httparse.specs.Grammar.{IsRequestHead, print_request};
ghost use Rattle.http_front.specs.declared.fault.HeadFault.{HeadFault};
ghost use Rattle.http_front.specs.Asks.{AskFault, request_of_head};
ghost use Rattle.http_front.specs.Head.{head_of, head_room};
ghost use Rattle.http_front.specs.Parts.{field_view};
ghost use Rattle.http_front.specs.Rules.{IsBadText, RuleFault, lowered};
ghost use Rattle.http_front.specs.private.Parsed.{AreTexts, HasAsciiName, IsFraming};
ghost use Rattle.http_front.specs.private.Parts.{HasTextValue, head_fields, head_in};

use crate::fault::HeadFault;
use crate::fields::text_of;
use crate::framing::Framing;
use crate::head::is_origin_form;
use crate::parts::Line;
use crate::spelled::Spelled;
use attributes::{Conn, Draft, Limit, Limits, Protocol, Request, Room};
use std::alloc::{AllocError, Global};
use std::sync::Arc;

impl<'a> Spelled<'a> {
    /// The fault of the head, if it breaks a rule or has too many fields.
    pub(crate) fn refusal(&self, limits: &Limits) -> Option<HeadFault>
        requires shape { IsRequestHead (head_in self.now) }
        requires room { length (print_request (head_in self.now)) ≤ head_room }
        ensures sound { IfNone result ((fault : HeadFault) → ¬ (RuleFault (head_of (head_in self.now)) fault)) }
        ensures texts { IfNone result (AreTexts (head_of (head_in self.now))) }
        ensures fault { (facts : Facts) → IfSome result (AskFault limits.now facts (head_of (head_in self.now))) }
    {
        if let Some(fault) = self.fault() {
            return Some(fault);
        }
        if self.exceeds(limits) {
            return Some(HeadFault::OutsideLimits);
        }
        None
    }

    // The fault of the head, if it breaks a rule.
    fn fault(&self) -> Option<HeadFault>
        requires shape { IsRequestHead (head_in self.now) }
        requires room { length (print_request (head_in self.now)) ≤ head_room }
        ensures sound { IfNone result ((fault : HeadFault) → ¬ (RuleFault (head_of (head_in self.now)) fault)) }
        ensures texts { IfNone result (AreTexts (head_of (head_in self.now))) }
        ensures fault { IfSome result (RuleFault (head_of (head_in self.now))) }
    {
        if !is_origin_form(self.target) {
            return Some(HeadFault::OtherForm);
        }
        if !are_texts(self.front) {
            return Some(HeadFault::BadText);
        }
        if !are_texts(self.back) {
            return Some(HeadFault::BadText);
        }
        let mut framing = Framing::none();
        add_lines(&mut framing, self.front);
        add_lines(&mut framing, self.back);
        framing.fault(self.is_http11)
    }

    // Whether the head has more fields than any request within the limits.
    fn exceeds(&self, limits: &Limits) -> bool
        requires { length (print_request (head_in self.now)) ≤ head_room }
        ensures { MatchBool result (limits.now.fields < length (head_of (head_in self.now)).fields)
            (length (head_of (head_in self.now)).fields ≤ limits.now.fields) }
    {
        self.front.len() + self.back.len() > limits.get(Limit::Fields)
    }

    /// The request of the head, on this connection; memory is taken for `size` bytes at once.
    #[inline(always)]
    pub(crate) fn to_request(
        &self,
        alloc: Global,
        size: usize,
        conn: Arc<Conn>,
    ) -> Result<Request, AllocError>
        requires shape { IsRequestHead (head_in self.now) }
        requires room { length (print_request (head_in self.now)) ≤ head_room }
        requires texts { AreTexts (head_of (head_in self.now)) }
        ensures { IfOk result (λ r. r ≡ request_of_head (head_of (head_in self.now)) (conn_view conn.value)) }
    {
        let room = Room {
            lines: self.front.len() + self.back.len(),
            bytes: size,
        };
        let mut draft = Draft::new(alloc, text_of(self.method), text_of(self.target), room)?;
        draft_lines(&mut draft, self.front)?;
        draft_lines(&mut draft, self.back)?;
        draft.finish(alloc, Protocol::of_head(self.is_http11), conn)
    }
}

// Whether the values of these lines are UTF-8.
fn are_texts(lines: &[Line<'_>]) -> bool
    ensures texts { OnTrue result (All HasTextValue (head_fields (map field_view lines.now))) }
    ensures others { OnFalse result (Any IsBadText (head_fields (map field_view lines.now))) }
{
    for line in lines {
        if !line.is_text() {
            return false;
        }
    }
    true
}

// Counts and tests these lines too.
fn add_lines(framing: &mut Framing, lines: &[Line<'_>])
    requires { (before : List Entry) × IsFraming before framing.old
        × (length before + length lines.now < 2 ^ 63) }
    ensures { (before : List Entry) → IsFraming before framing.old
        → IsFraming (before ++ map lowered (head_fields (map field_view lines.now))) framing.new }
{
    for line in lines {
        framing.add(line.head_name(), line.head_value());
    }
}

// Adds the lines to the draft, in order.
fn draft_lines(draft: &mut Draft, lines: &[Line<'_>]) -> Result<(), AllocError>
    requires texts { All IsTextEntry (head_fields (map field_view lines.now)) }
    requires names { All HasAsciiName (head_fields (map field_view lines.now)) }
    ensures { OnOk result (draft.new ≡ with_entries draft.old
        (map line_entry (map lowered (head_fields (map field_view lines.now))))) }
{
    for line in lines {
        let name = text_of(line.head_name());
        draft.add_sent_line(name, text_of(line.head_value()))?;
    }
    Ok(())
}
