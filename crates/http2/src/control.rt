//! What a client with one call makes of its peer's frames.

ghost use Rattle.std.specs.Prelude.{◌≡◌};

use crate::accounts::data;
use crate::answer::{
    is_grpc, is_interim, is_whole, length_of, number_of, refusal_in, status_of, without,
};
use crate::check::check;
use crate::end::{End, broken, failed, went_away};
use crate::fault::Code;
use crate::fields::{are_of_answer, are_plain};
use crate::frame::{
    CONTINUATION, DATA, Frame, GOAWAY, HEAD, HEADERS, PRIORITY, RESET, SETTINGS, word,
};
use crate::gathering::{MOST_FIELDS, MOST_WEIGHT, TABLE};
use crate::message::Message;
use hpack::{Decoder, Field, HpackError};
use std::alloc::{AllocError, Global};
use std::mem::replace;

/// How far the call is.
#[derive(Clone, Copy, Debug, PartialEq, Eq)]
pub enum Stage {
    /// The peer's settings have not come.
    Opened,
    /// The answer's fields have not come.
    Asked,
    /// The answer's fields came, and data follow.
    Answered,
}

/// What a client with one call keeps of its peer's frames.
#[derive(Debug, Drop)]
pub(crate) struct Control {
    stage: Stage,
    // the header block that is not whole: whether the stream ends after it, its octets, and its weight
    unfinished: Option<bool>,
    block: Vec<u8>,
    weight: usize,
    decoder: Decoder,
    // what is still to come of the content, if that was told
    left: Option<u64>,
    // what grpc-message told
    told: Message,
    ghost table: { decoder.most ≡ 4096 },
    ghost fields: { decoder.limit ≡ 16384 },
}

impl Control {
    ghost use Rattle.std.specs.Prelude.{◌≡◌, ◌≤◌, ◌++◌, List, [], None, Some, Ok, true, false, map, length, IfOk};
    ghost use Rattle.std.specs.Option.{option_map};
    ghost use Rattle.hpack.specs.Field.{lines_of, line_of};
    ghost use Rattle.hpack.specs.Table.{Table};
    ghost use Rattle.http2.specs.Frame.{payload_of, ends_stream, ends_block};
    ghost use Rattle.http2.specs.Controls.{control_view};
    ghost use Rattle.http2.specs.Answer.{length_from};
    ghost use Rattle.http2.specs.Control.{first_control, is_answered, next_of, settled, with_part, is_misplaced, content_came, status_came, answer_came, answer_began, fields_came, Gathers, Says, After};

    /// Before the first frame.
    pub(crate) fn new(alloc: Global) -> Control
        ensures first { control_view result ≡ first_control }
        ensures alive { result.decoder.alive ≡ true }
    {
        Control {
            stage: Stage::Opened,
            unfinished: None,
            block: Vec::new(alloc),
            weight: 0,
            decoder: Decoder::new(alloc, TABLE, MOST_FIELDS),
            left: None,
            told: Message::new(alloc),
        }
    }

    /// Whether the answer's fields came.
    pub(crate) fn is_answered(&self) -> bool
        ensures { result ≡ is_answered (control_view self.now).stage }
    {
        self.stage == Stage::Answered
    }

    /// What is kept of the message.
    pub(crate) fn message(&self) -> &[u8]
        ensures { result.now ≡ (control_view self.now).told.text }
    {
        self.told.text.as_slice()
    }

    /// How many octets of it were cut.
    pub(crate) fn message_cut(&self) -> usize
        ensures { result ≡ (control_view self.now).told.cut }
    {
        self.told.cut
    }

    /// Takes the next frame, and returns why the call is over, if it is.
    pub(crate) fn after(&mut self, alloc: Global, frame: &Frame) -> Result<Option<End>, AllocError>
        requires { self.old.decoder.alive ≡ true }
        ensures after { IfOk result (λ over. After (control_view self.old) frame.now.bytes.items
            (next_of over (control_view self.new))) }
        ensures alive { result ≡ Ok None → self.new.decoder.alive ≡ true }
    {
        if let Err(fault) = check(0, frame) {
            return Ok(Some(End::Broken(fault)));
        }
        if self.is_misplaced(frame) {
            return Ok(Some(broken(Code::Protocol)));
        }
        self.settle();
        self.say(alloc, frame)
    }

    // Whether the frame may not come now.
    fn is_misplaced(&self, frame: &Frame) -> bool
        ensures { result ≡ is_misplaced (control_view self.now) frame.now.bytes.items }
    {
        let kind = frame.kind();
        if self.stage == Stage::Opened {
            if kind != SETTINGS || frame.is_acknowledgement() {
                return true;
            }
        } else if self.unfinished.is_some() != (kind == CONTINUATION) {
            return true;
        }
        frame.stream() > 1 && kind != PRIORITY && kind <= CONTINUATION
    }

    // The peer's settings have come.
    fn settle(&mut self)
        ensures settled { control_view self.new ≡ settled (control_view self.old) }
        ensures decoder { self.new.decoder ≡ self.old.decoder }
    {
        if self.stage == Stage::Opened {
            self.stage = Stage::Asked;
        }
    }

    // Does what a frame without a fault says.
    fn say(&mut self, alloc: Global, frame: &Frame) -> Result<Option<End>, AllocError>
        requires { self.old.decoder.alive ≡ true }
        ensures says { IfOk result (λ over. Says (control_view self.old) frame.now.bytes.items
            (next_of over (control_view self.new))) }
        ensures alive { result ≡ Ok None → self.new.decoder.alive ≡ true }
    {
        match frame.kind() {
            DATA => Ok(self.content_came(data(1, frame).len(), frame.ends_stream())),
            HEADERS => {
                self.unfinished = Some(frame.ends_stream());
                self.block.clear();
                self.weight = 0;
                self.gather(alloc, 0, frame.fragment(), frame.ends_block())
            }
            CONTINUATION => self.gather(alloc, HEAD, frame.payload(), frame.ends_block()),
            RESET => Ok(Some(End::Reset(word(frame.payload(), 0)))),
            GOAWAY => Ok(went_away(frame.payload())),
            _ => Ok(None),
        }
    }

    // A part of a header block came, which weighs so much more than its octets.
    fn gather(
        &mut self,
        alloc: Global,
        head: usize,
        part: &[u8],
        whole: bool,
    ) -> Result<Option<End>, AllocError>
        requires alive { self.old.decoder.alive ≡ true }
        ensures gathers { IfOk result (λ over. Gathers (with_part (control_view self.old) head part.now) whole
            (next_of over (control_view self.new))) }
        ensures alive { result ≡ Ok None → self.new.decoder.alive ≡ true }
    {
        let weight = self.weight.saturating_add(head).saturating_add(part.len());
        if weight > MOST_WEIGHT {
            return Ok(Some(broken(Code::EnhanceYourCalm)));
        }
        self.block.extend_from_slice(part)?;
        self.weight = weight;
        if !whole {
            return Ok(None);
        }
        self.read_block(alloc)
    }

    // The header block is whole.
    fn read_block(&mut self, alloc: Global) -> Result<Option<End>, AllocError>
        requires alive { self.old.decoder.alive ≡ true }
        requires light { self.old.weight ≤ 32768 }
        ensures gathers { IfOk result (λ over. Gathers (control_view self.old) true
            (next_of over (control_view self.new))) }
        ensures alive { result ≡ Ok None → self.new.decoder.alive ≡ true }
    {
        let last = self.unfinished.unwrap_or(false);
        self.unfinished = None;
        let block = replace(&mut self.block, Vec::new(alloc));
        match self.decoder.decode(alloc, &block) {
            Ok(Some(fields)) => self.fields_came(alloc, &fields, last),
            Ok(None) => Ok(Some(failed(Code::EnhanceYourCalm))),
            Err(HpackError::Compression(_)) => Ok(Some(broken(Code::Compression))),
            Err(_) => Err(AllocError),
        }
    }

    // The fields of a header block came.
    fn fields_came(
        &mut self,
        alloc: Global,
        fields: &[Field],
        last: bool,
    ) -> Result<Option<End>, AllocError>
        ensures next { IfOk result (λ over. next_of over (control_view self.new)
            ≡ fields_came (control_view self.old) last (Some (map line_of fields.now))) }
        ensures decoder { self.new.decoder ≡ self.old.decoder }
    {
        if !self.is_answered() {
            return self.answer_came(alloc, fields, last);
        }
        if !last || !are_plain(fields) {
            return Ok(Some(failed(Code::Protocol)));
        }
        self.status_came(alloc, fields)
    }

    // Fields came that end the call by its status.
    fn status_came(&mut self, alloc: Global, fields: &[Field]) -> Result<Option<End>, AllocError>
        ensures next { IfOk result (λ over. next_of over (control_view self.new)
            ≡ status_came (control_view self.old) (map line_of fields.now)) }
        ensures decoder { self.new.decoder ≡ self.old.decoder }
    {
        if !is_whole(self.left) {
            return Ok(Some(failed(Code::Protocol)));
        }
        self.told = Message::of(alloc, fields)?;
        Ok(Some(End::Status(number_of(fields, b"grpc-status".as_slice()))))
    }

    // Fields came before the answer's data.
    fn answer_came(
        &mut self,
        alloc: Global,
        fields: &[Field],
        last: bool,
    ) -> Result<Option<End>, AllocError>
        ensures next { IfOk result (λ over. next_of over (control_view self.new)
            ≡ answer_came (control_view self.old) last (map line_of fields.now)) }
        ensures decoder { self.new.decoder ≡ self.old.decoder }
    {
        if !are_of_answer(fields) {
            return Ok(Some(failed(Code::Protocol)));
        }
        let Some(status) = status_of(fields) else {
            return Ok(Some(failed(Code::Protocol)));
        };
        if is_interim(status) {
            return Ok(if last {
                Some(failed(Code::Protocol))
            } else {
                None
            });
        }
        if status != 200 || !is_grpc(fields) {
            self.told = Message::of(alloc, fields)?;
            return Ok(Some(End::Refused(status, refusal_in(status, fields))));
        }
        self.answer_began(alloc, fields, last)
    }

    // The answer begins with these fields.
    fn answer_began(
        &mut self,
        alloc: Global,
        fields: &[Field],
        last: bool,
    ) -> Result<Option<End>, AllocError>
        ensures next { IfOk result (λ over. next_of over (control_view self.new)
            ≡ answer_began (control_view self.old) last (map line_of fields.now) (length_from None (map line_of fields.now))) }
        ensures decoder { self.new.decoder ≡ self.old.decoder }
    {
        let Some(left) = length_of(fields) else {
            return Ok(Some(failed(Code::Protocol)));
        };
        self.left = left;
        if last {
            return self.status_came(alloc, fields);
        }
        self.stage = Stage::Answered;
        Ok(None)
    }

    // Data came, so many octets.
    fn content_came(&mut self, count: usize, last: bool) -> Option<End>
        ensures next { next_of result (control_view self.new) ≡ content_came (control_view self.old) last count }
        ensures decoder { self.new.decoder ≡ self.old.decoder }
    {
        if self.stage != Stage::Answered {
            return Some(failed(Code::Protocol));
        }
        let Some(left) = without(self.left, count) else {
            return Some(failed(Code::Protocol));
        };
        if !last {
            self.left = left;
            return None;
        }
        if !is_whole(left) {
            return Some(failed(Code::Protocol));
        }
        Some(End::Status(None))
    }
}
