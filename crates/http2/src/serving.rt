//! What a server of one call makes of its peer's frames.

ghost use Rattle.std.specs.Prelude.{◌≡◌, ◌<◌};
ghost use Rattle.std.specs.Option.{ForSome};
ghost use Rattle.http2.specs.Serving.{phase_behind};

use crate::answer::{is_whole, length_of, without};
use crate::check::check;
use crate::fault::Code;
use crate::fields::are_plain;
use crate::first_words::UNOPENED;
use crate::frame::{CONTINUATION, DATA, Frame, HEAD, HEADERS, RESET, SETTINGS, UPDATE, word};
use crate::gathering::{Gathering, Progress};
use crate::over::{Over, broke, stopped};
use crate::request::is_request;
use hpack::Field;
use std::alloc::{AllocError, Global};

/// How far a call is that is served.
#[derive(Clone, Copy, Debug, PartialEq, Eq)]
pub enum Phase {
    /// The peer's settings have not come.
    Silent,
    /// The request's fields have not come.
    Waiting,
    /// The request's fields came, and data follow.
    Open,
    /// The last of the data came.
    Closed,
}

/// What a server of one call keeps of its peer's frames.
#[derive(Debug, Drop)]
pub(crate) struct Serving {
    phase: Phase,
    // the stream of the header block that is not whole, or 0, and whether the stream ends after it; the block
    unfinished: u32,
    ends: bool,
    block: Gathering,
    // the call's stream, and the greatest that the peer opened
    number: u32,
    last: u32,
    // what is still to come of the content, if that was told
    left: Option<u64>,
    // the request's fields
    request: Vec<Field>,
    // the stream that the last frame opened beside the call's
    refused: Option<u32>,
    ghost refuses: { ForSome refused (λ n. n < 2147483648) },
}

// The phase after fields or data.
fn phase_behind(ends: bool) -> Phase
    ensures { result ≡ phase_behind ends }
{
    if ends { Phase::Closed } else { Phase::Open }
}

impl Serving {
    ghost use Rattle.std.specs.Prelude.{[], Option, Some, None, Ok, true, map, if◌then◌else◌, IfOk, List};
    ghost use Rattle.std.specs.Option.{option_map};
    ghost use Rattle.hpack.specs.Field.{lines_of, line_of};
    ghost use Rattle.http2.specs.Frame.{unopened};
    ghost use Rattle.http2.specs.Answer.{length_from};
    ghost use Rattle.http2.specs.Servings.{serving_view, block_view};
    ghost use Rattle.http2.specs.Serving.{first_serving, is_silent, is_closed, is_asked, is_idle, is_astray, is_misplaced, settled, begun, turn_of, data_came, content_came, reset_came, fields_came, request_came, trailers_came, opened, others_came, PartCame, Says, Takes};

    /// Before the first frame.
    pub(crate) fn new(alloc: Global) -> Serving
        ensures first { serving_view result ≡ first_serving }
        ensures alive { result.block.decoder.alive ≡ true }
    {
        Serving {
            phase: Phase::Silent,
            unfinished: 0,
            ends: false,
            block: Gathering::new(alloc),
            number: UNOPENED,
            last: 0,
            left: None,
            request: Vec::new(alloc),
            refused: None,
        }
    }

    /// Whether the request's fields came.
    pub(crate) fn is_asked(&self) -> bool
        ensures { result ≡ is_asked (serving_view self.now).phase }
    {
        match self.phase {
            Phase::Silent | Phase::Waiting => false,
            Phase::Open | Phase::Closed => true,
        }
    }

    /// Whether the last of the data came.
    pub(crate) fn is_closed(&self) -> bool
        ensures { result ≡ is_closed (serving_view self.now).phase }
    {
        self.phase == Phase::Closed
    }

    /// The call's stream.
    pub(crate) fn number(&self) -> u32
        ensures { result ≡ (serving_view self.now).number }
    {
        self.number
    }

    /// The request's fields.
    pub(crate) fn request(&self) -> &[Field]
        ensures { map line_of result.now ≡ (serving_view self.now).request }
    {
        self.request.as_slice()
    }

    /// The stream that the last frame opened beside the call's.
    pub(crate) fn refused(&self) -> Option<u32>
        ensures refused { result ≡ (serving_view self.now).refused }
        ensures small { ForSome result (λ n. n < 2147483648) }
    {
        self.refused
    }

    /// Takes the next frame, and returns why the call is over, if it is.
    pub(crate) fn take(&mut self, alloc: Global, frame: &Frame) -> Result<Option<Over>, AllocError>
        requires alive { self.old.block.decoder.alive ≡ true }
        ensures takes { IfOk result (λ over. Takes (serving_view self.old) frame.now.bytes.items
            (turn_of over (serving_view self.new))) }
        ensures alive { result ≡ Ok None → self.new.block.decoder.alive ≡ true }
    {
        if let Err(fault) = check(1, frame) {
            return Ok(Some(Over::Broken(fault)));
        }
        if self.is_misplaced(frame) {
            return Ok(Some(broke(Code::Protocol)));
        }
        self.settle();
        self.say(alloc, frame)
    }

    // Whether the peer has not opened the stream.
    fn is_idle(&self, stream: u32) -> bool
        ensures { result ≡ is_idle (serving_view self.now) stream }
    {
        if stream == 0 {
            return false;
        }
        self.number == UNOPENED || stream % 2 == 0 || stream > self.last
    }

    // Whether the frame cannot be on its stream.
    fn is_astray(&self, frame: &Frame) -> bool
        ensures { result ≡ is_astray (serving_view self.now) frame.now.bytes.items }
    {
        match frame.kind() {
            HEADERS => frame.stream() % 2 == 0,
            DATA | RESET | UPDATE => self.is_idle(frame.stream()),
            _ => false,
        }
    }

    // Whether the frame may not come now.
    fn is_misplaced(&self, frame: &Frame) -> bool
        ensures { result ≡ is_misplaced (serving_view self.now) frame.now.bytes.items }
    {
        let kind = frame.kind();
        if self.phase == Phase::Silent {
            return kind != SETTINGS || frame.is_acknowledgement();
        }
        if self.unfinished == 0 {
            return kind == CONTINUATION || self.is_astray(frame);
        }
        kind != CONTINUATION || frame.stream() != self.unfinished
    }

    // The peer's settings have come.
    fn settle(&mut self)
        ensures settled { serving_view self.new ≡ settled (serving_view self.old) }
        ensures block { self.new.block ≡ self.old.block }
    {
        self.refused = None;
        if self.phase == Phase::Silent {
            self.phase = Phase::Waiting;
        }
    }

    // Does what a frame without a fault says.
    fn say(&mut self, alloc: Global, frame: &Frame) -> Result<Option<Over>, AllocError>
        requires alive { self.old.block.decoder.alive ≡ true }
        ensures says { IfOk result (λ over. Says (serving_view self.old) frame.now.bytes.items
            (turn_of over (serving_view self.new))) }
        ensures alive { result ≡ Ok None → self.new.block.decoder.alive ≡ true }
    {
        match frame.kind() {
            DATA => Ok(self.data_came(frame)),
            HEADERS => {
                self.begin(frame);
                self.gather(alloc, frame, 0, frame.fragment())
            }
            CONTINUATION => self.gather(alloc, frame, HEAD, frame.payload()),
            RESET => Ok(self.reset_came(frame)),
            _ => Ok(None),
        }
    }

    // A header block begins.
    fn begin(&mut self, frame: &Frame)
        ensures begun { serving_view self.new ≡ begun (serving_view self.old) frame.now.bytes.items }
        ensures alive { self.new.block.decoder ≡ self.old.block.decoder }
    {
        self.unfinished = frame.stream();
        self.ends = frame.ends_stream();
        self.block.begin();
    }

    // A part of a header block came, which weighs so much more than its octets.
    fn gather(
        &mut self,
        alloc: Global,
        frame: &Frame,
        head: usize,
        part: &[u8],
    ) -> Result<Option<Over>, AllocError>
        requires alive { self.old.block.decoder.alive ≡ true }
        ensures came { IfOk result (λ over. PartCame (serving_view self.old) frame.now.bytes.items head part.now
            (turn_of over (serving_view self.new))) }
        ensures alive { result ≡ Ok None → self.new.block.decoder.alive ≡ true }
    {
        match self.block.add(alloc, head, part, frame.ends_block())? {
            Progress::Heavy => Ok(Some(broke(Code::EnhanceYourCalm))),
            Progress::More => Ok(None),
            Progress::Garbled => Ok(Some(broke(Code::Compression))),
            Progress::Whole(fields) => {
                self.unfinished = 0;
                Ok(self.fields_came(frame.stream(), fields))
            }
        }
    }

    // The fields of a whole header block came.
    fn fields_came(&mut self, stream: u32, fields: Option<Vec<Field>>) -> Option<Over>
        requires { stream < 2147483648 }
        ensures turn { turn_of result (serving_view self.new)
            ≡ fields_came (serving_view self.old) stream (option_map lines_of fields) }
        ensures block { self.new.block ≡ self.old.block }
    {
        if self.number == UNOPENED {
            return self.request_came(stream, fields);
        }
        if stream == self.number {
            return self.trailers_came(fields);
        }
        if stream > self.last {
            self.last = stream;
            self.refused = Some(stream);
        }
        None
    }

    // The first fields came, on this stream.
    fn request_came(&mut self, stream: u32, fields: Option<Vec<Field>>) -> Option<Over>
        ensures turn { turn_of result (serving_view self.new)
            ≡ request_came (serving_view self.old) stream (option_map lines_of fields) }
        ensures block { self.new.block ≡ self.old.block }
    {
        let Some(fields) = fields else {
            return Some(stopped(Code::EnhanceYourCalm));
        };
        if !is_request(&fields) {
            return Some(stopped(Code::Protocol));
        }
        let Some(left) = length_of(&fields) else {
            return Some(stopped(Code::Protocol));
        };
        if self.ends && !is_whole(left) {
            return Some(stopped(Code::Protocol));
        }
        self.phase = phase_behind(self.ends);
        self.number = stream;
        self.last = stream;
        self.left = left;
        self.request = fields;
        None
    }

    // Trailers of the call came.
    fn trailers_came(&mut self, fields: Option<Vec<Field>>) -> Option<Over>
        ensures turn { turn_of result (serving_view self.new)
            ≡ trailers_came (serving_view self.old) (option_map lines_of fields) }
        ensures block { self.new.block ≡ self.old.block }
    {
        let Some(fields) = fields else {
            return Some(stopped(Code::EnhanceYourCalm));
        };
        if self.is_closed() {
            return Some(stopped(Code::StreamClosed));
        }
        if !self.ends || !are_plain(&fields) || !is_whole(self.left) {
            return Some(stopped(Code::Protocol));
        }
        self.phase = Phase::Closed;
        None
    }

    // Data came.
    fn data_came(&mut self, frame: &Frame) -> Option<Over>
        ensures turn { turn_of result (serving_view self.new) ≡ data_came (serving_view self.old) frame.now.bytes.items }
        ensures block { self.new.block ≡ self.old.block }
    {
        if frame.stream() != self.number {
            return None;
        }
        if self.is_closed() {
            return Some(stopped(Code::StreamClosed));
        }
        self.content_came(
            frame.ends_stream(),
            without(self.left, frame.content().len()),
        )
    }

    // Content of the call came, and this is still to come.
    fn content_came(&mut self, ends: bool, left: Option<Option<u64>>) -> Option<Over>
        ensures turn { turn_of result (serving_view self.new) ≡ content_came (serving_view self.old) ends left }
        ensures block { self.new.block ≡ self.old.block }
    {
        let Some(left) = left else {
            return Some(stopped(Code::Protocol));
        };
        if ends && !is_whole(left) {
            return Some(stopped(Code::Protocol));
        }
        self.phase = phase_behind(ends);
        self.left = left;
        None
    }

    // The peer reset a stream.
    fn reset_came(&self, frame: &Frame) -> Option<Over>
        ensures turn { turn_of result (serving_view self.now) ≡ reset_came (serving_view self.now) frame.now.bytes.items }
    {
        if frame.stream() == self.number {
            return Some(Over::Reset(word(frame.payload(), 0)));
        }
        None
    }
}
