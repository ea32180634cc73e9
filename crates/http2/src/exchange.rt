//! What a server of unary calls makes of its client's frames.

ghost use Rattle.std.specs.Prelude.{◌≡◌, ◌≤◌, ◌<◌, ◌^◌};

use crate::accounts::after;
use crate::check::check;
use crate::fault::{Code, Fault};
use crate::first_words::WINDOW;
use crate::frame::{CONTINUATION, DATA, Frame, HEAD, HEADERS, RESET, SETTINGS, UPDATE};
use crate::gathering::{Gathering, Progress};
use crate::news::News;
use crate::streams::Streams;
use std::alloc::{AllocError, Global};

/// How many streams may be open at once.
pub(crate) const MOST_STREAMS: usize = 100;

/// How many streams may end by a reset more than by an answer.
pub(crate) const MOST_RESETS: u32 = 100;

/// What a server of unary calls keeps of its client's frames.
#[derive(Debug, Drop)]
pub(crate) struct Exchange {
    /// Whether the client's settings came.
    pub(crate) settled: bool,
    /// The stream of the header block that is not whole, or 0, and whether the stream ends after it; the block.
    pub(crate) unfinished: u32,
    pub(crate) ends: bool,
    pub(crate) block: Gathering,
    /// The greatest stream that the client opened, and those that are open.
    pub(crate) last: u32,
    pub(crate) streams: Streams,
    /// How many ended by a reset more than by an answer.
    pub(crate) resets: u32,
    /// The client's initial window of a stream; what it added to the connection's, and how much of that was used.
    pub(crate) window: u32,
    pub(crate) raised: u64,
    pub(crate) used: u64,
    /// How much the client may still send.
    pub(crate) credit: usize,
    /// The most octets of a request's content.
    pub(crate) most: usize,
    ghost sum: { raised < 2 ^ 63 },
    ghost few: { credit ≤ 1048581 },
    ghost greatest: { last < 2147483648 },
}

impl Exchange {
    ghost use Rattle.std.specs.Prelude.{ℕ, Some, None, true, false, if◌then◌else◌, IfOk};
    ghost use Rattle.http2.specs.Frame.{stream_of, window_after};
    ghost use Rattle.http2.specs.Streams.{find};
    ghost use Rattle.http2.specs.Faults.{fault_of_client};
    ghost use Rattle.http2.specs.Exchange.{first_exchange, breaks, gone, fails, beside, is_idle, is_astray, is_misplaced, settled, begun, quiet, data_came, reset_came, settings_came, update_came, failed, PartCame, Says, Takes};
    ghost use Rattle.http2.specs.Exchanges.{exchange_view, turn_of, is_over};

    /// Before the first frame. A request has at most so many octets of content.
    pub(crate) fn new(alloc: Global, most: usize) -> Exchange
        ensures first { exchange_view result ≡ first_exchange most }
        ensures alive { result.block.decoder.alive ≡ true }
    {
        Exchange {
            settled: false,
            unfinished: 0,
            ends: false,
            block: Gathering::new(alloc),
            last: 0,
            streams: Streams::new(alloc),
            resets: 0,
            window: 65_535,
            raised: 0,
            used: 0,
            credit: WINDOW,
            most,
        }
    }

    /// Takes the next frame, and returns what it brings.
    pub(crate) fn take(&mut self, alloc: Global, frame: &Frame) -> Result<News, AllocError>
        requires alive { self.old.block.decoder.alive ≡ true }
        ensures takes { IfOk result (λ news. Takes (exchange_view self.old) frame.now.bytes.items
            (turn_of news (exchange_view self.new))) }
        ensures alive { IfOk result (λ news. is_over news ≡ false → self.new.block.decoder.alive ≡ true) }
    {
        match check(1, frame) {
            Ok(()) => self.place(alloc, frame),
            Err(Fault::Stream(code)) => Ok(self.fail(frame, code)),
            Err(Fault::Connection(code)) => Ok(News::breaks(code)),
            Err(Fault::Memory) => Ok(News::Over(Fault::Memory)),
        }
    }

    // Does what a frame without a fault says, unless it may not come now.
    fn place(&mut self, alloc: Global, frame: &Frame) -> Result<News, AllocError>
        requires alive { self.old.block.decoder.alive ≡ true }
        requires sound { fault_of_client frame.now.bytes.items ≡ None }
        ensures takes { IfOk result (λ news. Takes (exchange_view self.old) frame.now.bytes.items
            (turn_of news (exchange_view self.new))) }
        ensures alive { IfOk result (λ news. is_over news ≡ false → self.new.block.decoder.alive ≡ true) }
    {
        if self.is_misplaced(frame) {
            return Ok(News::breaks(Code::Protocol));
        }
        self.settled = true;
        self.say(alloc, frame)
    }

    // A frame has a fault that ends its stream.
    fn fail(&mut self, frame: &Frame, code: Code) -> News
        ensures turn { turn_of result (exchange_view self.new)
            ≡ (if is_misplaced (exchange_view self.old) frame.now.bytes.items then breaks Code.Protocol
            else failed (settled (exchange_view self.old)) (stream_of frame.now.bytes.items) code) }
        ensures block { self.new.block ≡ self.old.block }
    {
        if self.is_misplaced(frame) {
            return News::breaks(Code::Protocol);
        }
        self.settled = true;
        self.failed(frame.stream(), code)
    }

    // A fault ends the stream, if it is open.
    fn failed(&mut self, number: u32, code: Code) -> News
        ensures turn { turn_of result (exchange_view self.new) ≡ failed (exchange_view self.old) number code }
        ensures block { self.new.block ≡ self.old.block }
    {
        if self.is_idle(number) {
            return News::breaks(code);
        }
        match self.streams.remove(number) {
            Some(stream) => self.fails(code, stream.number),
            None => News::Quiet,
        }
    }

    // Whether the client has not opened the stream.
    fn is_idle(&self, stream: u32) -> bool
        ensures { result ≡ is_idle (exchange_view self.now) stream }
    {
        stream != 0 && (stream % 2 == 0 || stream > self.last)
    }

    // Whether the frame cannot be on its stream.
    fn is_astray(&self, frame: &Frame) -> bool
        ensures { result ≡ is_astray (exchange_view self.now) frame.now.bytes.items }
    {
        match frame.kind() {
            HEADERS => frame.stream() % 2 == 0,
            DATA | RESET | UPDATE => self.is_idle(frame.stream()),
            _ => false,
        }
    }

    // Whether the frame may not come now.
    fn is_misplaced(&self, frame: &Frame) -> bool
        ensures { result ≡ is_misplaced (exchange_view self.now) frame.now.bytes.items }
    {
        let kind = frame.kind();
        if !self.settled {
            return kind != SETTINGS || frame.is_acknowledgement();
        }
        if self.unfinished == 0 {
            return kind == CONTINUATION || self.is_astray(frame);
        }
        kind != CONTINUATION || frame.stream() != self.unfinished
    }

    // Does what a frame without a fault says.
    fn say(&mut self, alloc: Global, frame: &Frame) -> Result<News, AllocError>
        requires alive { self.old.block.decoder.alive ≡ true }
        ensures says { IfOk result (λ news. Says (exchange_view self.old) frame.now.bytes.items
            (turn_of news (exchange_view self.new))) }
        ensures alive { IfOk result (λ news. is_over news ≡ false → self.new.block.decoder.alive ≡ true) }
    {
        match frame.kind() {
            DATA => self.data_came(frame),
            HEADERS => {
                self.begin(frame);
                self.gather(alloc, frame, 0, frame.fragment())
            }
            CONTINUATION => self.gather(alloc, frame, HEAD, frame.payload()),
            RESET => Ok(self.reset_came(frame.stream())),
            SETTINGS => Ok(self.settings_came(frame)),
            UPDATE => self.update_came(frame),
            _ => Ok(News::Quiet),
        }
    }

    /// A stream is reset with this code. Too many end the connection.
    pub(crate) fn fails(&mut self, code: Code, number: u32) -> News
        requires { number < 2147483648 }
        ensures turn { turn_of result (exchange_view self.new) ≡ fails code number (exchange_view self.old) }
        ensures block { self.new.block ≡ self.old.block }
    {
        if self.resets >= MOST_RESETS {
            return News::breaks(Code::EnhanceYourCalm);
        }
        self.resets += 1;
        News::resets(number, code)
    }

    // A header block begins.
    fn begin(&mut self, frame: &Frame)
        ensures begun { exchange_view self.new ≡ begun (exchange_view self.old) frame.now.bytes.items }
        ensures alive { self.new.block.decoder ≡ self.old.block.decoder }
    {
        self.unfinished = frame.stream();
        self.ends = frame.ends_stream();
        self.block.begin();
    }

    // A part of a header block came, which weighs so much more than its octets.
    fn gather(
        &mut self,
        alloc: Global,
        frame: &Frame,
        head: usize,
        part: &[u8],
    ) -> Result<News, AllocError>
        requires alive { self.old.block.decoder.alive ≡ true }
        ensures came { IfOk result (λ news. PartCame (exchange_view self.old) frame.now.bytes.items head part.now
            (turn_of news (exchange_view self.new))) }
        ensures alive { IfOk result (λ news. is_over news ≡ false → self.new.block.decoder.alive ≡ true) }
    {
        match self.block.add(alloc, head, part, frame.ends_block())? {
            Progress::Heavy => Ok(News::breaks(Code::EnhanceYourCalm)),
            Progress::More => Ok(News::Quiet),
            Progress::Garbled => Ok(News::breaks(Code::Compression)),
            Progress::Whole(fields) => {
                self.unfinished = 0;
                self.fields_came(alloc, frame.stream(), fields)
            }
        }
    }

    // The client reset a stream.
    fn reset_came(&mut self, number: u32) -> News
        ensures turn { turn_of result (exchange_view self.new)
            ≡ reset_came (beside (exchange_view self.old) number) (find number (exchange_view self.old).streams) }
        ensures block { self.new.block ≡ self.old.block }
    {
        if self.streams.remove(number).is_none() {
            return News::Quiet;
        }
        if self.resets >= MOST_RESETS {
            return News::breaks(Code::EnhanceYourCalm);
        }
        self.resets += 1;
        News::Quiet
    }

    // Settings came.
    fn settings_came(&mut self, frame: &Frame) -> News
        ensures turn { turn_of result (exchange_view self.new)
            ≡ settings_came (exchange_view self.old) (window_after (exchange_view self.old).window frame.now.bytes.items) }
        ensures block { self.new.block ≡ self.old.block }
    {
        let window = after(self.window, frame);
        if !self.streams.are_within(window) {
            return News::breaks(Code::FlowControl);
        }
        self.window = window;
        News::Quiet
    }
}
