//! A server of unary calls: its bytes go through the wire, and its frames to the exchange.

ghost use Rattle.std.specs.Prelude.{◌≡◌, ◌≤◌, None, true, length};

use crate::exchange::{Exchange, MOST_STREAMS};
use crate::fault::{Code, Fault};
use crate::first_words::{PREFACE, WELCOME, WINDOW};
use crate::frame::{GOAWAY, MOST, UPDATE};
use crate::stream::Call;
use crate::tunnel::{MOST_WAITING, PENDING};
use crate::unary_frames::{block_of, head, number_of, serve, write_content, write_end, write_head};
use crate::wire::Wire;
use crate::written::octets;
use hpack::Field;
use std::alloc::{AllocError, Global};

/// Whether fields of an answer were written.
#[derive(Clone, Copy, Debug, PartialEq, Eq)]
pub enum Answering {
    /// They were.
    Written,
    /// Too many bytes wait for the client: later.
    Waits,
    /// The call is over: its stream was reset or its answer has come so far, or the connection is over.
    Gone,
}

/// A server of unary calls.
#[derive(Debug, Drop)]
pub struct UnaryServer {
    // how much of the preface came
    greeted: usize,
    wire: Wire,
    exchange: Exchange,
    // the calls that are whole and were not given
    calls: Vec<Call>,
    over: Option<Fault>,
    ghost within: { greeted ≤ 24 },
    ghost waits: { length wire.out ≤ 81955 },
    ghost few: { length calls.items ≤ 100 },
    ghost alive: { over ≡ None → exchange.block.decoder.alive ≡ true },
}

impl UnaryServer {
    ghost use Rattle.std.specs.Prelude.{◌≢◌, ◌⊎◌, ◌<◌, ◌++◌, ◌-◌, ◌∷◌, min, ℕ, List, [], Some, Ok, Err, take, drop, IfSome, map, false, is_some, if◌then◌else◌, IfOk, IfErr, OnErr, OnOk, IsTrue};
    ghost use Rattle.hpack.specs.Field.{line_of};
    ghost use Rattle.http2.specs.Frame.{IsPart, parts_of};
    ghost use Rattle.http2.specs.Trail.{Step};
    ghost use Rattle.http2.specs.Servers.{Heads};
    ghost use Rattle.http2.specs.Streams.{CallValue, find};
    ghost use Rattle.http2.specs.Exchanged.{can_begin, can_end, room_on};
    ghost use Rattle.http2.specs.Exchanges.{exchange_view};
    ghost use Rattle.http2.specs.StreamViews.{call_view};
    ghost use Rattle.http2.specs.Unary.{UnaryLaw, Welcomes, Continues, Receives, Stays, Writes, HasLooked, HasGiven, unary_view};
    ghost use Rattle.http2.specs.declared.fault.Fault.TheVariants.{Memory};
    ghost use Rattle.http2.specs.declared.unary.Answering.{Answering};

    /// A server whose client has said nothing. A request has at most so many octets of content.
    pub fn new(alloc: Global, most: usize) -> Result<UnaryServer, AllocError>
        ensures { IfOk result (Welcomes most) }
    {
        let wire = Wire::new(alloc, WELCOME)?;
        Ok(UnaryServer {
            greeted: 0,
            wire,
            exchange: Exchange::new(alloc, most),
            calls: Vec::new(alloc),
            over: None,
        })
    }

    /// Takes bytes of the client, and returns how many. None are taken while too many bytes wait for the client, or too many
    /// calls were not given, or once the connection is over. The preface is taken by itself.
    pub fn receive(&mut self, alloc: Global, bytes: &[u8]) -> Result<usize, AllocError>
        ensures count { IfOk result (λ n. n ≤ length bytes.now) }
        ensures first { IfOk result (λ n. self.old.over ≡ None → length self.old.wire.out ≤ 65536 → length self.old.calls.items < 100
            → self.old.greeted < 24 → (self.new.over ≢ None) ⊎ (n ≡ min (length bytes.now) (24 - self.old.greeted))) }
        ensures most { IfOk result (λ n. self.old.over ≡ None → length self.old.wire.out ≤ 65536 → length self.old.calls.items < 100
            → 24 ≤ self.old.greeted → n ≡ min (length bytes.now) (16393 - length self.old.wire.rest)) }
        ensures looked { OnOk result (HasLooked self.new) }
        ensures given { OnOk result ((100 ≤ length self.new.calls.items) ⊎ HasGiven self.new) }
        ensures over { self.old.over ≢ None → (result ≡ Ok 0) × (self.new ≡ self.old) }
        ensures waits { 65536 < length self.old.wire.out → (result ≡ Ok 0) × (self.new ≡ self.old) }
        ensures full { 100 ≤ length self.old.calls.items → (result ≡ Ok 0) × (self.new ≡ self.old) }
        ensures law { IfOk result (λ n. Receives (take n bytes.now) (unary_view self.old) (unary_view self.new)) }
        ensures fault { OnErr result (unary_view self.new ≡ unary_view self.old) }
    {
        if self.over.is_some() {
            return Ok(0);
        }
        if self.wire.out().len() > PENDING || self.calls.len() >= MOST_STREAMS {
            return Ok(0);
        }
        let count = self.hear(alloc, bytes)?;
        self.work(alloc);
        Ok(count)
    }

    // Takes bytes of the preface, or later ones.
    fn hear(&mut self, alloc: Global, bytes: &[u8]) -> Result<usize, AllocError>
        requires open { self.old.over ≡ None }
        ensures count { IfOk result (λ n. n ≤ length bytes.now) }
        ensures first { IfOk result (λ n. self.old.greeted < 24
            → (self.new.over ≢ None) ⊎ (n ≡ min (length bytes.now) (24 - self.old.greeted))) }
        ensures most { IfOk result (λ n. 24 ≤ self.old.greeted → n ≡ min (length bytes.now) (16393 - length self.old.wire.rest)) }
        ensures law { IfOk result (λ n. Receives (take n bytes.now) (unary_view self.old) (unary_view self.new)) }
        ensures fault { OnErr result (unary_view self.new ≡ unary_view self.old) }
    {
        if self.greeted < 24 {
            let taken = self.greet(alloc, bytes)?;
            return Ok(taken);
        }
        let count = self.wire.hear(bytes)?;
        Ok(count)
    }

    // Takes bytes of the preface. Others are kept, and end the connection.
    fn greet(&mut self, alloc: Global, bytes: &[u8]) -> Result<usize, AllocError>
        requires open { self.old.over ≡ None }
        requires begins { self.old.greeted < 24 }
        ensures count { IfOk result (λ n. n ≤ length bytes.now) }
        ensures first { IfOk result (λ n. (self.new.over ≢ None) ⊎ (n ≡ min (length bytes.now) (24 - self.old.greeted))) }
        ensures law { IfOk result (λ n. Receives (take n bytes.now) (unary_view self.old) (unary_view self.new)) }
        ensures fault { OnErr result (unary_view self.new ≡ unary_view self.old) }
    {
        let preface: &[u8] = PREFACE.as_slice();
        let rest = &preface[self.greeted..];
        let count = rest.len().min(bytes.len());
        if &bytes[..count] != &rest[..count] {
            let wrong = self.wire.hear(&bytes[..count])?;
            self.over = Some(Fault::Connection(Code::Protocol));
            self.tell(alloc, Fault::Connection(Code::Protocol));
            return Ok(wrong);
        }
        self.greeted += count;
        Ok(count)
    }

    /// Looks at the frames that came, and gives the connection's window back. A fault ends the connection by GOAWAY. Its caller
    /// calls it after `sent` and `call`: while too much waits, nothing is looked at or given back.
    pub fn work(&mut self, alloc: Global)
        ensures looked { HasLooked self.new }
        ensures given { HasGiven self.new }
        ensures over { self.old.over ≢ None → self.new.over ≡ self.old.over }
        ensures continues { Continues (unary_view self.old) (unary_view self.new) }
    {
        if self.over.is_some() {
            return;
        }
        self.look_at_all(alloc);
        match self.over {
            Some(fault) => self.tell(alloc, fault),
            None => self.give_back(alloc),
        }
    }

    /// The first call that is whole and was not given; none once the connection is over.
    pub fn call(&mut self) -> Option<Call>
        ensures none { result ≡ None → self.new ≡ self.old }
        ensures over { self.new.over ≡ self.old.over }
        ensures due { result ≡ None → self.old.over ≡ None → self.old.calls.items ≡ [] }
        ensures law { IfSome result (λ call. (most : ℕ) (trail : List Step) (came sent : List ℕ) (gave : List CallValue)
            → UnaryLaw most trail came sent gave (unary_view self.old)
            → UnaryLaw most trail came sent (gave ++ call_view call ∷ []) (unary_view self.new)) }
    {
        if self.over.is_some() {
            return None;
        }
        if self.calls.is_empty() {
            return None;
        }
        Some(self.calls.remove(0))
    }

    /// Writes the fields that begin the answer of a call.
    pub fn answer(
        &mut self,
        alloc: Global,
        stream: u32,
        fields: &[Field],
    ) -> Result<Answering, Fault>
        ensures written { result ≡ Ok Answering.Written → (frame : List ℕ) × Heads stream 4 (map line_of fields.now) frame
            × Writes frame (unary_view self.old) (unary_view self.new) }
        ensures gone { result ≡ Ok Answering.Gone → (self.new ≡ self.old)
            × ((self.old.over ≢ None) ⊎ (can_begin (find stream (exchange_view self.old.exchange).streams) ≡ false)) }
        ensures stays { IfOk result (λ _. self.new.over ≡ self.old.over) }
        ensures waits { result ≡ Ok Answering.Waits → (self.new ≡ self.old) × (65536 < length self.old.wire.out) }
        ensures fault { OnErr result (Stays (unary_view self.old) (unary_view self.new)) }
    {
        if self.over.is_some() {
            return Ok(Answering::Gone);
        }
        if !self.exchange.can_begin(stream) {
            return Ok(Answering::Gone);
        }
        if self.wire.out().len() > PENDING {
            return Ok(Answering::Waits);
        }
        let block = block_of(alloc, fields)?;
        match write_head(alloc, &mut self.wire, &mut self.exchange, stream, &block) {
            Ok(()) => Ok(Answering::Written),
            Err(_) => {
                self.over = Some(Fault::Memory);
                Err(Fault::Memory)
            }
        }
    }

    /// Writes the first of an answer's octets as content, as far as the windows, a frame and the bytes that wait allow. Returns how
    /// many; none before its fields were written, or once the call is over.
    pub fn say(&mut self, alloc: Global, stream: u32, bytes: &[u8]) -> Result<usize, Fault>
        ensures count { IfOk result (λ n. n ≤ length bytes.now) }
        ensures most { IfOk result (λ n. self.old.over ≡ None → length self.old.wire.out ≤ 65536
            → n ≡ min (min (length bytes.now) 16384) (room_on (exchange_view self.old.exchange) (find stream (exchange_view self.old.exchange).streams))) }
        ensures none { result ≡ Ok 0 → self.new ≡ self.old }
        ensures over { self.old.over ≢ None → result ≡ Ok 0 }
        ensures stays { IfOk result (λ _. self.new.over ≡ self.old.over) }
        ensures memory { IfErr result (λ fault. fault ≡ Memory) }
        ensures waits { 65536 < length self.old.wire.out → result ≡ Ok 0 }
        ensures written { IfOk result (λ n. 0 < n → (frame : List ℕ)
            × (parts_of frame ≡ record { kind = 0; flags = 0; stream = stream; payload = take n bytes.now })
            × Writes frame (unary_view self.old) (unary_view self.new)) }
        ensures fault { OnErr result (Stays (unary_view self.old) (unary_view self.new)) }
    {
        if self.over.is_some() {
            return Ok(0);
        }
        if self.wire.out().len() > PENDING {
            return Ok(0);
        }
        let count = bytes.len().min(MOST).min(self.exchange.room(stream));
        if count == 0 {
            return Ok(0);
        }
        match write_content(
            alloc,
            &mut self.wire,
            &mut self.exchange,
            stream,
            &bytes[..count],
        ) {
            Ok(()) => Ok(count),
            Err(_) => {
                self.over = Some(Fault::Memory);
                Err(Fault::Memory)
            }
        }
    }

    /// Writes the fields that end the answer of a call, such as grpc-status: its trailers, or the whole answer if `answer` wrote none.
    pub fn finish(
        &mut self,
        alloc: Global,
        stream: u32,
        fields: &[Field],
    ) -> Result<Answering, Fault>
        ensures written { result ≡ Ok Answering.Written → (frame : List ℕ) × Heads stream 5 (map line_of fields.now) frame
            × Writes frame (unary_view self.old) (unary_view self.new) }
        ensures gone { result ≡ Ok Answering.Gone → (self.new ≡ self.old)
            × ((self.old.over ≢ None) ⊎ (can_end (find stream (exchange_view self.old.exchange).streams) ≡ false)) }
        ensures stays { IfOk result (λ _. self.new.over ≡ self.old.over) }
        ensures waits { result ≡ Ok Answering.Waits → (self.new ≡ self.old) × (65536 < length self.old.wire.out) }
        ensures fault { OnErr result (Stays (unary_view self.old) (unary_view self.new)) }
    {
        if self.over.is_some() {
            return Ok(Answering::Gone);
        }
        if !self.exchange.can_end(stream) {
            return Ok(Answering::Gone);
        }
        if self.wire.out().len() > PENDING {
            return Ok(Answering::Waits);
        }
        let block = block_of(alloc, fields)?;
        match write_end(alloc, &mut self.wire, &mut self.exchange, stream, &block) {
            Ok(()) => Ok(Answering::Written),
            Err(_) => {
                self.over = Some(Fault::Memory);
                Err(Fault::Memory)
            }
        }
    }

    /// Whether the answer of a call on this stream can still end: the call was whole, and is not over.
    pub fn is_due(&self, stream: u32) -> bool
        ensures { result ≡ (if is_some self.now.over then false else can_end (find stream (exchange_view self.now.exchange).streams)) }
    {
        if self.over.is_some() {
            return false;
        }
        self.exchange.can_end(stream)
    }

    /// The bytes that wait for the client.
    pub fn out(&self) -> &[u8]
        ensures { result.now ≡ self.now.wire.out }
    {
        self.wire.out()
    }

    /// The first of the bytes were sent.
    pub fn sent(&mut self, count: usize)
        requires { count ≤ length self.old.wire.out }
        ensures law { (most : ℕ) (trail : List Step) (came sent : List ℕ) (gave : List CallValue)
            → UnaryLaw most trail came sent gave (unary_view self.old)
            → UnaryLaw most trail came (sent ++ take count self.old.wire.out) gave (unary_view self.new) }
        ensures over { self.new.over ≡ self.old.over }
    {
        self.wire.sent(count);
    }

    /// Why the connection is over, if it is.
    pub fn over(&self) -> Option<Fault>
        ensures { result ≡ self.now.over }
    {
        self.over
    }

    // Looks at one frame after the other.
    fn look_at_all(&mut self, alloc: Global)
        ensures looked { HasLooked self.new }
        ensures continues { Continues (unary_view self.old) (unary_view self.new) }
    {
        'frames: while self.over.is_none()
            && self.wire.out().len() <= PENDING
            && self.calls.len() < MOST_STREAMS
        {
            if !self.look(alloc) {
                return;
            }
        }
    }

    // Looks at the next frame, if it is whole.
    fn look(&mut self, alloc: Global) -> bool
        requires open { self.old.over ≡ None }
        requires waits { length self.old.wire.out ≤ 65536 }
        requires few { length self.old.calls.items < 100 }
        ensures shorter { IsTrue result → length self.new.wire.rest < length self.old.wire.rest }
        ensures looked { result ≡ true ⊎ ((self.new.over ≢ None) ⊎ IsPart self.new.wire.rest) }
        ensures continues { Continues (unary_view self.old) (unary_view self.new) }
    {
        match self.wire.next(alloc) {
            Ok(Some(frame)) => {
                self.over = serve(
                    alloc,
                    &mut self.wire,
                    &mut self.exchange,
                    &mut self.calls,
                    &frame,
                );
                true
            }
            Ok(None) => false,
            Err(fault) => {
                self.over = Some(fault);
                false
            }
        }
    }

    // Gives the connection's window back, unless too much waits. If memory runs out, the connection is over.
    fn give_back(&mut self, alloc: Global)
        requires { self.old.over ≡ None }
        ensures longer { length self.old.wire.out ≤ length self.new.wire.out }
        ensures rest { self.new.wire.rest ≡ self.old.wire.rest }
        ensures calls { self.new.calls ≡ self.old.calls }
        ensures given { HasGiven self.new }
        ensures continues { Continues (unary_view self.old) (unary_view self.new) }
    {
        if self.wire.out().len() > PENDING {
            return;
        }
        let count = WINDOW - self.exchange.credit;
        if count < WINDOW / 4 {
            return;
        }
        match self
            .wire
            .put(alloc, head(UPDATE, 0, 0), &octets(count as u32))
        {
            Ok(()) => self.exchange.credit = WINDOW,
            Err(_) => self.over = Some(Fault::Memory),
        }
    }

    // Says why the connection ends, if there is memory for it and not too much waits. It names the greatest stream that the
    // client opened as the last that may have been served.
    fn tell(&mut self, alloc: Global, fault: Fault)
        requires { self.old.over ≡ Some fault }
        ensures over { self.new.over ≡ self.old.over }
        ensures continues { Continues (unary_view self.old) (unary_view self.new) }
    {
        if self.wire.out().len() > MOST_WAITING {
            return;
        }
        let [a, b, c, d] = octets(self.exchange.last);
        let payload = [a, b, c, d, 0, 0, 0, number_of(fault.code())];
        let _told = self.wire.put(alloc, head(GOAWAY, 0, 0), &payload).is_ok();
    }
}
