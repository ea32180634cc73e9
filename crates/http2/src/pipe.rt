//! The pipe of a call: all bytes go through it, so that its law holds whatever the code above does.
ghost use Rattle.std.specs.Prelude.{◌≡◌, ◌≤◌, ◌<◌, ◌+◌, ◌-◌, ◌^◌, ◌↔◌, IsTrue, length};

use crate::accounts::{after, data, flow, flow_on, is_beyond, left, ponged, raise};
use crate::cut::first_frame;
use crate::fault::{Code, Fault};
use crate::first_words::{GREETING, OPENING, UNOPENED, WINDOW};
use crate::frame::{DATA, Frame, HEAD, MOST, PING, UPDATE};
use crate::queue::Queue;
use crate::written::{octets, written};
use std::alloc::{AllocError, Global};

/// The pipe of a call. A client's is on stream 1, a server's on the stream that its peer opens.
#[derive(Debug, Drop)]
pub(crate) struct Pipe {
    // the call's stream
    number: u32,
    // bytes of the peer that were not looked at, data for the core, and bytes for the peer
    rest: Queue,
    data_in: Queue,
    out: Queue,
    // the peer's initial window of a stream; what it added to the stream's and to the connection's, and how much was used
    window: u32,
    stream: u64,
    connection: u64,
    used: u64,
    // how much the peer may send, and how much may be given back to it
    credit: usize,
    owed: usize,
    // how much came on other streams, and may be given back to the connection
    others: usize,
    // whether the last of the data were written, and the mark of the ping that waits for its acknowledgement
    finished: bool,
    waits: Option<u64>,
    ghost bounded: { length data_in + owed + credit ≡ 1048581 },
    ghost beside: { others ≤ credit },
    ghost short: { length rest ≤ 16393 },
    ghost stream_sum: { stream < 2 ^ 63 },
    ghost connection_sum: { connection < 2 ^ 63 },
}

impl Pipe {
    ghost use Rattle.std.specs.Prelude.{◌≢◌, ◌⊎◌, min, true, false, if◌then◌else◌, Ok, None, Some, ◌++◌, ◌∷◌, ℕ, List, [], take, IfOk, IfErr, OnErr, OnOk};
    ghost use Rattle.http2.specs.Frame.{IsFrame, IsPart, IsStream, unopened, flow_of, parts_of, window_by, is_ping_by};
    ghost use Rattle.http2.specs.Trail.{Step, got, put, connected, greeted, preface, settings_frame, greeting_frame, window_frame, AreQuiet, Law, Adds, Hears, Sends, Hands, Gives, AreMoves, allowed};
    ghost use Rattle.http2.specs.Lines.{line, unread};
    ghost use Rattle.http2.specs.Call.{IsBeyond, StopsAt};
    ghost use Rattle.http2.specs.declared.fault.Code.{Code};
    ghost use Rattle.http2.specs.declared.fault.Fault.TheVariants.{Memory, Connection};
    ghost use Rattle.http2.specs.declared.frame.Frame.{Frame};

    /// A client's pipe whose peer was told nothing but the opening.
    pub fn new(alloc: Global) -> Result<Pipe, AllocError>
        ensures law { IfOk result (λ p. Law connected [] [] [] [] (line p)) }
        ensures out { IfOk result (λ p. p.out ≡ preface ++ settings_frame ++ window_frame) }
        ensures number { IfOk result (λ p. p.number ≡ 1) }
    {
        let pipe = Pipe::said(alloc, 1, OPENING)?;
        Ok(pipe)
    }

    /// A server's pipe whose peer was told nothing but its settings.
    pub fn serving(alloc: Global) -> Result<Pipe, AllocError>
        ensures law { IfOk result (λ p. Law greeted [] preface [] [] (line p)) }
        ensures out { IfOk result (λ p. p.out ≡ greeting_frame ++ window_frame) }
        ensures number { IfOk result (λ p. p.number ≡ unopened) }
    {
        let pipe = Pipe::said(alloc, UNOPENED, GREETING)?;
        Ok(pipe)
    }

    // A pipe whose peer was told this.
    fn said(alloc: Global, number: u32, opening: &[u8]) -> Result<Pipe, AllocError>
        ensures empty { IfOk result (λ p. (p.rest ≡ []) × (p.data_in ≡ []) × (p.out ≡ opening.now)) }
        ensures windows { IfOk result (λ p. (p.window ≡ 65535) × (p.stream ≡ 0) × (p.connection ≡ 0) × (p.used ≡ 0)) }
        ensures credits { IfOk result (λ p. (p.credit ≡ 1048581) × (p.others ≡ 0)) }
        ensures begins { IfOk result (λ p. (p.number ≡ number) × (p.finished ≡ false) × (p.waits ≡ None)) }
    {
        let mut out = Queue::new(alloc);
        out.push(opening)?;
        Ok(Pipe {
            number,
            rest: Queue::new(alloc),
            data_in: Queue::new(alloc),
            out,
            window: 65_535,
            stream: 0,
            connection: 0,
            used: 0,
            credit: WINDOW,
            owed: 0,
            others: 0,
            finished: false,
            waits: None,
        })
    }

    /// The call's stream.
    pub fn number(&self) -> u32
        ensures { result ≡ self.now.number }
    {
        self.number
    }

    /// Whether the call's stream is open.
    pub fn is_open(&self) -> bool
        ensures { IsTrue result ↔ IsStream self.now.number }
    {
        self.number > 0 && self.number < UNOPENED
    }

    /// The call's stream is this one, which was just opened.
    pub fn open(&mut self, number: u32)
        requires unopened { self.old.number ≡ unopened }
        requires stream { IsStream number }
        ensures number { self.new.number ≡ number }
        ensures same { self.new ≡ record self.old { number = number } }
        ensures law { (trail : List Step) (came sent took gave : List ℕ) → AreQuiet trail
            → Law trail came sent took gave (line self.old) → Law trail came sent took gave (line self.new) }
    {
        self.number = number;
    }

    /// Takes bytes of the peer, as many as a frame may have. Returns how many it took.
    pub fn hear(&mut self, alloc: Global, bytes: &[u8]) -> Result<usize, AllocError>
        ensures number { self.new.number ≡ self.old.number }
        ensures out { self.new.out ≡ self.old.out }
        ensures count { IfOk result (λ n. n ≡ min (length bytes.now) (16393 - length self.old.rest)) }
        ensures law { IfOk result (λ n. Hears (take n bytes.now) (line self.old) (line self.new)) }
        ensures fault { OnErr result (Adds [] (line self.old) (line self.new)) }
    {
        let count = bytes.len().min(HEAD + MOST - self.rest.len());
        self.rest.push(&bytes[..count])?;
        Ok(count)
    }

    /// The next whole frame.
    pub fn next(&mut self, alloc: Global) -> Result<Option<Frame>, Fault>
        ensures number { self.new.number ≡ self.old.number }
        ensures out { self.new.out ≡ self.old.out }
        ensures frame { (f : Frame) → result ≡ Ok (Some f) → self.old.rest ≡ f.bytes.items ++ self.new.rest }
        ensures law { (f : Frame) → result ≡ Ok (Some f) → Adds (got f.bytes.items ∷ []) (line self.old) (line self.new) }
        ensures within { (f : Frame) → result ≡ Ok (Some f) → IsBeyond (unread self.old) f.bytes.items → ⊥ }
        ensures part { result ≡ Ok None → IsPart self.new.rest × (self.new ≡ self.old) }
        ensures fault { IfErr result (λ e. StopsAt (unread self.old) e × (unread self.new ≡ unread self.old)
            × Adds [] (line self.old) (line self.new)) }
    {
        let Some(size) = first_frame(self.rest.as_slice())? else {
            return Ok(None);
        };
        let frame = Frame {
            bytes: Vec::from_slice(alloc, &self.rest.as_slice()[..size])?,
        };
        self.account(alloc, &frame)?;
        Ok(Some(frame))
    }

    // Takes the first frame off what came.
    fn account(&mut self, alloc: Global, frame: &Frame) -> Result<(), Fault>
        requires size { length frame.now.bytes.items ≤ length self.old.rest }
        requires first { frame.now.bytes.items ≡ take (length frame.now.bytes.items) self.old.rest }
        ensures number { self.new.number ≡ self.old.number }
        ensures out { self.new.out ≡ self.old.out }
        ensures first { OnOk result (self.old.rest ≡ frame.now.bytes.items ++ self.new.rest) }
        ensures law { OnOk result (Adds (got frame.now.bytes.items ∷ []) (line self.old) (line self.new)) }
        ensures within { OnOk result (IsBeyond (unread self.old) frame.now.bytes.items → ⊥) }
        ensures fault { IfErr result (λ e. ((e ≡ Memory) ⊎ ((e ≡ Connection Code.FlowControl)
            × IsBeyond (unread self.old) frame.now.bytes.items)) × (self.new ≡ self.old)) }
    {
        let count = flow(frame);
        let on_stream = flow_on(self.number, frame);
        let window = after(self.window, frame);
        let Some(stream) = raise(self.stream, self.number, frame) else {
            return Err(Fault::Connection(Code::FlowControl));
        };
        let Some(connection) = raise(self.connection, 0, frame) else {
            return Err(Fault::Connection(Code::FlowControl));
        };
        if count + self.others > self.credit
            || is_beyond(window, stream, self.used)
            || is_beyond(65_535, connection, self.used)
        {
            return Err(Fault::Connection(Code::FlowControl));
        }
        let data = data(self.number, frame);
        self.data_in.push(data)?;
        self.rest.skip(frame.bytes.len());
        self.window = window;
        self.stream = stream;
        self.connection = connection;
        self.credit -= on_stream;
        self.owed += on_stream - data.len();
        self.others += count - on_stream;
        self.waits = ponged(self.waits, frame);
        Ok(())
    }

    /// The data that wait for the core.
    pub fn data_in(&self) -> &[u8]
        ensures { result.now ≡ self.now.data_in }
    {
        self.data_in.as_slice()
    }

    /// The core took the first of the data.
    pub fn take(&mut self, count: usize)
        requires { count ≤ length self.old.data_in }
        ensures number { self.new.number ≡ self.old.number }
        ensures out { self.new.out ≡ self.old.out }
        ensures unread { unread self.new ≡ unread self.old }
        ensures law { Hands (take count self.old.data_in) (line self.old) (line self.new) }
    {
        self.data_in.skip(count);
        self.owed += count;
    }

    /// The bytes that wait for the peer.
    pub fn out(&self) -> &[u8]
        ensures { result.now ≡ self.now.out }
    {
        self.out.as_slice()
    }

    /// The first of the bytes were sent.
    pub fn sent(&mut self, count: usize)
        requires { count ≤ length self.old.out }
        ensures number { self.new.number ≡ self.old.number }
        ensures waits { length self.new.out ≤ length self.old.out }
        ensures unread { unread self.new ≡ unread self.old }
        ensures law { Sends (take count self.old.out) (line self.old) (line self.new) }
    {
        self.out.skip(count);
    }

    /// Writes a frame that changes no sum: the call's fields, an acknowledgement, a reset, or GOAWAY.
    pub fn control(
        &mut self,
        alloc: Global,
        kind: u8,
        flags: u8,
        stream: u32,
        payload: &[u8],
    ) -> Result<(), AllocError>
        requires kind { (kind ≢ 0) × (kind ≢ 8) }
        requires window { (w : ℕ) → window_by kind payload.now w ≡ w }
        requires ping { is_ping_by kind flags ≡ false }
        requires small { length payload.now ≤ 16384 }
        requires stream { stream < 2147483648 }
        ensures number { self.new.number ≡ self.old.number }
        ensures waits { length self.new.out ≤ length self.old.out + 9 + length payload.now }
        ensures rest { self.new.rest ≡ self.old.rest }
        ensures unread { unread self.new ≡ unread self.old }
        ensures owed { self.new.owed ≡ self.old.owed }
        ensures law { OnOk result ((frame : List ℕ)
            × (parts_of frame ≡ record { kind = kind; flags = flags; stream = stream; payload = payload.now })
            × (self.new.out ≡ self.old.out ++ frame)
            × Adds (put frame ∷ []) (line self.old) (line self.new)) }
        ensures fault { OnErr result (self.new ≡ self.old) }
    {
        let frame = written(alloc, kind, flags, stream, payload)?;
        self.out.push(&frame.bytes)?;
        Ok(())
    }

    /// How many bytes the peer's windows allow.
    pub fn room(&self) -> usize
        ensures stream { 0 < result → self.now.used + result ≤ self.now.window + self.now.stream }
        ensures connection { 0 < result → self.now.used + result ≤ 65535 + self.now.connection }
        ensures fits { 0 < result → self.now.used + result < 2 ^ 64 }
        ensures exact { result ≡ allowed (line self.now) }
    {
        let stream = left(self.window, self.stream, self.used);
        let connection = left(65_535, self.connection, self.used);
        stream.min(connection) as usize
    }

    /// Writes the first of the core's bytes as data, as far as windows and frames allow. Returns how many; none after the last.
    pub fn say(&mut self, alloc: Global, bytes: &[u8]) -> Result<usize, AllocError>
        requires open { IsStream self.old.number }
        ensures number { self.new.number ≡ self.old.number }
        ensures waits { length self.new.out ≤ length self.old.out + 16393 }
        ensures count { IfOk result (λ n. n ≤ length bytes.now) }
        ensures most { IfOk result (λ n. n ≡ (if self.old.finished then 0
            else min (min (length bytes.now) 16384) (allowed (line self.old)))) }
        ensures law { IfOk result (λ n. (steps : List Step) × AreMoves self.old.number steps
            × Gives steps (take n bytes.now) (line self.old) (line self.new)) }
        ensures fault { OnErr result (Adds [] (line self.old) (line self.new)) }
    {
        if self.finished {
            return Ok(0);
        }
        let count = bytes.len().min(MOST).min(self.room());
        if count == 0 {
            return Ok(0);
        }
        let used = self.used + count as u64;
        let frame = written(alloc, DATA, 0, self.number, &bytes[..count])?;
        self.out.push(&frame.bytes)?;
        self.used = used;
        Ok(count)
    }

    /// Says that no more data come, unless that was said.
    pub fn finish(&mut self, alloc: Global) -> Result<(), AllocError>
        requires open { IsStream self.old.number }
        ensures number { self.new.number ≡ self.old.number }
        ensures waits { length self.new.out ≤ length self.old.out + 9 }
        ensures finished { OnOk result (self.new.finished ≡ true) }
        ensures unread { unread self.new ≡ unread self.old }
        ensures law { (steps : List Step) × AreMoves self.old.number steps × Adds steps (line self.old) (line self.new) }
        ensures fault { OnErr result (self.new ≡ self.old) }
    {
        if self.finished {
            return Ok(());
        }
        let frame = written(alloc, DATA, 1, self.number, &[])?;
        self.out.push(&frame.bytes)?;
        self.finished = true;
        Ok(())
    }

    /// Writes a ping with this mark.
    pub fn ping(&mut self, alloc: Global, mark: u64) -> Result<(), AllocError>
        ensures number { self.new.number ≡ self.old.number }
        ensures waits { length self.new.out ≤ length self.old.out + 17 }
        ensures ping { OnOk result (self.new.waits ≡ Some mark) }
        ensures unread { unread self.new ≡ unread self.old }
        ensures law { (steps : List Step) × AreMoves self.old.number steps × Adds steps (line self.old) (line self.new) }
        ensures fault { OnErr result (self.new ≡ self.old) }
    {
        let [a, b, c, d] = octets((mark / 4_294_967_296) as u32);
        let [e, f, g, h] = octets((mark % 4_294_967_296) as u32);
        let frame = written(alloc, PING, 0, 0, &[a, b, c, d, e, f, g, h])?;
        self.out.push(&frame.bytes)?;
        self.waits = Some(mark);
        Ok(())
    }

    /// The mark of the ping that waits for its acknowledgement.
    pub fn waits(&self) -> Option<u64>
        ensures { result ≡ self.now.waits }
    {
        self.waits
    }

    /// Gives windows back, once at least this much may be given: as much to the stream as to the connection.
    pub fn give_back(&mut self, alloc: Global, least: usize) -> Result<(), AllocError>
        requires least { 0 < least }
        requires open { IsStream self.old.number }
        ensures number { self.new.number ≡ self.old.number }
        ensures waits { length self.new.out ≤ length self.old.out + 26 }
        ensures longer { length self.old.out ≤ length self.new.out }
        ensures rest { self.new.rest ≡ self.old.rest }
        ensures owed { OnOk result (self.new.owed < least) }
        ensures law { (steps : List Step) × AreMoves self.old.number steps × Adds steps (line self.old) (line self.new) }
        ensures fault { OnErr result (self.new ≡ self.old) }
    {
        if self.owed == 0 {
            return self.give_back_others(alloc, least);
        }
        let owed = self.owed;
        let all = owed + self.others;
        if all < least {
            return Ok(());
        }
        let wide = octets(all as u32);
        let narrow = octets(owed as u32);
        let connection = written(alloc, UPDATE, 0, 0, &wide)?;
        let stream = written(alloc, UPDATE, 0, self.number, &narrow)?;
        let mut both = Vec::from_slice(alloc, &connection.bytes)?;
        both.extend_from_slice(&stream.bytes)?;
        self.out.push(&both)?;
        self.credit += owed;
        self.owed = 0;
        self.others = 0;
        Ok(())
    }

    // Gives back to the connection what came on other streams, if that is at least this much.
    fn give_back_others(&mut self, alloc: Global, least: usize) -> Result<(), AllocError>
        requires least { 0 < least }
        requires open { IsStream self.old.number }
        ensures number { self.new.number ≡ self.old.number }
        ensures waits { length self.new.out ≤ length self.old.out + 13 }
        ensures longer { length self.old.out ≤ length self.new.out }
        ensures rest { self.new.rest ≡ self.old.rest }
        ensures owed { self.new.owed ≡ self.old.owed }
        ensures law { (steps : List Step) × AreMoves self.old.number steps × Adds steps (line self.old) (line self.new) }
        ensures fault { OnErr result (self.new ≡ self.old) }
    {
        if self.others < least {
            return Ok(());
        }
        let payload = octets(self.others as u32);
        let connection = written(alloc, UPDATE, 0, 0, &payload)?;
        self.out.push(&connection.bytes)?;
        self.others = 0;
        Ok(())
    }
}
