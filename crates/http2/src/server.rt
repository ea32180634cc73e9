//! A server of one call, on the stream that its peer opens. Its bytes go through the pipe, and its frames to the control.

ghost use Rattle.std.specs.Prelude.{◌≡◌, ◌≤◌, None, true, length};
ghost use Rattle.http2.specs.Frame.{IsStream};

use crate::acting::{head, serve};
use crate::fault::{Code, Fault};
use crate::first_words::{PREFACE, WINDOW};
use crate::frame::GOAWAY;
use crate::over::{Over, broke};
use crate::pipe::Pipe;
use crate::serving::Serving;
use crate::tunnel::{MOST_WAITING, PENDING};
use crate::written::octets;
use hpack::Field;
use std::alloc::{AllocError, Global};

/// A server of one call.
#[derive(Debug, Drop)]
pub struct Server {
    // how much of the preface came
    greeted: usize,
    pipe: Pipe,
    serving: Serving,
    // whether the answer's fields were written
    answered: bool,
    over: Option<Over>,
    ghost within: { greeted ≤ 24 },
    ghost waits: { length pipe.out ≤ 81955 },
    ghost alive: { over ≡ None → serving.block.decoder.alive ≡ true },
    ghost open: { answered ≡ true → IsStream pipe.number },
}

impl Server {
    ghost use Rattle.std.specs.Prelude.{◌≢◌, ◌⊎◌, ◌<◌, ◌++◌, ◌-◌, ◌∷◌, min, ℕ, List, [], Some, Ok, take, drop, IfSome, map, false, is_some, if◌then◌else◌, IfOk, OnErr, OnOk, IsTrue};
    ghost use Rattle.hpack.specs.Field.{line_of};
    ghost use Rattle.http2.specs.Trail.{allowed, preface};
    ghost use Rattle.http2.specs.Frame.{IsPart};
    ghost use Rattle.http2.specs.Lines.{line};
    ghost use Rattle.http2.specs.Servings.{serving_view};
    ghost use Rattle.http2.specs.Serving.{is_asked, is_closed};
    ghost use Rattle.http2.specs.Servers.{Greets, Heads, ServeLaw, Stays};
    ghost use Rattle.http2.specs.declared.over.Over.TheVariants.{Answered, Broken};
    ghost use Rattle.http2.specs.declared.fault.Code.{Code};
    ghost use Rattle.http2.specs.declared.fault.Fault.TheVariants.{Connection};

    /// A server whose peer has said nothing.
    pub fn new(alloc: Global) -> Result<Server, AllocError>
        ensures { IfOk result Greets }
    {
        let pipe = Pipe::serving(alloc)?;
        Ok(Server {
            greeted: 0,
            pipe,
            serving: Serving::new(alloc),
            answered: false,
            over: None,
        })
    }

    /// Takes bytes of the peer, and returns how many. None are taken while too many bytes wait for the peer, or once
    /// the call is over. The preface is taken by itself.
    pub fn receive(&mut self, alloc: Global, bytes: &[u8]) -> Result<usize, AllocError>
        ensures count { IfOk result (λ n. n ≤ length bytes.now) }
        ensures law { IfOk result (λ n. (came sent took gave : List ℕ) → ServeLaw came sent took gave self.old
            → ServeLaw (came ++ take n bytes.now) sent took gave self.new) }
        ensures fault { OnErr result (Stays self.old self.new) }
    {
        if self.over.is_some() {
            return Ok(0);
        }
        if self.pipe.out().len() > PENDING {
            return Ok(0);
        }
        if self.greeted < 24 {
            return Ok(self.greet(alloc, bytes));
        }
        let count = self.pipe.hear(alloc, bytes)?;
        self.work(alloc);
        Ok(count)
    }

    // Takes bytes of the preface. Others end the connection.
    fn greet(&mut self, alloc: Global, bytes: &[u8]) -> usize
        requires open { self.old.over ≡ None }
        requires begins { self.old.greeted < 24 }
        ensures count { result ≤ length bytes.now }
        ensures other { let n = min (length bytes.now) (24 - self.old.greeted) in
            take n bytes.now ≢ take n (drop self.old.greeted preface)
            → self.new.over ≡ Some (Broken (Connection Code.Protocol)) }
        ensures law { (came sent took gave : List ℕ) → ServeLaw came sent took gave self.old
            → ServeLaw (came ++ take result bytes.now) sent took gave self.new }
    {
        let preface: &[u8] = PREFACE.as_slice();
        let rest = &preface[self.greeted..];
        let count = rest.len().min(bytes.len());
        if &bytes[..count] != &rest[..count] {
            self.over = Some(broke(Code::Protocol));
            self.tell(alloc, Fault::Connection(Code::Protocol));
            return 0;
        }
        self.greeted += count;
        count
    }

    /// Looks at the frames that came, and gives windows back. A fault ends the call, and the peer learns of it. Its
    /// caller calls it after `sent`: while too much waits, nothing is looked at or given back.
    pub fn work(&mut self, alloc: Global)
        ensures stays { Stays self.old self.new }
    {
        if self.over.is_some() {
            return;
        }
        self.look_at_all(alloc);
        match self.over {
            Some(Over::Broken(fault)) => self.tell(alloc, fault),
            Some(_) => (),
            None => self.give_back(alloc),
        }
    }

    /// The request's fields, once they came.
    pub fn request(&self) -> Option<&[Field]>
        ensures none { result ≡ None → is_asked (serving_view self.now.serving).phase ≡ false }
        ensures some { IfSome result (λ fields. map line_of fields.now ≡ (serving_view self.now.serving).request) }
    {
        if !self.serving.is_asked() {
            return None;
        }
        Some(self.serving.request())
    }

    /// Whether the last of the data came: no more will wait for the core.
    pub fn is_closed(&self) -> bool
        ensures { result ≡ is_closed (serving_view self.now.serving).phase }
    {
        self.serving.is_closed()
    }

    /// The data that wait for the core. There are none before the request's fields have been found good.
    pub fn data(&self) -> &[u8]
        ensures { result.now ≡ (if is_asked (serving_view self.now.serving).phase then self.now.pipe.data_in else []) }
    {
        if self.serving.is_asked() {
            return self.pipe.data_in();
        }
        &[]
    }

    /// The core took the first of the data. The window is given back, unless the call is over.
    pub fn take(&mut self, alloc: Global, count: usize) -> Result<(), AllocError>
        requires { count ≤ length self.old.pipe.data_in }
        ensures { (came sent took gave : List ℕ) → ServeLaw came sent took gave self.old
            → ServeLaw came sent (took ++ take count self.old.pipe.data_in) gave self.new }
    {
        self.pipe.take(count);
        if self.over.is_some() {
            return Ok(());
        }
        if self.pipe.out().len() > PENDING {
            return Ok(());
        }
        if !self.pipe.is_open() {
            return Ok(());
        }
        self.pipe.give_back(alloc, WINDOW / 4)
    }

    /// Writes the fields that begin the answer, once the request came. Returns whether they are written.
    pub fn answer(&mut self, alloc: Global, fields: &[Field]) -> Result<bool, Fault>
        ensures answered { result ≡ Ok true → self.new.answered ≡ true }
        ensures wrote { result ≡ Ok true → self.old.answered ≡ false → (frame : List ℕ)
            × Heads self.old.pipe.number 4 (map line_of fields.now) frame × (self.new.pipe.out ≡ self.old.pipe.out ++ frame) }
        ensures stays { Stays self.old self.new }
    {
        if self.over.is_some() {
            return Ok(false);
        }
        if self.pipe.out().len() > PENDING {
            return Ok(false);
        }
        if !self.pipe.is_open() {
            return Ok(false);
        }
        if self.answered {
            return Ok(true);
        }
        head(alloc, &mut self.pipe, 4, fields)?;
        self.answered = true;
        Ok(true)
    }

    /// Takes the first of the core's bytes, as far as the peer's windows and the bytes that wait allow. None are taken
    /// before `answer` has written the answer's fields.
    pub fn say(&mut self, alloc: Global, bytes: &[u8]) -> Result<usize, AllocError>
        ensures count { IfOk result (λ n. n ≤ length bytes.now) }
        ensures most { IfOk result (λ n. self.old.over ≡ None → length self.old.pipe.out ≤ 65536 → self.old.answered ≡ true
            → n ≡ (if self.old.pipe.finished then 0 else min (min (length bytes.now) 16384) (allowed (line self.old.pipe)))) }
        ensures silent { self.old.answered ≡ false → IfOk result (λ n. n ≡ 0) }
        ensures law { IfOk result (λ n. (came sent took gave : List ℕ) → ServeLaw came sent took gave self.old
            → ServeLaw came sent took (gave ++ take n bytes.now) self.new) }
        ensures fault { OnErr result (Stays self.old self.new) }
    {
        if !self.answered {
            return Ok(0);
        }
        if self.over.is_some() {
            return Ok(0);
        }
        if self.pipe.out().len() > PENDING {
            return Ok(0);
        }
        self.pipe.say(alloc, bytes)
    }

    /// Writes the fields that end the answer, such as grpc-status: its trailers, or the whole answer if `answer` wrote none. The call is
    /// then over. Returns whether they are written.
    pub fn finish(&mut self, alloc: Global, fields: &[Field]) -> Result<bool, Fault>
        ensures over { result ≡ Ok true → self.new.over ≡ Some Answered }
        ensures wrote { result ≡ Ok true → (frame : List ℕ)
            × Heads self.old.pipe.number 5 (map line_of fields.now) frame × (self.new.pipe.out ≡ self.old.pipe.out ++ frame) }
        ensures stays { Stays self.old self.new }
    {
        if self.over.is_some() {
            return Ok(false);
        }
        if self.pipe.out().len() > PENDING {
            return Ok(false);
        }
        if !self.pipe.is_open() {
            return Ok(false);
        }
        head(alloc, &mut self.pipe, 5, fields)?;
        self.over = Some(Over::Answered);
        Ok(true)
    }

    /// The bytes that wait for the peer.
    pub fn out(&self) -> &[u8]
        ensures { result.now ≡ self.now.pipe.out }
    {
        self.pipe.out()
    }

    /// The first of the bytes were sent.
    pub fn sent(&mut self, count: usize)
        requires { count ≤ length self.old.pipe.out }
        ensures { (came sent took gave : List ℕ) → ServeLaw came sent took gave self.old
            → ServeLaw came (sent ++ take count self.old.pipe.out) took gave self.new }
    {
        self.pipe.sent(count);
    }

    /// Why the call is over, if it is.
    pub fn over(&self) -> Option<Over>
        ensures { result ≡ self.now.over }
    {
        self.over
    }

    // Looks at one frame after the other.
    fn look_at_all(&mut self, alloc: Global)
        ensures stays { Stays self.old self.new }
    {
        'frames: while self.over.is_none() && self.pipe.out().len() <= PENDING {
            if !self.look(alloc) {
                return;
            }
        }
    }

    // Looks at the next frame, if it is whole.
    fn look(&mut self, alloc: Global) -> bool
        requires open { self.old.over ≡ None }
        requires waits { length self.old.pipe.out ≤ 65536 }
        ensures shorter { IsTrue result → length self.new.pipe.rest < length self.old.pipe.rest }
        ensures stays { Stays self.old self.new }
    {
        match self.pipe.next(alloc) {
            Ok(Some(frame)) => {
                self.over = serve(alloc, &mut self.pipe, &mut self.serving, &frame);
                true
            }
            Ok(None) => false,
            Err(fault) => {
                self.over = Some(Over::Broken(fault));
                false
            }
        }
    }

    // Gives windows back, unless too much waits or no stream is open. If memory runs out, the call is over.
    fn give_back(&mut self, alloc: Global)
        requires { self.old.over ≡ None }
        ensures stays { Stays self.old self.new }
    {
        if self.pipe.out().len() > PENDING {
            return;
        }
        if !self.pipe.is_open() {
            return;
        }
        if self.pipe.give_back(alloc, WINDOW / 4).is_err() {
            self.over = Some(Over::Broken(Fault::Memory));
        }
    }

    // Says why the connection ends, if there is memory for it and not too much waits. It names the call's stream as the last
    // that may have been served.
    fn tell(&mut self, alloc: Global, fault: Fault)
        requires { is_some self.old.over ≡ true }
        ensures over { self.new.over ≡ self.old.over }
        ensures stays { Stays self.old self.new }
    {
        if self.pipe.out().len() > MOST_WAITING {
            return;
        }
        let last = if self.pipe.is_open() {
            self.pipe.number()
        } else {
            0
        };
        let [a, b, c, d] = octets(last);
        let payload = [a, b, c, d, 0, 0, 0, fault.code() as u8];
        let _told = self.pipe.control(alloc, GOAWAY, 0, 0, &payload).is_ok();
    }
}
