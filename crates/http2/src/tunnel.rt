//! A client with one call, on stream 1. Its bytes go through the pipe, and its frames to the control.

ghost use Rattle.std.specs.Prelude.{◌≡◌, ◌≤◌, None, true, length};

use crate::control::Control;
use crate::end::End;
use crate::fault::Fault;
use crate::first_words::WINDOW;
use crate::frame::{GOAWAY, RESET};
use crate::opening::{act, ask};
use crate::pipe::Pipe;
use hpack::Field;
use std::alloc::{AllocError, Global};

/// While more bytes than this wait for the peer, its frames are not looked at.
pub const PENDING: usize = 65_536;

/// The most bytes that wait for the peer before it learns why the call ends: `PENDING`, and one frame more.
pub(crate) const MOST_WAITING: usize = 81_929;

/// A client with one call.
#[derive(Debug, Drop)]
pub struct Tunnel {
    pipe: Pipe,
    control: Control,
    end: Option<End>,
    ghost one: { pipe.number ≡ 1 },
    ghost waits: { length pipe.out ≤ 81955 },
    ghost alive: { end ≡ None → control.decoder.alive ≡ true },
}

impl Tunnel {
    ghost use Rattle.std.specs.Prelude.{◌≢◌, ◌⊎◌, ◌<◌, ◌++◌, ◌-◌, min, ℕ, List, [], Some, Ok, take, map, false, is_some, if◌then◌else◌, IfOk, OnErr, OnOk, IsTrue};
    ghost use Rattle.hpack.specs.Field.{line_of};
    ghost use Rattle.http2.specs.Trail.{allowed, cancelling};
    ghost use Rattle.http2.specs.Frame.{IsPart, parts_of};
    ghost use Rattle.http2.specs.Lines.{line};
    ghost use Rattle.http2.specs.Controls.{control_view};
    ghost use Rattle.http2.specs.Control.{is_answered};
    ghost use Rattle.http2.specs.Tunnels.{Begun, CallLaw, Keeps};
    ghost use Rattle.http2.specs.declared.end.End.TheVariants.{Cancelled};

    /// A call with these fields.
    pub fn new(alloc: Global, fields: &[Field]) -> Result<Tunnel, Fault>
        ensures { IfOk result (Begun (map line_of fields.now)) }
    {
        let mut pipe = Pipe::new(alloc)?;
        ask(alloc, &mut pipe, fields)?;
        Ok(Tunnel {
            pipe,
            control: Control::new(alloc),
            end: None,
        })
    }

    /// Takes bytes of the peer, and returns how many. None are taken while too many bytes wait for the peer, or once
    /// the call is over.
    pub fn receive(&mut self, alloc: Global, bytes: &[u8]) -> Result<usize, AllocError>
        ensures count { IfOk result (λ n. n ≤ length bytes.now) }
        ensures most { IfOk result (λ n. self.old.end ≡ None → length self.old.pipe.out ≤ 65536
            → n ≡ min (length bytes.now) (16393 - length self.old.pipe.rest)) }
        ensures looked { OnOk result ((self.new.end ≢ None) ⊎ ((65536 < length self.new.pipe.out)
            ⊎ (IsPart self.new.pipe.rest × (self.new.pipe.owed < 262145)))) }
        ensures law { IfOk result (λ n. (first came sent took gave : List ℕ) → CallLaw first came sent took gave self.old
            → CallLaw first (came ++ take n bytes.now) sent took gave self.new) }
        ensures fault { OnErr result (Keeps self.old self.new) }
    {
        if self.end.is_some() {
            return Ok(0);
        }
        if self.pipe.out().len() > PENDING {
            return Ok(0);
        }
        let count = self.pipe.hear(alloc, bytes)?;
        self.work(alloc);
        Ok(count)
    }

    /// Looks at the frames that came, and gives windows back. A fault ends the call, and the peer learns of it. Its
    /// caller calls it after `sent`: while too much waits, nothing is looked at or given back.
    pub fn work(&mut self, alloc: Global)
        ensures looked { (self.new.end ≢ None) ⊎ ((65536 < length self.new.pipe.out)
            ⊎ (IsPart self.new.pipe.rest × (self.new.pipe.owed < 262145))) }
        ensures keeps { Keeps self.old self.new }
    {
        if self.end.is_some() {
            return;
        }
        self.look_at_all(alloc);
        match self.end {
            Some(End::Broken(fault)) => self.tell(alloc, fault),
            Some(_) => (),
            None => self.give_back(alloc),
        }
    }

    /// The data that wait for the core. There are none before the answer's fields have been found good.
    pub fn data(&self) -> &[u8]
        ensures { result.now ≡ (if is_answered (control_view self.now.control).stage then self.now.pipe.data_in else []) }
    {
        if self.control.is_answered() {
            return self.pipe.data_in();
        }
        &[]
    }

    /// The core took the first of the data. The window is given back, unless the call is over.
    pub fn take(&mut self, alloc: Global, count: usize) -> Result<(), AllocError>
        requires { count ≤ length self.old.pipe.data_in }
        ensures { (first came sent took gave : List ℕ) → CallLaw first came sent took gave self.old
            → CallLaw first came sent (took ++ take count self.old.pipe.data_in) gave self.new }
    {
        self.pipe.take(count);
        if self.end.is_some() {
            return Ok(());
        }
        if self.pipe.out().len() > PENDING {
            return Ok(());
        }
        self.pipe.give_back(alloc, WINDOW / 4)
    }

    /// Takes the first of the core's bytes, as far as the peer's windows and the bytes that wait allow. None are taken
    /// after `finish`.
    pub fn say(&mut self, alloc: Global, bytes: &[u8]) -> Result<usize, AllocError>
        ensures count { IfOk result (λ n. n ≤ length bytes.now) }
        ensures most { IfOk result (λ n. self.old.end ≡ None → length self.old.pipe.out ≤ 65536
            → n ≡ (if self.old.pipe.finished then 0 else min (min (length bytes.now) 16384) (allowed (line self.old.pipe)))) }
        ensures law { IfOk result (λ n. (first came sent took gave : List ℕ) → CallLaw first came sent took gave self.old
            → CallLaw first came sent took (gave ++ take n bytes.now) self.new) }
        ensures fault { OnErr result (Keeps self.old self.new) }
    {
        if self.end.is_some() {
            return Ok(0);
        }
        if self.pipe.out().len() > PENDING {
            return Ok(0);
        }
        self.pipe.say(alloc, bytes)
    }

    /// Says that no more data come: the call is half closed (RFC 9113, 5.1). Returns whether that is said.
    pub fn finish(&mut self, alloc: Global) -> Result<bool, AllocError>
        ensures said { result ≡ Ok true → self.new.pipe.finished ≡ true }
        ensures does { IfOk result (λ b. self.old.end ≡ None → length self.old.pipe.out ≤ 65536 → b ≡ true) }
        ensures keeps { Keeps self.old self.new }
    {
        if self.end.is_some() {
            return Ok(false);
        }
        if self.pipe.out().len() > PENDING {
            return Ok(false);
        }
        self.pipe.finish(alloc)?;
        Ok(true)
    }

    /// Gives the call up: it is over, and the peer gets RST_STREAM, if there is memory for it and not too much
    /// waits.
    pub fn cancel(&mut self, alloc: Global) -> Result<(), AllocError>
        ensures end { self.new.end ≡ (if is_some self.old.end then self.old.end else Some Cancelled) }
        ensures told { OnOk result (self.old.end ≡ None → length self.old.pipe.out ≤ 65536
            → (frame : List ℕ) × (parts_of frame ≡ cancelling) × (self.new.pipe.out ≡ self.old.pipe.out ++ frame)) }
        ensures keeps { Keeps self.old self.new }
    {
        if self.end.is_some() {
            return Ok(());
        }
        self.end = Some(End::Cancelled);
        if self.pipe.out().len() > PENDING {
            return Ok(());
        }
        self.pipe.control(alloc, RESET, 0, 1, &[0, 0, 0, 8])
    }

    /// Asks the peer for a sign of life, with a mark that is given back, such as the time. Returns whether that was
    /// written.
    pub fn ping(&mut self, alloc: Global, mark: u64) -> Result<bool, AllocError>
        ensures asked { result ≡ Ok true → self.new.pipe.waits ≡ Some mark }
        ensures does { IfOk result (λ b. self.old.end ≡ None → length self.old.pipe.out ≤ 65536 → b ≡ true) }
        ensures keeps { Keeps self.old self.new }
    {
        if self.end.is_some() {
            return Ok(false);
        }
        if self.pipe.out().len() > PENDING {
            return Ok(false);
        }
        self.pipe.ping(alloc, mark)?;
        Ok(true)
    }

    /// The mark of the last ping, if it has not been acknowledged.
    pub fn ping_waits(&self) -> Option<u64>
        ensures { result ≡ self.now.pipe.waits }
    {
        self.pipe.waits()
    }

    /// The bytes that wait for the peer.
    pub fn out(&self) -> &[u8]
        ensures { result.now ≡ self.now.pipe.out }
    {
        self.pipe.out()
    }

    /// The first of the bytes were sent.
    pub fn sent(&mut self, count: usize)
        requires { count ≤ length self.old.pipe.out }
        ensures { (first came sent took gave : List ℕ) → CallLaw first came sent took gave self.old
            → CallLaw first came (sent ++ take count self.old.pipe.out) took gave self.new }
    {
        self.pipe.sent(count);
    }

    /// Why the call is over, if it is.
    pub fn end(&self) -> Option<End>
        ensures { result ≡ self.now.end }
    {
        self.end
    }

    /// The first 1,024 octets of grpc-message, decoded. They may be any octets. There are none while the call goes on.
    pub fn message(&self) -> &[u8]
        ensures { result.now ≡ (control_view self.now.control).told.text }
    {
        self.control.message()
    }

    /// How many octets of grpc-message were left out after those.
    pub fn message_cut(&self) -> usize
        ensures { result ≡ (control_view self.now.control).told.cut }
    {
        self.control.message_cut()
    }

    // Looks at one frame after the other.
    fn look_at_all(&mut self, alloc: Global)
        ensures looked { (self.new.end ≢ None) ⊎ ((65536 < length self.new.pipe.out) ⊎ IsPart self.new.pipe.rest) }
        ensures keeps { Keeps self.old self.new }
    {
        'frames: while self.end.is_none() && self.pipe.out().len() <= PENDING {
            if !self.look(alloc) {
                return;
            }
        }
    }

    // Looks at the next frame, if it is whole.
    fn look(&mut self, alloc: Global) -> bool
        requires open { self.old.end ≡ None }
        requires waits { length self.old.pipe.out ≤ 65536 }
        ensures shorter { IsTrue result → length self.new.pipe.rest < length self.old.pipe.rest }
        ensures looked { result ≡ true ⊎ ((self.new.end ≢ None) ⊎ IsPart self.new.pipe.rest) }
        ensures waits { length self.new.pipe.out ≤ 81929 }
        ensures keeps { Keeps self.old self.new }
    {
        match self.pipe.next(alloc) {
            Ok(Some(frame)) => {
                self.end = act(alloc, &mut self.pipe, &mut self.control, &frame);
                true
            }
            Ok(None) => false,
            Err(fault) => {
                self.end = Some(End::Broken(fault));
                false
            }
        }
    }

    // Gives windows back, unless too much waits. If memory runs out, the call is over.
    fn give_back(&mut self, alloc: Global)
        requires { self.old.end ≡ None }
        ensures longer { length self.old.pipe.out ≤ length self.new.pipe.out }
        ensures rest { self.new.pipe.rest ≡ self.old.pipe.rest }
        ensures given { (self.new.end ≢ None) ⊎ ((65536 < length self.new.pipe.out) ⊎ (self.new.pipe.owed < 262145)) }
        ensures keeps { Keeps self.old self.new }
    {
        if self.pipe.out().len() > PENDING {
            return;
        }
        if self.pipe.give_back(alloc, WINDOW / 4).is_err() {
            self.end = Some(End::Broken(Fault::Memory));
        }
    }

    // Says why the connection ends, if there is memory for it and not too much waits.
    fn tell(&mut self, alloc: Global, fault: Fault)
        ensures end { self.new.end ≡ self.old.end }
        ensures rest { self.new.pipe.rest ≡ self.old.pipe.rest }
        ensures keeps { Keeps self.old self.new }
    {
        if self.pipe.out().len() > MOST_WAITING {
            return;
        }
        let code = fault.code();
        let payload = [0, 0, 0, 0, 0, 0, 0, code as u8];
        let _told = self.pipe.control(alloc, GOAWAY, 0, 0, &payload).is_ok();
    }
}
