//! The bytes of a connection: those that came and were not looked at, and those that wait for the peer.

ghost use Rattle.std.specs.Prelude.{◌≡◌, ◌≤◌, ◌<◌, ◌+◌, ◌-◌, ◌++◌, List, ℕ, Ok, None, Some, min, take, drop, length, IfOk, IfErr, OnOk, OnErr};
ghost use Rattle.http2.specs.Frame.{IsFrame, IsPart, IsTooLarge, parts_of};
ghost use Rattle.http2.specs.declared.fault.Fault.{Fault};
ghost use Rattle.http2.specs.declared.fault.Fault.TheVariants.{Memory};
ghost use Rattle.http2.specs.declared.frame.Frame.{Frame};

use crate::cut::first_frame;
use crate::fault::{Code, Fault};
use crate::frame::{Frame, HEAD, MOST};
use crate::queue::Queue;
use crate::written::written;
use std::alloc::{AllocError, Global};

/// The bytes of a connection.
#[derive(Debug, Drop)]
pub(crate) struct Wire {
    rest: Queue,
    out: Queue,
    ghost short: { length rest ≤ 16393 },
}

impl Wire {
    ghost use Rattle.std.specs.Prelude.{◌⊎◌, []};

    /// No byte came, and these wait for the peer.
    pub(crate) fn new(alloc: Global, opening: &[u8]) -> Result<Wire, AllocError>
        ensures { IfOk result (λ w. (w.rest ≡ []) × (w.out ≡ opening.now)) }
    {
        let mut out = Queue::new(alloc);
        out.push(opening)?;
        Ok(Wire {
            rest: Queue::new(alloc),
            out,
        })
    }

    /// Takes bytes of the peer, as many as a frame may have. Returns how many it took.
    pub(crate) fn hear(&mut self, bytes: &[u8]) -> Result<usize, AllocError>
        ensures out { self.new.out ≡ self.old.out }
        ensures count { IfOk result (λ n. n ≡ min (length bytes.now) (16393 - length self.old.rest)) }
        ensures heard { IfOk result (λ n. self.new.rest ≡ self.old.rest ++ take n bytes.now) }
        ensures fault { OnErr result (self.new ≡ self.old) }
    {
        let count = bytes.len().min(HEAD + MOST - self.rest.len());
        self.rest.push(&bytes[..count])?;
        Ok(count)
    }

    /// The next whole frame.
    pub(crate) fn next(&mut self, alloc: Global) -> Result<Option<Frame>, Fault>
        ensures out { self.new.out ≡ self.old.out }
        ensures frame { (f : Frame) → result ≡ Ok (Some f) → self.old.rest ≡ f.bytes.items ++ self.new.rest }
        ensures part { result ≡ Ok None → IsPart self.new.rest × (self.new ≡ self.old) }
        ensures fault { IfErr result (λ e. ((e ≡ Memory) ⊎ ((e ≡ Fault.Connection Code.FrameSize) × IsTooLarge self.old.rest))
            × (self.new ≡ self.old)) }
    {
        let Some(size) = first_frame(self.rest.as_slice())? else {
            return Ok(None);
        };
        let frame = Frame {
            bytes: Vec::from_slice(alloc, &self.rest.as_slice()[..size])?,
        };
        self.rest.skip(size);
        Ok(Some(frame))
    }

    /// The bytes that wait for the peer.
    pub(crate) fn out(&self) -> &[u8]
        ensures { result.now ≡ self.now.out }
    {
        self.out.as_slice()
    }

    /// The first of the bytes were sent.
    pub(crate) fn sent(&mut self, count: usize)
        requires { count ≤ length self.old.out }
        ensures out { self.new.out ≡ drop count self.old.out }
        ensures rest { self.new.rest ≡ self.old.rest }
    {
        self.out.skip(count);
    }

    /// Writes a frame of these parts.
    pub(crate) fn put(
        &mut self,
        alloc: Global,
        head: Head,
        payload: &[u8],
    ) -> Result<(), AllocError>
        requires small { length payload.now ≤ 16384 }
        ensures rest { self.new.rest ≡ self.old.rest }
        ensures waits { length self.new.out ≤ length self.old.out + 9 + length payload.now }
        ensures longer { length self.old.out ≤ length self.new.out }
        ensures wrote { OnOk result ((frame : List ℕ) × IsFrame frame
            × (parts_of frame ≡ record { kind = head.kind; flags = head.flags; stream = head.stream; payload = payload.now })
            × (self.new.out ≡ self.old.out ++ frame)) }
        ensures fault { OnErr result (self.new ≡ self.old) }
    {
        let frame = written(alloc, head.kind, head.flags, head.stream, payload)?;
        self.out.push(&frame.bytes)?;
        Ok(())
    }
}

/// The head of a frame, without its length.
#[derive(Clone, Copy, Debug)]
pub(crate) struct Head {
    pub(crate) kind: u8,
    pub(crate) flags: u8,
    pub(crate) stream: u32,
    ghost small: { stream < 2147483648 },
}
