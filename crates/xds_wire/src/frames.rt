//! A stream of frames.

ghost use Rattle.std.specs.Prelude.{◌≡◌, ◌⊎◌, ◌++◌, ◌+◌, ◌<◌, ◌≤◌, ◌^◌, ℕ, Err, List, length, IfOk, IfErr, OnOk, OnErr, MatchBool};
ghost use Rattle.xds_wire.specs.Frames.{frame_of};
ghost use Rattle.xds_wire.specs.Stream.{start, Feeds, Takes, IsUnfinished, IsBrokenBy, StaysPartial, CompletesOne};
ghost use Rattle.xds_wire.specs.private.Pieces.{tail_view, IsState};

use crate::fault::FrameError;
use crate::head::{HEAD, Head};
use crate::message::Message;
use crate::state::{State, copy_state, lacks, resume, stays_partial};
use std::alloc::{AllocError, Global};
use std::collections::VecDeque;
use std::marker::Model;

/// Cuts a stream of frames into messages (gRPC over HTTP2, "Length-Prefixed-Message"). Its bytes may arrive in any
/// pieces. The memory in use grows with the bytes that arrived, not with the length that a head names. An incomplete
/// message takes less than eight times the bytes of it that arrived.
#[derive(Debug, Drop)]
pub struct Frames {
    max: usize,
    messages: VecDeque<Message>,
    state: State,
}

impl Model for Frames {
    ghost use Rattle.xds_wire.specs.Stream.{Kept};

    ghost Value = { Kept };

    ghost use Rattle.xds_wire.specs.private.Pieces.{tail_view, IsState};

    ghost view = { λ f. record {
      max = f.max;
      messages = f.messages.items;
      tail = tail_view f.state;
    } };

    ghost invariant = { λ f. IsState f.max f.state };
}

impl Frames {
    /// A stream without bytes yet, whose messages have at most `max` bytes. It takes no memory.
    pub fn new(alloc: Global, max: usize) -> Frames
        ensures { result ≡ start max }
    {
        Frames {
            max,
            messages: VecDeque::new(alloc),
            state: State::Head(Head::empty()),
        }
    }

    /// Takes further bytes of the stream; their messages follow the earlier ones. `Compressed` is known at a frame's
    /// first byte and `TooLong` at its fifth. The messages before such a frame stay. Every later call gives the same
    /// error, and takes no memory. After `Memory` all is as before the call.
    pub fn feed(&mut self, bytes: &[u8]) -> Result<(), FrameError>
        ensures found { OnOk result
            (Feeds self.old bytes.now self.new × IsUnfinished self.new.tail) }
        ensures fault { IfErr result (λ e. ((e ≡ FrameError.Memory) × (self.new ≡ self.old))
            ⊎ (Feeds self.old bytes.now self.new × IsBrokenBy self.new.tail e)) }
        ensures broken { (e : FrameError) → IsBrokenBy self.old.tail e → (result ≡ Err e) × (self.new ≡ self.old) }
    {
        let before = self.messages.len();
        if resume(&mut self.messages, &mut self.state, bytes, self.max).is_err() {
            self.messages.truncate(before);
            return Err(FrameError::Memory);
        }
        match &self.state {
            State::Broken(fault) => Err(FrameError::from(*fault)),
            _ => Ok(()),
        }
    }

    /// Whether these bytes complete no frame and break none: then `feed` gets no message from them. It takes no memory.
    pub fn stays_partial(&self, bytes: &[u8]) -> bool
        ensures { MatchBool result (StaysPartial self.now.max self.now.tail bytes.now)
            (StaysPartial self.now.max self.now.tail bytes.now → ⊥) }
    {
        stays_partial(&self.state, bytes, self.max)
    }

    /// How many bytes the head or the message that is incomplete lacks, at least 1. As many bytes complete at most one
    /// message. It takes no memory.
    pub fn lacks(&self) -> usize
        ensures some { 0 < result }
        ensures one { (bytes : List ℕ) → length bytes ≤ result
            → CompletesOne self.now.max self.now.tail bytes }
    {
        lacks(&self.state)
    }

    /// The next complete message, in order, if there is one. It takes no memory.
    pub fn next(&mut self) -> Option<Message>
        ensures { Takes self.old result self.new }
    {
        self.messages.pop_front()
    }

    /// A second stream with the same state.
    pub fn copy(&self) -> Result<Frames, AllocError>
        ensures { IfOk result (λ copy. copy ≡ self.now) }
    {
        let messages = copy_messages(&self.messages)?;
        let state = copy_state(&self.state)?;
        Ok(Frames {
            max: self.max,
            messages,
            state,
        })
    }
}

/// Appends a frame of the message, which has fewer than 2^32 bytes.
pub fn write_frame(message: &[u8], out: &mut Vec<u8>) -> Result<(), AllocError>
    requires { length message.now < 2 ^ 32 }
    ensures found { OnOk result (out.new.items ≡ out.old.items ++ frame_of message.now) }
    ensures fault { OnErr result (out.new.items ≡ out.old.items) }
{
    let [a, b, c, d] = (message.len() as u32).to_be_bytes();
    out.reserve(HEAD + message.len())?;
    out.extend_from_slice(&[0, a, b, c, d])?;
    out.extend_from_slice(message)?;
    Ok(())
}

// A copy of the messages.
fn copy_messages(messages: &VecDeque<Message>) -> Result<VecDeque<Message>, AllocError>
    ensures { IfOk result (λ copies. copies.items ≡ messages.now.items) }
{
    let mut copies = VecDeque::new(*messages.allocator());
    for message in messages.iter() {
        copies.push_back(message.copy()?)?;
    }
    Ok(copies)
}
