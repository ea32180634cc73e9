//! The state of a stream after its whole frames, and how further bytes change it.

ghost use Rattle.std.specs.Prelude.{◌≡◌, ◌++◌, ◌+◌, ◌*◌, ◌<◌, ◌≤◌, ℕ, List, length, vec_len, IfOk, IsOk, OnOk, OnErr, MatchBool};
ghost use Rattle.xds_wire.specs.Frames.{broken, head_of, IsLength, Cut};
ghost use Rattle.xds_wire.specs.Stream.{CompletesOne, Resumes, StaysPartial};
ghost use Rattle.xds_wire.specs.private.Pieces.{head_view, tail_view, IsState};

use crate::cut::{Piece, cut_frame};
use crate::fault::FrameFault;
use crate::head::{HEAD, Head};
use crate::message::Message;
use std::alloc::{AllocError, Global};
use std::collections::VecDeque;
use std::mem;

/// The bytes that are kept after whole frames.
#[derive(Debug, Drop)]
pub(crate) enum State {
    /// Less than a head.
    Head(Head),
    /// A head, and less than its message.
    Data(Data),
    /// The bytes begin with no frame.
    Broken(FrameFault),
}

/// The length that a head names, and the first bytes of its message.
#[derive(Debug, Drop)]
pub(crate) struct Data {
    /// The message's length, at least 1.
    pub(crate) length: usize,
    /// The message's first bytes, fewer than its length.
    pub(crate) bytes: Vec<u8>,
}

impl Data {
    // A head that names this length, and a part of its message.
    fn begin(alloc: Global, length: usize, part: &[u8]) -> Result<Data, AllocError>
        ensures length { IfOk result (λ kept. kept.length ≡ length) }
        ensures bytes { IfOk result (λ kept. kept.bytes.items ≡ part.now) }
    {
        let mut bytes = Vec::with_capacity(alloc, room(length, part.len()))?;
        bytes.extend_from_slice(part)?;
        Ok(Data { length, bytes })
    }

    // Appends bytes, at most as many as the message lacks.
    fn append(&mut self, bytes: &[u8]) -> Result<(), AllocError>
        requires { vec_len self.old.bytes + length bytes.now ≤ self.old.length }
        ensures length { self.new.length ≡ self.old.length }
        ensures found { OnOk result (self.new.bytes.items ≡ self.old.bytes.items ++ bytes.now) }
        ensures fault { OnErr result (self.new.bytes.items ≡ self.old.bytes.items) }
    {
        let count = self.bytes.len();
        if room(self.length, count + bytes.len()) == self.length {
            self.bytes.reserve_exact(self.length - count)?;
        }
        self.bytes.extend_from_slice(bytes)
    }

    // A copy of the data.
    fn copy(&self) -> Result<Data, AllocError>
        ensures length { IfOk result (λ copy. copy.length ≡ self.now.length) }
        ensures bytes { IfOk result (λ copy. copy.bytes.items ≡ self.now.bytes.items) }
    {
        Data::begin(*self.bytes.allocator(), self.length, &self.bytes)
    }
}

// The memory for an incomplete message is less than this many times the bytes that arrived.
const MOST_TIMES: usize = 8;

// The capacity for a message of this length of which so many bytes have arrived. It is the whole length once more than
// an eighth has arrived, so that these bytes are not copied again. Before, it is the number of bytes that have
// arrived.
fn room(length: usize, count: usize) -> usize
    ensures whole { length < 8 * count → result ≡ length }
    ensures part { 8 * count ≤ length → result ≡ count }
{
    if length / MOST_TIMES < count {
        return length;
    }
    count
}

/// A copy of the state.
pub(crate) fn copy_state(state: &State) -> Result<State, AllocError>
    ensures same { IfOk result (λ copy. tail_view copy ≡ tail_view state.now) }
    ensures sound { (max : ℕ) → IsState max state.now → IfOk result (λ copy. IsState max copy) }
{
    match state {
        State::Head(head) => Ok(State::Head(*head)),
        State::Data(kept) => Ok(State::Data(kept.copy()?)),
        State::Broken(fault) => Ok(State::Broken(*fault)),
    }
}

/// Whether these bytes, after those that are kept, complete no frame and break none. It takes no memory.
pub(crate) fn stays_partial(state: &State, bytes: &[u8], max: usize) -> bool
    requires { IsState max state.now }
    ensures { MatchBool result (StaysPartial max (tail_view state.now) bytes.now)
        (StaysPartial max (tail_view state.now) bytes.now → ⊥) }
{
    match state {
        State::Broken(_) => false,
        State::Head(head) => match cut_frame(*head, bytes, max) {
            Piece::Head(_) => true,
            Piece::Part(_, _) => true,
            Piece::Whole(_, _) => false,
            Piece::Broken(_) => false,
        },
        State::Data(kept) => bytes.len() < kept.length - kept.bytes.len(),
    }
}

/// How many bytes the head or the message that is incomplete lacks, at least 1. As many bytes complete at most one
/// message. It takes no memory.
pub(crate) fn lacks(state: &State) -> usize
    requires { (max : ℕ) × IsState max state.now }
    ensures some { 0 < result }
    ensures one { (max : ℕ) (bytes : List ℕ) → IsState max state.now → length bytes ≤ result
        → CompletesOne max (tail_view state.now) bytes }
{
    match state {
        State::Broken(_) => 1,
        State::Head(head) => HEAD - head.count,
        State::Data(kept) => kept.length - kept.bytes.len(),
    }
}

/// Cuts the bytes, after those that are kept. Adds their messages to the queue, and puts the rest into the state. If
/// memory runs out, the state stays, and the queue begins with its earlier messages. A broken stream takes no memory.
pub(crate) fn resume(
    messages: &mut VecDeque<Message>,
    state: &mut State,
    bytes: &[u8],
    max: usize,
) -> Result<(), AllocError>
    requires { IsState max state.old }
    ensures found { OnOk result ((more : List (List ℕ))
        × Resumes max (tail_view state.old) bytes.now more (tail_view state.new)
        × (messages.new.items ≡ messages.old.items ++ more) × IsState max state.new) }
    ensures fault { OnErr result ((more : List (List ℕ))
        × (messages.new.items ≡ messages.old.items ++ more)
        × (tail_view state.new ≡ tail_view state.old) × IsState max state.new) }
    ensures broken { (fault : FrameFault) → tail_view state.old ≡ broken fault → IsOk result }
{
    match state {
        State::Broken(_) => {}
        State::Head(head) => {
            let next = cut_frames(messages, *head, bytes, max)?;
            *state = next;
        }
        State::Data(kept) if bytes.len() < kept.length - kept.bytes.len() => {
            kept.append(bytes)?;
        }
        State::Data(kept) => {
            let next = finish(messages, kept, bytes, max)?;
            *state = next;
        }
    }
    Ok(())
}

// Completes the kept message with the first of the bytes, and cuts the others as frames. If memory runs out, the kept
// message stays as it was.
fn finish(
    messages: &mut VecDeque<Message>,
    kept: &mut Data,
    bytes: &[u8],
    max: usize,
) -> Result<State, AllocError>
    requires kept { vec_len kept.old.bytes < kept.old.length }
    requires allowed { IsLength max kept.old.length }
    requires enough { kept.old.length ≤ vec_len kept.old.bytes + length bytes.now }
    ensures found { IfOk result (λ state. (more : List (List ℕ))
        × Cut (head_of kept.old.length ++ kept.old.bytes.items ++ bytes.now) max more
        (tail_view state)
        × (messages.new.items ≡ messages.old.items ++ more) × IsState max state) }
    ensures fault { OnErr result ((more : List (List ℕ))
        × (messages.new.items ≡ messages.old.items ++ more)
        × (kept.new.length ≡ kept.old.length) × (kept.new.bytes.items ≡ kept.old.bytes.items)) }
{
    let alloc = *messages.allocator();
    let (own, behind) = bytes.split_at(kept.length - kept.bytes.len());
    let place = messages.len();
    messages.push_back(Message::new(Vec::new(alloc)))?;
    let state = cut_frames(messages, Head::empty(), behind, max)?;
    kept.append(own)?;
    let whole = mem::replace(&mut kept.bytes, Vec::new(alloc));
    messages[place] = Message::new(whole);
    Ok(state)
}

// Adds the messages of the frames to the queue, and gives the state after them. The first frame begins with the head's
// bytes.
fn cut_frames(
    messages: &mut VecDeque<Message>,
    head: Head,
    bytes: &[u8],
    max: usize,
) -> Result<State, AllocError>
    requires { head.count < HEAD }
    ensures found { IfOk result (λ state. (more : List (List ℕ))
        × Cut (head_view head ++ bytes.now) max more (tail_view state)
        × (messages.new.items ≡ messages.old.items ++ more) × IsState max state) }
    ensures fault { OnErr result ((more : List (List ℕ))
        × (messages.new.items ≡ messages.old.items ++ more)) }
{
    let alloc = *messages.allocator();
    let mut head = head;
    let mut rest = bytes;
    loop {
        match cut_frame(head, rest, max) {
            Piece::Head(head) => return Ok(State::Head(head)),
            Piece::Broken(fault) => return Ok(State::Broken(fault)),
            Piece::Part(length, part) => {
                let kept = Data::begin(alloc, length, part)?;
                return Ok(State::Data(kept));
            }
            Piece::Whole(message, behind) => {
                messages.push_back(Message::new(Vec::from_slice(alloc, message)?))?;
                head = Head::empty();
                rest = behind;
            }
        }
    }
}
