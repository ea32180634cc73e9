//! Reads the messages of a stream of bytes, which arrives in pieces.

ghost use Rattle.std.specs.Prelude.{◌≡◌, ◌⊎◌, ◌++◌, ℕ, [], List, IfErr, IfOk, OnOk, take};
ghost use Rattle.std.specs.List.{flat_map};
ghost use Rattle.xds_wire.specs.Frames.{Cut, broken, error_of, unfinished};
ghost use Rattle.xds_wire.specs.declared.fault.FrameFault.{FrameFault};

use std::alloc::Global;
use xds_wire::{FrameError, Frames, Message};

/// The messages of the pieces' frames, in order, each of at most `most` bytes. Bytes after the last whole frame are left
/// out. The pieces are those that arrived: where they are cut does not matter. A frame that is compressed or too long is
/// an error; so is out of memory.
pub fn messages_in(alloc: Global, pieces: &[&[u8]], most: usize) -> Result<Vec<Message>, FrameError>
    ensures found { IfOk result (λ messages. (rest : List ℕ)
        × Cut (flat_map (λ p. p.now) pieces.now) most messages.items (unfinished rest)) }
    ensures fault { IfErr result (λ e. (e ≡ FrameError.Memory) ⊎ ((n : ℕ) × (messages : List (List ℕ))
        × (fault : FrameFault) × (e ≡ error_of fault)
        × Cut (flat_map (λ p. p.now) (take n pieces.now)) most messages (broken fault))) }
{
    let mut frames = Frames::new(alloc, most);
    let mut messages = Vec::new(alloc);
    for piece in pieces {
        frames.feed(piece)?;
        take_messages(&mut frames, &mut messages)?;
    }
    Ok(messages)
}

// Takes all whole messages. The only error is out of memory.
fn take_messages(frames: &mut Frames, messages: &mut Vec<Message>) -> Result<(), FrameError>
    ensures taken { OnOk result ((frames.new.messages ≡ [])
        × (messages.new.items ≡ messages.old.items ++ frames.old.messages)) }
    ensures same { (frames.new.max ≡ frames.old.max) × (frames.new.tail ≡ frames.old.tail) }
    ensures fault { IfErr result (λ e. e ≡ FrameError.Memory) }
{
    while let Some(message) = frames.next() {
        if messages.push(message).is_err() {
            return Err(FrameError::Memory);
        }
    }
    Ok(())
}
