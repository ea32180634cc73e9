//! How a call begins, and what is done with each frame.

ghost use Rattle.std.specs.Prelude.{◌≡◌, ◌≤◌, ◌+◌, ◌++◌, ◌∷◌, ℕ, None, true, [], List, map, length, OnErr, OnOk, IsTrue};
ghost use Rattle.std.specs.List.{All};
ghost use Rattle.hpack.specs.Field.{line_of, IsShort};
ghost use Rattle.http2.specs.Trail.{Step, put, Adds};
ghost use Rattle.http2.specs.Lines.{line, unread};
ghost use Rattle.http2.specs.Call.{replies_to, AreReplies};
ghost use Rattle.http2.specs.Tunnels.{Answers, Asks};

use crate::control::Control;
use crate::end::End;
use crate::fault::{Code, Fault};
use crate::frame::{Frame, HEADERS, MOST, PING, SETTINGS};
use crate::pipe::Pipe;
use hpack::{Field, encode};
use std::alloc::{AllocError, Global};

/// Does what a frame says that was just taken off the unread bytes, and returns why the call is over, if it is.
pub(crate) fn act(
    alloc: Global,
    pipe: &mut Pipe,
    control: &mut Control,
    frame: &Frame,
) -> Option<End>
    requires alive { control.old.decoder.alive ≡ true }
    ensures alive { result ≡ None → control.new.decoder.alive ≡ true }
    ensures number { pipe.new.number ≡ pipe.old.number }
    ensures rest { pipe.new.rest ≡ pipe.old.rest }
    ensures waits { length pipe.new.out ≤ length pipe.old.out + 16393 }
    ensures answers { Answers frame.now.bytes.items pipe.old control.old pipe.new control.new result }
{
    match control.after(alloc, frame) {
        Ok(None) => match reply(alloc, pipe, frame) {
            Ok(()) => None,
            Err(_) => Some(End::Broken(Fault::Memory)),
        },
        Ok(Some(end)) => Some(end),
        Err(_) => Some(End::Broken(Fault::Memory)),
    }
}

/// Acknowledges settings and a ping.
pub(crate) fn reply(alloc: Global, pipe: &mut Pipe, frame: &Frame) -> Result<(), AllocError>
    ensures waits { length pipe.new.out ≤ length pipe.old.out + 16393 }
    ensures number { pipe.new.number ≡ pipe.old.number }
    ensures rest { pipe.new.rest ≡ pipe.old.rest }
    ensures unread { unread pipe.new ≡ unread pipe.old }
    ensures replied { OnOk result ((steps : List Step) × Adds steps (line pipe.old) (line pipe.new)
        × AreReplies steps (replies_to frame.now.bytes.items)) }
    ensures fault { OnErr result (pipe.new ≡ pipe.old) }
{
    if frame.is_acknowledgement() {
        return Ok(());
    }
    match frame.kind() {
        SETTINGS => pipe.control(alloc, SETTINGS, 1, 0, &[]),
        PING => pipe.control(alloc, PING, 1, 0, frame.payload()),
        _ => Ok(()),
    }
}

/// Writes the call's fields. They are refused if they are too long for a frame.
pub(crate) fn ask(alloc: Global, pipe: &mut Pipe, fields: &[Field]) -> Result<(), Fault>
    ensures number { pipe.new.number ≡ pipe.old.number }
    ensures waits { length pipe.new.out ≤ length pipe.old.out + 16393 }
    ensures law { OnOk result ((frame : List ℕ) × Asks frame (map line_of fields.now)
        × (pipe.new.out ≡ pipe.old.out ++ frame) × Adds (put frame ∷ []) (line pipe.old) (line pipe.new)) }
{
    if !are_short(fields) {
        return Err(Fault::Stream(Code::Internal));
    }
    let block = encode(alloc, fields)?;
    if block.len() > MOST {
        return Err(Fault::Stream(Code::Internal));
    }
    pipe.control(alloc, HEADERS, 4, 1, &block)?;
    Ok(())
}

/// Whether the encoder can write the fields.
pub(crate) fn are_short(fields: &[Field]) -> bool
    ensures { IsTrue result → All (λ f. IsShort (line_of f)) fields.now }
{
    for field in fields {
        if !field.is_short() {
            return false;
        }
    }
    true
}
