//! What a server of one call does with each frame, and its answer's fields.

ghost use Rattle.std.specs.Prelude.{◌≡◌, ◌≤◌, ◌<◌, ◌+◌, ◌++◌, ◌∷◌, ℕ, None, true, [], List, map, length, OnErr, OnOk};
ghost use Rattle.std.specs.Option.{ForSome};
ghost use Rattle.hpack.specs.Field.{line_of};
ghost use Rattle.http2.specs.Frame.{IsStream, unopened};
ghost use Rattle.http2.specs.Trail.{Step, put, AreQuiet, Law, Adds};
ghost use Rattle.http2.specs.Lines.{line, unread};
ghost use Rattle.http2.specs.Served.{answers_to, AreAnswers};
ghost use Rattle.http2.specs.Servers.{opened_as, Acts, Heads};

use crate::fault::{Code, Fault};
use crate::first_words::UNOPENED;
use crate::frame::{Frame, HEADERS, MOST, RESET};
use crate::opening::{are_short, reply};
use crate::over::Over;
use crate::pipe::Pipe;
use crate::serving::Serving;
use hpack::{Field, encode};
use std::alloc::{AllocError, Global};

/// Does what a frame says that was just taken off the unread bytes, and returns why the call is over, if it is.
pub(crate) fn serve(
    alloc: Global,
    pipe: &mut Pipe,
    serving: &mut Serving,
    frame: &Frame,
) -> Option<Over>
    requires alive { serving.old.block.decoder.alive ≡ true }
    ensures alive { result ≡ None → serving.new.block.decoder.alive ≡ true }
    ensures open { IsStream pipe.old.number → IsStream pipe.new.number }
    ensures rest { pipe.new.rest ≡ pipe.old.rest }
    ensures waits { length pipe.new.out ≤ length pipe.old.out + 16393 }
    ensures acts { Acts frame.now.bytes.items pipe.old serving.old pipe.new serving.new result }
{
    match serving.take(alloc, frame) {
        Ok(None) => match answer(alloc, pipe, frame, serving.refused()) {
            Ok(()) => {
                open(pipe, serving.number());
                None
            }
            Err(_) => Some(Over::Broken(Fault::Memory)),
        },
        Ok(Some(over)) => Some(over),
        Err(_) => Some(Over::Broken(Fault::Memory)),
    }
}

// Opens the call's stream, if it was not open and this is one.
fn open(pipe: &mut Pipe, number: u32)
    ensures number { pipe.new.number ≡ opened_as pipe.old.number number }
    ensures rest { pipe.new.rest ≡ pipe.old.rest }
    ensures out { pipe.new.out ≡ pipe.old.out }
    ensures law { (trail : List Step) (came sent took gave : List ℕ) → (pipe.old.number ≡ unopened → AreQuiet trail)
        → Law trail came sent took gave (line pipe.old) → Law trail came sent took gave (line pipe.new) }
{
    if pipe.number() != UNOPENED {
        return;
    }
    if number == 0 {
        return;
    }
    if number >= UNOPENED {
        return;
    }
    pipe.open(number);
}

// Acknowledges settings and a ping, and refuses a stream that was opened beside the call's.
fn answer(
    alloc: Global,
    pipe: &mut Pipe,
    frame: &Frame,
    refused: Option<u32>,
) -> Result<(), AllocError>
    requires { ForSome refused (λ n. n < 2147483648) }
    ensures number { pipe.new.number ≡ pipe.old.number }
    ensures waits { length pipe.new.out ≤ length pipe.old.out + 16393 }
    ensures rest { pipe.new.rest ≡ pipe.old.rest }
    ensures unread { unread pipe.new ≡ unread pipe.old }
    ensures answered { OnOk result ((steps : List Step) × Adds steps (line pipe.old) (line pipe.new)
        × AreAnswers steps (answers_to frame.now.bytes.items refused)) }
    ensures fault { OnErr result (pipe.new ≡ pipe.old) }
{
    match refused {
        Some(stream) => pipe.control(alloc, RESET, 0, stream, &[0, 0, 0, 7]),
        None => reply(alloc, pipe, frame),
    }
}

/// Writes fields of the call, with these flags. They are refused if they are too long for a frame.
pub(crate) fn head(alloc: Global, pipe: &mut Pipe, flags: u8, fields: &[Field]) -> Result<(), Fault>
    requires open { IsStream pipe.old.number }
    ensures number { pipe.new.number ≡ pipe.old.number }
    ensures waits { length pipe.new.out ≤ length pipe.old.out + 16393 }
    ensures unread { unread pipe.new ≡ unread pipe.old }
    ensures law { OnOk result ((frame : List ℕ) × Heads pipe.old.number flags (map line_of fields.now) frame
        × (pipe.new.out ≡ pipe.old.out ++ frame) × Adds (put frame ∷ []) (line pipe.old) (line pipe.new)) }
    ensures fault { OnErr result (pipe.new ≡ pipe.old) }
{
    if !are_short(fields) {
        return Err(Fault::Stream(Code::Internal));
    }
    let block = encode(alloc, fields)?;
    if block.len() > MOST {
        return Err(Fault::Stream(Code::Internal));
    }
    let number = pipe.number();
    pipe.control(alloc, HEADERS, flags, number, &block)?;
    Ok(())
}
