//! Feeds the client of an update stream, and sends its replies.

ghost use Rattle.std.specs.Prelude.{◌≡◌, ℕ, Ok, None, Some, List, Option, IsOk, OnErr};
ghost use Rattle.std.specs.Io.KnownBytes.{Appends};
ghost use Rattle.std.specs.declared.io.Error.{Error};
ghost use Rattle.ads.specs.Client.{ClientValue, stream_down};
ghost use Rattle.ads.specs.Ends.{client_view};
ghost use Rattle.ads.specs.declared.ended.Ended.{Ended};
ghost use Rattle.callers.specs.Updates.{IsFed};

use ads::{Client, Ended};
use std::alloc::AllocError;
use std::io;
use std::io::Write;

/// What follows from bytes of the control plane.
#[derive(Clone, Copy, Debug)]
pub enum Taken {
    /// The stream goes on. All replies are written.
    GoesOn,
    /// The stream ended, for this reason: close it. The replies to the responses before the end are written.
    Ended(Ended),
    /// The replies could not be written, because of this error: close the stream. Some of them may be written. The client
    /// has received the loss of its stream, and keeps what it accepted.
    NotWritten(io::Error),
}

/// Feeds the client bytes of the control plane, and writes its replies: an ACK or a NACK for each response. The only
/// error is out of memory; after it all is as before the call. Without a stream there is no error.
pub fn take_updates<W: Write>(
    client: &mut Client,
    bytes: &[u8],
    out: &mut W,
) -> Result<Taken, AllocError>
    ensures goes_on { result ≡ Ok Taken.GoesOn → (replies : List ℕ)
        × IsFed (client_view client.old) bytes.now replies None (client_view client.new)
        × Appends (W.contents out.old) (W.contents out.new) replies }
    ensures ended { (reason : Ended) → result ≡ Ok (Taken.Ended reason) → (replies : List ℕ)
        × IsFed (client_view client.old) bytes.now replies (Some reason) (client_view client.new)
        × Appends (W.contents out.old) (W.contents out.new) replies }
    ensures not_written { (error : Error) → result ≡ Ok (Taken.NotWritten error) → (replies : List ℕ)
        × (ended : Option Ended) × (fed : ClientValue)
        × IsFed (client_view client.old) bytes.now replies ended fed × (client_view client.new ≡ stream_down fed) }
    ensures down { (client_view client.old).stream ≡ None → IsOk result }
    ensures fault { OnErr result ((client_view client.new ≡ client_view client.old) × (out.new ≡ out.old)) }
{
    let fed = client.feed(bytes)?;
    if let Err(error) = out.write_all(&fed.replies) {
        client.lost();
        return Ok(Taken::NotWritten(error));
    }
    match fed.ended {
        None => Ok(Taken::GoesOn),
        Some(reason) => Ok(Taken::Ended(reason)),
    }
}
