//! Takes the requests from the bytes of a connection.

ghost use Rattle.std.specs.Prelude.{◌≡◌, IfOk};
ghost use Rattle.http_front.specs.Front.{HasNoAsk, keeping};
ghost use Rattle.http_front.specs.Heads.{TakesAll, fed};

use http_front::{Ask, Front};
use std::alloc::{AllocError, Global};

/// Feeds the front bytes of its connection, and returns the asks that they complete, in order. These are requests to
/// judge, or a fault to answer, after which the connection closes. After an error, which is out of memory, close the
/// connection: asks may be lost.
pub fn take_asks(alloc: Global, front: &mut Front, bytes: &[u8]) -> Result<Vec<Ask>, AllocError>
    ensures taken { IfOk result (λ asks. TakesAll front.old.limits front.old.facts (fed front.old.kept bytes.now)
        asks.items front.new.kept) }
    ensures all { IfOk result (λ asks. HasNoAsk front.new × (front.new ≡ keeping front.old front.new.kept)) }
{
    front.feed(bytes)?;
    let mut asks = Vec::new(alloc);
    while let Some(ask) = front.next()? {
        asks.push(ask)?;
    }
    Ok(asks)
}
