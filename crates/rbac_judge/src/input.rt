//! Reads the head that an input begins with, and no more.
ghost use Rattle.std.specs.Prelude.{◌≡◌, List, [], ℕ, IfOk, OnOk};
ghost use Rattle.std.specs.Io.KnownBytes.{Consumes};
ghost use Rattle.attributes.specs.Conn.{conn_view};
ghost use Rattle.http_front.specs.Heads.{reading};
ghost use Rattle.rbac_judge.specs.Judging.{IsAllOf};
ghost use Rattle.rbac_judge.specs.private.Reading.{Feeds, IsFound, IsJustEnough, head_ask};

use attributes::{Conn, Limits};
use http_front::{Ask, Front, HeadAsk};
use program_texts::read_some;
use std::alloc::Global;
use std::io::{self, ErrorKind, Read};

// The greatest number of bytes of one read.
const CHUNK: usize = 4_096;

/// The ask of the head that the input begins with, on this connection; None if the input ends before its head does. It
/// returns after the first read whose bytes decide that. So it does not wait for an input that stays open after its
/// head.
pub(crate) fn read_ask<R: Read>(
    alloc: Global,
    limits: &Limits,
    conn: Conn,
    input: &mut R,
) -> io::Result<Option<HeadAsk>>
    ensures found { IfOk result (λ found. (bytes : List ℕ) × IsAllOf (R.remaining input.old) bytes
        × IsFound limits.now (conn_view conn) bytes found) }
    ensures no_more { OnOk result ((read : List ℕ)
        × Consumes (R.remaining input.old) (R.remaining input.new) read × IsJustEnough read) }
{
    let mut front = Front::new(alloc, *limits, conn);
    first_ask(&mut front, input)
}

// The ask of the head that the input begins with, read by a new front, as in `read_ask`.
fn first_ask<R: Read>(front: &mut Front, input: &mut R) -> io::Result<Option<HeadAsk>>
    requires { front.old.kept ≡ reading 0 [] }
    ensures found { IfOk result (λ found. (bytes : List ℕ) × IsAllOf (R.remaining input.old) bytes
        × IsFound front.old.limits front.old.facts bytes found) }
    ensures no_more { OnOk result ((read : List ℕ)
        × Consumes (R.remaining input.old) (R.remaining input.new) read × IsJustEnough read) }
{
    for _ in 0..u64::MAX {
        match front.next()? {
            Some(ask) => return Ok(Some(head_ask(ask))),
            None => {
                if read_chunk(input, front)? == 0 {
                    return Ok(None);
                }
            }
        }
    }
    Err(io::Error::from(ErrorKind::TimedOut))
}

// The ask, without whether its connection closes.
fn head_ask(ask: Ask) -> HeadAsk
    ensures { result ≡ head_ask ask }
{
    match ask {
        Ask::Judge(request, _) => HeadAsk::Judge(request),
        Ask::Fault(fault) => HeadAsk::Fault(fault),
    }
}

// Feeds the front the bytes of one read, and returns their number: 0 at the end of the input.
fn read_chunk<R: Read>(input: &mut R, front: &mut Front) -> io::Result<usize>
    ensures { IfOk result (Feeds front.old front.new (R.remaining input.old)
        (R.remaining input.new)) }
{
    let mut room = [0u8; CHUNK];
    let count = read_some(input, &mut room)?;
    front.feed(&room[..count])?;
    Ok(count)
}
