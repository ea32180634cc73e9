//! What a server of unary calls does with each frame, and the frames that it writes.

ghost use Rattle.std.specs.Prelude.{◌≡◌, ◌≤◌, ◌<◌, ◌+◌, ◌++◌, ◌∷◌, [], ℕ, true, false, None, Some, List, map, length, IfOk, OnOk, OnErr};
ghost use Rattle.hpack.specs.Field.{line_of};
ghost use Rattle.hpack.specs.Table.{Table};
ghost use Rattle.hpack.specs.Block.{Means};
ghost use Rattle.http2.specs.Frame.{IsFrame, parts_of, payload_of};
ghost use Rattle.http2.specs.Streams.{find};
ghost use Rattle.http2.specs.Call.{replies_to};
ghost use Rattle.http2.specs.Exchange.{beside};
ghost use Rattle.http2.specs.Exchanged.{number_of, resetting, changed, headed, charged, closed, room_on, Answers, Acts};
ghost use Rattle.http2.specs.Exchanges.{exchange_view};
ghost use Rattle.http2.specs.StreamViews.{call_view};
ghost use Rattle.http2.specs.declared.fault.Fault.TheVariants.{Memory};

use crate::exchange::Exchange;
use crate::fault::{Code, Fault};
use crate::frame::{DATA, Frame, HEADERS, MOST, PING, RESET, SETTINGS};
use crate::news::{News, Reset};
use crate::opening::are_short;
use crate::stream::Call;
use crate::wire::{Head, Wire};
use hpack::{Field, encode};
use std::alloc::{AllocError, Global};

/// Does what a frame says that was just taken off the unread bytes, and returns why the connection is over, if it is.
pub(crate) fn serve(
    alloc: Global,
    wire: &mut Wire,
    exchange: &mut Exchange,
    calls: &mut Vec<Call>,
    frame: &Frame,
) -> Option<Fault>
    requires alive { exchange.old.block.decoder.alive ≡ true }
    ensures alive { result ≡ None → exchange.new.block.decoder.alive ≡ true }
    ensures rest { wire.new.rest ≡ wire.old.rest }
    ensures waits { length wire.new.out ≤ length wire.old.out + 16393 }
    ensures few { length calls.new.items ≤ length calls.old.items + 1 }
    ensures acts { Acts frame.now.bytes.items (exchange_view exchange.old) (exchange_view exchange.new) wire.old.out wire.new.out
        (map call_view calls.old.items) (map call_view calls.new.items) result }
{
    match exchange.take(alloc, frame) {
        Ok(News::Quiet) => end_of(reply(alloc, wire, frame)),
        Ok(News::Resets(reset)) => end_of(refuse(alloc, wire, reset)),
        Ok(News::Asks(call)) => end_of(keep(calls, call)),
        Ok(News::Over(fault)) => Some(fault),
        Err(_) => Some(Fault::Memory),
    }
}

// Memory ran out, or nothing is over.
fn end_of(done: Result<(), AllocError>) -> Option<Fault>
    ensures went { OnOk done (result ≡ None) }
    ensures spent { OnErr done (result ≡ Some Memory) }
{
    match done {
        Ok(()) => None,
        Err(_) => Some(Fault::Memory),
    }
}

// Keeps a call that is whole.
fn keep(calls: &mut Vec<Call>, call: Call) -> Result<(), AllocError>
    ensures few { length calls.new.items ≤ length calls.old.items + 1 }
    ensures kept { OnOk result (map call_view calls.new.items ≡ map call_view calls.old.items ++ call_view call ∷ []) }
{
    calls.push(call)?;
    Ok(())
}

// Acknowledges settings and a ping.
fn reply(alloc: Global, wire: &mut Wire, frame: &Frame) -> Result<(), AllocError>
    ensures rest { wire.new.rest ≡ wire.old.rest }
    ensures waits { length wire.new.out ≤ length wire.old.out + 16393 }
    ensures replied { OnOk result (Answers (replies_to frame.now.bytes.items) wire.old.out wire.new.out) }
    ensures fault { OnErr result (wire.new ≡ wire.old) }
{
    if frame.is_acknowledgement() {
        return Ok(());
    }
    match frame.kind() {
        SETTINGS => wire.put(alloc, head(SETTINGS, 1, 0), &[]),
        PING => wire.put(alloc, head(PING, 1, 0), frame.payload()),
        _ => Ok(()),
    }
}

/// The head of a frame.
pub(crate) fn head(kind: u8, flags: u8, stream: u32) -> Head
    requires { stream < 2147483648 }
    ensures kind { result.kind ≡ kind }
    ensures flags { result.flags ≡ flags }
    ensures stream { result.stream ≡ stream }
{
    Head {
        kind,
        flags,
        stream,
    }
}

/// The number of an error code.
pub(crate) fn number_of(code: Code) -> u8
    ensures { result ≡ number_of code }
{
    match code {
        Code::NoError => 0,
        Code::Protocol => 1,
        Code::Internal => 2,
        Code::FlowControl => 3,
        Code::SettingsTimeout => 4,
        Code::StreamClosed => 5,
        Code::FrameSize => 6,
        Code::RefusedStream => 7,
        Code::Cancel => 8,
        Code::Compression => 9,
        Code::Connect => 10,
        Code::EnhanceYourCalm => 11,
    }
}

// Resets a stream.
fn refuse(alloc: Global, wire: &mut Wire, reset: Reset) -> Result<(), AllocError>
    ensures rest { wire.new.rest ≡ wire.old.rest }
    ensures waits { length wire.new.out ≤ length wire.old.out + 13 }
    ensures reset { OnOk result (Answers (resetting reset.stream reset.code ∷ []) wire.old.out wire.new.out) }
    ensures fault { OnErr result (wire.new ≡ wire.old) }
{
    wire.put(
        alloc,
        head(RESET, 0, reset.stream),
        &[0, 0, 0, number_of(reset.code)],
    )
}

/// A block that means these fields, if it is short enough for a frame.
pub(crate) fn block_of(alloc: Global, fields: &[Field]) -> Result<Vec<u8>, Fault>
    ensures short { IfOk result (λ block. length block.items ≤ 16384) }
    ensures means { IfOk result (λ block. (most : ℕ) (table : Table)
        → Means most false table block.items (map line_of fields.now) table) }
{
    if !are_short(fields) {
        return Err(Fault::Stream(Code::Internal));
    }
    let block = encode(alloc, fields)?;
    if block.len() > MOST {
        return Err(Fault::Stream(Code::Internal));
    }
    Ok(block)
}

/// Writes the fields that begin the answer of a call, as this block.
pub(crate) fn write_head(
    alloc: Global,
    wire: &mut Wire,
    exchange: &mut Exchange,
    stream: u32,
    block: &[u8],
) -> Result<(), AllocError>
    requires short { length block.now ≤ 16384 }
    requires stream { stream < 2147483648 }
    ensures rest { wire.new.rest ≡ wire.old.rest }
    ensures waits { length wire.new.out ≤ length wire.old.out + 16393 }
    ensures alive { exchange.new.block ≡ exchange.old.block }
    ensures wrote { OnOk result ((frame : List ℕ) × IsFrame frame
        × (parts_of frame ≡ record { kind = 1; flags = 4; stream = stream; payload = block.now })
        × (wire.new.out ≡ wire.old.out ++ frame)
        × (exchange_view exchange.new
        ≡ changed headed (beside (exchange_view exchange.old) stream) (find stream (exchange_view exchange.old).streams))) }
    ensures fault { OnErr result (wire.new ≡ wire.old) }
{
    exchange.head(stream)?;
    wire.put(alloc, head(HEADERS, 4, stream), block)
}

/// Writes content of an answer.
pub(crate) fn write_content(
    alloc: Global,
    wire: &mut Wire,
    exchange: &mut Exchange,
    stream: u32,
    octets: &[u8],
) -> Result<(), AllocError>
    requires some { 0 < length octets.now }
    requires short { length octets.now ≤ 16384 }
    requires within { length octets.now ≤ room_on (exchange_view exchange.old) (find stream (exchange_view exchange.old).streams) }
    requires stream { stream < 2147483648 }
    ensures rest { wire.new.rest ≡ wire.old.rest }
    ensures waits { length wire.new.out ≤ length wire.old.out + 16393 }
    ensures alive { exchange.new.block ≡ exchange.old.block }
    ensures wrote { OnOk result ((frame : List ℕ) × IsFrame frame
        × (parts_of frame ≡ record { kind = 0; flags = 0; stream = stream; payload = octets.now })
        × (wire.new.out ≡ wire.old.out ++ frame)
        × (exchange_view exchange.new
        ≡ record (changed (charged (length octets.now)) (beside (exchange_view exchange.old) stream)
        (find stream (exchange_view exchange.old).streams)) { used = exchange.old.used + length octets.now })) }
    ensures fault { OnErr result (wire.new ≡ wire.old) }
{
    exchange.charge(stream, octets.len())?;
    wire.put(alloc, head(DATA, 0, stream), octets)
}

/// Writes the fields that end the answer of a call, as this block.
pub(crate) fn write_end(
    alloc: Global,
    wire: &mut Wire,
    exchange: &mut Exchange,
    stream: u32,
    block: &[u8],
) -> Result<(), AllocError>
    requires short { length block.now ≤ 16384 }
    requires stream { stream < 2147483648 }
    ensures rest { wire.new.rest ≡ wire.old.rest }
    ensures waits { length wire.new.out ≤ length wire.old.out + 16393 }
    ensures alive { exchange.new.block ≡ exchange.old.block }
    ensures wrote { OnOk result ((frame : List ℕ) × IsFrame frame
        × (parts_of frame ≡ record { kind = 1; flags = 5; stream = stream; payload = block.now })
        × (wire.new.out ≡ wire.old.out ++ frame)
        × (exchange_view exchange.new ≡ closed (exchange_view exchange.old) stream)) }
    ensures fault { OnErr result (wire.new ≡ wire.old) }
{
    wire.put(alloc, head(HEADERS, 5, stream), block)?;
    exchange.close(stream);
    Ok(())
}
