//! The pumps move bytes between the core of a proxy, or a control plane, and its streams.
ghost use Rattle.std.specs.Prelude.{◌≡◌, ◌≤◌, false, length, take};
ghost use Rattle.std.specs.Io.KnownBytes.{Consumes};
ghost use Rattle.attributes.specs.Conn.{conn_view};
ghost use Rattle.proxy_core.specs.Events.{ads_bytes, ads_up, event_view};
ghost use Rattle.proxy_core.specs.Proxies.{proxy_view};
ghost use Rattle.ads.specs.Ends.{control_view};
ghost use Rattle.stream_pumps.specs.ControlPump.{ReceivesRequests, ServesStream};
ghost use Rattle.stream_pumps.specs.Pumps.{EndsUpdates, ReceivesConnection, Opens, Receives, Serves, TakesResponse};
ghost use Rattle.stream_pumps.specs.private.Pumping.{Answers, Feeds, IsResultOf, Updates};

use crate::log::Log;
use crate::log_lines::EndedBy;
use ads::Control;
use attributes::Conn;
use program_texts::{read_some, write_whole};
use proxy_core::{Event, Proxy};
use std::alloc::AllocError;
use std::io::{Read, Write};

// The greatest number of bytes of one read.
const CHUNK: usize = 16_384;

/// Serves a connection with these facts to its end. It passes the core the opening, the bytes as they arrive, and the
/// closing, and writes the core's answers. The connection ends if the core closes it, a read gives no bytes or fails, a
/// write fails, or memory runs out.
pub fn serve_connection<R: Read, W: Write, L: Write + Drop>(
    proxy: &mut Proxy,
    conn: &Conn,
    reader: &mut R,
    writer: &mut W,
    log: &mut Log<L>,
)
    ensures { Serves (proxy_view proxy.old) (proxy_view proxy.new) (R.remaining reader.old)
        (R.remaining reader.new) (W.contents writer.old) (W.contents writer.new) (conn_view conn.now) }
{
    let end = receive_connection(proxy, conn, reader, writer);
    let _ = proxy.step(Event::HttpClosed(0));
    log.log_connection(end);
}

// Passes the core the opening of a connection and its bytes, and writes the answers. Returns who ended the connection.
fn receive_connection<R: Read, W: Write>(
    proxy: &mut Proxy,
    conn: &Conn,
    reader: &mut R,
    writer: &mut W,
) -> EndedBy
    ensures { ReceivesConnection (proxy_view proxy.old) (proxy_view proxy.new) (R.remaining reader.old)
        (R.remaining reader.new) (W.contents writer.old) (W.contents writer.new) (conn_view conn.now) }
{
    match answer(proxy, Event::HttpOpen(0, conn), writer) {
        EventResult::Ended => return EndedBy::Proxy,
        _ => {}
    }
    let mut room = [0u8; CHUNK];
    for _ in 0..u64::MAX {
        let count = count_of(reader, &mut room);
        if count == 0 {
            return EndedBy::Client;
        }
        match answer(proxy, Event::HttpBytes(0, &room[..count]), writer) {
            EventResult::Ended => return EndedBy::Proxy,
            _ => {}
        }
    }
    EndedBy::Proxy
}

// Passes the core an event of a connection, and writes the answer.
fn answer<W: Write>(proxy: &mut Proxy, event: Event<'_>, writer: &mut W) -> EventResult
    ensures { Answers (proxy_view proxy.old) (proxy_view proxy.new) (W.contents writer.old) (W.contents writer.new)
        (event_view event.entry) result }
{
    match proxy.step(event) {
        Ok(output) => match write_whole(writer, &output.http) {
            Ok(()) => result_of(&output.http, output.http_close),
            Err(_) => EventResult::Ended,
        },
        Err(AllocError) => EventResult::Ended,
    }
}

// The number of bytes that a read gives; 0 at the end of the input, or if the read fails.
fn count_of<R: Read>(reader: &mut R, room: &mut [u8]) -> usize
    ensures bound { result ≤ length room.new }
    ensures read { Consumes (R.remaining reader.old) (R.remaining reader.new) (take result room.new) }
{
    match read_some(reader, room) {
        Ok(count) => count,
        Err(_) => 0,
    }
}

// The result of an event.
#[derive(Clone, Copy)]
enum EventResult {
    // Nothing was answered.
    Waits,
    // Something was answered.
    Answered,
    // The stream or the connection is at its end.
    Ended,
}

// The result of an event for which these bytes were written.
fn result_of(written: &[u8], closes: bool) -> EventResult
    ensures { IsResultOf written.now closes result }
{
    if closes {
        return EventResult::Ended;
    }
    if written.is_empty() {
        return EventResult::Waits;
    }
    EventResult::Answered
}

/// Passes the core the event that the update stream comes up, and writes the first request. Returns whether the stream
/// is still up. If it is not, the core has received its loss.
pub fn open_updates<W: Write>(proxy: &mut Proxy, writer: &mut W) -> bool
    ensures { Opens (proxy_view proxy.old) (proxy_view proxy.new) (W.contents writer.old) (W.contents writer.new) result }
{
    match bring_up(proxy, writer) {
        EventResult::Ended => lose(proxy),
        _ => true,
    }
}

/// Takes one response of the update stream. It passes the core the bytes as they arrive, up to the event with which a
/// response is answered, and writes the answers. Returns whether the stream is still up. The stream is lost if the core
/// closes it, a read gives no bytes or fails, a write fails, or memory runs out. The core then receives its loss.
pub fn take_response<R: Read, W: Write, L: Write + Drop>(
    proxy: &mut Proxy,
    reader: &mut R,
    writer: &mut W,
    log: &mut Log<L>,
) -> bool
    ensures { TakesResponse (proxy_view proxy.old) (proxy_view proxy.new) (R.remaining reader.old)
        (R.remaining reader.new) (W.contents writer.old) (W.contents writer.new) result }
{
    match receive(proxy, reader, writer, log) {
        true => true,
        false => lose(proxy),
    }
}

/// Passes the core the loss of the update stream. Returns `false`: the stream is not up.
pub(crate) fn lose(proxy: &mut Proxy) -> bool
    ensures down { result ≡ false }
    ensures reported { EndsUpdates (proxy_view proxy.old) (proxy_view proxy.new) false }
{
    let _ = proxy.step(Event::AdsLost);
    false
}

// Passes the core bytes of the update stream, up to the event with which a response is answered. Returns whether one
// was. No read gives more bytes than complete one message, so that its answer is written before the next is judged.
fn receive<R: Read, W: Write, L: Write + Drop>(
    proxy: &mut Proxy,
    reader: &mut R,
    writer: &mut W,
    log: &mut Log<L>,
) -> bool
    ensures { Receives (proxy_view proxy.old) (proxy_view proxy.new) (R.remaining reader.old)
        (R.remaining reader.new) (W.contents writer.old) (W.contents writer.new) result }
{
    let mut room = [0u8; CHUNK];
    for _ in 0..u64::MAX {
        let most = proxy.client().lacks().min(CHUNK);
        let part = &mut room[..most];
        let count = count_of(reader, part);
        if count == 0 {
            return false;
        }
        match update(proxy, &part[..count], writer, log) {
            EventResult::Answered => return true,
            EventResult::Ended => return false,
            EventResult::Waits => {}
        }
    }
    false
}

// Passes the core the event that the update stream comes up, and writes the first request.
fn bring_up<W: Write>(proxy: &mut Proxy, writer: &mut W) -> EventResult
    ensures { Updates (proxy_view proxy.old) (proxy_view proxy.new) (W.contents writer.old) (W.contents writer.new)
        ads_up result }
{
    match proxy.step(Event::AdsUp) {
        Ok(output) => match write_whole(writer, &output.ads) {
            Ok(()) => result_of(&output.ads, output.ads_close),
            Err(_) => EventResult::Ended,
        },
        Err(AllocError) => EventResult::Ended,
    }
}

// Passes the core bytes of the update stream, logs how it judged the responses in them, and writes the answers.
fn update<W: Write, L: Write + Drop>(
    proxy: &mut Proxy,
    bytes: &[u8],
    writer: &mut W,
    log: &mut Log<L>,
) -> EventResult
    ensures { Updates (proxy_view proxy.old) (proxy_view proxy.new) (W.contents writer.old) (W.contents writer.new)
        (ads_bytes bytes.now) result }
{
    match proxy.receive_updates(bytes) {
        Ok((output, judgements, ended)) => {
            log.log_judgements(judgements, ended, proxy.client());
            match write_whole(writer, &output.ads) {
                Ok(()) => result_of(&output.ads, output.ads_close),
                Err(_) => EventResult::Ended,
            }
        }
        Err(AllocError) => EventResult::Ended,
    }
}

/// Serves one stream of a control plane to its end. It passes the control plane the bytes of the stream as they arrive,
/// and writes the answers. The stream ends if a read gives no bytes or fails, a write fails, the control plane breaks
/// it, or memory runs out. The control plane then receives its loss.
pub fn serve_stream<R: Read, W: Write, L: Write + Drop>(
    control: &mut Control,
    reader: &mut R,
    writer: &mut W,
    log: &mut Log<L>,
)
    ensures { ServesStream (control_view control.old) (control_view control.new) (R.remaining reader.old)
        (R.remaining reader.new) (W.contents writer.old) (W.contents writer.new) }
{
    receive_requests(control, reader, writer, log);
    control.lost();
}

// Passes a control plane the bytes of its stream, and writes the answers.
fn receive_requests<R: Read, W: Write, L: Write + Drop>(
    control: &mut Control,
    reader: &mut R,
    writer: &mut W,
    log: &mut Log<L>,
)
    ensures { ReceivesRequests (control_view control.old) (control_view control.new) (R.remaining reader.old)
        (R.remaining reader.new) (W.contents writer.old) (W.contents writer.new) }
{
    let mut room = [0u8; CHUNK];
    for _ in 0..u64::MAX {
        let count = count_of(reader, &mut room);
        if count == 0 {
            return;
        }
        match feed(control, &room[..count], writer, log) {
            true => {}
            false => return,
        }
    }
}

// Passes a control plane bytes of its stream, and writes the answer. Returns whether the stream goes on.
fn feed<W: Write, L: Write + Drop>(
    control: &mut Control,
    bytes: &[u8],
    writer: &mut W,
    log: &mut Log<L>,
) -> bool
    ensures { Feeds (control_view control.old) (control_view control.new) (W.contents writer.old) (W.contents writer.new)
        bytes.now result }
{
    match control.feed(bytes) {
        Ok(fed) => {
            log.log_exchanges(fed.exchanges);
            match write_whole(writer, &fed.replies) {
                Ok(()) => fed.ended.is_none(),
                Err(_) => false,
            }
        }
        Err(AllocError) => false,
    }
}
