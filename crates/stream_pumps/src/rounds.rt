//! The rounds of a proxy: each takes one response of the update stream, and serves one connection.
ghost use Rattle.std.specs.Prelude.{◌≡◌, false, List, None, Option, Some, IfOk, OnErr, option_map, ℕ};
ghost use Rattle.attributes.specs.Conn.{conn_view};
ghost use Rattle.proxy_core.specs.Proxies.{proxy_view};
ghost use Rattle.stream_pumps.specs.Pumps.{EndsUpdates, Serves};
ghost use Rattle.stream_pumps.specs.Rounds.{ComesUp, ReceivesUpdates, Link, Rounds, TakesOne, link_of};

use crate::log::Log;
use crate::log_lines::StreamEvent;
use crate::pumps::{lose, open_updates, serve_connection, take_response};
use attributes::Conn;
use proxy_core::Proxy;
use std::io::{self, Read, Write};

/// The source of a proxy's streams.
pub trait Streams {
    /// Opening an update stream gives this stream, or none.
    ghost connects: { Self → Option Link → Type 0 };

    /// Accepting a connection gives this stream, or none.
    ghost accepts: { Self → Option Link → Type 0 };

    /// The end of a stream to read from.
    type Reader: Read + Drop;

    /// The end of a stream to write to.
    type Writer: Write + Drop;

    /// Opens a new update stream.
    fn connect(&self) -> io::Result<(Self::Reader, Self::Writer)>
        ensures { connects self.now (link_of Self.Reader.remaining Self.Writer.contents result) };

    /// Accepts the next connection.
    fn accept(&self) -> io::Result<(Self::Reader, Self::Writer)>
        ensures { accepts self.now (link_of Self.Reader.remaining Self.Writer.contents result) };
}

/// Runs this many rounds. In each the update stream comes up, if it is down, and one response is taken, or the stream
/// is lost. Then one connection with these facts is served to its end. A stream that cannot be connected is lost.
/// Nothing is tried again before the next round. If no connection can be accepted, none is served.
pub fn serve_rounds<S: Streams, L: Write + Drop>(
    proxy: &mut Proxy,
    conn: &Conn,
    streams: &S,
    rounds: u64,
    log: &mut Log<L>,
)
    ensures { (after : Option Link)
        × Rounds (S.connects streams.now) (S.accepts streams.now) (conn_view conn.now) rounds (proxy_view proxy.old) (proxy_view proxy.new) None after }
{
    let mut link = None;
    for _ in 0..rounds {
        link = receive_updates(proxy, link, streams, log);
        serve_one(proxy, conn, streams.accept(), log);
    }
}

// Takes one response of the update stream, which comes up first if it is down. Returns the stream, unless it is lost.
fn receive_updates<S: Streams, L: Write + Drop>(
    proxy: &mut Proxy,
    link: Option<(S::Reader, S::Writer)>,
    streams: &S,
    log: &mut Log<L>,
) -> Option<(S::Reader, S::Writer)>
    ensures { ReceivesUpdates (S.connects streams.now) (proxy_view proxy.old) (proxy_view proxy.new)
        (option_map (λ l. (S.Reader.remaining l.0, S.Writer.contents l.1)) link)
        (option_map (λ l. (S.Reader.remaining l.0, S.Writer.contents l.1)) result) }
{
    match link {
        Some(ends) => take_one(proxy, ends, log),
        None => come_up(proxy, streams.connect(), log),
    }
}

// Takes one response of an update stream that is up. Returns the stream, unless it is lost.
fn take_one<R: Read + Drop, W: Write + Drop, L: Write + Drop>(
    proxy: &mut Proxy,
    ends: (R, W),
    log: &mut Log<L>,
) -> Option<(R, W)>
    ensures { TakesOne (proxy_view proxy.old) (proxy_view proxy.new) (R.remaining ends.0, W.contents ends.1)
        (option_map (λ l. (R.remaining l.0, W.contents l.1)) result) }
{
    let (mut reader, mut writer) = ends;
    match take_response(proxy, &mut reader, &mut writer, log) {
        true => Some((reader, writer)),
        false => {
            log.log_stream(StreamEvent::Lost);
            None
        }
    }
}

// Brings the update stream up, if it is connected, and takes one response of it. Returns the stream, unless it is
// lost.
fn come_up<R: Read + Drop, W: Write + Drop, L: Write + Drop>(
    proxy: &mut Proxy,
    connected: io::Result<(R, W)>,
    log: &mut Log<L>,
) -> Option<(R, W)>
    ensures up { IfOk connected (λ ends. ComesUp (proxy_view proxy.old) (proxy_view proxy.new)
        (R.remaining ends.0, W.contents ends.1)
        (option_map (λ l. (R.remaining l.0, W.contents l.1)) result)) }
    ensures lost { OnErr connected (EndsUpdates (proxy_view proxy.old) (proxy_view proxy.new) false
        × (option_map {U = Link} (λ l. (R.remaining l.0, W.contents l.1)) result ≡ None)) }
{
    match connected {
        Ok((reader, mut writer)) => match open_updates(proxy, &mut writer) {
            true => {
                log.log_stream(StreamEvent::Up);
                take_one(proxy, (reader, writer), log)
            }
            false => {
                log.log_stream(StreamEvent::Lost);
                None
            }
        },
        Err(_) => {
            lose(proxy);
            log.log_stream(StreamEvent::Unreachable);
            None
        }
    }
}

// Serves a connection with these facts to its end, if one was accepted.
fn serve_one<R: Read + Drop, W: Write + Drop, L: Write + Drop>(
    proxy: &mut Proxy,
    conn: &Conn,
    accepted: io::Result<(R, W)>,
    log: &mut Log<L>,
)
    ensures served { IfOk accepted (λ ends. (input_new out_new : Option (List ℕ))
        × Serves (proxy_view proxy.old) (proxy_view proxy.new) (R.remaining ends.0) input_new
        (W.contents ends.1) out_new (conn_view conn.now)) }
    ensures none { OnErr accepted (proxy_view proxy.new ≡ proxy_view proxy.old) }
{
    if let Ok((mut reader, mut writer)) = accepted {
        serve_connection(proxy, conn, &mut reader, &mut writer, log);
    }
}
