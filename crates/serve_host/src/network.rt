//! The sockets of the system as the network of a server.
ghost use Rattle.std.specs.Prelude.{◌≡◌, ◌-◌, ◌↔◌, [], IfOk, IsTrue};
ghost use Rattle.attributes.specs.Conn.{conn_view};
ghost use Rattle.serve_core.specs.Turns.{ServerFacts};
ghost use Rattle.serve_host.specs.Hearing.{HeardAfter, SaysHeard};
ghost use Rattle.serve_host.specs.Known.{AreKnownFacts};
ghost use Rattle.serve_loop.specs.Law.{wire_of};

use crate::admin_port::{AdminPort, AdminReady};
use crate::facts::conn_of;
use crate::history::History;
use crate::streams::HostStreams;
use attributes::Conn;
use serve_admin::Admin;
use serve_loop::{CloseReason, Event, Network, Ready, Stream, Waited};
use serve_net::{Look, Sockets};
use serve_observe::micros;
use serve_trace::Note;
use std::alloc::{AllocError, Global};
use std::fs::File;
use std::io::{self, ErrorKind};

/// The sockets of the system, the streams that are open, and what is known of every connection. Its history has what its
/// methods gave and took.
#[derive(Drop)]
pub struct HostNetwork<'r> {
    alloc: Global,
    sockets: Sockets<'r, HostRuntime>,
    streams: HostStreams,
    found: Vec<serve_net::Ready>,
    // what is to be done at the admin port
    admin_ready: AdminReady,
    /// Whether the server is to end.
    pub(crate) drains: bool,
    // whether the loop knows that
    is_told: bool,
    // when the sockets were opened, in milliseconds
    begin: u64,
    // files that are kept open as long as the sockets are
    kept: Vec<File>,
    // the time of the last wait, and when the control plane was heard last, in milliseconds
    waited: u64,
    heard: u64,
    history: History,
}

impl<'r> HostNetwork<'r> {
    /// The network of these sockets, with so many places. Its connections all have these facts beside their addresses.
    pub(crate) fn new(
        alloc: Global,
        rt: &HostRuntime,
        sockets: Sockets<'r, HostRuntime>,
        conn: Conn,
        places: usize,
    ) -> Result<HostNetwork<'r>, AllocError>
        ensures { IfOk result (λ network. (network.history.trace.turns ≡ []) × (network.history.conn ≡ conn)) }
    {
        let begin = micros(rt) / 1_000;
        Ok(HostNetwork {
            alloc,
            sockets,
            streams: HostStreams::new(alloc, places)?,
            found: Vec::new(alloc),
            admin_ready: AdminReady::new(alloc),
            drains: false,
            is_told: false,
            begin,
            kept: Vec::new(alloc),
            waited: begin,
            heard: begin,
            history: History::new(conn),
        })
    }

    /// Keeps these files open as long as its sockets are.
    pub(crate) fn keep(&mut self, files: Vec<File>)
        ensures { self.new.history ≡ self.old.history }
    {
        self.kept = files;
    }

    /// Gives a turn to the connections of the admin port. Times are in milliseconds since a fixed time.
    pub(crate) fn serve_admin(
        &mut self,
        port: &mut AdminPort,
        admin: &mut Admin,
        now: u64,
    ) -> Result<(), AllocError>
        ensures { self.new.history ≡ self.old.history }
    {
        port.turn(&mut self.sockets, &mut self.admin_ready, admin, now)
    }

    /// Why the last call to a control plane of gRPC ended, if that was not taken yet.
    pub(crate) fn take_end_words(&self) -> Option<String> {
        self.sockets.take_end_words()
    }

    /// How many milliseconds ago the control plane was heard last: a byte of its stream came, or its file was read. If it
    /// never was, that counts from the opening of the sockets on.
    pub(crate) fn silence(&self) -> u64
        ensures { result ≡ self.now.waited - self.now.heard }
    {
        self.waited.saturating_sub(self.heard)
    }

    /// What the last look at the control plane's file found, if that is to be reported and was not taken yet.
    pub(crate) fn take_look(&mut self) -> Option<Look>
        ensures { self.new.history ≡ self.old.history }
    {
        self.sockets.take_look()
    }

    // Waits, and sorts what is ready: the loop's, and the admin port's. Returns the time. A file that can be read counts as
    // heard.
    fn look(&mut self, most: u64, ready: &mut Vec<Ready>) -> io::Result<u64>
        ensures history { self.new.history ≡ self.old.history }
        ensures waited { IfOk result (λ now. self.new.waited ≡ now) }
    {
        self.found.clear();
        let is_due = !self.admin_ready.due.is_empty() || (self.drains && !self.is_told);
        let most = if is_due { 0 } else { most };
        let now = self.sockets.wait(most, &mut self.found)?;
        self.sort(ready)?;
        self.waited = self.begin.saturating_add(now);
        if self.sockets.reads_file() {
            self.heard = self.waited;
        }
        Ok(self.waited)
    }

    // A read of a stream gave bytes, or failed. That of the stream of updates may say that the control plane was heard.
    fn hear(&mut self, stream: Stream, read: &io::Result<usize>)
        ensures history { self.new.history ≡ self.old.history }
        ensures heard { HeardAfter stream read.now self.old.waited self.old.heard self.new.heard }
    {
        if stream == Stream::Updates && says_heard(read) {
            self.heard = self.waited;
        }
    }

    fn sort(&mut self, ready: &mut Vec<Ready>) -> Result<(), AllocError>
        ensures { self.new.history ≡ self.old.history }
    {
        for found in &self.found {
            match *found {
                serve_net::Ready::Listener => ready.push(Ready::Listener)?,
                serve_net::Ready::Place(k) => ready.push(Ready::Stream(Stream::Place(k)))?,
                serve_net::Ready::Control => ready.push(Ready::Stream(Stream::Updates))?,
                serve_net::Ready::Drain => self.drains = true,
                serve_net::Ready::AdminListener => self.admin_ready.waits = true,
                serve_net::Ready::Admin(k) => self.admin_ready.due.push(k)?,
            }
        }
        Ok(())
    }

    // Accepts the next connection in a place.
    fn open(&mut self, k: usize) -> io::Result<Conn>
        ensures history { self.new.history ≡ self.old.history }
        ensures facts { IfOk result (AreKnownFacts (conn_view self.old.history.conn)) }
    {
        let accepted = self.sockets.accept(k)?;
        let conn = conn_of(self.alloc, self.history.conn(), &accepted)?;
        self.streams.open(k, accepted.stream);
        Ok(conn)
    }
}

impl Network<Conn> for HostNetwork<'_> {
    ghost wire = { λ n. wire_of n.history.trace.turns };

    ghost Setup = { ServerFacts };

    ghost setup = { λ n. n.history.conn };

    fn wait(&mut self, most: u64, ready: &mut Vec<Ready>) -> io::Result<Waited> {
        let now = self.look(most, ready)?;
        let drains = self.drains && !self.is_told;
        if drains {
            self.is_told = true;
            self.history.note(&Note::Took(&Event::Drain));
        }
        Ok(Waited { now, drains })
    }

    fn accept(&mut self, k: usize) -> io::Result<Conn> {
        match self.open(k) {
            Ok(conn) => {
                self.history.note(&Note::Took(&Event::Accepted(k, &conn)));
                Ok(conn)
            }
            Err(error) => Err(error),
        }
    }

    fn connect(&mut self) -> io::Result<()> {
        match self.sockets.connect() {
            Ok(stream) => {
                self.streams.connect(stream);
                self.history.note(&Note::Took(&Event::Connected));
                Ok(())
            }
            Err(error) => Err(error),
        }
    }

    fn read(&mut self, stream: Stream, room: &mut [u8]) -> io::Result<usize> {
        let read = self.streams.read(stream, room);
        self.hear(stream, &read);
        match read {
            Ok(count) => {
                if count == 0 {
                    return Ok(0);
                }
                self.history
                    .note(&Note::Took(&Event::Received(stream, &room[..count])));
                Ok(count)
            }
            Err(error) => Err(error),
        }
    }

    fn write(&mut self, stream: Stream, bytes: &[u8]) -> io::Result<usize> {
        match self.streams.write(stream, bytes) {
            Ok(count) => {
                self.history.note(&Note::Sent(stream, &bytes[..count]));
                Ok(count)
            }
            Err(error) => Err(error),
        }
    }

    fn finish(&mut self, stream: Stream) {
        self.streams.finish(stream);
    }

    fn close(&mut self, stream: Stream) {
        self.streams.close(stream);
        self.history
            .note(&Note::Took(&Event::Closed(stream, CloseReason::Served)));
    }
}

// Whether a read says that bytes came: it gave some, or a call by gRPC kept them for itself.
fn says_heard(read: &io::Result<usize>) -> bool
    ensures { IsTrue result ↔ SaysHeard read.now }
{
    match read {
        Ok(count) => *count > 0,
        Err(error) => error.kind() == ErrorKind::Interrupted,
    }
}
