//! A connection to the admin port.
ghost use Rattle.std.specs.Prelude.{◌≡◌, ◌<◌, ◌-◌, ◌↔◌, false, IsTrue};

use serve_admin::{Admin, AdminConnection};
use serve_net::NetStream;
use std::alloc::AllocError;
use std::io::{ErrorKind, Read, Write};

// How many bytes are read at once.
const CHUNK: usize = 4_096;
// How often a connection is written in one turn.
const WRITES: u8 = 64;

/// A connection to the admin port.
#[derive(Drop)]
pub(crate) struct AdminStream {
    stream: NetStream,
    connection: AdminConnection,
    // when it was opened, in milliseconds since a fixed time
    since: u64,
    // when it was last heard
    heard: u64,
    // whether its answer was sent, and it is read until the other end closes
    lingers: bool,
}

/// What comes after a turn.
#[derive(Clone, Copy, PartialEq, Eq)]
pub(crate) enum Next {
    /// The stream has nothing to read, or no room to write.
    Waits,
    /// A further turn, since the stream may have more.
    Again,
    /// The connection is to be closed.
    Over,
}

impl AdminStream {
    /// A connection over this stream, opened at this time, in milliseconds since a fixed time.
    pub(crate) fn new(stream: NetStream, connection: AdminConnection, since: u64) -> AdminStream
        ensures over { (result.stream ≡ stream) × (result.connection ≡ connection) }
        ensures opened { (result.since ≡ since) × (result.heard ≡ since) × (result.lingers ≡ false) }
    {
        AdminStream {
            stream,
            connection,
            since,
            heard: since,
            lingers: false,
        }
    }

    /// Whether it was opened so many milliseconds ago, or earlier.
    pub(crate) fn is_older(&self, than: u64, now: u64) -> bool
        ensures { IsTrue result ↔ than < now - self.now.since }
    {
        now.saturating_sub(self.since) > than
    }

    /// When it was last heard.
    pub(crate) fn heard(&self) -> u64
        ensures { result ≡ self.now.heard }
    {
        self.heard
    }

    /// Reads, answers and writes until neither goes on.
    pub(crate) fn turn(&mut self, admin: &mut Admin, now: u64) -> Next {
        if self.lingers {
            return self.drop_bytes();
        }
        if self.connection.output().is_empty() && !self.connection.is_done() {
            match self.read(admin, now) {
                Next::Again => {}
                next => return next,
            }
        }
        match self.write() {
            Next::Again if self.connection.is_done() => {
                self.stream.finish();
                self.lingers = true;
                Next::Again
            }
            next => next,
        }
    }

    // One read of a request.
    fn read(&mut self, admin: &mut Admin, now: u64) -> Next {
        let mut room = [0u8; CHUNK];
        match self.stream.read(&mut room) {
            Ok(0) => match self.connection.ended(admin) {
                Ok(()) => Next::Again,
                Err(AllocError) => Next::Over,
            },
            Ok(count) => {
                self.heard = now;
                match self
                    .connection
                    .feed(admin, room.get(..count).unwrap_or(&[]))
                {
                    Ok(()) => Next::Again,
                    Err(AllocError) => Next::Over,
                }
            }
            Err(error) => after(error.kind()),
        }
    }

    // Writes what waits.
    fn write(&mut self) -> Next {
        for _ in 0..WRITES {
            let output = self.connection.output();
            if output.is_empty() {
                return Next::Again;
            }
            match self.stream.write(output) {
                Ok(0) => return Next::Over,
                Ok(count) => self.connection.sent(count),
                Err(error) => return after(error.kind()),
            }
        }
        Next::Again
    }

    // Reads and drops bytes until the other end closes, so that it gets the answer.
    fn drop_bytes(&mut self) -> Next {
        let mut room = [0u8; CHUNK];
        match self.stream.read(&mut room) {
            Ok(0) => Next::Over,
            Ok(_) => Next::Again,
            Err(error) => after(error.kind()),
        }
    }
}

// What comes after a read or a write that failed.
fn after(kind: ErrorKind) -> Next {
    match kind {
        ErrorKind::WouldBlock => Next::Waits,
        ErrorKind::Interrupted => Next::Again,
        _ => Next::Over,
    }
}
