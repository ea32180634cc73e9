//! The streams of the system that are open.
ghost use Rattle.std.specs.Prelude.{◌≡◌, ◌≤◌, Some, length, IfOk};
ghost use Rattle.std.specs.IoError.{error_kind};

use crate::request_reader::RequestReader;
use serve_loop::Stream;
use serve_net::{NetStream, Places};
use std::alloc::{AllocError, Global};
use std::io::{self, ErrorKind, Read, Write};

/// The streams that are open.
#[derive(Drop)]
pub(crate) struct HostStreams {
    alloc: Global,
    places: Places<RequestReader<NetStream>>,
    updates: Option<NetStream>,
}

impl HostStreams {
    /// So many places in which no stream is open, and no stream of updates.
    pub(crate) fn new(alloc: Global, places: usize) -> Result<HostStreams, AllocError> {
        Ok(HostStreams {
            alloc,
            places: Places::new(alloc, places)?,
            updates: None,
        })
    }

    /// A connection opens in a place.
    pub(crate) fn open(&mut self, k: usize, stream: NetStream) {
        self.places.put(k, RequestReader::new(self.alloc, stream));
    }

    /// The stream of updates opens.
    pub(crate) fn connect(&mut self, stream: NetStream)
        ensures { self.new.updates ≡ Some stream }
    {
        self.updates = Some(stream);
    }

    /// Reads a stream once: of a connection at most one request. Fails with `NotConnected` if it is not open.
    pub(crate) fn read(&mut self, stream: Stream, room: &mut [u8]) -> io::Result<usize>
        ensures bound { IfOk result (λ n. n ≤ length room.new) }
    {
        match stream {
            Stream::Place(k) => match self.places.get_mut(k) {
                Some(connection) => connection.read(room),
                None => Err(closed()),
            },
            Stream::Updates => match &mut self.updates {
                Some(updates) => updates.read(room),
                None => Err(closed()),
            },
        }
    }

    /// Writes to a stream once. Fails with `NotConnected` if it is not open.
    pub(crate) fn write(&mut self, stream: Stream, bytes: &[u8]) -> io::Result<usize>
        ensures bound { IfOk result (λ n. n ≤ length bytes.now) }
    {
        match self.open_stream(stream) {
            Some(open) => open.write(bytes),
            None => Err(closed()),
        }
    }

    /// Tells the other end of a stream that nothing more is written.
    pub(crate) fn finish(&mut self, stream: Stream) {
        if let Some(open) = self.open_stream(stream) {
            open.finish();
        }
    }

    /// Closes a stream.
    pub(crate) fn close(&mut self, stream: Stream) {
        match stream {
            Stream::Place(k) => {
                self.places.free(k);
            }
            Stream::Updates => self.updates = None,
        }
    }

    // A stream, if it is open.
    fn open_stream(&mut self, stream: Stream) -> Option<&mut NetStream> {
        match stream {
            Stream::Place(k) => match self.places.get_mut(k) {
                Some(connection) => Some(connection.stream()),
                None => None,
            },
            Stream::Updates => self.updates.as_mut(),
        }
    }
}

// The fault of a stream that is not open.
fn closed() -> io::Error
    ensures { error_kind result ≡ ErrorKind.NotConnected }
{
    io::Error::from(ErrorKind::NotConnected)
}
