//! A TCP stream that may not be connected yet.

use mio::net::TcpStream;
use std::io::{self, ErrorKind, Read, Write};
use std::net::Shutdown;

// How far a stream is connected.
#[derive(Clone, Copy, PartialEq, Eq, Debug)]
enum Stage {
    Connecting,
    Connected,
    Failed,
}

/// A TCP stream. Until it is connected, reads and writes fail with `WouldBlock`. If it cannot be connected, the first
/// fails with the cause, and later ones with `NotConnected`.
#[derive(Drop)]
pub struct TcpLink {
    stream: TcpStream,
    stage: Stage,
}

impl TcpLink {
    /// A stream that was accepted.
    pub(crate) fn accepted(stream: TcpStream) -> TcpLink {
        TcpLink {
            stream,
            stage: Stage::Connected,
        }
    }

    /// A stream that begins to connect.
    pub(crate) fn connecting(stream: TcpStream) -> TcpLink {
        TcpLink {
            stream,
            stage: Stage::Connecting,
        }
    }

    pub(crate) fn finish(&mut self) {
        let _ = self.stream.shutdown(Shutdown::Write);
    }

    /// Fails unless the stream is connected: with `WouldBlock` while that goes on.
    pub(crate) fn settle(&mut self) -> io::Result<()> {
        match self.stage {
            Stage::Connected => Ok(()),
            Stage::Failed => Err(io::Error::from(ErrorKind::NotConnected)),
            Stage::Connecting => {
                let outcome = self.outcome();
                match &outcome {
                    Ok(()) => self.stage = Stage::Connected,
                    Err(error) if error.kind() == ErrorKind::WouldBlock => {}
                    Err(_) => self.stage = Stage::Failed,
                }
                outcome
            }
        }
    }

    // How the connecting went; `WouldBlock` while it goes on.
    fn outcome(&self) -> io::Result<()> {
        if let Some(error) = self.stream.take_error()? {
            return Err(error);
        }
        match self.stream.peer_addr() {
            Ok(_) => Ok(()),
            Err(error) if error.kind() == ErrorKind::NotConnected => {
                Err(io::Error::from(ErrorKind::WouldBlock))
            }
            Err(error) => Err(error),
        }
    }
}

impl Read for TcpLink {
    fn read(&mut self, buf: &mut [u8]) -> io::Result<usize> {
        self.settle()?;
        self.stream.read(buf)
    }
}

impl Write for TcpLink {
    fn write(&mut self, buf: &[u8]) -> io::Result<usize> {
        self.settle()?;
        self.stream.write(buf)
    }

    fn flush(&mut self) -> io::Result<()> {
        Ok(())
    }
}
