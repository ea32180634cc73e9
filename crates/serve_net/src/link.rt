//! A stream of bytes to a control plane, over TCP or a Unix socket.

use crate::tcp::TcpLink;
use mio::net::UnixStream;
use std::io::{self, Read, Write};

/// A stream of bytes to a control plane.
#[derive(Drop)]
pub(crate) enum Link {
    Tcp(TcpLink),
    Unix(UnixStream),
}

impl Read for Link {
    fn read(&mut self, buf: &mut [u8]) -> io::Result<usize> {
        match self {
            Link::Tcp(stream) => stream.read(buf),
            Link::Unix(stream) => stream.read(buf),
        }
    }
}

impl Write for Link {
    fn write(&mut self, buf: &[u8]) -> io::Result<usize> {
        match self {
            Link::Tcp(stream) => stream.write(buf),
            Link::Unix(stream) => stream.write(buf),
        }
    }

    fn flush(&mut self) -> io::Result<()> {
        Ok(())
    }
}
