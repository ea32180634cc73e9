//! Streams that do not wait.

use crate::file::FileStream;
use crate::grpc::GrpcStream;
use crate::tcp::TcpLink;
use mio::net::UnixStream;
use std::io::{self, Read, Write};
use std::net::Shutdown;

/// A stream whose reads and writes fail with `WouldBlock` where they would wait.
#[derive(Drop)]
pub enum NetStream {
    Tcp(TcpLink),
    Unix(UnixStream),
    /// The contents of a file, for a control plane that is one.
    File(FileStream),
    /// A call by gRPC, for a control plane that speaks it.
    Grpc(GrpcStream),
}

impl NetStream {
    /// Says to the other end that nothing more is written.
    pub fn finish(&mut self) {
        match self {
            NetStream::Tcp(stream) => stream.finish(),
            NetStream::Unix(stream) => {
                let _ = stream.shutdown(Shutdown::Write);
            }
            NetStream::File(_) => {}
            NetStream::Grpc(stream) => stream.finish(),
        }
    }
}

impl Read for NetStream {
    fn read(&mut self, buf: &mut [u8]) -> io::Result<usize> {
        match self {
            NetStream::Tcp(stream) => stream.read(buf),
            NetStream::Unix(stream) => stream.read(buf),
            NetStream::File(stream) => stream.read(buf),
            NetStream::Grpc(stream) => stream.read(buf),
        }
    }
}

impl Write for NetStream {
    fn write(&mut self, buf: &[u8]) -> io::Result<usize> {
        match self {
            NetStream::Tcp(stream) => stream.write(buf),
            NetStream::Unix(stream) => stream.write(buf),
            NetStream::File(stream) => stream.write(buf),
            NetStream::Grpc(stream) => stream.write(buf),
        }
    }

    fn flush(&mut self) -> io::Result<()> {
        Ok(())
    }
}
