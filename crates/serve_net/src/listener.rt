//! A listening socket, of TCP or of Unix.

use crate::accepted::Accepted;
use crate::stream::NetStream;
use crate::tcp::TcpLink;
use mio::net::{TcpListener, TcpStream, UnixListener, UnixStream};
use mio::{Interest, Registry, Token};
use std::io;
use std::net::SocketAddr;

/// A listening socket.
#[derive(Drop)]
pub(crate) enum Listener {
    Tcp(TcpListener),
    Unix(UnixListener),
}

/// A connection as the system gives it, one of TCP with the address of its other end.
#[derive(Drop)]
pub(crate) enum Arrival {
    Tcp(TcpStream, SocketAddr),
    Unix(UnixStream),
}

impl Listener {
    /// The next connection. Fails with `WouldBlock` if none waits.
    pub(crate) fn accept(&self) -> io::Result<Arrival> {
        match self {
            Listener::Tcp(one) => {
                let (stream, peer) = one.accept()?;
                Ok(Arrival::Tcp(stream, peer))
            }
            Listener::Unix(one) => {
                let (stream, _) = one.accept()?;
                Ok(Arrival::Unix(stream))
            }
        }
    }

    /// Has it reported under this token.
    pub(crate) fn register(&mut self, registry: &Registry, token: Token) -> io::Result<()> {
        match self {
            Listener::Tcp(one) => registry.register(one, token, Interest::READABLE),
            Listener::Unix(one) => registry.register(one, token, Interest::READABLE),
        }
    }

    /// Its address, if it is one of TCP and the system says it.
    pub(crate) fn address(&self) -> Option<SocketAddr> {
        match self {
            Listener::Tcp(one) => one.local_addr().ok(),
            Listener::Unix(_) => None,
        }
    }
}

impl Arrival {
    /// The connection with its addresses, which is reported under this token.
    pub(crate) fn accepted(self, registry: &Registry, token: Token) -> io::Result<Accepted> {
        match self {
            Arrival::Tcp(stream, peer) => {
                let local = stream.local_addr()?;
                Ok(Accepted {
                    stream: opened(stream, registry, token)?,
                    peer: Some(peer),
                    local: Some(local),
                })
            }
            Arrival::Unix(mut stream) => {
                registry.register(&mut stream, token, Interest::READABLE | Interest::WRITABLE)?;
                Ok(Accepted {
                    stream: NetStream::Unix(stream),
                    peer: None,
                    local: None,
                })
            }
        }
    }
}

/// A TCP stream that was accepted. What is written is sent at once, and it is reported under this token.
pub(crate) fn opened(
    stream: TcpStream,
    registry: &Registry,
    token: Token,
) -> io::Result<NetStream> {
    let mut stream = stream;
    // fails where the other end has gone, which the first read reports
    let _ = stream.set_nodelay(true);
    registry.register(&mut stream, token, Interest::READABLE | Interest::WRITABLE)?;
    Ok(NetStream::Tcp(TcpLink::accepted(stream)))
}
