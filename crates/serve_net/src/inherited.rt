//! A listening socket that a supervisor opened.

use crate::listener::{Arrival, Listener};
use mio::net::{TcpListener, UnixListener};
use os::FromRawFd;
use std::io::{self, ErrorKind};
use std::net;
use std::os::fd::IntoRawFd;
use std::os::unix::net as unix;

// The first descriptor that a supervisor passes on; those below it are the standard streams.
const FIRST: i32 = 3;

/// A listening socket that a supervisor opened.
#[derive(Drop)]
pub(crate) struct Inherited {
    pub(crate) listener: Listener,
    /// A connection that was accepted to see whether the socket listens.
    pub(crate) first: Option<Arrival>,
}

impl Inherited {
    /// Takes the socket that was opened as this descriptor. Fails with `InvalidInput` if it is below 3, and with the
    /// system's error unless it is a TCP or Unix socket that listens. In the latter case the descriptor is closed.
    pub(crate) fn take(descriptor: i32) -> io::Result<Inherited> {
        let listener = listener_of(descriptor)?;
        let first = match listener.accept() {
            Ok(first) => Some(first),
            Err(error) if has_none(error.kind()) => None,
            Err(error) => return Err(error),
        };
        Ok(Inherited { listener, first })
    }
}

// The socket that has this descriptor, from 3 on. One without an address of TCP is a Unix socket, or it is refused.
fn listener_of(descriptor: i32) -> io::Result<Listener> {
    if descriptor < FIRST {
        return Err(io::Error::from(ErrorKind::InvalidInput));
    }
    // A process gets no more of such a socket than its number, so an owner is made of the number, here and nowhere
    // else. The caller takes each number once, and before this process opens a socket itself.
    let listener = unsafe { net::TcpListener::from_raw_fd(descriptor) };
    if listener.local_addr().is_ok() {
        listener.set_nonblocking(true)?;
        return Ok(Listener::Tcp(TcpListener::from_std(listener)));
    }
    // the first owner gives the number back, so the second one is alone
    let _ = listener.into_raw_fd();
    let listener = unsafe { unix::UnixListener::from_raw_fd(descriptor) };
    listener.local_addr()?;
    listener.set_nonblocking(true)?;
    Ok(Listener::Unix(UnixListener::from_std(listener)))
}

// Whether a listening socket fails in this way where no connection waits.
fn has_none(kind: ErrorKind) -> bool {
    matches!(
        kind,
        ErrorKind::WouldBlock | ErrorKind::ConnectionAborted | ErrorKind::Interrupted
    )
}
