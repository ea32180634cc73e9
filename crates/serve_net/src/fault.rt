//! Why sockets could not be opened.

use std::alloc::AllocError;
use std::io;
use std::net::SocketAddr;
use thiserror::Error;

/// Why the sockets of a server could not be opened.
#[derive(Debug, Drop, Error)]
pub enum OpenFault {
    /// An address of `listen`, as it is written there.
    #[error("cannot listen on {address}: {error}")]
    Listen {
        address: String,
        error: io::Error,
    },
    /// The address of the admin port.
    #[error("cannot open the admin port {address}: {error}")]
    Admin {
        address: SocketAddr,
        error: io::Error,
    },
    /// Standard input, whose end is waited for.
    #[error("cannot wait for the end of standard input: {0}")]
    Input(io::Error),
    /// The system has no clock or no set of sockets for this process.
    #[error("cannot wait for sockets: {0}")]
    System(io::Error),
    #[error(transparent)]
    Memory(#[from(alloc)] AllocError),
}
