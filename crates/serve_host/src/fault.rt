//! Why a server does not serve.

use serve_net::OpenFault;
use std::alloc::AllocError;
use std::io;
use thiserror::Error;

/// Why a server cannot begin, or cannot go on.
#[derive(Debug, Drop, Error)]
pub enum HostFault {
    /// An address, or the end of standard input.
    #[error(transparent)]
    Open(#[from] OpenFault),
    /// A log or a record cannot be opened.
    #[error("cannot write {path}: {error}")]
    Log { path: String, error: io::Error },
    /// The system does not let it wait.
    #[error("cannot go on: {0}")]
    Wait(io::Error),
    /// Memory ran out at the beginning, or at the admin port.
    #[error("memory")]
    Memory(AllocError),
}

impl From<AllocError> for HostFault {
    fn from(refused: AllocError) -> HostFault {
        HostFault::Memory(refused)
    }
}
