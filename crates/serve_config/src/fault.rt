//! Why a value is no configuration of a server.

use std::alloc::{AllocError, AllocFailed};
use thiserror::Error;

/// Why a value is no configuration of a server. All texts are escaped, so they have no control characters.
#[derive(Debug, Drop, Error)]
pub enum ServeConfigFault {
    /// A member is missing, unknown, or has a value that is not allowed.
    #[error("{member}: {reason}")]
    Member {
        /// The path of the member, such as `timeouts.head` or `listen[1]`; `configuration` is the whole value.
        member: String,
        /// What is wrong, and what is allowed.
        reason: String,
    },
    /// Out of memory.
    #[error("out of memory")]
    Memory,
}

impl From<AllocError> for ServeConfigFault {
    fn from(_: AllocError) -> ServeConfigFault {
        ServeConfigFault::Memory
    }
}

impl<T: Drop> From<AllocFailed<T>> for ServeConfigFault {
    fn from(_: AllocFailed<T>) -> ServeConfigFault {
        ServeConfigFault::Memory
    }
}
