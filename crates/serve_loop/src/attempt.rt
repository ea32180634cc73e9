//! What one attempt at a stream did.
ghost use Rattle.serve_loop.specs.Attempts.{AddsNone};

use crate::service::Outcome;
use std::io::{self, ErrorKind};

/// What one attempt at a stream did: to open it, to read it, or to write to it.
#[derive(Clone, Copy, PartialEq, Eq, Debug)]
pub enum Attempt {
    /// It is not possible at present.
    Blocked,
    /// It may be tried again at once.
    Interrupted,
    /// The other end sends no more.
    Ended,
    /// The stream failed, or it is not open.
    Lost,
    /// The service took an event, with this outcome.
    Taken(Outcome),
    /// The service ran out of memory at an event.
    Memory,
}

/// What an attempt did that failed with this error: no event was taken.
pub(crate) fn attempt_of(error: &io::Error) -> Attempt
    ensures { AddsNone result }
{
    match error.kind() {
        ErrorKind::WouldBlock => Attempt::Blocked,
        ErrorKind::Interrupted | ErrorKind::ConnectionAborted => Attempt::Interrupted,
        _ => Attempt::Lost,
    }
}
