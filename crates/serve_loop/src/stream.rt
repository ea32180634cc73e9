//! Streams, and what happens on them.

/// A stream of a server.
#[derive(Clone, Copy, PartialEq, Eq, Debug)]
pub enum Stream {
    /// The connection in this place.
    Place(usize),
    /// The stream of updates.
    Updates,
}

/// Why a stream was closed.
#[derive(Clone, Copy, PartialEq, Eq, Debug)]
pub enum CloseReason {
    /// It was served to its end.
    Served,
    /// The other end closed it.
    Left,
    /// It failed.
    Reset,
    /// A message was not complete in time.
    Slow,
    /// It was not used for too long.
    Idle,
    /// It did not take in time what waited for it.
    Blocked,
    /// Memory ran out.
    Memory,
    /// The server ends.
    Drained,
    /// Its bytes are of another protocol.
    Foreign,
    /// It was idle for the longest time, and all places were taken.
    Full,
    /// The stream of updates gave no byte for too long.
    Silent,
}

/// What happens to a server.
#[derive(Debug, Drop)]
pub enum Event<'a, F> {
    /// A connection with these facts was accepted in this place.
    Accepted(usize, &'a F),
    /// The stream of updates was connected.
    Connected,
    /// A stream delivered bytes.
    Received(Stream, &'a [u8]),
    /// A stream was closed.
    Closed(Stream, CloseReason),
    /// The server is to end.
    Drain,
}
