//! Moves bytes of one stream.
ghost use Rattle.serve_loop.specs.Law.{GoesOn};

use crate::attempt::Attempt;
use crate::board::Board;
use crate::network::Network;
use crate::observer::Observer;
use crate::service::Service;
use crate::stream::Stream;

// How often a stream is written in one turn.
const WRITES: u8 = 16;

/// The greatest number of bytes of one read.
pub(crate) const CHUNK: usize = 16_384;

/// How a write of what waits ended.
#[derive(Clone, Copy, PartialEq, Eq, Debug)]
pub(crate) enum Sent {
    /// Nothing waits.
    All,
    /// More may be written at once.
    Part,
    /// The stream takes nothing at present.
    Blocked,
    /// The stream takes no more.
    Lost,
}

/// Whether a stream takes what waits for it.
#[derive(Clone, Copy, PartialEq, Eq, Debug)]
pub(crate) struct Flow {
    /// When bytes were last read or written.
    pub(crate) used: u64,
    /// Since when the stream takes none of the bytes that wait.
    pub(crate) blocked: Option<u64>,
}

impl Flow {
    /// A stream that has just opened.
    pub(crate) fn new(now: u64) -> Flow {
        Flow {
            used: now,
            blocked: None,
        }
    }

    /// Writes until nothing waits or the stream takes no more.
    pub(crate) fn write<F: Drop, N: Network<F>, S: Service<F>, O: Observer<F, S>>(
        &mut self,
        board: &mut Board<F, N, S, O>,
        stream: Stream,
    ) -> Sent
        ensures goes_on { GoesOn N.setup S.turns S.setup board.old.parties board.new.parties }
    {
        for _ in 0..WRITES {
            if board.waiting(stream) == 0 {
                return Sent::All;
            }
            match board.write(stream) {
                Ok(0) => return Sent::Lost,
                Ok(_) => {
                    self.used = board.now();
                    self.blocked = None;
                }
                Err(Attempt::Blocked | Attempt::Interrupted) => {
                    self.blocked = Some(self.blocked.unwrap_or(board.now()));
                    return Sent::Blocked;
                }
                Err(_) => return Sent::Lost,
            }
        }
        Sent::Part
    }
}
