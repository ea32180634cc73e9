//! One connection: how far it has come, and its times.
ghost use Rattle.std.specs.Prelude.{◌≡◌};
ghost use Rattle.serve_loop.specs.Idle.{idle_since};
ghost use Rattle.serve_loop.specs.Law.{GoesOn};

use crate::attempt::Attempt;
use crate::board::Board;
use crate::flow::{CHUNK, Flow, Sent};
use crate::network::Network;
use crate::observer::Observer;
use crate::service::{Outcome, Service};
use crate::settings::{Settings, has_passed, passed_since};
use crate::stream::{CloseReason, Stream};

/// What comes after a turn of a stream.
#[derive(Clone, Copy, PartialEq, Eq, Debug)]
pub(crate) enum Next {
    /// Nothing, until the stream is reported again or time has passed.
    Waits,
    /// A further turn.
    Again,
    /// The stream is over.
    Over(CloseReason),
}

// How far a connection has come.
#[derive(Clone, Copy, PartialEq, Eq, Debug)]
enum Phase {
    // Requests are read.
    Open,
    // The last answers wait. No more is read.
    Ends,
    // The same, and the other end closed its direction.
    Left,
    // All answers were sent. It is read until the other end closes, so that this gets the answers.
    Lingers,
}

/// One connection.
#[derive(Clone, Copy, Debug)]
pub(crate) struct Connection {
    phase: Phase,
    flow: Flow,
    // when the first byte of a request came that is not complete
    begun: Option<u64>,
    /// Whether a further turn is due.
    pub(crate) is_due: bool,
}

impl Connection {
    /// A connection opens. A turn that is due stays due.
    pub(crate) fn begin(&mut self, now: u64) {
        *self = Connection {
            is_due: self.is_due,
            ..Connection::new(now)
        };
    }

    /// A connection that has just opened.
    pub(crate) fn new(now: u64) -> Connection {
        Connection {
            phase: Phase::Open,
            flow: Flow::new(now),
            begun: None,
            is_due: false,
        }
    }

    /// Writes what waits, and reads once what came, so that no other connection waits for long.
    pub(crate) fn turn<F: Drop, N: Network<F>, S: Service<F>, O: Observer<F, S>>(
        &mut self,
        board: &mut Board<F, N, S, O>,
        k: usize,
        settings: &Settings,
    ) -> Next
        ensures goes_on { GoesOn N.setup S.turns S.setup board.old.parties board.new.parties }
    {
        match self.step(board, k, settings) {
            Next::Again => {}
            next => return next,
        }
        match self.flow.write(board, Stream::Place(k)) {
            Sent::Lost => Next::Over(CloseReason::Reset),
            _ => Next::Again,
        }
    }

    // One write, and one read if few bytes wait.
    fn step<F: Drop, N: Network<F>, S: Service<F>, O: Observer<F, S>>(
        &mut self,
        board: &mut Board<F, N, S, O>,
        k: usize,
        settings: &Settings,
    ) -> Next
        ensures goes_on { GoesOn N.setup S.turns S.setup board.old.parties board.new.parties }
    {
        let stream = Stream::Place(k);
        let sent = self.flow.write(board, stream);
        if sent == Sent::Lost {
            return Next::Over(CloseReason::Reset);
        }
        match self.phase {
            Phase::Left if sent == Sent::All => Next::Over(CloseReason::Served),
            Phase::Ends if sent == Sent::All => self.finish(board, k),
            Phase::Ends | Phase::Left => after(sent),
            Phase::Open if board.waiting(stream) > settings.pending => after(sent),
            _ => self.read(board, k),
        }
    }

    // All answers were sent: it waits for the other end to close.
    fn finish<F: Drop, N: Network<F>, S: Service<F>, O: Observer<F, S>>(
        &mut self,
        board: &mut Board<F, N, S, O>,
        k: usize,
    ) -> Next
        ensures goes_on { GoesOn N.setup S.turns S.setup board.old.parties board.new.parties }
    {
        board.finish(Stream::Place(k));
        self.phase = Phase::Lingers;
        self.flow = Flow::new(board.now());
        Next::Again
    }

    // One read.
    fn read<F: Drop, N: Network<F>, S: Service<F>, O: Observer<F, S>>(
        &mut self,
        board: &mut Board<F, N, S, O>,
        k: usize,
    ) -> Next
        ensures goes_on { GoesOn N.setup S.turns S.setup board.old.parties board.new.parties }
    {
        let mut room = [0u8; CHUNK];
        match board.read(Stream::Place(k), &mut room) {
            Attempt::Taken(outcome) => self.taken(outcome, board.now()),
            Attempt::Ended if self.phase == Phase::Lingers => Next::Over(CloseReason::Served),
            Attempt::Ended => {
                self.phase = Phase::Left;
                Next::Again
            }
            Attempt::Blocked => Next::Waits,
            Attempt::Interrupted => Next::Again,
            Attempt::Memory => Next::Over(CloseReason::Memory),
            Attempt::Lost => Next::Over(CloseReason::Reset),
        }
    }

    /// The service took an event of the connection.
    pub(crate) fn taken(&mut self, outcome: Outcome, now: u64) -> Next {
        if outcome.is_foreign {
            return Next::Over(CloseReason::Foreign);
        }
        if self.phase == Phase::Open {
            self.flow.used = now;
            self.begun = match self.begun {
                _ if outcome.rests => None,
                Some(begun) if !outcome.completes => Some(begun),
                _ => Some(now),
            };
            if outcome.closes {
                self.phase = Phase::Ends;
            }
        }
        Next::Again
    }

    /// Why the connection is to be closed now; none if no time has passed. While the server ends, one in which a request is
    /// under way or a turn is due goes on.
    pub(crate) fn close_reason(
        &self,
        settings: &Settings,
        is_ending: bool,
        now: u64,
    ) -> Option<CloseReason> {
        if passed_since(self.flow.blocked, settings.write, now) {
            return Some(CloseReason::Blocked);
        }
        let is_quiet = self.begun.is_none() && self.flow.blocked.is_none();
        match self.phase {
            Phase::Lingers if has_passed(self.flow.used, settings.write, now) => Some(
                CloseReason::Served,
            ),
            Phase::Open if passed_since(self.begun, settings.head, now) => Some(CloseReason::Slow),
            Phase::Open if is_quiet && is_ending && !self.is_due => Some(CloseReason::Drained),
            Phase::Open if is_quiet && has_passed(self.flow.used, settings.idle, now) => Some(
                CloseReason::Idle,
            ),
            _ => None,
        }
    }

    /// Since when the connection is idle: each request was answered, nothing waits for it, and no turn is due. None if it
    /// is not.
    pub(crate) fn idle_since(&self) -> Option<u64>
        ensures { result ≡ idle_since self.now }
    {
        match (self.phase, self.begun, self.flow.blocked) {
            (Phase::Open, None, None) if !self.is_due => Some(self.flow.used),
            _ => None,
        }
    }

    /// Whether the stream takes none of the bytes that wait.
    pub(crate) fn is_blocked(&self) -> bool {
        self.flow.blocked.is_some()
    }
}

// What comes after a write, while nothing is read.
fn after(sent: Sent) -> Next {
    match sent {
        Sent::Blocked => Next::Waits,
        _ => Next::Again,
    }
}
