//! The stream of updates: when it is connected, and its times.
ghost use Rattle.serve_loop.specs.Law.{GoesOn};

use crate::attempt::Attempt;
use crate::board::Board;
use crate::connection::Next;
use crate::flow::{CHUNK, Flow, Sent};
use crate::network::Network;
use crate::observer::Observer;
use crate::service::{Outcome, Service};
use crate::settings::{Settings, has_passed, is_silent, longer, passed_since};
use crate::stream::{CloseReason, Stream};

// How many pieces are read in one turn.
const PIECES: u8 = 64;

/// The stream of updates, connected or not.
#[derive(Clone, Copy, Debug)]
pub(crate) struct Updates {
    flow: Flow,
    // when it was connected
    since: u64,
    // when bytes last came, or until when none are read
    heard: u64,
    // whether a message came since
    responded: bool,
    // until when it is neither read nor connected
    rests_until: u64,
    // how long to wait after it is lost
    wait: u64,
    /// Whether a further turn is due.
    pub(crate) is_due: bool,
}

impl Updates {
    /// It is not connected, and is to be at once.
    pub(crate) fn new(settings: &Settings) -> Updates {
        Updates {
            flow: Flow::new(0),
            since: 0,
            heard: 0,
            responded: false,
            rests_until: 0,
            wait: settings.first_backoff,
            is_due: true,
        }
    }

    /// Connects the stream if it is time, or writes what waits and reads what came. The turn ends once a message was
    /// judged, since that may have taken long.
    pub(crate) fn turn<F: Drop, N: Network<F>, S: Service<F>, O: Observer<F, S>>(
        &mut self,
        board: &mut Board<F, N, S, O>,
        settings: &Settings,
    )
        ensures goes_on { GoesOn N.setup S.turns S.setup board.old.parties board.new.parties }
    {
        self.is_due = false;
        for _ in 0..PIECES {
            match self.step(board, settings) {
                Next::Again if self.is_due => return,
                Next::Again => {}
                Next::Waits => return,
                Next::Over(reason) => return self.lose(board, reason, settings),
            }
        }
        self.is_due = true;
    }

    fn step<F: Drop, N: Network<F>, S: Service<F>, O: Observer<F, S>>(
        &mut self,
        board: &mut Board<F, N, S, O>,
        settings: &Settings,
    ) -> Next
        ensures goes_on { GoesOn N.setup S.turns S.setup board.old.parties board.new.parties }
    {
        let is_open = board.is_open(Stream::Updates);
        if is_open {
            match self.flow.write(board, Stream::Updates) {
                Sent::All => {}
                Sent::Part => return Next::Again,
                Sent::Blocked => return Next::Waits,
                Sent::Lost => return Next::Over(CloseReason::Reset),
            }
        }
        if board.now() < self.rests_until {
            return Next::Waits;
        }
        let attempt = if is_open {
            let mut room = [0u8; CHUNK];
            board.read(Stream::Updates, &mut room)
        } else {
            board.connect()
        };
        match attempt {
            Attempt::Taken(outcome) if is_open => self.taken(outcome, board.now(), settings),
            Attempt::Taken(_) => self.opened(board.now()),
            Attempt::Blocked => Next::Waits,
            Attempt::Interrupted => {
                // bytes may have come that the stream kept for itself
                self.heard = board.now();
                Next::Again
            }
            Attempt::Ended => Next::Over(CloseReason::Left),
            Attempt::Memory => Next::Over(CloseReason::Memory),
            Attempt::Lost => Next::Over(CloseReason::Reset),
        }
    }

    // It was connected.
    fn opened(&mut self, now: u64) -> Next {
        self.flow = Flow::new(now);
        self.since = now;
        self.heard = now;
        self.responded = false;
        Next::Again
    }

    // The service took bytes of the stream.
    fn taken(&mut self, outcome: Outcome, now: u64, settings: &Settings) -> Next {
        self.heard = now;
        if outcome.is_foreign {
            return Next::Over(CloseReason::Foreign);
        }
        if outcome.completes {
            self.responded = true;
            self.is_due = true;
        }
        if outcome.refuses {
            self.rests_until = now.saturating_add(settings.refusal_pause);
            self.heard = self.rests_until;
        }
        if outcome.closes {
            return Next::Over(CloseReason::Served);
        }
        Next::Again
    }

    // The stream is closed. It is connected again later, and later still if no message came.
    fn lose<F: Drop, N: Network<F>, S: Service<F>, O: Observer<F, S>>(
        &mut self,
        board: &mut Board<F, N, S, O>,
        reason: CloseReason,
        settings: &Settings,
    )
        ensures goes_on { GoesOn N.setup S.turns S.setup board.old.parties board.new.parties }
    {
        if board.is_open(Stream::Updates) {
            if reason == CloseReason::Served {
                let _ = self.flow.write(board, Stream::Updates);
            }
            board.close(Stream::Updates, reason);
            if self.responded {
                self.wait = settings.first_backoff;
            }
        }
        self.rests_until = board.now().saturating_add(self.wait);
        self.wait = longer(self.wait, settings.greatest_backoff);
    }

    /// Closes the stream if a time has passed. A further turn is due, since a pause may be over.
    pub(crate) fn tick<F: Drop, N: Network<F>, S: Service<F>, O: Observer<F, S>>(
        &mut self,
        board: &mut Board<F, N, S, O>,
        settings: &Settings,
    )
        ensures goes_on { GoesOn N.setup S.turns S.setup board.old.parties board.new.parties }
    {
        self.is_due = true;
        if !board.is_open(Stream::Updates) {
            return;
        }
        let now = board.now();
        if passed_since(self.flow.blocked, settings.write, now) {
            self.lose(board, CloseReason::Blocked, settings);
        } else if !self.responded && has_passed(self.since, settings.first_message, now) {
            self.lose(board, CloseReason::Slow, settings);
        } else if is_silent(self.heard, settings.silence, now) {
            self.lose(board, CloseReason::Silent, settings);
        }
    }
}
