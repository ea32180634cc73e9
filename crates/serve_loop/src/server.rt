//! The loop of a server. It decides when each thing is done; the board moves the bytes.
ghost use Rattle.std.specs.Prelude.{◌≡◌, true, IfOk, OnOk};
ghost use Rattle.serve_loop.specs.History.{is_told};
ghost use Rattle.serve_loop.specs.Law.{Belong, GoesOn};

use crate::attempt::Attempt;
use crate::board::Board;
use crate::connection::{Connection, Next};
use crate::idle::longest_idle;
use crate::network::{Network, Ready};
use crate::observer::Observer;
use crate::service::Service;
use crate::settings::{Settings, has_passed, most_accepts, passed_since};
use crate::stream::{CloseReason, Stream};
use crate::updates::Updates;
use crate::upkeep::Upkeep;
use std::alloc::{AllocError, Global};
use std::io::{self, ErrorKind};

// How long a wait takes at most, in milliseconds. After it times are looked at.
const TICK: u64 = 100;
// How long a connection is idle before it gives up its place, in milliseconds. One that is slow to ask keeps it for so long.
const REST: u64 = 1_000;
// How long a wait takes at most while further connections may wait that other processes may accept.
const SHARED: u64 = 1;

/// The connections of a server, and its stream of updates.
#[derive(Drop)]
pub struct Server<F, N: Network<F>, S: Service<F>, O: Observer<F, S>> {
    board: Board<F, N, S, O>,
    settings: Settings,
    connections: Vec<Connection>,
    updates: Updates,
    ready: Vec<Ready>,
    // the places without a connection
    free: Vec<usize>,
    // the places whose connection has a further turn
    due: Vec<usize>,
    // whether connections may wait to be accepted
    accepts: bool,
    // since when the server is to end
    ending_since: Option<u64>,
    ticked: u64,
}

impl<F: Drop, N: Network<F>, S: Service<F>, O: Observer<F, S>> Server<F, N, S, O> {
    /// A server of a board with so many places, of which it uses as many as it is set to.
    pub fn new(
        alloc: Global,
        places: usize,
        board: Board<F, N, S, O>,
        settings: &Settings,
    ) -> Result<Server<F, N, S, O>, AllocError>
        ensures { IfOk result (λ server. server.board ≡ board) }
    {
        let mut connections = Vec::new(alloc);
        let mut free = Vec::new(alloc);
        for k in 0..places.min(settings.at_once) {
            connections.push(Connection::new(0))?;
            free.push(k)?;
        }
        free.reverse();
        Ok(Server {
            board,
            settings: *settings,
            connections,
            updates: Updates::new(settings),
            ready: Vec::new(alloc),
            free,
            due: Vec::new(alloc),
            accepts: true,
            ending_since: None,
            ticked: 0,
        })
    }

    /// The board, with the network, the service and the observer.
    pub fn board(&self) -> &Board<F, N, S, O>
        ensures { result.now ≡ self.now.board }
    {
        &self.board
    }

    /// The network alone. All else is dropped.
    pub fn into_network(self) -> N
        ensures { result ≡ self.board.parties.network }
    {
        self.board.into_network()
    }

    /// Calls what is done between turns.
    pub fn keep_up<U: Upkeep<F, N, S, O>>(&mut self, upkeep: &mut U)
        ensures law { ∥ Belong (N.wire self.new.board.parties.network) (S.turns self.new.board.parties.service)
            (O.seen self.new.board.parties.observer) ∥₁ }
        ensures goes_on { GoesOn N.setup S.turns S.setup self.old.board.parties self.new.board.parties }
    {
        self.board.keep_up(upkeep);
    }

    /// Serves until the server is to end, and then for at most the drain time. What is on the wire is what the service
    /// took and what of its answers was sent. It returns without an error only after the network said that the server is
    /// to end. Its errors are those of `Network::wait`, and out of memory.
    pub fn serve(&mut self) -> io::Result<()>
        ensures law { ∥ Belong (N.wire self.new.board.parties.network) (S.turns self.new.board.parties.service)
            (O.seen self.new.board.parties.observer) ∥₁ }
        ensures goes_on { GoesOn N.setup S.turns S.setup self.old.board.parties self.new.board.parties }
        ensures told { OnOk result (is_told (N.wire self.new.board.parties.network) ≡ true) }
    {
        for _ in 0..u64::MAX {
            let goes_on = self.turn()?;
            if !goes_on {
                if self.board.is_ending() {
                    return Ok(());
                }
            }
        }
        Err(ErrorKind::Other.into())
    }

    /// One wait, and a turn of each stream that is ready. Returns whether the server goes on.
    pub fn turn(&mut self) -> io::Result<bool>
        ensures law { ∥ Belong (N.wire self.new.board.parties.network) (S.turns self.new.board.parties.service)
            (O.seen self.new.board.parties.observer) ∥₁ }
        ensures goes_on { GoesOn N.setup S.turns S.setup self.old.board.parties self.new.board.parties }
    {
        self.wait()?;
        self.mark_ready()?;
        self.accept_all()?;
        self.serve_updates();
        self.visit_all()?;
        self.tick()?;
        Ok(self.goes_on())
    }

    // Waits until something is ready, or a tick has passed.
    fn wait(&mut self) -> io::Result<()>
        ensures goes_on { GoesOn N.setup S.turns S.setup self.old.board.parties self.new.board.parties }
    {
        self.ready.clear();
        let most = self.patience();
        self.board.wait(most, &mut self.ready)?;
        if !self.board.is_ending() {
            return Ok(());
        }
        self.ending_since = Some(self.ending_since.unwrap_or(self.board.now()));
        Ok(())
    }

    // How long a wait takes at most.
    fn patience(&self) -> u64 {
        if self.is_due() {
            return 0;
        }
        match self.may_accept() {
            true if self.settings.shares => SHARED,
            true => 0,
            false => TICK,
        }
    }

    // A turn of the stream of updates, if it is due.
    fn serve_updates(&mut self)
        ensures goes_on { GoesOn N.setup S.turns S.setup self.old.board.parties self.new.board.parties }
    {
        if !self.updates.is_due {
            return;
        }
        if self.ending_since.is_some() {
            return;
        }
        self.updates.turn(&mut self.board, &self.settings);
    }

    // Whether a turn of a stream is due without a further event.
    fn is_due(&self) -> bool {
        !self.due.is_empty() || (self.ending_since.is_none() && self.updates.is_due)
    }

    // Whether a connection may wait for which there is a place.
    fn may_accept(&self) -> bool {
        self.accepts && self.ending_since.is_none() && !self.free.is_empty()
    }

    // Marks what is ready.
    fn mark_ready(&mut self) -> Result<(), AllocError>
        ensures goes_on { GoesOn N.setup S.turns S.setup self.old.board.parties self.new.board.parties }
    {
        for at in 0..self.ready.len() {
            match self.ready.get(at) {
                Some(Ready::Listener) => self.accepts = true,
                Some(Ready::Stream(Stream::Updates)) => self.updates.is_due = true,
                Some(Ready::Stream(Stream::Place(k))) => {
                    let k = *k;
                    self.mark(k)?;
                }
                None => {}
            }
        }
        Ok(())
    }

    // A further turn of the connection in a place is due.
    fn mark(&mut self, k: usize) -> Result<(), AllocError>
        ensures goes_on { GoesOn N.setup S.turns S.setup self.old.board.parties self.new.board.parties }
    {
        if let Some(connection) = self.connections.get_mut(k) {
            if !connection.is_due {
                self.due.push(k)?;
                connection.is_due = true;
            }
        }
        Ok(())
    }

    // Accepts connections while there are places.
    fn accept_all(&mut self) -> Result<(), AllocError>
        ensures goes_on { GoesOn N.setup S.turns S.setup self.old.board.parties self.new.board.parties }
    {
        for _ in 0..most_accepts(self.settings.shares) {
            if !self.accepts || self.ending_since.is_some() {
                return Ok(());
            }
            let Some(k) = self.free.pop() else {
                return Ok(());
            };
            self.accept(k)?;
            self.make_room()?;
        }
        Ok(())
    }

    // Closes the connection that is idle for the longest time, if all places are taken and that is long enough.
    fn make_room(&mut self) -> Result<(), AllocError>
        ensures goes_on { GoesOn N.setup S.turns S.setup self.old.board.parties self.new.board.parties }
    {
        if !self.free.is_empty() {
            return Ok(());
        }
        match longest_idle(&self.connections) {
            Some(k) if self.has_rested(k) => self.close(k, CloseReason::Full),
            _ => Ok(()),
        }
    }

    // Whether a connection is idle for so long that it gives up its place.
    fn has_rested(&self, k: usize) -> bool {
        match self.connections.get(k) {
            Some(connection) => passed_since(connection.idle_since(), REST, self.board.now()),
            None => false,
        }
    }

    // Accepts a connection in a place, if one waits.
    fn accept(&mut self, k: usize) -> Result<(), AllocError>
        ensures goes_on { GoesOn N.setup S.turns S.setup self.old.board.parties self.new.board.parties }
    {
        match self.board.accept(k) {
            Attempt::Taken(outcome) if !outcome.closes => self.open(k),
            Attempt::Taken(_) => self.close(k, CloseReason::Served),
            Attempt::Memory => self.close(k, CloseReason::Memory),
            Attempt::Interrupted => self.leave(k),
            _ => {
                self.accepts = false;
                self.leave(k)
            }
        }
    }

    // No connection was accepted in a place.
    fn leave(&mut self, k: usize) -> Result<(), AllocError>
        ensures goes_on { GoesOn N.setup S.turns S.setup self.old.board.parties self.new.board.parties }
    {
        self.free.push(k)?;
        Ok(())
    }

    // A connection was accepted in a place.
    fn open(&mut self, k: usize) -> Result<(), AllocError>
        ensures goes_on { GoesOn N.setup S.turns S.setup self.old.board.parties self.new.board.parties }
    {
        let now = self.board.now();
        if let Some(connection) = self.connections.get_mut(k) {
            connection.begin(now);
        }
        self.mark(k)
    }

    // Closes the connection in a place.
    fn close(&mut self, k: usize, reason: CloseReason) -> Result<(), AllocError>
        ensures goes_on { GoesOn N.setup S.turns S.setup self.old.board.parties self.new.board.parties }
    {
        self.board.close(Stream::Place(k), reason);
        self.free.push(k)?;
        Ok(())
    }

    // A turn of each connection that has one.
    fn visit_all(&mut self) -> Result<(), AllocError>
        ensures goes_on { GoesOn N.setup S.turns S.setup self.old.board.parties self.new.board.parties }
    {
        let count = self.due.len();
        for at in 0..count {
            if let Some(k) = self.due.get(at) {
                let k = *k;
                self.visit(k)?;
            }
        }
        let done = count.min(self.due.len());
        self.due.drain(..done);
        Ok(())
    }

    // A turn of the connection in a place, if one is open there.
    fn visit(&mut self, k: usize) -> Result<(), AllocError>
        ensures goes_on { GoesOn N.setup S.turns S.setup self.old.board.parties self.new.board.parties }
    {
        let Some(connection) = self.connections.get_mut(k) else {
            return Ok(());
        };
        connection.is_due = false;
        if !self.board.is_open(Stream::Place(k)) {
            return Ok(());
        }
        match connection.turn(&mut self.board, k, &self.settings) {
            Next::Waits => Ok(()),
            Next::Again => self.mark(k),
            Next::Over(reason) => self.close(k, reason),
        }
    }

    // Closes what takes too long, and tries again what was refused or blocked.
    fn tick(&mut self) -> Result<(), AllocError>
        ensures goes_on { GoesOn N.setup S.turns S.setup self.old.board.parties self.new.board.parties }
    {
        let now = self.board.now();
        if !has_passed(self.ticked, TICK, now) {
            return Ok(());
        }
        self.ticked = now;
        self.accepts = true;
        self.updates.tick(&mut self.board, &self.settings);
        for k in 0..self.connections.len() {
            if !self.board.is_open(Stream::Place(k)) {
                continue;
            }
            let Some(connection) = self.connections.get(k) else {
                continue;
            };
            match connection.close_reason(&self.settings, self.ending_since.is_some(), now) {
                Some(reason) => self.close(k, reason)?,
                None if connection.is_blocked() => self.mark(k)?,
                None => {}
            }
        }
        self.make_room()
    }

    // Whether the server goes on: it is not to end, or connections are open and have time.
    fn goes_on(&mut self) -> bool
        ensures goes_on { GoesOn N.setup S.turns S.setup self.old.board.parties self.new.board.parties }
    {
        let Some(since) = self.ending_since else {
            return true;
        };
        self.board.close(Stream::Updates, CloseReason::Drained);
        let now = self.board.now();
        self.free.len() < self.connections.len() && !has_passed(since, self.settings.drain, now)
    }
}
