//! The board joins a network to a service and an observer. It alone calls them, so the bytes on the wire are those that
//! the service took and answered, whatever the loop above does.
ghost use Rattle.std.specs.Prelude.{◌≡◌, length};
ghost use Rattle.serve_loop.specs.Law.{Belong, IsKept};

use crate::attempt::Attempt;
use crate::network::{Network, Ready};
use crate::observer::Observer;
use crate::parties::Parties;
use crate::places::{closed_places, is_open_place};
use crate::service::Service;
use crate::stream::{CloseReason, Stream};
use crate::upkeep::Upkeep;
use std::alloc::{AllocError, Global};
use std::io;
use std::marker::PhantomData;

/// A network, its service and an observer, and which streams are open.
#[derive(Drop)]
pub struct Board<F, N: Network<F>, S: Service<F>, O: Observer<F, S>> {
    parties: Parties<F, N, S, O>,
    // which places have an open connection
    places: Vec<bool>,
    // whether the stream of updates is open
    is_up: bool,
    // whether the server is to end
    is_ending: bool,
    ghost belongs: { ∥ Belong (N.wire parties.network) (S.turns parties.service) (O.seen parties.observer) ∥₁ },
    ghost kept: { ∥ IsKept (N.wire parties.network) places.items is_up is_ending ∥₁ },
    ghost counted: { length places.items ≡ S.places (S.setup parties.service) },
}

impl<F: Drop, N: Network<F>, S: Service<F>, O: Observer<F, S>> Board<F, N, S, O> {
    ghost use Rattle.std.specs.Prelude.{◌≡◌, ℕ, List, [], IfOk, false, length};
    ghost use Rattle.serve_loop.specs.declared.stream.Stream.TheVariants.{Place, Updates};
    ghost use Rattle.serve_loop.specs.History.{accepted, connected, received, is_told, open_at, waiting_at};
    ghost use Rattle.serve_loop.specs.Attempts.{Closes, Tries, Writes};
    ghost use Rattle.serve_loop.specs.Law.{GoesOn};

    /// A board of so many places, on which nothing has happened. They are those that the service is set up with.
    pub fn new(
        alloc: Global,
        places: usize,
        network: N,
        service: S,
        observer: O,
    ) -> Result<Board<F, N, S, O>, AllocError>
        requires wire { N.wire network ≡ [] }
        requires turns { S.turns service ≡ [] }
        requires seen { O.seen observer ≡ [] }
        requires count { places ≡ S.places (S.setup service) }
        ensures { IfOk result (λ b. (b.parties.network ≡ network) × (b.parties.service ≡ service) × (b.parties.observer ≡ observer)) }
    {
        Ok(Board {
            parties: Parties {
                network,
                service,
                observer,
                now: 0,
                facts: PhantomData,
            },
            places: closed_places(alloc, places)?,
            is_up: false,
            is_ending: false,
        })
    }

    /// The time of the last wait, in milliseconds since a fixed time.
    pub fn now(&self) -> u64
        ensures { result ≡ self.now.parties.now }
    {
        self.parties.now
    }

    /// The network.
    pub fn network(&self) -> &N
        ensures { result.now ≡ self.now.parties.network }
    {
        &self.parties.network
    }

    /// The network alone. The service and the observer are dropped.
    pub fn into_network(self) -> N
        ensures { result ≡ self.parties.network }
    {
        self.parties.network
    }

    /// The service.
    pub fn service(&self) -> &S
        ensures { result.now ≡ self.now.parties.service }
    {
        &self.parties.service
    }

    /// The observer.
    pub fn observer(&self) -> &O
        ensures { result.now ≡ self.now.parties.observer }
    {
        &self.parties.observer
    }

    /// Calls what is done between turns.
    pub fn keep_up<U: Upkeep<F, N, S, O>>(&mut self, upkeep: &mut U)
        ensures goes_on { GoesOn N.setup S.turns S.setup self.old.parties self.new.parties }
        ensures still { S.turns self.new.parties.service ≡ S.turns self.old.parties.service }
    {
        let parties = &mut self.parties;
        upkeep.turn(
            &mut parties.network,
            &parties.service,
            &mut parties.observer,
            parties.now,
        );
    }

    /// How many bytes wait for a stream.
    pub fn waiting(&self, stream: Stream) -> usize
        ensures { result ≡ length (waiting_at stream (S.turns self.now.parties.service)) }
    {
        self.parties.service.unsent(stream).len()
    }

    /// Whether the server is to end.
    pub fn is_ending(&self) -> bool
        ensures { result ≡ is_told (N.wire self.now.parties.network) }
    {
        self.is_ending
    }

    /// Whether a stream is open.
    pub fn is_open(&self, stream: Stream) -> bool
        ensures { result ≡ open_at stream (N.wire self.now.parties.network) }
    {
        match stream {
            Stream::Place(k) => is_open_place(&self.places, k),
            Stream::Updates => self.is_up,
        }
    }

    /// Waits for at most so many milliseconds, and adds what is ready.
    pub fn wait(&mut self, most: u64, ready: &mut Vec<Ready>) -> io::Result<()>
        ensures goes_on { GoesOn N.setup S.turns S.setup self.old.parties self.new.parties }
    {
        self.parties.wait(most, &mut self.is_ending, ready)
    }

    /// Accepts a connection in place `k`. `Lost` if one is open there, if there is no such place, or if it failed.
    pub fn accept(&mut self, k: usize) -> Attempt
        ensures goes_on { GoesOn N.setup S.turns S.setup self.old.parties self.new.parties }
        ensures tries { Tries (λ e. (facts : F) × (e ≡ accepted k facts)) (S.turns self.old.parties.service) result
            (S.turns self.new.parties.service) }
    {
        if k >= self.places.len() {
            return Attempt::Lost;
        }
        if self.is_open(Stream::Place(k)) {
            return Attempt::Lost;
        }
        self.parties.accept(k, &mut self.places)
    }

    /// Connects the stream of updates. `Lost` if it is open, or if it failed.
    pub fn connect(&mut self) -> Attempt
        ensures goes_on { GoesOn N.setup S.turns S.setup self.old.parties self.new.parties }
        ensures tries { Tries (λ e. e ≡ connected) (S.turns self.old.parties.service) result (S.turns self.new.parties.service) }
    {
        if self.is_open(Stream::Updates) {
            return Attempt::Lost;
        }
        self.parties.connect(&mut self.is_up)
    }

    /// Reads a stream once, at most as many bytes as `room` has and the service takes. The service takes what was read.
    /// `Lost` if the stream is not open.
    pub fn read(&mut self, stream: Stream, room: &mut [u8]) -> Attempt
        ensures goes_on { GoesOn N.setup S.turns S.setup self.old.parties self.new.parties }
        ensures tries { Tries (λ e. (bytes : List ℕ) × (e ≡ received stream bytes)) (S.turns self.old.parties.service) result
            (S.turns self.new.parties.service) }
    {
        if !self.is_open(stream) {
            return Attempt::Lost;
        }
        self.parties.read(stream, room)
    }

    /// Writes once what waits for a stream. Returns how many bytes the stream took, or why it took none. `Lost` if the
    /// stream is not open.
    pub fn write(&mut self, stream: Stream) -> Result<usize, Attempt>
        ensures goes_on { GoesOn N.setup S.turns S.setup self.old.parties self.new.parties }
        ensures writes { Writes stream (S.turns self.old.parties.service) result (S.turns self.new.parties.service) }
    {
        if !self.is_open(stream) {
            return Err(Attempt::Lost);
        }
        self.parties.write(stream)
    }

    /// Tells the other end of a stream that nothing more is written. Nothing is done if the stream is not open.
    pub fn finish(&mut self, stream: Stream)
        ensures goes_on { GoesOn N.setup S.turns S.setup self.old.parties self.new.parties }
        ensures still { S.turns self.new.parties.service ≡ S.turns self.old.parties.service }
    {
        if self.is_open(stream) {
            self.parties.finish(stream);
        }
    }

    /// Closes a stream. Nothing is done if it is not open.
    pub fn close(&mut self, stream: Stream, reason: CloseReason)
        ensures goes_on { GoesOn N.setup S.turns S.setup self.old.parties self.new.parties }
        ensures closed { open_at stream (N.wire self.new.parties.network) ≡ false }
        ensures closes { Closes stream (open_at stream (N.wire self.old.parties.network)) (S.turns self.old.parties.service)
            (S.turns self.new.parties.service) }
    {
        match stream {
            Stream::Place(k) => self.close_place(k, reason),
            Stream::Updates => self.disconnect(reason),
        }
    }

    // Closes the connection in a place, if one is open there.
    fn close_place(&mut self, k: usize, reason: CloseReason)
        ensures goes_on { GoesOn N.setup S.turns S.setup self.old.parties self.new.parties }
        ensures closed { open_at (Place k) (N.wire self.new.parties.network) ≡ false }
        ensures closes { Closes (Place k) (open_at (Place k) (N.wire self.old.parties.network)) (S.turns self.old.parties.service)
            (S.turns self.new.parties.service) }
    {
        if self.is_open(Stream::Place(k)) && k < self.places.len() {
            self.parties.close(k, reason, &mut self.places);
        }
    }

    // Closes the stream of updates, if it is open.
    fn disconnect(&mut self, reason: CloseReason)
        ensures goes_on { GoesOn N.setup S.turns S.setup self.old.parties self.new.parties }
        ensures closed { open_at Updates (N.wire self.new.parties.network) ≡ false }
        ensures closes { Closes Updates (open_at Updates (N.wire self.old.parties.network)) (S.turns self.old.parties.service)
            (S.turns self.new.parties.service) }
    {
        if self.is_open(Stream::Updates) {
            self.parties.disconnect(reason, &mut self.is_up);
        }
    }
}
