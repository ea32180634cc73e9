//! A network, the service of its streams, and an observer. Each step here is one of all three.
ghost use Rattle.std.specs.Prelude.{◌≡◌, ◌≤◌, ◌<◌, ℕ, Bool, List, ◌∷◌, length, set, true, false, vec_len, if◌then◌else◌};
ghost use Rattle.serve_loop.specs.declared.stream.Stream.TheVariants.{Place, Updates};
ghost use Rattle.serve_loop.specs.History.{Effect, Fits, accepted, closed, connected, event, open_at, received, took};
ghost use Rattle.serve_loop.specs.Attempts.{AddsNone, Tries, Writes};
ghost use Rattle.serve_loop.specs.Events.{event_view};
ghost use Rattle.serve_loop.specs.Law.{Belong, GoesOn, IsKept};

use crate::attempt::{Attempt, attempt_of};
use crate::network::{Network, Ready};
use crate::observer::{Failed, Observer};
use crate::places::put_place;
use crate::service::Service;
use crate::stream::{CloseReason, Event, Stream};
use std::alloc::AllocError;
use std::io;
use std::marker::PhantomData;

/// A network, the service of its streams, and an observer.
#[derive(Drop)]
pub(crate) struct Parties<F, N: Network<F>, S: Service<F>, O: Observer<F, S>> {
    pub(crate) network: N,
    pub(crate) service: S,
    pub(crate) observer: O,
    /// The milliseconds since a fixed time.
    pub(crate) now: u64,
    pub(crate) facts: PhantomData<F>,
}

impl<F: Drop, N: Network<F>, S: Service<F>, O: Observer<F, S>> Parties<F, N, S, O> {
    // The service takes an event, and the observer sees it.
    fn deliver(&mut self, event: &Event<'_, F>) -> Attempt
        requires { Fits (S.takes self.old.service) (event_view event.now) }
        ensures network { self.new.network ≡ self.old.network }
        ensures took { (effect : Effect) × (S.turns self.new.service ≡ took (event_view event.now) effect ∷ S.turns self.old.service) }
        ensures tries { Tries (λ e. e ≡ event_view event.now) (S.turns self.old.service) result (S.turns self.new.service) }
        ensures setup { S.setup self.new.service ≡ S.setup self.old.service }
        ensures seen { O.seen self.new.observer ≡ event_view event.now ∷ O.seen self.old.observer }
    {
        match self.service.take(event) {
            Ok(outcome) => {
                self.observer
                    .see(event, Some(outcome), &self.service, self.now);
                Attempt::Taken(outcome)
            }
            Err(AllocError) => {
                self.observer.see(event, None, &self.service, self.now);
                Attempt::Memory
            }
        }
    }

    /// Waits. That the server is to end is an event, and is kept.
    pub(crate) fn wait(
        &mut self,
        most: u64,
        is_ending: &mut bool,
        ready: &mut Vec<Ready>,
    ) -> io::Result<()>
        ensures belongs { Belong (N.wire self.old.network) (S.turns self.old.service) (O.seen self.old.observer)
            → Belong (N.wire self.new.network) (S.turns self.new.service) (O.seen self.new.observer) }
        ensures goes_on { GoesOn N.setup S.turns S.setup self.old self.new }
        ensures kept { (places : List Bool) (is_up : Bool) → IsKept (N.wire self.old.network) places is_up is_ending.old
            → IsKept (N.wire self.new.network) places is_up is_ending.new }
    {
        match self.network.wait(most, ready) {
            Ok(waited) => {
                self.now = waited.now;
                if !waited.drains {
                    return Ok(());
                }
                *is_ending = true;
                self.deliver(&Event::Drain);
                Ok(())
            }
            Err(error) => Err(error),
        }
    }

    /// Accepts a connection in a place that is not open.
    pub(crate) fn accept(&mut self, k: usize, places: &mut Vec<bool>) -> Attempt
        requires closed { open_at (Place k) (N.wire self.old.network) ≡ false }
        requires within { k < length places.old.items }
        ensures belongs { Belong (N.wire self.old.network) (S.turns self.old.service) (O.seen self.old.observer)
            → Belong (N.wire self.new.network) (S.turns self.new.service) (O.seen self.new.observer) }
        ensures goes_on { GoesOn N.setup S.turns S.setup self.old self.new }
        ensures tries { Tries (λ e. (facts : F) × (e ≡ accepted k facts)) (S.turns self.old.service) result (S.turns self.new.service) }
        ensures count { length places.new.items ≡ length places.old.items }
        ensures kept { (is_up is_ending : Bool) → IsKept (N.wire self.old.network) places.old.items is_up is_ending
            → IsKept (N.wire self.new.network) places.new.items is_up is_ending }
    {
        match self.network.accept(k) {
            Ok(facts) => {
                put_place(places, k, true);
                self.deliver(&Event::Accepted(k, &facts))
            }
            Err(error) => self.failed(Failed::Accept, error),
        }
    }

    /// Connects the stream of updates, which is not open.
    pub(crate) fn connect(&mut self, is_up: &mut bool) -> Attempt
        requires { open_at Updates (N.wire self.old.network) ≡ false }
        ensures belongs { Belong (N.wire self.old.network) (S.turns self.old.service) (O.seen self.old.observer)
            → Belong (N.wire self.new.network) (S.turns self.new.service) (O.seen self.new.observer) }
        ensures goes_on { GoesOn N.setup S.turns S.setup self.old self.new }
        ensures tries { Tries (λ e. e ≡ connected) (S.turns self.old.service) result (S.turns self.new.service) }
        ensures kept { (places : List Bool) (is_ending : Bool) → IsKept (N.wire self.old.network) places is_up.old is_ending
            → IsKept (N.wire self.new.network) places is_up.new is_ending }
    {
        match self.network.connect() {
            Ok(()) => {
                *is_up = true;
                self.deliver(&Event::Connected)
            }
            Err(error) => self.failed(Failed::Connect, error),
        }
    }

    /// Reads an open stream once. The service takes what was read.
    pub(crate) fn read(&mut self, stream: Stream, room: &mut [u8]) -> Attempt
        requires { open_at stream (N.wire self.old.network) ≡ true }
        ensures belongs { Belong (N.wire self.old.network) (S.turns self.old.service) (O.seen self.old.observer)
            → Belong (N.wire self.new.network) (S.turns self.new.service) (O.seen self.new.observer) }
        ensures goes_on { GoesOn N.setup S.turns S.setup self.old self.new }
        ensures tries { Tries (λ e. (bytes : List ℕ) × (e ≡ received stream bytes)) (S.turns self.old.service) result
            (S.turns self.new.service) }
        ensures kept { (places : List Bool) (is_up is_ending : Bool) → IsKept (N.wire self.old.network) places is_up is_ending
            → IsKept (N.wire self.new.network) places is_up is_ending }
    {
        let most = self.service.room(stream).min(room.len());
        if most == 0 {
            return Attempt::Blocked;
        }
        let part = &mut room[..most];
        match self.network.read(stream, part) {
            Ok(count) => {
                if count == 0 {
                    return Attempt::Ended;
                }
                self.deliver(&Event::Received(stream, &part[..count]))
            }
            Err(error) => attempt_of(&error),
        }
    }

    /// Writes once to an open stream what waits for it. Returns how many bytes the stream took, or why it took none.
    pub(crate) fn write(&mut self, stream: Stream) -> Result<usize, Attempt>
        requires { open_at stream (N.wire self.old.network) ≡ true }
        ensures belongs { Belong (N.wire self.old.network) (S.turns self.old.service) (O.seen self.old.observer)
            → Belong (N.wire self.new.network) (S.turns self.new.service) (O.seen self.new.observer) }
        ensures goes_on { GoesOn N.setup S.turns S.setup self.old self.new }
        ensures writes { Writes stream (S.turns self.old.service) result (S.turns self.new.service) }
        ensures kept { (places : List Bool) (is_up is_ending : Bool) → IsKept (N.wire self.old.network) places is_up is_ending
            → IsKept (N.wire self.new.network) places is_up is_ending }
    {
        match self.network.write(stream, self.service.unsent(stream)) {
            Ok(count) => {
                self.service.sent(stream, count);
                Ok(count)
            }
            Err(error) => Err(attempt_of(&error)),
        }
    }

    /// Closes the open connection in a place.
    pub(crate) fn close(&mut self, k: usize, reason: CloseReason, places: &mut Vec<bool>)
        requires open { open_at (Place k) (N.wire self.old.network) ≡ true }
        requires within { k < length places.old.items }
        ensures belongs { Belong (N.wire self.old.network) (S.turns self.old.service) (O.seen self.old.observer)
            → Belong (N.wire self.new.network) (S.turns self.new.service) (O.seen self.new.observer) }
        ensures goes_on { GoesOn N.setup S.turns S.setup self.old self.new }
        ensures closes { (effect : Effect) × (S.turns self.new.service ≡ took (closed (Place k)) effect ∷ S.turns self.old.service) }
        ensures wire { N.wire self.new.network ≡ event (closed (Place k)) ∷ N.wire self.old.network }
        ensures count { length places.new.items ≡ length places.old.items }
        ensures kept { (is_up is_ending : Bool) → IsKept (N.wire self.old.network) places.old.items is_up is_ending
            → IsKept (N.wire self.new.network) places.new.items is_up is_ending }
    {
        self.network.close(Stream::Place(k));
        put_place(places, k, false);
        self.deliver(&Event::Closed(Stream::Place(k), reason));
    }

    /// Closes the stream of updates, which is open.
    pub(crate) fn disconnect(&mut self, reason: CloseReason, is_up: &mut bool)
        requires { open_at Updates (N.wire self.old.network) ≡ true }
        ensures belongs { Belong (N.wire self.old.network) (S.turns self.old.service) (O.seen self.old.observer)
            → Belong (N.wire self.new.network) (S.turns self.new.service) (O.seen self.new.observer) }
        ensures goes_on { GoesOn N.setup S.turns S.setup self.old self.new }
        ensures closes { (effect : Effect) × (S.turns self.new.service ≡ took (closed Updates) effect ∷ S.turns self.old.service) }
        ensures wire { N.wire self.new.network ≡ event (closed Updates) ∷ N.wire self.old.network }
        ensures kept { (places : List Bool) (is_ending : Bool) → IsKept (N.wire self.old.network) places is_up.old is_ending
            → IsKept (N.wire self.new.network) places is_up.new is_ending }
    {
        self.network.close(Stream::Updates);
        *is_up = false;
        self.deliver(&Event::Closed(Stream::Updates, reason));
    }

    /// Tells the other end of an open stream that nothing more is written.
    pub(crate) fn finish(&mut self, stream: Stream)
        requires { open_at stream (N.wire self.old.network) ≡ true }
        ensures wire { N.wire self.new.network ≡ N.wire self.old.network }
        ensures setup { N.setup self.new.network ≡ N.setup self.old.network }
        ensures service { self.new.service ≡ self.old.service }
        ensures observer { self.new.observer ≡ self.old.observer }
    {
        self.network.finish(stream);
    }

    // Reports to the observer what failed, unless it may be tried again.
    fn failed(&mut self, failed: Failed, error: io::Error) -> Attempt
        ensures none { AddsNone result }
        ensures network { self.new.network ≡ self.old.network }
        ensures service { self.new.service ≡ self.old.service }
        ensures seen { O.seen self.new.observer ≡ O.seen self.old.observer }
    {
        let attempt = attempt_of(&error);
        if attempt == Attempt::Lost {
            self.observer.failed(failed, error);
        }
        attempt
    }
}
