//! The turns of a worker that is the service of a loop.
ghost use Rattle.std.specs.Prelude.{◌≡◌, ◌≤◌, length, take, IfOk, MatchResult, None};
ghost use Rattle.rbac_serve.specs.Workers.{worker_view};
ghost use Rattle.serve_loop.specs.Events.{event_view};
ghost use Rattle.serve_loop.specs.History.{Fits, answered, gave, no_memory, took, waiting_at};
ghost use Rattle.serve_core.specs.Cores.{Tells, Turns, core_view};
ghost use Rattle.serve_core.specs.Setups.{SetupValue, setup_of};
ghost use Rattle.serve_core.specs.Turns.{added_by, bytes_taken, kept_before, room_for, worker_room};

use crate::events::{added, happen, sent_of, unsent_of, waiting_before};
use crate::last_event::LastEvent;
use crate::worker_service::{WorkerService, room_of};
use attributes::Conn;
use proxy_core::AnsweredAsk;
use serve_loop::{Event, Outcome, Service, Stream};
use serve_trace::Note;
use std::alloc::AllocError;
use std::mem;

impl WorkerService {
    /// What was asked and answered at the last event, in order. It is taken out of it.
    pub(crate) fn take_answered_asks(&mut self) -> Vec<AnsweredAsk>
        ensures asks { result.items ≡ self.old.last.answered_asks.items }
        ensures core { core_view self.new ≡ core_view self.old }
    {
        mem::replace(&mut self.last.answered_asks, Vec::new(self.alloc))
    }

    /// It takes an event, as a turn of the worker. The only error is out of memory. After it nothing waits for the stream of
    /// the event, which is to be closed.
    pub(crate) fn step(&mut self, event: &Event<'_, Conn>) -> Result<Outcome, AllocError>
        requires { Fits (λ s. room_for s self.old.room) (event_view event.now) }
        ensures turn { MatchResult result
            (λ outcome. Turns (core_view self.old) (took (event_view event.now) (answered (added_by (event_view event.now)
            (kept_before (event_view event.now) (worker_view self.old.worker)) (worker_view self.new.worker)) outcome.closes))
            (core_view self.new))
            (λ _. Turns (core_view self.old) (took (event_view event.now) no_memory) (core_view self.new)) }
        ensures tells { IfOk result (λ _. Tells (event_view event.now) (worker_view self.old.worker) self.new.last
            (worker_view self.new.worker)) }
    {
        self.last = LastEvent::quiet(self.alloc);
        self.last.other_protocol = self.first.take(event);
        let before = waiting_before(&self.worker, event);
        match happen(&mut self.worker, event, &mut self.last) {
            Ok(outcome) => {
                self.room = room_of(&self.worker, &self.first);
                self.trace = self.trace.then(&Note::Answered(
                    event,
                    added(&self.worker, event, before),
                    outcome.closes,
                ));
                Ok(outcome)
            }
            Err(error) => {
                self.room = room_of(&self.worker, &self.first);
                self.trace = self.trace.then(&Note::Took(event));
                Err(error)
            }
        }
    }

    /// The first bytes of those that wait for the stream were sent.
    pub(crate) fn give(&mut self, stream: Stream, count: usize)
        requires { count ≤ length (waiting_at stream self.old.trace.turns) }
        ensures { Turns (core_view self.old) (gave stream (take count (waiting_at stream self.old.trace.turns)))
            (core_view self.new) }
    {
        self.trace = self.trace.then(&Note::Sent(
            stream,
            &unsent_of(&self.worker, stream)[..count],
        ));
        sent_of(&mut self.worker, stream, count);
        self.room = room_of(&self.worker, &self.first);
    }
}

impl Service<Conn> for WorkerService {
    ghost turns = { λ s. s.trace.turns };

    ghost Setup = { SetupValue };

    ghost setup = { λ s. setup_of (worker_view s.worker) None };

    ghost places = { λ (setup : SetupValue). setup.places };

    ghost takes = { λ s. worker_room (worker_view s.worker) s.room };

    fn room(&self, stream: Stream) -> usize {
        match stream {
            Stream::Place(k) => bytes_taken(self.worker.rest_of_body(k)),
            Stream::Updates => self.room,
        }
    }

    fn take(&mut self, event: &Event<'_, Conn>) -> Result<Outcome, AllocError> {
        self.step(event)
    }

    fn unsent(&self, stream: Stream) -> &[u8] {
        unsent_of(&self.worker, stream)
    }

    fn sent(&mut self, stream: Stream, count: usize) {
        self.give(stream, count);
    }
}

// How many bytes of a connection are taken at once amid a body: less than 16 KiB. By that a network knows a read of a body.
const BODY_ROOM: u64 = 16_383;

// How many bytes of a connection are taken at once: of a body no more than is left. So the next request begins with
// another event, and the connection is fresh between the two.
fn bytes_taken(left: u64) -> usize
    ensures { result ≡ bytes_taken left }
{
    if left == 0 {
        return usize::MAX;
    }
    left.min(BODY_ROOM) as usize
}
