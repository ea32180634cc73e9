//! The core after front proxies, as a service of the loop.
ghost use Rattle.std.specs.Prelude.{◌≡◌, [], ◌∷◌, IfOk};
ghost use Rattle.serve_loop.specs.Events.{event_view};
ghost use Rattle.serve_loop.specs.History.{answered, took};
ghost use Rattle.rbac_serve.specs.Tables.{new_worker};
ghost use Rattle.rbac_serve.specs.Workers.{worker_view};
ghost use Rattle.serve_core.specs.ClientRequests.{rule_view};
ghost use Rattle.serve_core.specs.Fronts.{AreMatched, FrontsRun, WaitsIn, fronts_view};
ghost use Rattle.serve_core.specs.Turns.{room_for};

use crate::front_answer::FrontAnswer;
use crate::fronts::{Fronts, free_places};
use crate::rule::MappingRule;
use crate::worker_service::WorkerService;
use ads::Config;
use attributes::Conn;
use serve_loop::{Event, Outcome, Service, Stream};
use serve_trace::{Note, Trace};
use std::alloc::{AllocError, Global};

/// A service whose requests are those of front proxies. Each gives that of a client, which the core judges.
#[derive(Drop)]
pub struct MappedService<'m> {
    fronts: Fronts<'m>,
    trace: Trace<Conn>,
    ghost run: { ∥ FrontsRun (rule_view fronts.rule) trace.turns (fronts_view fronts) ∥₁ },
    ghost waits: { ∥ WaitsIn trace.turns (fronts_view fronts) ∥₁ },
    ghost matched: { AreMatched (fronts_view fronts) },
}

impl<'m> MappedService<'m> {
    /// A service with so many places, to which nothing has happened.
    pub fn new(
        alloc: Global,
        config: &Config,
        places: usize,
        rule: MappingRule<'m>,
    ) -> Result<MappedService<'m>, AllocError>
        ensures turns { IfOk result (λ s. s.trace.turns ≡ []) }
        ensures core { IfOk result (λ s. worker_view s.fronts.core.worker ≡ new_worker places config.now) }
        ensures rule { IfOk result (λ s. rule_view s.fronts.rule ≡ rule_view rule.entry) }
    {
        let core = WorkerService::new(alloc, config, places)?;
        let connections = free_places(alloc, places)?;
        let answers = Vec::new(alloc);
        Ok(MappedService {
            fronts: Fronts {
                alloc,
                rule,
                core,
                connections,
                answers,
            },
            trace: Trace::new(),
        })
    }

    /// The core.
    pub fn core(&self) -> &WorkerService
        ensures { result.now ≡ self.now.fronts.core }
    {
        &self.fronts.core
    }

    /// The answers to the requests that the last event completed, in order.
    pub fn answers(&self) -> &[FrontAnswer]
        ensures { result.now ≡ self.now.fronts.answers.items }
    {
        &self.fronts.answers
    }
}

// The turns and one more: the event was answered by these bytes.
fn with_answer(
    trace: &Trace<Conn>,
    event: &Event<'_, Conn>,
    added: &[u8],
    closes: bool,
) -> Trace<Conn>
    ensures { result.turns ≡ took (event_view event.now) (answered added.now closes) ∷ trace.now.turns }
{
    trace.then(&Note::Answered(event, added, closes))
}

impl Service<Conn> for MappedService<'_> {
    ghost use Rattle.std.specs.Prelude.{Some};
    ghost use Rattle.serve_core.specs.Setups.{SetupValue, setup_of};

    ghost turns = { λ s. s.trace.turns };

    ghost Setup = { SetupValue };

    ghost setup = { λ s. setup_of (worker_view s.fronts.core.worker) (Some (rule_view s.fronts.rule)) };

    ghost places = { λ (setup : SetupValue). setup.places };

    ghost takes = { λ s stream. room_for stream s.fronts.core.room };

    fn room(&self, stream: Stream) -> usize {
        match stream {
            Stream::Place(_) => usize::MAX,
            Stream::Updates => self.fronts.core.room,
        }
    }

    fn take(&mut self, event: &Event<'_, Conn>) -> Result<Outcome, AllocError> {
        self.fronts.answers = Vec::new(self.fronts.alloc);
        let before = self.fronts.waiting_before(event);
        match self.fronts.happen(event) {
            Ok(outcome) => {
                let added = self.fronts.added(event, before);
                self.trace = with_answer(&self.trace, event, added, outcome.closes);
                Ok(outcome)
            }
            Err(error) => {
                self.trace = self.trace.then(&Note::Took(event));
                Err(error)
            }
        }
    }

    fn unsent(&self, stream: Stream) -> &[u8] {
        self.fronts.unsent(stream)
    }

    fn sent(&mut self, stream: Stream, count: usize) {
        let sent = &self.fronts.unsent(stream)[..count];
        self.trace = self.trace.then(&Note::Sent(stream, sent));
        self.fronts.sent(stream, count);
    }
}
