//! A worker as a service of the loop.
ghost use Rattle.std.specs.Prelude.{◌≡◌, ◌≢◌, ◌<◌, ◌↔◌, [], take, IfOk, IsTrue};
ghost use Rattle.ads.specs.Ends.{client_view};
ghost use Rattle.proxy_core.specs.Step.{front_at};
ghost use Rattle.rbac_serve.specs.Tables.{IsFresh, new_worker};
ghost use Rattle.rbac_serve.specs.Workers.{worker_view};
ghost use Rattle.serve_core.specs.OtherProtocols.{ShowsLast, updates_of};
ghost use Rattle.serve_core.specs.Turns.{IsDriven, Waits};

use crate::last_event::LastEvent;
use crate::other_protocol::FirstBytes;
use ads::{Client, Config};
use attributes::Conn;
use rbac_serve::Worker;
use serve_trace::Trace;
use std::alloc::{AllocError, Global};

/// A worker that takes the events of a loop. Each event is a step of the core, and what waits is what the core answered
/// and was not sent yet.
#[derive(Drop)]
pub struct WorkerService {
    pub(crate) alloc: Global,
    pub(crate) worker: Worker,
    /// How many bytes of the update stream it takes: none while a request waits.
    pub(crate) room: usize,
    pub(crate) first: FirstBytes,
    pub(crate) last: LastEvent,
    pub(crate) trace: Trace<Conn>,
    ghost driven: { ∥ IsDriven trace.turns (worker_view worker) ∥₁ },
    ghost waits: { ∥ Waits trace.turns (worker_view worker) ∥₁ },
    ghost first_is: { ∥ first ≡ take 9 (updates_of trace.turns) ∥₁ },
    ghost shows: { ∥ ShowsLast trace.turns last.other_protocol ∥₁ },
    ghost roomy: { ∥ (0 < room → (worker_view worker).requests ≡ []) ∥₁ },
}

impl WorkerService {
    /// A worker with so many places, to which nothing has happened.
    pub fn new(alloc: Global, config: &Config, places: usize) -> Result<WorkerService, AllocError>
        ensures { IfOk result (λ s. (s.trace.turns ≡ []) × (worker_view s.worker ≡ new_worker places config.now)) }
    {
        let worker = Worker::new(alloc, config, places)?;
        let first = FirstBytes::new();
        let room = room_of(&worker, &first);
        Ok(WorkerService {
            alloc,
            worker,
            room,
            first,
            last: LastEvent::quiet(alloc),
            trace: Trace::new(),
        })
    }

    /// The client of the update stream.
    pub fn client(&self) -> &Client
        ensures { client_view result.now ≡ (worker_view self.now.worker).core.client }
    {
        self.worker.client()
    }

    /// Whether the connection in place `k` is as one that was just opened: each of its bytes belongs to a request that was
    /// answered.
    pub fn is_fresh(&self, k: usize) -> bool
        ensures { IsTrue result ↔ IsFresh (front_at (worker_view self.now.worker).core k) }
    {
        self.worker.is_fresh(k)
    }

    /// What the last event led to.
    pub fn last(&self) -> &LastEvent
        ensures last { result.now ≡ self.now.last }
        ensures other { ∥ ShowsLast self.now.trace.turns result.now.other_protocol ∥₁ }
    {
        &self.last
    }
}

/// How many bytes of the update stream are taken: none while a request waits, and otherwise so many as complete at most
/// one message. A stream's first bytes are taken together, since they show another protocol.
pub(crate) fn room_of(worker: &Worker, first: &FirstBytes) -> usize
    ensures waits { (worker_view worker.now).requests ≢ [] → result ≡ 0 }
    ensures some { (worker_view worker.now).requests ≡ [] → 0 < result }
{
    match worker.room() {
        0 => 0,
        room => room.max(first.lacks()),
    }
}
