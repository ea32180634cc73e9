//! What a server serves.
ghost use Rattle.std.specs.Prelude.{◌≡◌, [], IfOk, option_map};
ghost use Rattle.ads.specs.Ends.{client_view};
ghost use Rattle.rbac_serve.specs.Workers.{worker_view};
ghost use Rattle.serve_core.specs.ClientRequests.{rule_view};
ghost use Rattle.serve_core.specs.Served.{served_core, served_setup, served_takes, served_turns};
ghost use Rattle.serve_core.specs.Setups.{SetupValue};

use crate::mapped_service::MappedService;
use crate::rule::MappingRule;
use crate::worker_service::WorkerService;
use ads::{Client, Config};
use attributes::Conn;
use serve_loop::{Event, Outcome, Service, Stream};
use std::alloc::{AllocError, Global};

/// What a server serves.
#[derive(Drop)]
pub enum Served<'m> {
    /// Requests are judged as they were sent.
    AsSent(WorkerService),
    /// Requests are those of front proxies, and each gives that of a client.
    Mapped(MappedService<'m>),
}

impl<'m> Served<'m> {
    /// A service with so many places, to which nothing has happened. Without a rule, requests are judged as they were
    /// sent.
    pub fn new(
        alloc: Global,
        config: &Config,
        places: usize,
        rule: Option<MappingRule<'m>>,
    ) -> Result<Served<'m>, AllocError>
        ensures turns { IfOk result (λ s. served_turns s ≡ []) }
        ensures setup { IfOk result (λ s. served_setup s ≡ record {
          config = config.now;
          places = places;
          rule = option_map rule_view rule.entry;
        }) }
    {
        match rule {
            Some(rule) => {
                let mapped = MappedService::new(alloc, config, places, rule)?;
                Ok(Served::Mapped(mapped))
            }
            None => {
                let core = WorkerService::new(alloc, config, places)?;
                Ok(Served::AsSent(core))
            }
        }
    }

    /// The core.
    pub fn core(&self) -> &WorkerService
        ensures { result.now ≡ served_core self.now }
    {
        match self {
            Served::AsSent(core) => core,
            Served::Mapped(mapped) => mapped.core(),
        }
    }

    /// The client of the update stream.
    pub fn client(&self) -> &Client
        ensures { client_view result.now ≡ (worker_view (served_core self.now).worker).core.client }
    {
        self.core().client()
    }
}

impl Service<Conn> for Served<'_> {
    ghost turns = { served_turns };

    ghost Setup = { SetupValue };

    ghost setup = { served_setup };

    ghost places = { λ (setup : SetupValue). setup.places };

    ghost takes = { served_takes };

    fn room(&self, stream: Stream) -> usize {
        match self {
            Served::AsSent(service) => service.room(stream),
            Served::Mapped(service) => service.room(stream),
        }
    }

    fn take(&mut self, event: &Event<'_, Conn>) -> Result<Outcome, AllocError> {
        match self {
            Served::AsSent(service) => service.take(event),
            Served::Mapped(service) => service.take(event),
        }
    }

    fn unsent(&self, stream: Stream) -> &[u8] {
        match self {
            Served::AsSent(service) => service.unsent(stream),
            Served::Mapped(service) => service.unsent(stream),
        }
    }

    fn sent(&mut self, stream: Stream, count: usize) {
        match self {
            Served::AsSent(service) => service.sent(stream, count),
            Served::Mapped(service) => service.sent(stream, count),
        }
    }
}
