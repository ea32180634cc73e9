//! Those who see what happens: metrics, logs, a record.
ghost use Rattle.std.specs.Prelude.{◌≡◌, List, ◌∷◌};
ghost use Rattle.serve_loop.specs.History.{EventValue};
ghost use Rattle.serve_loop.specs.Events.{event_view};

use crate::service::Outcome;
use crate::stream::Event;
use std::io;

/// An opening that failed.
#[derive(Clone, Copy, PartialEq, Eq, Debug)]
pub enum Failed {
    /// A connection that waited could not be accepted.
    Accept,
    /// The stream of updates could not be connected.
    Connect,
}

/// It sees each event after the service `S` took it, and has no effect on the service.
pub trait Observer<F, S>: Drop {
    /// The events that it saw, the newest first.
    ghost seen: { Self → List (EventValue F) };

    /// An event was taken at this time, with this outcome; none if memory ran out.
    fn see(&mut self, event: &Event<'_, F>, outcome: Option<Outcome>, service: &S, now: u64)
        ensures { seen self.new ≡ event_view event.now ∷ seen self.old };

    /// An opening failed for this cause. That is no event.
    fn failed(&mut self, failed: Failed, cause: io::Error)
        ensures { seen self.new ≡ seen self.old };
}
