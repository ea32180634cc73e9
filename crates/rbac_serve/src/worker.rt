//! A client of an update stream, and the places of connections.

ghost use Rattle.std.specs.List.{AllByRecursion};
ghost use Rattle.ads.specs.Ends.{client_view};
ghost use Rattle.rbac_serve.specs.Tables.{FitsFor, sessions_of, state_of};
ghost use Rattle.rbac_serve.specs.Turns.{IsReached};

use crate::connection::ConnectionState;
use crate::outbox::Outbox;
use ads::Client;
use std::alloc::Global;

/// One update stream and any number of connections, and the bytes that wait to be sent on each. It has no socket: bytes
/// go in, and what waits is written to the stream that the caller names.
#[derive(Drop)]
pub struct Worker {
    pub(crate) alloc: Global,
    pub(crate) client: Client,
    pub(crate) connections: Vec<ConnectionState>,
    pub(crate) requests: Outbox,
    ghost fits: { ∥ AllByRecursion (FitsFor (client_view client).config.limits) (sessions_of connections.items) ∥₁ },
    ghost reached: { ∥ IsReached (state_of client connections.items requests) ∥₁ },
}
