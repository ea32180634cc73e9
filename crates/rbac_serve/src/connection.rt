//! A connection of a worker: its session, and the answers that wait.

use crate::outbox::Outbox;
use proxy_core::Session;

/// The place of a connection: the session of the one that is open there, and the answers that wait to be sent.
#[derive(Drop)]
pub(crate) struct ConnectionState {
    pub(crate) session: Option<Session>,
    pub(crate) outbox: Outbox,
}
