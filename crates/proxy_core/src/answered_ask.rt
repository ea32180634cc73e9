//! An ask of a connection, with its answer.

use http_front::{Ask, Reply};

/// An ask, and its answer.
#[derive(Debug, Drop)]
pub struct AnsweredAsk {
    /// The ask.
    pub ask: Ask,
    /// The answer.
    pub reply: Reply,
}
