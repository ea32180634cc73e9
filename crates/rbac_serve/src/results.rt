//! The results of a worker's calls.

use ads::{Ended, Judgement};
use proxy_core::AnsweredAsk;

/// The result of bytes of a connection.
#[derive(Debug, Drop)]
pub struct Answered {
    /// What was asked and answered, in order.
    pub answered_asks: Vec<AnsweredAsk>,
    /// Whether the connection is to be closed once the answers were sent.
    pub closes: bool,
}

/// The result of bytes of the update stream.
#[derive(Debug, Drop)]
pub struct Fed {
    /// How many of the bytes were taken.
    pub count: usize,
    /// The judgement of the response that they complete; none if they complete none.
    pub judgements: Vec<Judgement>,
    /// Why the stream is to be closed once the answer was sent. None if it goes on, or none is up.
    pub ended: Option<Ended>,
}
