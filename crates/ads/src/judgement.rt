//! The judgements of responses, for a log.

use cost_bound::Budget;
use proto_wire::Fault;

/// The judgement of a response.
#[derive(Debug, Drop)]
pub struct Judgement {
    /// The response's version.
    pub version: String,
    /// The response's nonce.
    pub nonce: String,
    /// Whether it is accepted.
    pub outcome: ResponseOutcome,
}

/// Whether a response is accepted.
#[derive(Debug, Drop)]
pub enum ResponseOutcome {
    /// It is accepted. Says for each filter, in configured order, whether the response gave it policies.
    Accepted(Vec<bool>),
    /// It is refused, for this reason.
    Refused(Refused),
}

/// Why a response is refused.
#[derive(Debug, Drop)]
pub struct Refused {
    /// The refusal. If a filter's message is not admitted, the place is the part of the message that has the fault.
    pub fault: Fault,
    /// The filter that is refused, by its place in the configuration. None if the response or a resource is wrong.
    pub filter: Option<usize>,
    /// The bytes of the filter's message, if it is not admitted; otherwise there are none.
    pub message: Vec<u8>,
    /// What the conditions before the fault leave of the filter's budget.
    pub left: Budget,
}
