//! What the last event of a service led to, for those who observe it.
ghost use Rattle.std.specs.Prelude.{◌≡◌, None};
ghost use Rattle.serve_core.specs.Cores.{IsQuiet};

use crate::other_protocol::OtherProtocol;
use ads::{Ended, Judgement};
use proxy_core::AnsweredAsk;
use std::alloc::Global;

/// What the last event led to.
#[derive(Debug, Drop)]
pub struct LastEvent {
    /// What was asked and answered, in order.
    pub answered_asks: Vec<AnsweredAsk>,
    /// The judgements of the responses that were completed.
    pub judgements: Vec<Judgement>,
    /// Why the update stream is to be closed. None if it goes on.
    pub ended: Option<Ended>,
    /// The other protocol that the update stream's bytes so far are of, if they are and the event is some of them.
    pub other_protocol: Option<OtherProtocol>,
}

impl LastEvent {
    /// Nothing was asked or judged. It takes no memory.
    pub(crate) fn quiet(alloc: Global) -> LastEvent
        ensures quiet { IsQuiet result }
        ensures none { result.other_protocol ≡ None }
    {
        LastEvent {
            answered_asks: Vec::new(alloc),
            judgements: Vec::new(alloc),
            ended: None,
            other_protocol: None,
        }
    }
}
