//! The client of an update stream.

ghost use Rattle.std.specs.Prelude.{◌≡◌, length};
ghost use Rattle.std.specs.List.{AllZip};
ghost use Rattle.ads.specs.Client.{WasAdmitted};
ghost use Rattle.ads.specs.Views.{policies_view};

use crate::accepted::State;
use crate::config::Config;
use crate::ended::Ended;
use crate::judgement::Judgement;
use crate::stream::Stream;
use std::alloc::Global;

/// The result of a call with bytes of the stream.
#[derive(Debug, Drop)]
pub struct Fed {
    /// The bytes to send, in whole frames.
    pub replies: Vec<u8>,
    /// The judgements of the responses that were complete, in order.
    pub judgements: Vec<Judgement>,
    /// Whether no stream is up after the call.
    pub broken: bool,
    /// Why no stream is up after the call. None if one is up.
    pub ended: Option<Ended>,
}

/// A client that subscribes to the filters of a configuration, and keeps what it accepted for them (xDS, state of the
/// world). It has no socket: bytes of the stream go in, and bytes to send come out.
#[derive(Debug, Drop)]
pub struct Client {
    pub(crate) alloc: Global,
    pub(crate) config: Config,
    pub(crate) stream: Option<Stream>,
    pub(crate) accepted: State,
    ghost sized: { length accepted.policies.items ≡ length config.filters },
    ghost admitted: { ∥ AllZip (WasAdmitted config.limits) config.filters (policies_view accepted.policies.items) ∥₁ },
}
