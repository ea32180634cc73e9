//! The core of a proxy.

ghost use Rattle.std.specs.List.{AllByRecursion};
ghost use Rattle.ads.specs.Ends.{client_view};
ghost use Rattle.proxy_core.specs.private.Fronts.{IsOpenFor};

use ads::Client;
use http_front::Front;
use std::alloc::Global;

/// The core of a proxy: one update stream, and up to eight connections. Events go in by `step`, and what is to be sent
/// is returned.
#[derive(Drop)]
pub struct Proxy {
    pub(crate) alloc: Global,
    pub(crate) client: Client,
    pub(crate) conns: [Option<Front>; 8],
    ghost fronts: { ∥ AllByRecursion (IsOpenFor (client_view client).config.limits) conns ∥₁ },
}
