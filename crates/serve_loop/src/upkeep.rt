//! What is done between the turns of a server.
ghost use Rattle.std.specs.Prelude.{◌≡◌};

use crate::network::Network;
use crate::observer::Observer;
use crate::service::Service;

/// What is done between turns: at an admin port, in logs. It adds nothing to the histories of a server.
pub trait Upkeep<F, N: Network<F>, S: Service<F>, O: Observer<F, S>> {
    /// It is done once, at this time.
    fn turn(&mut self, network: &mut N, service: &S, observer: &mut O, now: u64)
        ensures wire { N.wire network.new ≡ N.wire network.old }
        ensures setup { N.setup network.new ≡ N.setup network.old }
        ensures seen { O.seen observer.new ≡ O.seen observer.old };
}
