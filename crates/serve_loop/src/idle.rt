//! Which connection is idle for the longest time.
ghost use Rattle.std.specs.Prelude.{map};
ghost use Rattle.serve_loop.specs.Earliest.{IsEarliest};
ghost use Rattle.serve_loop.specs.Idle.{idle_since};

use crate::connection::Connection;
use crate::times::earlier;

/// The place of the connection that is idle for the longest time; none if none is idle.
pub(crate) fn longest_idle(connections: &[Connection]) -> Option<usize>
    ensures { IsEarliest (map idle_since connections.now) result }
{
    let mut found: Option<(usize, u64)> = None;
    for k in 0..connections.len() {
        found = earlier(found, k, connections[k].idle_since());
    }
    match found {
        Some((k, _)) => Some(k),
        None => None,
    }
}
