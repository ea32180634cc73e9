//! Laws of a worker's turns.

ghost use Rattle.std.specs.Prelude.{◌≡◌, ◌<◌, ◌++◌, ℕ, List, [], length};
ghost use Rattle.ads.specs.Config.{ConfigValue};
ghost use Rattle.proxy_core.specs.Headline.{Headline};
ghost use Rattle.proxy_core.specs.Step.{CallsDo, ProxyValue, events_of, front_at, new_proxy, new_with, outputs_of};
ghost use Rattle.proxy_core.specs.Worker.{calls_at};
ghost use Rattle.rbac_serve.specs.Tables.{WorkerValue, new_worker, waiting_at};
ghost use Rattle.rbac_serve.specs.Turns.{Turn, TurnsDo, IsReached, after_all, answered_then, calls_of, requested_then, requests_sent_then, sent_then};
ghost use Rattle.rbac_serve.specs.Workers.{worker_view};

use crate::worker::Worker;

/// Whatever a worker was given, turns from a new worker lead to what it keeps.
pub fn a_worker_is_reached(worker: &Worker)
    ensures { ∥ IsReached (worker_view worker.now) ∥₁ }
{}

/// Each connection of a worker, with the update stream, is a run of a proxy in which it is alone. The outputs are the
/// same, and so is the state at the end. So the headline holds for the events that it saw and for their outputs.
pub fn each_connection_is_a_proxys()
    ensures calls { (c : ConfigValue) (n : ℕ) (turns : List Turn) (end : WorkerValue)
        → TurnsDo (new_worker n c) turns end → CallsDo (new_with n c) (calls_of turns) end.core }
    ensures same { (c : ConfigValue) (n k : ℕ) (turns : List Turn) (end : WorkerValue) → k < n
        → TurnsDo (new_worker n c) turns end
        → (last : ProxyValue) × CallsDo (new_proxy c) (calls_at k (calls_of turns)) last
        × (last.client ≡ end.core.client) × (front_at last 0 ≡ front_at end.core k) }
    ensures headline { (c : ConfigValue) (n k : ℕ) (turns : List Turn) (end : WorkerValue) → k < n
        → TurnsDo (new_worker n c) turns end
        → Headline c (events_of (calls_at k (calls_of turns))) (outputs_of (calls_at k (calls_of turns))) }
{}

/// What was sent on a connection, and after it what waits, is what the core answered there since the connection opened,
/// in order. The same holds of the update stream.
pub fn what_is_sent_was_answered()
    ensures answers { (c : ConfigValue) (n k : ℕ) (turns : List Turn) (end : WorkerValue) → k < n
        → TurnsDo (new_worker n c) turns end
        → after_all (answered_then k) [] turns ≡ after_all (sent_then k) [] turns ++ waiting_at k end.answers }
    ensures requests { (c : ConfigValue) (n : ℕ) (turns : List Turn) (end : WorkerValue)
        → TurnsDo (new_worker n c) turns end
        → after_all requested_then [] turns ≡ after_all requests_sent_then [] turns ++ end.requests }
{}
