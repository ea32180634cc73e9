//! Laws of whole runs.

ghost use Rattle.std.specs.Prelude.{◌≡◌, ◌<◌, ℕ, List};
ghost use Rattle.std.specs.List.{AllZip};
ghost use Rattle.ads.specs.Config.{ConfigValue};
ghost use Rattle.proxy_core.specs.Step.{CallsDo, EventCall, ProxyValue, events_of, front_at, new_proxy, new_with, outputs_of};
ghost use Rattle.proxy_core.specs.Worker.{calls_at};
ghost use Rattle.proxy_core.specs.Acknowledging.{HasLast};
ghost use Rattle.proxy_core.specs.Headline.{Headline};
ghost use Rattle.proxy_core.specs.Run.{IsHistory, Moment, acknowledged_in};

/// The headline holds for the events that a new proxy is given, whatever they are, and for its outputs. An event for
/// which memory ran out counts as not given.
pub fn events()
    ensures { (c : ConfigValue) (calls : List EventCall) (end : ProxyValue) → CallsDo (new_proxy c) calls end
        → Headline c (events_of calls) (outputs_of calls) }
{}

/// In a history each filter has the rules that were last acknowledged. The last acknowledged response that has a
/// resource of the filter's name gave these rules, and its ACK was sent. If a filter has no rules, no such response
/// exists.
pub fn filters_have_what_was_acknowledged_last()
    ensures { (c : ConfigValue) (past : List Moment) → IsHistory c past
        → AllZip (HasLast c past) c.filters (acknowledged_in c past).policies }
{}

/// A worker has one update stream and any number of connections. On the stream and at one of the connections, it puts out
/// what a proxy with this connection alone puts out. It keeps the same, too. So the headline holds of it.
pub fn worker_is_a_proxy()
    ensures same { (c : ConfigValue) (n k : ℕ) (calls : List EventCall) (end : ProxyValue) → k < n
        → CallsDo (new_with n c) calls end
        → (last : ProxyValue) × CallsDo (new_proxy c) (calls_at k calls) last × (last.client ≡ end.client)
        × (front_at last 0 ≡ front_at end k) }
    ensures headline { (c : ConfigValue) (n k : ℕ) (calls : List EventCall) (end : ProxyValue) → k < n
        → CallsDo (new_with n c) calls end
        → Headline c (events_of (calls_at k calls)) (outputs_of (calls_at k calls)) }
{}
