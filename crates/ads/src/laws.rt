//! Laws of answers, and of both ends of an update stream.

ghost use Rattle.std.specs.Prelude.{◌≡◌, List, [], is_none};
ghost use Rattle.proto_wire.specs.Values.{last_of};
ghost use Rattle.proto_wire.specs.declared.refusal.Refusal.{Refusal};
ghost use Rattle.xds_wire.specs.Discovery.{ResponseMessage};
ghost use Rattle.ads.specs.Answer.{Accepted, Accepts, Refuses};
ghost use Rattle.ads.specs.Config.{ConfigValue};
ghost use Rattle.ads.specs.Control.{ControlValue, ResourceValue, new_control};
ghost use Rattle.ads.specs.Serve.{Call, Calls, Serve, numbers_of, replies_of, streams_of};
ghost use Rattle.ads.specs.Schedules.{AreInStep, Joined, Runs, new_joined};

/// No response is both accepted and refused.
pub fn answer_disjoint()
    ensures { (c : ConfigValue) (response : ResponseMessage) (old new : Accepted) (e : Refusal)
        → Accepts c response old new → Refuses c response e → ⊥ }
{}

/// Whatever bytes a new control plane receives, and whichever streams are lost, its results follow from the complete
/// lists of its streams' requests. These results are the bytes sent, whether its stream is broken, and the numbers
/// recorded. The last acknowledged number is the last one recorded.
pub fn control_serves()
    ensures { (snapshots : List (List ResourceValue)) (calls : List Call) (end : ControlValue)
        → Calls (new_control snapshots) calls end
        → Serve snapshots (streams_of [] calls) (replies_of calls) (is_none end.stream) (numbers_of calls)
        × (end.served.acknowledged ≡ last_of (numbers_of calls)) }
{}

/// A new client and a new control plane take any steps. Streams open, carry bytes in pieces of any length, and are
/// lost. Then the recorded numbers never fall, and are among the versions that the client accepted, in the same order.
/// The client's version is the last recorded number or a later one.
pub fn schedules()
    ensures { (c : ConfigValue) (snapshots : List (List ResourceValue)) (states : List Joined) (end : Joined)
        → Runs (new_joined c snapshots) states end → AreInStep end }
{}
