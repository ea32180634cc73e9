//! Laws of threads, and of requests that are made once.

ghost use denote.Param.Send.{IsSend};
ghost use Rattle.std.specs.Prelude.{◌≡◌, ◌≢◌, ℕ, List, Some};
ghost use Rattle.attributes.specs.Limits.{AreLimits};
ghost use Rattle.attributes.specs.Request.{RequestValue};
ghost use Rattle.c_inputs.specs.Facts.{AreAccepted, facts_given};
ghost use Rattle.c_inputs.specs.declared.facts.FactsInput.{FactsInput};
ghost use Rattle.c_inputs.specs.declared.request.RequestInput.{RequestInput};
ghost use Rattle.rbac_policy.specs.Admitted.{limits_view};
ghost use Rattle.rbac_policy.specs.declared.filter.Admitted.{Admitted};
ghost use Rattle.vupresal_c.specs.Decisions.{AsksByHead, AsksByParts, HeadFailsFor, IsDecision, PartsFailFor};
ghost use Rattle.vupresal_c.specs.Kept.{AsksForHeld, RequestFailsFor};
ghost use Rattle.vupresal_c.specs.Making.{HeadMakesNone, IsOfHead, IsOfParts, PartsMakeNone};
ghost use Rattle.vupresal_c.specs.contracts.connection.Connection.{the_row as connection_row};
ghost use Rattle.vupresal_c.specs.contracts.filter.Filter.{the_row as filter_row};
ghost use Rattle.vupresal_c.specs.contracts.made_request.MadeRequest.{the_row as request_row};
ghost use Rattle.vupresal_c.specs.contracts.proxy.Proxy.{the_row as proxy_row};
ghost use Rattle.vupresal_c.specs.contracts.set.Set.{the_row as set_row};
ghost use Rattle.vupresal_c.specs.declared.decision.Decision.{Decision};
ghost use Rattle.vupresal_c.specs.declared.fault.Fault.{Fault as FaultValue};

/// Any thread may have a handle.
pub fn handles_cross_threads()
    ensures filter { IsSend filter_row }
    ensures proxy { IsSend proxy_row }
    ensures connection { IsSend connection_row }
    ensures request { IsSend request_row }
    ensures set { IsSend set_row }
{}

/// What a filter decides on a request that was made of its parts is what it decides by the parts. A fault beside it is one of the
/// parts for that filter, and so is one for which no request is made.
pub fn made_of_parts_decides_as_parts()
    ensures decision { (request : RequestInput) (given : FactsInput) (a : Admitted)
        (r : RequestValue) (d : Decision) → AreAccepted given → IsOfParts request (facts_given given) r
        → IsDecision (AsksForHeld (Some r)) a d → IsDecision (AsksByParts request given) a d }
    ensures fault { (request : RequestInput) (given : FactsInput) (a : Admitted)
        (r : RequestValue) (e : FaultValue) → IsOfParts request (facts_given given) r
        → RequestFailsFor a r e → PartsFailFor request given a e }
    ensures unmade { (request : RequestInput) (given : FactsInput) (a : Admitted)
        (e : FaultValue) → AreLimits (limits_view a) → PartsMakeNone request (facts_given given) e
        → PartsFailFor request given a e }
{}

/// The same for a request that was made of its head.
pub fn made_of_head_decides_as_head()
    ensures decision { (head : List ℕ) (given : FactsInput) (a : Admitted)
        (r : RequestValue) (d : Decision) → AreAccepted given → IsOfHead head (facts_given given) r
        → IsDecision (AsksForHeld (Some r)) a d → IsDecision (AsksByHead head given) a d }
    ensures fault { (head : List ℕ) (given : FactsInput) (a : Admitted)
        (r : RequestValue) (e : FaultValue) → IsOfHead head (facts_given given) r
        → RequestFailsFor a r e → HeadFailsFor head given a e }
    ensures unmade { (head : List ℕ) (given : FactsInput) (a : Admitted)
        (e : FaultValue) → AreLimits (limits_view a) → HeadMakesNone head (facts_given given) e
        → HeadFailsFor head given a e }
{}
