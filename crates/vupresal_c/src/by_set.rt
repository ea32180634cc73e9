//! Decisions of a set of filters.

ghost use Rattle.std.specs.Arc.{arc_value};
ghost use Rattle.std.specs.Prelude.{◌≡◌, ◌≢◌, Some, IfOk, IfErr, map};
ghost use Rattle.vupresal_c.specs.Handles.{filters_in, request_in};
ghost use Rattle.vupresal_c.specs.Sets.{IsSetAnswer, IsSetDecision, SetFails, refused_by_none, set_decision_of};
ghost use Rattle.vupresal_c.specs.Statuses.{done, status_of};
ghost use Rattle.vupresal_c.specs.declared.fault.Fault.{Fault as FaultValue};

use crate::by_request::decide_made;
use crate::decision::Decision;
use crate::fault::{Fault, OK};
use crate::made_request::MadeRequest;
use crate::set::Set;
use attributes::Request;
use rbac_policy::{Admitted, Verdict};
use std::alloc::Global;
use std::sync::Arc;

/// The decision of a set, and the number of the filter that made it, counted from 0 in the order in which they were added.
#[repr(C)]
#[derive(Drop)]
pub struct SetDecision {
    pub decision: Decision,
    pub filter: u64,
}

impl SetDecision {
    // The decision that refuses, and names no filter but the first.
    fn refused() -> SetDecision
        ensures { result ≡ refused_by_none }
    {
        SetDecision {
            decision: Decision::refused(),
            filter: 0,
        }
    }
}

// The filter that decides, and its verdict.
#[derive(Drop)]
struct Decider {
    number: usize,
    verdict: Verdict,
}

/// Gives the decision of the set on the request of a handle. Its filters are tried in order. The first that refuses the request
/// decides; if none refuses it, the last does. The status is 0, or 431 for a request outside the limits of a filter that is tried.
/// It is 19 or 20 without an answer, and -1 if the set or the request is empty. If it is not 0, the decision refuses. Both handles
/// stay as they are.
#[unsafe(no_mangle)]
pub extern "C" fn vupresal_set_decide(
    alloc: Global,
    set: &mut Set,
    made: &mut MadeRequest,
    decision: &mut SetDecision,
) -> i32
    ensures found { result ≡ done
        → IsSetDecision (filters_in set.old) (request_in made.old) decision.new }
    ensures fault { result ≢ done → (e : FaultValue)
        × SetFails (filters_in set.old) (request_in made.old) e × (result ≡ status_of e) }
    ensures refused { result ≢ done → decision.new ≡ refused_by_none }
    ensures kept { filters_in set.new ≡ filters_in set.old }
    ensures same { request_in made.new ≡ request_in made.old }
{
    match decide_held(alloc, set, made) {
        Ok(decider) => {
            *decision = SetDecision {
                decision: Decision::of(decider.verdict),
                filter: decider.number as u64,
            };
            OK
        }
        Err(fault) => {
            *decision = SetDecision::refused();
            fault.status()
        }
    }
}

// The verdict of the filters of a handle.
fn decide_held(alloc: Global, set: &mut Set, made: &mut MadeRequest) -> Result<Decider, Fault>
    ensures found { IfOk result (IsSetAnswer (filters_in set.old) (request_in made.old)) }
    ensures fault { IfErr result (SetFails (filters_in set.old) (request_in made.old)) }
    ensures kept { filters_in set.new ≡ filters_in set.old }
    ensures same { request_in made.new ≡ request_in made.old }
{
    let Some(chain) = set.take(alloc) else {
        return Err(Fault::Empty);
    };
    let answer = try_held(alloc, &chain.filters, made);
    set.put(chain);
    answer
}

// The verdict of the filters on the request of a handle.
fn try_held(
    alloc: Global,
    filters: &[Arc<Admitted>],
    made: &mut MadeRequest,
) -> Result<Decider, Fault>
    ensures found { IfOk result
        (IsSetAnswer (map arc_value filters.now) (request_in made.old)) }
    ensures fault { IfErr result
        (SetFails (map arc_value filters.now) (request_in made.old)) }
    ensures same { request_in made.new ≡ request_in made.old }
{
    let Some(kept) = made.take(alloc) else {
        return Err(Fault::Empty);
    };
    let answer = try_all(filters, &kept.request);
    made.put(kept);
    answer
}

// The verdict of the first filter that refuses the request. If none refuses it, that of the last one.
fn try_all(filters: &[Arc<Admitted>], request: &Request) -> Result<Decider, Fault>
    ensures found { IfOk result
        (IsSetAnswer (map arc_value filters.now) (Some request.now)) }
    ensures fault { IfErr result
        (SetFails (map arc_value filters.now) (Some request.now)) }
{
    for number in 0..filters.len() {
        let verdict = decide_made(&filters[number], request)?;
        if !verdict.allowed || number + 1 == filters.len() {
            return Ok(Decider { number, verdict });
        }
    }
    Err(Fault::Empty)
}
