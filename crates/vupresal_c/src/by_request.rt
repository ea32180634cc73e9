//! Decisions on a request that was made before.

ghost use Rattle.std.specs.Prelude.{◌≡◌, ◌≢◌, ◌↔◌, Some, IfOk, IfErr, IsSomeAnd, IsTrue};
ghost use Rattle.vupresal_c.specs.Decisions.{Fails, IsAnswer, IsDecision, refused};
ghost use Rattle.vupresal_c.specs.Handles.{filter_in, request_in};
ghost use Rattle.vupresal_c.specs.Kept.{AsksForHeld, FitsAsHead, HeldFailsFor, RequestFailsFor};
ghost use Rattle.vupresal_c.specs.Statuses.{done, status_of};
ghost use Rattle.vupresal_c.specs.declared.fault.Fault.{Fault as FaultValue};

use crate::decision::{Decision, answered};
use crate::fault::Fault;
use crate::filter::Filter;
use crate::made_request::MadeRequest;
use attributes::{Limit, Limits, Request};
use http_front::HeadFault;
use rbac_policy::{Admitted, Verdict};
use std::alloc::Global;

// The bytes of a version in a head of HTTP/1, as `HTTP/1.1`. A head spells the requests of later protocols too.
const VERSION_BYTES: usize = 8;

/// Gives the filter's decision on the request of a handle: the same as on its parts or its head. The status is 0; 431 for a
/// request outside the filter's limits; 19 or 20 without an answer; or -1 if a handle is empty. If it is not 0, the decision
/// refuses. Both handles stay as they are.
#[unsafe(no_mangle)]
pub extern "C" fn vupresal_filter_decide_request(
    alloc: Global,
    filter: &mut Filter,
    made: &mut MadeRequest,
    decision: &mut Decision,
) -> i32
    ensures found { result ≡ done → IsSomeAnd (filter_in filter.old)
        (λ a. IsDecision (AsksForHeld (request_in made.old)) a decision.new) }
    ensures fault { result ≢ done → (e : FaultValue)
        × Fails (filter_in filter.old) (HeldFailsFor (request_in made.old)) e
        × (result ≡ status_of e) }
    ensures refused { result ≢ done → decision.new ≡ refused }
    ensures kept { filter_in filter.new ≡ filter_in filter.old }
    ensures same { request_in made.new ≡ request_in made.old }
{
    match filter.take(alloc) {
        Some(owner) => {
            let answer = decide_held(alloc, &owner, made);
            filter.put(owner);
            answered(answer, decision)
        }
        None => answered(Err(Fault::Empty), decision),
    }
}

// The verdict on the request of a handle.
fn decide_held(alloc: Global, admitted: &Admitted, made: &mut MadeRequest) -> Result<Verdict, Fault>
    ensures found { IfOk result (IsAnswer (AsksForHeld (request_in made.old)) admitted.now) }
    ensures fault { IfErr result (HeldFailsFor (request_in made.old) admitted.now) }
    ensures same { request_in made.new ≡ request_in made.old }
{
    let Some(kept) = made.take(alloc) else {
        return Err(Fault::Empty);
    };
    let answer = decide_made(admitted, &kept.request);
    made.put(kept);
    answer
}

/// The verdict on a request that was made before.
pub(crate) fn decide_made(admitted: &Admitted, request: &Request) -> Result<Verdict, Fault>
    ensures found { IfOk result (IsAnswer (AsksForHeld (Some request.now)) admitted.now) }
    ensures fault { IfErr result (RequestFailsFor admitted.now request.now) }
{
    if !fits_as_head(admitted.limits(), request) {
        return Err(Fault::Head(HeadFault::OutsideLimits));
    }
    Ok(admitted.decide(request)?)
}

// Whether the request is within the limits, and also the head that spells it.
fn fits_as_head(limits: &Limits, request: &Request) -> bool
    ensures { IsTrue result ↔ FitsAsHead request.now limits.now }
{
    limits.fits(request) && limits.get(Limit::Text) >= VERSION_BYTES
}
