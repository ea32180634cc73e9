//! Decisions on a request by its parts.

ghost use Rattle.std.specs.Prelude.{◌≡◌, ◌≢◌, IfOk, IfErr, IsSomeAnd, IsTrue, Err};
ghost use Rattle.c_inputs.specs.Requests.{are_too_long, parts_given};
ghost use Rattle.rbac_policy.specs.Admitted.{limits_view};
ghost use Rattle.vupresal_c.specs.Decisions.{AreTooLongFor, AsksByParts, Fails, IsAnswer, IsDecision, PartsFailFor, refused, too_long};
ghost use Rattle.vupresal_c.specs.Handles.{filter_in};
ghost use Rattle.vupresal_c.specs.Statuses.{done, status_of};
ghost use Rattle.vupresal_c.specs.declared.fault.Fault.{Fault as FaultValue};

use crate::decision::{Decision, answered};
use crate::fault::Fault;
use crate::filter::Filter;
use c_inputs::{FactsInput, RequestInput, conn_of};
use http_front::{HeadFault, HeadParts, request_of_parts};
use rbac_policy::{Admitted, Verdict};
use std::alloc::Global;

/// Gives the filter's decision on a request by its parts, with the same statuses as for a head. The status is also -2 for a
/// protocol out of range. If the lengths of the parts put it outside the limits, the status is 431, and no byte of a part
/// is read.
#[unsafe(no_mangle)]
pub extern "C" fn vupresal_filter_decide(
    alloc: Global,
    filter: &mut Filter,
    request: &RequestInput<'_>,
    facts: &FactsInput<'_>,
    decision: &mut Decision,
) -> i32
    ensures found { result ≡ done → IsSomeAnd (filter_in filter.old)
        (λ a. IsDecision (AsksByParts request.now facts.now) a decision.new) }
    ensures fault { result ≢ done → (e : FaultValue)
        × Fails (filter_in filter.old) (PartsFailFor request.now facts.now) e
        × (result ≡ status_of e) }
    ensures long { AreTooLongFor (parts_given request.now) (filter_in filter.old)
        → result ≡ status_of too_long }
    ensures refused { result ≢ done → decision.new ≡ refused }
    ensures kept { filter_in filter.new ≡ filter_in filter.old }
{
    match filter.take(alloc) {
        Some(owner) => {
            let answer = decide_parts(alloc, &owner, request, facts);
            filter.put(owner);
            answered(answer, decision)
        }
        None => answered(Err(Fault::Empty), decision),
    }
}

// The verdict on a request by its parts. Their lengths are tested before they are read.
fn decide_parts(
    alloc: Global,
    admitted: &Admitted,
    request: &RequestInput<'_>,
    facts: &FactsInput<'_>,
) -> Result<Verdict, Fault>
    ensures found { IfOk result
        (IsAnswer (AsksByParts request.now facts.now) admitted.now) }
    ensures fault { IfErr result
        (PartsFailFor request.now facts.now admitted.now) }
    ensures long { IsTrue (are_too_long (limits_view admitted.now) (parts_given request.now))
        → result ≡ Err too_long }
{
    if request.is_too_long(admitted.limits()) {
        Err(Fault::Head(HeadFault::OutsideLimits))
    } else {
        judge_parts(alloc, admitted, request, facts)
    }
}

// The verdict on a request whose parts are read.
fn judge_parts(
    alloc: Global,
    admitted: &Admitted,
    request: &RequestInput<'_>,
    facts: &FactsInput<'_>,
) -> Result<Verdict, Fault>
    ensures found { IfOk result
        (IsAnswer (AsksByParts request.now facts.now) admitted.now) }
    ensures fault { IfErr result
        (PartsFailFor request.now facts.now admitted.now) }
{
    let conn = conn_of(alloc, facts)?;
    let Some(protocol) = request.given_protocol() else {
        return Err(Fault::OutOfRange);
    };
    let parts = HeadParts {
        method: request.method,
        target: request.target,
        protocol,
        lines: request.lines,
    };
    match request_of_parts(alloc, admitted.limits(), conn, &parts)? {
        Ok(request) => Ok(admitted.decide(&request)?),
        Err(fault) => Err(Fault::Head(fault)),
    }
}
