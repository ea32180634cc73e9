//! Decisions on the request of a head.

ghost use Rattle.std.specs.Prelude.{◌≡◌, ◌≢◌, IfOk, IfErr, IsSomeAnd};
ghost use Rattle.vupresal_c.specs.Decisions.{AsksByHead, Fails, HeadFailsFor, IsAnswer, IsDecision, refused};
ghost use Rattle.vupresal_c.specs.Handles.{filter_in};
ghost use Rattle.vupresal_c.specs.Statuses.{done, status_of};
ghost use Rattle.vupresal_c.specs.declared.fault.Fault.{Fault as FaultValue};

use crate::decision::{Decision, answered};
use crate::fault::Fault;
use crate::filter::Filter;
use c_inputs::{FactsInput, conn_of};
use http_front::{HeadAsk, read_head};
use rbac_policy::{Admitted, Verdict};
use std::alloc::Global;

/// Gives the filter's decision on the request of an HTTP/1 head, which is whole. The status is 0; 400, 431 or 501 for a
/// head or facts at fault; or 19 or 20 without an answer. It is -1 for an empty handle, and -2 for a port or an address out of
/// range. If it is not 0, the decision refuses.
#[unsafe(no_mangle)]
pub extern "C" fn vupresal_filter_decide_head(
    alloc: Global,
    filter: &mut Filter,
    head: &[u8],
    facts: &FactsInput<'_>,
    decision: &mut Decision,
) -> i32
    ensures found { result ≡ done → IsSomeAnd (filter_in filter.old)
        (λ a. IsDecision (AsksByHead head.now facts.now) a decision.new) }
    ensures fault { result ≢ done → (e : FaultValue)
        × Fails (filter_in filter.old) (HeadFailsFor head.now facts.now) e
        × (result ≡ status_of e) }
    ensures refused { result ≢ done → decision.new ≡ refused }
    ensures kept { filter_in filter.new ≡ filter_in filter.old }
{
    match filter.take(alloc) {
        Some(owner) => {
            let answer = decide_head(alloc, &owner, head, facts);
            filter.put(owner);
            answered(answer, decision)
        }
        None => answered(Err(Fault::Empty), decision),
    }
}

// The verdict on the request of a head.
fn decide_head(
    alloc: Global,
    admitted: &Admitted,
    head: &[u8],
    facts: &FactsInput<'_>,
) -> Result<Verdict, Fault>
    ensures found { IfOk result (IsAnswer (AsksByHead head.now facts.now) admitted.now) }
    ensures fault { IfErr result (HeadFailsFor head.now facts.now admitted.now) }
{
    let conn = conn_of(alloc, facts)?;
    match read_head(alloc, head, admitted.limits(), conn)? {
        Some(HeadAsk::Judge(request)) => Ok(admitted.decide(&request)?),
        Some(HeadAsk::Fault(fault)) => Err(Fault::Head(fault)),
        None => Err(Fault::Unfinished),
    }
}
