//! The answers to the messages of a stream, in order.

ghost use Rattle.std.specs.Prelude.{◌≡◌, ◌++◌, ℕ, None, [], List, Option, length, map, is_some, IfOk, OnOk, MatchOption};
ghost use Rattle.std.specs.String.{string_bytes};
ghost use Rattle.xds_wire.specs.View.{response_view};
ghost use Rattle.ads.specs.Answer.{AdmittedValue};
ghost use Rattle.ads.specs.Judgements.{AreJudged};
ghost use Rattle.ads.specs.declared.judgement.Judgement.{Judgement};
ghost use Rattle.ads.specs.declared.judging.Judged.TheVariants as judged;
ghost use Rattle.ads.specs.private.Drafts.{AddsJudgement, Covers, IsAnswered, IsNoResponse, draft_view};
ghost use Rattle.ads.specs.private.Taking.{IsJudged};

use crate::accepted::Draft;
use crate::config::Config;
use crate::ended::Ended;
use crate::judgement::{Judgement, Refused, ResponseOutcome};
use crate::judging::{Judged, judge};
use crate::refused::{RefusalCause, memory_apart};
use crate::reply::{put_ack, put_nack};
use rbac_policy::Admitted;
use std::alloc::{AllocError, Global};
use xds_wire::{DiscoveryResponse, Frames, read_response};

/// Answers the complete messages, up to one that is not a response, which ends the stream. Returns why, if there is one.
pub(crate) fn answer_all(
    alloc: Global,
    config: &Config,
    draft: &mut Draft,
    frames: &mut Frames,
) -> Result<Option<Ended>, AllocError>
    requires { Covers (length config.now.filters) draft.old.given.items }
    ensures answered { IfOk result (λ reason. (old : List (Option AdmittedValue)) → (judgements : List Judgement)
        × (replies : List ℕ) × AreJudged config.now (draft_view old draft.old) frames.old.messages judgements
        replies (draft_view old draft.new) reason
        × (draft.new.judgements.items ≡ draft.old.judgements.items ++ judgements)
        × (draft.new.replies.items ≡ draft.old.replies.items ++ replies)) }
    ensures covers { IfOk result (λ reason. Covers (length config.now.filters) draft.new.given.items) }
    ensures frames { (frames.new.max ≡ frames.old.max) × (frames.new.tail ≡ frames.old.tail) }
    ensures taken { IfOk result (λ reason. reason ≡ None → frames.new.messages ≡ []) }
{
    while let Some(message) = frames.next() {
        if let Some(reason) = answer(alloc, config, draft, message.as_slice())? {
            return Ok(Some(reason));
        }
    }
    Ok(None)
}

// Answers a message if it is a response. If it is not, it ends the stream: returns why.
fn answer(
    alloc: Global,
    config: &Config,
    draft: &mut Draft,
    message: &[u8],
) -> Result<Option<Ended>, AllocError>
    requires { Covers (length config.now.filters) draft.old.given.items }
    ensures answered { IfOk result (λ reason. (old : List (Option AdmittedValue)) → MatchOption reason
        (IsAnswered config.now old message.now draft.old draft.new)
        (IsNoResponse old message.now draft.old draft.new)) }
    ensures covers { IfOk result (λ reason. Covers (length config.now.filters) draft.new.given.items) }
{
    match memory_apart(read_response(alloc, message))? {
        Ok(response) => {
            answer_response(alloc, config, draft, &response)?;
            Ok(None)
        }
        Err(refusal) => Ok(Some(Ended::BadMessage(refusal))),
    }
}

// Answers a response: accepts or refuses it, and appends the reply and the judgement.
fn answer_response(
    alloc: Global,
    config: &Config,
    draft: &mut Draft,
    response: &DiscoveryResponse<'_>,
) -> Result<(), AllocError>
    requires { Covers (length config.now.filters) draft.old.given.items }
    ensures answered { OnOk result ((old : List (Option AdmittedValue))
        → AddsJudgement config.now (response_view response.now) old draft.old draft.new) }
    ensures covers { OnOk result (Covers (length config.now.filters) draft.new.given.items) }
{
    match judge(alloc, config, response)? {
        Judged::Given(given) => acknowledge(alloc, config, draft, response, given),
        Judged::Refused(refusing) => refuse(alloc, config, draft, response, &refusing),
    }
}

// Accepts a response that gives the filters these policies.
fn acknowledge(
    alloc: Global,
    config: &Config,
    draft: &mut Draft,
    response: &DiscoveryResponse<'_>,
    given: Vec<Option<Admitted>>,
) -> Result<(), AllocError>
    requires covers { Covers (length config.now.filters) draft.old.given.items }
    requires judged { IsJudged config.now (response_view response.now) (judged.Given given) }
    ensures answered { OnOk result ((old : List (Option AdmittedValue))
        → AddsJudgement config.now (response_view response.now) old draft.old draft.new) }
    ensures covers { OnOk result (Covers (length config.now.filters) draft.new.given.items) }
{
    let outcome = ResponseOutcome::Accepted(filters_given(alloc, &given)?);
    let judgement = judgement_of(alloc, response, outcome)?;
    let version = String::from_str(alloc, response.version_info)?;
    put_ack(alloc, config, response, &mut draft.replies)?;
    draft.judgements.push(judgement)?;
    draft.accept(version, given);
    Ok(())
}

// Refuses a response for this reason.
fn refuse(
    alloc: Global,
    config: &Config,
    draft: &mut Draft,
    response: &DiscoveryResponse<'_>,
    refusing: &RefusalCause<'_>,
) -> Result<(), AllocError>
    requires { IsJudged config.now (response_view response.now) (judged.Refused refusing.now) }
    ensures answered { OnOk result ((old : List (Option AdmittedValue))
        → AddsJudgement config.now (response_view response.now) old draft.old draft.new) }
    ensures given { draft.new.given ≡ draft.old.given }
{
    let outcome = ResponseOutcome::Refused(refused_of(alloc, refusing)?);
    let judgement = judgement_of(alloc, response, outcome)?;
    let refusal = refusing.fault.refusal;
    let replies = &mut draft.replies;
    put_nack(
        alloc,
        config,
        &draft.version,
        response.nonce,
        refusal,
        replies,
    )?;
    draft.judgements.push(judgement)?;
    Ok(())
}

// The judgement of a response with this outcome.
fn judgement_of(
    alloc: Global,
    response: &DiscoveryResponse<'_>,
    outcome: ResponseOutcome,
) -> Result<Judgement, AllocError>
    ensures version { IfOk result (λ j. string_bytes j.version ≡ (response_view response.now).version_info) }
    ensures nonce { IfOk result (λ j. string_bytes j.nonce ≡ (response_view response.now).nonce) }
    ensures outcome { IfOk result (λ j. j.outcome ≡ outcome) }
{
    Ok(Judgement {
        version: String::from_str(alloc, response.version_info)?,
        nonce: String::from_str(alloc, response.nonce)?,
        outcome,
    })
}

// Whether each filter is given policies.
fn filters_given(alloc: Global, given: &[Option<Admitted>]) -> Result<Vec<bool>, AllocError>
    ensures { IfOk result (λ v. v.items ≡ map is_some given.now) }
{
    let mut filters = Vec::new(alloc);
    for policies in given {
        filters.push(policies.is_some())?;
    }
    Ok(filters)
}

// The reason, with a copy of the message.
fn refused_of(alloc: Global, refusing: &RefusalCause<'_>) -> Result<Refused, AllocError>
    ensures { IfOk result (λ r. (r.fault ≡ refusing.now.fault) × (r.filter ≡ refusing.now.filter)
        × (r.message.items ≡ refusing.now.message.now)) }
{
    Ok(Refused {
        fault: refusing.fault,
        filter: refusing.filter,
        message: Vec::from_slice(alloc, refusing.message)?,
        left: refusing.left,
    })
}
