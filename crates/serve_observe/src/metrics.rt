//! What is counted of each event.
ghost use Rattle.std.specs.Prelude.{◌≡◌};
ghost use Rattle.serve_observe.specs.Counting.{counted_end, counted_verdict, is_accepted};

use crate::connections::Connection;
use crate::responses::JudgedResponse;
use crate::sample::Sample;
use ads::{Client, ResponseOutcome};
use http_front::{Ask, Case};
use proxy_core::AnsweredAsk;
use rbac_policy::Reason;
use serve_admin::{Closed, Metrics, Verdict};
use serve_loop::CloseReason;

/// Counts a request that was answered, with the policies of this client.
pub(crate) fn count_decision(
    metrics: &mut Metrics,
    sample: &mut Sample,
    answered_ask: &AnsweredAsk,
    client: &Client,
) {
    let reply = &answered_ask.reply;
    metrics.decided(verdict_of(reply.case), &reply.matches);
    if sample.picks_next() {
        count_steps(metrics, &answered_ask.ask, client);
    }
}

/// Counts a request that was answered by this case without being judged.
pub(crate) fn count_unjudged(metrics: &mut Metrics, case: Case) {
    metrics.decided(verdict_of(case), &[]);
}

// Counts the steps of the conditions that match, by trying the policies again.
fn count_steps(metrics: &mut Metrics, ask: &Ask, client: &Client) {
    let Ask::Judge(request, _) = ask else {
        return;
    };
    for (filter, policies) in client.policies().iter().enumerate() {
        let Some(admitted) = policies else {
            return;
        };
        let Ok(trials) = admitted.trials(request) else {
            return;
        };
        for trial in &trials {
            if let Reason::ConditionTrue { steps, .. } = trial.reason {
                metrics.steps(filter, steps);
            }
        }
    }
}

/// Counts a response that was judged.
pub(crate) fn count_judgement(metrics: &mut Metrics, judged: &JudgedResponse<'_>) {
    let judgement = judged.judgement;
    metrics.response(is_accepted(&judgement.outcome), judged.micros);
    let _ = metrics.admission(judgement.version.as_str(), judged.time, judged.micros);
}

// Whether a response was accepted.
fn is_accepted(outcome: &ResponseOutcome) -> bool
    ensures { result ≡ is_accepted outcome.now }
{
    match outcome {
        ResponseOutcome::Accepted(_) => true,
        ResponseOutcome::Refused(_) => false,
    }
}

// The verdict that is counted for an answer.
fn verdict_of(case: Case) -> Verdict
    ensures { result ≡ counted_verdict case }
{
    match case {
        Case::Allow => Verdict::Allow,
        Case::Deny => Verdict::Deny,
        Case::Steps => Verdict::Steps,
        Case::Unready => Verdict::Unready,
        Case::Memory => Verdict::Memory,
        Case::Fault(fault) => Verdict::Fault(fault.status()),
    }
}

/// What is counted for the end of a connection that was closed for this reason.
pub(crate) fn closed_of(connection: &Connection, reason: CloseReason) -> Closed
    ensures { result ≡ counted_end connection.now.is_unfit reason }
{
    if connection.is_unfit {
        return Closed::Unfit;
    }
    match reason {
        CloseReason::Served | CloseReason::Left => Closed::Served,
        CloseReason::Reset | CloseReason::Foreign => Closed::Reset,
        CloseReason::Slow => Closed::HeadTimeout,
        CloseReason::Idle | CloseReason::Silent => Closed::IdleTimeout,
        CloseReason::Full => Closed::IdleFull,
        CloseReason::Blocked => Closed::WriteTimeout,
        CloseReason::Memory => Closed::Memory,
        CloseReason::Drained => Closed::Drained,
    }
}
