//! An outcome as a JSON value.
ghost use Rattle.std.specs.Prelude.{◌≡◌, IfOk, None, Some, codes, map, option_map, string_bytes};
ghost use Rattle.serde_json.specs.Data.{array, member, no_members, object};
ghost use Rattle.serde_json.specs.View.{items_of, view};
ghost use Rattle.rbac_policy.specs.declared.reason.Reason.TheVariants.{ConditionFails, ConditionTrue};
ghost use Rattle.rbac_judge.specs.Explain.{causes_json, own_trial_view, reason_json, reported_trials, reported_trial_view, trial_json, trial_members};
ghost use Rattle.rbac_judge.specs.Json.{admitted_json, head_json, json_of, matched_json, text_json, refused_json, no_cause, verdict_json, why_view};

use crate::explain::{Explanation, OwnTrial};
use crate::outcome::Outcome;
use cel_value::CelError;
use http_front::HeadFault;
use proto_wire::Refusal;
use rbac_policy::Reason;
use serde_json::{Value, json};
use std::alloc::{AllocError, Global};

/// Why an outcome is no verdict, as far as that is known.
#[derive(Drop)]
pub struct Why {
    /// The cause, in words.
    pub cause: Option<String>,
    /// The part of a policy that has the fault.
    pub place: Option<String>,
}

impl Why {
    /// Neither a cause nor a part is known.
    pub(crate) fn none() -> Why
        ensures { result ≡ no_cause }
    {
        Why {
            cause: None,
            place: None,
        }
    }
}

/// The outcome as a JSON object. A verdict has the name of the policy that matched, and the trials, if there are any to
/// show. A refusal or a head's fault has its cause.
pub(crate) fn value_of(
    alloc: Global,
    outcome: Outcome,
    name: &Option<String>,
    explanation: &Explanation,
    why: &Why,
) -> Result<Value, AllocError>
    ensures { IfOk result (λ value. view value ≡ json_of (option_map string_bytes name.now)
        (reported_trials explanation.now) (why_view why.now) outcome) }
{
    match outcome {
        Outcome::Admitted { policies, bound } => admitted_value(alloc, policies, bound),
        Outcome::Allowed(matched) => verdict_value(alloc, "allow", name, matched, explanation),
        Outcome::Denied(matched) => verdict_value(alloc, "deny", name, matched, explanation),
        Outcome::OutOfSteps => json!(in alloc; {"verdict": "deny", "out_of_steps": true}),
        Outcome::Refused(refusal) => refused_value(alloc, refusal, why),
        Outcome::Fault(fault) => head_value(alloc, fault, why),
        Outcome::Memory => json!(in alloc; {"memory": true}),
    }
}

// The object of a policy that is admitted.
fn admitted_value(alloc: Global, policies: usize, bound: u64) -> Result<Value, AllocError>
    ensures { IfOk result (λ value. view value ≡ admitted_json policies bound) }
{
    json!(in alloc; {"admitted": true, "policies": policies, "bound": bound})
}

// The object of a verdict, with this word.
fn verdict_value(
    alloc: Global,
    word: &str,
    name: &Option<String>,
    matched: Option<usize>,
    explanation: &Explanation,
) -> Result<Value, AllocError>
    ensures { IfOk result (λ value. view value ≡ verdict_json word.now
        (option_map string_bytes name.now) matched (reported_trials explanation.now)) }
{
    match explanation {
        Explanation::Trials(trials) => explained_value(alloc, word, name, matched, trials),
        Explanation::Absent => plain_value(alloc, word, name, matched),
        Explanation::Unavailable(_) => plain_value(alloc, word, name, matched),
    }
}

// The object of a verdict, with this word and without trials.
fn plain_value(
    alloc: Global,
    word: &str,
    name: &Option<String>,
    matched: Option<usize>,
) -> Result<Value, AllocError>
    ensures { IfOk result (λ value. view value
        ≡ verdict_json word.now (option_map string_bytes name.now) matched None) }
{
    let name = text_value(alloc, name)?;
    json!(in alloc; {"verdict": word, "policy": matched_value(matched), "name": name})
}

// The object of a verdict, with this word and with the trials.
fn explained_value(
    alloc: Global,
    word: &str,
    name: &Option<String>,
    matched: Option<usize>,
    trials: &[OwnTrial],
) -> Result<Value, AllocError>
    ensures { IfOk result (λ value. view value ≡ verdict_json word.now
        (option_map string_bytes name.now) matched (Some (map reported_trial_view trials.now))) }
{
    let name = text_value(alloc, name)?;
    let trials = trials_value(alloc, trials)?;
    json!(in alloc; {"verdict": word, "policy": matched_value(matched), "name": name, "trials": trials})
}

// The array of the trials' objects.
fn trials_value(alloc: Global, trials: &[OwnTrial]) -> Result<Value, AllocError>
    ensures { IfOk result (λ value. view value
        ≡ array (items_of (map trial_json (map reported_trial_view trials.now)))) }
{
    let mut values = Vec::new(alloc);
    for trial in trials {
        values.push(trial_value(alloc, trial)?)?;
    }
    Ok(Value::Array(values))
}

// The object of a trial.
fn trial_value(alloc: Global, trial: &OwnTrial) -> Result<Value, AllocError>
    ensures { IfOk result (λ value. view value ≡ trial_json (reported_trial_view trial.now)) }
{
    match trial.reason {
        Reason::NoPermission => reason_value(alloc, trial, "permission"),
        Reason::NoPrincipal => reason_value(alloc, trial, "principal"),
        Reason::Matches => reason_value(alloc, trial, "match"),
        Reason::ConditionFalse => reason_value(alloc, trial, "condition false"),
        Reason::ConditionFails(error) => fails_value(alloc, trial, error),
        Reason::ConditionTrue { steps, bound } => true_value(alloc, trial, steps, bound),
    }
}

// The object of a trial whose reason is this word.
fn reason_value(alloc: Global, trial: &OwnTrial, word: &str) -> Result<Value, AllocError>
    ensures { IfOk result (λ value. view value
        ≡ object (member (codes "causes") (causes_json (reported_trial_view trial.now).causes)
        (trial_members (own_trial_view trial.now) word.now no_members))) }
{
    let causes = causes_value(alloc, &trial.causes)?;
    json!(in alloc; {
        "causes": causes,
        "name": trial.name.as_str(),
        "number": trial.number,
        "reason": word
    })
}

// The array of the causes' texts.
fn causes_value(alloc: Global, causes: &[String]) -> Result<Value, AllocError>
    ensures { IfOk result (λ value. view value ≡ causes_json (map string_bytes causes.now)) }
{
    let mut values = Vec::new(alloc);
    for cause in causes {
        values.push(Value::try_from_str(alloc, cause.as_str())?)?;
    }
    Ok(Value::Array(values))
}

// The object of a trial whose condition fails with this error.
fn fails_value(alloc: Global, trial: &OwnTrial, error: CelError) -> Result<Value, AllocError>
    ensures { IfOk result (λ value. view value
        ≡ reason_json (reported_trial_view trial.now) (ConditionFails error)) }
{
    let causes = causes_value(alloc, &trial.causes)?;
    json!(in alloc; {
        "causes": causes,
        "error": error.name(),
        "name": trial.name.as_str(),
        "number": trial.number,
        "reason": "condition error"
    })
}

// The object of a trial whose condition is true, after `steps` of at most `bound` steps.
fn true_value(alloc: Global, trial: &OwnTrial, steps: u64, bound: u64) -> Result<Value, AllocError>
    ensures { IfOk result (λ value. view value
        ≡ reason_json (reported_trial_view trial.now) (ConditionTrue steps bound)) }
{
    let causes = causes_value(alloc, &trial.causes)?;
    json!(in alloc; {
        "bound": bound,
        "causes": causes,
        "name": trial.name.as_str(),
        "number": trial.number,
        "reason": "condition true",
        "steps": steps
    })
}

// A text, or `null`.
fn text_value(alloc: Global, name: &Option<String>) -> Result<Value, AllocError>
    ensures { IfOk result (λ value. view value ≡ text_json (option_map string_bytes name.now)) }
{
    match name {
        Some(name) => Value::try_from_str(alloc, name.as_str()),
        None => Ok(Value::Null),
    }
}

// The number of the policy that matched, or `null`.
fn matched_value(matched: Option<usize>) -> Value
    ensures { view result ≡ matched_json matched }
{
    match matched {
        Some(number) => Value::from(number),
        None => Value::Null,
    }
}

// The object of a policy that is refused.
fn refused_value(alloc: Global, refusal: Refusal, why: &Why) -> Result<Value, AllocError>
    ensures { IfOk result (λ value. view value ≡ refused_json (why_view why.now) refusal) }
{
    let cause = text_value(alloc, &why.cause)?;
    let place = text_value(alloc, &why.place)?;
    json!(in alloc; {
        "cause": cause,
        "name": refusal.name(),
        "place": place,
        "refused": refusal.number()
    })
}

// The object of a head that has a fault.
fn head_value(alloc: Global, fault: HeadFault, why: &Why) -> Result<Value, AllocError>
    ensures { IfOk result (λ value. view value ≡ head_json (why_view why.now) fault) }
{
    let cause = text_value(alloc, &why.cause)?;
    json!(in alloc; {"cause": cause, "head": fault.status()})
}
