//! The reasons for a filter's answer to a request.

ghost use Rattle.std.specs.Prelude.{◌≡◌, ◌≢◌, ◌⊎◌, ◌++◌, ◌∷◌, [], Err, IfErr, IfOk, OnOk, map};
ghost use Rattle.std.specs.FinMap.{entries};
ghost use Rattle.attributes.specs.Limits.{InLimits};
ghost use Rattle.cel_tree.specs.Checked.{CelChecked};
ghost use Rattle.rbac_policy.specs.Admission.{IsAdmittedAs};
ghost use Rattle.rbac_policy.specs.Admitted.{filter_view, limits_view};
ghost use Rattle.rbac_policy.specs.Condition.{MemoryOrSteps, TakesTooLong, is_met};
ghost use Rattle.rbac_policy.specs.Filter.{Filter};
ghost use Rattle.rbac_policy.specs.Named.{named_views, policy_view};
ghost use Rattle.rbac_policy.specs.Trials.{AreTrials, HasReason, Means, TakesSteps};
ghost use Rattle.rbac_policy.specs.Verdict.{SomeAsked};
ghost use Rattle.rbac_policy.specs.private.Runs.{Asks, ExceedsBound, OnePolicyAsks};
ghost use Rattle.rbac_policy.specs.private.Trials.{HasRunReason};

use crate::filter::Admitted;
use crate::policy::NamedPolicy;
use crate::reason::Reason;
use attributes::{Request, request_is_sound};
use rbac_match::{RuleList, any_matches};
use stack_machine::RunError;
use std::alloc::{AllocError, Global};

/// A policy that was tried: its number, its name, and the reason why it matches or does not.
#[derive(Clone, Copy, Debug)]
pub struct Trial<'a> {
    pub number: usize,
    pub name: &'a str,
    pub reason: Reason,
}

impl Admitted {
    /// The policies that a decision on the request tries, in order, each with the reason why it matches or
    /// does not. They end with the first that matches. It may answer `Memory`. It answers `OutOfSteps`
    /// exactly if a condition that is asked for takes more steps than it may. That happens only for a request
    /// outside the limits.
    pub fn trials(&self, request: &Request) -> Result<Vec<Trial<'_>>, RunError>
        ensures tried { IfOk result (λ trials. (filter : Filter CelChecked)
            → IsAdmittedAs (limits_view self.now) filter (filter_view self.now)
            → AreTrials (HasReason (Means request.now) (TakesSteps (limits_view self.now) request.now)
            request.now) 0 (entries filter.policies) trials.items) }
        ensures fault { IfErr result (MemoryOrSteps ((filter : Filter CelChecked)
            → IsAdmittedAs (limits_view self.now) filter (filter_view self.now)
            → SomeAsked (is_met request.now) (TakesTooLong (limits_view self.now) request.now)
            request.now filter)) }
        ensures reported { (filter : Filter CelChecked)
            → IsAdmittedAs (limits_view self.now) filter (filter_view self.now)
            → SomeAsked (is_met request.now) (TakesTooLong (limits_view self.now) request.now)
            request.now filter
            → (result ≡ Err RunError.Memory) ⊎ (result ≡ Err RunError.OutOfSteps) }
        ensures within { (filter : Filter CelChecked)
            → IsAdmittedAs (limits_view self.now) filter (filter_view self.now)
            → InLimits request.now (limits_view self.now) → result ≢ Err RunError.OutOfSteps }
    {
        request_is_sound(request);
        try_policies(self.alloc(), self.list(), self.named_policies(), request)
    }
}

// The policies up to the first that matches, each with its reason.
fn try_policies<'a>(
    alloc: Global,
    list: &RuleList,
    policies: &'a [NamedPolicy],
    request: &Request,
) -> Result<Vec<Trial<'a>>, RunError>
    ensures tried { IfOk result (λ trials.
        AreTrials (HasRunReason request.now) 0 (named_views list.now policies.now) trials.items) }
    ensures fault { IfErr result (MemoryOrSteps
        (OnePolicyAsks (ExceedsBound request.now) request.now (map (policy_view list.now) policies.now))) }
{
    let mut trials = Vec::new(alloc);
    for (number, policy) in policies.iter().enumerate() {
        let reason = reason_of(alloc, list, policy, request)?;
        let name = policy.name.as_str();
        add(
            &mut trials,
            Trial {
                number,
                name,
                reason,
            },
        )?;
        if reason.is_match() {
            return Ok(trials);
        }
    }
    Ok(trials)
}

// Appends a trial.
fn add<'a>(trials: &mut Vec<Trial<'a>>, trial: Trial<'a>) -> Result<(), AllocError>
    ensures { OnOk result (trials.new.items ≡ trials.old.items ++ trial.entry ∷ []) }
{
    trials.push(trial)?;
    Ok(())
}

// The reason why the policy matches, or does not.
fn reason_of(
    alloc: Global,
    list: &RuleList,
    policy: &NamedPolicy,
    request: &Request,
) -> Result<Reason, RunError>
    ensures found { IfOk result (HasRunReason request.now (policy_view list.now policy.now)) }
    ensures fault { IfErr result (MemoryOrSteps
        (Asks (ExceedsBound request.now) request.now (policy_view list.now policy.now))) }
{
    if !any_matches(list, policy.permissions, request) {
        return Ok(Reason::NoPermission);
    }
    if !any_matches(list, policy.principals, request) {
        return Ok(Reason::NoPrincipal);
    }
    match &policy.condition {
        None => Ok(Reason::Matches),
        Some(condition) => condition.reason(alloc, request),
    }
}
