//! Decisions of an admitted filter.

ghost use Rattle.std.specs.Prelude.{◌≡◌, ◌≢◌, ◌<◌, ◌⊎◌, true, List, Err, IfErr, IfOk, IfSome, IsOk, length, map, take};
ghost use Rattle.attributes.specs.Limits.{InLimits};
ghost use Rattle.attributes.specs.Request.{RequestValue};
ghost use Rattle.cel_tree.specs.Checked.{CelChecked};
ghost use Rattle.rbac_policy.specs.Admission.{IsAdmittedAs};
ghost use Rattle.rbac_policy.specs.Admitted.{filter_view, limits_view};
ghost use Rattle.rbac_policy.specs.Condition.{MemoryOrSteps, Program, TakesTooLong, is_met};
ghost use Rattle.rbac_policy.specs.Filter.{Filter, Policy};
ghost use Rattle.rbac_policy.specs.Named.{policy_view};
ghost use Rattle.rbac_policy.specs.Verdict.{IsUnconditional, IsVerdict, SomeAsked, sides_match};
ghost use Rattle.rbac_policy.specs.private.Runs.{AnyProgram, Asks, HaveFailed, HaveNoConditions, IsFirst, ExceedsBound, OnePolicyAsks, MatchesByRun};
ghost use Rattle.rbac_policy.specs.private.PolicyIndex.{IsRuledOut, IsPolicyIndex, AreKeysFor};

use crate::filter::{Admitted, Verdict};
use crate::policy::NamedPolicy;
use crate::policy_index::{PolicyIndex, RequestKeys};
use attributes::{Request, request_is_sound};
use rbac_match::{RuleList, any_matches};
use stack_machine::RunError;
use std::alloc::Global;

impl Admitted {
    /// The filter's answer to the request. Its conditions have their meaning in CEL, and an error is no
    /// match. A condition runs only if a permission and a principal of its policy match and no earlier policy
    /// matches. If no condition is asked for, `decide` always answers, and takes no memory; so it does if the
    /// filter has no conditions. Otherwise it may answer `Memory`. It answers `OutOfSteps` exactly if a
    /// condition that is asked for takes more steps than it may. That happens only for a request outside the
    /// limits.
    pub fn decide(&self, request: &Request) -> Result<Verdict, RunError>
        ensures found { IfOk result (λ v. (filter : Filter CelChecked)
            → IsAdmittedAs (limits_view self.now) filter (filter_view self.now)
            → IsVerdict (is_met request.now) request.now filter v.allowed v.matched) }
        ensures always { IsUnconditional (filter_view self.now) → IsOk result }
        ensures unasked { (filter : Filter CelChecked)
            → IsAdmittedAs (limits_view self.now) filter (filter_view self.now)
            → SomeAsked (is_met request.now) (λ c. Unit {0}) request.now filter ⊎ IsOk result }
        ensures fault { IfErr result (MemoryOrSteps ((filter : Filter CelChecked)
            → IsAdmittedAs (limits_view self.now) filter (filter_view self.now)
            → SomeAsked (is_met request.now) (TakesTooLong (limits_view self.now) request.now)
            request.now filter)) }
        ensures reported { (filter : Filter CelChecked)
            → IsAdmittedAs (limits_view self.now) filter (filter_view self.now)
            → SomeAsked (is_met request.now) (TakesTooLong (limits_view self.now) request.now)
            request.now filter
            → (result ≡ Err RunError.Memory) ⊎ (result ≡ Err RunError.OutOfSteps) }
        ensures within { (filter : Filter CelChecked)
            → IsAdmittedAs (limits_view self.now) filter (filter_view self.now)
            → InLimits request.now (limits_view self.now) → result ≢ Err RunError.OutOfSteps }
    {
        request_is_sound(request);
        let matched = first_match(
            self.alloc(),
            self.list(),
            self.policy_index(),
            self.named_policies(),
            request,
        )?;
        let allowed = self.action().allows(matched.is_some());
        Ok(Verdict { allowed, matched })
    }
}

// The number of the first policy that matches the request. The policies' rules are in the list, and the
// index is theirs.
fn first_match(
    alloc: Global,
    list: &RuleList,
    policy_index: &PolicyIndex,
    policies: &[NamedPolicy],
    request: &Request,
) -> Result<Option<usize>, RunError>
    requires { IsPolicyIndex policy_index.now (map (policy_view list.now) policies.now) }
    ensures found { IfOk result (λ matched.
        IsFirst request.now 0 (map (policy_view list.now) policies.now) matched) }
    ensures always { HaveNoConditions (map (policy_view list.now) policies.now) → IsOk result }
    ensures asked { IfErr result (λ _. OnePolicyAsks AnyProgram request.now
        (map (policy_view list.now) policies.now)) }
    ensures fault { IfErr result (MemoryOrSteps
        (OnePolicyAsks (ExceedsBound request.now) request.now (map (policy_view list.now) policies.now))) }
{
    match policies.first() {
        None => Ok(None),
        Some(first) => {
            if policy_matches(alloc, list, first, request)? {
                return Ok(Some(0));
            }
            if policy_index.is_empty() {
                return first_later(alloc, list, None, policies, request);
            }
            let request_keys = policy_index.request_keys(request);
            first_later(alloc, list, Some(&request_keys), policies, request)
        }
    }
}

// The same, if the first policy does not match. Policies that the keys rule out are skipped, if there are
// keys. The first policy often settles a decision, so the numbers of a request are computed only after it.
#[inline(always)]
fn first_later(
    alloc: Global,
    list: &RuleList,
    request_keys: Option<&RequestKeys<'_>>,
    policies: &[NamedPolicy],
    request: &Request,
) -> Result<Option<usize>, RunError>
    requires indexed { IfSome request_keys (λ seen.
        AreKeysFor seen.now request.now (map (policy_view list.now) policies.now)) }
    requires tried { (0 < length policies.now)
        × HaveFailed request.now (map (policy_view list.now) (take 1 policies.now)) }
    ensures found { IfOk result (λ matched.
        IsFirst request.now 0 (map (policy_view list.now) policies.now) matched) }
    ensures always { HaveNoConditions (map (policy_view list.now) policies.now) → IsOk result }
    ensures asked { IfErr result (λ _. OnePolicyAsks AnyProgram request.now
        (map (policy_view list.now) policies.now)) }
    ensures fault { IfErr result (MemoryOrSteps
        (OnePolicyAsks (ExceedsBound request.now) request.now (map (policy_view list.now) policies.now))) }
{
    for number in 1..policies.len() {
        let policy = &policies[number];
        if is_ruled_out(request_keys, number) {
            continue;
        }
        if policy_matches(alloc, list, policy, request)? {
            return Ok(Some(number));
        }
    }
    Ok(None)
}

// Whether the keys rule out the policy of this number, which then does not match.
#[inline(always)]
fn is_ruled_out(request_keys: Option<&RequestKeys<'_>>, number: usize) -> bool
    ensures { (r : RequestValue) (ps : List (Policy Program))
        → IfSome request_keys.entry (λ seen. AreKeysFor seen.now r ps) → result ≡ true → IsRuledOut number r ps }
{
    match request_keys {
        Some(request_keys) => request_keys.rules_out(number),
        None => false,
    }
}

// Whether the policy matches the request: first its sides, and then its condition, if it has one.
#[inline(always)]
fn policy_matches(
    alloc: Global,
    list: &RuleList,
    policy: &NamedPolicy,
    request: &Request,
) -> Result<bool, RunError>
    ensures found { IfOk result (MatchesByRun request.now (policy_view list.now policy.now)) }
    ensures always { (policy_view list.now policy.now).condition ≡ None → IsOk result }
    ensures asked { IfErr result (λ _. Asks AnyProgram request.now (policy_view list.now policy.now)) }
    ensures fault { IfErr result (MemoryOrSteps
        (Asks (ExceedsBound request.now) request.now (policy_view list.now policy.now))) }
{
    if !sides_match(list, policy, request) {
        return Ok(false);
    }
    match &policy.condition {
        None => Ok(true),
        Some(condition) => condition.is_met(alloc, request),
    }
}

// Whether some permission and some principal of the policy match the request.
#[inline(always)]
fn sides_match(list: &RuleList, policy: &NamedPolicy, request: &Request) -> bool
    ensures { result ≡ sides_match request.now (policy_view list.now policy.now) }
{
    any_matches(list, policy.permissions, request) && any_matches(list, policy.principals, request)
}
