//! An admitted filter, and its answers.

ghost use Rattle.std.specs.Prelude.{◌≡◌, IsTrue, map, option_map, slice_get, string_bytes};
ghost use Rattle.std.specs.FinMap.{is_sorted};
ghost use Rattle.attributes.specs.Headers.{name_cmp};
ghost use Rattle.rbac_policy.specs.Enforced.{policies_need};
ghost use Rattle.rbac_policy.specs.Named.{named_views, policy_view};
ghost use Rattle.rbac_policy.specs.private.PolicyIndex.{IsPolicyIndex};

use crate::policy::NamedPolicy;
use crate::policy_index::PolicyIndex;
use attributes::Limits;
use rbac_match::RuleList;
use std::alloc::Global;

/// How a filter treats a request, by whether some policy matches it.
#[derive(Clone, Copy, PartialEq, Eq, Debug)]
pub(crate) enum Action {
    /// Lets through the requests that some policy matches, and no others.
    Allow,
    /// Refuses the requests that some policy matches, and no others.
    Deny,
    /// Lets every request through.
    Log,
}

impl Action {
    ghost use Rattle.rbac_policy.specs.private.Action.{allows};

    /// Whether it lets a request through, if `is_match` says whether some policy matches.
    pub(crate) fn allows(self, is_match: bool) -> bool
        ensures { result ≡ allows self is_match }
    {
        match self {
            Action::Allow => is_match,
            Action::Deny => !is_match,
            Action::Log => true,
        }
    }
}

/// A filter's answer to a request.
#[derive(Clone, Copy, PartialEq, Eq, Debug)]
pub struct Verdict {
    /// Whether the request is let through.
    pub allowed: bool,
    /// The first policy that matches, counted from 0 in ascending order of names.
    pub matched: Option<usize>,
}

/// What a filter enforces: the list of all rules, and the policies in ascending order of their names, each
/// name once. The index is that of these policies. Their conditions together may take `bound` steps.
#[derive(Debug, Drop)]
pub(crate) struct FilterRules {
    action: Action,
    list: RuleList,
    policies: Vec<NamedPolicy>,
    policy_index: PolicyIndex,
    bound: u64,
    ghost ordered: { IsTrue (is_sorted name_cmp (named_views list policies.items)) },
    ghost bounded: { bound ≡ (policies_need (named_views list policies.items)).steps },
    ghost indexed: { IsPolicyIndex policy_index (map (policy_view list) policies.items) },
}

impl FilterRules {
    ghost use Rattle.std.specs.FinMap.{from_entries};
    ghost use Rattle.rbac_policy.specs.Admitted.{filter_rules_view};

    /// The rules of an action and policies, whose rules are in the list. The policies ascend by name, and the
    /// index is theirs. Their conditions together may take `bound` steps.
    pub(crate) fn new(
        action: Action,
        list: RuleList,
        policies: Vec<NamedPolicy>,
        policy_index: PolicyIndex,
        bound: u64,
    ) -> FilterRules
        requires ordered { IsTrue (is_sorted name_cmp (named_views list policies.items)) }
        requires bounded { bound ≡ (policies_need (named_views list policies.items)).steps }
        requires indexed { IsPolicyIndex policy_index (map (policy_view list) policies.items) }
        ensures { filter_rules_view result ≡ record {
          action = action;
          policies = from_entries (named_views list policies.items);
        } }
    {
        FilterRules {
            action,
            list,
            policies,
            policy_index,
            bound,
        }
    }
}

/// An admitted filter, and the limits of the requests that it was admitted for.
#[derive(Debug, Drop)]
pub struct Admitted {
    rules: FilterRules,
    limits: Limits,
}

impl Admitted {
    ghost use Rattle.std.specs.FinMap.{keys, len};
    ghost use Rattle.rbac_policy.specs.Admitted.{filter_rules_view, filter_view, limits_view};
    ghost use Rattle.rbac_policy.specs.Enforced.{total_bound};

    /// The filter of these rules, for requests within the limits.
    pub(crate) fn new(rules: FilterRules, limits: Limits) -> Admitted
        ensures filter { filter_view result ≡ filter_rules_view rules }
        ensures limits { limits_view result ≡ limits }
    {
        Admitted { rules, limits }
    }

    /// How the filter treats a request, by whether some policy matches it.
    pub(crate) fn action(&self) -> Action
        ensures { result ≡ self.now.rules.action }
    {
        self.rules.action
    }

    /// The list of its policies' rules.
    #[inline(always)]
    pub(crate) fn list(&self) -> &RuleList
        ensures { result.now ≡ self.now.rules.list }
    {
        &self.rules.list
    }

    /// The policies in ascending order of their names.
    pub(crate) fn named_policies(&self) -> &[NamedPolicy]
        ensures { result.now ≡ self.now.rules.policies.items }
    {
        &self.rules.policies
    }

    /// The index of its policies.
    #[inline(always)]
    pub(crate) fn policy_index(&self) -> &PolicyIndex
        ensures { result.now ≡ self.now.rules.policy_index }
    {
        &self.rules.policy_index
    }

    /// The allocator of its policies, from which runs of conditions take their memory.
    pub(crate) fn alloc(&self) -> Global {
        *self.rules.policies.allocator()
    }

    /// The limits of the requests that the filter was admitted for.
    pub fn limits(&self) -> &Limits
        ensures { result.now ≡ limits_view self.now }
    {
        &self.limits
    }

    /// The number of policies.
    pub fn policies(&self) -> usize
        ensures { result ≡ len (filter_view self.now).policies }
    {
        self.rules.policies.len()
    }

    /// The name of the policy of this number, counted from 0 in ascending order of names.
    pub fn policy_name(&self, number: usize) -> Option<&str>
        ensures { option_map (λ name. name.now) result
            ≡ slice_get (keys (filter_view self.now).policies) number }
    {
        name_in(&self.rules.policies, number)
    }

    /// How many steps the filter's conditions together may take.
    pub fn bound(&self) -> u64
        ensures { result ≡ total_bound (filter_view self.now) }
    {
        self.rules.bound
    }
}

// The name of the policy at this place.
fn name_in(policies: &[NamedPolicy], place: usize) -> Option<&str>
    ensures { option_map (λ name. name.now) result
        ≡ option_map (λ p. string_bytes p.name) (slice_get policies.now place) }
{
    match policies.get(place) {
        Some(policy) => Some(policy.name.as_str()),
        None => None,
    }
}
