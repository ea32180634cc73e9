//! The leaves that decide whether the sides of a policy match a request.

ghost use Rattle.std.specs.Prelude.{◌≡◌, IfOk, option_map, slice_get};
ghost use Rattle.std.specs.FinMap.{entries};
ghost use Rattle.rbac_policy.specs.Admitted.{filter_view};
ghost use Rattle.rbac_policy.specs.Causes.{policy_causes};
ghost use Rattle.rbac_policy.specs.Named.{policy_view};

use crate::filter::Admitted;
use crate::policy::NamedPolicy;
use attributes::Request;
use rbac_match::{Causes, RuleList, Side, any_matches, rule_causes};
use std::alloc::{AllocError, Global};

/// The leaves that decide whether a policy's sides match a request; `None` for a side that does not count.
#[derive(Debug, Drop)]
pub struct PolicyCauses<'a> {
    pub permissions: Option<Causes<'a>>,
    pub principals: Option<Causes<'a>>,
}

impl PolicyCauses<'_> {
    /// The causes in words, the permissions' first. The request is the one that they are for. No contract
    /// describes the words.
    pub fn words(&self, alloc: Global, request: &Request) -> Result<Vec<String>, AllocError> {
        let mut lines = Vec::new(alloc);
        if let Some(causes) = &self.permissions {
            causes.push_words(alloc, Side::Permission, request, &mut lines)?;
        }
        if let Some(causes) = &self.principals {
            causes.push_words(alloc, Side::Principal, request, &mut lines)?;
        }
        Ok(lines)
    }
}

impl Admitted {
    /// The leaves that decide whether the sides of the policy of this number match the request, at most `limit`
    /// for each side. `None`: there is no such policy.
    pub fn causes(
        &self,
        number: usize,
        request: &Request,
        limit: usize,
    ) -> Result<Option<PolicyCauses<'_>>, AllocError>
        ensures { IfOk result (λ found. found
            ≡ option_map (λ named. policy_causes limit request.now named.1)
            (slice_get (entries (filter_view self.now).policies) number)) }
    {
        causes_at(self.list(), self.named_policies(), number, request, limit)
    }
}

// The causes of the policy at this place, if there is one. Its rules are in the list.
fn causes_at<'a>(
    list: &'a RuleList,
    policies: &[NamedPolicy],
    place: usize,
    request: &Request,
    limit: usize,
) -> Result<Option<PolicyCauses<'a>>, AllocError>
    ensures { IfOk result (λ found. found
        ≡ option_map (λ p. policy_causes limit request.now (policy_view list.now p))
        (slice_get policies.now place)) }
{
    match policies.get(place) {
        Some(policy) => Ok(Some(causes_of(list, policy, request, limit)?)),
        None => Ok(None),
    }
}

// The causes of a policy's sides.
fn causes_of<'a>(
    list: &'a RuleList,
    policy: &NamedPolicy,
    request: &Request,
    limit: usize,
) -> Result<PolicyCauses<'a>, AllocError>
    ensures { IfOk result (λ found.
        found ≡ policy_causes limit request.now (policy_view list.now policy.now)) }
{
    if !any_matches(list, policy.permissions, request) {
        return Ok(PolicyCauses {
            permissions: Some(rule_causes(list, policy.permissions, request, limit)?),
            principals: None,
        });
    }
    if !any_matches(list, policy.principals, request) {
        return Ok(PolicyCauses {
            permissions: None,
            principals: Some(rule_causes(list, policy.principals, request, limit)?),
        });
    }
    Ok(PolicyCauses {
        permissions: Some(rule_causes(list, policy.permissions, request, limit)?),
        principals: Some(rule_causes(list, policy.principals, request, limit)?),
    })
}
