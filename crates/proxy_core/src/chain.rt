//! The chain of filters.

ghost use Rattle.std.specs.Prelude.{IfOk, IsOk, MatchBool};
ghost use Rattle.std.specs.List.{AllByRecursion};
ghost use Rattle.ads.specs.Views.{policies_view};
ghost use Rattle.proxy_core.specs.Chain.{IsUnready, Judges};
ghost use Rattle.proxy_core.specs.Step.{AsksAsWritten, DecidesAsWritten};
ghost use Rattle.proxy_core.specs.private.Deciding.{CanDecide, IsTried};

use attributes::Request;
use http_front::Case;
use rbac_policy::Admitted;
use stack_machine::RunError;
use std::alloc::{AllocError, Global};

/// The result of trying the filters in order.
#[derive(Debug, Drop)]
pub(crate) enum Tried {
    /// Whether all filters let the request through, and the matches of those that were tried.
    Decided(bool, Vec<Option<usize>>),
    /// Memory ran out while a filter decided.
    NoMemory,
}

/// The case of the answer to a request, and the matches of the filters that were tried. If a filter has no policies,
/// none is tried and no memory is taken.
pub(crate) fn judged(
    alloc: Global,
    policies: &[Option<Admitted>],
    request: &Request,
) -> Result<(Case, Vec<Option<usize>>), AllocError>
    requires { AllByRecursion (CanDecide request.now) (policies_view policies.now) }
    ensures found { IfOk result (λ r. Judges DecidesAsWritten AsksAsWritten (policies_view policies.now)
        request.now r.0 r.1.items) }
    ensures sure { IsUnready DecidesAsWritten AsksAsWritten (policies_view policies.now) → IsOk result }
{
    if !is_ready(policies) {
        return Ok((Case::Unready, Vec::new(alloc)));
    }
    match try_all(alloc, policies, request)? {
        Tried::Decided(true, matches) => Ok((Case::Allow, matches)),
        Tried::Decided(false, matches) => Ok((Case::Deny, matches)),
        Tried::NoMemory => Ok((Case::Memory, Vec::new(alloc))),
    }
}

// Whether each filter has policies.
fn is_ready(policies: &[Option<Admitted>]) -> bool
    ensures { MatchBool result
        (IsUnready DecidesAsWritten AsksAsWritten (policies_view policies.now) → ⊥)
        (IsUnready DecidesAsWritten AsksAsWritten (policies_view policies.now)) }
{
    for policy in policies {
        if policy.is_none() {
            return false;
        }
    }
    true
}

// Tries the filters in order, up to the first that refuses.
fn try_all(
    alloc: Global,
    policies: &[Option<Admitted>],
    request: &Request,
) -> Result<Tried, AllocError>
    requires fit { AllByRecursion (CanDecide request.now) (policies_view policies.now) }
    requires ready { IsUnready DecidesAsWritten AsksAsWritten (policies_view policies.now) → ⊥ }
    ensures { IfOk result (IsTried request.now (policies_view policies.now)) }
{
    let mut matches = Vec::new(alloc);
    for policy in policies {
        let Some(admitted) = policy else {
            unreachable!()
        };
        match admitted.decide(request) {
            Ok(verdict) => {
                matches.push(verdict.matched)?;
                if !verdict.allowed {
                    return Ok(Tried::Decided(false, matches));
                }
            }
            Err(RunError::Memory) => return Ok(Tried::NoMemory),
            Err(RunError::OutOfSteps) => unreachable!(),
        }
    }
    Ok(Tried::Decided(true, matches))
}
