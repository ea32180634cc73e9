//! Decides a request by an admitted filter.

ghost use Rattle.std.specs.Prelude.{◌≡◌, ◌↔◌, ◌⊎◌, Err, IfErr, IfOk, IsTrue};
ghost use Rattle.attributes.specs.Limits.{InLimits};
ghost use Rattle.cel_tree.specs.Checked.{CelChecked};
ghost use Rattle.rbac_policy.specs.Admission.{IsAdmittedAs};
ghost use Rattle.rbac_policy.specs.Admitted.{filter_view, limits_view};
ghost use Rattle.rbac_policy.specs.Condition.{is_met};
ghost use Rattle.rbac_policy.specs.Filter.{Filter};
ghost use Rattle.rbac_policy.specs.Verdict.{LetsThrough, SomeAsked, SomeMatches};

use attributes::Request;
use rbac_policy::Admitted;
use stack_machine::RunError;

/// Why a filter does not decide a request. Answer 431 or 503, and let nothing through.
#[derive(Clone, Copy, PartialEq, Eq, Debug)]
pub enum Undecided {
    /// The request is outside the limits that the filter was admitted for.
    OutsideLimits,
    /// Out of memory, while a condition was asked for.
    Memory,
}

/// Whether the filter lets the request through: as the filter says that was admitted.
pub fn lets_through(filter: &Admitted, request: &Request) -> Result<bool, Undecided>
    ensures decided { (written : Filter CelChecked)
        → IsAdmittedAs (limits_view filter.now) written (filter_view filter.now)
        → IfOk result (λ allowed. IsTrue allowed
        ↔ LetsThrough written.action (SomeMatches (is_met request.now) request.now written)) }
    ensures outside { (InLimits request.now (limits_view filter.now) → ⊥)
        → result ≡ Err Undecided.OutsideLimits }
    ensures undecided { (written : Filter CelChecked)
        → IsAdmittedAs (limits_view filter.now) written (filter_view filter.now)
        → IfErr result (λ e. ((e ≡ Undecided.OutsideLimits) × (InLimits request.now (limits_view filter.now) → ⊥))
        ⊎ ((e ≡ Undecided.Memory) × SomeAsked (is_met request.now) (λ c. Unit {0}) request.now written)) }
{
    if !filter.limits().fits(request) {
        return Err(Undecided::OutsideLimits);
    }
    match filter.decide(request) {
        Ok(verdict) => Ok(verdict.allowed),
        Err(RunError::Memory) => Err(Undecided::Memory),
        Err(RunError::OutOfSteps) => Err(Undecided::OutsideLimits),
    }
}
