//! The bound of a checked expression.

ghost use Rattle.std.specs.Prelude.{◌≡◌, List, [], IfErr, IfOk, Some};
ghost use Rattle.attributes.specs.Limits.{InLimits};
ghost use Rattle.attributes.specs.Request.{IsRequest, RequestValue};
ghost use Rattle.proto_wire.specs.Refusal.{MemoryOr};
ghost use Rattle.cel_types.specs.Elaborated.{TypedTree};
ghost use Rattle.cel_types.specs.TypedMeaning.{typed_answer};
ghost use Rattle.cel_types.specs.View.{typed_view};
ghost use Rattle.cel_types.specs.WellTyped.{IsWellTyped};
ghost use Rattle.cel_value.specs.Values.{CelAnswer};
ghost use Rattle.cel_costs.specs.Costs.{size_of};
ghost use Rattle.cel_costs.specs.Reaches.{Reaches};
ghost use Rattle.cel_costs.specs.Sizes.{AllWithin, Size, Within};
ghost use Rattle.cost_bound.specs.Budgets.{Covers, IsTooSmallFor, needs_of};

use crate::budget::Budget;
use crate::measure::measure;
use crate::measuring::{Around, Measuring};
use attributes::Limits;
use cel_types::Typed;
use proto_wire::Refusal;
use std::alloc::Global;

/// What the expression takes of a budget: the most steps of its run, for each request within the limits, and the
/// visits of its measuring. The steps are its cost. Both are within the budget, or the error is `TooCostly` for the
/// steps, `TooLarge` for the visits, or `Memory`. On success, the answer of a well typed expression is within its size, and
/// so is the answer of each part that evaluation reaches.
pub fn bound(
    alloc: Global,
    typed: &Typed<'_>,
    limits: &Limits,
    budget: Budget,
) -> Result<Budget, Refusal>
    ensures found { IfOk result (λ needs. needs ≡ needs_of (typed_view typed.now) limits.now) }
    ensures covered { IfOk result (Covers budget) }
    ensures within { IfOk result (λ needs. (request : RequestValue) (answer : CelAnswer)
        → IsWellTyped [] (typed_view typed.now) → IsRequest request → InLimits request limits.now
        → typed_answer (typed_view typed.now) request [] ≡ Some answer
        → Within answer (size_of (typed_view typed.now) limits.now [])) }
    ensures parts { IfOk result (λ needs. (request : RequestValue) (part : TypedTree)
        (locals : List CelAnswer) (sizes : List Size)
        → IsWellTyped [] (typed_view typed.now) → IsRequest request → InLimits request limits.now
        → Reaches (typed_view typed.now) request limits.now part locals sizes
        → AllWithin locals sizes × ((a : CelAnswer) × (typed_answer part request locals ≡ Some a)
        × Within a (size_of part limits.now sizes))) }
    ensures fault { IfErr result (MemoryOr (IsTooSmallFor budget (needs_of (typed_view typed.now) limits.now))) }
{
    let at = Measuring {
        around: Around {
            limits,
            locals: &[],
        },
        inner: &[],
    };
    let measured = measure(alloc, &typed.root, &at, budget)?;
    Ok(Budget {
        steps: budget.steps - measured.left.steps,
        visits: budget.visits - measured.left.visits,
    })
}
