//! Visits, and their payment.

ghost use Rattle.std.specs.Prelude.{◌≡◌, ◌+◌, IfErr, IfOk};
ghost use Rattle.cel_costs.specs.Visits.{weight};
ghost use Rattle.cel_value.specs.Types.{type_view};
ghost use Rattle.cost_bound.specs.private.Measuring.{VisitsMore};

use crate::budget::Budget;
use cel_value::CelType;
use proto_wire::Refusal;

/// The budget less the visit of a node of this type; `TooLarge` if it has too few visits.
#[inline(always)]
pub(crate) fn visit(left: Budget, cel_type: &CelType) -> Result<Budget, Refusal>
    ensures found { IfOk result (λ rest. (left.steps ≡ rest.steps)
        × (left.visits ≡ weight (type_view cel_type.now) + rest.visits)) }
    ensures fault { IfErr result (VisitsMore (weight (type_view cel_type.now)) left.visits) }
{
    let visits = less_weight(left.visits, cel_type)?;
    Ok(Budget {
        steps: left.steps,
        visits,
    })
}

// The visits that are left after a node of this type. Most types have one level.
#[inline(always)]
fn less_weight(visits: u64, cel_type: &CelType) -> Result<u64, Refusal>
    ensures found { IfOk result (λ rest. visits ≡ weight (type_view cel_type.now) + rest) }
    ensures fault { IfErr result (VisitsMore (weight (type_view cel_type.now)) visits) }
{
    match cel_type {
        CelType::Bool => less(visits, 1),
        CelType::Int => less(visits, 1),
        CelType::Uint => less(visits, 1),
        CelType::Text => less(visits, 1),
        CelType::Bytes => less(visits, 1),
        CelType::List(_) => less_levels(visits, cel_type),
        CelType::Map(_, _) => less_levels(visits, cel_type),
    }
}

// The same, level by level.
fn less_levels(visits: u64, cel_type: &CelType) -> Result<u64, Refusal>
    ensures found { IfOk result (λ rest. visits ≡ weight (type_view cel_type.now) + rest) }
    ensures fault { IfErr result (VisitsMore (weight (type_view cel_type.now)) visits) }
{
    match cel_type {
        CelType::Bool => less(visits, 1),
        CelType::Int => less(visits, 1),
        CelType::Uint => less(visits, 1),
        CelType::Text => less(visits, 1),
        CelType::Bytes => less(visits, 1),
        CelType::List(items) => less_levels(less(visits, 1)?, items),
        CelType::Map(_, values) => less_levels(less(visits, 2)?, values),
    }
}

#[inline(always)]
fn less(visits: u64, count: u64) -> Result<u64, Refusal>
    ensures found { IfOk result (λ rest. visits ≡ count + rest) }
    ensures fault { IfErr result (VisitsMore count visits) }
{
    if count <= visits {
        return Ok(visits - count);
    }
    Err(Refusal::TooLarge)
}
