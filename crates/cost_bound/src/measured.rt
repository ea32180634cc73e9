//! The results of measuring expressions.

ghost use Rattle.std.specs.Prelude.{◌+◌, List, [], ◌∷◌, IfErr, IfOk};
ghost use Rattle.proto_wire.specs.Refusal.{MemoryOr};
ghost use Rattle.cel_types.specs.Elaborated.{kind};
ghost use Rattle.cel_types.specs.View.{expr_view};
ghost use Rattle.cel_value.specs.Types.{ValueType};
ghost use Rattle.cel_costs.specs.Costs.{call_size};
ghost use Rattle.cost_bound.specs.private.Measuring.{Exceeds, Finds, call_part};
ghost use Rattle.cost_bound.specs.private.SizeView.{size_view};

use crate::budget::Budget;
use crate::charges::{pair_part, pay, single_part};
use crate::made::{pair_size, single_size};
use crate::size::ValueSize;
use cel_overload::Overload;
use cel_types::TypedExpr;
use proto_wire::Refusal;
use std::alloc::Global;

/// The size of an expression's answer, and what is left of the budget after it.
#[derive(Drop)]
pub(crate) struct Measured {
    pub(crate) size: ValueSize,
    pub(crate) left: Budget,
}

/// The result of an expression of one step, of this size.
#[inline(always)]
pub(crate) fn leaf(size: ValueSize, left: Budget) -> Result<Measured, Refusal>
    ensures found { IfOk result (Finds (size_view size) 1 0 left) }
    ensures fault { IfErr result (MemoryOr (Exceeds 1 0 left)) }
{
    let left = pay(left, 0)?;
    Ok(Measured { size, left })
}

/// The result of a call of one operand, by what was found of the operand.
#[inline(always)]
pub(crate) fn call_of_one(
    overload: Overload,
    operand: &TypedExpr<'_>,
    found: Measured,
) -> Result<Measured, Refusal>
    ensures found { let ts = kind (expr_view operand.now) ∷ [] in let ss = size_view found.size ∷ [] in
        IfOk result (Finds (call_size overload ss) (1 + call_part overload ts ss) 0 found.left) }
    ensures fault { let ts = kind (expr_view operand.now) ∷ [] in let ss = size_view found.size ∷ [] in
        IfErr result (MemoryOr (Exceeds (1 + call_part overload ts ss) 0 found.left)) }
{
    let left = pay(found.left, single_part(overload, operand, &found.size))?;
    let size = single_size(overload, &found.size);
    Ok(Measured { size, left })
}

/// The result of a call of two operands of these sizes.
#[inline(always)]
pub(crate) fn call_of_two(
    alloc: Global,
    overload: Overload,
    first: &ValueSize,
    second: &ValueSize,
    left: Budget,
) -> Result<Measured, Refusal>
    ensures found { (ts : List ValueType) → let ss = size_view first.now ∷ size_view second.now ∷ [] in
        IfOk result (Finds (call_size overload ss) (1 + call_part overload ts ss) 0 left) }
    ensures fault { (ts : List ValueType) → let ss = size_view first.now ∷ size_view second.now ∷ [] in
        IfErr result (MemoryOr (Exceeds (1 + call_part overload ts ss) 0 left)) }
{
    let left = pay(left, pair_part(overload, first, second))?;
    let size = pair_size(alloc, overload, first, second)?;
    Ok(Measured { size, left })
}
