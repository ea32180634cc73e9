//! The ways from operations and literals.

ghost use Rattle.std.specs.Prelude.{◌*◌, IfOk};
ghost use Rattle.machine_code.specs.Slots.{list_literal_slot, map_literal_slot};
ghost use Rattle.machine_code.specs.Shapes.{binary, literal, unary};
ghost use Rattle.code_verifier.specs.private.Results.{binary_slot, unary_slot};
ghost use Rattle.code_verifier.specs.private.ShapeView.{AreWaysAt, Stands};

use crate::literals::{list_literal, map_literal, take};
use crate::results::{Binary, Unary, binary_slot, unary_slot};
use crate::shape::{Due, Point};
use crate::stacks::Stacks;
use crate::successors::leave;
use machine_code::Stack;
use std::alloc::AllocError;

/// The ways from an operation on one operand.
pub(crate) fn unary_ways(
    stacks: &mut Stacks,
    point: Point<'_>,
    op: Unary,
) -> Result<Option<Stack<Due>>, AllocError>
    requires { Stands stacks.old point.shape.now }
    ensures { IfOk result (λ o. AreWaysAt stacks.old stacks.new point.entry o (unary (unary_slot op))) }
{
    let Some((a, rest)) = stacks.top(point.shape.slots)? else {
        return Ok(None);
    };
    let slot = unary_slot(op, a)?;
    leave(stacks, point, slot, rest)
}

/// The ways from an operation on two operands.
pub(crate) fn binary_ways(
    stacks: &mut Stacks,
    point: Point<'_>,
    op: Binary,
) -> Result<Option<Stack<Due>>, AllocError>
    requires { Stands stacks.old point.shape.now }
    ensures { IfOk result (λ o. AreWaysAt stacks.old stacks.new point.entry o (binary (binary_slot op))) }
{
    let Some((b, below)) = stacks.top(point.shape.slots)? else {
        return Ok(None);
    };
    let Some((a, rest)) = stacks.top(below)? else {
        return Ok(None);
    };
    let slot = binary_slot(op, a, b)?;
    leave(stacks, point, slot, rest)
}

/// The ways from a list literal.
pub(crate) fn list_ways(
    stacks: &mut Stacks,
    point: Point<'_>,
    count: u16,
) -> Result<Option<Stack<Due>>, AllocError>
    requires { Stands stacks.old point.shape.now }
    ensures { IfOk result (λ o. AreWaysAt stacks.old stacks.new point.entry o (literal list_literal_slot count)) }
{
    let Some(taken) = take(point.alloc, stacks, point.shape.slots, count as usize)? else {
        return Ok(None);
    };
    let slot = list_literal(point.alloc, taken.slots)?;
    leave(stacks, point, slot, taken.rest)
}

/// The ways from a map literal.
pub(crate) fn map_ways(
    stacks: &mut Stacks,
    point: Point<'_>,
    count: u16,
) -> Result<Option<Stack<Due>>, AllocError>
    requires { Stands stacks.old point.shape.now }
    ensures { IfOk result (λ o. AreWaysAt stacks.old stacks.new point.entry o (literal map_literal_slot (2 * count))) }
{
    let Some(taken) = take(point.alloc, stacks, point.shape.slots, 2 * (count as usize))? else {
        return Ok(None);
    };
    let slot = map_literal(point.alloc, taken.slots)?;
    leave(stacks, point, slot, taken.rest)
}
