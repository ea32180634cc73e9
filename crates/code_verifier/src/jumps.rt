//! The ways of jumps, branches and tests.

ghost use Rattle.std.specs.Prelude.{IfOk};
ghost use Rattle.machine_code.specs.Instructions.{Jump};
ghost use Rattle.machine_code.specs.Shapes.{branch, test, ways};
ghost use Rattle.code_verifier.specs.private.ShapeView.{AreWaysAt, Stands};

use crate::shape::{Due, Point};
use crate::slot::Slot;
use crate::stacks::Stacks;
use crate::successors::{one, three, to, two};
use cel_value::CelType;
use machine_code::Stack;
use std::alloc::AllocError;

/// The way of a jump.
pub(crate) fn jump_ways(
    stacks: &mut Stacks,
    point: Point<'_>,
    target: u16,
) -> Result<Option<Stack<Due>>, AllocError>
    requires { Stands stacks.old point.shape.now }
    ensures { IfOk result (λ o. AreWaysAt stacks.old stacks.new point.entry o (ways (Jump target))) }
{
    let away = to(
        target as usize,
        point.shape,
        point.shape.slots,
        point.shape.loops,
    )?;
    let found = one(point.alloc, away)?;
    Ok(Some(found))
}

/// The ways of a branch.
pub(crate) fn branch_ways(
    stacks: &mut Stacks,
    point: Point<'_>,
    target: u16,
) -> Result<Option<Stack<Due>>, AllocError>
    requires { Stands stacks.old point.shape.now }
    ensures { IfOk result (λ o. AreWaysAt stacks.old stacks.new point.entry o (branch target)) }
{
    let Some((a, rest)) = stacks.top(point.shape.slots)? else {
        return Ok(None);
    };
    if !a.is_a(&CelType::Bool) {
        return Ok(None);
    }
    let on = to(
        point.position + 1,
        point.shape,
        point.shape.slots,
        point.shape.loops,
    )?;
    let away = to(
        target as usize,
        point.shape,
        point.shape.slots,
        point.shape.loops,
    )?;
    let found = two(point.alloc, on, away)?;
    Ok(Some(found))
}

/// The ways of a `Test`.
pub(crate) fn test_ways(
    stacks: &mut Stacks,
    point: Point<'_>,
    otherwise: u16,
    failed: u16,
) -> Result<Option<Stack<Due>>, AllocError>
    requires { Stands stacks.old point.shape.now }
    ensures { IfOk result (λ o. AreWaysAt stacks.old stacks.new point.entry o (test otherwise failed)) }
{
    let Some((a, rest)) = stacks.top(point.shape.slots)? else {
        return Ok(None);
    };
    if !a.is_a(&CelType::Bool) {
        return Ok(None);
    }
    let error = stacks.push(Slot::Failing, rest)?;
    let on = to(point.position + 1, point.shape, rest, point.shape.loops)?;
    let away = to(otherwise as usize, point.shape, rest, point.shape.loops)?;
    let out = to(failed as usize, point.shape, error, point.shape.loops)?;
    let found = three(point.alloc, on, away, out)?;
    Ok(Some(found))
}
