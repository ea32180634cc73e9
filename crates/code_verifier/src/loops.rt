//! The ways of the instructions of loops.

ghost use Rattle.std.specs.Prelude.{IfOk};
ghost use Rattle.machine_code.specs.Shapes.{loop_next, loop_next2, loop_start, loop_test};
ghost use Rattle.code_verifier.specs.private.ShapeView.{AreWaysAt, Stands};

use crate::elements::{loop_slot, pair_slots};
use crate::locals::with_slot;
use crate::shape::{Due, Point, Shape};
use crate::slot::Slot;
use crate::stacks::Stacks;
use crate::successors::{three, to, two};
use cel_value::CelType;
use machine_code::Stack;
use std::alloc::AllocError;
use std::sync::Arc;

/// The ways of a `LoopStart`.
pub(crate) fn loop_start_ways(
    stacks: &mut Stacks,
    point: Point<'_>,
    failed: u16,
) -> Result<Option<Stack<Due>>, AllocError>
    requires { Stands stacks.old point.shape.now }
    ensures { IfOk result (λ o. AreWaysAt stacks.old stacks.new point.entry o (loop_start failed)) }
{
    let Some((a, rest)) = stacks.top(point.shape.slots)? else {
        return Ok(None);
    };
    let Some(_) = loop_slot(&a)? else {
        return Ok(None);
    };
    let opened = stacks.push(a, point.shape.loops)?;
    let error = stacks.push(Slot::Failing, rest)?;
    let on = to(point.position + 1, point.shape, rest, opened)?;
    let out = to(failed as usize, point.shape, error, point.shape.loops)?;
    let found = two(point.alloc, on, out)?;
    Ok(Some(found))
}

/// The ways of a `LoopNext`.
pub(crate) fn loop_next_ways(
    stacks: &mut Stacks,
    point: Point<'_>,
    local: u8,
    done: u16,
) -> Result<Option<Stack<Due>>, AllocError>
    requires { Stands stacks.old point.shape.now }
    ensures { IfOk result (λ o. AreWaysAt stacks.old stacks.new point.entry o (loop_next local done)) }
{
    let Some((a, outer)) = stacks.top(point.shape.loops)? else {
        return Ok(None);
    };
    let Some(each) = loop_slot(&a)? else {
        return Ok(None);
    };
    let locals = with_slot(point.alloc, &point.shape.locals, local, each)?;
    let next = Shape {
        slots: point.shape.slots,
        locals: Arc::new(point.alloc, locals)?,
        loops: point.shape.loops,
    };
    let out = to(done as usize, point.shape, point.shape.slots, outer)?;
    let on = Due {
        target: point.position + 1,
        shape: next,
    };
    let found = two(point.alloc, on, out)?;
    Ok(Some(found))
}

/// The ways of a `LoopNext2`.
pub(crate) fn loop_next2_ways(
    stacks: &mut Stacks,
    point: Point<'_>,
    both: (u8, u8),
    done: u16,
) -> Result<Option<Stack<Due>>, AllocError>
    requires { Stands stacks.old point.shape.now }
    ensures { IfOk result (λ o. AreWaysAt stacks.old stacks.new point.entry o (loop_next2 both.0 both.1 done)) }
{
    let Some((a, outer)) = stacks.top(point.shape.loops)? else {
        return Ok(None);
    };
    let Some((first, second)) = pair_slots(&a)? else {
        return Ok(None);
    };
    let keyed = with_slot(point.alloc, &point.shape.locals, both.0, first)?;
    let locals = with_slot(point.alloc, &keyed, both.1, second)?;
    let next = Shape {
        slots: point.shape.slots,
        locals: Arc::new(point.alloc, locals)?,
        loops: point.shape.loops,
    };
    let out = to(done as usize, point.shape, point.shape.slots, outer)?;
    let on = Due {
        target: point.position + 1,
        shape: next,
    };
    let found = two(point.alloc, on, out)?;
    Ok(Some(found))
}

/// The ways of a `LoopTest`.
pub(crate) fn loop_test_ways(
    stacks: &mut Stacks,
    point: Point<'_>,
    done: u16,
    failed: u16,
) -> Result<Option<Stack<Due>>, AllocError>
    requires { Stands stacks.old point.shape.now }
    ensures { IfOk result (λ o. AreWaysAt stacks.old stacks.new point.entry o (loop_test done failed)) }
{
    let Some((a, rest)) = stacks.top(point.shape.slots)? else {
        return Ok(None);
    };
    let Some((each, outer)) = stacks.top(point.shape.loops)? else {
        return Ok(None);
    };
    if !a.is_a(&CelType::Bool) {
        return Ok(None);
    }
    let error = stacks.push(Slot::Failing, rest)?;
    let on = to(point.position + 1, point.shape, rest, point.shape.loops)?;
    let away = to(done as usize, point.shape, rest, outer)?;
    let out = to(failed as usize, point.shape, error, outer)?;
    let found = three(point.alloc, on, away, out)?;
    Ok(Some(found))
}
