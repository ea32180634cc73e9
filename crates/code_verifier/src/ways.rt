//! The ways from instructions: their targets, and the shapes that arrive there.

ghost use Rattle.std.specs.Prelude.{Some, IfOk, option_map};
ghost use Rattle.machine_code.specs.Instructions.{instr_view};
ghost use Rattle.machine_code.specs.Slots.{slots_of};
ghost use Rattle.machine_code.specs.Shapes.{leaves, operate, store, ways};
ghost use Rattle.code_verifier.specs.private.ShapeView.{AreWaysAt, Stands};
ghost use Rattle.code_verifier.specs.private.SlotView.{slot_view};

use crate::jumps::{branch_ways, jump_ways, test_ways};
use crate::literals::{empty_list, empty_map};
use crate::locals::{local_at, with_slot};
use crate::loops::{loop_next_ways, loop_next2_ways, loop_start_ways, loop_test_ways};
use crate::operands::{binary_ways, list_ways, map_ways, unary_ways};
use crate::results::{Binary, Unary};
use crate::shape::{Due, Point, Shape};
use crate::slot::Slot;
use crate::sources::{attribute_slot, constant_slot};
use crate::stacks::Stacks;
use crate::successors::{leave, one};
use cel_ops::Operation;
use machine_code::{Instr, Stack};
use std::alloc::AllocError;
use std::sync::Arc;

/// The ways from an instruction at a point; none if an operand is missing or of a wrong kind.
pub(crate) fn ways_of(
    stacks: &mut Stacks,
    point: Point<'_>,
    instr: &Instr,
) -> Result<Option<Stack<Due>>, AllocError>
    requires { Stands stacks.old point.shape.now }
    ensures { IfOk result (λ o. AreWaysAt stacks.old stacks.new point.entry o (ways (instr_view instr.now))) }
{
    match instr {
        Instr::Const(constant) => push_ways(stacks, point, Some(constant_slot(constant))),
        Instr::Attr(id) => push_ways(stacks, point, Some(attribute_slot(point.alloc, *id)?)),
        Instr::Load(local) => {
            let slot = local_at(&point.shape.locals, *local as usize)?;
            push_ways(stacks, point, slot)
        }
        Instr::Store(local) => store_ways(stacks, point, *local),
        Instr::Operate(op) => operate_ways(stacks, point, *op),
        Instr::Field(_) => unary_ways(stacks, point, Unary::Field),
        Instr::HasField(_) => unary_ways(stacks, point, Unary::HasField),
        Instr::MakeList(count) => list_ways(stacks, point, *count),
        Instr::EmptyList(items) => push_ways(stacks, point, Some(empty_list(point.alloc, items)?)),
        Instr::MakeMap(count) => map_ways(stacks, point, *count),
        Instr::EmptyMap(keys, values) => {
            let slot = empty_map(point.alloc, *keys, values)?;
            push_ways(stacks, point, Some(slot))
        }
        Instr::Jump(target) => jump_ways(stacks, point, *target),
        Instr::IfFalse(target) => branch_ways(stacks, point, *target),
        Instr::IfTrue(target) => branch_ways(stacks, point, *target),
        Instr::Test { otherwise, failed } => test_ways(stacks, point, *otherwise, *failed),
        Instr::LoopStart { failed } => loop_start_ways(stacks, point, *failed),
        Instr::LoopNext { local, done } => loop_next_ways(stacks, point, *local, *done),
        Instr::LoopNext2 { key, value, done } => loop_next2_ways(
            stacks,
            point,
            (*key, *value),
            *done,
        ),
        Instr::LoopTest { done, failed } => loop_test_ways(stacks, point, *done, *failed),
    }
}

// The ways from an operation.
fn operate_ways(
    stacks: &mut Stacks,
    point: Point<'_>,
    op: Operation,
) -> Result<Option<Stack<Due>>, AllocError>
    requires { Stands stacks.old point.shape.now }
    ensures { IfOk result (λ o. AreWaysAt stacks.old stacks.new point.entry o (operate (slots_of op))) }
{
    match op {
        Operation::Negate => unary_ways(stacks, point, Unary::Negate),
        Operation::Not => unary_ways(stacks, point, Unary::Not),
        Operation::NotStrictlyFalse => unary_ways(stacks, point, Unary::Not),
        Operation::Size => unary_ways(stacks, point, Unary::Size),
        Operation::Convert(kind) => unary_ways(stacks, point, Unary::Convert(kind)),
        Operation::Arithmetic(_) => binary_ways(stacks, point, Binary::Arith),
        Operation::And => binary_ways(stacks, point, Binary::Logic),
        Operation::Or => binary_ways(stacks, point, Binary::Logic),
        Operation::Compare(op) => binary_ways(stacks, point, Binary::Compare(op)),
        Operation::TestText(_) => binary_ways(stacks, point, Binary::TestText),
        Operation::Concat => binary_ways(stacks, point, Binary::Concat),
        Operation::ListIndex => binary_ways(stacks, point, Binary::ListIndex),
        Operation::MapIndex => binary_ways(stacks, point, Binary::MapIndex),
        Operation::InMap => binary_ways(stacks, point, Binary::InMap),
        Operation::InList => binary_ways(stacks, point, Binary::InList),
    }
}

// The way to the next position with this slot pushed; none without a slot.
fn push_ways(
    stacks: &mut Stacks,
    point: Point<'_>,
    slot: Option<Slot>,
) -> Result<Option<Stack<Due>>, AllocError>
    requires { Stands stacks.old point.shape.now }
    ensures { IfOk result (λ o. AreWaysAt stacks.old stacks.new point.entry o
        (λ p s. leaves (option_map slot_view slot) p s s.slots)) }
{
    leave(stacks, point, slot, point.shape.slots)
}

// The way from a `Store`.
fn store_ways(
    stacks: &mut Stacks,
    point: Point<'_>,
    local: u8,
) -> Result<Option<Stack<Due>>, AllocError>
    requires { Stands stacks.old point.shape.now }
    ensures { IfOk result (λ o. AreWaysAt stacks.old stacks.new point.entry o (store local)) }
{
    let Some((a, rest)) = stacks.top(point.shape.slots)? else {
        return Ok(None);
    };
    let locals = with_slot(point.alloc, &point.shape.locals, local, a)?;
    let stored = Shape {
        slots: rest,
        locals: Arc::new(point.alloc, locals)?,
        loops: point.shape.loops,
    };
    let on = Due {
        target: point.position + 1,
        shape: stored,
    };
    let found = one(point.alloc, on)?;
    Ok(Some(found))
}
