//! Lists of ways.

ghost use Rattle.std.specs.Prelude.{◌≡◌, ◌<◌, Some, [], ◌∷◌, length, IfOk, option_map};
ghost use Rattle.machine_code.specs.Shapes.{leaves};
ghost use Rattle.code_verifier.specs.private.ShapeView.{AreWaysAt, Stands};
ghost use Rattle.code_verifier.specs.private.SlotView.{slot_view};
ghost use Rattle.code_verifier.specs.private.Stacks.{stack_at};

use crate::shape::{Due, Point, Shape};
use crate::slot::Slot;
use crate::stacks::Stacks;
use machine_code::Stack;
use std::alloc::{AllocError, Global};

/// The way to a position, with these stacks.
pub(crate) fn to(
    target: usize,
    shape: &Shape,
    slots: usize,
    loops: usize,
) -> Result<Due, AllocError>
    ensures target { IfOk result (λ d. d.target ≡ target) }
    ensures slots { IfOk result (λ d. d.shape.slots ≡ slots) }
    ensures loops { IfOk result (λ d. d.shape.loops ≡ loops) }
    ensures locals { IfOk result (λ d. d.shape.locals.value ≡ shape.now.locals.value) }
{
    Ok(Due {
        target,
        shape: shape.with(slots, loops)?,
    })
}

/// One way.
pub(crate) fn one(alloc: Global, due: Due) -> Result<Stack<Due>, AllocError>
    ensures { IfOk result (λ ways. ways ≡ due ∷ []) }
{
    let mut ways = Stack::new(alloc);
    ways.push(due)?;
    Ok(ways)
}

/// Two ways.
pub(crate) fn two(alloc: Global, first: Due, second: Due) -> Result<Stack<Due>, AllocError>
    ensures { IfOk result (λ ways. ways ≡ first ∷ second ∷ []) }
{
    let mut ways = Stack::new(alloc);
    ways.push(second)?;
    ways.push(first)?;
    Ok(ways)
}

/// Three ways.
pub(crate) fn three(
    alloc: Global,
    first: Due,
    second: Due,
    third: Due,
) -> Result<Stack<Due>, AllocError>
    ensures { IfOk result (λ ways. ways ≡ first ∷ second ∷ third ∷ []) }
{
    let mut ways = Stack::new(alloc);
    ways.push(third)?;
    ways.push(second)?;
    ways.push(first)?;
    Ok(ways)
}

/// The way to the next position with this slot on top; none without a slot.
pub(crate) fn leave(
    stacks: &mut Stacks,
    point: Point<'_>,
    slot: Option<Slot>,
    rest: usize,
) -> Result<Option<Stack<Due>>, AllocError>
    requires stands { Stands stacks.old point.shape.now }
    requires inside { rest < length stacks.old }
    ensures { IfOk result (λ o. AreWaysAt stacks.old stacks.new point.entry o
        (λ p s. leaves (option_map slot_view slot) p s (stack_at stacks.old rest))) }
{
    let Some(slot) = slot else {
        return Ok(None);
    };
    let slots = stacks.push(slot, rest)?;
    let on = to(point.position + 1, point.shape, slots, point.shape.loops)?;
    let found = one(point.alloc, on)?;
    Ok(Some(found))
}
