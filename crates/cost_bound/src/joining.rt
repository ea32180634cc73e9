//! Joins of sizes that nothing else needs: the one that has room for both is the join, and is not copied.

ghost use Rattle.std.specs.Prelude.{◌≡◌, IfOk, IfSome, IsTrue};
ghost use Rattle.cel_costs.specs.Sizes.{Text, join};
ghost use Rattle.cost_bound.specs.private.SizeView.{size_view};

use crate::size::ValueSize;
use crate::wider::{covers, join};
use std::alloc::{AllocError, Global};

/// The join of two sizes. Those of texts, and any with a flat one before it, are joined without a call.
#[inline(always)]
pub(crate) fn join_owned(
    alloc: Global,
    left: ValueSize,
    right: ValueSize,
) -> Result<ValueSize, AllocError>
    ensures { IfOk result (λ size. size_view size ≡ join (size_view left) (size_view right)) }
{
    if is_flat(&left, &right) {
        return Ok(right);
    }
    if let Some(most) = longer_text(&left, &right) {
        return Ok(ValueSize::Text(most));
    }
    join_kept(alloc, left, right)
}

// Whether the left size is flat, so that the right one is the join.
fn is_flat(left: &ValueSize, right: &ValueSize) -> bool
    ensures { IsTrue result → join (size_view left.now) (size_view right.now) ≡ size_view right.now }
{
    match (left, right) {
        (ValueSize::Flat, _) => true,
        _ => false,
    }
}

// The greater of two texts' lengths.
fn longer_text(left: &ValueSize, right: &ValueSize) -> Option<u64>
    ensures { IfSome result (λ most. join (size_view left.now) (size_view right.now) ≡ Text most) }
{
    match (left, right) {
        (ValueSize::Text(n), ValueSize::Text(m)) => Some((*n).max(*m)),
        _ => None,
    }
}

// The join of two sizes of any kinds.
fn join_kept(alloc: Global, left: ValueSize, right: ValueSize) -> Result<ValueSize, AllocError>
    ensures { IfOk result (λ size. size_view size ≡ join (size_view left) (size_view right)) }
{
    if covers(&left, &right) {
        return Ok(left);
    }
    if covers(&right, &left) {
        return Ok(right);
    }
    join(alloc, &left, &right)
}
