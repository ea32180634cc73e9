//! The sizes of the locals in scope. The outermost local is first.

ghost use Rattle.std.specs.Prelude.{◌≡◌, IfOk};
ghost use Rattle.cel_types.specs.TypedMeaning.{local_at};
ghost use Rattle.cel_costs.specs.Costs.{known};
ghost use Rattle.cost_bound.specs.private.Measuring.{scope_in};
ghost use Rattle.cost_bound.specs.private.ScopeView.{scope_view};
ghost use Rattle.cost_bound.specs.private.SizeView.{size_view};

use crate::measuring::Measuring;
use crate::size::ValueSize;
use std::alloc::{AllocError, Global};

/// The size of the local with so many others outside of it.
pub(crate) fn find(at: &Measuring<'_>, outside: u8) -> Result<ValueSize, AllocError>
    ensures { IfOk result (λ size. size_view size ≡ known (local_at outside (scope_in at.now))) }
{
    let place = outside as usize;
    let count = at.around.locals.len();
    if place < count {
        return at.around.locals[place].copy();
    }
    if place - count < at.inner.len() {
        return at.inner[place - count].copy();
    }
    Ok(ValueSize::Flat)
}

/// All locals in scope as one list.
pub(crate) fn all_of<'s>(
    alloc: Global,
    at: &Measuring<'s>,
) -> Result<Vec<&'s ValueSize>, AllocError>
    ensures { IfOk result (λ all. scope_view all.items ≡ scope_in at.now) }
{
    let count = at.around.locals.len().saturating_add(at.inner.len());
    let mut all = Vec::with_capacity(alloc, count)?;
    all.extend_from_slice(at.around.locals)?;
    all.extend_from_slice(at.inner)?;
    Ok(all)
}
