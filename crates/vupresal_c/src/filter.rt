//! The handle of a filter, in C's memory.

ghost use Rattle.std.specs.Arc.{arc_value};
ghost use Rattle.std.specs.Prelude.{◌≡◌, ◌≢◌, None, Some, MatchOption, true, false};

use c_slots::FilterSlot;
use loose::Loose;
use rbac_policy::Admitted;
use std::alloc::Global;
use std::mem;
use std::sync::Arc;

/// A filter's handle. C sets all its bytes to 0 before its first use.
#[repr(C)]
#[derive(Drop)]
pub struct Filter {
    slot: FilterSlot,
    held: bool,
    ghost full: { held ≡ true → slot.held ≢ None },
}

impl Filter {
    ghost use Rattle.vupresal_c.specs.Handles.{filter_in};

    /// An empty handle.
    pub(crate) fn empty() -> Filter
        ensures { filter_in result ≡ None }
    {
        Filter {
            slot: FilterSlot::empty(),
            held: false,
        }
    }

    /// Takes the owner of the filter out of the handle.
    pub(crate) fn take(&mut self, alloc: Global) -> Option<Box<Arc<Admitted>>>
        ensures taken { MatchOption result (filter_in self.old ≡ None)
            (λ owner. filter_in self.old ≡ Some (arc_value owner.value)) }
        ensures left { filter_in self.new ≡ None }
    {
        let Filter { slot, held } = mem::replace(self, Filter::empty());
        if held {
            Some(slot.into_loose(alloc).into_box())
        } else {
            None
        }
    }

    /// Puts the owner of a filter into the handle, which is empty.
    pub(crate) fn put(&mut self, owner: Box<Arc<Admitted>>)
        ensures { filter_in self.new ≡ Some (arc_value owner.value) }
    {
        *self = Filter {
            slot: FilterSlot::of(Loose::of(owner)),
            held: true,
        };
    }
}
