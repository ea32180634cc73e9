//! Room in C's memory for an owner of an admitted filter.

ghost use Rattle.std.specs.Coded.{coded_option};
ghost use Rattle.std.specs.Prelude.{◌≡◌, ◌≢◌, Option, None, Some};
ghost use Rattle.c_slots.specs.Owns.{Owner, owner_row, slot_owns};

use loose::Loose;
use rbac_policy::Admitted;
use std::alloc::Global;
use std::marker::Model;
use std::sync::Arc;

/// Room for the pointer of a box, in which is an owner of a filter. An empty slot owns nothing, and its bytes are any, so C
/// may set them to 0. Whether it is empty is known to the proof alone.
#[repr(C)]
#[derive(Drop)]
pub struct FilterSlot {
    at: *mut u8,
    pub ghost held: { Option Owner } by { coded_option owner_row.coded },
}

impl Model for FilterSlot {
    ghost also_owns = { λ s. slot_owns s.at s.held };
}

// Any thread may have a slot. The owners of a filter are counted by an atomic number.
unsafe impl Send for FilterSlot {}

impl FilterSlot {
    /// An empty slot.
    pub fn empty() -> FilterSlot
        ensures { result.held ≡ None }
    {
        FilterSlot {
            at: std::ptr::null_mut(),
        }
    }

    /// A slot with this owner.
    pub fn of(value: Loose<Arc<Admitted>, Global>) -> FilterSlot
        ensures { result.held ≡ Some value.value }
    {
        let Loose { at, alloc: _ } = value;
        FilterSlot { at: at as *mut u8 }
    }

    /// The owner in the slot.
    pub fn into_loose(self, alloc: Global) -> Loose<Arc<Admitted>, Global>
        requires { self.held ≢ None }
        ensures { self.held ≡ Some result.value }
    {
        let FilterSlot { at } = self;
        Loose {
            at: at as *mut Arc<Admitted>,
            alloc,
        }
    }
}
