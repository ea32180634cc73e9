//! Room in C's memory for a request.

ghost use Rattle.std.specs.Coded.{coded_option};
ghost use Rattle.std.specs.Prelude.{◌≡◌, ◌≢◌, Option, None, Some};
ghost use Rattle.c_slots.specs.contracts.request_slot.Made.{the_row};
ghost use Rattle.c_slots.specs.declared.request_slot.Made.{Made};
ghost use Rattle.c_slots.specs.Owns.{request_owns};

use attributes::Request;
use loose::Loose;
use std::alloc::Global;
use std::marker::Model;

/// A request that was made of its parts or its head.
#[derive(Drop)]
pub struct Made {
    pub request: Request,
}

/// Room for the pointer of a request's box. An empty slot owns nothing, and its bytes are any, so C may set them to 0.
/// Whether it is empty is known to the proof alone.
#[repr(C)]
#[derive(Drop)]
pub struct RequestSlot {
    at: *mut u8,
    pub ghost held: { Option Made } by { coded_option the_row.coded },
}

impl Model for RequestSlot {
    ghost also_owns = { λ s. request_owns s.at s.held };
}

// Any thread may have a slot.
unsafe impl Send for RequestSlot {}

impl RequestSlot {
    /// An empty slot.
    pub fn empty() -> RequestSlot
        ensures { result.held ≡ None }
    {
        RequestSlot {
            at: std::ptr::null_mut(),
        }
    }

    /// A slot with this request.
    pub fn of(value: Loose<Made, Global>) -> RequestSlot
        ensures { result.held ≡ Some value.value }
    {
        let Loose { at, alloc: _ } = value;
        RequestSlot { at: at as *mut u8 }
    }

    /// The request in the slot.
    pub fn into_loose(self, alloc: Global) -> Loose<Made, Global>
        requires { self.held ≢ None }
        ensures { self.held ≡ Some result.value }
    {
        let RequestSlot { at } = self;
        Loose {
            at: at as *mut Made,
            alloc,
        }
    }
}
