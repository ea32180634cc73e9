//! Room in C's memory for the core of a proxy.

ghost use Rattle.std.specs.Coded.{coded_option};
ghost use Rattle.std.specs.Prelude.{◌≡◌, ◌≢◌, Option, None, Some};
ghost use Rattle.c_slots.specs.contracts.proxy_slot.Core.{the_row};
ghost use Rattle.c_slots.specs.declared.proxy_slot.Core.{Core};
ghost use Rattle.c_slots.specs.Owns.{core_owns};

use loose::Loose;
use proxy_core::{Output, Proxy};
use std::alloc::Global;
use std::marker::Model;

/// The core of a proxy, and the output of its last event.
#[derive(Drop)]
pub struct Core {
    pub proxy: Proxy,
    pub output: Output,
}

/// Room for the pointer of a core's box. An empty slot owns nothing, and its bytes are any, so C may set them to 0.
/// Whether it is empty is known to the proof alone.
#[repr(C)]
#[derive(Drop)]
pub struct ProxySlot {
    at: *mut u8,
    pub ghost held: { Option Core } by { coded_option the_row.coded },
}

impl Model for ProxySlot {
    ghost also_owns = { λ s. core_owns s.at s.held };
}

// Any thread may have a slot.
unsafe impl Send for ProxySlot {}

impl ProxySlot {
    /// An empty slot.
    pub fn empty() -> ProxySlot
        ensures { result.held ≡ None }
    {
        ProxySlot {
            at: std::ptr::null_mut(),
        }
    }

    /// A slot with this core.
    pub fn of(value: Loose<Core, Global>) -> ProxySlot
        ensures { result.held ≡ Some value.value }
    {
        let Loose { at, alloc: _ } = value;
        ProxySlot { at: at as *mut u8 }
    }

    /// The core in the slot.
    pub fn into_loose(self, alloc: Global) -> Loose<Core, Global>
        requires { self.held ≢ None }
        ensures { self.held ≡ Some result.value }
    {
        let ProxySlot { at } = self;
        Loose {
            at: at as *mut Core,
            alloc,
        }
    }
}
