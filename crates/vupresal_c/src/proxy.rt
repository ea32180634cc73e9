//! The handle of a proxy's core, in C's memory.

ghost use Rattle.std.specs.Prelude.{◌≡◌, ◌≢◌, None, Some, MatchOption, true, false};

use c_slots::{Core, ProxySlot};
use loose::Loose;
use std::alloc::Global;
use std::mem;

/// A proxy's handle. C sets all its bytes to 0 before its first use.
#[repr(C)]
#[derive(Drop)]
pub struct Proxy {
    slot: ProxySlot,
    held: bool,
    ghost full: { held ≡ true → slot.held ≢ None },
}

impl Proxy {
    ghost use Rattle.vupresal_c.specs.Handles.{core_in};

    /// An empty handle.
    pub(crate) fn empty() -> Proxy
        ensures { core_in result ≡ None }
    {
        Proxy {
            slot: ProxySlot::empty(),
            held: false,
        }
    }

    /// Takes the core out of the handle.
    pub(crate) fn take(&mut self, alloc: Global) -> Option<Box<Core>>
        ensures taken { MatchOption result (core_in self.old ≡ None)
            (λ core. core_in self.old ≡ Some core.value) }
        ensures left { core_in self.new ≡ None }
    {
        let Proxy { slot, held } = mem::replace(self, Proxy::empty());
        if held {
            Some(slot.into_loose(alloc).into_box())
        } else {
            None
        }
    }

    /// Puts a core into the handle, which is empty.
    pub(crate) fn put(&mut self, core: Box<Core>)
        ensures { core_in self.new ≡ Some core.value }
    {
        *self = Proxy {
            slot: ProxySlot::of(Loose::of(core)),
            held: true,
        };
    }
}
