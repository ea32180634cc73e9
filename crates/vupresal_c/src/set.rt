//! The handle of a set of filters, in C's memory.

ghost use Rattle.std.specs.Prelude.{◌≡◌, ◌≢◌, [], None, Some, MatchOption, true, false};

use c_slots::{Chain, ChainSlot};
use loose::Loose;
use std::alloc::Global;
use std::mem;

/// The handle of a set of filters. C sets all its bytes to 0 before its first use.
#[repr(C)]
#[derive(Drop)]
pub struct Set {
    slot: ChainSlot,
    held: bool,
    ghost full: { held ≡ true → slot.held ≢ None },
}

impl Set {
    ghost use Rattle.vupresal_c.specs.Handles.{chain_filters, filters_in};

    /// An empty handle.
    pub(crate) fn empty() -> Set
        ensures { filters_in result ≡ [] }
    {
        Set {
            slot: ChainSlot::empty(),
            held: false,
        }
    }

    /// Takes the filters out of the handle.
    pub(crate) fn take(&mut self, alloc: Global) -> Option<Box<Chain>>
        ensures taken { MatchOption result (filters_in self.old ≡ [])
            (λ chain. filters_in self.old ≡ chain_filters chain.value) }
        ensures left { filters_in self.new ≡ [] }
    {
        let Set { slot, held } = mem::replace(self, Set::empty());
        if held {
            Some(slot.into_loose(alloc).into_box())
        } else {
            None
        }
    }

    /// Puts filters into the handle, which is empty.
    pub(crate) fn put(&mut self, chain: Box<Chain>)
        ensures { filters_in self.new ≡ chain_filters chain.value }
    {
        *self = Set {
            slot: ChainSlot::of(Loose::of(chain)),
            held: true,
        };
    }
}
