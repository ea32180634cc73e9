//! Room in C's memory for a chain of filters.

ghost use Rattle.std.specs.Coded.{coded_option};
ghost use Rattle.std.specs.Prelude.{◌≡◌, ◌≢◌, Option, None, Some};
ghost use Rattle.c_slots.specs.contracts.chain_slot.Chain.{the_row};
ghost use Rattle.c_slots.specs.declared.chain_slot.Chain.{Chain};
ghost use Rattle.c_slots.specs.Owns.{chain_owns};

use loose::Loose;
use rbac_policy::Admitted;
use std::alloc::Global;
use std::marker::Model;
use std::sync::Arc;

/// Owners of filters, in the order in which they are tried.
#[derive(Drop)]
pub struct Chain {
    pub filters: Vec<Arc<Admitted>>,
}

/// Room for the pointer of a chain's box. An empty slot owns nothing, and its bytes are any, so C may set them to 0.
/// Whether it is empty is known to the proof alone.
#[repr(C)]
#[derive(Drop)]
pub struct ChainSlot {
    at: *mut u8,
    pub ghost held: { Option Chain } by { coded_option the_row.coded },
}

impl Model for ChainSlot {
    ghost also_owns = { λ s. chain_owns s.at s.held };
}

// Any thread may have a slot.
unsafe impl Send for ChainSlot {}

impl ChainSlot {
    /// An empty slot.
    pub fn empty() -> ChainSlot
        ensures { result.held ≡ None }
    {
        ChainSlot {
            at: std::ptr::null_mut(),
        }
    }

    /// A slot with this chain.
    pub fn of(value: Loose<Chain, Global>) -> ChainSlot
        ensures { result.held ≡ Some value.value }
    {
        let Loose { at, alloc: _ } = value;
        ChainSlot { at: at as *mut u8 }
    }

    /// The chain in the slot.
    pub fn into_loose(self, alloc: Global) -> Loose<Chain, Global>
        requires { self.held ≢ None }
        ensures { self.held ≡ Some result.value }
    {
        let ChainSlot { at } = self;
        Loose {
            at: at as *mut Chain,
            alloc,
        }
    }
}
