//! Room in C's memory for a connection.

ghost use Rattle.std.specs.Coded.{coded_option};
ghost use Rattle.std.specs.Prelude.{◌≡◌, ◌≢◌, Option, None, Some};
ghost use Rattle.c_slots.specs.contracts.conn_slot.Opened.{the_row};
ghost use Rattle.c_slots.specs.declared.conn_slot.Opened.{Opened};
ghost use Rattle.c_slots.specs.Owns.{conn_owns};

use attributes::Conn;
use loose::Loose;
use std::alloc::Global;
use std::marker::Model;

/// A connection, of which requests are made.
#[derive(Drop)]
pub struct Opened {
    pub conn: Conn,
}

/// Room for the pointer of a connection's box. An empty slot owns nothing, and its bytes are any, so C may set them to 0.
/// Whether it is empty is known to the proof alone.
#[repr(C)]
#[derive(Drop)]
pub struct ConnSlot {
    at: *mut u8,
    pub ghost held: { Option Opened } by { coded_option the_row.coded },
}

impl Model for ConnSlot {
    ghost also_owns = { λ s. conn_owns s.at s.held };
}

// Any thread may have a slot.
unsafe impl Send for ConnSlot {}

impl ConnSlot {
    /// An empty slot.
    pub fn empty() -> ConnSlot
        ensures { result.held ≡ None }
    {
        ConnSlot {
            at: std::ptr::null_mut(),
        }
    }

    /// A slot with this connection.
    pub fn of(value: Loose<Opened, Global>) -> ConnSlot
        ensures { result.held ≡ Some value.value }
    {
        let Loose { at, alloc: _ } = value;
        ConnSlot { at: at as *mut u8 }
    }

    /// The connection in the slot.
    pub fn into_loose(self, alloc: Global) -> Loose<Opened, Global>
        requires { self.held ≢ None }
        ensures { self.held ≡ Some result.value }
    {
        let ConnSlot { at } = self;
        Loose {
            at: at as *mut Opened,
            alloc,
        }
    }
}
