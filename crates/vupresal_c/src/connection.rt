//! The handle of a connection, in C's memory.

ghost use Rattle.std.specs.Prelude.{◌≡◌, ◌≢◌, None, Some, MatchOption, true, false};
ghost use Rattle.attributes.specs.Conn.{conn_view};

use c_slots::{ConnSlot, Opened};
use loose::Loose;
use std::alloc::Global;
use std::mem;

/// A connection's handle. C sets all its bytes to 0 before its first use.
#[repr(C)]
#[derive(Drop)]
pub struct Connection {
    slot: ConnSlot,
    held: bool,
    ghost full: { held ≡ true → slot.held ≢ None },
}

impl Connection {
    ghost use Rattle.vupresal_c.specs.Handles.{facts_in};

    /// An empty handle.
    pub(crate) fn empty() -> Connection
        ensures { facts_in result ≡ None }
    {
        Connection {
            slot: ConnSlot::empty(),
            held: false,
        }
    }

    /// Takes the connection out of the handle.
    pub(crate) fn take(&mut self, alloc: Global) -> Option<Box<Opened>>
        ensures taken { MatchOption result (facts_in self.old ≡ None)
            (λ opened. facts_in self.old ≡ Some (conn_view opened.value.conn)) }
        ensures left { facts_in self.new ≡ None }
    {
        let Connection { slot, held } = mem::replace(self, Connection::empty());
        if held {
            Some(slot.into_loose(alloc).into_box())
        } else {
            None
        }
    }

    /// Puts a connection into the handle, which is empty.
    pub(crate) fn put(&mut self, opened: Box<Opened>)
        ensures { facts_in self.new ≡ Some (conn_view opened.value.conn) }
    {
        *self = Connection {
            slot: ConnSlot::of(Loose::of(opened)),
            held: true,
        };
    }
}
