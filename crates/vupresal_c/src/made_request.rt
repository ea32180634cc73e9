//! The handle of a request, in C's memory.

ghost use Rattle.std.specs.Prelude.{◌≡◌, ◌≢◌, None, Some, MatchOption, true, false};

use c_slots::{Made, RequestSlot};
use loose::Loose;
use std::alloc::Global;
use std::mem;

/// A request's handle. C sets all its bytes to 0 before its first use.
#[repr(C)]
#[derive(Drop)]
pub struct MadeRequest {
    slot: RequestSlot,
    held: bool,
    ghost full: { held ≡ true → slot.held ≢ None },
}

impl MadeRequest {
    ghost use Rattle.vupresal_c.specs.Handles.{request_in};

    /// An empty handle.
    pub(crate) fn empty() -> MadeRequest
        ensures { request_in result ≡ None }
    {
        MadeRequest {
            slot: RequestSlot::empty(),
            held: false,
        }
    }

    /// Takes the request out of the handle.
    pub(crate) fn take(&mut self, alloc: Global) -> Option<Box<Made>>
        ensures taken { MatchOption result (request_in self.old ≡ None)
            (λ made. request_in self.old ≡ Some made.value.request) }
        ensures left { request_in self.new ≡ None }
    {
        let MadeRequest { slot, held } = mem::replace(self, MadeRequest::empty());
        if held {
            Some(slot.into_loose(alloc).into_box())
        } else {
            None
        }
    }

    /// Puts a request into the handle, which is empty.
    pub(crate) fn put(&mut self, made: Box<Made>)
        ensures { request_in self.new ≡ Some made.value.request }
    {
        *self = MadeRequest {
            slot: RequestSlot::of(Loose::of(made)),
            held: true,
        };
    }
}
