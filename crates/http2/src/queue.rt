//! Bytes that come at the end and go at the front.

ghost use Rattle.std.specs.Prelude.{◌≡◌, ◌≤◌, ◌++◌, [], length, drop, OnOk, OnErr};

use byte_queue::ByteQueue;
use std::alloc::{AllocError, Global};
use std::marker::Model;

/// Bytes that come at the end and go at the front: a queue without its memory.
#[derive(Debug, Drop)]
pub(crate) struct Queue {
    bytes: ByteQueue,
}

impl Model for Queue {
    ghost use Rattle.std.specs.Prelude.{ℕ, List};

    ghost Value = { List ℕ };

    ghost view = { λ q. q.bytes.waiting };
}

impl Queue {
    /// No bytes. It takes no memory.
    pub(crate) fn new(alloc: Global) -> Queue
        ensures { result ≡ [] }
    {
        Queue {
            bytes: ByteQueue::new(alloc),
        }
    }

    /// The bytes, in order.
    pub(crate) fn as_slice(&self) -> &[u8]
        ensures { result.now ≡ self.now }
    {
        self.bytes.rest()
    }

    /// How many bytes there are.
    pub(crate) fn len(&self) -> usize
        ensures { result ≡ length self.now }
    {
        self.bytes.len()
    }

    /// Adds bytes after the others. If memory runs out all is as before.
    pub(crate) fn push(&mut self, bytes: &[u8]) -> Result<(), AllocError>
        ensures found { OnOk result (self.new ≡ self.old ++ bytes.now) }
        ensures fault { OnErr result (self.new ≡ self.old) }
    {
        self.bytes.put(bytes, &[])
    }

    /// Lets the first bytes go.
    pub(crate) fn skip(&mut self, count: usize)
        requires { count ≤ length self.old }
        ensures { self.new ≡ drop count self.old }
    {
        self.bytes.take(count);
    }
}
