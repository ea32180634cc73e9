//! A queue of bytes.
ghost use Rattle.std.specs.Prelude.{◌≡◌, ◌≤◌, ◌+◌, ◌↔◌, ◌++◌, [], drop, length, vec_len, IsTrue, OnErr, OnOk};
ghost use Rattle.byte_queue.specs.Queues.{only};

use std::alloc::{AllocError, Global};
use std::marker::Model;

/// A queue of bytes. It keeps taken bytes for a while, but no more than wait when others are put.
#[derive(Debug, Drop)]
pub struct ByteQueue {
    bytes: Vec<u8>,
    // how many of them were taken
    taken: usize,
}

impl Model for ByteQueue {
    ghost use Rattle.std.specs.Prelude.{◌≤◌, drop, vec_len};
    ghost use Rattle.byte_queue.specs.Queues.{QueueValue};

    ghost Value = { QueueValue };

    ghost view = { λ queue. record { waiting = drop queue.taken queue.bytes.items; taken = queue.taken } };

    ghost invariant = { λ queue. queue.taken ≤ vec_len queue.bytes };
}

impl ByteQueue {
    /// An empty queue. It takes no memory.
    pub fn new(alloc: Global) -> ByteQueue
        ensures { result ≡ only [] }
    {
        ByteQueue::of(Vec::new(alloc))
    }

    /// A queue of these bytes. It takes no memory.
    pub fn of(bytes: Vec<u8>) -> ByteQueue
        ensures { result ≡ only bytes.items }
    {
        ByteQueue { bytes, taken: 0 }
    }

    /// How many bytes wait.
    pub fn len(&self) -> usize
        ensures { result ≡ length self.now.waiting }
    {
        self.bytes.len() - self.taken
    }

    /// Whether no bytes wait.
    pub fn is_empty(&self) -> bool
        ensures { IsTrue result ↔ (self.now.waiting ≡ []) }
    {
        self.len() == 0
    }

    /// The bytes that wait.
    pub fn rest(&self) -> &[u8]
        ensures { result.now ≡ self.now.waiting }
    {
        &self.bytes[self.taken..]
    }

    /// Puts bytes after those that wait, and these after them. Of the bytes that were taken, at most as many are kept as
    /// waited. After an error all is as before the call.
    pub fn put(&mut self, bytes: &[u8], end: &[u8]) -> Result<(), AllocError>
        ensures whole { OnOk result (self.new.waiting ≡ self.old.waiting ++ bytes.now ++ end.now) }
        ensures kept { OnOk result (self.new.taken ≤ length self.old.waiting) }
        ensures fault { OnErr result (self.new ≡ self.old) }
    {
        append_both(&mut self.bytes, &mut self.taken, bytes, end)
    }

    /// Takes the first of the bytes that wait. It takes no memory.
    pub fn take(&mut self, count: usize)
        requires { count ≤ length self.old.waiting }
        ensures left { self.new.waiting ≡ drop count self.old.waiting }
        ensures kept { self.new.taken ≤ self.old.taken + count }
    {
        self.taken += count;
        if self.taken == self.bytes.len() {
            self.clear();
        }
    }

    /// Forgets all bytes. It takes no memory.
    pub fn clear(&mut self)
        ensures { self.new ≡ only [] }
    {
        self.bytes.clear();
        self.taken = 0;
    }
}

/// Puts bytes after those from the place `at` on. If most bytes are before the place, drops these: then the place is 0.
/// After an error all is as before the call.
pub fn append(bytes: &mut Vec<u8>, at: &mut usize, more: &[u8]) -> Result<(), AllocError>
    requires { at.old ≤ vec_len bytes.old }
    ensures within { at.new ≤ vec_len bytes.new }
    ensures found { OnOk result (drop at.new bytes.new.items ≡ drop at.old bytes.old.items ++ more.now) }
    ensures kept { OnOk result (at.new ≤ length (drop at.old bytes.old.items)) }
    ensures fault { OnErr result ((at.new ≡ at.old) × (bytes.new.items ≡ bytes.old.items)) }
{
    append_both(bytes, at, more, &[])
}

// The same with two parts, these after those.
fn append_both(
    bytes: &mut Vec<u8>,
    at: &mut usize,
    more: &[u8],
    end: &[u8],
) -> Result<(), AllocError>
    requires { at.old ≤ vec_len bytes.old }
    ensures within { at.new ≤ vec_len bytes.new }
    ensures found { OnOk result (drop at.new bytes.new.items ≡ drop at.old bytes.old.items ++ more.now ++ end.now) }
    ensures kept { OnOk result (at.new ≤ length (drop at.old bytes.old.items)) }
    ensures fault { OnErr result ((at.new ≡ at.old) × (bytes.new.items ≡ bytes.old.items)) }
{
    if *at <= bytes.len() / 2 {
        return extend(bytes, more, end);
    }
    let rest = &bytes[*at..];
    let mut both = Vec::with_capacity(
        *bytes.allocator(),
        rest.len().saturating_add(more.len() + end.len()),
    )?;
    both.extend_from_slice(rest)?;
    extend(&mut both, more, end)?;
    *bytes = both;
    *at = 0;
    Ok(())
}

// Puts bytes after others, and these after them.
fn extend(bytes: &mut Vec<u8>, more: &[u8], end: &[u8]) -> Result<(), AllocError>
    ensures found { OnOk result (bytes.new.items ≡ bytes.old.items ++ more.now ++ end.now) }
    ensures fault { OnErr result (bytes.new.items ≡ bytes.old.items) }
{
    bytes.reserve(more.len() + end.len())?;
    bytes.extend_from_slice(more)?;
    bytes.extend_from_slice(end)?;
    Ok(())
}
