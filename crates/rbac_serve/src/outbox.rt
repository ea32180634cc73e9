//! The bytes that wait to be sent on a stream.
ghost use Rattle.std.specs.Prelude.{◌≡◌, ◌≢◌, ◌≤◌, ◌<◌, ◌↔◌, ◌⊎◌, ◌++◌, [], drop, length, IsTrue, OnErr, OnOk};
ghost use Rattle.rbac_serve.specs.Sending.{Sends};

use byte_queue::ByteQueue;
use std::alloc::{AllocError, Global};
use std::io::{self, ErrorKind, Write};
use std::marker::Model;

/// How a write of waiting bytes ended.
#[derive(Clone, Copy, PartialEq, Eq, Debug)]
pub enum Sent {
    /// No bytes wait any more.
    All,
    /// The stream took the first bytes of those that wait.
    Part,
    /// The stream takes none at present.
    Blocked,
    /// The stream takes no more.
    Lost,
}

/// The bytes that wait to be sent on a stream. They are sent in the order in which they were put.
#[derive(Drop)]
pub struct Outbox {
    queue: ByteQueue,
}

impl Model for Outbox {
    ghost use Rattle.std.specs.Prelude.{ℕ, List};

    ghost Value = { List ℕ };

    ghost view = { λ outbox. outbox.queue.waiting };
}

impl Outbox {
    /// An outbox in which no bytes wait. It takes no memory.
    pub fn new(alloc: Global) -> Outbox
        ensures { result ≡ [] }
    {
        Outbox {
            queue: ByteQueue::new(alloc),
        }
    }

    /// An outbox in which these bytes wait. It takes no memory.
    pub fn of(bytes: Vec<u8>) -> Outbox
        ensures { result ≡ bytes.items }
    {
        Outbox {
            queue: ByteQueue::of(bytes),
        }
    }

    /// How many bytes wait.
    pub fn len(&self) -> usize
        ensures { result ≡ length self.now }
    {
        self.queue.len()
    }

    /// Whether no bytes wait.
    pub fn is_empty(&self) -> bool
        ensures { IsTrue result ↔ (self.now ≡ []) }
    {
        self.queue.is_empty()
    }

    /// The bytes that wait.
    pub fn rest(&self) -> &[u8]
        ensures { result.now ≡ self.now }
    {
        self.queue.rest()
    }

    /// Puts bytes after those that wait. After an error all is as before the call.
    pub fn put(&mut self, bytes: &[u8]) -> Result<(), AllocError>
        ensures whole { OnOk result (self.new ≡ self.old ++ bytes.now) }
        ensures fault { OnErr result (self.new ≡ self.old) }
    {
        self.queue.put(bytes, &[])
    }

    /// The same with bytes of the caller's, which are not copied if no others wait.
    pub fn add(&mut self, bytes: Vec<u8>) -> Result<(), AllocError>
        ensures whole { OnOk result (self.new ≡ self.old ++ bytes.items) }
        ensures fault { OnErr result (self.new ≡ self.old) }
    {
        if self.is_empty() {
            *self = Outbox::of(bytes);
            return Ok(());
        }
        self.put(&bytes)
    }

    /// Forgets the bytes that wait. It takes no memory.
    pub fn clear(&mut self)
        ensures { self.new ≡ [] }
    {
        self.queue.clear();
    }

    /// Writes once, if bytes wait. What the stream took, and after it what waits, is what waited before.
    pub fn send<W: Write>(&mut self, stream: &mut W) -> Sent
        ensures order { Sends (W.contents stream.old) (W.contents stream.new) self.old self.new }
        ensures all { (result ≡ Sent.All) ↔ (self.new ≡ []) }
        ensures part { result ≡ Sent.Part → length self.new < length self.old }
        ensures none { (result ≡ Sent.Blocked) ⊎ (result ≡ Sent.Lost) → self.new ≡ self.old }
    {
        let rest = self.queue.rest();
        if rest.is_empty() {
            return Sent::All;
        }
        match stream.write(rest) {
            Ok(0) => Sent::Lost,
            Ok(count) => self.forget(count),
            Err(error) => ended_by(&error),
        }
    }

    /// So many bytes were sent of those that wait, from the first on. It takes no memory.
    pub fn drop_first(&mut self, count: usize)
        requires { count ≤ length self.old }
        ensures { self.new ≡ drop count self.old }
    {
        if count > 0 {
            self.forget(count);
        }
    }

    // The first bytes of those that wait were sent.
    fn forget(&mut self, count: usize) -> Sent
        requires { (0 < count) × (count ≤ length self.old) }
        ensures left { self.new ≡ drop count self.old }
        ensures is { ((result ≡ Sent.All) × (self.new ≡ []))
            ⊎ ((result ≡ Sent.Part) × (self.new ≢ []) × (length self.new < length self.old)) }
    {
        self.queue.take(count);
        if self.queue.is_empty() {
            return Sent::All;
        }
        Sent::Part
    }
}

// How a write ended that failed with this error.
fn ended_by(error: &io::Error) -> Sent
    ensures { (result ≡ Sent.Blocked) ⊎ (result ≡ Sent.Lost) }
{
    match error.kind() {
        ErrorKind::WouldBlock | ErrorKind::Interrupted => Sent::Blocked,
        _ => Sent::Lost,
    }
}
