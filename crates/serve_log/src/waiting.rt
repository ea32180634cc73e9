//! The lines that wait to be written to a log.
ghost use Rattle.std.specs.Prelude.{◌≡◌, ◌≢◌, ◌≤◌, ◌<◌, ◌↔◌, ◌++◌, [], drop, length, IsTrue, OnErr, OnOk};
ghost use Rattle.serve_log.specs.Writing.{Writes, line_of};

use byte_queue::ByteQueue;
use std::alloc::{AllocError, Global};
use std::io::{self, ErrorKind, Write};
use std::marker::Model;

/// The greatest number of bytes that wait: 1 MiB.
pub const MOST_WAITING: usize = 1_048_576;

/// Why a line is not added.
#[derive(Clone, Copy, PartialEq, Eq, Debug)]
pub enum LostLine {
    /// More than `MOST_WAITING` bytes would wait.
    Full,
    /// Memory ran out.
    Memory,
}

/// How a write of waiting lines ended.
#[derive(Drop)]
pub enum Written {
    /// No bytes wait any more.
    All,
    /// The writer took the first bytes of those that wait, or none at present.
    Part,
    /// The write failed.
    Failed(io::Error),
}

/// The lines that wait to be written to a log. They are written in the order in which they were added.
#[derive(Drop)]
pub struct Waiting {
    queue: ByteQueue,
    // whether the bytes that were written end within a line
    is_half: bool,
}

impl Model for Waiting {
    ghost use Rattle.std.specs.Prelude.{ℕ, List};

    ghost Value = { List ℕ };

    ghost view = { λ waiting. waiting.queue.waiting };
}

impl Waiting {
    /// No lines wait. It takes no memory.
    pub fn new(alloc: Global) -> Waiting
        ensures { result ≡ [] }
    {
        Waiting {
            queue: ByteQueue::new(alloc),
            is_half: false,
        }
    }

    /// How many bytes wait.
    pub fn len(&self) -> usize
        ensures { result ≡ length self.now }
    {
        self.queue.len()
    }

    /// Whether no bytes wait.
    pub fn is_empty(&self) -> bool
        ensures { IsTrue result ↔ (self.now ≡ []) }
    {
        self.queue.is_empty()
    }

    /// Whether the first of the bytes that wait are the rest of a line.
    pub fn is_half(&self) -> bool {
        self.is_half
    }

    /// How many lines end among the bytes that wait.
    pub fn lines(&self) -> u64 {
        let mut lines = 0u64;
        for byte in self.queue.rest() {
            if *byte == b'\n' {
                lines = lines.saturating_add(1);
            }
        }
        lines
    }

    /// Adds a line with this text, if at most `MOST_WAITING` bytes wait then. If it is not added, all is as before the
    /// call.
    pub fn line(&mut self, text: &str) -> Result<(), LostLine>
        ensures whole { OnOk result (self.new ≡ self.old ++ line_of text.now) }
        ensures most { OnOk result (length self.new ≤ 1048576) }
        ensures fault { OnErr result (self.new ≡ self.old) }
    {
        if text.len() >= MOST_WAITING || self.len() >= MOST_WAITING - text.len() {
            return Err(LostLine::Full);
        }
        match self.queue.put(text.as_bytes(), b"\n") {
            Ok(()) => Ok(()),
            Err(AllocError) => Err(LostLine::Memory),
        }
    }

    /// Writes once, if bytes wait. What the writer took, and after it what waits, is what waited before.
    pub fn write<W: Write>(&mut self, writer: &mut W) -> Written
        ensures order { Writes (W.contents writer.old) (W.contents writer.new) self.old self.new }
        ensures all { result ≡ Written.All → self.new ≡ [] }
    {
        let rest = self.queue.rest();
        if rest.is_empty() {
            return Written::All;
        }
        match writer.write(rest) {
            Ok(0) => Written::Failed(io::Error::from(ErrorKind::WriteZero)),
            Ok(count) => self.forget(count),
            Err(error) => ended_by(error),
        }
    }

    // The first bytes of those that wait were written.
    fn forget(&mut self, count: usize) -> Written
        requires { (0 < count) × (count ≤ length self.old) }
        ensures left { self.new ≡ drop count self.old }
        ensures all { result ≡ Written.All → self.new ≡ [] }
    {
        self.is_half = self.queue.rest()[count - 1] != b'\n';
        self.queue.take(count);
        if !self.queue.is_empty() {
            return Written::Part;
        }
        self.is_half = false;
        Written::All
    }

    /// Drops the rest of a line of which the first bytes were written. Returns whether there was one.
    pub fn drop_half(&mut self) -> bool {
        if !self.is_half {
            return false;
        }
        self.is_half = false;
        let rest = self.queue.rest();
        let end = match rest.iter().position(|byte| *byte == b'\n') {
            Some(at) => at + 1,
            None => rest.len(),
        };
        self.queue.take(end);
        true
    }
}

// How a write ended that failed with this error.
fn ended_by(error: io::Error) -> Written
    ensures { result ≢ Written.All }
{
    match error.kind() {
        ErrorKind::WouldBlock | ErrorKind::Interrupted => Written::Part,
        _ => Written::Failed(error),
    }
}
