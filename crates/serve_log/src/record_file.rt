//! A file of a record.
ghost use Rattle.std.specs.Prelude.{◌≡◌, ◌↔◌, [], ◌∷◌, false, true, IfSome, IsNone, IsTrue, OnErr, OnOk};
ghost use Rattle.proxy_core.specs.Events.{EventValue};
ghost use Rattle.serve_log.specs.Files.{IsSameFile, IsTextOf, Takes, counted, lost_at, users_after};
ghost use Rattle.serve_log.specs.Lines.{event_text};

use crate::appender::Appender;
use crate::faults::{Fault, LogFaults};
use std::alloc::{AllocError, Global};
use std::io::{self, ErrorKind, Write};

// How many bytes wait before a line is written without a `flush`.
const MANY: usize = 65_536;

// How many writes are tried for the lines that wait.
const MOST_WRITES: usize = 10_000;

/// How the number of connections that need a file changes.
#[derive(Clone, Copy)]
pub(crate) enum UserChange {
    /// One more needs it.
    More,
    /// One less needs it.
    Less,
}

/// A file of a record. It has no gap: after a line that is lost it gets no other.
#[derive(Drop)]
pub(crate) struct RecordFile<W: Drop> {
    number: u64,
    out: Appender<W>,
    lines: u64,
    bytes: u64,
    // how many of the bytes are the beginning
    beginning: u64,
    is_whole: bool,
    // how many connections need it: those that have it and are not fresh
    users: usize,
}

impl<W: Write + Drop> RecordFile<W> {
    /// A file with this number, counted from 1, that has no line.
    pub(crate) fn new(alloc: Global, number: u64, writer: W) -> RecordFile<W>
        ensures out { (result.out.writer ≡ writer) × (result.out.waiting ≡ []) }
        ensures whole { (result.number ≡ number) × (result.lines ≡ 0) × (result.is_whole ≡ true) }
    {
        RecordFile {
            number,
            out: Appender::new(alloc, writer),
            lines: 0,
            bytes: 0,
            beginning: 0,
            is_whole: true,
            users: 0,
        }
    }

    /// The number of the file.
    pub(crate) fn number(&self) -> u64
        ensures { result ≡ self.now.number }
    {
        self.number
    }

    /// Whether no line of it was lost.
    pub(crate) fn is_whole(&self) -> bool
        ensures { result ≡ self.now.is_whole }
    {
        self.is_whole
    }

    /// Whether no line waits.
    pub(crate) fn is_written(&self) -> bool
        ensures { IsTrue result ↔ (self.now.out.waiting ≡ []) }
    {
        self.out.waiting().is_empty()
    }

    /// How many lines wait.
    pub(crate) fn waiting_lines(&self) -> u64 {
        self.out.waiting().lines()
    }

    /// Whether it has so many bytes, with a line after the beginning, and the beginning is at most half of them.
    pub(crate) fn is_full(&self, bytes: u64) -> bool {
        let later = self.bytes.saturating_sub(self.beginning);
        self.bytes >= bytes && later > 0 && later >= self.beginning
    }

    /// Whether no line waits, and no connection needs it or it has twice what makes a file full.
    pub(crate) fn is_done(&self, bytes: u64) -> bool {
        let is_needed = self.users > 0 && self.is_whole && !self.is_twice_full(bytes);
        self.is_written() && !is_needed
    }

    // Whether it has twice so many bytes, and four times its beginning.
    fn is_twice_full(&self, bytes: u64) -> bool {
        self.bytes / 2 >= bytes && self.bytes / 4 >= self.beginning
    }

    /// One connection more or less needs it.
    pub(crate) fn change_users(&mut self, change: UserChange)
        ensures users { self.new.users ≡ users_after change self.old.users }
        ensures same { IsSameFile self.old self.new }
    {
        self.users = match change {
            UserChange::More => self.users.saturating_add(1),
            UserChange::Less => self.users.saturating_sub(1),
        };
    }

    /// All its lines so far are the beginning.
    pub(crate) fn end_beginning(&mut self)
        ensures beginning { self.new.beginning ≡ self.old.bytes }
        ensures same { IsSameFile self.old self.new }
    {
        self.beginning = self.bytes;
    }

    /// Adds a line of the beginning, and writes all that waits if that is much.
    pub(crate) fn put(&mut self, text: &str) -> Result<(), Fault>
        ensures { (event : EventValue) → text.now ≡ event_text event → self.old.is_whole ≡ true
            → OnOk result (Takes W.contents (event ∷ []) self.old self.new 0) }
    {
        self.make_room()?;
        self.count(text)
    }

    // Writes all that waits if that is much.
    fn make_room(&mut self) -> Result<(), Fault>
        ensures { Takes W.contents [] self.old self.new 0 }
    {
        if self.out.waiting().len() > MANY {
            return self.write_all();
        }
        Ok(())
    }

    /// Writes all that waits.
    pub(crate) fn write_all(&mut self) -> Result<(), Fault>
        ensures takes { Takes W.contents [] self.old self.new 0 }
        ensures all { OnOk result (self.new.out.waiting ≡ []) }
    {
        'writes: for _ in 0..MOST_WRITES {
            if self.is_written() {
                return Ok(());
            }
            self.out.try_write()?;
        }
        Err(Fault::Failed(io::Error::from(ErrorKind::WouldBlock)))
    }

    fn count(&mut self, text: &str) -> Result<(), Fault>
        ensures takes { (event : EventValue) → text.now ≡ event_text event → self.old.is_whole ≡ true
            → OnOk result (Takes W.contents (event ∷ []) self.old self.new 0) }
        ensures number { self.new.number ≡ self.old.number }
        ensures lost { OnErr result (IsSameFile self.old self.new) }
    {
        self.out.line(text)?;
        self.lines = self.lines.saturating_add(1);
        let more = text.len() as u64;
        self.bytes = self.bytes.saturating_add(more).saturating_add(1);
        Ok(())
    }

    /// Adds a line, and returns its number, counted from 1. None if it is lost, or if an earlier line of the file was.
    pub(crate) fn add(
        &mut self,
        line: &Result<String, AllocError>,
        faults: &mut LogFaults,
    ) -> Option<u64>
        ensures takes { (event : EventValue) → IsTextOf line.now event
            → Takes W.contents (event ∷ []) self.old self.new (lost_at result) }
        ensures line { IfSome result (λ line. line ≡ self.new.lines) }
        ensures number { self.new.number ≡ self.old.number }
        ensures ends { IsNone result → self.new.is_whole ≡ false }
        ensures counted { faults.new.dropped ≡ counted faults.old.dropped (lost_at result) }
    {
        if !self.is_whole {
            faults.lose(1);
            return None;
        }
        self.write_many(faults);
        match self.try_add(line) {
            Ok(()) => Some(self.lines),
            Err(fault) => {
                faults.note(fault);
                faults.lose(1);
                self.is_whole = false;
                None
            }
        }
    }

    // Writes once if much waits.
    fn write_many(&mut self, faults: &mut LogFaults)
        ensures takes { Takes W.contents [] self.old self.new 0 }
        ensures lines { faults.new.dropped ≡ faults.old.dropped }
    {
        if self.out.waiting().len() > MANY {
            self.out.write(faults);
        }
    }

    fn try_add(&mut self, line: &Result<String, AllocError>) -> Result<(), Fault>
        ensures takes { (event : EventValue) → IsTextOf line.now event → self.old.is_whole ≡ true
            → OnOk result (Takes W.contents (event ∷ []) self.old self.new 0) }
        ensures number { self.new.number ≡ self.old.number }
        ensures lost { OnErr result (IsSameFile self.old self.new) }
    {
        match line {
            Ok(text) => self.count(text.as_str()),
            Err(AllocError) => Err(Fault::Memory),
        }
    }

    /// Writes once, if lines wait.
    pub(crate) fn flush(&mut self, now: u64, faults: &mut LogFaults)
        ensures takes { Takes W.contents [] self.old self.new 0 }
        ensures lines { faults.new.dropped ≡ faults.old.dropped }
    {
        self.out.flush(now, faults);
    }
}
