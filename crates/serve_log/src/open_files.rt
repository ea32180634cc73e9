//! The open files of a record.
ghost use Rattle.std.specs.Prelude.{◌≡◌, ◌++◌, ℕ, [], ◌∷◌, IsNone};
ghost use Rattle.proxy_core.specs.Events.{EventValue};
ghost use Rattle.serve_log.specs.Files.{AddsNothing, AddsToAll, AddsToOne, AllTake, IsTextOf, NoneTake, OneTakes, StayOpen, Takes, counted, files_of};
ghost use Rattle.serve_log.specs.Recording.{IsOut};

use crate::connection::Connection;
use crate::faults::{Fault, LogFaults};
use crate::record_file::{RecordFile, UserChange};
use std::alloc::{AllocError, Global};
use std::io::Write;
use std::mem;

// How many old files stay open for connections that are not fresh.
const MOST_OLD: usize = 2;

/// The file that is written, and the old files that some connections still need.
#[derive(Drop)]
pub(crate) struct OpenFiles<W: Drop> {
    pub(crate) current: RecordFile<W>,
    // the oldest first
    older: Vec<RecordFile<W>>,
    pub(crate) faults: LogFaults,
}

impl<W: Write + Drop> OpenFiles<W> {
    /// This file alone.
    pub(crate) fn new(alloc: Global, current: RecordFile<W>) -> OpenFiles<W>
        ensures files { files_of result ≡ current ∷ [] }
        ensures lines { result.faults.dropped ≡ 0 }
    {
        OpenFiles {
            current,
            older: Vec::new(alloc),
            faults: LogFaults::none(),
        }
    }

    /// Begins with another file, and keeps the current one open as an old one. The oldest of three is closed.
    pub(crate) fn change(&mut self, current: RecordFile<W>)
        ensures current { self.new.current ≡ current }
        ensures older { StayOpen W.contents (self.old.older.items ++ self.old.current ∷ []) self.new.older.items }
    {
        let last = mem::replace(&mut self.current, current);
        self.close_oldest();
        self.keep(last);
    }

    // Closes the oldest file if many are open.
    fn close_oldest(&mut self)
        ensures current { self.new.current ≡ self.old.current }
        ensures older { StayOpen W.contents self.old.older.items self.new.older.items }
    {
        if self.older.len() < MOST_OLD {
            return;
        }
        let mut oldest = self.older.remove(0);
        let _ = oldest.write_all();
        self.faults.lose(oldest.waiting_lines());
    }

    // Keeps a file open as an old one.
    fn keep(&mut self, last: RecordFile<W>)
        ensures current { self.new.current ≡ self.old.current }
        ensures older { StayOpen W.contents (self.old.older.items ++ last ∷ []) self.new.older.items }
    {
        let lines = last.waiting_lines();
        if push_file(&mut self.older, last) {
            return;
        }
        self.faults.lose(lines);
    }

    /// This connection is one more or one less that needs its file, if it needs one that is open.
    pub(crate) fn change_users(&mut self, connection: &Connection, change: UserChange)
        ensures { AddsNothing W.contents 0 self.old self.new }
    {
        if !connection.needs_file() {
            return;
        }
        if self.current.number() == connection.file {
            self.current.change_users(change);
            return;
        }
        change_users_of_one(&mut self.older, connection.file, change);
    }

    /// A line is lost for this cause before it could be added to a file.
    pub(crate) fn lose(&mut self, fault: Fault)
        ensures { AddsNothing W.contents 1 self.old self.new }
    {
        self.faults.note(fault);
        self.faults.lose(1);
    }

    /// Adds a line to the file with this number, and returns the line's number. None if the file is not open, or if a
    /// line of it was lost.
    pub(crate) fn add(&mut self, number: u64, line: &Result<String, AllocError>) -> Option<u64>
        ensures takes { (event : EventValue) → IsTextOf line.now event
            → AddsToOne W.contents number (event ∷ []) self.old self.new }
        ensures out { IsNone result → IsOut number (files_of self.new) }
    {
        if self.current.number() == number {
            return self.current.add(line, &mut self.faults);
        }
        add_to_one(&mut self.older, number, line, &mut self.faults)
    }

    /// Adds a line to each file.
    pub(crate) fn add_to_all(&mut self, line: &Result<String, AllocError>)
        ensures { (event : EventValue) → IsTextOf line.now event
            → AddsToAll W.contents (event ∷ []) self.old self.new }
    {
        add_to_each(&mut self.older, line, &mut self.faults);
        let _ = self.current.add(line, &mut self.faults);
    }

    /// Writes to each file once, if lines wait for it. Closes the old ones that no connection needs, or that have twice so
    /// many bytes.
    pub(crate) fn flush(&mut self, now: u64, bytes: u64)
        ensures current { Takes W.contents [] self.old.current self.new.current 0 }
        ensures older { StayOpen W.contents self.old.older.items self.new.older.items }
        ensures lines { self.new.faults.dropped ≡ self.old.faults.dropped }
    {
        flush_each(&mut self.older, now, &mut self.faults);
        self.current.flush(now, &mut self.faults);
        self.close_done(bytes);
    }

    // Closes the old files that no connection needs, or that have twice so many bytes.
    fn close_done(&mut self, bytes: u64)
        ensures current { self.new.current ≡ self.old.current }
        ensures older { StayOpen W.contents self.old.older.items self.new.older.items }
        ensures lines { self.new.faults.dropped ≡ self.old.faults.dropped }
    {
        self.older.retain(|file| !file.is_done(bytes));
    }
}

// Adds a file to the old ones. Returns whether there was memory for it.
fn push_file<W: Write + Drop>(older: &mut Vec<RecordFile<W>>, last: RecordFile<W>) -> bool
    ensures { StayOpen W.contents (older.old.items ++ last ∷ []) older.new.items }
{
    older.push(last).is_ok()
}

// One connection more or less needs the first of these files that has this number.
fn change_users_of_one<W: Write + Drop>(
    files: &mut [RecordFile<W>],
    number: u64,
    change: UserChange,
)
    ensures { NoneTake W.contents files.old files.new }
{
    for file in files.iter_mut() {
        if file.number() == number {
            file.change_users(change);
            return;
        }
    }
}

// Adds a line to the first of these files that has this number, and returns the line's number.
fn add_to_one<W: Write + Drop>(
    files: &mut [RecordFile<W>],
    number: u64,
    line: &Result<String, AllocError>,
    faults: &mut LogFaults,
) -> Option<u64>
    ensures takes { (event : EventValue) → IsTextOf line.now event → (lost : ℕ)
        × OneTakes W.contents number (event ∷ []) files.old files.new lost
        × (faults.new.dropped ≡ counted faults.old.dropped lost) }
    ensures out { IsNone result → IsOut number files.new }
{
    for file in files.iter_mut() {
        if file.number() == number {
            return file.add(line, faults);
        }
    }
    None
}

// Adds a line to each of these files.
fn add_to_each<W: Write + Drop>(
    files: &mut [RecordFile<W>],
    line: &Result<String, AllocError>,
    faults: &mut LogFaults,
)
    ensures { (event : EventValue) → IsTextOf line.now event → (lost : ℕ)
        × AllTake W.contents (event ∷ []) files.old files.new lost
        × (faults.new.dropped ≡ counted faults.old.dropped lost) }
{
    for file in files.iter_mut() {
        let _ = file.add(line, faults);
    }
}

// Writes to each of these files once, if lines wait for it.
fn flush_each<W: Write + Drop>(files: &mut [RecordFile<W>], now: u64, faults: &mut LogFaults)
    ensures takes { NoneTake W.contents files.old files.new }
    ensures lines { faults.new.dropped ≡ faults.old.dropped }
{
    for file in files.iter_mut() {
        file.flush(now, faults);
    }
}
