//! A writer of lines, and the lines that wait for it.
ghost use Rattle.std.specs.Prelude.{◌≡◌, ◌++◌, [], OnErr, OnOk};
ghost use Rattle.serve_log.specs.Writing.{Writes, line_of};

use crate::faults::{Fault, LogFaults};
use crate::waiting::{Waiting, Written};
use std::alloc::Global;
use std::io::Write;

// How long no write is tried after one failed, in milliseconds.
const PAUSE: u64 = 1_000;

/// A writer of lines, and the lines that wait for it.
#[derive(Drop)]
pub(crate) struct Appender<W: Drop> {
    writer: W,
    waiting: Waiting,
    // the time of the last `flush`
    time: u64,
    // no write is tried before this time
    paused_until: u64,
}

impl<W: Write + Drop> Appender<W> {
    /// No line waits for this writer.
    pub(crate) fn new(alloc: Global, writer: W) -> Appender<W>
        ensures writer { result.writer ≡ writer }
        ensures waiting { result.waiting ≡ [] }
    {
        Appender {
            writer,
            waiting: Waiting::new(alloc),
            time: 0,
            paused_until: 0,
        }
    }

    /// The lines that wait.
    pub(crate) fn waiting(&self) -> &Waiting
        ensures { result.now ≡ self.now.waiting }
    {
        &self.waiting
    }

    /// Adds a line to those that wait.
    pub(crate) fn line(&mut self, text: &str) -> Result<(), Fault>
        ensures writer { self.new.writer ≡ self.old.writer }
        ensures added { OnOk result (self.new.waiting ≡ self.old.waiting ++ line_of text.now) }
        ensures lost { OnErr result (self.new.waiting ≡ self.old.waiting) }
    {
        Ok(self.waiting.line(text)?)
    }

    /// Writes once, if lines wait; not within a second after a write failed.
    pub(crate) fn flush(&mut self, now: u64, faults: &mut LogFaults)
        ensures order { Writes (W.contents self.old.writer) (W.contents self.new.writer) self.old.waiting self.new.waiting }
        ensures lines { faults.new.dropped ≡ faults.old.dropped }
    {
        self.time = now;
        self.write(faults);
    }

    /// The same, at the time of the last `flush`.
    pub(crate) fn write(&mut self, faults: &mut LogFaults)
        ensures order { Writes (W.contents self.old.writer) (W.contents self.new.writer) self.old.waiting self.new.waiting }
        ensures lines { faults.new.dropped ≡ faults.old.dropped }
    {
        if self.time < self.paused_until {
            return;
        }
        if let Err(fault) = self.try_write() {
            self.paused_until = self.time.saturating_add(PAUSE);
            faults.note(fault);
        }
    }

    /// Writes once, if lines wait.
    pub(crate) fn try_write(&mut self) -> Result<(), Fault>
        ensures { Writes (W.contents self.old.writer) (W.contents self.new.writer) self.old.waiting self.new.waiting }
    {
        match self.waiting.write(&mut self.writer) {
            Written::All | Written::Part => Ok(()),
            Written::Failed(error) => Err(Fault::Failed(error)),
        }
    }

    /// Goes on with another writer. If a line is half written, the rest of it is written once more or lost.
    pub(crate) fn change(&mut self, writer: W, faults: &mut LogFaults) {
        if self.waiting.is_half() {
            if let Err(fault) = self.try_write() {
                faults.note(fault);
            }
        }
        if self.waiting.drop_half() {
            faults.lose(1);
        }
        self.writer = writer;
        self.paused_until = 0;
    }
}
