//! A log to which lines are appended.

use crate::appender::Appender;
use crate::faults::{Fault, LogFaults};
use crate::files::LogFiles;
use std::alloc::Global;
use std::io;

/// A log to which lines are appended. Several processes may write to its file, and others may rename it (then `reopen`)
/// or cut it to no bytes. No call waits, if writes to the file do not: its path has to be that of a regular file.
#[derive(Drop)]
pub struct LogFile<F: LogFiles + Drop> {
    alloc: Global,
    files: F,
    // none if the writer is the owner's
    path: Option<String>,
    out: Appender<F::File>,
    faults: LogFaults,
}

impl<F: LogFiles + Drop> LogFile<F> {
    /// The log at this path; what its file has stays.
    pub fn open(alloc: Global, files: F, path: &str) -> io::Result<LogFile<F>> {
        let path = match String::from_str(alloc, path) {
            Ok(path) => path,
            Err(refused) => return Err(Fault::from(refused).error()),
        };
        let file = files.append(path.as_str())?;
        Ok(LogFile {
            alloc,
            files,
            path: Some(path),
            out: Appender::new(alloc, file),
            faults: LogFaults::none(),
        })
    }

    /// A log that goes to this writer, as to standard error. It is never opened again.
    pub fn of_writer(alloc: Global, files: F, writer: F::File) -> LogFile<F> {
        LogFile {
            alloc,
            files,
            path: None,
            out: Appender::new(alloc, writer),
            faults: LogFaults::none(),
        }
    }

    /// Adds a line with this text, which has no line feed. It is written by a later `flush`. The line is dropped if more
    /// than 1 MiB would wait or if memory runs out.
    pub fn line(&mut self, text: &str) {
        if let Err(fault) = self.out.line(text) {
            self.faults.note(fault);
            self.faults.lose(1);
        }
    }

    /// Writes once, if lines wait. What the file does not take waits on. After a write that failed, none is tried for a
    /// second. Times are in milliseconds.
    pub fn flush(&mut self, now_ms: u64) {
        self.out.flush(now_ms, &mut self.faults);
    }

    /// How many bytes wait to be written.
    pub fn waiting(&self) -> usize {
        self.out.waiting().len()
    }

    /// Opens the path again, and goes on there. If it cannot be opened, the log stays with the file that it has.
    pub fn reopen(&mut self) {
        let Some(path) = &self.path else {
            return;
        };
        match self.files.append(path.as_str()) {
            Ok(file) => self.out.change(file, &mut self.faults),
            Err(error) => self.faults.note(Fault::Failed(error)),
        }
    }

    /// How many lines were dropped.
    pub fn dropped(&self) -> u64 {
        self.faults.dropped()
    }

    /// A text for standard error, if a call failed or lines were dropped since the last one. It has the path, the first
    /// cause and the number of lines. There is at most one in a minute.
    pub fn fault_report(&mut self, now_ms: u64) -> Option<String> {
        let name = match &self.path {
            Some(path) => path.as_str(),
            None => "standard error",
        };
        self.faults.fault_report(self.alloc, name, now_ms)
    }
}
