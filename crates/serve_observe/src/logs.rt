//! The logs of a server.

use crate::access_log::Accesses;
use serve_log::{LogFile, LogFiles, Recorder};

/// The logs of a server.
#[derive(Drop)]
pub struct Logs<F: LogFiles + Drop> {
    /// The log of updates.
    pub updates: LogFile<F>,
    /// The log of decisions, if one is written.
    pub accesses: Option<Accesses<F>>,
    /// The record, if one is written.
    pub recorder: Option<Recorder<F>>,
}

impl<F: LogFiles + Drop> Logs<F> {
    /// Writes what waits. Times are in milliseconds.
    pub fn flush(&mut self, now: u64) {
        self.updates.flush(now);
        if let Some(accesses) = &mut self.accesses {
            accesses.file.flush(now);
        }
        if let Some(recorder) = &mut self.recorder {
            recorder.flush(now);
        }
    }

    /// Opens the paths of the logs again, since their files were renamed. The record begins a new file.
    pub fn reopen(&mut self) {
        self.updates.reopen();
        if let Some(accesses) = &mut self.accesses {
            accesses.file.reopen();
        }
        if let Some(recorder) = &mut self.recorder {
            recorder.reopen();
        }
    }

    /// How many lines were dropped.
    pub fn dropped(&self) -> u64 {
        let accesses = match &self.accesses {
            Some(accesses) => accesses.file.dropped(),
            None => 0,
        };
        let recorder = match &self.recorder {
            Some(recorder) => recorder.dropped(),
            None => 0,
        };
        self.updates
            .dropped()
            .saturating_add(accesses)
            .saturating_add(recorder)
    }

    /// The next text on what went wrong with a log.
    pub fn fault_report(&mut self, now: u64) -> Option<String> {
        if let Some(text) = self.updates.fault_report(now) {
            return Some(text);
        }
        if let Some(accesses) = &mut self.accesses {
            if let Some(text) = accesses.file.fault_report(now) {
                return Some(text);
            }
        }
        match &mut self.recorder {
            Some(recorder) => recorder.fault_report(now),
            None => None,
        }
    }
}
