//! The faults of a log, and what standard error says about them.
ghost use Rattle.std.specs.Prelude.{◌≡◌, ◌+◌, ◌-◌, ◌^◌, IsSome, min};

use crate::waiting::LostLine;
use std::alloc::{AllocError, Global};
use std::{fmt, io};

// How long nothing is said after a report, in milliseconds.
const QUIET: u64 = 60_000;

/// Why a line is lost or a file cannot be used.
#[derive(Drop)]
pub(crate) enum Fault {
    /// A call of the system failed.
    Failed(io::Error),
    /// Too many bytes wait to be written.
    Full,
    /// Memory ran out.
    Memory,
}

impl fmt::Display for Fault {
    fn fmt<W: fmt::Write>(&self, f: &mut fmt::Formatter<W>) -> fmt::Result {
        match self {
            Fault::Failed(error) => write!(f, "{error}"),
            Fault::Full => f.write_str("more than 1 MiB waits to be written"),
            Fault::Memory => f.write_str("out of memory"),
        }
    }
}

impl From<io::Error> for Fault {
    fn from(error: io::Error) -> Fault {
        Fault::Failed(error)
    }
}

impl From<AllocError> for Fault {
    fn from(_refused: AllocError) -> Fault {
        Fault::Memory
    }
}

impl From<LostLine> for Fault {
    fn from(lost: LostLine) -> Fault {
        match lost {
            LostLine::Full => Fault::Full,
            LostLine::Memory => Fault::Memory,
        }
    }
}

impl Fault {
    /// The fault as an error of the system.
    pub(crate) fn error(self) -> io::Error {
        match self {
            Fault::Failed(error) => error,
            Fault::Full => io::Error::other("more than 1 MiB waits to be written"),
            Fault::Memory => io::Error::from(io::ErrorKind::OutOfMemory),
        }
    }
}

/// The faults of a log: how many lines were lost, and what the next report says.
#[derive(Drop)]
pub(crate) struct LogFaults {
    dropped: u64,
    // how many were lost at the last report
    reported: u64,
    // the first fault since then
    fault: Option<Fault>,
    quiet_until: u64,
}

impl LogFaults {
    /// No line was lost.
    pub(crate) fn none() -> LogFaults
        ensures { result.dropped ≡ 0 }
    {
        LogFaults {
            dropped: 0,
            reported: 0,
            fault: None,
            quiet_until: 0,
        }
    }

    /// How many lines were lost.
    pub(crate) fn dropped(&self) -> u64
        ensures { result ≡ self.now.dropped }
    {
        self.dropped
    }

    /// A call failed, and no line is lost so far.
    pub(crate) fn note(&mut self, fault: Fault)
        ensures first { IsSome self.old.fault → self.new ≡ self.old }
        ensures lines { self.new.dropped ≡ self.old.dropped }
    {
        if self.fault.is_none() {
            self.fault = Some(fault);
        }
    }

    /// So many lines are lost.
    pub(crate) fn lose(&mut self, lines: u64)
        ensures { self.new.dropped ≡ min (self.old.dropped + lines) (2 ^ 64 - 1) }
    {
        self.dropped = self.dropped.saturating_add(lines);
    }

    /// What to say about the log of this name; at most once a minute.
    pub(crate) fn fault_report(&mut self, alloc: Global, name: &str, now: u64) -> Option<String> {
        let lines = self.dropped.saturating_sub(self.reported);
        if now < self.quiet_until || (lines == 0 && self.fault.is_none()) {
            return None;
        }
        let text = text_of(alloc, name, &self.fault, lines).ok()?;
        self.reported = self.dropped;
        self.fault = None;
        self.quiet_until = now.saturating_add(QUIET);
        Some(text)
    }
}

// The text of a report.
fn text_of(
    alloc: Global,
    name: &str,
    fault: &Option<Fault>,
    lines: u64,
) -> Result<String, AllocError> {
    match fault {
        Some(fault) => format!(in alloc; "cannot write {name}: {fault}; lines lost: {lines}"),
        None => format!(in alloc; "cannot write {name}; lines lost: {lines}"),
    }
}
