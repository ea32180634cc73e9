//! The names of the files of a record.
ghost use Rattle.std.specs.Prelude.{◌≡◌, ◌↔◌, ◌<◌, IfOk, IsNone, min, string_bytes};

use crate::faults::Fault;
use crate::files::LogFiles;
use std::alloc::{AllocError, Global};
use std::io::{self, ErrorKind};

/// The greatest number of older files that are kept.
pub(crate) const MOST_OLDER: u32 = 1_000;

/// The names of the files of a record. The file that is written has the path itself. The older ones have `.1`, `.2` and
/// so on added, up to a number.
#[derive(Drop)]
pub(crate) struct FileNames {
    alloc: Global,
    path: String,
    older: u32,
}

impl FileNames {
    /// The names for this path and at most so many older files.
    pub(crate) fn new(alloc: Global, path: &str, older: u32) -> Result<FileNames, AllocError>
        ensures path { IfOk result (λ names. string_bytes names.path ≡ path.now) }
        ensures older { IfOk result (λ names. names.older ≡ min older 1000) }
    {
        Ok(FileNames {
            alloc,
            path: String::from_str(alloc, path)?,
            older: older.min(MOST_OLDER),
        })
    }

    /// The path.
    pub(crate) fn path(&self) -> &str
        ensures { result.now ≡ string_bytes self.now.path }
    {
        self.path.as_str()
    }

    /// The name of a file until it has its beginning.
    pub(crate) fn unfinished(&self) -> Result<String, AllocError> {
        let path = self.path();
        format!(in self.alloc; "{path}.new")
    }

    /// The name of the older file after which so many files were begun; none if it is not kept. The file that is
    /// written is the file after which none was begun.
    pub(crate) fn name(&self, later: u64) -> Option<Result<String, AllocError>>
        ensures { IsNone result ↔ (self.now.older < later) }
    {
        if later > self.older as u64 {
            return None;
        }
        Some(self.older_name(later))
    }

    fn older_name(&self, later: u64) -> Result<String, AllocError> {
        let path = self.path();
        if later == 0 {
            return String::from_str(self.alloc, path);
        }
        format!(in self.alloc; "{path}.{later}")
    }

    /// Each file gets the name of the next older one; the oldest is replaced. The unfinished one gets the path.
    pub(crate) fn shift<F: LogFiles>(&self, files: &F) -> Result<(), Fault> {
        let unfinished = self.unfinished()?;
        for later in (0..self.older as u64).rev() {
            let name = self.older_name(later)?;
            let older = self.older_name(later + 1)?;
            passed(files.rename(name.as_str(), older.as_str()))?;
        }
        Ok(files.rename(unfinished.as_str(), self.path())?)
    }
}

// Passes on how a file was renamed. That there is no such file is no fault.
fn passed(renamed: io::Result<()>) -> Result<(), Fault> {
    match renamed {
        Ok(()) => Ok(()),
        Err(error) if error.kind() == ErrorKind::NotFound => Ok(()),
        Err(error) => Err(Fault::Failed(error)),
    }
}
