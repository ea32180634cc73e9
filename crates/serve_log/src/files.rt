//! Where logs are written.

use std::fs::{self, File, OpenOptions};
use std::io::{self, ErrorKind, Write};
use std::os::unix::fs::{FileTypeExt, OpenOptionsExt};
use std::rt::Stderr;

// The permissions of a log that is made: its owner writes it, its group reads it.
const MODE: u32 = 0o640;

/// The files of logs.
pub trait LogFiles {
    /// An open log.
    type File: Write + Drop;

    /// Opens the file at this path, and makes it if there is none. Each write goes to the end that the file then has.
    fn append(&self, path: &str) -> io::Result<Self::File>;

    /// Gives a regular file another path; fails if it is anything else. A file that has this path is replaced.
    fn rename(&self, from: &str, to: &str) -> io::Result<()>;

    /// Removes the file at this path.
    fn remove(&self, path: &str) -> io::Result<()>;
}

/// The files of the system. A log that is made has mode 0640, less what the process masks.
impl LogFiles for HostRuntime {
    type File = LogWriter;

    fn append(&self, path: &str) -> io::Result<LogWriter> {
        if let Ok(found) = fs::metadata(self, path) {
            if found.file_type().is_fifo() {
                return Err(io::Error::new(ErrorKind::InvalidInput, "it is a pipe"));
            }
        }
        let mut how = OpenOptions::new();
        how.append(true).create(true).mode(MODE);
        Ok(LogWriter::File(how.open(self, path)?))
    }

    fn rename(&self, from: &str, to: &str) -> io::Result<()> {
        if !fs::symlink_metadata(self, from)?.is_file() {
            return Err(io::Error::new(ErrorKind::InvalidInput, "it is no regular file"));
        }
        fs::rename(self, from, to)
    }

    fn remove(&self, path: &str) -> io::Result<()> {
        fs::remove_file(self, path)
    }
}

/// Files that are shared.
impl<F: LogFiles> LogFiles for &F {
    type File = F::File;

    fn append(&self, path: &str) -> io::Result<F::File> {
        F::append(*self, path)
    }

    fn rename(&self, from: &str, to: &str) -> io::Result<()> {
        F::rename(*self, from, to)
    }

    fn remove(&self, path: &str) -> io::Result<()> {
        F::remove(*self, path)
    }
}

/// An open log of the system.
#[derive(Drop)]
pub enum LogWriter {
    /// A file.
    File(File),
    /// Standard error.
    Errors(Stderr),
}

impl Write for LogWriter {
    fn write(&mut self, bytes: &[u8]) -> io::Result<usize> {
        match self {
            LogWriter::File(file) => file.write(bytes),
            LogWriter::Errors(errors) => errors.write(bytes),
        }
    }

    fn flush(&mut self) -> io::Result<()> {
        match self {
            LogWriter::File(file) => file.flush(),
            LogWriter::Errors(errors) => errors.flush(),
        }
    }
}
