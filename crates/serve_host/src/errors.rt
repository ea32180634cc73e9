//! Standard error, as a log.

use serve_log::LogWriter;
use serve_net::unblock;
use std::alloc::{AllocError, Global};
use std::fs::{File, OpenOptions};
use std::io;

// The path under which the system has this process's standard error.
const ERRORS: &str = "/proc/self/fd/2";
// How many standard streams a process has.
const STREAMS: u8 = 3;

/// Standard error. It is opened once more, so that a pipe whose reader stops does not stop the server, and so that its
/// other writers may wait. That cannot be done with a socket, which is written as it is.
pub(crate) fn errors_of(rt: &HostRuntime) -> LogWriter {
    match reopened(rt) {
        Ok(file) => LogWriter::File(file),
        Err(_) => LogWriter::Errors(rt.stderr()),
    }
}

fn reopened(rt: &HostRuntime) -> io::Result<File> {
    let mut how = OpenOptions::new();
    how.append(true);
    let file = how.open(rt, ERRORS)?;
    unblock(&file)?;
    Ok(file)
}

/// Takes the descriptors of standard streams that are closed, so that no socket gets one of them. The files are to be kept.
pub(crate) fn taken_streams(alloc: Global, rt: &HostRuntime) -> Result<Vec<File>, AllocError> {
    let mut files = Vec::new(alloc);
    for _ in 0..STREAMS {
        if let Ok(file) = File::open(rt, "/dev/null") {
            files.push(file)?;
        }
    }
    Ok(files)
}
