//! The system's limit of open files, and how many connections it leaves room for.
ghost use Rattle.std.specs.Prelude.{◌≡◌};
ghost use Rattle.serve_host.specs.Descriptors.{fitting_below};

use std::fs::{File, Files};
use std::io::{self, Read};

// The file in which the system says a process's limits.
const LIMITS: &str = "/proc/self/limits";
// How its line begins that has the limit of open files. The soft limit is the next word.
const OPEN_FILES: &str = "Max open files";

// How many descriptors are kept for the admin port, the listeners, the control plane and the logs.
const RESERVE: u64 = 64;

/// How many connections this limit of open files leaves room for: as many as it has beside the reserve. They are at least
/// one, and no more than are set.
pub(crate) fn fitting(connections: usize, limit: u64) -> usize
    ensures { result ≡ fitting_below connections limit }
{
    connections.min(limit.saturating_sub(RESERVE).max(1) as usize)
}

/// How many files this process may have open at once; none if there is no limit, or if the system does not say.
pub(crate) fn open_files<R: Files>(rt: &R) -> Option<u64> {
    let mut room = [0u8; 4_096];
    let count = read(rt, &mut room).ok()?;
    let text = str::from_utf8(room.get(..count).unwrap_or(&[])).ok()?;
    let (_, rest) = text.split_once(OPEN_FILES)?;
    rest.trim_start().split(' ').next()?.parse::<u64>().ok()
}

// The beginning of the file: how many bytes of it there are.
fn read<R: Files>(rt: &R, room: &mut [u8]) -> io::Result<usize> {
    File::open(rt, LIMITS)?.read(room)
}
