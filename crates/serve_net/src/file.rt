//! A control plane that is a file.

ghost use Rattle.std.specs.Prelude.{◌≡◌, ◌++◌, ◌&&◌, take, drop, is_some, min, length, not};

use crate::frame::{frame_of, message_in};
use std::alloc::{AllocError, Global};
use std::cell::Cell;
use std::fs::{self, File, Files, Metadata, OpenFile};
use std::io::{self, ErrorKind, Read, Write};
use std::os::unix::fs::MetadataExt;
use std::sync::Arc;

/// The greatest number of bytes of the file.
pub const MOST_CONTENTS: usize = 1_048_576;
// How often the file is looked at, in milliseconds.
const LOOKS: u64 = 1_000;

// What a file had when it was read.
#[derive(Drop)]
enum Contents {
    Frame(Vec<u8>),
    TooLarge,
}

// Where contents wait for their stream. Newer ones replace those that wait.
type Inbox = Arc<Cell<Option<Contents>>, Global>;

/// What a look at the file of a control plane found, where that is to be reported.
#[derive(Drop)]
pub enum Look {
    /// It cannot be read, for this cause. What was read before stays.
    Failed(io::Error),
    /// It can be read again.
    Works,
}

// What distinguishes one state of a file from another: which file it is, its length, and when its contents and its inode were
// last changed. Programs can set the first time back, but not the second.
#[derive(Clone, Copy, PartialEq, Eq)]
struct Stamp {
    device: u64,
    inode: u64,
    length: u64,
    seconds: i64,
    nanoseconds: i64,
    changed_seconds: i64,
    changed_nanoseconds: i64,
}

impl Stamp {
    fn of(found: &Metadata) -> Stamp {
        Stamp {
            device: found.dev(),
            inode: found.ino(),
            length: found.len(),
            seconds: found.mtime(),
            nanoseconds: found.mtime_nsec(),
            changed_seconds: found.ctime(),
            changed_nanoseconds: found.ctime_nsec(),
        }
    }
}

/// A file that is read again when it changes.
#[derive(Drop)]
pub(crate) struct WatchedFile {
    path: String,
    stamp: Option<Stamp>,
    inbox: Option<Inbox>,
    // whether the stream was not yet reported
    is_new: bool,
    // when the file was last looked at
    looked: u64,
    // whether the last look failed
    fails: bool,
    // what is to be reported of it
    report: Option<Look>,
}

impl WatchedFile {
    pub(crate) fn new(path: String) -> WatchedFile {
        WatchedFile {
            path,
            stamp: None,
            inbox: None,
            is_new: false,
            looked: 0,
            fails: false,
            report: None,
        }
    }

    /// Whether it was read, and the last look did not fail.
    pub(crate) fn is_read(&self) -> bool
        ensures { result ≡ (is_some self.now.stamp && not self.now.fails) }
    {
        self.stamp.is_some() && !self.fails
    }

    /// What the last look found, if that is to be reported and was not taken yet.
    pub(crate) fn take_look(&mut self) -> Option<Look> {
        self.report.take()
    }

    /// A stream of what the file has now. Fails if it cannot be read.
    pub(crate) fn connect<R: Files>(&mut self, alloc: Global, rt: &R) -> io::Result<FileStream> {
        let (stamp, contents) = self.read(alloc, rt)?;
        let inbox: Inbox = Arc::new(alloc, Cell::new(Some(contents)))?;
        let stream = FileStream {
            inbox: inbox.clone()?,
            frame: Vec::new(alloc),
            at: 0,
        };
        self.inbox = Some(inbox);
        self.stamp = Some(stamp);
        self.is_new = true;
        self.fails = false;
        Ok(stream)
    }

    /// How long to wait at most before the next look, in milliseconds.
    pub(crate) fn pause(&self) -> u64 {
        if self.is_new { 0 } else { LOOKS }
    }

    /// Whether the stream has something new: it was opened, or the file has changed since. The file is looked at once a
    /// second. If it cannot be read, the earlier contents stay, and that is to be reported.
    pub(crate) fn look<R: Files>(&mut self, alloc: Global, rt: &R, now: u64) -> bool {
        if self.is_new {
            self.is_new = false;
            self.looked = now;
            return true;
        }
        if now.saturating_sub(self.looked) < LOOKS {
            return false;
        }
        self.looked = now;
        match &self.inbox {
            Some(inbox) if Arc::strong_count(inbox) > 1 => {}
            _ => return false,
        }
        match self.refresh(alloc, rt) {
            Ok(is_read) => {
                if self.fails {
                    self.report = Some(Look::Works);
                }
                self.fails = false;
                is_read
            }
            Err(error) => {
                self.fails = true;
                self.report = Some(Look::Failed(error));
                false
            }
        }
    }

    // Reads the file again if it has changed since it was read. Returns whether it was read.
    fn refresh<R: Files>(&mut self, alloc: Global, rt: &R) -> io::Result<bool> {
        let found = fs::metadata(rt, self.path.as_str())?;
        if Some(Stamp::of(&found)) == self.stamp {
            return Ok(false);
        }
        self.renew(alloc, rt)?;
        Ok(true)
    }

    // Reads the file for the stream.
    fn renew<R: Files>(&mut self, alloc: Global, rt: &R) -> io::Result<()> {
        let (stamp, contents) = self.read(alloc, rt)?;
        if let Some(inbox) = &self.inbox {
            inbox.set(Some(contents));
        }
        self.stamp = Some(stamp);
        Ok(())
    }

    fn read<R: Files>(&self, alloc: Global, rt: &R) -> io::Result<(Stamp, Contents)> {
        let path = self.path.as_str();
        if !fs::metadata(rt, path)?.is_file() {
            return Err(io::Error::new(ErrorKind::InvalidInput, "it is no regular file"));
        }
        let mut file = File::open(rt, path)?;
        let stamp = Stamp::of(&file.metadata()?);
        Ok((stamp, read_contents(alloc, &mut file)?))
    }
}

// Reads to the end, or until there are too many bytes. A file without bytes is a fault.
fn read_contents<F: Read>(alloc: Global, file: &mut F) -> io::Result<Contents> {
    let mut bytes = Vec::new(alloc);
    let mut room = [0u8; 16_384];
    for _ in 0..u32::MAX {
        if bytes.len() > MOST_CONTENTS {
            break;
        }
        match file.read(&mut room) {
            Ok(0) => break,
            Ok(count) => bytes.extend_from_slice(&room[..count])?,
            Err(error) if error.kind() == ErrorKind::Interrupted => {}
            Err(error) => return Err(error),
        }
    }
    if bytes.is_empty() {
        return Err(io::Error::new(ErrorKind::InvalidData, "the file is empty"));
    }
    Ok(contents_of(alloc, &bytes)?)
}

fn contents_of(alloc: Global, bytes: &[u8]) -> Result<Contents, AllocError> {
    if bytes.len() > MOST_CONTENTS {
        return Ok(Contents::TooLarge);
    }
    Ok(Contents::Frame(frame_of(alloc, message_in(bytes))?))
}

/// The contents of a file as a stream: a frame of gRPC with its message, and one more each time it has changed. The file
/// has the message alone, or in a frame. What is
/// written is dropped. Whoever changes the file writes another one and renames it, so that it is never read half written.
#[derive(Drop)]
pub struct FileStream {
    inbox: Inbox,
    frame: Vec<u8>,
    at: usize,
}

impl Read for FileStream {
    /// Fails with `WouldBlock` until the file has changed, and with `InvalidData` if it has more than 1,048,576 bytes.
    fn read(&mut self, buf: &mut [u8]) -> io::Result<usize> {
        if self.at >= self.frame.len() {
            match self.inbox.take() {
                Some(Contents::Frame(frame)) => self.frame = frame,
                Some(Contents::TooLarge) => return Err(io::Error::from(ErrorKind::InvalidData)),
                None => return Err(io::Error::from(ErrorKind::WouldBlock)),
            }
            self.at = 0;
        }
        let count = give(&self.frame, self.at, buf);
        self.at = self.at.saturating_add(count);
        Ok(count)
    }
}

// Gives the bytes from a place on, as many as there is room for.
fn give(bytes: &[u8], at: usize, room: &mut [u8]) -> usize
    ensures count { result ≡ min (length (drop at bytes.now)) (length room.old) }
    ensures given { room.new ≡ take result (drop at bytes.now) ++ drop result room.old }
{
    let rest = bytes.get(at..).unwrap_or(&[]);
    let count = rest.len().min(room.len());
    room[..count].copy_from_slice(&rest[..count]);
    count
}

impl Write for FileStream {
    fn write(&mut self, buf: &[u8]) -> io::Result<usize> {
        Ok(buf.len())
    }

    fn flush(&mut self) -> io::Result<()> {
        Ok(())
    }
}
