//! A Unix socket that only its owner may connect to.
//!
//! A socket gets the mode that the process's umask leaves, and others could connect before it is changed. So it is made
//! in a directory of mode 0700, gets its mode there, and is then moved to its path.

use mio::net::{UnixListener, UnixStream};
use std::alloc::Global;
use std::fs::{self, DirBuilder, Files, Permissions};
use std::io::{self, ErrorKind};
use std::net::Net;
use std::os::unix::fs::{DirBuilderExt, FileTypeExt, PermissionsExt};

/// Listens at a path, with mode 0600. A stale socket there is replaced: one to which connections are refused. Fails with
/// `AddrInUse` if another process listens there, and with `AlreadyExists` if what is there is no socket. The directory of
/// the path needs room for a directory `PATH.new`, which is gone afterwards; the path has at most 101 bytes.
pub(crate) fn listen<R: Files + Net>(
    alloc: Global,
    rt: &R,
    path: &str,
) -> io::Result<UnixListener> {
    require_free(rt, path)?;
    let room = format!(in alloc; "{path}.new")?;
    let made = format!(in alloc; "{room}/s")?;
    make_room(rt, &room, &made)?;
    let listener = listen_privately(rt, &made, path);
    if listener.is_err() {
        let _ = fs::remove_file(rt, &made);
    }
    let _ = fs::remove_dir(rt, &room);
    listener
}

// Fails if something other than a stale socket is at the path.
fn require_free<R: Files + Net>(rt: &R, path: &str) -> io::Result<()> {
    let found = match fs::symlink_metadata(rt, path) {
        Ok(found) => found,
        Err(error) if error.kind() == ErrorKind::NotFound => return Ok(()),
        Err(error) => return Err(error),
    };
    if !found.file_type().is_socket() {
        return Err(io::Error::new(ErrorKind::AlreadyExists, "the path is there and no socket"));
    }
    match UnixStream::connect(rt, path) {
        Err(error) if error.kind() == ErrorKind::ConnectionRefused => Ok(()),
        Err(error) if error.kind() != ErrorKind::WouldBlock => Err(error),
        _ => Err(io::Error::from(ErrorKind::AddrInUse)),
    }
}

// Makes the directory. One that an earlier process could not remove is removed first.
fn make_room<R: Files>(rt: &R, room: &str, made: &str) -> io::Result<()> {
    let mut builder = DirBuilder::new();
    builder.mode(0o700);
    match builder.create(rt, room) {
        Err(error) if error.kind() == ErrorKind::AlreadyExists => {}
        done => return done,
    }
    if fs::symlink_metadata(rt, room)?.is_dir() && is_socket(rt, made) {
        fs::remove_file(rt, made)?;
    }
    fs::remove_dir(rt, room)?;
    builder.create(rt, room)
}

fn is_socket<R: Files>(rt: &R, path: &str) -> bool {
    match fs::symlink_metadata(rt, path) {
        Ok(found) => found.file_type().is_socket(),
        Err(_) => false,
    }
}

// Listens at the first path, and moves the socket to the second.
fn listen_privately<R: Files + Net>(rt: &R, made: &str, path: &str) -> io::Result<UnixListener> {
    let listener = UnixListener::bind(rt, made)?;
    fs::set_permissions(rt, made, Permissions::from_mode(0o600))?;
    fs::rename(rt, made, path)?;
    Ok(listener)
}
