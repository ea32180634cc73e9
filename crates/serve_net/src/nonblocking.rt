//! Files whose writes do not wait.

use os::FromRawFd;
use std::fs::File;
use std::io::{self, ErrorKind};
use std::net::TcpStream;
use std::os::fd::{AsRawFd, IntoRawFd};

/// Makes reads and writes of a file fail with `WouldBlock` where they would wait, as those of a pipe may. Others that
/// share the file as it was opened are concerned, too.
pub fn unblock(file: &File) -> io::Result<()> {
    let descriptor = file.as_raw_fd();
    if descriptor < 0 {
        return Err(io::Error::from(ErrorKind::InvalidInput));
    }
    // The call is that of a socket, and it is as good for any descriptor. The second owner gives the number back, so that
    // the file stays the only one.
    let stream = unsafe { TcpStream::from_raw_fd(descriptor) };
    let nonblocking = stream.set_nonblocking(true);
    let _ = stream.into_raw_fd();
    nonblocking
}
