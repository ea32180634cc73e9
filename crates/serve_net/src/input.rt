//! Standard input, of which only the end counts.

use mio::unix::SourceFd;
use mio::{Interest, Registry, Token};
use std::io::{self, ErrorKind, Input, Read};

// The descriptor of standard input.
const STANDARD_INPUT: i32 = 0;

/// How the end of standard input is waited for.
#[derive(Clone, Copy, PartialEq, Eq, Debug)]
pub(crate) enum StandardInput {
    /// It does not count, or has come.
    Ignored,
    /// The system reports it: a pipe, a terminal or a socket. It is read once after each report, so that no read waits.
    Reported,
    /// Reads report it: a file or `/dev/null`, which the system does not report and whose reads do not wait. It is read
    /// at each wait.
    Read,
}

impl StandardInput {
    /// Has its end reported under this token.
    pub(crate) fn register(registry: &Registry, token: Token) -> io::Result<StandardInput> {
        match registry.register(&mut SourceFd(&STANDARD_INPUT), token, Interest::READABLE) {
            Ok(()) => Ok(StandardInput::Reported),
            Err(error) if error.kind() == ErrorKind::PermissionDenied => Ok(StandardInput::Read),
            Err(error) => Err(error),
        }
    }

    /// Reads once, and drops what was read. Returns whether this was the end.
    pub(crate) fn read_once<R: Input>(
        &mut self,
        rt: &R,
        registry: &Registry,
        token: Token,
    ) -> bool {
        let mut room = [0u8; 4_096];
        match rt.reader().read(&mut room) {
            Ok(count) if count > 0 => {}
            Err(error) if error.kind() == ErrorKind::WouldBlock => {}
            Err(error) if error.kind() == ErrorKind::Interrupted => {}
            _ => {
                *self = StandardInput::Ignored;
                return true;
            }
        }
        if *self == StandardInput::Reported {
            // reports again what is left
            let _ = registry.reregister(&mut SourceFd(&STANDARD_INPUT), token, Interest::READABLE);
        }
        false
    }
}
