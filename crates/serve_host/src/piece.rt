//! How many of the bytes that were read are given at once: those of one request.
ghost use Rattle.std.specs.Prelude.{◌≡◌, ◌≤◌, length};
ghost use Rattle.serve_host.specs.Pieces.{first_line, is_empty_line, piece_of};

use memchr::memchr;

/// How many bytes there are up to the end of the first empty line, or in all. The first byte counts as the first of a
/// line. So at most one head ends in so many bytes, and it ends with the last of them (RFC 9112, section 2.1).
pub(crate) fn piece(bytes: &[u8]) -> usize
    ensures value { result ≡ length (piece_of bytes.now) }
    ensures within { result ≤ length bytes.now }
{
    let mut start = 0;
    while start < bytes.len() {
        let line = first_line(&bytes[start..]);
        start += line.len();
        if is_empty_line(line) {
            return start;
        }
    }
    start
}

// The bytes up to the first line feed, with it, or all.
fn first_line(bytes: &[u8]) -> &[u8]
    ensures { result.now ≡ first_line bytes.now }
{
    match memchr(b'\n', bytes) {
        Some(at) => &bytes[..at + 1],
        None => bytes,
    }
}

// Whether a line has nothing but its end: LF, or CR and LF.
fn is_empty_line(line: &[u8]) -> bool
    ensures { result ≡ is_empty_line line.now }
{
    matches!(line, [b'\n'] | [b'\r', b'\n'])
}
