//! How far the bytes of a head were scanned. A scan only states whether a head can still continue after them. So a head
//! that arrives in many pieces is parsed only when it may be whole.
ghost use Rattle.std.specs.Prelude.{◌≡◌, ◌+◌, ◌<◌, ◌≤◌, ◌^◌, ℕ, List, [], ◌∷◌, ◌++◌, IsUtf8, drop, length, take};
ghost use Rattle.std.specs.Bool.{OnTrue};
ghost use Rattle.httparse.specs.Grammar.{HasNoRequest, MayBecomeRequest};
ghost use Rattle.http_front.specs.private.Scans.{IsSeen};
ghost use Rattle.http_front.specs.declared.scan.Scan.TheVariants.{Blank, BlankEnd, Method, Target};

use crate::line::LineScan;
use httparse::{is_method_token, is_uri_token};
use std::str;

/// Where the scanned bytes end.
#[derive(Clone, Copy, Debug)]
pub(crate) enum Scan {
    /// After empty lines, or at the beginning.
    Blank,
    /// After the CR of an empty line.
    BlankEnd,
    /// In the method.
    Method,
    /// In the target, which begins at this index.
    Target(usize),
    /// After the target.
    Behind(LineScan),
}

impl Scan {
    /// Scans the bytes from `from` on; those before it are already scanned.
    pub(crate) fn go_on(self, bytes: &[u8], from: usize) -> Scan
        requires { (from ≤ length bytes.now) × IsSeen self (take from bytes.now) }
        ensures { IsSeen result bytes.now }
    {
        let mut scan = self;
        for at in from..bytes.len() {
            scan = scan.step(bytes, at);
        }
        scan
    }

    /// Whether it is certain that a head can continue after the bytes that were scanned.
    pub(crate) fn is_open(self) -> bool
        ensures { (bytes : List ℕ) → IsSeen self bytes
            → OnTrue result (HasNoRequest bytes × MayBecomeRequest bytes) }
    {
        match self {
            Scan::Behind(line) => line.is_open(),
            _ => true,
        }
    }

    // Takes the byte at this index.
    fn step(self, bytes: &[u8], at: usize) -> Scan
        requires { (at < length bytes.now) × IsSeen self (take at bytes.now) }
        ensures { IsSeen result (take (at + 1) bytes.now) }
    {
        let byte = bytes[at];
        match self {
            Scan::Behind(line) => Scan::Behind(line.step(byte)),
            Scan::Blank => in_blank(byte),
            Scan::BlankEnd => in_blank_end(byte),
            Scan::Method => in_method(byte, at),
            Scan::Target(start) => in_target(&bytes[start..at], byte, start),
        }
    }
}

// The scan of bytes that are not examined.
fn stop() -> Scan
    ensures { (bytes : List ℕ) → IsSeen result bytes }
{
    Scan::Behind(LineScan::Stop)
}

fn in_blank(byte: u8) -> Scan
    ensures { (seen : List ℕ) → IsSeen Blank seen → IsSeen result (seen ++ byte ∷ []) }
{
    if is_method_token(byte) {
        return Scan::Method;
    }
    match byte {
        b'\r' => Scan::BlankEnd,
        b'\n' => Scan::Blank,
        _ => stop(),
    }
}

fn in_blank_end(byte: u8) -> Scan
    ensures { (seen : List ℕ) → IsSeen BlankEnd seen → IsSeen result (seen ++ byte ∷ []) }
{
    if byte == b'\n' {
        return Scan::Blank;
    }
    stop()
}

fn in_method(byte: u8, at: usize) -> Scan
    requires { at < 2 ^ 63 }
    ensures { (seen : List ℕ) → length seen ≡ at → IsSeen Method seen
        → IsSeen result (seen ++ byte ∷ []) }
{
    if byte == b' ' {
        return Scan::Target(at + 1);
    }
    if is_method_token(byte) {
        return Scan::Method;
    }
    stop()
}

fn in_target(target: &[u8], byte: u8, start: usize) -> Scan
    ensures { (seen : List ℕ) → IsSeen (Target start) seen → drop start seen ≡ target.now
        → IsSeen result (seen ++ byte ∷ []) }
{
    if is_uri_token(byte) {
        return Scan::Target(start);
    }
    if byte == b' ' && is_whole_target(target) {
        return Scan::Behind(LineScan::Version(0));
    }
    stop()
}

// Whether a target may end here. It is tested for UTF-8 only at its end.
fn is_whole_target(target: &[u8]) -> bool
    ensures { OnTrue result ((0 < length target.now) × IsUtf8 target.now) }
{
    !target.is_empty() && str::from_utf8(target).is_ok()
}
