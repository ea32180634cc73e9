//! How far the bytes of a head were scanned after its target.
ghost use Rattle.std.specs.Prelude.{◌≡◌, ◌<◌, ℕ, List, ◌∷◌};
ghost use Rattle.std.specs.Bool.{OnTrue};
ghost use Rattle.http_front.specs.private.Scans.{Ends, EndsLine, EndsName, EndsValue, EndsVersion, GoesOn};

use httparse::{is_header_name_token, is_header_value_token};

/// Where the scanned bytes end.
#[derive(Clone, Copy, Debug)]
pub(crate) enum LineScan {
    /// After so many bytes of the version, at most 8.
    Version(u8),
    /// After the CR at the end of the request line or of a field line.
    LineEnd,
    /// At the beginning of a line.
    Line,
    /// In the name of a field.
    Name,
    /// In the value of a field.
    Value,
    /// After the CR of the empty line that ends the head.
    HeadEnd,
    /// After a head, or after bytes that are not examined.
    Stop,
}

const VERSION: [u8; 7] = *b"HTTP/1.";

impl LineScan {
    /// Whether no head has ended, and one still can.
    pub(crate) fn is_open(self) -> bool
        ensures { OnTrue result (GoesOn self) }
    {
        match self {
            LineScan::Stop => false,
            _ => true,
        }
    }

    /// Takes one more byte.
    pub(crate) fn step(self, byte: u8) -> LineScan
        ensures { (more : List ℕ) → Ends result more → Ends self (byte ∷ more) }
    {
        match self {
            LineScan::Value => in_value(byte),
            LineScan::Name => in_name(byte),
            LineScan::Line => in_line(byte),
            LineScan::Version(count) => in_version(count, byte),
            LineScan::LineEnd => in_line_end(byte),
            LineScan::HeadEnd => LineScan::Stop,
            LineScan::Stop => LineScan::Stop,
        }
    }
}

// The second byte of CR LF.
fn in_line_end(byte: u8) -> LineScan
    ensures { (more : List ℕ) → Ends result more → (byte ≡ 10) × EndsLine more }
{
    if byte == b'\n' {
        return LineScan::Line;
    }
    LineScan::Stop
}

#[tactic(auto, using(crate::proofs::ScanLemmas::version_byte, crate::proofs::ScanLemmas::version_digit, crate::proofs::ScanLemmas::version_cr, crate::proofs::ScanLemmas::version_lf))]
fn in_version(count: u8, byte: u8) -> LineScan
    ensures { (more : List ℕ) → Ends result more → EndsVersion count (byte ∷ more) }
{
    if count < 7 {
        if byte == VERSION[count as usize] {
            return LineScan::Version(count + 1);
        }
        return LineScan::Stop;
    }
    if count == 7 {
        if byte == b'0' || byte == b'1' {
            return LineScan::Version(8);
        }
        return LineScan::Stop;
    }
    match byte {
        b'\r' => LineScan::LineEnd,
        b'\n' => LineScan::Line,
        _ => LineScan::Stop,
    }
}

#[tactic(auto, using(crate::proofs::ScanLemmas::line_name, crate::proofs::ScanLemmas::line_end))]
fn in_line(byte: u8) -> LineScan
    ensures { (more : List ℕ) → Ends result more → EndsLine (byte ∷ more) }
{
    if is_header_name_token(byte) {
        return LineScan::Name;
    }
    if byte == b'\r' {
        return LineScan::HeadEnd;
    }
    LineScan::Stop
}

#[tactic(auto, using(crate::proofs::ScanLemmas::name_colon, crate::proofs::ScanLemmas::name_byte))]
fn in_name(byte: u8) -> LineScan
    ensures { (more : List ℕ) → Ends result more → EndsName (byte ∷ more) }
{
    if byte == b':' {
        return LineScan::Value;
    }
    if is_header_name_token(byte) {
        return LineScan::Name;
    }
    LineScan::Stop
}

#[tactic(auto, using(crate::proofs::ScanLemmas::value_byte, crate::proofs::ScanLemmas::value_cr, crate::proofs::ScanLemmas::value_lf))]
fn in_value(byte: u8) -> LineScan
    ensures { (more : List ℕ) → Ends result more → EndsValue (byte ∷ more) }
{
    if is_header_value_token(byte) {
        return LineScan::Value;
    }
    match byte {
        b'\r' => LineScan::LineEnd,
        b'\n' => LineScan::Line,
        _ => LineScan::Stop,
    }
}
