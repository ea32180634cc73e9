//! The lines of a batch. A line that is too long is skipped, and takes little memory.
ghost use Rattle.std.specs.Prelude.{◌≡◌, ◌≢◌, ◌<◌, ◌≤◌, ◌++◌, ◌-◌, true, List, ℕ, All, IfErr, IfOk, OnOk, OnSome, length, take};
ghost use Rattle.std.specs.Io.{IsEmptyOrEndsWith, StopsAt};
ghost use Rattle.std.specs.Io.KnownBytes.{Consumes, IsAtEnd};
ghost use Rattle.rbac_judge.specs.private.Batching.{IsHeadLineOf, IsSomeHeadLine};
ghost use Rattle.program_texts.specs.InputLines.{IsReadingFault};

use program_texts::{ReplayFault, input_fault};
use std::alloc::{AllocError, Global};
use std::io::{self, BufRead, ErrorKind};

/// The greatest length of a line in bytes, its line feed included: 1 MiB.
pub(crate) const MOST_LINE: usize = 1_048_576;

/// A line of a batch.
#[derive(Drop)]
pub(crate) enum HeadLine {
    /// The bytes of the line, with its line feed.
    Whole(Vec<u8>),
    /// The line has more than `MOST_LINE` bytes.
    TooLong,
}

/// The next line of the input, if there is one.
pub(crate) fn read_head_line<R: BufRead>(
    alloc: Global,
    input: &mut R,
) -> Result<Option<HeadLine>, ReplayFault>
    ensures found { IfOk result (λ found. IsSomeHeadLine found (R.remaining input.old) (R.remaining input.new)) }
    ensures fault { IfErr result (λ e. IsReadingFault e) }
{
    let mut line = Vec::new(alloc);
    let mut count = 0usize;
    for _ in 0..u64::MAX {
        let room = MOST_LINE - count.min(MOST_LINE);
        let (part, is_done) = take_part(input, room, &mut line)?;
        count = count.saturating_add(part);
        if is_done {
            return Ok(line_of(line, count));
        }
    }
    Err(ReplayFault::Input(io::Error::from(ErrorKind::TimedOut)))
}

// The line with this number of bytes, if it has any.
fn line_of(line: Vec<u8>, count: usize) -> Option<HeadLine>
    ensures { IsHeadLineOf line.items count result }
{
    if count == 0 {
        return None;
    }
    if count > MOST_LINE {
        return Some(HeadLine::TooLong);
    }
    Some(HeadLine::Whole(line))
}

// Takes bytes of a line from the input: those that are present, up to the line feed. Appends them to the line, if they
// are at most `room`. Returns how many they are, and whether the line or the input is at its end.
fn take_part<R: BufRead>(
    input: &mut R,
    room: usize,
    line: &mut Vec<u8>,
) -> Result<(usize, bool), ReplayFault>
    ensures taken { IfOk result (λ r. (part : List ℕ) × (length part ≡ r.0) × StopsAt part 10
        × Consumes (R.remaining input.old) (R.remaining input.new) part
        × (r.1 ≢ true → All (λ x. x ≢ 10) part)
        × (r.1 ≡ true → IsEmptyOrEndsWith part 10)
        × (r.1 ≡ true → length part ≡ 0 → OnSome (R.remaining input.old) (IsAtEnd (R.remaining input.new)))
        × (r.0 ≤ room → line.new.items ≡ line.old.items ++ part)) }
    ensures fault { IfErr result (λ e. IsReadingFault e) }
{
    let available = match input.fill_buf() {
        Ok(available) => available,
        Err(cause) => {
            return if is_interrupted(&cause) {
                Ok((0, false))
            } else {
                Err(input_fault(cause))
            };
        }
    };
    let end = len_through(available);
    append_within(line, &available[..end], room)?;
    let is_done = end == 0 || available[end - 1] == b'\n';
    input.consume(end);
    Ok((end, is_done))
}

// Appends the part to the line, if it has at most `room` bytes.
fn append_within(line: &mut Vec<u8>, part: &[u8], room: usize) -> Result<(), AllocError>
    ensures { OnOk result (length part.now ≤ room → line.new.items ≡ line.old.items ++ part.now) }
{
    if part.len() > room {
        return Ok(());
    }
    line.extend_from_slice(part)
}

// Whether a signal interrupted the read.
fn is_interrupted(cause: &io::Error) -> bool {
    cause.kind() == ErrorKind::Interrupted
}

// The number of bytes up to the first line feed and with it; that of all bytes if there is none.
fn len_through(bytes: &[u8]) -> usize
    ensures bound { result ≤ length bytes.now }
    ensures some { 0 < length bytes.now → 0 < result }
    ensures before { All (λ x. x ≢ 10) (take (result - 1) bytes.now) }
{
    let mut at = 0;
    while at < bytes.len() {
        if bytes[at] == b'\n' {
            return at + 1;
        }
        at += 1;
    }
    at
}
