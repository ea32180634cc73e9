//! The events at the beginning of a record's file: they bring a new core to the present policies.
ghost use Rattle.std.specs.Prelude.{◌≡◌, ◌*◌, ℕ, [], true, IfOk, OnOk, string_bytes};
ghost use Rattle.proxy_core.specs.Events.{ads_bytes};
ghost use Rattle.serve_log.specs.Beginnings.{TakesBeginning, TakesBytes, TakesUpdates, empty_frames, frames_of};
ghost use Rattle.serve_log.specs.Lines.{event_text};

use crate::event_lines::{fed_line, lost_line, up_line};
use crate::faults::Fault;
use crate::frames::empty_response;
use crate::pieces::first_piece;
use crate::record_file::RecordFile;
use crate::updates::{AcceptedResponse, Updates};
use std::alloc::{AllocError, Global};
use std::io::Write;

// How many responses that change nothing are in one line.
const BLOCK: u64 = 256;

/// Writes events that bring a new proxy core to the policies and the number of accepted responses of these updates. The
/// last of them leave its stream at the same byte.
pub(crate) fn begin<W: Write + Drop>(
    alloc: Global,
    updates: &Updates,
    file: &mut RecordFile<W>,
) -> Result<(), Fault>
    ensures begins { file.old.is_whole ≡ true → OnOk result (TakesBeginning W.contents updates.now file.old file.new) }
    ensures written { OnOk result (file.new.out.waiting ≡ []) }
{
    put_past(alloc, updates, file)?;
    file.write_all()?;
    file.end_beginning();
    Ok(())
}

// Puts the events of updates.
fn put_past<W: Write + Drop>(
    alloc: Global,
    updates: &Updates,
    file: &mut RecordFile<W>,
) -> Result<(), Fault>
    ensures { file.old.is_whole ≡ true → OnOk result (TakesBeginning W.contents updates.now file.old file.new) }
{
    if updates.is_new() {
        return Ok(());
    }
    put_updates(alloc, updates, file)
}

// Puts the events of updates of which some have happened.
fn put_updates<W: Write + Drop>(
    alloc: Global,
    updates: &Updates,
    file: &mut RecordFile<W>,
) -> Result<(), Fault>
    ensures { file.old.is_whole ≡ true → OnOk result (TakesUpdates W.contents updates.now file.old file.new) }
{
    file.put(up_line(alloc)?.as_str())?;
    put_empty(alloc, updates.forgotten(), file)?;
    put_kept(alloc, updates.kept(), file)?;
    if updates.is_up() {
        return put_bytes(alloc, updates.unfinished(), file);
    }
    file.put(lost_line(alloc)?.as_str())
}

// Puts the responses that are kept.
fn put_kept<W: Write + Drop>(
    alloc: Global,
    kept: &[AcceptedResponse],
    file: &mut RecordFile<W>,
) -> Result<(), Fault>
    ensures { file.old.is_whole ≡ true → OnOk result (TakesBytes W.contents (frames_of kept.now) file.old file.new) }
{
    for response in kept {
        put_bytes(alloc, &response.bytes, file)?;
    }
    Ok(())
}

// Puts bytes of the stream, in pieces.
fn put_bytes<W: Write + Drop>(
    alloc: Global,
    bytes: &[u8],
    file: &mut RecordFile<W>,
) -> Result<(), Fault>
    ensures { file.old.is_whole ≡ true → OnOk result (TakesBytes W.contents bytes.now file.old file.new) }
{
    let mut rest = bytes;
    'pieces: while !rest.is_empty() {
        let (piece, more) = first_piece(rest);
        file.put(fed_line(alloc, piece)?.as_str())?;
        rest = more;
    }
    Ok(())
}

// Puts so many responses that change nothing.
fn put_empty<W: Write + Drop>(
    alloc: Global,
    count: u64,
    file: &mut RecordFile<W>,
) -> Result<(), Fault>
    ensures { file.old.is_whole ≡ true → OnOk result (TakesBytes W.contents (empty_frames count) file.old file.new) }
{
    put_blocks(alloc, count / BLOCK, BLOCK, file)?;
    let rest = count % BLOCK;
    if rest == 0 {
        return Ok(());
    }
    file.put(empty_line(alloc, rest)?.as_str())
}

// Puts so many lines of so many responses that change nothing.
fn put_blocks<W: Write + Drop>(
    alloc: Global,
    blocks: u64,
    size: u64,
    file: &mut RecordFile<W>,
) -> Result<(), Fault>
    ensures { file.old.is_whole ≡ true
        → OnOk result (TakesBytes W.contents (empty_frames (blocks * size)) file.old file.new) }
{
    if blocks == 0 {
        return Ok(());
    }
    put_times(empty_line(alloc, size)?.as_str(), blocks, file)
}

// Puts a line so many times.
fn put_times<W: Write + Drop>(line: &str, times: u64, file: &mut RecordFile<W>) -> Result<(), Fault>
    ensures { (size : ℕ) → line.now ≡ event_text (ads_bytes (empty_frames size)) → file.old.is_whole ≡ true
        → OnOk result (TakesBytes W.contents (empty_frames (times * size)) file.old file.new) }
{
    let mut done = 0;
    'lines: while done < times {
        file.put(line)?;
        done += 1;
    }
    Ok(())
}

// The line of so many responses that change nothing.
fn empty_line(alloc: Global, count: u64) -> Result<String, AllocError>
    ensures { IfOk result (λ text. string_bytes text ≡ event_text (ads_bytes (empty_frames count))) }
{
    let bytes = empty_bytes(alloc, count)?;
    fed_line(alloc, &bytes)
}

// So many responses that change nothing.
fn empty_bytes(alloc: Global, count: u64) -> Result<Vec<u8>, AllocError>
    ensures { IfOk result (λ bytes. bytes.items ≡ empty_frames count) }
{
    let frame = empty_response(alloc)?;
    let mut bytes = Vec::new(alloc);
    let mut done = 0;
    'frames: while done < count {
        bytes.extend_from_slice(&frame)?;
        done += 1;
    }
    Ok(bytes)
}
