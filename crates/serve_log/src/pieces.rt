//! Bytes in pieces, each of which is an event of its own.
ghost use Rattle.std.specs.Prelude.{◌≡◌, ◌⊎◌, [], IsNone, drop, take};
ghost use Rattle.serve_log.specs.Recording.{Delivers, Feeds, IsOut};
ghost use Rattle.serve_log.specs.Files.{files_of};

use crate::connection::Connection;
use crate::event_lines::{fed_line, received_line};
use crate::open_files::OpenFiles;
use std::alloc::Global;
use std::io::Write;

/// The greatest number of bytes in the event of a line.
pub(crate) const MOST_PIECE: usize = 65_536;

/// The first piece of these bytes, and the rest.
pub(crate) fn first_piece(bytes: &[u8]) -> (&[u8], &[u8])
    ensures { (result.0.now ≡ take 65536 bytes.now) × (result.1.now ≡ drop 65536 bytes.now) }
{
    if bytes.len() <= MOST_PIECE {
        return (bytes, &[]);
    }
    bytes.split_at(MOST_PIECE)
}

/// Adds the lines of bytes that the update stream delivers to each file.
pub(crate) fn feed<W: Write + Drop>(alloc: Global, files: &mut OpenFiles<W>, bytes: &[u8])
    ensures { Feeds W.contents bytes.now files.old files.new }
{
    let mut rest = bytes;
    'pieces: while !rest.is_empty() {
        let (piece, more) = first_piece(rest);
        files.add_to_all(&fed_line(alloc, piece));
        rest = more;
    }
}

/// Adds the lines of bytes that a connection delivers to its file. Returns the number of the last line; none if that is
/// lost, if the connection is in no file, or if there are no bytes.
pub(crate) fn deliver<W: Write + Drop>(
    alloc: Global,
    files: &mut OpenFiles<W>,
    connection: &Connection,
    bytes: &[u8],
) -> Option<u64>
    ensures delivers { Delivers W.contents connection.now bytes.now files.old files.new }
    ensures out { IsNone result → (bytes.now ≡ []) ⊎ IsOut connection.now.file (files_of files.new) }
{
    let mut rest = bytes;
    let mut line = None;
    'pieces: while !rest.is_empty() {
        let (piece, more) = first_piece(rest);
        let text = received_line(alloc, connection.number, piece);
        line = files.add(connection.file, &text);
        rest = more;
    }
    line
}
