//! A reader that gives one request at once.
ghost use Rattle.std.specs.Prelude.{◌≡◌, ◌≤◌, ◌++◌, [], drop, length, min, take, IfOk};
ghost use Rattle.std.specs.Io.{ReadsAtMost};
ghost use Rattle.std.specs.Io.KnownBytes.{ReadConsumes, prepend_known};
ghost use Rattle.serve_host.specs.Pieces.{IsOnePiece, piece_of};

use crate::piece::piece;
use byte_queue::ByteQueue;
use std::alloc::{AllocError, Global};
use std::io::{self, Read};

// Who reads less than so many bytes at once is amid a body.
const WHOLE_READ: usize = 16_384;

/// A reader over a stream. Each read gives bytes of at most one request, and what was read beyond it is kept for the
/// next one. If there is no memory to keep it, it is given at once. A read with room for less than 16 KiB is amid a body.
/// It gives all that it can, since the lines of a body are no heads.
#[derive(Drop)]
pub(crate) struct RequestReader<S: Read + Drop> {
    alloc: Global,
    stream: S,
    // the bytes that were read and not given yet
    kept: ByteQueue,
}

impl<S: Read + Drop> RequestReader<S> {
    /// A reader over this stream, of which nothing was read.
    pub(crate) fn new(alloc: Global, stream: S) -> RequestReader<S>
        ensures { (result.stream ≡ stream) × (result.kept.waiting ≡ []) }
    {
        RequestReader {
            alloc,
            stream,
            kept: ByteQueue::new(alloc),
        }
    }

    /// The stream.
    pub(crate) fn stream(&mut self) -> &mut S {
        &mut self.stream
    }

    // Gives so many of the bytes that were kept.
    fn give_first(&mut self, room: &mut [u8], count: usize)
        requires kept { count ≤ length self.old.kept.waiting }
        requires room { count ≤ length room.old }
        ensures given { room.new ≡ take count self.old.kept.waiting ++ drop count room.old }
        ensures left { self.new.kept.waiting ≡ drop count self.old.kept.waiting }
        ensures stream { self.new.stream ≡ self.old.stream }
    {
        let rest = self.kept.rest();
        room[..count].copy_from_slice(&rest[..count]);
        self.kept.take(count);
        if self.kept.is_empty() {
            self.kept = ByteQueue::new(self.alloc);
        }
    }

    // Gives bytes that were kept, as many as there is room for.
    fn give_all(&mut self, room: &mut [u8]) -> usize
        ensures count { result ≡ min (length self.old.kept.waiting) (length room.old) }
        ensures given { room.new ≡ take result self.old.kept.waiting ++ drop result room.old }
        ensures left { self.new.kept.waiting ≡ drop result self.old.kept.waiting }
        ensures stream { self.new.stream ≡ self.old.stream }
    {
        let count = self.kept.rest().len().min(room.len());
        self.give_first(room, count);
        count
    }

    // Gives bytes amid a body: those that were kept, or those of the stream.
    fn go_on(&mut self, room: &mut [u8]) -> io::Result<usize>
        ensures bound { ReadsAtMost result room.new }
        ensures bytes { ReadConsumes (prepend_known self.old.kept.waiting (S.remaining self.old.stream))
            (prepend_known self.new.kept.waiting (S.remaining self.new.stream)) result room.new }
    {
        if self.kept.is_empty() {
            return self.stream.read(room);
        }
        Ok(self.give_all(room))
    }

    // Gives bytes that were kept, of at most one request.
    fn give(&mut self, room: &mut [u8]) -> usize
        ensures count { result ≡ min (length (piece_of self.old.kept.waiting)) (length room.old) }
        ensures given { room.new ≡ take result self.old.kept.waiting ++ drop result room.old }
        ensures left { self.new.kept.waiting ≡ drop result self.old.kept.waiting }
        ensures stream { self.new.stream ≡ self.old.stream }
    {
        let count = piece(self.kept.rest()).min(room.len());
        self.give_first(room, count);
        count
    }

    // Gives bytes of the stream. Of those that it read the first piece, if there is memory to keep the others.
    fn receive(&mut self, room: &mut [u8]) -> io::Result<usize>
        requires { self.old.kept.waiting ≡ [] }
        ensures bound { ReadsAtMost result room.new }
        ensures bytes { ReadConsumes (S.remaining self.old.stream)
            (prepend_known self.new.kept.waiting (S.remaining self.new.stream)) result room.new }
        ensures one { IfOk result (λ n. IsOnePiece (take n room.new) self.new.kept.waiting) }
    {
        let count = self.stream.read(room)?;
        let length = piece(&room[..count]);
        match self.kept.put(&room[length..count], &[]) {
            Ok(()) => Ok(length),
            Err(AllocError) => Ok(count),
        }
    }
}

impl<S: Read + Drop> Read for RequestReader<S> {
    ghost remaining = { λ r. prepend_known r.kept.waiting (S.remaining r.stream) };

    fn read(&mut self, buf: &mut [u8]) -> io::Result<usize> {
        if buf.len() < WHOLE_READ {
            return self.go_on(buf);
        }
        if self.kept.is_empty() {
            return self.receive(buf);
        }
        Ok(self.give(buf))
    }
}
