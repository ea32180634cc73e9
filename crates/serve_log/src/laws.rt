//! Laws of the files of a record. Each is a function without parameters whose contract is the law.
ghost use Rattle.std.specs.Prelude.{◌≡◌, ◌+◌, ◌++◌, ℕ, List, [], Some, length};
ghost use Rattle.proxy_core.specs.Events.{EventValue};
ghost use Rattle.serve_log.specs.Files.{Takes};
ghost use Rattle.serve_log.specs.Lines.{file_of};
ghost use Rattle.serve_log.specs.declared.record_file.RecordFile.{RecordFile};

use std::io::Write;

/// What a file takes call after call, it takes in order.
pub fn a_file_takes_events_in_order<W: Write + Drop>()
    ensures { (old between new : RecordFile W) (first more : List EventValue) (lost also : ℕ)
        → Takes W.contents first old between lost → Takes W.contents more between new also
        → Takes W.contents (first ++ more) old new (lost + also) }
{}

/// A file that was empty, and of which nothing waits, has the lines of the first of the events that it took. It has all
/// of them if none was lost.
pub fn a_written_file_has_its_events<W: Write + Drop>()
    ensures first { (old new : RecordFile W) (events : List EventValue) (lost : ℕ) → W.contents old.out.writer ≡ Some []
        → old.out.waiting ≡ [] → new.out.waiting ≡ [] → Takes W.contents events old new lost
        → (kept left : List EventValue) × (events ≡ kept ++ left) × (length left ≡ lost)
        × (W.contents new.out.writer ≡ Some (file_of kept)) }
    ensures all { (old new : RecordFile W) (events : List EventValue) → W.contents old.out.writer ≡ Some []
        → old.out.waiting ≡ [] → new.out.waiting ≡ [] → Takes W.contents events old new 0
        → W.contents new.out.writer ≡ Some (file_of events) }
{}
