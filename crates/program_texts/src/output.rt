//! Writes a whole text.
ghost use Rattle.std.specs.Prelude.{OnErr, OnOk};
ghost use Rattle.std.specs.Io.KnownBytes.{Appends};
ghost use Rattle.program_texts.specs.Output.{BreaksOff};

use std::io::{self, ErrorKind, Write};

/// Writes the whole text; if the writer takes only a part, it writes the rest again. If the writer fails, it has taken
/// a proper beginning of the text.
pub fn write_whole<W: Write>(out: &mut W, text: &[u8]) -> io::Result<()>
    ensures whole { OnOk result (Appends (W.contents out.old) (W.contents out.new) text.now) }
    ensures part { OnErr result (BreaksOff (W.contents out.old) (W.contents out.new) text.now) }
{
    let mut rest = text;
    for _ in 0..u64::MAX {
        if rest.is_empty() {
            return Ok(());
        }
        match out.write(rest) {
            Ok(0) => return Err(io::Error::from(ErrorKind::WriteZero)),
            Ok(count) => rest = &rest[count..],
            Err(error) => {
                if error.kind() != ErrorKind::Interrupted {
                    return Err(error);
                }
            }
        }
    }
    if rest.is_empty() {
        return Ok(());
    }
    Err(io::Error::from(ErrorKind::TimedOut))
}
