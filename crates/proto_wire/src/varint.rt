//! Reads one varint.

ghost use Rattle.std.specs.Prelude.{IfOk, IfErr};
ghost use Rattle.proto_wire.specs.Varint.{StartsVarint, FailsVarint};

use crate::fault::WireError;

// The index of the last byte that a varint may have.
const LAST: usize = 9;

// The greatest value of that byte: 63 bits come before it.
const LAST_MOST: u8 = 1;

/// The number that `bytes` begin with, and the bytes after it.
pub(crate) fn read_varint(bytes: &[u8]) -> Result<(u64, &[u8]), WireError>
    ensures found { IfOk result (λ read. StartsVarint bytes.now read.0 read.1.now) }
    ensures fault { IfErr result (λ e. FailsVarint bytes.now e) }
{
    let mut value = 0;
    for (index, byte) in bytes.iter().enumerate() {
        if index == LAST && *byte > LAST_MOST {
            return Err(WireError::LongVarint);
        }
        value += u64::from(*byte % 128) << (7 * index);
        if *byte < 128 {
            return Ok((value, &bytes[index + 1..]));
        }
    }
    Err(WireError::Truncated)
}
