//! The reading of one field: its tag, and then its payload.

ghost use Rattle.std.specs.Prelude.{IfOk, IfErr};
ghost use Rattle.proto_wire.specs.Fields.{StartsField, FailsField, FailsPayload, field_view, payload_view};
ghost use Rattle.proto_wire.specs.private.Payload.{StartsPayload};

use crate::fault::WireError;
use crate::field::{Field, Payload};
use crate::varint::read_varint;

// The greatest number of a field, 2^29 - 1.
const GREATEST_NUMBER: u64 = 536_870_911;

/// The field that `bytes` begin with, and the bytes after it.
pub(crate) fn read_field(bytes: &[u8]) -> Result<(Field<'_>, &[u8]), WireError>
    ensures found { IfOk result (λ read. StartsField bytes.now (field_view read.0) read.1.now) }
    ensures fault { IfErr result (λ e. FailsField bytes.now e) }
{
    let (tag, behind) = read_varint(bytes)?;
    let number = tag / 8;
    if number == 0 || number > GREATEST_NUMBER {
        return Err(WireError::BadNumber);
    }
    let (payload, rest) = read_payload(tag % 8, behind)?;
    let number = number as u32;
    Ok((Field { number, payload }, rest))
}

// The payload of the wire type that `bytes` begin with, and the bytes after it.
fn read_payload(wire_type: u64, bytes: &[u8]) -> Result<(Payload<'_>, &[u8]), WireError>
    ensures found { IfOk result (λ read.
        StartsPayload wire_type bytes.now (payload_view read.0) read.1.now) }
    ensures fault { IfErr result (λ e. FailsPayload wire_type bytes.now e) }
{
    match wire_type {
        0 => {
            let (value, rest) = read_varint(bytes)?;
            Ok((Payload::Varint(value), rest))
        }
        1 => {
            let (eight, rest) = bytes.split_first_chunk().ok_or(WireError::Truncated)?;
            Ok((Payload::I64(u64::from_le_bytes(*eight)), rest))
        }
        2 => {
            let (size, behind) = read_varint(bytes)?;
            if (behind.len() as u64) < size {
                return Err(WireError::Truncated);
            }
            let (inner, rest) = behind.split_at(size as usize);
            Ok((Payload::Len(inner), rest))
        }
        5 => {
            let (four, rest) = bytes.split_first_chunk().ok_or(WireError::Truncated)?;
            Ok((Payload::I32(u32::from_le_bytes(*four)), rest))
        }
        _ => Err(WireError::BadWireType),
    }
}
