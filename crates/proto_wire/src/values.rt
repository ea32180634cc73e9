//! The values of a message's fields: varints and LEN payloads by number, and singular scalars, which
//! are the last of them.

ghost use Rattle.std.specs.Prelude.{◌≡◌, ◌≢◌, ◌==◌, ◌++◌, cond, [], ◌∷◌, map, Some, None, IfOk, IfErr, MatchBool, MatchOption, OnOk, IsUtf8};
ghost use Rattle.proto_wire.specs.Fields.{payload_view, field_view};
ghost use Rattle.proto_wire.specs.Keys.{len_key, varint_key, is_known};
ghost use Rattle.proto_wire.specs.Merge.{parts_view};
ghost use Rattle.proto_wire.specs.Values.{varint_in, len_in, varints, payloads, last_of, has_field, bytes_at, Utf8Fault, bool_at, uint32_at, int32_at, int64_at};

use crate::field::{Field, Payload};
use crate::refusal::Refusal;
use smallvec::SmallVec;
use std::alloc::{AllocError, Global};

/// Payloads of one number; nearly always one.
pub type Payloads<'a> = SmallVec<&'a [u8], 1>;

/// The value of a singular scalar: the last VARINT field of this number.
pub fn last_varint(fields: &[Field<'_>], number: u32) -> Option<u64>
    ensures { result ≡ last_of (varints number (map field_view fields.now)) }
{
    let mut last = None;
    for field in fields {
        if let Some(value) = varint_of(field, number) {
            last = Some(value);
        }
    }
    last
}

/// The value of a singular string or bytes field: the last LEN field of this number.
pub fn last_len<'a>(fields: &[Field<'a>], number: u32) -> Option<&'a [u8]>
    ensures { let last = last_of (payloads number (map field_view fields.now)) in
        MatchOption result (last ≡ None) (λ bytes. last ≡ Some bytes.now) }
{
    let mut last = None;
    for field in fields {
        if let Some(bytes) = len_of(field, number) {
            last = Some(bytes);
        }
    }
    last
}

/// The payloads of the LEN fields of this number, in order.
pub fn payloads_of<'a>(
    alloc: Global,
    fields: &[Field<'a>],
    number: u32,
) -> Result<Payloads<'a>, AllocError>
    ensures { IfOk result (λ v. parts_view v.items ≡ payloads number (map field_view fields.now)) }
{
    let mut parts = Payloads::new(alloc);
    for field in fields {
        if let Some(bytes) = len_of(field, number) {
            add_payload(&mut parts, bytes, fields, number)?;
        }
    }
    Ok(parts)
}

// Appends one of the payloads of this number in the fields. Before the second, makes room for all.
#[inline(always)]
fn add_payload<'a>(
    parts: &mut Payloads<'a>,
    bytes: &'a [u8],
    fields: &[Field<'a>],
    number: u32,
) -> Result<(), AllocError>
    ensures { OnOk result (parts.new.items ≡ parts.old.items ++ bytes.entry ∷ []) }
{
    if parts.len() == 1 {
        parts.reserve_exact(payload_count(fields, number))?;
    }
    parts.push(bytes)?;
    Ok(())
}

// How many LEN fields have this number. No contract mentions it: it only says how much room to make.
#[cold]
#[inline(never)]
fn payload_count(fields: &[Field<'_>], number: u32) -> usize {
    let mut count: usize = 0;
    for field in fields {
        if len_of(field, number).is_some() {
            count = count.saturating_add(1);
        }
    }
    count
}

/// Whether there is a LEN field of this number.
pub fn has_payload(fields: &[Field<'_>], number: u32) -> bool
    ensures { MatchBool result (payloads number (map field_view fields.now) ≢ [])
        (payloads number (map field_view fields.now) ≡ []) }
{
    last_len(fields, number).is_some()
}

/// Refuses fields without the required LEN field of this number: `Missing`. It takes no memory.
pub fn require_payload(fields: &[Field<'_>], number: u32) -> Result<(), Refusal>
    ensures found { OnOk result (payloads number (map field_view fields.now) ≢ []) }
    ensures fault { IfErr result (λ e. (payloads number (map field_view fields.now) ≡ [])
        × (e ≡ Refusal.Missing)) }
{
    if has_payload(fields, number) {
        return Ok(());
    }
    Err(Refusal::Missing)
}

/// Whether there is a LEN or VARINT field of this number.
pub fn has_field(fields: &[Field<'_>], number: u32) -> bool
    ensures { result ≡ has_field number (map field_view fields.now) }
{
    fields.iter().any(|field| is_field(field, number))
}

/// The last LEN payload of this number; empty if there is none.
pub fn bytes_at<'a>(fields: &[Field<'a>], number: u32) -> &'a [u8]
    ensures { result.now ≡ bytes_at number (map field_view fields.now) }
{
    match last_len(fields, number) {
        Some(bytes) => bytes,
        None => &[],
    }
}

/// The bytes as text; `BadText` if they are not UTF-8. It takes no memory.
pub fn text_of(bytes: &[u8]) -> Result<&str, Refusal>
    ensures found { IfOk result (λ text. (text.now ≡ bytes.now) × IsUtf8 bytes.now) }
    ensures fault { IfErr result (Utf8Fault bytes.now) }
{
    match str::from_utf8(bytes) {
        Ok(text) => Ok(text),
        Err(_) => Err(Refusal::BadText),
    }
}

/// The last string of this number; empty if there is none. `BadText` if it is not UTF-8. It takes no
/// memory.
pub fn text_at<'a>(fields: &[Field<'a>], number: u32) -> Result<&'a str, Refusal>
    ensures found { let bytes = bytes_at number (map field_view fields.now) in
        IfOk result (λ text. (text.now ≡ bytes) × IsUtf8 bytes) }
    ensures fault { IfErr result (Utf8Fault (bytes_at number (map field_view fields.now))) }
{
    text_of(bytes_at(fields, number))
}

/// The bool of this number: true for every value but 0; false if there is none.
pub fn bool_at(fields: &[Field<'_>], number: u32) -> bool
    ensures { result ≡ bool_at number (map field_view fields.now) }
{
    match last_varint(fields, number) {
        None | Some(0) => false,
        Some(_) => true,
    }
}

/// The uint32 or enum of this number: the low 32 bits of the last one; 0 if there is none.
pub fn uint32_at(fields: &[Field<'_>], number: u32) -> u32
    ensures { result ≡ uint32_at number (map field_view fields.now) }
{
    (last_varint(fields, number).unwrap_or(0) % 0x1_0000_0000) as u32
}

/// The int32 of this number: the low 32 bits of the last one, in two's complement; 0 if there is none.
pub fn int32_at(fields: &[Field<'_>], number: u32) -> i32
    ensures { result ≡ int32_at number (map field_view fields.now) }
{
    uint32_at(fields, number).cast_signed()
}

/// The int64 of this number: the last one, in two's complement; 0 if there is none.
pub fn int64_at(fields: &[Field<'_>], number: u32) -> i64
    ensures { result ≡ int64_at number (map field_view fields.now) }
{
    last_varint(fields, number).unwrap_or(0).cast_signed()
}

fn varint_of(field: &Field<'_>, number: u32) -> Option<u64>
    ensures { let value = varint_in (payload_view field.now.payload) in
        result ≡ cond (field.now.number == number) value None }
{
    match field.payload {
        Payload::Varint(value) if field.number == number => Some(value),
        _ => None,
    }
}

/// The payload, if this is a LEN field of the number; otherwise `None`.
pub fn len_of<'a>(field: &Field<'a>, number: u32) -> Option<&'a [u8]>
    ensures { let bytes = len_in (payload_view field.now.payload) in
        let found = cond (field.now.number == number) bytes None in
        MatchOption result (found ≡ None) (λ bytes. found ≡ Some bytes.now) }
{
    match field.payload {
        Payload::Len(bytes) if field.number == number => Some(bytes),
        _ => None,
    }
}

fn is_field(field: &Field<'_>, number: u32) -> bool
    ensures { result ≡ is_known (len_key number ∷ varint_key number ∷ []) (field_view field.now) }
{
    field.number == number && matches!(field.payload, Payload::Len(_) | Payload::Varint(_))
}
