//! Reads names and payloads from a message's fields.

ghost use Rattle.std.specs.Prelude.{◌≡◌, map, IfOk, IfErr};
ghost use Rattle.std.specs.Str.{IsUtf8};
ghost use Rattle.cel_value.specs.Texts.{points_of, text_view};
ghost use Rattle.cel_value.specs.Types.{IsInt64};
ghost use Rattle.proto_wire.specs.Fields.{field_view};
ghost use Rattle.proto_wire.specs.Merge.{parts_view};
ghost use Rattle.proto_wire.specs.Refusal.{MemoryOr};
ghost use Rattle.proto_wire.specs.Values.{payloads, bytes_at, Utf8Fault};
ghost use Rattle.proto_wire.specs.Oneof.{member_run};

use proto_wire::{Field, Key, Payloads, Refusal, member_run, payloads_of, text_at};
use std::alloc::{AllocError, Global};
use std::sync::ArcStr;

/// The number itself.
pub(crate) fn number_of(number: &i64) -> i64
    ensures value { result ≡ number.now }
    ensures ranged { IsInt64 result }
{
    *number
}

/// A copy of the text of this number.
#[inline(always)]
pub(crate) fn name_at(alloc: Global, fields: &[Field<'_>], number: u32) -> Result<ArcStr, Refusal>
    ensures found { let bytes = bytes_at number (map field_view fields.now) in
        IfOk result (λ name. (text_view name ≡ points_of bytes) × IsUtf8 bytes) }
    ensures fault { IfErr result (MemoryOr (Utf8Fault (bytes_at number (map field_view fields.now)))) }
{
    let text = text_at(fields, number)?;
    Ok(ArcStr::from_str(alloc, text)?)
}

/// The payloads of this number in the run of a oneof's last member; the oneof's members have these keys.
#[inline(always)]
pub(crate) fn run_payloads<'a>(
    alloc: Global,
    fields: &[Field<'a>],
    keys: &[Key],
    number: u32,
) -> Result<Payloads<'a>, AllocError>
    ensures { IfOk result (λ v. parts_view v.items ≡ payloads number (member_run keys.now (map field_view fields.now))) }
{
    let run = member_run(alloc, fields, keys)?;
    payloads_of(alloc, &run, number)
}

/// The payloads of two numbers.
#[inline(always)]
pub(crate) fn two_payloads_of<'a>(
    alloc: Global,
    fields: &[Field<'a>],
    first: u32,
    second: u32,
) -> Result<(Payloads<'a>, Payloads<'a>), AllocError>
    ensures { IfOk result (λ two. (parts_view two.0.items ≡ payloads first (map field_view fields.now))
        × (parts_view two.1.items ≡ payloads second (map field_view fields.now))) }
{
    let first = payloads_of(alloc, fields, first)?;
    let second = payloads_of(alloc, fields, second)?;
    Ok((first, second))
}
