//! Messages of any type (`google.protobuf.Any`).

ghost use Rattle.std.specs.Prelude.{◌≡◌, [], ◌∷◌, List, map, IfOk, IfErr, OnOk, OnErr};
ghost use Rattle.std.specs.Option.{option_map};
ghost use Rattle.std.specs.List.{AllZip};
ghost use Rattle.proto_wire.specs.Fields.{Wire, IsFieldNumber, field_view};
ghost use Rattle.proto_wire.specs.Merge.{parts_view, SomeOf};
ghost use Rattle.proto_wire.specs.Refusal.{MemoryOr};
ghost use Rattle.proto_wire.specs.Values.{StringFault};
ghost use Rattle.xds_wire.specs.Discovery.{any_field, AreAnyFields, IsAny, AnyFault};
ghost use Rattle.proto_wire.specs.Reading.{IsOptional, OptionalFault};
ghost use Rattle.xds_wire.specs.Envelope.{AreRepeated, RepeatedFault};
ghost use Rattle.proto_wire.specs.private.Writing.{Keeps};
ghost use Rattle.xds_wire.specs.View.{any_view};
ghost use Rattle.xds_wire.specs.Written.{AnyWritten, AreOptional, AreEach};
ghost use Rattle.xds_wire.specs.private.Writing.{Adds};

use crate::writing::{put_bytes, put_text};
use proto_wire::{Field, Refusal, Writer, bytes_at, payloads_of, read_parts, text_at};
use std::alloc::{AllocError, Global};

/// A message of any type.
#[derive(Clone, Copy, Debug)]
pub struct Any<'a> {
    /// The name of the message's type.
    pub type_url: &'a str,
    /// The message's bytes.
    pub value: &'a [u8],
}

// The number of `type_url` in an Any.
const TYPE_URL: u32 = 1;

// The number of `value` in an Any.
const VALUE: u32 = 2;

/// The message that the payloads merge to.
pub(crate) fn read_any<'a>(alloc: Global, parts: &[&'a [u8]]) -> Result<Any<'a>, Refusal>
    ensures found { IfOk result (λ any. IsAny (parts_view parts.now) (any_view any)) }
    ensures fault { IfErr result (MemoryOr (AnyFault (parts_view parts.now))) }
{
    let fields = read_parts(alloc, parts)?;
    any_of(&fields)
}

// The message of these fields.
fn any_of<'a>(fields: &[Field<'a>]) -> Result<Any<'a>, Refusal>
    ensures found { IfOk result (λ any. AreAnyFields (map field_view fields.now) (any_view any)) }
    ensures fault { IfErr result (StringFault any_field.type_url (map field_view fields.now)) }
{
    Ok(Any {
        type_url: text_at(fields, TYPE_URL)?,
        value: bytes_at(fields, VALUE),
    })
}

/// The optional message of this number; all its payloads merge.
pub(crate) fn merged_any<'a>(
    alloc: Global,
    fields: &[Field<'a>],
    number: u32,
) -> Result<Option<Any<'a>>, Refusal>
    ensures found { IfOk result (λ found.
        IsOptional IsAny number (map field_view fields.now) (option_map any_view found)) }
    ensures fault { IfErr result (MemoryOr (OptionalFault AnyFault number (map field_view fields.now))) }
{
    let parts = payloads_of(alloc, fields, number)?;
    if parts.is_empty() {
        return Ok(None);
    }
    Ok(Some(read_any(alloc, &parts)?))
}

/// The messages of this number, in order.
pub(crate) fn repeated_any<'a>(
    alloc: Global,
    fields: &[Field<'a>],
    number: u32,
) -> Result<Vec<Any<'a>>, Refusal>
    ensures found { IfOk result (λ v.
        AreRepeated IsAny number (map field_view fields.now) (map any_view v.items)) }
    ensures fault { IfErr result (MemoryOr (RepeatedFault AnyFault number (map field_view fields.now))) }
{
    let parts = payloads_of(alloc, fields, number)?;
    read_each(alloc, &parts)
}

// Each payload as a message.
fn read_each<'a>(alloc: Global, parts: &[&'a [u8]]) -> Result<Vec<Any<'a>>, Refusal>
    ensures found { IfOk result (λ v.
        AllZip (λ part m. IsAny (part ∷ []) m) (parts_view parts.now) (map any_view v.items)) }
    ensures fault { IfErr result (MemoryOr (λ e. SomeOf (λ part. AnyFault (part ∷ []) e) (parts_view parts.now))) }
{
    let mut messages = Vec::with_capacity(alloc, parts.len())?;
    for part in parts {
        messages.push(read_any(alloc, &[*part])?)?;
    }
    Ok(messages)
}

// The message's bytes.
fn any_bytes(alloc: Global, any: &Any<'_>) -> Result<Vec<u8>, AllocError>
    ensures { IfOk result (λ v. AnyWritten (any_view any.now) v.items) }
{
    let mut writer = Writer::new(Vec::new(alloc));
    put_text(&mut writer, TYPE_URL, any.type_url)?;
    put_bytes(&mut writer, VALUE, any.value)?;
    Ok(writer.into_bytes())
}

/// Writes the optional message.
pub(crate) fn put_any(
    alloc: Global,
    writer: &mut Writer,
    number: u32,
    any: &Option<Any<'_>>,
) -> Result<(), AllocError>
    requires { IsFieldNumber number }
    ensures found { OnOk result ((fs : List Wire)
        × AreOptional AnyWritten number (option_map any_view any.now) fs
        × Adds writer.old fs writer.new) }
    ensures fault { OnErr result (writer.new ≡ writer.old) }
{
    let Some(any) = any else {
        return Ok(());
    };
    let bytes = any_bytes(alloc, any)?;
    writer.message(number, &bytes)
}

/// Writes each of the messages.
pub(crate) fn put_each_any(
    alloc: Global,
    writer: &mut Writer,
    number: u32,
    messages: &[Any<'_>],
) -> Result<(), AllocError>
    requires { IsFieldNumber number }
    ensures found { OnOk result ((fs : List Wire)
        × AreEach AnyWritten number (map any_view messages.now) fs
        × Adds writer.old fs writer.new) }
    ensures fault { OnErr result (Keeps writer.old writer.new) }
{
    for message in messages {
        let bytes = any_bytes(alloc, message)?;
        writer.message(number, &bytes)?;
    }
    Ok(())
}
