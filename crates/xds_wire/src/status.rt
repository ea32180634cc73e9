//! Errors as messages (`google.rpc.Status`).

ghost use Rattle.std.specs.Prelude.{◌≡◌, List, map, IfOk, IfErr, OnOk, OnErr};
ghost use Rattle.std.specs.Option.{option_map};
ghost use Rattle.proto_wire.specs.Fields.{Wire, IsFieldNumber, field_view};
ghost use Rattle.proto_wire.specs.Merge.{parts_view};
ghost use Rattle.proto_wire.specs.Refusal.{MemoryOr};
ghost use Rattle.proto_wire.specs.Values.{StringFault};
ghost use Rattle.xds_wire.specs.Discovery.{status_field, AreStatusFields, IsStatus, StatusFault};
ghost use Rattle.proto_wire.specs.Reading.{IsOptional, OptionalFault};
ghost use Rattle.xds_wire.specs.View.{status_view};
ghost use Rattle.xds_wire.specs.Written.{StatusWritten, AreOptional, int32_fields};
ghost use Rattle.xds_wire.specs.private.Writing.{Adds};

use crate::writing::put_text;
use proto_wire::{Field, Refusal, Writer, int32_at, payloads_of, read_parts, text_at};
use std::alloc::{AllocError, Global};

/// An error that an answer reports, or none.
#[derive(Clone, Copy, PartialEq, Eq, Debug)]
pub struct Status<'a> {
    /// The kind of the error (`google.rpc.Code`).
    pub code: i32,
    /// What is wrong.
    pub message: &'a str,
}

// The number of `code` in a Status.
const CODE: u32 = 1;

// The number of `message` in a Status.
const MESSAGE: u32 = 2;

// The message that the payloads merge to.
fn read_status<'a>(alloc: Global, parts: &[&'a [u8]]) -> Result<Status<'a>, Refusal>
    ensures found { IfOk result (λ status. IsStatus (parts_view parts.now) (status_view status)) }
    ensures fault { IfErr result (MemoryOr (StatusFault (parts_view parts.now))) }
{
    let fields = read_parts(alloc, parts)?;
    status_of(&fields)
}

// The message of these fields.
fn status_of<'a>(fields: &[Field<'a>]) -> Result<Status<'a>, Refusal>
    ensures found { IfOk result (λ status.
        AreStatusFields (map field_view fields.now) (status_view status)) }
    ensures fault { IfErr result (StringFault status_field.message (map field_view fields.now)) }
{
    Ok(Status {
        code: int32_at(fields, CODE),
        message: text_at(fields, MESSAGE)?,
    })
}

/// The optional message of this number; all its payloads merge.
pub(crate) fn merged_status<'a>(
    alloc: Global,
    fields: &[Field<'a>],
    number: u32,
) -> Result<Option<Status<'a>>, Refusal>
    ensures found { IfOk result (λ found.
        IsOptional IsStatus number (map field_view fields.now) (option_map status_view found)) }
    ensures fault { IfErr result (MemoryOr (OptionalFault StatusFault number (map field_view fields.now))) }
{
    let parts = payloads_of(alloc, fields, number)?;
    if parts.is_empty() {
        return Ok(None);
    }
    Ok(Some(read_status(alloc, &parts)?))
}

// The message's bytes.
fn status_bytes(alloc: Global, status: &Status<'_>) -> Result<Vec<u8>, AllocError>
    ensures { IfOk result (λ v. StatusWritten (status_view status.now) v.items) }
{
    let mut writer = Writer::new(Vec::new(alloc));
    put_code(&mut writer, status.code)?;
    put_text(&mut writer, MESSAGE, status.message)?;
    Ok(writer.into_bytes())
}

/// Writes the optional message.
pub(crate) fn put_status(
    alloc: Global,
    writer: &mut Writer,
    number: u32,
    status: &Option<Status<'_>>,
) -> Result<(), AllocError>
    requires { IsFieldNumber number }
    ensures found { OnOk result ((fs : List Wire)
        × AreOptional StatusWritten number (option_map status_view status.now) fs
        × Adds writer.old fs writer.new) }
    ensures fault { OnErr result (writer.new ≡ writer.old) }
{
    let Some(status) = status else {
        return Ok(());
    };
    let bytes = status_bytes(alloc, status)?;
    writer.message(number, &bytes)
}

// Writes the code, unless it is 0.
fn put_code(writer: &mut Writer, code: i32) -> Result<(), AllocError>
    ensures found { OnOk result (Adds writer.old (int32_fields CODE code) writer.new) }
    ensures fault { OnErr result (writer.new ≡ writer.old) }
{
    let value = i64::from(code).cast_unsigned();
    if value == 0 {
        return Ok(());
    }
    writer.varint(CODE, value)
}
