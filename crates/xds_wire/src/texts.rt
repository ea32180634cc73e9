//! Repeated strings.

ghost use Rattle.std.specs.Prelude.{◌≡◌, map, IfOk, IfErr, IsUtf8};
ghost use Rattle.std.specs.List.{AllByRecursion};
ghost use Rattle.proto_wire.specs.Fields.{field_view};
ghost use Rattle.proto_wire.specs.Merge.{parts_view, SomeOf};
ghost use Rattle.proto_wire.specs.Refusal.{MemoryOr};
ghost use Rattle.proto_wire.specs.Values.{Utf8Fault};
ghost use Rattle.xds_wire.specs.Envelope.{AreStrings, StringsFault};
ghost use Rattle.xds_wire.specs.View.{texts_view};

use proto_wire::{Field, Refusal, payloads_of, text_of};
use std::alloc::Global;

/// The strings of this number, in order.
pub(crate) fn repeated_text<'a>(
    alloc: Global,
    fields: &[Field<'a>],
    number: u32,
) -> Result<Vec<&'a str>, Refusal>
    ensures found { IfOk result (λ v.
        AreStrings number (map field_view fields.now) (texts_view v.items)) }
    ensures fault { IfErr result (MemoryOr (StringsFault number (map field_view fields.now))) }
{
    let parts = payloads_of(alloc, fields, number)?;
    read_each(alloc, &parts)
}

// Each payload as a string.
fn read_each<'a>(alloc: Global, parts: &[&'a [u8]]) -> Result<Vec<&'a str>, Refusal>
    ensures found { IfOk result (λ v.
        (texts_view v.items ≡ parts_view parts.now) × AllByRecursion IsUtf8 (texts_view v.items)) }
    ensures fault { IfErr result (MemoryOr (λ e. SomeOf (λ bytes. Utf8Fault bytes e) (parts_view parts.now))) }
{
    let mut texts = Vec::with_capacity(alloc, parts.len())?;
    for part in parts {
        texts.push(text_of(part)?)?;
    }
    Ok(texts)
}
