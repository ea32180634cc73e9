//! Reads references.

ghost use Rattle.std.specs.Prelude.{◌≡◌, ℕ, List, Some, IfOk, IfErr, OnOk, Contains, map, option_map};
ghost use Rattle.std.specs.List.{AllByRecursion};
ghost use Rattle.std.specs.Str.{IsUtf8};
ghost use Rattle.proto_wire.specs.Fields.{field_view};
ghost use Rattle.proto_wire.specs.Merge.{parts_view};
ghost use Rattle.proto_wire.specs.Refusal.{MemoryOr};
ghost use Rattle.proto_wire.specs.Values.{payloads, Utf8Fault};
ghost use Rattle.cel_value.specs.Texts.{points_of};
ghost use Rattle.proto_wire.specs.Reading.{Never, IsOptional, OptionalFault};
ghost use Rattle.proto_wire.specs.private.Values.{ValuesFault};
ghost use Rattle.cel_tree.specs.Constants.{IsConstant, ConstantFault};
ghost use Rattle.cel_tree.specs.References.{reference_field, ReferenceSays, ReferenceWrong, IsReference, ReferenceFault};
ghost use Rattle.cel_tree.specs.View.{constant_view, name_view, reference_view};

use crate::constant::read_constant;
use cel_tree::{Constant, Reference};
use proto_wire::{Field, Key, Refusal, keys, payloads_of, read_message, text_at, text_of};
use std::alloc::{AllocError, Global};
use std::sync::ArcStr;

const NAME: u32 = 1;

const OVERLOAD_ID: u32 = 3;

const VALUE: u32 = 4;

static REFERENCE: [Key; 3] = keys![Len NAME, Len OVERLOAD_ID, Len VALUE];

/// Reads a Reference from its parts.
pub(crate) fn read_reference(alloc: Global, parts: &[&[u8]]) -> Result<Reference, Refusal>
    ensures found { IfOk result (λ reference. IsReference (parts_view parts.now) (reference_view reference)) }
    ensures fault { IfErr result (MemoryOr (ReferenceFault (parts_view parts.now))) }
{
    let fields = read_message(alloc, parts, &REFERENCE)?;
    reference_of(alloc, &fields)
}

// The reference that the fields mean. The ids of overloads are read, and not kept.
fn reference_of(alloc: Global, fields: &[Field<'_>]) -> Result<Reference, Refusal>
    ensures found { IfOk result (λ reference. ReferenceSays (map field_view fields.now) (reference_view reference)) }
    ensures fault { IfErr result (MemoryOr (ValuesFault Never ReferenceWrong (map field_view fields.now))) }
{
    let name = text_at(fields, NAME)?;
    require_ids(alloc, fields)?;
    let value = value_of(alloc, fields)?;
    let name = kept_name(alloc, name)?;
    Ok(Reference { name, value })
}

// Refuses ids of overloads if one is not UTF-8.
fn require_ids(alloc: Global, fields: &[Field<'_>]) -> Result<(), Refusal>
    ensures found { OnOk result (AllByRecursion IsUtf8 (payloads reference_field.overload_id (map field_view fields.now))) }
    ensures fault { IfErr result (MemoryOr (λ e. (text : List ℕ)
        × Contains (payloads reference_field.overload_id (map field_view fields.now)) text × Utf8Fault text e)) }
{
    let ids = payloads_of(alloc, fields, OVERLOAD_ID)?;
    require_texts(&ids)
}

// The value that the fields mean; none if there is no field of it.
fn value_of(alloc: Global, fields: &[Field<'_>]) -> Result<Option<Constant>, Refusal>
    ensures found { IfOk result (λ value.
        IsOptional IsConstant reference_field.value (map field_view fields.now) (option_map constant_view value)) }
    ensures fault { IfErr result (MemoryOr (OptionalFault ConstantFault reference_field.value (map field_view fields.now))) }
{
    let parts = payloads_of(alloc, fields, VALUE)?;
    if parts.is_empty() {
        return Ok(None);
    }
    Ok(Some(read_constant(alloc, &parts)?))
}

// A copy of a name; none if it is empty, as the names of functions are.
fn kept_name(alloc: Global, name: &str) -> Result<Option<ArcStr>, AllocError>
    ensures { IfOk result (λ kept. name_view kept ≡ points_of name.now) }
{
    if name.is_empty() {
        return Ok(None);
    }
    Ok(Some(ArcStr::from_str(alloc, name)?))
}

// Refuses payloads if one is not UTF-8.
fn require_texts(payloads: &[&[u8]]) -> Result<(), Refusal>
    ensures found { OnOk result (AllByRecursion IsUtf8 (parts_view payloads.now)) }
    ensures fault { IfErr result (λ e. (text : List ℕ) × Contains (parts_view payloads.now) text × Utf8Fault text e) }
{
    for payload in payloads {
        text_of(payload)?;
    }
    Ok(())
}
