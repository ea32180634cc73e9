//! The fields of the messages in a CheckRequest.

ghost use Rattle.std.specs.Prelude.{◌≡◌, List, IfErr, IfOk, IsUtf8, map};
ghost use Rattle.std.specs.FinMap.{entries};
ghost use Rattle.proto_wire.specs.Fields.{field_view};
ghost use Rattle.proto_wire.specs.Maps.{AreEntries, Entry, SomeEntryFault, entries_view, map_of, text};
ghost use Rattle.proto_wire.specs.Merge.{Merges, parts_view};
ghost use Rattle.proto_wire.specs.Messages.{PartsFault};
ghost use Rattle.proto_wire.specs.Values.{StringFault, Utf8Fault, bytes_at, payloads};
ghost use Rattle.check_request.specs.Faults.{FaultOr};
ghost use Rattle.check_request.specs.Numbers.{Inner};

use crate::fault::{CheckFault, at};
use crate::part::CheckPart;
use proto_wire::{
    Field, MapEntry, MessageFields, payloads_of, read_entries, read_parts, text_at, text_of,
};
use std::alloc::Global;

/// The fields that the payloads of this part merge to.
pub(crate) fn fields_in<'a>(
    alloc: Global,
    parts: &[&'a [u8]],
    part: CheckPart,
) -> Result<MessageFields<'a>, CheckFault>
    ensures found { IfOk result (λ v. Merges (parts_view parts.now) (map field_view v.items)) }
    ensures fault { IfErr result (FaultOr (λ p e. (p ≡ part) × PartsFault (parts_view parts.now) e)) }
{
    at(read_parts(alloc, parts), part)
}

/// The fields of the message of this number, which is this part; an absent one has none.
pub(crate) fn inner<'a>(
    alloc: Global,
    fields: &[Field<'a>],
    number: u32,
    part: CheckPart,
) -> Result<MessageFields<'a>, CheckFault>
    ensures found { IfOk result (λ v. Inner number (map field_view fields.now) (map field_view v.items)) }
    ensures fault { IfErr result (FaultOr (λ p e. (p ≡ part)
        × PartsFault (payloads number (map field_view fields.now)) e)) }
{
    let parts = payloads_of(alloc, fields, number)?;
    fields_in(alloc, &parts, part)
}

/// The last string of this number, which is this part; empty if there is none.
pub(crate) fn text_in<'a>(
    fields: &[Field<'a>],
    number: u32,
    part: CheckPart,
) -> Result<&'a str, CheckFault>
    ensures found { let bytes = bytes_at number (map field_view fields.now) in
        IfOk result (λ t. (t.now ≡ bytes) × IsUtf8 bytes) }
    ensures fault { IfErr result (λ f. (f.part ≡ part)
        × StringFault number (map field_view fields.now) f.refusal) }
{
    at(text_at(fields, number), part)
}

/// The bytes of this part as text.
pub(crate) fn as_text(bytes: &[u8], part: CheckPart) -> Result<&str, CheckFault>
    ensures found { IfOk result (λ t. (t.now ≡ bytes.now) × IsUtf8 bytes.now) }
    ensures fault { IfErr result (λ f. (f.part ≡ part) × Utf8Fault bytes.now f.refusal) }
{
    at(text_of(bytes), part)
}

/// The entries of a map, which is this part, in order of their keys.
pub(crate) fn entries_in<'a>(
    alloc: Global,
    parts: &[&'a [u8]],
    part: CheckPart,
) -> Result<Vec<MapEntry<'a, &'a str>>, CheckFault>
    ensures found { IfOk result (λ v. (es : List (Entry text)) × AreEntries text (parts_view parts.now) es
        × (entries_view text (λ key. key.now) v.items ≡ entries (map_of text es))) }
    ensures fault { IfErr result (FaultOr (λ p e. (p ≡ part)
        × SomeEntryFault text (parts_view parts.now) e)) }
{
    at(read_entries(alloc, parts), part)
}
