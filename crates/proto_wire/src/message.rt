//! All fields of a message, and messages whose fields must all be known.

ghost use Rattle.std.specs.Prelude.{◌≡◌, ◌<◌, ◌++◌, List, [], ◌∷◌, Err, map, IfOk, IfErr, IsErrAnd, OnOk, MatchResult};
ghost use Rattle.smallvec.specs.SmallVec.{HasRoomFor};
ghost use Rattle.proto_wire.specs.Fields.{Wire, Fields, IsBroken, field_view};
ghost use Rattle.proto_wire.specs.Keys.{AllKnown, SomeUnknown};
ghost use Rattle.proto_wire.specs.Merge.{Merges, FirstBreaks, parts_view};
ghost use Rattle.proto_wire.specs.Messages.{PartsFault, IsMessage, MessageFault};
ghost use Rattle.proto_wire.specs.Places.{FaultOr, MessagePlace, NamesUnknown};
ghost use Rattle.proto_wire.specs.Refusal.{MemoryOr};

use crate::field::Field;
use crate::key::{Key, first_unknown};
use crate::placed::Fault;
use crate::reader::Reader;
use crate::refusal::Refusal;
use smallvec::SmallVec;
use std::alloc::{AllocError, Global};

/// The fields of a message. Up to three are in the list itself; more are on the heap.
pub type MessageFields<'a> = SmallVec<Field<'a>, 3>;

/// The fields of a message, in order. `BadWire` if the bytes are not a list of whole fields, or
/// `Memory`, which occurs only after a first whole field.
pub fn read_fields<'a>(alloc: Global, bytes: &'a [u8]) -> Result<MessageFields<'a>, Refusal>
    ensures found { IfOk result (λ v. Fields bytes.now (map field_view v.items)) }
    ensures fault { IfErr result (MemoryOr (λ e. IsBroken bytes.now × (e ≡ Refusal.BadWire))) }
    ensures at_once { FirstBreaks (bytes.now ∷ []) → result ≡ Err Refusal.BadWire }
    ensures reads { (fs : List Wire) → Fields bytes.now fs
        → MatchResult result (λ v. map field_view v.items ≡ fs) (λ e. e ≡ Refusal.Memory) }
{
    let mut fields = MessageFields::new(alloc);
    append_fields(bytes, &mut fields)?;
    Ok(fields)
}

/// The fields of a message in several payloads, in order; each payload has to be a list of whole
/// fields. `BadWire` if one is not, or `Memory`.
pub fn read_parts<'a>(alloc: Global, parts: &[&'a [u8]]) -> Result<MessageFields<'a>, Refusal>
    ensures found { IfOk result (λ v. Merges (parts_view parts.now) (map field_view v.items)) }
    ensures fault { IfErr result (MemoryOr (PartsFault (parts_view parts.now))) }
    ensures at_once { FirstBreaks (parts_view parts.now) → result ≡ Err Refusal.BadWire }
    ensures reads { (fs : List Wire) → Merges (parts_view parts.now) fs
        → MatchResult result (λ v. map field_view v.items ≡ fs) (λ e. e ≡ Refusal.Memory) }
{
    let mut fields = MessageFields::new(alloc);
    for part in parts {
        append_fields(part, &mut fields)?;
    }
    Ok(fields)
}

/// The fields of a message in several payloads, each of which has to be a list of whole fields.
/// `BadWire` if one is not, `UnknownField` if some field has none of the keys, or `Memory`.
pub fn read_message<'a>(
    alloc: Global,
    parts: &[&'a [u8]],
    keys: &[Key],
) -> Result<MessageFields<'a>, Refusal>
    ensures found { IfOk result (λ v. IsMessage keys.now (parts_view parts.now)
        (map field_view v.items)) }
    ensures fault { IfErr result (MemoryOr (MessageFault keys.now (parts_view parts.now))) }
    ensures at_once { FirstBreaks (parts_view parts.now) → result ≡ Err Refusal.BadWire }
    ensures reads { (fs : List Wire) → IsMessage keys.now (parts_view parts.now) fs
        → MatchResult result (λ v. map field_view v.items ≡ fs) (λ e. e ≡ Refusal.Memory) }
{
    Ok(read_message_at(alloc, parts, keys)?)
}

/// The fields of a message, as `read_message` reads them. The place of `UnknownField` names the first field that
/// has none of the keys; that of any other refusal is the message.
pub fn read_message_at<'a>(
    alloc: Global,
    parts: &[&'a [u8]],
    keys: &[Key],
) -> Result<MessageFields<'a>, Fault>
    ensures found { IfOk result (λ v. IsMessage keys.now (parts_view parts.now)
        (map field_view v.items)) }
    ensures fault { IfErr result (FaultOr (MessageFault keys.now (parts_view parts.now))) }
    ensures place { IfErr result (MessagePlace keys.now (parts_view parts.now)) }
    ensures at_once { FirstBreaks (parts_view parts.now)
        → IsErrAnd result (λ f. f.refusal ≡ Refusal.BadWire) }
    ensures reads { (fs : List Wire) → IsMessage keys.now (parts_view parts.now) fs
        → MatchResult result (λ v. map field_view v.items ≡ fs) (λ f. f.refusal ≡ Refusal.Memory) }
{
    let fields = read_parts(alloc, parts)?;
    require_known(&fields, keys)?;
    Ok(fields)
}

// Refuses fields if some has none of the keys: `UnknownField`, which names the first such field. It takes no
// memory.
fn require_known(fields: &[Field<'_>], keys: &[Key]) -> Result<(), Fault>
    ensures found { OnOk result (AllKnown keys.now (map field_view fields.now)) }
    ensures fault { IfErr result (λ f.
        SomeUnknown keys.now (map field_view fields.now) × (f.refusal ≡ Refusal.UnknownField)) }
    ensures place { IfErr result (NamesUnknown keys.now (map field_view fields.now)) }
{
    match first_unknown(fields, keys) {
        None => Ok(()),
        Some(number) => Err(Fault::at(Refusal::UnknownField, number)),
    }
}

/// Refuses a nested message if no level is left: `TooLarge`. It takes no memory.
pub fn require_level(depth: u32) -> Result<(), Refusal>
    ensures found { OnOk result (0 < depth) }
    ensures fault { IfErr result (λ e. (depth ≡ 0) × (e ≡ Refusal.TooLarge)) }
{
    if depth == 0 {
        return Err(Refusal::TooLarge);
    }
    Ok(())
}

// Appends the fields of a payload.
fn append_fields<'a>(bytes: &'a [u8], fields: &mut MessageFields<'a>) -> Result<(), Refusal>
    ensures found { OnOk result ((fs : List Wire) × Fields bytes.now fs
        × (map field_view fields.new.items ≡ map field_view fields.old.items ++ fs)) }
    ensures fault { IfErr result (MemoryOr (λ e. IsBroken bytes.now × (e ≡ Refusal.BadWire))) }
    ensures at_once { FirstBreaks (bytes.now ∷ []) → result ≡ Err Refusal.BadWire }
{
    let mut reader = Reader::new(bytes);
    while let Some(field) = reader.next()? {
        add_field(fields, field)?;
    }
    Ok(())
}

// Appends a field.
#[inline(always)]
fn add_field<'a>(fields: &mut MessageFields<'a>, field: Field<'a>) -> Result<(), AllocError>
    ensures { OnOk result (fields.new.items ≡ fields.old.items ++ field.entry ∷ []) }
{
    if fields.len() == fields.capacity() {
        grow(fields)?;
    }
    fields.push_reserved(field);
    Ok(())
}

// Makes room for half as many fields again. Doubled, the list would take twice the memory that the
// fields of a hostile message need.
#[cold]
#[inline(never)]
fn grow(fields: &mut MessageFields<'_>) -> Result<(), AllocError>
    ensures items { fields.new.items ≡ fields.old.items }
    ensures room { OnOk result (HasRoomFor fields.new 1) }
{
    fields.reserve_exact(fields.len() / 2 + 1)
}
