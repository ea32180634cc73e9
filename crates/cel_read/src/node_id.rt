//! The id of an expression that does not read, to name it.

ghost use Rattle.std.specs.Prelude.{◌≡◌, ◌≢◌, ◌⊎◌, IfSome, List, [], None, unwrap_or};
ghost use Rattle.std.specs.Int.{cast_signed, w64};
ghost use Rattle.proto_wire.specs.Fields.{FailsField, StartsField, Wire, field_view};
ghost use Rattle.proto_wire.specs.Merge.{parts_view};
ghost use Rattle.proto_wire.specs.Places.{path_of};
ghost use Rattle.proto_wire.specs.Values.{last_of, varint_at, varints};
ghost use Rattle.proto_wire.specs.declared.fault.WireError.{WireError};
ghost use Rattle.cel_tree.specs.Nodes.{node_field};
ghost use Rattle.cel_read.specs.Places.{AreWhole, AreWholeOf, NamesExpr};

use cel_tree::{NODE_ID, fault_of_node};
use proto_wire::{Fault, Field, Reader, Refusal, last_varint};

/// The fault of an expression with these parts, which names it by its id.
#[cold]
#[inline(never)]
pub(crate) fn fault_of_expr(parts: &[&[u8]], refusal: Refusal) -> Fault
    ensures refusal { result.refusal ≡ refusal }
    ensures place { NamesExpr (parts_view parts.now) (path_of result.place) }
{
    fault_of_node(refusal, signed(id_of(parts)))
}

// The number with these bits in two's complement.
fn signed(bits: u64) -> i64
    ensures { result ≡ cast_signed w64 bits }
{
    bits.cast_signed()
}

// The id in the fields of all parts, as it is encoded. Of a part that is no list of fields, those before the fault count.
fn id_of(parts: &[&[u8]]) -> u64
    ensures { (fs : List Wire) × AreWholeOf (parts_view parts.now) fs × (result ≡ varint_at node_field.id fs) }
{
    let mut last = 0;
    for part in parts {
        last = last_id(part, last);
    }
    last
}

// The last id in the fields of a part, as it is encoded; the one before them if they have none.
fn last_id(bytes: &[u8], before: u64) -> u64
    ensures { (fs : List Wire) × AreWhole bytes.now fs
        × (result ≡ unwrap_or (last_of (varints node_field.id fs)) before) }
{
    let mut last = before;
    let mut reader = Reader::new(bytes);
    while let Some(field) = next_field(&mut reader) {
        last = last_varint(&[field], NODE_ID).unwrap_or(last);
    }
    last
}

// The next field; none at the end, and before bytes that are no field.
fn next_field<'a>(reader: &mut Reader<'a>) -> Option<Field<'a>>
    ensures found { IfSome result (λ f. StartsField reader.old (field_view f) reader.new) }
    ensures none { result ≡ None → (reader.new ≡ reader.old)
        × ((reader.old ≡ []) ⊎ ((reader.old ≢ []) × (e : WireError) × FailsField reader.old e)) }
{
    match reader.next() {
        Ok(found) => found,
        Err(_) => None,
    }
}
