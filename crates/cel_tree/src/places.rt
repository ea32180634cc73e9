//! The place of a fault in an expression: the node that has it, or the entry of a map.

ghost use Rattle.std.specs.Prelude.{◌≡◌};
ghost use Rattle.std.specs.Int.{cast_unsigned, w64};
ghost use Rattle.proto_wire.specs.Places.{path_of};
ghost use Rattle.cel_tree.specs.Places.{NamesEntry, NamesNode};

use proto_wire::{Fault, Refusal};

/// The field of an Expr that has the node's id.
pub const NODE_ID: u32 = 2;

/// The field of a map's entry that has its key, the id of a node.
pub const ENTRY_KEY: u32 = 1;

/// A fault of the node with this id.
#[cold]
#[inline(never)]
pub fn fault_of_node(refusal: Refusal, id: i64) -> Fault
    ensures refusal { result.refusal ≡ refusal }
    ensures place { NamesNode id (path_of result.place) }
{
    Fault::at(refusal, 0).inside(NODE_ID, position_of(id))
}

/// A fault of the entry with this id.
#[cold]
#[inline(never)]
pub fn fault_of_entry(refusal: Refusal, id: i64) -> Fault
    ensures refusal { result.refusal ≡ refusal }
    ensures place { NamesEntry id (path_of result.place) }
{
    Fault::at(refusal, 0).inside(ENTRY_KEY, position_of(id))
}

// The id as a position: its bits as an unsigned number.
fn position_of(id: i64) -> usize
    ensures { result ≡ cast_unsigned w64 id }
{
    id.cast_unsigned() as usize
}
