//! Reads checked expressions (`google.api.expr.v1alpha1.CheckedExpr`), and expressions without entries (`Expr`).

ghost use Rattle.std.specs.Prelude.{◌≤◌, [], ◌∷◌, IfOk, IfErr, map};
ghost use Rattle.proto_wire.specs.Fields.{field_view};
ghost use Rattle.proto_wire.specs.Maps.{int64, IsMap};
ghost use Rattle.proto_wire.specs.Merge.{parts_view};
ghost use Rattle.proto_wire.specs.Places.{FaultOr};
ghost use Rattle.proto_wire.specs.Refusal.{MemoryOr};
ghost use Rattle.proto_wire.specs.Values.{payloads};
ghost use Rattle.cel_tree.specs.Message.{checked_field, most_nodes, tree_depth, CheckedSays, IsChecked, CheckedFault, IsUnchecked, UncheckedFault};
ghost use Rattle.cel_tree.specs.Places.{PlacedOr};
ghost use Rattle.cel_tree.specs.References.{IsReference};
ghost use Rattle.cel_tree.specs.Trees.{IsTree, node_count};
ghost use Rattle.cel_tree.specs.TypeEntries.{IsTypeEntry};
ghost use Rattle.cel_tree.specs.View.{checked_view, references_view, tree_view, types_view};
ghost use Rattle.cel_read.specs.Places.{CheckedFaultAt, CheckedWrongAt, TreeFaultAt, UncheckedFaultAt};

use crate::maps::{REFERENCE_MAP, TREE_DEPTH, TYPE_MAP, references_of, types_of};
use crate::read::read_tree;
use cel_tree::{Checked, ReferenceMap, Tree, TypeMap, both};
use proto_wire::{
    Fault, Field, Key, Refusal, at_field, inside_field, keys, payloads_of, read_message,
    require_payload,
};
use std::alloc::Global;

// How many nodes a tree may have.
const MOST_NODES: u32 = 2048;

const EXPR: u32 = 4;

const SOURCE_INFO: u32 = 5;

const EXPR_VERSION: u32 = 6;

static CHECKED: [Key; 5] = keys![
    Len REFERENCE_MAP, Len TYPE_MAP, Len EXPR, Len SOURCE_INFO, Len EXPR_VERSION
];

/// Reads the message of a checked expression: its tree, and both maps. Refuses a message with a fault: `BadWire`,
/// `BadText`, `UnknownField`, `Missing`, `OutOfRange`, `Unsupported` or `TooLarge`; or `Memory`.
pub fn read_checked(alloc: Global, bytes: &[u8]) -> Result<Checked, Refusal>
    ensures found { IfOk result (λ c. IsChecked (bytes.now ∷ []) (checked_view c)) }
    ensures fault { IfErr result (MemoryOr (CheckedFault (bytes.now ∷ []))) }
{
    read_checked_parts(alloc, &[bytes])
}

/// The same for a message in several payloads, each of which has to be a list of whole fields.
pub fn read_checked_parts(alloc: Global, parts: &[&[u8]]) -> Result<Checked, Refusal>
    ensures found { IfOk result (λ c. IsChecked (parts_view parts.now) (checked_view c)) }
    ensures fault { IfErr result (MemoryOr (CheckedFault (parts_view parts.now))) }
{
    Ok(read_checked_at(alloc, parts)?)
}

/// The checked expression, as `read_checked_parts` reads it. The place of a fault names the node, or the entry of a map.
pub fn read_checked_at(alloc: Global, parts: &[&[u8]]) -> Result<Checked, Fault>
    ensures found { IfOk result (λ c. IsChecked (parts_view parts.now) (checked_view c)) }
    ensures fault { IfErr result (FaultOr (CheckedFault (parts_view parts.now))) }
    ensures place { IfErr result (PlacedOr (CheckedFaultAt (parts_view parts.now))) }
{
    let fields = read_message(alloc, parts, &CHECKED)?;
    checked_of(alloc, &fields)
}

/// Reads the message of an expression (`google.api.expr.v1alpha1.Expr`) in several payloads. Both maps are empty. Refuses
/// a message with a fault, as `read_checked` does; or `Memory`.
pub fn read_unchecked_parts(alloc: Global, parts: &[&[u8]]) -> Result<Checked, Refusal>
    ensures found { IfOk result (λ c. IsUnchecked (parts_view parts.now) (checked_view c)) }
    ensures fault { IfErr result (MemoryOr (UncheckedFault (parts_view parts.now))) }
{
    Ok(read_unchecked_at(alloc, parts)?)
}

/// The expression, as `read_unchecked_parts` reads it. The place of a fault names the node.
pub fn read_unchecked_at(alloc: Global, parts: &[&[u8]]) -> Result<Checked, Fault>
    ensures found { IfOk result (λ c. IsUnchecked (parts_view parts.now) (checked_view c)) }
    ensures fault { IfErr result (FaultOr (UncheckedFault (parts_view parts.now))) }
    ensures place { IfErr result (PlacedOr (UncheckedFaultAt (parts_view parts.now))) }
{
    let tree = whole_tree(alloc, parts)?;
    Ok(Checked {
        tree,
        types: TypeMap::new(alloc),
        refs: ReferenceMap::new(alloc),
    })
}

// The checked expression that the fields mean.
fn checked_of(alloc: Global, fields: &[Field<'_>]) -> Result<Checked, Fault>
    ensures found { IfOk result (λ c. CheckedSays (map field_view fields.now) (checked_view c)) }
    ensures fault { IfErr result (PlacedOr (CheckedWrongAt (map field_view fields.now))) }
{
    at_field(require_payload(fields, EXPR), EXPR)?;
    let tree = inside_field(tree_of(alloc, fields), EXPR, 0)?;
    let (tree, (types, refs)) = both(tree, maps_of(alloc, fields))?;
    Ok(Checked { tree, types, refs })
}

// Both maps of the fields.
fn maps_of(alloc: Global, fields: &[Field<'_>]) -> Result<(TypeMap, ReferenceMap), Fault>
    ensures found { let fs = map field_view fields.now in IfOk result (λ maps.
        IsMap int64 (IsTypeEntry tree_depth) (payloads checked_field.type_map fs) (types_view maps.0)
        × IsMap int64 IsReference (payloads checked_field.reference_map fs) (references_view maps.1)) }
    ensures fault { IfErr result (PlacedOr (CheckedWrongAt (map field_view fields.now))) }
{
    let types = inside_field(types_of(alloc, fields), TYPE_MAP, 0)?;
    let refs = inside_field(references_of(alloc, fields), REFERENCE_MAP, 0)?;
    Ok((types, refs))
}

// The tree of the fields.
fn tree_of(alloc: Global, fields: &[Field<'_>]) -> Result<Tree, Fault>
    ensures found { IfOk result (λ t. IsTree tree_depth (payloads checked_field.expr (map field_view fields.now)) (tree_view t)
        × (node_count (tree_view t) ≤ most_nodes)) }
    ensures fault { IfErr result (PlacedOr
        (TreeFaultAt tree_depth most_nodes (payloads checked_field.expr (map field_view fields.now)))) }
{
    let parts = payloads_of(alloc, fields, EXPR)?;
    whole_tree(alloc, &parts)
}

// The tree of an expression's payloads, with at most so many nodes as a tree may have.
fn whole_tree(alloc: Global, parts: &[&[u8]]) -> Result<Tree, Fault>
    ensures found { IfOk result (λ t. IsTree tree_depth (parts_view parts.now) (tree_view t)
        × (node_count (tree_view t) ≤ most_nodes)) }
    ensures fault { IfErr result (PlacedOr (TreeFaultAt tree_depth most_nodes (parts_view parts.now))) }
{
    let mut left = MOST_NODES;
    read_tree(alloc, parts, TREE_DEPTH, &mut left)
}
