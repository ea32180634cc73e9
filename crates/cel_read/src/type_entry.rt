//! Reads types, within a limit of levels.

ghost use Rattle.std.specs.Prelude.{◌≡◌, ◌⊎◌, IfOk, IfErr};
ghost use Rattle.proto_wire.specs.Merge.{parts_view};
ghost use Rattle.proto_wire.specs.Refusal.{MemoryOr};
ghost use Rattle.cel_value.specs.Types.{type_view};
ghost use Rattle.cel_tree.specs.TypeEntries.{list_of, map_of, list_entry, map_entry, MeansEntry, IsTypeEntry, TypeEntryFault};
ghost use Rattle.cel_tree.specs.View.{type_entry_view};
ghost use Rattle.cel_read.specs.private.InnerTypes.{HoldsFault};
ghost use Rattle.cel_read.specs.private.NodeViews.{type_node_view};

use crate::type_node::{TypeNode, read_type_node};
use cel_tree::TypeEntry;
use cel_value::CelType;
use proto_wire::{Payloads, Refusal, require_level};
use std::alloc::{AllocError, Global};
use std::sync::Arc;

/// Reads a Type of at most `depth` levels from its parts. Tests the limit before it reads anything of the type.
#[cycle(type_entry)]
pub(crate) fn read_type(alloc: Global, parts: &[&[u8]], depth: u32) -> Result<TypeEntry, Refusal>
    ensures found { IfOk result (λ entry. IsTypeEntry depth (parts_view parts.now) (type_entry_view entry)) }
    ensures fault { IfErr result (MemoryOr (TypeEntryFault depth (parts_view parts.now))) }
{
    require_level(depth)?;
    let node = read_type_node(alloc, parts)?;
    read_inner(alloc, node, depth - 1)
}

// Reads the types inside, which may have `depth` levels, and makes the whole type.
#[cycle(type_entry)]
fn read_inner(alloc: Global, node: TypeNode<'_>, depth: u32) -> Result<TypeEntry, Refusal>
    ensures found { IfOk result (λ entry.
        MeansEntry (IsTypeEntry depth) (type_node_view node.entry) (type_entry_view entry)) }
    ensures fault { IfErr result (MemoryOr (HoldsFault (TypeEntryFault depth) (type_node_view node.entry))) }
{
    match node {
        TypeNode::Plain(entry) => Ok(entry),
        TypeNode::List { elem } => read_list(alloc, &elem, depth),
        TypeNode::Map { key, value } => read_map(alloc, &key, &value, depth),
    }
}

// Reads the type of a list's items.
#[cycle(type_entry)]
#[inline(always)]
fn read_list(alloc: Global, elem: &Payloads<'_>, depth: u32) -> Result<TypeEntry, Refusal>
    ensures found { IfOk result (λ entry.
        MeansEntry (IsTypeEntry depth) (list_of (parts_view elem.now.items)) (type_entry_view entry)) }
    ensures fault { IfErr result (MemoryOr (TypeEntryFault depth (parts_view elem.now.items))) }
{
    let item = read_type(alloc, elem, depth)?;
    Ok(list_entry(alloc, item)?)
}

// Reads the types of a map's keys and values.
#[cycle(type_entry)]
#[inline(always)]
fn read_map(
    alloc: Global,
    key: &Payloads<'_>,
    value: &Payloads<'_>,
    depth: u32,
) -> Result<TypeEntry, Refusal>
    ensures found { IfOk result (λ entry. MeansEntry (IsTypeEntry depth)
        (map_of (parts_view key.now.items) (parts_view value.now.items)) (type_entry_view entry)) }
    ensures fault { IfErr result (MemoryOr (λ e.
        TypeEntryFault depth (parts_view key.now.items) e ⊎ TypeEntryFault depth (parts_view value.now.items) e)) }
{
    let keys = read_type(alloc, key, depth)?;
    let values = read_type(alloc, value, depth)?;
    Ok(map_entry(alloc, keys, values)?)
}

// A list of items of this type.
fn list_entry(alloc: Global, item: TypeEntry) -> Result<TypeEntry, AllocError>
    ensures { IfOk result (λ entry. type_entry_view entry ≡ list_entry (type_entry_view item)) }
{
    match item {
        TypeEntry::Type(item) => Ok(TypeEntry::Type(CelType::List(Arc::new(alloc, item)?))),
        TypeEntry::Dyn | TypeEntry::Unsupported => Ok(TypeEntry::Unsupported),
    }
}

// A map with keys and values of these types.
fn map_entry(alloc: Global, keys: TypeEntry, values: TypeEntry) -> Result<TypeEntry, AllocError>
    ensures { IfOk result (λ entry. type_entry_view entry ≡ map_entry (type_entry_view keys) (type_entry_view values)) }
{
    match (keys, values) {
        (TypeEntry::Type(keys), TypeEntry::Type(values)) => match keys.key_type() {
            Some(keys) => Ok(TypeEntry::Type(CelType::Map(keys, Arc::new(alloc, values)?))),
            None => Ok(TypeEntry::Unsupported),
        },
        _ => Ok(TypeEntry::Unsupported),
    }
}
