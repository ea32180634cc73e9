//! Reads type maps and reference maps.

ghost use Rattle.std.specs.Prelude.{◌≡◌, Ok, IfOk, IfErr, IsErrAnd, MatchResult, T, map};
ghost use Rattle.std.specs.FinMap.{is_sorted};
ghost use Rattle.std.specs.Ordering.{int_cmp};
ghost use Rattle.proto_wire.specs.Fields.{field_view};
ghost use Rattle.proto_wire.specs.Maps.{IsMap, int64};
ghost use Rattle.proto_wire.specs.Places.{path_of};
ghost use Rattle.proto_wire.specs.Values.{payloads};
ghost use Rattle.cel_tree.specs.Message.{checked_field, tree_depth};
ghost use Rattle.cel_tree.specs.Places.{NamesEntry, PlacedOr};
ghost use Rattle.cel_tree.specs.References.{IsReference, ReferenceFault};
ghost use Rattle.cel_tree.specs.TypeEntries.{IsTypeEntry, TypeEntryFault};
ghost use Rattle.cel_tree.specs.View.{references_view, types_view};
ghost use Rattle.cel_read.specs.Places.{MapFaultAt, ValueFaultAt};
ghost use Rattle.cel_read.specs.private.Named.{SomeValues, ids_view};

use crate::fields::number_of;
use crate::reference::read_reference;
use crate::type_entry::read_type;
use cel_tree::{ReferenceMap, TypeMap, fault_of_entry};
use proto_wire::{Fault, Field, MapEntry, Refusal, payloads_of, read_entries};
use std::alloc::Global;

/// How many levels a tree or a type may have; the outermost is level 1.
pub(crate) const TREE_DEPTH: u32 = 64;

pub(crate) const REFERENCE_MAP: u32 = 2;

pub(crate) const TYPE_MAP: u32 = 3;

/// The type map of a CheckedExpr's fields.
pub(crate) fn types_of(alloc: Global, fields: &[Field<'_>]) -> Result<TypeMap, Fault>
    ensures found { IfOk result (λ m.
        IsMap int64 (IsTypeEntry tree_depth) (payloads checked_field.type_map (map field_view fields.now)) (types_view m)) }
    ensures fault { IfErr result (PlacedOr
        (MapFaultAt (TypeEntryFault tree_depth) (payloads checked_field.type_map (map field_view fields.now)))) }
{
    let entries = payloads_of(alloc, fields, TYPE_MAP)?;
    let named = read_entries(alloc, &entries)?;
    read_types(alloc, &named)
}

// Reads each type of the map.
fn read_types(alloc: Global, named: &[MapEntry<'_, i64>]) -> Result<TypeMap, Fault>
    requires { T (is_sorted int_cmp (ids_view named.now)) }
    ensures found { IfOk result (λ m. let es = ids_view named.now in
        SomeValues (IsTypeEntry tree_depth) es es (types_view m)) }
    ensures fault { IfErr result (PlacedOr
        (ValueFaultAt (TypeEntryFault tree_depth) (ids_view named.now))) }
{
    let mut types = TypeMap::new(alloc);
    for entry in named {
        let id = number_of(&entry.0);
        let read = at_entry(read_type(alloc, &entry.1, TREE_DEPTH), id)?;
        types.insert(id, read)?;
    }
    Ok(types)
}

/// The reference map of a CheckedExpr's fields.
pub(crate) fn references_of(alloc: Global, fields: &[Field<'_>]) -> Result<ReferenceMap, Fault>
    ensures found { IfOk result (λ m.
        IsMap int64 IsReference (payloads checked_field.reference_map (map field_view fields.now)) (references_view m)) }
    ensures fault { IfErr result (PlacedOr
        (MapFaultAt ReferenceFault (payloads checked_field.reference_map (map field_view fields.now)))) }
{
    let entries = payloads_of(alloc, fields, REFERENCE_MAP)?;
    let named = read_entries(alloc, &entries)?;
    read_references(alloc, &named)
}

// Reads each reference of the map.
fn read_references(alloc: Global, named: &[MapEntry<'_, i64>]) -> Result<ReferenceMap, Fault>
    requires { T (is_sorted int_cmp (ids_view named.now)) }
    ensures found { IfOk result (λ m. let es = ids_view named.now in
        SomeValues IsReference es es (references_view m)) }
    ensures fault { IfErr result (PlacedOr (ValueFaultAt ReferenceFault (ids_view named.now))) }
{
    let mut references = ReferenceMap::new(alloc);
    for entry in named {
        let id = number_of(&entry.0);
        let read = at_entry(read_reference(alloc, &entry.1), id)?;
        references.insert(id, read)?;
    }
    Ok(references)
}

// What was read of the entry with this id, or its refusal as the entry's fault.
#[inline(always)]
fn at_entry<T>(read: Result<T, Refusal>, id: i64) -> Result<T, Fault>
    ensures { MatchResult read (λ x. result ≡ Ok x)
        (λ e. IsErrAnd result (λ f. (f.refusal ≡ e) × NamesEntry id (path_of f.place))) }
{
    match read {
        Ok(value) => Ok(value),
        Err(refusal) => Err(fault_of_entry(refusal, id)),
    }
}
