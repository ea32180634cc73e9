//! The messages CreateList, CreateStruct and its Entry, without the expressions inside them.

ghost use Rattle.std.specs.Prelude.{◌≡◌, ◌≢◌, ℕ, List, [], true, false, Some, IfOk, IfErr, OnOk, MatchOption, Contains, map};
ghost use Rattle.std.specs.List.{AllZip};
ghost use Rattle.proto_wire.specs.Fields.{field_view};
ghost use Rattle.proto_wire.specs.Merge.{parts_view};
ghost use Rattle.proto_wire.specs.Refusal.{MemoryOr};
ghost use Rattle.proto_wire.specs.Values.{has_field, bool_at, bytes_at, payloads};
ghost use Rattle.proto_wire.specs.declared.refusal.Refusal.TheVariants.{Missing, Unsupported};
ghost use Rattle.cel_tree.specs.Nodes.{list_field, list_keys, ListSays, ListWrong, entry_field, key_members, EntrySays, EntryLacks, EntryWrong, IsMapEntry, MapEntryFault, struct_field, struct_keys, StructSays, StructWrong};
ghost use Rattle.proto_wire.specs.Reading.{Reads, ReadFault, Never};
ghost use Rattle.proto_wire.specs.private.Values.{ValuesFault};
ghost use Rattle.proto_wire.specs.Oneof.{last_number};
ghost use Rattle.cel_read.specs.private.NodeViews.{node_view};
ghost use Rattle.cel_read.specs.private.EntryViews.{entry_node_view, entry_nodes_view};

use crate::fields::run_payloads;
use crate::parsed::{EntryNode, Node};
use proto_wire::{
    Field, Key, Payloads, Refusal, bool_at, bytes_at, has_field, int64_at, keys, last_number,
    payloads_of, read_message, require_payload,
};
use std::alloc::Global;

// The fields of a CreateList.
const ELEMENTS: u32 = 1;

const OPTIONAL_INDICES: u32 = 2;

// The fields of a CreateStruct.
const MESSAGE_NAME: u32 = 1;

const ENTRIES: u32 = 2;

// The fields of an Entry.
const ID: u32 = 1;

const FIELD_KEY: u32 = 2;

const MAP_KEY: u32 = 3;

const VALUE: u32 = 4;

const OPTIONAL_ENTRY: u32 = 5;

static LIST: [Key; 3] = keys![Len ELEMENTS, Len OPTIONAL_INDICES, Varint OPTIONAL_INDICES];

static STRUCT: [Key; 2] = keys![Len MESSAGE_NAME, Len ENTRIES];

static ENTRY: [Key; 5] =
    keys![Varint ID, Len FIELD_KEY, Len MAP_KEY, Len VALUE, Varint OPTIONAL_ENTRY];

// The members of the oneof of an Entry.
static ENTRY_KEY: [Key; 2] = keys![Len FIELD_KEY, Len MAP_KEY];

/// Reads a CreateList from its parts.
pub(crate) fn read_list<'a>(alloc: Global, parts: &[&'a [u8]]) -> Result<Node<'a>, Refusal>
    ensures found { IfOk result (λ node. Reads list_keys ListSays (parts_view parts.now) (node_view node)) }
    ensures fault { IfErr result (MemoryOr (ReadFault list_keys Never ListWrong (parts_view parts.now))) }
{
    let fields = read_message(alloc, parts, &LIST)?;
    list_of(alloc, &fields)
}

// The node that the fields of a CreateList mean.
fn list_of<'a>(alloc: Global, fields: &[Field<'a>]) -> Result<Node<'a>, Refusal>
    ensures found { IfOk result (λ node. ListSays (map field_view fields.now) (node_view node)) }
    ensures fault { IfErr result (MemoryOr (ValuesFault Never ListWrong (map field_view fields.now))) }
{
    refuse_optional_elements(fields)?;
    Ok(Node::List(payloads_of(alloc, fields, ELEMENTS)?))
}

// Refuses a list with optional_indices.
fn refuse_optional_elements(fields: &[Field<'_>]) -> Result<(), Refusal>
    ensures found { OnOk result (has_field list_field.optional_indices (map field_view fields.now) ≡ false) }
    ensures fault { IfErr result (λ e.
        (has_field list_field.optional_indices (map field_view fields.now) ≡ true) × (e ≡ Unsupported)) }
{
    if has_field(fields, OPTIONAL_INDICES) {
        return Err(Refusal::Unsupported);
    }
    Ok(())
}

/// Reads a CreateStruct from its parts.
pub(crate) fn read_struct<'a>(alloc: Global, parts: &[&'a [u8]]) -> Result<Node<'a>, Refusal>
    ensures found { IfOk result (λ node. Reads struct_keys StructSays (parts_view parts.now) (node_view node)) }
    ensures fault { IfErr result (MemoryOr (ReadFault struct_keys Never StructWrong (parts_view parts.now))) }
{
    let fields = read_message(alloc, parts, &STRUCT)?;
    struct_of(alloc, &fields)
}

// The node that the fields of a CreateStruct mean.
fn struct_of<'a>(alloc: Global, fields: &[Field<'a>]) -> Result<Node<'a>, Refusal>
    ensures found { IfOk result (λ node. StructSays (map field_view fields.now) (node_view node)) }
    ensures fault { IfErr result (MemoryOr (ValuesFault Never StructWrong (map field_view fields.now))) }
{
    refuse_message(fields)?;
    Ok(Node::Map(entries_of(alloc, fields)?))
}

// The entries that the fields of a CreateStruct mean.
fn entries_of<'a>(alloc: Global, fields: &[Field<'a>]) -> Result<Vec<EntryNode<'a>>, Refusal>
    ensures found { IfOk result (λ entries.
        AllZip IsMapEntry (payloads struct_field.entries (map field_view fields.now)) (entry_nodes_view entries.items)) }
    ensures fault { IfErr result (MemoryOr (λ e. (payload : List ℕ)
        × Contains (payloads struct_field.entries (map field_view fields.now)) payload × MapEntryFault payload e)) }
{
    let payloads = payloads_of(alloc, fields, ENTRIES)?;
    read_entries(alloc, &payloads)
}

// Refuses a message_name, which would construct a message.
fn refuse_message(fields: &[Field<'_>]) -> Result<(), Refusal>
    ensures found { OnOk result (bytes_at struct_field.message_name (map field_view fields.now) ≡ []) }
    ensures fault { IfErr result (λ e.
        (bytes_at struct_field.message_name (map field_view fields.now) ≢ []) × (e ≡ Unsupported)) }
{
    if bytes_at(fields, MESSAGE_NAME).is_empty() {
        return Ok(());
    }
    Err(Refusal::Unsupported)
}

// Reads the entries of a map literal, one from each payload.
fn read_entries<'a>(alloc: Global, payloads: &[&'a [u8]]) -> Result<Vec<EntryNode<'a>>, Refusal>
    ensures found { IfOk result (λ entries. AllZip IsMapEntry (parts_view payloads.now) (entry_nodes_view entries.items)) }
    ensures fault { IfErr result (MemoryOr (λ e.
        (payload : List ℕ) × Contains (parts_view payloads.now) payload × MapEntryFault payload e)) }
{
    let mut entries = Vec::new(alloc);
    for payload in payloads {
        let entry = read_entry(alloc, payload)?;
        entries.push(entry)?;
    }
    Ok(entries)
}

// Reads an Entry from its payload.
fn read_entry<'a>(alloc: Global, payload: &'a [u8]) -> Result<EntryNode<'a>, Refusal>
    ensures found { IfOk result (λ entry. IsMapEntry payload.now (entry_node_view entry)) }
    ensures fault { IfErr result (MemoryOr (MapEntryFault payload.now)) }
{
    let fields = read_message(alloc, &[payload], &ENTRY)?;
    entry_of(alloc, &fields)
}

// The entry that the fields mean.
fn entry_of<'a>(alloc: Global, fields: &[Field<'a>]) -> Result<EntryNode<'a>, Refusal>
    ensures found { IfOk result (λ entry. EntrySays (map field_view fields.now) (entry_node_view entry)) }
    ensures fault { IfErr result (MemoryOr (ValuesFault EntryLacks EntryWrong (map field_view fields.now))) }
{
    refuse_optional_entry(fields)?;
    require_map_key(fields)?;
    require_payload(fields, VALUE)?;
    let key = run_payloads(alloc, fields, &ENTRY_KEY, MAP_KEY)?;
    let value = payloads_of(alloc, fields, VALUE)?;
    let id = int64_at(fields, ID);
    Ok(EntryNode { id, key, value })
}

// Refuses an entry that is optional.
fn refuse_optional_entry(fields: &[Field<'_>]) -> Result<(), Refusal>
    ensures found { OnOk result (bool_at entry_field.optional_entry (map field_view fields.now) ≡ false) }
    ensures fault { IfErr result (λ e.
        (bool_at entry_field.optional_entry (map field_view fields.now) ≡ true) × (e ≡ Unsupported)) }
{
    if bool_at(fields, OPTIONAL_ENTRY) {
        return Err(Refusal::Unsupported);
    }
    Ok(())
}

// Refuses an entry without a key, or with a field_key.
fn require_map_key(fields: &[Field<'_>]) -> Result<(), Refusal>
    ensures found { OnOk result (last_number key_members (map field_view fields.now) ≡ Some entry_field.map_key) }
    ensures fault { IfErr result (λ e. MatchOption (last_number key_members (map field_view fields.now))
        (e ≡ Missing) (λ n. (n ≢ entry_field.map_key) × (e ≡ Unsupported))) }
{
    match last_number(fields, &ENTRY_KEY) {
        Some(MAP_KEY) => Ok(()),
        Some(_) => Err(Refusal::Unsupported),
        None => Err(Refusal::Missing),
    }
}
