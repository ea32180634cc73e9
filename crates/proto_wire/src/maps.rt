//! Maps: repeated entries, each with a key 1 and a value 2 (Protocol Buffers encoding guide, "Maps").

ghost use Rattle.std.specs.Prelude.{◌≡◌, ◌++◌, [], ◌∷◌, List, T, true, Err, IfOk, IfErr, OnOk, MatchBool, MatchResult, map};
ghost use Rattle.std.specs.FinMap.{entries, is_sorted};
ghost use Rattle.std.specs.FinMap.Entries.{put};
ghost use Rattle.proto_wire.specs.Fields.{field_view};
ghost use Rattle.proto_wire.specs.Maps.{KeyKind, KeyOf, Entry, key_cmp, entry_keys, key_at, KeyReads, IsEntry, AreEntries, map_of, EntryFault, SomeEntryFault, entries_view};
ghost use Rattle.proto_wire.specs.Merge.{FirstBreaks, parts_view};
ghost use Rattle.proto_wire.specs.Refusal.{MemoryOr};
ghost use Rattle.proto_wire.specs.declared.refusal.Refusal.TheVariants.{BadText};

use crate::field::Field;
use crate::key::Key;
use crate::keys;
use crate::message::read_message;
use crate::refusal::Refusal;
use crate::values::{Payloads, int64_at, payloads_of, text_at};
use std::alloc::{AllocError, Global};
use std::collections::BTreeMap;

// The field of an entry's key, by number (Protocol Buffers encoding guide, "Maps").
const KEY: u32 = 1;

// The field of its value (the same section).
const VALUE: u32 = 2;

static TEXT_ENTRY: [Key; 2] = keys![Len KEY, Len VALUE];

static INT64_ENTRY: [Key; 2] = keys![Varint KEY, Len VALUE];

/// The meaning of a map's keys. Keys compare as their meanings do.
pub trait KeyOrder: Ord {
    /// The kind of the keys.
    ghost kind: { KeyKind };

    /// The key that a value of the code means.
    ghost key_view: { Self → KeyOf kind };

    ghost in_order: { (a b : Self) → Self.cmp a b ≡ key_cmp kind (key_view a) (key_view b) };
}

impl<'a> KeyOrder for &'a str {
    ghost use Rattle.std.specs.Prelude.{refl};
    ghost use Rattle.proto_wire.specs.Maps.{text};

    ghost kind = { text };

    ghost key_view = { λ key. key.now };

    ghost in_order = { λ a b. refl };
}

impl KeyOrder for i64 {
    ghost use Rattle.std.specs.Prelude.{refl};
    ghost use Rattle.proto_wire.specs.Maps.{int64};

    ghost kind = { int64 };

    ghost key_view = { λ key. key };

    ghost in_order = { λ a b. refl };
}

/// A key of a map, which is a string (`&str`) or an int64 (`i64`).
pub trait MapKey<'a>: KeyOrder + Drop + Sized {
    /// The fields of an entry.
    fn entry_keys() -> &'static [Key]
        ensures { result.now ≡ entry_keys Self.kind };

    /// The key of an entry with these fields, or its default; `BadText` if a string is not UTF-8. It
    /// takes no memory.
    fn read_key(fields: &[Field<'a>]) -> Result<Self, Refusal>
        ensures found { let fs = map field_view fields.now in
            IfOk result (λ key. KeyReads Self.kind fs × (Self.key_view key ≡ key_at Self.kind fs)) }
        ensures fault { IfErr result (λ e. ¬ (KeyReads Self.kind (map field_view fields.now))
            × (e ≡ BadText)) };
}

impl<'a> MapKey<'a> for &'a str {
    ghost use Rattle.proto_wire.specs.Maps.{text};

    fn entry_keys() -> &'static [Key]
        ensures { result.now ≡ entry_keys text }
    {
        &TEXT_ENTRY
    }

    fn read_key(fields: &[Field<'a>]) -> Result<&'a str, Refusal>
        ensures found { let fs = map field_view fields.now in
            IfOk result (λ key. KeyReads text fs × (key.now ≡ key_at text fs)) }
        ensures fault { IfErr result (λ e. ¬ (KeyReads text (map field_view fields.now))
            × (e ≡ BadText)) }
    {
        text_at(fields, KEY)
    }
}

impl<'a> MapKey<'a> for i64 {
    fn entry_keys() -> &'static [Key] {
        &INT64_ENTRY
    }

    fn read_key(fields: &[Field<'a>]) -> Result<i64, Refusal> {
        Ok(int64_at(fields, KEY))
    }
}

/// An entry of a map: its key, and the payloads of its value.
pub type MapEntry<'a, K> = (K, Payloads<'a>);

/// Reads the entries of a map, one from each payload. Gives each key once, in ascending order, with the
/// payloads of its last entry's value. `BadWire` if an entry is not a list of whole fields,
/// `UnknownField` if it has a field that is neither key nor value. `BadText` if its key is not UTF-8,
/// or `Memory`.
pub fn read_entries<'a, K: MapKey<'a>>(
    alloc: Global,
    payloads: &[&'a [u8]],
) -> Result<Vec<MapEntry<'a, K>>, Refusal>
    ensures found { IfOk result (λ v. (es : List (Entry K.kind))
        × AreEntries K.kind (parts_view payloads.now) es
        × (entries_view K.kind K.key_view v.items ≡ entries (map_of K.kind es))) }
    ensures fault { IfErr result (MemoryOr (SomeEntryFault K.kind (parts_view payloads.now))) }
    ensures at_once { FirstBreaks (parts_view payloads.now) → result ≡ Err Refusal.BadWire }
    ensures reads { (es : List (Entry K.kind)) → AreEntries K.kind (parts_view payloads.now) es
        → MatchResult result (λ v. entries_view K.kind K.key_view v.items
        ≡ entries (map_of K.kind es))
        (λ e. e ≡ Refusal.Memory) }
{
    let entries = read_each(alloc, payloads)?;
    if is_ascending(&entries) {
        return Ok(entries);
    }
    Ok(last_of_each(alloc, entries)?)
}

// Reads the entries in the order of their payloads.
fn read_each<'a, K: MapKey<'a>>(
    alloc: Global,
    payloads: &[&'a [u8]],
) -> Result<Vec<MapEntry<'a, K>>, Refusal>
    ensures found { IfOk result (λ v. AreEntries K.kind (parts_view payloads.now)
        (entries_view K.kind K.key_view v.items)) }
    ensures fault { IfErr result (MemoryOr (SomeEntryFault K.kind (parts_view payloads.now))) }
    ensures at_once { FirstBreaks (parts_view payloads.now) → result ≡ Err Refusal.BadWire }
{
    let mut entries = Vec::new(alloc);
    for payload in payloads {
        let entry = read_entry(alloc, payload)?;
        add_entry(&mut entries, entry, payloads.len())?;
    }
    Ok(entries)
}

// Appends an entry to those that are read. Before the first, makes room for `room` entries.
fn add_entry<'a, K: MapKey<'a>>(
    entries: &mut Vec<MapEntry<'a, K>>,
    entry: MapEntry<'a, K>,
    room: usize,
) -> Result<(), AllocError>
    ensures { OnOk result (entries.new.items ≡ entries.old.items ++ entry.entry ∷ []) }
{
    if entries.is_empty() {
        entries.reserve_exact(room)?;
    }
    entries.push(entry)?;
    Ok(())
}

// Reads one entry from its payload.
fn read_entry<'a, K: MapKey<'a>>(
    alloc: Global,
    payload: &'a [u8],
) -> Result<MapEntry<'a, K>, Refusal>
    ensures found { IfOk result (λ entry.
        IsEntry K.kind payload.now (K.key_view entry.0, parts_view entry.1.items)) }
    ensures fault { IfErr result (MemoryOr (EntryFault K.kind payload.now)) }
    ensures at_once { FirstBreaks (payload.now ∷ []) → result ≡ Err Refusal.BadWire }
{
    let fields = read_message(alloc, &[payload], K::entry_keys())?;
    let key = K::read_key(&fields)?;
    let parts = payloads_of(alloc, &fields, VALUE)?;
    Ok((key, parts))
}

// Whether the keys ascend, as most writers of maps write them. If they do, no key is repeated.
fn is_ascending<'a, K: MapKey<'a>>(entries: &[MapEntry<'a, K>]) -> bool
    ensures { MatchBool result
        (T (is_sorted (key_cmp K.kind) (entries_view K.kind K.key_view entries.now))) (Unit {0}) }
{
    let mut index = 1;
    while index < entries.len() {
        if !entries[index - 1].0.cmp(&entries[index].0).is_lt() {
            return false;
        }
        index += 1;
    }
    true
}

// The last entry of each key, in ascending order of keys.
fn last_of_each<'a, K: MapKey<'a>>(
    alloc: Global,
    all: Vec<MapEntry<'a, K>>,
) -> Result<Vec<MapEntry<'a, K>>, AllocError>
    ensures { IfOk result (λ v. entries_view K.kind K.key_view v.items
        ≡ entries (map_of K.kind (entries_view K.kind K.key_view all.entry.items))) }
{
    let mut last = BTreeMap::new(alloc);
    for entry in all {
        put_entry(&mut last, entry)?;
    }
    list_of(alloc, last)
}

// Puts an entry into the map, and replaces an earlier one with the same key.
fn put_entry<'a, K: MapKey<'a>>(
    map: &mut BTreeMap<K, Payloads<'a>>,
    entry: MapEntry<'a, K>,
) -> Result<(), AllocError>
    ensures { OnOk result (entries_view K.kind K.key_view map.new.entries
        ≡ put (key_cmp K.kind) (K.key_view entry.entry.0) (parts_view entry.entry.1.items)
        (entries_view K.kind K.key_view map.old.entries)) }
{
    map.insert(entry.0, entry.1)?;
    Ok(())
}

// The entries of the map in order.
fn list_of<'a, K: MapKey<'a>>(
    alloc: Global,
    mut map: BTreeMap<K, Payloads<'a>>,
) -> Result<Vec<MapEntry<'a, K>>, AllocError>
    ensures { IfOk result (λ v. v.items ≡ map.entry.entries) }
{
    let mut list = Vec::with_capacity(alloc, map.len())?;
    while let Some(entry) = map.pop_first() {
        list.push(entry)?;
    }
    Ok(list)
}
