//! Maps: look-up, access by index, and insertion.

ghost use Rattle.std.specs.Prelude.{◌≡◌, ◌≢◌, IfOk, IsTrue, MatchBool, None, OnErr, option_map, is_some};
ghost use Rattle.cel_value.specs.Items.{item_at, key_items};
ghost use Rattle.cel_value.specs.Keys.{IsAscending, get, is_ascending, put};
ghost use Rattle.cel_value.specs.Masses.{entry_count};
ghost use Rattle.cel_value.specs.Texts.{text_view};
ghost use Rattle.cel_value.specs.Values.{text, text_key};
ghost use Rattle.cel_value.specs.View.{entries_view, key_view, lent_view, map_view, pairs_view, value_view};

use crate::key::{LentKey, compare_keys, compare_texts};
use crate::value::{Key, Map, Value};
use std::alloc::AllocError;
use std::sync::ArcStr;

impl Map {
    /// How many entries the map has.
    pub fn len(&self) -> usize
        ensures { result ≡ entry_count (map_view self.now) }
    {
        match self {
            Map::Entries(entries) => entry_count(entries),
            Map::Texts(pairs) => pair_count(pairs),
        }
    }

    /// Whether each key is below the next, which `get` and `contains_key` require.
    pub fn rises(&self) -> bool
        ensures { result ≡ is_ascending (map_view self.now) }
    {
        match self {
            Map::Entries(entries) => entries_rise(entries),
            Map::Texts(pairs) => pairs_rise(pairs),
        }
    }

    /// The value at a key, found by binary search.
    pub fn get(&self, key: LentKey<'_>) -> Result<Option<Value>, AllocError>
        requires { IsAscending (map_view self.now) }
        ensures { IfOk result (λ found.
            option_map value_view found ≡ get (map_view self.now) (lent_view key.entry)) }
    {
        match self {
            Map::Entries(entries) => match find_entry(entries, key) {
                Some(value) => Ok(Some(value.copy()?)),
                None => Ok(None),
            },
            Map::Texts(pairs) => match find_text(pairs, key) {
                Some(value) => Ok(Some(Value::Text(value.clone()?))),
                None => Ok(None),
            },
        }
    }

    /// Whether the map has a key, found by binary search.
    pub fn contains_key(&self, key: LentKey<'_>) -> bool
        requires { IsAscending (map_view self.now) }
        ensures { result ≡ is_some (get (map_view self.now) (lent_view key.entry)) }
    {
        match self {
            Map::Entries(entries) => find_entry(entries, key).is_some(),
            Map::Texts(pairs) => find_text(pairs, key).is_some(),
        }
    }

    /// The key at an index in ascending order, as a value; none past the end.
    pub fn key_at(&self, index: usize) -> Result<Option<Value>, AllocError>
        ensures { IfOk result (λ found.
            option_map value_view found ≡ item_at (key_items (map_view self.now)) index) }
    {
        match self {
            Map::Entries(entries) => entry_key(entries, index),
            Map::Texts(pairs) => pair_key(pairs, index),
        }
    }
}

fn entry_count(entries: &[(Key, Value)]) -> usize
    ensures { result ≡ entry_count (entries_view entries.now) }
{
    entries.len()
}

fn pair_count(pairs: &[(ArcStr, ArcStr)]) -> usize
    ensures { result ≡ entry_count (pairs_view pairs.now) }
{
    pairs.len()
}

fn entries_rise(entries: &[(Key, Value)]) -> bool
    ensures { result ≡ is_ascending (entries_view entries.now) }
{
    for i in 1..entries.len() {
        if !compare_keys(entries[i - 1].0.lend(), entries[i].0.lend()).is_lt() {
            return false;
        }
    }
    true
}

fn pairs_rise(pairs: &[(ArcStr, ArcStr)]) -> bool
    ensures { result ≡ is_ascending (pairs_view pairs.now) }
{
    for i in 1..pairs.len() {
        if !compare_texts(&pairs[i - 1].0, &pairs[i].0).is_lt() {
            return false;
        }
    }
    true
}

fn find_entry<'a>(entries: &'a [(Key, Value)], key: LentKey<'_>) -> Option<&'a Value>
    requires { IsAscending (entries_view entries.now) }
    ensures { option_map (λ v. value_view v.now) result ≡ get (entries_view entries.now) (lent_view key.entry) }
{
    match entries.binary_search_by(|entry| compare_keys(entry.0.lend(), key)) {
        Ok(index) => Some(&entries[index].1),
        Err(_) => None,
    }
}

fn find_text<'a>(pairs: &'a [(ArcStr, ArcStr)], key: LentKey<'_>) -> Option<&'a ArcStr>
    requires { IsAscending (pairs_view pairs.now) }
    ensures { option_map (λ t. text (text_view t.now)) result ≡ get (pairs_view pairs.now) (lent_view key.entry) }
{
    match key {
        LentKey::Text(name) => find_pair(pairs, name),
        LentKey::Bool(_) => None,
        LentKey::Int(_) => None,
        LentKey::Uint(_) => None,
    }
}

/// The text that is paired with this name, found by binary search.
pub(crate) fn find_pair<'a>(pairs: &'a [(ArcStr, ArcStr)], name: &ArcStr) -> Option<&'a ArcStr>
    requires { IsAscending (pairs_view pairs.now) }
    ensures { option_map (λ t. text (text_view t.now)) result
        ≡ get (pairs_view pairs.now) (text_key (text_view name.now)) }
{
    match pairs.binary_search_by(|pair| compare_texts(&pair.0, name)) {
        Ok(index) => Some(&pairs[index].1),
        Err(_) => None,
    }
}

fn entry_key(entries: &[(Key, Value)], index: usize) -> Result<Option<Value>, AllocError>
    ensures { IfOk result (λ found.
        option_map value_view found ≡ item_at (key_items (entries_view entries.now)) index) }
{
    if index >= entries.len() {
        return Ok(None);
    }
    Ok(Some(Value::from(entries[index].0.copy()?)))
}

fn pair_key(pairs: &[(ArcStr, ArcStr)], index: usize) -> Result<Option<Value>, AllocError>
    ensures { IfOk result (λ found.
        option_map value_view found ≡ item_at (key_items (pairs_view pairs.now)) index) }
{
    if index >= pairs.len() {
        return Ok(None);
    }
    Ok(Some(Value::Text(pairs[index].0.clone()?)))
}

/// Inserts an entry at its place if its key is new; true if it is. If memory runs out, the entries
/// stay as they were.
pub fn insert_entry(
    entries: &mut Vec<(Key, Value)>,
    key: Key,
    value: Value,
) -> Result<bool, AllocError>
    requires { IsAscending (entries_view entries.old.items) }
    ensures found { IfOk result (λ fresh. MatchBool fresh
        ((get (entries_view entries.old.items) (key_view key) ≡ None)
        × (entries_view entries.new.items
        ≡ put (key_view key) (value_view value) (entries_view entries.old.items)))
        ((get (entries_view entries.old.items) (key_view key) ≢ None)
        × (entries_view entries.new.items ≡ entries_view entries.old.items))) }
    ensures fault { OnErr result (entries.new.items ≡ entries.old.items) }
{
    match entries.binary_search_by(|entry| compare_keys(entry.0.lend(), key.lend())) {
        Ok(_) => Ok(false),
        Err(place) => {
            entries.insert(place, (key, value))?;
            Ok(true)
        }
    }
}
