//! Lengths and masses of values; charges depend on them.

ghost use Rattle.std.specs.Prelude.{◌≡◌, ◌+◌, length};
ghost use Rattle.cel_value.specs.Masses.{entries_mass, item_count, items_mass, key_mass, left_of, length_of, mass};
ghost use Rattle.cel_value.specs.Texts.{text_view, utf8_of};
ghost use Rattle.cel_value.specs.View.{entries_view, key_view, map_view, pairs_view, value_view, values_view};

use crate::value::{Key, Map, Value};
use std::sync::ArcStr;

/// The number of a text's UTF-8 bytes.
#[inline(always)]
pub fn text_length(text: &ArcStr) -> u64
    ensures { result ≡ length (utf8_of (text_view text.now)) }
{
    text.len() as u64
}

/// The length of a value: a text's UTF-8 bytes, or the number of bytes, items or entries; 0 for a
/// bool, int or uint.
pub fn length(value: &Value) -> u64
    ensures { result ≡ length_of (value_view value.now) }
{
    match value {
        Value::Text(text) => text_length(text),
        Value::Bytes(bytes) => bytes.len() as u64,
        Value::List(items) => item_count(items) as u64,
        Value::Map(map) => map.len() as u64,
        _ => 0,
    }
}

/// How many values there are.
pub fn item_count(items: &[Value]) -> usize
    ensures { result ≡ item_count (values_view items.now) }
{
    items.len()
}

// The number less the mass of a text; none if it is too small.
fn spend_text(text: &ArcStr, left: u64) -> Option<u64>
    ensures { result ≡ left_of left (1 + length (utf8_of (text_view text.now))) }
{
    left.checked_sub(1)?.checked_sub(text.len() as u64)
}

/// The number less the key's mass; none if it is too small.
pub(crate) fn spend_key(key: &Key, left: u64) -> Option<u64>
    ensures { result ≡ left_of left (key_mass (key_view key.now)) }
{
    match key {
        Key::Bool(_) => left.checked_sub(1),
        Key::Int(_) => left.checked_sub(1),
        Key::Uint(_) => left.checked_sub(1),
        Key::Text(text) => spend_text(text, left),
    }
}

/// The number less the value's mass; none if it is too small.
#[cycle(spend)]
pub fn spend(value: &Value, left: u64) -> Option<u64>
    ensures { result ≡ left_of left (mass (value_view value.now)) }
{
    match value {
        Value::Bool(_) => left.checked_sub(1),
        Value::Int(_) => left.checked_sub(1),
        Value::Uint(_) => left.checked_sub(1),
        Value::Text(text) => spend_text(text, left),
        Value::Bytes(bytes) => left.checked_sub(1)?.checked_sub(bytes.len() as u64),
        Value::List(items) => spend_items(items, left.checked_sub(1)?),
        Value::Map(map) => spend_map(map, left.checked_sub(1)?),
    }
}

// The number less the masses of all items; none if it is too small.
#[cycle(spend)]
fn spend_items(items: &[Value], left: u64) -> Option<u64>
    ensures { result ≡ left_of left (items_mass (values_view items.now)) }
{
    let mut rest = left;
    for item in items {
        rest = spend(item, rest)?;
    }
    Some(rest)
}

// The number less the masses of all keys and values of a map; none if it is too small.
#[cycle(spend)]
fn spend_map(map: &Map, left: u64) -> Option<u64>
    ensures { result ≡ left_of left (entries_mass (map_view map.now)) }
{
    match map {
        Map::Entries(entries) => spend_entries(entries, left),
        Map::Texts(pairs) => spend_pairs(pairs, left),
    }
}

#[cycle(spend)]
fn spend_entries(entries: &[(Key, Value)], left: u64) -> Option<u64>
    ensures { result ≡ left_of left (entries_mass (entries_view entries.now)) }
{
    let mut rest = left;
    for entry in entries {
        rest = spend_key(&entry.0, rest)?;
        rest = spend(&entry.1, rest)?;
    }
    Some(rest)
}

fn spend_pairs(pairs: &[(ArcStr, ArcStr)], left: u64) -> Option<u64>
    ensures { result ≡ left_of left (entries_mass (pairs_view pairs.now)) }
{
    let mut rest = left;
    for pair in pairs {
        rest = spend_text(&pair.0, rest)?;
        rest = spend_text(&pair.1, rest)?;
    }
    Some(rest)
}
