//! Equality of keys and values (CEL language definition, "Equality").

ghost use Rattle.std.specs.Prelude.{◌≡◌, ◌&&◌, nat_eq};
ghost use Rattle.std.specs.Cmp.Lexicographic.{pointwise};
ghost use Rattle.std.specs.Cmp.{on_equiv, on_per, partial_equiv_from_equiv};
ghost use Rattle.cel_value.specs.private.EqualityLaws.{key_eq_equiv, value_eq_equiv};
ghost use Rattle.cel_value.specs.Equality.{entries_eq, key_eq, value_eq, values_eq};
ghost use Rattle.cel_value.specs.Texts.{text_view};
ghost use Rattle.cel_value.specs.Values.{text, text_key};
ghost use Rattle.cel_value.specs.View.{entries_view, key_view, map_view, pairs_view, value_view, values_view};

use crate::value::{Key, Map, Value};
use std::sync::ArcStr;

/// Whether the texts have the same code points; compares their bytes.
pub fn same_texts(left: &ArcStr, right: &ArcStr) -> bool
    ensures { result ≡ pointwise nat_eq (text_view left.now) (text_view right.now) }
{
    left == right
}

// Whether the keys are the same.
fn same_keys(left: &Key, right: &Key) -> bool
    ensures { result ≡ key_eq (key_view left.now) (key_view right.now) }
{
    match (left, right) {
        (Key::Bool(a), Key::Bool(b)) => a == b,
        (Key::Int(a), Key::Int(b)) => a == b,
        (Key::Uint(a), Key::Uint(b)) => a == b,
        (Key::Text(a), Key::Text(b)) => same_texts(a, b),
        _ => false,
    }
}

// Whether the values are the same.
#[cycle(same)]
fn same_values(left: &Value, right: &Value) -> bool
    ensures { result ≡ value_eq (value_view left.now) (value_view right.now) }
{
    match (left, right) {
        (Value::Bool(a), Value::Bool(b)) => a == b,
        (Value::Int(a), Value::Int(b)) => a == b,
        (Value::Uint(a), Value::Uint(b)) => a == b,
        (Value::Text(a), Value::Text(b)) => same_texts(a, b),
        (Value::Bytes(a), Value::Bytes(b)) => a == b,
        (Value::List(a), Value::List(b)) => same_items(a, b),
        (Value::Map(a), Value::Map(b)) => same_maps(a, b),
        _ => false,
    }
}

// Whether both have as many items, each the same as the one at its place.
#[cycle(same)]
fn same_items(left: &[Value], right: &[Value]) -> bool
    ensures { result ≡ values_eq (values_view left.now) (values_view right.now) }
{
    if left.len() != right.len() {
        return false;
    }
    for i in 0..left.len() {
        if !same_values(&left[i], &right[i]) {
            return false;
        }
    }
    true
}

// Whether the maps have the same entries.
#[cycle(same)]
fn same_maps(left: &Map, right: &Map) -> bool
    ensures { result ≡ entries_eq (map_view left.now) (map_view right.now) }
{
    match (left, right) {
        (Map::Entries(a), Map::Entries(b)) => same_entries(a, b),
        (Map::Entries(a), Map::Texts(b)) => entries_are_pairs(a, b),
        (Map::Texts(a), Map::Entries(b)) => entries_are_pairs(b, a),
        (Map::Texts(a), Map::Texts(b)) => same_pairs(a, b),
    }
}

#[cycle(same)]
fn same_entries(left: &[(Key, Value)], right: &[(Key, Value)]) -> bool
    ensures { result ≡ entries_eq (entries_view left.now) (entries_view right.now) }
{
    if left.len() != right.len() {
        return false;
    }
    for i in 0..left.len() {
        if !same_keys(&left[i].0, &right[i].0) {
            return false;
        }
        if !same_values(&left[i].1, &right[i].1) {
            return false;
        }
    }
    true
}

fn same_pairs(left: &[(ArcStr, ArcStr)], right: &[(ArcStr, ArcStr)]) -> bool
    ensures { result ≡ entries_eq (pairs_view left.now) (pairs_view right.now) }
{
    if left.len() != right.len() {
        return false;
    }
    for i in 0..left.len() {
        if !same_texts(&left[i].0, &right[i].0) {
            return false;
        }
        if !same_texts(&left[i].1, &right[i].1) {
            return false;
        }
    }
    true
}

fn entries_are_pairs(entries: &[(Key, Value)], pairs: &[(ArcStr, ArcStr)]) -> bool
    ensures { result ≡ entries_eq (entries_view entries.now) (pairs_view pairs.now) }
{
    if entries.len() != pairs.len() {
        return false;
    }
    for i in 0..entries.len() {
        if !entry_is_pair(&entries[i], &pairs[i]) {
            return false;
        }
    }
    true
}

fn entry_is_pair(entry: &(Key, Value), pair: &(ArcStr, ArcStr)) -> bool
    ensures { result ≡ (key_eq (key_view entry.now.0) (text_key (text_view pair.now.0))
        && value_eq (value_view entry.now.1) (text (text_view pair.now.1))) }
{
    match (&entry.0, &entry.1) {
        (Key::Text(name), Value::Text(value)) => {
            same_texts(name, &pair.0) && same_texts(value, &pair.1)
        }
        _ => false,
    }
}

impl PartialEq for Key {
    ghost eq = { λ left right. key_eq (key_view left) (key_view right) };

    ghost laws = { on_per key_view (partial_equiv_from_equiv key_eq_equiv) };

    fn eq(&self, other: &Key) -> bool {
        same_keys(self, other)
    }
}

impl Eq for Key {
    ghost laws = { on_equiv key_view key_eq_equiv };
}

impl PartialEq for Value {
    ghost eq = { λ left right. value_eq (value_view left) (value_view right) };

    ghost laws = { on_per value_view (partial_equiv_from_equiv value_eq_equiv) };

    fn eq(&self, other: &Value) -> bool {
        same_values(self, other)
    }
}

impl Eq for Value {
    ghost laws = { on_equiv value_view value_eq_equiv };
}
