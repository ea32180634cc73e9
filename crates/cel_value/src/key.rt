//! Keys of maps: their order, and keys that are lent for a look-up.

ghost use Rattle.std.specs.Prelude.{◌≡◌, option_map};
ghost use Rattle.cel_value.specs.Keys.{key_cmp, key_of_value};
ghost use Rattle.cel_value.specs.Values.{value_of_key};
ghost use Rattle.cel_value.specs.View.{key_view, value_view};
ghost use Rattle.std.specs.Cmp.Lexicographic.{slice_cmp};
ghost use Rattle.std.specs.Ordering.{nat_cmp};
ghost use Rattle.cel_value.specs.Texts.{text_view};
ghost use Rattle.cel_value.specs.View.{lent_view};

use crate::value::{Key, Value};
use std::cmp::Ordering;
use std::sync::ArcStr;

/// A lent key, for a look-up.
#[derive(Clone, Copy)]
pub enum LentKey<'a> {
    Bool(bool),
    Int(i64),
    Uint(u64),
    Text(&'a ArcStr),
}

impl Key {
    /// The key, lent.
    pub fn lend(&self) -> LentKey<'_>
        ensures { lent_view result ≡ key_view self.now }
    {
        match self {
            Key::Bool(b) => LentKey::Bool(*b),
            Key::Int(i) => LentKey::Int(*i),
            Key::Uint(n) => LentKey::Uint(*n),
            Key::Text(text) => LentKey::Text(text),
        }
    }
}

impl Value {
    /// The value as a lent key; none if it is bytes, a list or a map.
    pub fn as_key(&self) -> Option<LentKey<'_>>
        ensures { option_map lent_view result ≡ key_of_value (value_view self.now) }
    {
        match self {
            Value::Bool(b) => Some(LentKey::Bool(*b)),
            Value::Int(i) => Some(LentKey::Int(*i)),
            Value::Uint(n) => Some(LentKey::Uint(*n)),
            Value::Text(text) => Some(LentKey::Text(text)),
            _ => None,
        }
    }

    /// The value as a key; none if it is bytes, a list or a map.
    pub fn into_key(self) -> Option<Key>
        ensures { option_map key_view result ≡ key_of_value (value_view self) }
    {
        match self {
            Value::Bool(b) => Some(Key::Bool(b)),
            Value::Int(i) => Some(Key::Int(i)),
            Value::Uint(n) => Some(Key::Uint(n)),
            Value::Text(text) => Some(Key::Text(text)),
            _ => None,
        }
    }
}

/// The order of the keys: bools, ints, uints, texts; false before true, texts by code point.
pub(crate) fn compare_keys(left: LentKey<'_>, right: LentKey<'_>) -> Ordering
    ensures { result ≡ key_cmp (lent_view left.entry) (lent_view right.entry) }
{
    match (left, right) {
        (LentKey::Bool(a), LentKey::Bool(b)) => a.cmp(&b),
        (LentKey::Int(a), LentKey::Int(b)) => a.cmp(&b),
        (LentKey::Uint(a), LentKey::Uint(b)) => a.cmp(&b),
        (LentKey::Text(a), LentKey::Text(b)) => compare_texts(a, b),
        (LentKey::Bool(_), _) => Ordering::Less,
        (_, LentKey::Bool(_)) => Ordering::Greater,
        (LentKey::Int(_), _) => Ordering::Less,
        (_, LentKey::Int(_)) => Ordering::Greater,
        (LentKey::Uint(_), _) => Ordering::Less,
        (_, LentKey::Uint(_)) => Ordering::Greater,
    }
}

/// The order of the texts by code point; compares their bytes.
pub fn compare_texts(left: &ArcStr, right: &ArcStr) -> Ordering
    ensures { result ≡ slice_cmp nat_cmp (text_view left.now) (text_view right.now) }
{
    left.cmp(right)
}
