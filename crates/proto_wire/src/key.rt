//! Which fields a message knows.

ghost use Rattle.std.specs.Prelude.{◌≡◌, map};
ghost use Rattle.proto_wire.specs.Fields.{field_view};
ghost use Rattle.proto_wire.specs.Keys.{first_unknown, has_key, is_known};

use crate::field::{Field, WireType};

/// What distinguishes one field of a message from another: its number and its wire type.
#[derive(Clone, Copy, PartialEq, Eq, Debug)]
pub struct Key {
    pub number: u32,
    pub wire_type: WireType,
}

/// An array of keys, each a wire type and a number, as `keys![Varint 1, Len 2]`.
#[macro_export]
macro_rules! keys {
    ($($wire_type:ident $number:expr),+) => {
        [$($crate::Key { number: $number, wire_type: $crate::WireType::$wire_type }),+]
    };
}

/// The number of the first field that has none of the keys. It takes no memory.
pub fn first_unknown(fields: &[Field<'_>], keys: &[Key]) -> Option<u32>
    ensures { result ≡ first_unknown keys.now (map field_view fields.now) }
{
    for field in fields {
        if !is_known(field, keys) {
            return Some(field.number);
        }
    }
    None
}

/// Whether the field has one of the keys.
pub(crate) fn is_known(field: &Field<'_>, keys: &[Key]) -> bool
    ensures { result ≡ is_known keys.now (field_view field.now) }
{
    keys.iter().any(|key| has_key(*key, field))
}

fn has_key(key: Key, field: &Field<'_>) -> bool
    ensures { result ≡ has_key key (field_view field.now) }
{
    field.number == key.number && field.payload.wire_type() == key.wire_type
}
