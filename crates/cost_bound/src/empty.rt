//! Whether a size has room for the least size of a type. Each function may say no for sizes of two kinds.

ghost use Rattle.std.specs.Prelude.{◌≡◌, IsTrue};
ghost use Rattle.cel_value.specs.Types.{type_view};
ghost use Rattle.cel_costs.specs.Sizes.{Many, Table, join, least, least_key};
ghost use Rattle.cost_bound.specs.private.SizeView.{size_view};

use crate::size::{ValueSize, keys_of, least_key};
use cel_value::{CelType, KeyType};

/// Whether a size has room for lists of no items, which would have the least size of this type.
#[cycle(covers_least)]
pub(crate) fn covers_no_items(size: &ValueSize, items: &CelType) -> bool
    ensures before { IsTrue result
        → join (size_view size.now) (Many 0 (least (type_view items.now))) ≡ size_view size.now }
    ensures behind { IsTrue result
        → join (Many 0 (least (type_view items.now))) (size_view size.now) ≡ size_view size.now }
{
    match size {
        ValueSize::Many(_, others) => covers_least(others, items),
        ValueSize::NoItems(others) => is_same_least(others, items),
        _ => false,
    }
}

/// Whether a size has room for maps of no entries, whose parts would have the least sizes of these types.
#[cycle(covers_least)]
pub(crate) fn covers_no_entries(size: &ValueSize, keys: KeyType, values: &CelType) -> bool
    ensures before { IsTrue result
        → join (size_view size.now) (Table 0 (least_key keys) (least (type_view values.now))) ≡ size_view size.now }
    ensures behind { IsTrue result
        → join (Table 0 (least_key keys) (least (type_view values.now))) (size_view size.now) ≡ size_view size.now }
{
    match size {
        ValueSize::Table(_, parts) => {
            covers_least_key(&parts.keys, keys) && covers_least(&parts.values, values)
        }
        ValueSize::NoEntries(others, of) => {
            covers_least_key(&least_key(keys_of(*others)), keys) && is_same_least(of, values)
        }
        _ => false,
    }
}

// Whether a size has room for the least of a type.
#[cycle(covers_least)]
fn covers_least(size: &ValueSize, cel_type: &CelType) -> bool
    ensures before { IsTrue result
        → join (size_view size.now) (least (type_view cel_type.now)) ≡ size_view size.now }
    ensures behind { IsTrue result
        → join (least (type_view cel_type.now)) (size_view size.now) ≡ size_view size.now }
{
    match (size, cel_type) {
        (_, CelType::Bool) => true,
        (_, CelType::Int) => true,
        (_, CelType::Uint) => true,
        (ValueSize::Text(_), CelType::Text) => true,
        (ValueSize::Text(_), CelType::Bytes) => true,
        (_, CelType::List(items)) => covers_no_items(size, items),
        (_, CelType::Map(keys, values)) => covers_no_entries(size, *keys, values),
        _ => false,
    }
}

// Whether a size has room for the least of a type of keys.
fn covers_least_key(size: &ValueSize, keys: KeyType) -> bool
    ensures before { IsTrue result → join (size_view size.now) (least_key keys) ≡ size_view size.now }
    ensures behind { IsTrue result → join (least_key keys) (size_view size.now) ≡ size_view size.now }
{
    match (size, keys) {
        (_, KeyType::Bool) => true,
        (_, KeyType::Int) => true,
        (_, KeyType::Uint) => true,
        (ValueSize::Text(_), KeyType::Text) => true,
        _ => false,
    }
}

// Whether the least size of a type is that of another.
fn is_same_least(left: &CelType, right: &CelType) -> bool
    ensures before { IsTrue result
        → join (least (type_view left.now)) (least (type_view right.now)) ≡ least (type_view left.now) }
    ensures behind { IsTrue result
        → join (least (type_view right.now)) (least (type_view left.now)) ≡ least (type_view left.now) }
{
    left == right
}
