//! Whether two sizes are the same.

ghost use Rattle.std.specs.Prelude.{◌≡◌, ◌↔◌, IsTrue};
ghost use Rattle.cel_value.specs.Types.{type_view};
ghost use Rattle.cel_costs.specs.Sizes.{Flat, Many, Table, Text, least, least_key};
ghost use Rattle.cost_bound.specs.private.SizeView.{size_view};

use crate::size::{TableParts, ValueSize, keys_of, least_key};
use cel_value::{CelType, KeyType};

/// Whether two sizes are the same.
#[cycle(same)]
pub(crate) fn same(left: &ValueSize, right: &ValueSize) -> bool
    ensures { IsTrue result ↔ (size_view left.now ≡ size_view right.now) }
{
    match left {
        ValueSize::Flat => is_flat(right),
        ValueSize::Text(most) => is_text(*most, right),
        ValueSize::Many(most, items) => is_list(*most, items, right),
        ValueSize::Table(most, parts) => is_map(*most, parts, right),
        ValueSize::NoItems(items) => is_no_items(items, right),
        ValueSize::NoEntries(keys, values) => is_no_entries(keys_of(*keys), values, right),
    }
}

// Whether a size is that of lists of at most so many items of this size.
#[cycle(same)]
fn is_list(most: u64, items: &ValueSize, size: &ValueSize) -> bool
    ensures { IsTrue result ↔ (Many most (size_view items.now) ≡ size_view size.now) }
{
    match size {
        ValueSize::Flat => false,
        ValueSize::Text(_) => false,
        ValueSize::Many(other, others) => most == *other && same(items, others),
        ValueSize::Table(_, _) => false,
        ValueSize::NoItems(of) => most == 0 && is_least(of, items),
        ValueSize::NoEntries(_, _) => false,
    }
}

// Whether a size is that of maps of at most so many entries with these parts.
#[cycle(same)]
fn is_map(most: u64, parts: &TableParts, size: &ValueSize) -> bool
    ensures { IsTrue result
        ↔ (Table most (size_view parts.now.keys) (size_view parts.now.values) ≡ size_view size.now) }
{
    match size {
        ValueSize::Flat => false,
        ValueSize::Text(_) => false,
        ValueSize::Many(_, _) => false,
        ValueSize::Table(other, others) => {
            most == *other && same(&parts.keys, &others.keys) && same(&parts.values, &others.values)
        }
        ValueSize::NoItems(_) => false,
        ValueSize::NoEntries(keys, of) => {
            most == 0 && is_least_key(keys_of(*keys), &parts.keys) && is_least(of, &parts.values)
        }
    }
}

// Whether a size is that of lists without items, which would have the least size of this type.
#[cycle(is_least)]
fn is_no_items(items: &CelType, size: &ValueSize) -> bool
    ensures { IsTrue result ↔ (Many 0 (least (type_view items.now)) ≡ size_view size.now) }
{
    match size {
        ValueSize::Flat => false,
        ValueSize::Text(_) => false,
        ValueSize::Many(most, others) => *most == 0 && is_least(items, others),
        ValueSize::Table(_, _) => false,
        ValueSize::NoItems(of) => are_alike(items, of),
        ValueSize::NoEntries(_, _) => false,
    }
}

// Whether a size is that of maps without entries, whose parts would have the least sizes of these types.
#[cycle(is_least)]
fn is_no_entries(keys: KeyType, values: &CelType, size: &ValueSize) -> bool
    ensures { IsTrue result
        ↔ (Table 0 (least_key keys) (least (type_view values.now)) ≡ size_view size.now) }
{
    match size {
        ValueSize::Flat => false,
        ValueSize::Text(_) => false,
        ValueSize::Many(_, _) => false,
        ValueSize::Table(most, parts) => {
            *most == 0 && is_least_key(keys, &parts.keys) && is_least(values, &parts.values)
        }
        ValueSize::NoItems(_) => false,
        ValueSize::NoEntries(others, of) => {
            is_least_key(keys, &least_key(keys_of(*others))) && are_alike(values, of)
        }
    }
}

// Whether a size is the least of a type.
#[cycle(is_least)]
fn is_least(cel_type: &CelType, size: &ValueSize) -> bool
    ensures { IsTrue result ↔ (least (type_view cel_type.now) ≡ size_view size.now) }
{
    match cel_type {
        CelType::Bool => is_flat(size),
        CelType::Int => is_flat(size),
        CelType::Uint => is_flat(size),
        CelType::Text => is_text(0, size),
        CelType::Bytes => is_text(0, size),
        CelType::List(items) => is_no_items(items, size),
        CelType::Map(keys, values) => is_no_entries(*keys, values, size),
    }
}

// Whether the least sizes of two types are the same.
fn are_alike(left: &CelType, right: &CelType) -> bool
    ensures { IsTrue result ↔ (least (type_view left.now) ≡ least (type_view right.now)) }
{
    match left {
        CelType::Bool => is_flat_type(right),
        CelType::Int => is_flat_type(right),
        CelType::Uint => is_flat_type(right),
        CelType::Text => is_text_type(right),
        CelType::Bytes => is_text_type(right),
        CelType::List(items) => match right {
            CelType::Bool => false,
            CelType::Int => false,
            CelType::Uint => false,
            CelType::Text => false,
            CelType::Bytes => false,
            CelType::List(others) => are_alike(items, others),
            CelType::Map(_, _) => false,
        },
        CelType::Map(keys, values) => match right {
            CelType::Bool => false,
            CelType::Int => false,
            CelType::Uint => false,
            CelType::Text => false,
            CelType::Bytes => false,
            CelType::List(_) => false,
            CelType::Map(others, of) => {
                is_least_key(*keys, &least_key(*others)) && are_alike(values, of)
            }
        },
    }
}

// Whether the least size of a type is flat.
fn is_flat_type(cel_type: &CelType) -> bool
    ensures { IsTrue result ↔ (Flat ≡ least (type_view cel_type.now)) }
{
    match cel_type {
        CelType::Bool => true,
        CelType::Int => true,
        CelType::Uint => true,
        CelType::Text => false,
        CelType::Bytes => false,
        CelType::List(_) => false,
        CelType::Map(_, _) => false,
    }
}

// Whether the least size of a type is a text's.
fn is_text_type(cel_type: &CelType) -> bool
    ensures { IsTrue result ↔ (Text 0 ≡ least (type_view cel_type.now)) }
{
    match cel_type {
        CelType::Bool => false,
        CelType::Int => false,
        CelType::Uint => false,
        CelType::Text => true,
        CelType::Bytes => true,
        CelType::List(_) => false,
        CelType::Map(_, _) => false,
    }
}

fn is_least_key(keys: KeyType, size: &ValueSize) -> bool
    ensures { IsTrue result ↔ (least_key keys ≡ size_view size.now) }
{
    match keys {
        KeyType::Bool => is_flat(size),
        KeyType::Int => is_flat(size),
        KeyType::Uint => is_flat(size),
        KeyType::Text => is_text(0, size),
    }
}

fn is_flat(size: &ValueSize) -> bool
    ensures { IsTrue result ↔ (Flat ≡ size_view size.now) }
{
    match size {
        ValueSize::Flat => true,
        ValueSize::Text(_) => false,
        ValueSize::Many(_, _) => false,
        ValueSize::Table(_, _) => false,
        ValueSize::NoItems(_) => false,
        ValueSize::NoEntries(_, _) => false,
    }
}

fn is_text(most: u64, size: &ValueSize) -> bool
    ensures { IsTrue result ↔ (Text most ≡ size_view size.now) }
{
    match size {
        ValueSize::Flat => false,
        ValueSize::Text(other) => most == *other,
        ValueSize::Many(_, _) => false,
        ValueSize::Table(_, _) => false,
        ValueSize::NoItems(_) => false,
        ValueSize::NoEntries(_, _) => false,
    }
}
