//! Joins of the least sizes of types with others, part by part.

ghost use Rattle.std.specs.Prelude.{◌≡◌, IfOk};
ghost use Rattle.cel_value.specs.Types.{type_view};
ghost use Rattle.cel_costs.specs.Sizes.{Many, Table, Text, join, least, least_key};
ghost use Rattle.cost_bound.specs.private.SizeView.{size_view};

use crate::size::{ValueSize, keys_of, least, least_key, many, table};
use cel_value::{CelType, KeyType};
use std::alloc::{AllocError, Global};

/// The join of the size of lists without items, which would have the least size of this type, and another size.
#[cycle(join_least)]
pub(crate) fn join_no_items(
    alloc: Global,
    items: &CelType,
    size: &ValueSize,
) -> Result<ValueSize, AllocError>
    ensures { IfOk result (λ joined. size_view joined
        ≡ join (Many 0 (least (type_view items.now))) (size_view size.now)) }
{
    match size {
        ValueSize::Flat => many(alloc, 0, least(items)?),
        ValueSize::Text(most) => many(alloc, *most, least(items)?),
        ValueSize::Many(most, others) => many(alloc, *most, join_least(alloc, items, others)?),
        ValueSize::Table(most, parts) => {
            let keys = join_least(alloc, items, &parts.keys)?;
            let values = join_least(alloc, items, &parts.values)?;
            table(alloc, *most, keys, values)
        }
        ValueSize::NoItems(of) => {
            let others = least(of)?;
            many(alloc, 0, join_least(alloc, items, &others)?)
        }
        ValueSize::NoEntries(keys, of) => {
            let others = least(of)?;
            let keys = join_least(alloc, items, &least_key(keys_of(*keys)))?;
            let values = join_least(alloc, items, &others)?;
            table(alloc, 0, keys, values)
        }
    }
}

/// The join of the size of maps without entries, whose parts would have the least sizes of these types, and another size.
#[cycle(join_least)]
pub(crate) fn join_no_entries(
    alloc: Global,
    keys: KeyType,
    values: &CelType,
    size: &ValueSize,
) -> Result<ValueSize, AllocError>
    ensures { IfOk result (λ joined. size_view joined
        ≡ join (Table 0 (least_key keys) (least (type_view values.now))) (size_view size.now)) }
{
    match size {
        ValueSize::Flat => table(alloc, 0, least_key(keys), least(values)?),
        ValueSize::Text(most) => table(alloc, *most, least_key(keys), least(values)?),
        ValueSize::Many(most, others) => {
            let first = join_least_key(alloc, keys, others)?;
            let second = join_least(alloc, values, others)?;
            table(alloc, *most, first, second)
        }
        ValueSize::Table(most, parts) => {
            let first = join_least_key(alloc, keys, &parts.keys)?;
            let second = join_least(alloc, values, &parts.values)?;
            table(alloc, *most, first, second)
        }
        ValueSize::NoItems(of) => {
            let others = least(of)?;
            let first = join_least_key(alloc, keys, &others)?;
            let second = join_least(alloc, values, &others)?;
            table(alloc, 0, first, second)
        }
        ValueSize::NoEntries(other, of) => {
            let others = least(of)?;
            let first = join_least_key(alloc, keys, &least_key(keys_of(*other)))?;
            let second = join_least(alloc, values, &others)?;
            table(alloc, 0, first, second)
        }
    }
}

// The join of the least size of a type and another size.
#[cycle(join_least)]
fn join_least(alloc: Global, cel_type: &CelType, size: &ValueSize) -> Result<ValueSize, AllocError>
    ensures { IfOk result (λ joined. size_view joined
        ≡ join (least (type_view cel_type.now)) (size_view size.now)) }
{
    match cel_type {
        CelType::Bool => size.copy(),
        CelType::Int => size.copy(),
        CelType::Uint => size.copy(),
        CelType::Text => join_text(alloc, 0, size),
        CelType::Bytes => join_text(alloc, 0, size),
        CelType::List(items) => join_no_items(alloc, items, size),
        CelType::Map(keys, values) => join_no_entries(alloc, *keys, values, size),
    }
}

fn join_least_key(alloc: Global, keys: KeyType, size: &ValueSize) -> Result<ValueSize, AllocError>
    ensures { IfOk result (λ joined. size_view joined ≡ join (least_key keys) (size_view size.now)) }
{
    match keys {
        KeyType::Bool => size.copy(),
        KeyType::Int => size.copy(),
        KeyType::Uint => size.copy(),
        KeyType::Text => join_text(alloc, 0, size),
    }
}

/// The join of a text's size and another.
pub(crate) fn join_text(
    alloc: Global,
    most: u64,
    right: &ValueSize,
) -> Result<ValueSize, AllocError>
    ensures { IfOk result (λ size. size_view size ≡ join (Text most) (size_view right.now)) }
{
    match right {
        ValueSize::Flat => Ok(ValueSize::Text(most)),
        ValueSize::Text(other) => Ok(ValueSize::Text(most.max(*other))),
        ValueSize::Many(other, items) => Ok(ValueSize::Many(most.max(*other), items.clone()?)),
        ValueSize::Table(other, parts) => Ok(ValueSize::Table(most.max(*other), parts.clone()?)),
        ValueSize::NoItems(items) => many(alloc, most, least(items)?),
        ValueSize::NoEntries(keys, values) => {
            table(alloc, most, least_key(keys_of(*keys)), least(values)?)
        }
    }
}
