//! Sizes: upper bounds of an expression's answer.

ghost use Rattle.std.specs.Prelude.{◌≡◌, ◌+◌, ◌*◌, ℕ, IfOk};
ghost use Rattle.cel_value.specs.Types.{type_view};
ghost use Rattle.cel_costs.specs.Costs.{element_size, key_size, resized, value_size};
ghost use Rattle.cel_costs.specs.Sizes.{Many, Table, least, least_key, mass_of, most_of};
ghost use Rattle.cost_bound.specs.private.Numbers.{capped};
ghost use Rattle.cost_bound.specs.private.SizeView.{least_of_keys, size_view};

use cel_value::{CelType, KeyType};
use std::alloc::{AllocError, Global};
use std::rc::Rc;
use std::sync::Arc;

/// A size: the greatest number of bytes, items or entries, and the sizes of its parts, which are shared. The size of empty
/// lists and maps shares their type, so it takes no memory of its own.
#[derive(Drop)]
#[cycle(size)]
pub(crate) enum ValueSize {
    /// A bool, int or uint.
    Flat,
    /// A text, or bytes.
    Text(u64),
    /// A list of at most so many items.
    Many(u64, Rc<ValueSize>),
    /// A map of at most so many entries.
    Table(u64, Rc<TableParts>),
    /// A list of no items, which would have the least size of this type.
    NoItems(Arc<CelType>),
    /// A map of no entries, whose values would have the least size of this type. Its keys are texts, unless the number is 0.
    /// A number, since a copy of a `KeyType` would be a store more for each size.
    NoEntries(u64, Arc<CelType>),
}

/// The sizes of a map's keys and of its values.
#[derive(Drop)]
#[cycle(size)]
pub(crate) struct TableParts {
    pub(crate) keys: ValueSize,
    pub(crate) values: ValueSize,
}

impl ValueSize {
    /// Another owner of the same size.
    pub(crate) fn copy(&self) -> Result<ValueSize, AllocError>
        ensures { IfOk result (λ copy. size_view copy ≡ size_view self.now) }
    {
        match self {
            ValueSize::Flat => Ok(ValueSize::Flat),
            ValueSize::Text(most) => Ok(ValueSize::Text(*most)),
            ValueSize::Many(most, items) => Ok(ValueSize::Many(*most, items.clone()?)),
            ValueSize::Table(most, parts) => Ok(ValueSize::Table(*most, parts.clone()?)),
            ValueSize::NoItems(items) => Ok(ValueSize::NoItems(items.clone()?)),
            ValueSize::NoEntries(keys, values) => Ok(ValueSize::NoEntries(*keys, values.clone()?)),
        }
    }

    /// The greatest number of bytes, items or entries.
    pub(crate) fn most(&self) -> u64
        ensures most { result ≡ most_of (size_view self.now) }
        ensures capped { result ≡ capped (most_of (size_view self.now)) }
    {
        match self {
            ValueSize::Flat => 0,
            ValueSize::Text(most) => *most,
            ValueSize::Many(most, _) => *most,
            ValueSize::Table(most, _) => *most,
            ValueSize::NoItems(_) => 0,
            ValueSize::NoEntries(_, _) => 0,
        }
    }

    /// The mass of the greatest value within this size, but at most 2^64 - 1.
    pub(crate) fn mass(&self) -> u64
        ensures { result ≡ capped (mass_of (size_view self.now)) }
    {
        match self {
            ValueSize::Flat => 1,
            ValueSize::Text(most) => sum(1, *most),
            ValueSize::Many(most, items) => sum(1, product(*most, items.mass())),
            ValueSize::Table(most, parts) => {
                sum(
                    1,
                    product(*most, sum(parts.keys.mass(), parts.values.mass())),
                )
            }
            ValueSize::NoItems(_) => 1,
            ValueSize::NoEntries(_, _) => 1,
        }
    }

    /// The size of the one variable of a loop: of the range's items or keys.
    pub(crate) fn element(&self) -> Result<ValueSize, AllocError>
        ensures { IfOk result (λ size. size_view size ≡ element_size (size_view self.now)) }
    {
        match self {
            ValueSize::Many(_, items) => items.copy(),
            ValueSize::Table(_, parts) => parts.keys.copy(),
            ValueSize::NoItems(items) => least(items),
            ValueSize::NoEntries(keys, _) => Ok(least_key(keys_of(*keys))),
            ValueSize::Flat => Ok(ValueSize::Flat),
            ValueSize::Text(_) => Ok(ValueSize::Flat),
        }
    }

    /// The size of the first of two variables of a loop: of an index or of a key.
    pub(crate) fn key(&self) -> Result<ValueSize, AllocError>
        ensures { IfOk result (λ size. size_view size ≡ key_size (size_view self.now)) }
    {
        match self {
            ValueSize::Flat => Ok(ValueSize::Flat),
            ValueSize::Text(_) => Ok(ValueSize::Flat),
            ValueSize::Many(_, _) => Ok(ValueSize::Flat),
            ValueSize::Table(_, parts) => parts.keys.copy(),
            ValueSize::NoItems(_) => Ok(ValueSize::Flat),
            ValueSize::NoEntries(keys, _) => Ok(least_key(keys_of(*keys))),
        }
    }

    /// The size of the answer of an index or a Select: of an item, or of a map's value.
    pub(crate) fn value(&self) -> Result<ValueSize, AllocError>
        ensures { IfOk result (λ size. size_view size ≡ value_size (size_view self.now)) }
    {
        match self {
            ValueSize::Many(_, items) => items.copy(),
            ValueSize::Table(_, parts) => parts.values.copy(),
            ValueSize::NoItems(items) => least(items),
            ValueSize::NoEntries(_, values) => least(values),
            ValueSize::Flat => Ok(ValueSize::Flat),
            ValueSize::Text(_) => Ok(ValueSize::Flat),
        }
    }

    /// The size with another number of bytes, items or entries.
    pub(crate) fn resized(self, alloc: Global, most: u64) -> Result<ValueSize, AllocError>
        ensures { IfOk result (λ size. size_view size ≡ resized most (size_view self)) }
    {
        match self {
            ValueSize::Flat => Ok(ValueSize::Flat),
            ValueSize::Text(_) => Ok(ValueSize::Text(most)),
            ValueSize::Many(_, items) => Ok(ValueSize::Many(most, items)),
            ValueSize::Table(_, parts) => Ok(ValueSize::Table(most, parts)),
            ValueSize::NoItems(items) => many(alloc, most, least(&items)?),
            ValueSize::NoEntries(keys, values) => {
                table(alloc, most, least_key(keys_of(keys)), least(&values)?)
            }
        }
    }
}

/// The sum, but at most 2^64 - 1.
pub(crate) fn sum(left: u64, right: u64) -> u64
    ensures { (m n : ℕ) → left ≡ capped m → right ≡ capped n → result ≡ capped (m + n) }
{
    left.saturating_add(right)
}

/// The product, but at most 2^64 - 1.
pub(crate) fn product(left: u64, right: u64) -> u64
    ensures { (m n : ℕ) → left ≡ capped m → right ≡ capped n → result ≡ capped (m * n) }
{
    left.saturating_mul(right)
}

/// The size of lists of at most so many items, of this size each.
pub(crate) fn many(alloc: Global, most: u64, items: ValueSize) -> Result<ValueSize, AllocError>
    ensures { IfOk result (λ size. size_view size ≡ Many most (size_view items)) }
{
    Ok(ValueSize::Many(most, Rc::new(alloc, items)?))
}

/// The size of maps of at most so many entries, with keys and values of these sizes.
pub(crate) fn table(
    alloc: Global,
    most: u64,
    keys: ValueSize,
    values: ValueSize,
) -> Result<ValueSize, AllocError>
    ensures { IfOk result (λ size. size_view size ≡ Table most (size_view keys) (size_view values)) }
{
    let parts = TableParts { keys, values };
    Ok(ValueSize::Table(most, Rc::new(alloc, parts)?))
}

/// The least size of a type. It shares the type's parts.
pub(crate) fn least(cel_type: &CelType) -> Result<ValueSize, AllocError>
    ensures { IfOk result (λ size. size_view size ≡ least (type_view cel_type.now)) }
{
    match cel_type {
        CelType::Bool => Ok(ValueSize::Flat),
        CelType::Int => Ok(ValueSize::Flat),
        CelType::Uint => Ok(ValueSize::Flat),
        CelType::Text => Ok(ValueSize::Text(0)),
        CelType::Bytes => Ok(ValueSize::Text(0)),
        CelType::List(items) => Ok(ValueSize::NoItems(items.clone()?)),
        CelType::Map(keys, values) => {
            Ok(ValueSize::NoEntries(number_of(*keys), values.clone()?))
        }
    }
}

// The number of a type of keys in a size: 0 unless they are texts.
fn number_of(keys: KeyType) -> u64
    ensures { least_of_keys result ≡ least_key keys }
{
    match keys {
        KeyType::Bool => 0,
        KeyType::Int => 0,
        KeyType::Uint => 0,
        KeyType::Text => 1,
    }
}

/// A type of keys with this number.
pub(crate) fn keys_of(number: u64) -> KeyType
    ensures { least_key result ≡ least_of_keys number }
{
    if number == 0 {
        return KeyType::Bool;
    }
    KeyType::Text
}

/// The least size of a type of keys.
pub(crate) fn least_key(keys: KeyType) -> ValueSize
    ensures { size_view result ≡ least_key keys }
{
    match keys {
        KeyType::Bool => ValueSize::Flat,
        KeyType::Int => ValueSize::Flat,
        KeyType::Uint => ValueSize::Flat,
        KeyType::Text => ValueSize::Text(0),
    }
}
