//! The sizes of the answers of calls and literals, by the sizes of their operands.

ghost use Rattle.std.specs.Prelude.{◌≡◌, ◌<◌, ◌+◌, ◌*◌, ◌^◌, List, [], ◌∷◌, IfOk, length};
ghost use Rattle.cel_overload.specs.declared.overload.Overload.TheVariants.{Operate};
ghost use Rattle.cel_value.specs.Types.{ValueType, type_view};
ghost use Rattle.cel_costs.specs.Costs.{call_size, charge_at, concat_size, conversion_size, join_all, keys_of, list_size, map_size, masses};
ghost use Rattle.cel_costs.specs.Sizes.{Size, most_of};
ghost use Rattle.cost_bound.specs.private.Numbers.{capped};
ghost use Rattle.cost_bound.specs.private.SizeView.{IsEntries, size_view, sizes_view};

use crate::joining::join_owned;
use crate::size::{ValueSize, least, many, product, sum, table};
use crate::wider::join;
use cel_ops::{Conversion, Operation};
use cel_overload::Overload;
use cel_value::CelType;
use std::alloc::{AllocError, Global};

/// The size of the answer of a call of one operand.
pub(crate) fn single_size(overload: Overload, size: &ValueSize) -> ValueSize
    ensures { size_view result ≡ call_size overload (size_view size.now ∷ []) }
{
    match overload {
        Overload::Operate(op) => operand_size(op, size),
        Overload::Conditional => ValueSize::Flat,
    }
}

// The size of the answer of an operation on one operand.
fn operand_size(op: Operation, size: &ValueSize) -> ValueSize
    ensures { size_view result ≡ call_size (Operate op) (size_view size.now ∷ []) }
{
    match op {
        Operation::Convert(kind) => converted_size(kind, size),
        Operation::Arithmetic(_) => ValueSize::Flat,
        Operation::Negate => ValueSize::Flat,
        Operation::Not => ValueSize::Flat,
        Operation::NotStrictlyFalse => ValueSize::Flat,
        Operation::And => ValueSize::Flat,
        Operation::Or => ValueSize::Flat,
        Operation::Compare(_) => ValueSize::Flat,
        Operation::TestText(_) => ValueSize::Flat,
        Operation::Concat => ValueSize::Flat,
        Operation::Size => ValueSize::Flat,
        Operation::ListIndex => ValueSize::Flat,
        Operation::MapIndex => ValueSize::Flat,
        Operation::InMap => ValueSize::Flat,
        Operation::InList => ValueSize::Flat,
    }
}

// The size of what is converted.
fn converted_size(kind: Conversion, size: &ValueSize) -> ValueSize
    ensures { size_view result ≡ conversion_size kind (size_view size.now) }
{
    match kind {
        Conversion::UintToInt => ValueSize::Flat,
        Conversion::IntToUint => ValueSize::Flat,
        Conversion::IntToText => ValueSize::Text(20),
        Conversion::UintToText => ValueSize::Text(20),
        Conversion::BytesToText => ValueSize::Text(size.most()),
        Conversion::TextToBytes => ValueSize::Text(size.most()),
    }
}

/// The size of the answer of a call of two operands. Its charge has been paid, so the sum of two lengths fits 64 bits.
pub(crate) fn pair_size(
    alloc: Global,
    overload: Overload,
    first: &ValueSize,
    second: &ValueSize,
) -> Result<ValueSize, AllocError>
    ensures { IfOk result (λ size. (ts : List ValueType)
        → charge_at overload ts (size_view first.now ∷ size_view second.now ∷ []) < 2 ^ 64
        → size_view size ≡ call_size overload (size_view first.now ∷ size_view second.now ∷ [])) }
{
    match overload {
        Overload::Operate(op) => operands_size(alloc, op, first, second),
        Overload::Conditional => Ok(ValueSize::Flat),
    }
}

// The same, of an operation.
fn operands_size(
    alloc: Global,
    op: Operation,
    first: &ValueSize,
    second: &ValueSize,
) -> Result<ValueSize, AllocError>
    ensures { IfOk result (λ size. (ts : List ValueType)
        → charge_at (Operate op) ts (size_view first.now ∷ size_view second.now ∷ []) < 2 ^ 64
        → size_view size ≡ call_size (Operate op) (size_view first.now ∷ size_view second.now ∷ [])) }
{
    match op {
        Operation::Concat => concat_size(alloc, first, second),
        Operation::ListIndex => first.value(),
        Operation::MapIndex => first.value(),
        Operation::Arithmetic(_) => Ok(ValueSize::Flat),
        Operation::Negate => Ok(ValueSize::Flat),
        Operation::Not => Ok(ValueSize::Flat),
        Operation::NotStrictlyFalse => Ok(ValueSize::Flat),
        Operation::And => Ok(ValueSize::Flat),
        Operation::Or => Ok(ValueSize::Flat),
        Operation::Compare(_) => Ok(ValueSize::Flat),
        Operation::TestText(_) => Ok(ValueSize::Flat),
        Operation::Size => Ok(ValueSize::Flat),
        Operation::InMap => Ok(ValueSize::Flat),
        Operation::InList => Ok(ValueSize::Flat),
        Operation::Convert(_) => Ok(ValueSize::Flat),
    }
}

// The size of two texts, bytes or lists joined: both lengths are added.
fn concat_size(
    alloc: Global,
    first: &ValueSize,
    second: &ValueSize,
) -> Result<ValueSize, AllocError>
    ensures { IfOk result (λ size.
        most_of (size_view first.now) + most_of (size_view second.now) < 2 ^ 64
        → size_view size ≡ concat_size (size_view first.now) (size_view second.now)) }
{
    let joined = join(alloc, first, second)?;
    joined.resized(alloc, sum(first.most(), second.most()))
}

/// The size of a list literal of so many items, whose sizes were joined; if it is empty, the least of its type.
pub(crate) fn list_size(
    alloc: Global,
    cel_type: &CelType,
    count: u64,
    items: ValueSize,
) -> Result<ValueSize, AllocError>
    ensures { IfOk result (λ size. (ss : List Size) → length ss ≡ count → size_view items ≡ join_all ss
        → size_view size ≡ list_size (type_view cel_type.now) ss) }
{
    if count == 0 {
        return least(cel_type);
    }
    many(alloc, count, items)
}

/// What was found of a map literal's keys and values, which are in turn, from one of them on. It has the joined sizes of
/// those that are keys, the joined sizes of the others, and the sums of their masses.
#[derive(Drop)]
pub(crate) struct Entries {
    keys: ValueSize,
    values: ValueSize,
    key_mass: u64,
    value_mass: u64,
}

impl Entries {
    /// None yet.
    pub(crate) fn none() -> Entries
        ensures { IsEntries result [] }
    {
        Entries {
            keys: ValueSize::Flat,
            values: ValueSize::Flat,
            key_mass: 0,
            value_mass: 0,
        }
    }

    /// The same from the one before on, which is of this size: a key. So what was a key is a value.
    pub(crate) fn from_before(self, alloc: Global, size: ValueSize) -> Result<Entries, AllocError>
        ensures { IfOk result (λ all. (ss : List Size) → IsEntries self ss
            → IsEntries all (size_view size ∷ ss)) }
    {
        let key_mass = sum(size.mass(), self.value_mass);
        let keys = join_owned(alloc, size, self.values)?;
        Ok(Entries {
            keys,
            values: self.keys,
            key_mass,
            value_mass: self.key_mass,
        })
    }

    /// The charge of the literal's instruction, less 1: the sum of its keys' masses times their number.
    pub(crate) fn part(&self, keys: u64) -> u64
        ensures { (ss : List Size) → IsEntries self.now ss → keys ≡ length (keys_of ss)
            → result ≡ capped (masses (keys_of ss) * length (keys_of ss)) }
    {
        product(self.key_mass, keys)
    }
}

/// How many of so many keys and values in turn are keys.
pub(crate) fn key_count(count: usize) -> u64
    ensures { (ss : List Size) → length ss ≡ count → result ≡ length (keys_of ss) }
{
    let all = count as u64;
    all / 2 + all % 2
}

/// The size of a map literal with so many keys; if it is empty, the least of its type.
pub(crate) fn map_size(
    alloc: Global,
    cel_type: &CelType,
    keys: u64,
    entries: Entries,
) -> Result<ValueSize, AllocError>
    ensures { IfOk result (λ size. (ss : List Size) → IsEntries entries ss → keys ≡ length (keys_of ss)
        → size_view size ≡ map_size (type_view cel_type.now) ss) }
{
    if keys == 0 {
        return least(cel_type);
    }
    table(alloc, keys, entries.keys, entries.values)
}
