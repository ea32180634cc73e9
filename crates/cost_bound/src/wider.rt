//! Joins of sizes: which of two has room for both, and their join where neither has.

ghost use Rattle.std.specs.Prelude.{◌≡◌, IfOk, IfSome, IsTrue};
ghost use Rattle.cel_costs.specs.Sizes.{Many, Size, Text, join};
ghost use Rattle.cost_bound.specs.private.SizeView.{IsWider, size_view};

use crate::empty::{covers_no_entries, covers_no_items};
use crate::least::{join_no_entries, join_no_items, join_text};
use crate::size::{ValueSize, keys_of, many, table};
use std::alloc::{AllocError, Global};

/// The join of two sizes, which has room for the values of both: the greater of each part. If one
/// size has room for both, the result is a copy of it, which shares its parts.
#[cycle(join)]
pub(crate) fn join(
    alloc: Global,
    left: &ValueSize,
    right: &ValueSize,
) -> Result<ValueSize, AllocError>
    ensures { IfOk result (λ size. size_view size ≡ join (size_view left.now) (size_view right.now)) }
{
    if covers(left, right) {
        return left.copy();
    }
    if covers(right, left) {
        return right.copy();
    }
    wider_of(alloc, left, right)?.joined(left, right)
}

/// Whether a size has room for all that another has room for. May say no for sizes of two kinds.
pub(crate) fn covers(size: &ValueSize, other: &ValueSize) -> bool
    ensures before { IsTrue result → join (size_view size.now) (size_view other.now) ≡ size_view size.now }
    ensures behind { IsTrue result → join (size_view other.now) (size_view size.now) ≡ size_view size.now }
{
    match (size, other) {
        (_, ValueSize::Flat) => true,
        (ValueSize::Text(n), ValueSize::Text(m)) => n >= m,
        (ValueSize::Many(n, a), ValueSize::Many(m, b)) => n >= m && covers(a, b),
        (ValueSize::Table(n, a), ValueSize::Table(m, b)) => {
            n >= m && covers(&a.keys, &b.keys) && covers(&a.values, &b.values)
        }
        (_, ValueSize::NoItems(items)) => covers_no_items(size, items),
        (_, ValueSize::NoEntries(keys, values)) => covers_no_entries(size, keys_of(*keys), values),
        _ => false,
    }
}

// Which of two sizes has room for both; if neither has, their join.
#[derive(Drop)]
enum Wider {
    Both,
    Left,
    Right,
    Neither(ValueSize),
}

impl Wider {
    fn is_left(&self) -> bool
        ensures { (s t : Size) → IsTrue result → IsWider self.now s t → join s t ≡ s }
    {
        matches!(self, Wider::Both | Wider::Left)
    }

    fn is_right(&self) -> bool
        ensures { (s t : Size) → IsTrue result → IsWider self.now s t → join s t ≡ t }
    {
        matches!(self, Wider::Both | Wider::Right)
    }

    // The join of the sizes of which this tells.
    fn joined(self, left: &ValueSize, right: &ValueSize) -> Result<ValueSize, AllocError>
        requires { IsWider self (size_view left.now) (size_view right.now) }
        ensures { IfOk result (λ size. size_view size ≡ join (size_view left.now) (size_view right.now)) }
    {
        match self {
            Wider::Both | Wider::Left => left.copy(),
            Wider::Right => right.copy(),
            Wider::Neither(size) => Ok(size),
        }
    }
}

// Whether both left parts of two maps' sizes have room for both. The next one asks the same of the right parts.
fn are_left(keys: &Wider, values: &Wider) -> bool
    ensures { (k j v w : Size) → IsTrue result → IsWider keys.now k j → IsWider values.now v w
        → (join k j ≡ k) × (join v w ≡ v) }
{
    keys.is_left() && values.is_left()
}

fn are_right(keys: &Wider, values: &Wider) -> bool
    ensures { (k j v w : Size) → IsTrue result → IsWider keys.now k j → IsWider values.now v w
        → (join k j ≡ j) × (join v w ≡ w) }
{
    keys.is_right() && values.is_right()
}

// The answer for two sizes of which the left one, the right one or both are known to have room for both.
fn known_wider(left: bool, right: bool) -> Option<Wider>
    ensures { (s t : Size) → (IsTrue left → join s t ≡ s) → (IsTrue right → join s t ≡ t)
        → IfSome result (λ wider. IsWider wider s t) }
{
    match (left, right) {
        (true, true) => Some(Wider::Both),
        (true, false) => Some(Wider::Left),
        (false, true) => Some(Wider::Right),
        (false, false) => None,
    }
}

// Goes over the parts of both sizes once.
#[cycle(join)]
fn wider_of(alloc: Global, left: &ValueSize, right: &ValueSize) -> Result<Wider, AllocError>
    ensures { IfOk result (λ wider. IsWider wider (size_view left.now) (size_view right.now)) }
{
    match (left, right) {
        (_, ValueSize::Flat) => Ok(Wider::Left),
        (ValueSize::Flat, _) => Ok(Wider::Right),
        (ValueSize::Text(most), ValueSize::Text(other)) => Ok(wider_text(*most, *other)),
        (ValueSize::Many(most, items), ValueSize::Many(other, others)) => {
            wider_many(alloc, *most, *other, items, others)
        }
        (ValueSize::Table(most, parts), ValueSize::Table(other, others)) => {
            let first = wider_of(alloc, &parts.keys, &others.keys)?;
            let second = wider_of(alloc, &parts.values, &others.values)?;
            let left = *most >= *other && are_left(&first, &second);
            let right = *other >= *most && are_right(&first, &second);
            if let Some(known) = known_wider(left, right) {
                return Ok(known);
            }
            let keys = first.joined(&parts.keys, &others.keys)?;
            let values = second.joined(&parts.values, &others.values)?;
            Ok(Wider::Neither(table(alloc, (*most).max(*other), keys, values)?))
        }
        _ => wider_kind(alloc, left, right),
    }
}

// The same for sizes that are not both of one kind with parts of their own.
#[cycle(join)]
fn wider_kind(alloc: Global, left: &ValueSize, right: &ValueSize) -> Result<Wider, AllocError>
    ensures { IfOk result (λ wider. IsWider wider (size_view left.now) (size_view right.now)) }
{
    if let Some(known) = known_wider(covers(left, right), covers(right, left)) {
        return Ok(known);
    }
    Ok(Wider::Neither(join_parts(alloc, left, right)?))
}

// The same for two lists' sizes.
#[cycle(join)]
fn wider_many(
    alloc: Global,
    most: u64,
    other: u64,
    items: &ValueSize,
    others: &ValueSize,
) -> Result<Wider, AllocError>
    ensures { IfOk result (λ wider. IsWider wider (Many most (size_view items.now))
        (Many other (size_view others.now))) }
{
    let part = wider_of(alloc, items, others)?;
    let left = most >= other && part.is_left();
    let right = other >= most && part.is_right();
    if let Some(known) = known_wider(left, right) {
        return Ok(known);
    }
    let joined = part.joined(items, others)?;
    Ok(Wider::Neither(many(alloc, most.max(other), joined)?))
}

fn wider_text(most: u64, other: u64) -> Wider
    ensures { IsWider result (Text most) (Text other) }
{
    if most >= other {
        return Wider::Left;
    }
    Wider::Right
}

// Joins two sizes part by part.
#[cycle(join)]
fn join_parts(alloc: Global, left: &ValueSize, right: &ValueSize) -> Result<ValueSize, AllocError>
    ensures { IfOk result (λ size. size_view size ≡ join (size_view left.now) (size_view right.now)) }
{
    match left {
        ValueSize::Flat => right.copy(),
        ValueSize::Text(most) => join_text(alloc, *most, right),
        ValueSize::Many(most, items) => match right {
            ValueSize::Flat => left.copy(),
            ValueSize::Text(other) => Ok(ValueSize::Many((*most).max(*other), items.clone()?)),
            ValueSize::Many(other, others) => {
                many(alloc, (*most).max(*other), join(alloc, items, others)?)
            }
            ValueSize::Table(other, parts) => {
                let keys = join(alloc, items, &parts.keys)?;
                let values = join(alloc, items, &parts.values)?;
                table(alloc, (*most).max(*other), keys, values)
            }
            ValueSize::NoItems(others) => join_no_items(alloc, others, left),
            ValueSize::NoEntries(keys, kind) => join_no_entries(alloc, keys_of(*keys), kind, left),
        },
        ValueSize::Table(most, parts) => match right {
            ValueSize::Flat => left.copy(),
            ValueSize::Text(other) => Ok(ValueSize::Table((*most).max(*other), parts.clone()?)),
            ValueSize::Many(other, items) => {
                let keys = join(alloc, &parts.keys, items)?;
                let values = join(alloc, &parts.values, items)?;
                table(alloc, (*most).max(*other), keys, values)
            }
            ValueSize::Table(other, others) => {
                let keys = join(alloc, &parts.keys, &others.keys)?;
                let values = join(alloc, &parts.values, &others.values)?;
                table(alloc, (*most).max(*other), keys, values)
            }
            ValueSize::NoItems(items) => join_no_items(alloc, items, left),
            ValueSize::NoEntries(keys, kind) => join_no_entries(alloc, keys_of(*keys), kind, left),
        },
        ValueSize::NoItems(items) => join_no_items(alloc, items, right),
        ValueSize::NoEntries(keys, kind) => join_no_entries(alloc, keys_of(*keys), kind, right),
    }
}
