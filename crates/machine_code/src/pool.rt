//! Pools: items by number, each once.

ghost use Rattle.std.specs.Prelude.{◌≡◌, ◌<◌, ◌^◌, ◌≤◌, [], IfOk, IfSome, IsTrue, Some, length, slice_get};
ghost use Rattle.machine_code.specs.private.Keeping.{Keeps};

use std::alloc::{AllocError, Global};
use std::cmp::Ordering;
use std::marker::Model;

/// An item of a pool.
pub(crate) trait Part: Drop {
    /// Whether the one item can replace the other.
    ghost IsSame: { Self → Self → Type 0 };

    /// An order for the search; no contract mentions it.
    fn order(&self, other: &Self) -> Ordering;

    fn is_same(&self, other: &Self) -> bool
        ensures { IsTrue result → IsSame self.now other.now };

    ghost same: { (x : Self) → IsSame x x };
}

/// Items by number, at most 65,536. An item that is already in the pool is not added again.
#[derive(Drop)]
pub(crate) struct Pool<T: Drop> {
    items: Vec<T>,
    // the numbers, sorted by their items, in pieces: an insertion moves only numbers of one piece
    sorted: Vec<Vec<u16>>,
}

impl<T: Drop> Model for Pool<T> {
    ghost use Rattle.std.specs.Prelude.{List};

    ghost Value = { List T };

    ghost view = { λ p. p.items.items };
}

impl<T: Part> Pool<T> {
    pub(crate) fn new(alloc: Global) -> Self
        ensures { result ≡ [] }
    {
        Pool {
            items: Vec::new(alloc),
            sorted: Vec::new(alloc),
        }
    }

    /// The item of this number.
    #[inline(always)]
    pub(crate) fn get(&self, number: u16) -> &T
        requires { number < length self.now }
        ensures { slice_get self.now number ≡ Some result.now }
    {
        &self.items[number as usize]
    }

    /// The number of an equal item; adds the item if there is none.
    pub(crate) fn number(&mut self, item: T) -> Result<u16, AllocError>
        ensures kept { Keeps self.old self.new }
        ensures found { IfOk result
            (λ n. (a : T) × (slice_get self.new n ≡ Some a) × T.IsSame a item) }
    {
        let place = place_of(&self.items, &self.sorted, &item);
        if let Some(number) = number_at(&self.items, &self.sorted, place, &item) {
            return Ok(number);
        }
        let number = self.items.len();
        if number > 65_535 {
            return Err(AllocError);
        }
        self.items.push(item)?;
        put(&mut self.sorted, place, number as u16)?;
        Ok(number as u16)
    }
}

// The place of a number: a piece, and a place in the piece.
#[derive(Clone, Copy)]
struct Place {
    piece: usize,
    place: usize,
}

// The greatest length of a piece.
const MOST: usize = 512;

// The place of an equal item's number; if there is none, the place where it would be inserted.
fn place_of<T: Part>(items: &[T], sorted: &[Vec<u16>], item: &T) -> Place {
    let found = sorted.binary_search_by(|piece| match piece.first() {
        Some(number) => order_of(items, *number, item),
        None => Ordering::Less,
    });
    let piece = match found {
        Ok(piece) => piece,
        Err(piece) => piece.saturating_sub(1),
    };
    let Some(numbers) = sorted.get(piece) else {
        return Place { piece, place: 0 };
    };
    match numbers.binary_search_by(|number| order_of(items, *number, item)) {
        Ok(place) => Place { piece, place },
        Err(place) => Place { piece, place },
    }
}

fn order_of<T: Part>(items: &[T], number: u16, item: &T) -> Ordering {
    match items.get(number as usize) {
        Some(other) => other.order(item),
        None => Ordering::Less,
    }
}

// The number at the place, if its item is the same.
fn number_at<T: Part>(items: &[T], sorted: &[Vec<u16>], place: Place, item: &T) -> Option<u16>
    ensures { IfSome result
        (λ n. (a : T) × (slice_get items.now n ≡ Some a) × T.IsSame a item.now) }
{
    let number = *sorted.get(place.piece)?.get(place.place)?;
    let other = items.get(number as usize)?;
    if other.is_same(item) {
        return Some(number);
    }
    None
}

// Inserts a number. A piece that becomes too long is halved.
fn put(sorted: &mut Vec<Vec<u16>>, place: Place, number: u16) -> Result<(), AllocError> {
    let alloc = *sorted.allocator();
    let Some(piece) = sorted.get_mut(place.piece) else {
        let mut piece = Vec::new(alloc);
        piece.push(number)?;
        sorted.push(piece)?;
        return Ok(());
    };
    if place.place <= piece.len() {
        piece.insert(place.place, number)?;
    }
    if piece.len() > MOST {
        let mut upper = Vec::with_capacity(alloc, MOST)?;
        upper.extend_from_slice(&piece[MOST / 2..])?;
        piece.truncate(MOST / 2);
        if place.piece < sorted.len() {
            sorted.insert(place.piece + 1, upper)?;
        }
    }
    Ok(())
}
