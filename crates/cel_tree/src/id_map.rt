//! Maps from ids, as lists in ascending order of ids.

ghost use Rattle.std.specs.Prelude.{◌≡◌, ◌<◌, [], IsTrue, T, MatchResult, drop, length};
ghost use Rattle.std.specs.FinMap.{find, is_sorted, put};
ghost use Rattle.std.specs.Option.{option_copied};
ghost use Rattle.std.specs.Ordering.{int_cmp};
ghost use Rattle.cel_tree.specs.private.Places.{IsPlace, starts_with};

use std::alloc::{AllocError, Global};
use std::cmp::Ordering;
use std::marker::Model;

/// A map from ids. An entry is appended if its id is greater than all others.
#[derive(Drop)]
pub(crate) struct IdMap<V> {
    entries: Vec<(i64, V)>,
}

impl<V> Model for IdMap<V> {
    ghost use Rattle.std.specs.Prelude.{ℤ, List, T};
    ghost use Rattle.std.specs.FinMap.{is_sorted};
    ghost use Rattle.std.specs.Ordering.{int_cmp};

    ghost Value = { List (ℤ × V) };

    ghost view = { λ m. m.entries.items };

    ghost invariant = { λ m. T (is_sorted int_cmp m.entries.items) };
}

impl<V: Drop> IdMap<V> {
    /// A map without entries.
    pub(crate) fn new(alloc: Global) -> IdMap<V>
        ensures { result ≡ [] }
    {
        IdMap {
            entries: Vec::new(alloc),
        }
    }

    /// Puts a value at an id, and replaces an earlier one. If memory runs out, the map stays as it
    /// was.
    pub(crate) fn insert(&mut self, id: i64, value: V) -> Result<(), AllocError>
        ensures { MatchResult result (λ done. self.new ≡ put int_cmp id value self.old)
            (λ e. self.new ≡ self.old) }
    {
        let at = place_of(&self.entries, id);
        if stands_at(&self.entries, at, id) {
            self.entries[at].1 = value;
            return Ok(());
        }
        self.entries.insert(at, (id, value))?;
        Ok(())
    }

    /// The value at an id.
    pub(crate) fn get(&self, id: i64) -> Option<&V>
        ensures { option_copied result ≡ find int_cmp id self.now }
    {
        find_in(&self.entries, id)
    }
}

// The number of entries with smaller ids.
fn place_of<V>(entries: &[(i64, V)], id: i64) -> usize
    requires { T (is_sorted int_cmp entries.now) }
    ensures { IsPlace id entries.now result }
{
    let mut at = entries.len();
    while at > 0 {
        if entries[at - 1].0.cmp(&id).is_lt() {
            return at;
        }
        at -= 1;
    }
    at
}

// Whether the entry at a place has this id.
fn stands_at<V>(entries: &[(i64, V)], at: usize, id: i64) -> bool
    ensures within { IsTrue result → at < length entries.now }
    ensures first { result ≡ starts_with id (drop at entries.now) }
{
    at < entries.len() && entries[at].0.cmp(&id).is_eq()
}

// The value at an id, found by binary search.
fn find_in<V>(entries: &[(i64, V)], id: i64) -> Option<&V>
    requires { T (is_sorted int_cmp entries.now) }
    ensures { option_copied result ≡ find int_cmp id entries.now }
{
    let mut low = 0;
    let mut high = entries.len();
    while low < high {
        let middle = low + (high - low) / 2;
        match entries[middle].0.cmp(&id) {
            Ordering::Equal => return Some(&entries[middle].1),
            Ordering::Less => low = middle + 1,
            Ordering::Greater => high = middle,
        }
    }
    None
}
