//! The headers of a request: its field lines sorted by name, the values of one name joined.
ghost use Rattle.std.specs.Prelude.{◌≡◌, ℕ, List, ◌++◌, ◌∷◌, [], All, IfOk, OnOk, length};
ghost use Rattle.std.specs.Bool.{OnTrue};
ghost use Rattle.std.specs.FinMap.{entries};
ghost use Rattle.std.specs.Str.{bytes_eq};
ghost use Rattle.attributes.specs.Headers.{Entry, headers_of, name_cmp, values_of};
ghost use Rattle.attributes.specs.private.Headers.{AreSorted};
ghost use Rattle.attributes.specs.private.Parts.{AreFields, Begins, IsField, IsNext, IsPart, entries_in, entry_in, part_of};

use crate::part::{Part, bytes_at, join_values, text_at};
use std::alloc::{AllocError, Global};
use std::cmp::Ordering;
use std::mem;

/// A header: a name in lower case, and the values of all lines of that name, joined.
#[derive(Clone, Copy, Debug)]
pub(crate) struct Field {
    /// The first bytes of the name, a hint for the search; no contract mentions it.
    pub(crate) start: u64,
    pub(crate) name: Part,
    pub(crate) value: Part,
}

/// Sorts by name; fields of one name keep their order.
pub(crate) fn sort_by_name(text: &[u8], fields: &mut Vec<Field>) -> Result<(), AllocError>
    ensures sorted { OnOk result (AreSorted (entries_in text.now fields.new.items)) }
    ensures stable { (name : List ℕ) → values_of name (entries_in text.now fields.new.items)
        ≡ values_of name (entries_in text.now fields.old.items) }
    ensures parts { AreFields text.now fields.old.items → AreFields text.now fields.new.items }
{
    fields.sort_by(|a, b| compare(text, a, b))
}

// The order of two names.
fn compare(text: &[u8], a: &Field, b: &Field) -> Ordering
    ensures { result ≡ name_cmp (part_of text.now a.now.name) (part_of text.now b.now.name) }
{
    let a = bytes_at(text, a.name);
    let b = bytes_at(text, b.name);
    a.cmp(&b)
}

/// Joins neighbours of one name. Joined values are appended to the text. If each field has a name of
/// its own, these fields are the result.
pub(crate) fn join_sorted(
    alloc: Global,
    text: &mut Vec<u8>,
    fields: Vec<Field>,
) -> Result<Vec<Field>, AllocError>
    requires parts { AreFields text.old.items fields.items }
    requires sorted { AreSorted (entries_in text.old.items fields.items) }
    ensures parts { IfOk result (λ joined. AreFields text.new.items joined.items) }
    ensures joined { IfOk result (λ joined. entries_in text.new.items joined.items
        ≡ entries (headers_of (entries_in text.old.items fields.items))) }
{
    if are_distinct(text.as_slice(), fields.as_slice()) {
        return Ok(fields);
    }
    join_neighbours(alloc, text, fields.as_slice())
}

// Whether no two neighbours have one name.
fn are_distinct(text: &[u8], fields: &[Field]) -> bool
    requires parts { AreFields text.now fields.now }
    requires sorted { AreSorted (entries_in text.now fields.now) }
    ensures { OnTrue result (entries_in text.now fields.now
        ≡ entries (headers_of (entries_in text.now fields.now))) }
{
    match fields.split_first() {
        Some((first, others)) => are_distinct_from(text, *first, others),
        None => true,
    }
}

// Whether no two neighbours of the first field and the others have one name.
fn are_distinct_from(text: &[u8], first: Field, others: &[Field]) -> bool
    requires first { IsField text.now first }
    requires others { AreFields text.now others.now }
    requires sorted { AreSorted (entries_in text.now (first ∷ others.now)) }
    ensures { OnTrue result (entries_in text.now (first ∷ others.now)
        ≡ entries (headers_of (entries_in text.now (first ∷ others.now)))) }
{
    let mut last = first;
    for next in others {
        if has_name(text, last, *next) {
            return false;
        }
        last = *next;
    }
    true
}

// Joins neighbours of one name, as a list of their own.
fn join_neighbours(
    alloc: Global,
    text: &mut Vec<u8>,
    fields: &[Field],
) -> Result<Vec<Field>, AllocError>
    requires parts { AreFields text.old.items fields.now }
    requires sorted { AreSorted (entries_in text.old.items fields.now) }
    ensures parts { IfOk result (λ joined. AreFields text.new.items joined.items) }
    ensures joined { IfOk result (λ joined. entries_in text.new.items joined.items
        ≡ entries (headers_of (entries_in text.old.items fields.now))) }
{
    let mut joined = Vec::with_capacity(alloc, fields.len())?;
    let Some((first, others)) = fields.split_first() else {
        return Ok(joined);
    };
    let mut last = *first;
    join_others(text, &mut joined, &mut last, others)?;
    joined.push(last)?;
    Ok(joined)
}

// Joins the other fields to those before them.
fn join_others(
    text: &mut Vec<u8>,
    joined: &mut Vec<Field>,
    last: &mut Field,
    others: &[Field],
) -> Result<(), AllocError>
    requires parts { AreFields text.old.items joined.old.items }
    requires last { IsField text.old.items last.old }
    requires others { AreFields text.old.items others.now }
    requires sorted { AreSorted (entries_in text.old.items (last.old ∷ others.now)) }
    ensures parts { OnOk result (AreFields text.new.items joined.new.items) }
    ensures last { OnOk result (IsField text.new.items last.new) }
    ensures joined { (es : List Entry)
        → entries_in text.old.items joined.old.items ++ entry_in text.old.items last.old ∷ []
        ≡ entries (headers_of es)
        → OnOk result (entries_in text.new.items joined.new.items
        ++ entry_in text.new.items last.new ∷ []
        ≡ entries (headers_of (es ++ entries_in text.old.items others.now))) }
{
    for next in others {
        join_next(text, joined, last, *next)?;
    }
    Ok(())
}

// Joins the next field to the last one if both have one name. If not, the next field is the last.
fn join_next(
    text: &mut Vec<u8>,
    joined: &mut Vec<Field>,
    last: &mut Field,
    next: Field,
) -> Result<(), AllocError>
    requires parts { AreFields text.old.items joined.old.items }
    requires last { IsField text.old.items last.old }
    requires next { IsField text.old.items next }
    requires ordered { IsNext (entry_in text.old.items last.old) (entry_in text.old.items next) }
    ensures grown { Begins text.old.items text.new.items }
    ensures parts { OnOk result (AreFields text.new.items joined.new.items) }
    ensures last { OnOk result (IsField text.new.items last.new) }
    ensures name { OnOk result (part_of text.new.items last.new.name
        ≡ part_of text.old.items next.name) }
    ensures joined { (es : List Entry)
        → entries_in text.old.items joined.old.items ++ entry_in text.old.items last.old ∷ []
        ≡ entries (headers_of es)
        → OnOk result (entries_in text.new.items joined.new.items
        ++ entry_in text.new.items last.new ∷ []
        ≡ entries (headers_of (es ++ entry_in text.old.items next ∷ []))) }
{
    if has_name(text.as_slice(), *last, next) {
        last.value = join_values(text, last.value, next.value)?;
    } else {
        joined.push(mem::replace(last, next))?;
    }
    Ok(())
}

// Whether both fields have one name.
fn has_name(text: &[u8], last: Field, next: Field) -> bool
    requires last { IsPart text.now last.name }
    requires next { IsPart text.now next.name }
    ensures { result ≡ bytes_eq (part_of text.now next.name) (part_of text.now last.name) }
{
    text_at(text, next.name) == text_at(text, last.name)
}
