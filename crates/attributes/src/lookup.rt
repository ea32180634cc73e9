//! Headers by ascending name, and the search for a name.
ghost use Rattle.std.specs.Prelude.{◌≡◌, ◌<◌, ◌≤◌, ◌+◌, ◌++◌, ◌-◌, ◌↔◌, ℕ, List, All, IfOk, IfSome, IsSome, IsTrue, IsUtf8, None, Some, length, option_map, slice_get};
ghost use Rattle.std.specs.FinMap.{find, is_sorted};
ghost use Rattle.std.specs.List.Sorted.{IsSearchInRange};
ghost use Rattle.attributes.specs.Headers.{Entry, header_view, headers_view, name_cmp};
ghost use Rattle.attributes.specs.Request.{IsTextEntry};
ghost use Rattle.attributes.specs.private.Headers.{AreBefore, AreBehind, IsPlace};
ghost use Rattle.attributes.specs.private.Parts.{AreFields, AreKept, IsField, IsPart, IsSpot, IsSpotOf, entries_in, entry_in, part_of, spot_of};
ghost use Rattle.attributes.specs.private.Request.{lent_entry, lent_view};

use crate::headers::Field;
use crate::part::{Part, Spot, bytes_at, text_at};
use std::alloc::{AllocError, Global};
use std::cmp::Ordering;
use std::marker::Model;
use std::sync::{Arc, ArcStr};

/// A header: a name in lower case, and the values of all lines of that name, joined.
pub type Header = (ArcStr, ArcStr);

/// Headers by ascending name, each name once. Their texts are parts of one text.
#[derive(Debug, Drop)]
pub struct Headers {
    text: Vec<u8>,
    fields: Vec<Field>,
}

impl Model for Headers {
    ghost use Rattle.std.specs.Prelude.{List};
    ghost use Rattle.attributes.specs.Headers.{Entry};
    ghost use Rattle.attributes.specs.private.Parts.{AreKept, entries_in};

    ghost Value = { List Entry };

    ghost view = { λ h. entries_in h.text.items h.fields.items };

    ghost invariant = { λ h. AreKept h.text.items h.fields.items };
}

impl Headers {
    pub(crate) fn new(text: Vec<u8>, fields: Vec<Field>) -> Headers
        requires { AreKept text.items fields.items }
        ensures { result ≡ entries_in text.items fields.items }
    {
        Headers { text, fields }
    }

    /// The number of names.
    pub fn len(&self) -> usize
        ensures { result ≡ length self.now }
    {
        self.fields.len()
    }

    /// The header at this index: its name and its value.
    #[inline(always)]
    pub fn get(&self, index: usize) -> Option<(&str, &str)>
        ensures { option_map (λ e. (e.0.now, e.1.now)) result ≡ slice_get self.now index }
    {
        get_field(self.text.as_slice(), self.fields.as_slice(), index)
    }

    /// A copy of the names with their values, to be kept.
    pub fn to_pairs(&self, alloc: Global) -> Result<Arc<Vec<Header>>, AllocError>
        ensures { IfOk result (λ pairs. headers_view pairs.value.items ≡ self.now) }
    {
        let pairs = copy_fields(alloc, self.text.as_slice(), self.fields.as_slice())?;
        Ok(Arc::new(alloc, pairs)?)
    }

    /// The value of the header of this name.
    pub fn find(&self, name: &str) -> Option<&str>
        ensures value { option_map (λ text. text.now) result ≡ find name_cmp name.now self.now }
        ensures texts { All IsTextEntry self.now }
    {
        find_value(self.text.as_slice(), self.fields.as_slice(), name)
    }

    /// Whether each name and each value has at most so many bytes.
    pub(crate) fn are_within(&self, name: usize, value: usize) -> bool
        ensures { IsTrue result
            ↔ All (λ e. (length e.0 ≤ name) × (length e.1 ≤ value)) self.now }
    {
        are_short(self.fields.as_slice(), name, value)
    }

    /// Where the last bytes of the value of this name are, so many of them. The header at the index
    /// `likely` is tried first.
    pub(crate) fn end_of(&self, name: &str, likely: usize, count: usize) -> Spot
        requires { IsSome (find name_cmp name.now self.now) }
        ensures { (front end : List ℕ) → find name_cmp name.now self.now ≡ Some (front ++ end)
            → count ≡ length end → IsUtf8 end → IsSpotOf self.now result end }
    {
        let fields = self.fields.as_slice();
        match likely_place(self.text.as_slice(), fields, likely, name) {
            Ok(index) => end_at(fields[index].value, index, count),
            Err(_) => unreachable!(),
        }
    }

    /// The text of a part of a value.
    #[inline(always)]
    pub(crate) fn text_of(&self, spot: Spot) -> &str
        requires { IsSpot self.now spot }
        ensures { result.now ≡ spot_of self.now spot }
    {
        let value = self.fields[spot.index].value;
        let part = Part {
            from: value.from + spot.from,
            to: value.from + spot.to,
        };
        text_at(self.text.as_slice(), part)
    }
}

// The name and the value of the header at this index.
#[inline(always)]
fn get_field<'a>(text: &'a [u8], fields: &[Field], index: usize) -> Option<(&'a str, &'a str)>
    requires { AreFields text.now fields.now }
    ensures { lent_entry result ≡ slice_get (entries_in text.now fields.now) index }
{
    if index < fields.len() {
        let field = &fields[index];
        return Some((text_at(text, field.name), text_at(text, field.value)));
    }
    None
}

// The value of the header of this name.
fn find_value<'a>(text: &'a [u8], fields: &[Field], name: &str) -> Option<&'a str>
    requires { AreKept text.now fields.now }
    ensures { lent_view result ≡ find name_cmp name.now (entries_in text.now fields.now) }
{
    let start = start_of(name);
    match fields.binary_search_by(|field| field.start.cmp(&start)) {
        Ok(place) => {
            if let Some(value) = value_at(text, fields, place, name) {
                return Some(value);
            }
        }
        Err(place) => {
            if is_gap(text, fields, place, name) {
                return None;
            }
        }
    }
    find_header(text, fields, name)
}

// The value of the header of this name, by a search among the names.
fn find_header<'a>(text: &'a [u8], fields: &[Field], name: &str) -> Option<&'a str>
    requires { AreKept text.now fields.now }
    ensures { lent_view result ≡ find name_cmp name.now (entries_in text.now fields.now) }
{
    match find_place(text, fields, name) {
        Ok(index) => Some(text_at(text, fields[index].value)),
        Err(_) => None,
    }
}

// The place of the name; if it is absent, the place where it would be inserted.
fn find_place(text: &[u8], fields: &[Field], name: &str) -> Result<usize, usize>
    ensures bound { IsSearchInRange result (length fields.now) }
    ensures place { IsTrue (is_sorted name_cmp (entries_in text.now fields.now))
        → IsPlace name.now (entries_in text.now fields.now) result }
{
    fields.binary_search_by(|field| compare_name(text, field, name))
}

// The place of the name. The field at the index `likely` is tried first.
fn likely_place(text: &[u8], fields: &[Field], likely: usize, name: &str) -> Result<usize, usize>
    requires { AreKept text.now fields.now }
    ensures bound { IsSearchInRange result (length fields.now) }
    ensures place { IsPlace name.now (entries_in text.now fields.now) result }
{
    if let Some(field) = fields.get(likely)
        && text_at(text, field.name) == name
    {
        return Ok(likely);
    }
    find_place(text, fields, name)
}

// The order of the field's name and this one.
fn compare_name(text: &[u8], field: &Field, name: &str) -> Ordering
    ensures { result ≡ name_cmp (part_of text.now field.now.name) name.now }
{
    let own = bytes_at(text, field.name);
    let other = name.as_bytes();
    own.cmp(&other)
}

// The last bytes of a header's value, so many of them.
fn end_at(value: Part, index: usize, count: usize) -> Spot
    ensures { result ≡ (record {
      index = index;
      from = (value.to - value.from) - count;
      to = value.to - value.from;
    }) }
{
    let to = value.len();
    Spot {
        index,
        from: to.saturating_sub(count),
        to,
    }
}

// The value of the header at this place, if the header has this name.
fn value_at<'a>(text: &'a [u8], fields: &[Field], place: usize, name: &str) -> Option<&'a str>
    requires { AreKept text.now fields.now }
    ensures { IfSome result (λ value.
        Some value.now ≡ find name_cmp name.now (entries_in text.now fields.now)) }
{
    let field = fields.get(place)?;
    if text_at(text, field.name) == name {
        return Some(text_at(text, field.value));
    }
    None
}

// Whether the name is absent, and would be inserted at this place.
fn is_gap(text: &[u8], fields: &[Field], place: usize, name: &str) -> bool
    requires { AreKept text.now fields.now }
    ensures { IsTrue result → find name_cmp name.now (entries_in text.now fields.now) ≡ None }
{
    if place > fields.len() {
        return false;
    }
    if !all_before(text, fields, place, name) {
        return false;
    }
    all_behind(text, fields, place, name)
}

// Whether the names before this place are less than the name; tests only the last of them.
fn all_before(text: &[u8], fields: &[Field], place: usize, name: &str) -> bool
    requires kept { AreKept text.now fields.now }
    requires fits { place ≤ length fields.now }
    ensures { IsTrue result → AreBefore place name.now (entries_in text.now fields.now) }
{
    if place == 0 {
        return true;
    }
    compare_name(text, &fields[place - 1], name).is_lt()
}

// Whether the names from this place on are greater than the name; tests only the first of them.
fn all_behind(text: &[u8], fields: &[Field], place: usize, name: &str) -> bool
    requires kept { AreKept text.now fields.now }
    requires fits { place ≤ length fields.now }
    ensures { IsTrue result → AreBehind place name.now (entries_in text.now fields.now) }
{
    if place == fields.len() {
        return true;
    }
    compare_name(text, &fields[place], name).is_gt()
}

// Whether each name and each value has at most so many bytes.
fn are_short(fields: &[Field], name: usize, value: usize) -> bool
    ensures { IsTrue result ↔ All (λ field. (field.name.to - field.name.from ≤ name)
        × (field.value.to - field.value.from ≤ value)) fields.now }
{
    fields.iter().all(|field| field.name.len() <= name && field.value.len() <= value)
}

// The names with their values, as texts of their own.
fn copy_fields(alloc: Global, text: &[u8], fields: &[Field]) -> Result<Vec<Header>, AllocError>
    requires { AreFields text.now fields.now }
    ensures { IfOk result (λ pairs.
        headers_view pairs.items ≡ entries_in text.now fields.now) }
{
    let mut pairs = Vec::with_capacity(alloc, fields.len())?;
    for field in fields {
        pairs.push(copy_field(alloc, text, field)?)?;
    }
    Ok(pairs)
}

fn copy_field(alloc: Global, text: &[u8], field: &Field) -> Result<Header, AllocError>
    requires { IsField text.now field.now }
    ensures { IfOk result (λ pair. header_view pair ≡ entry_in text.now field.now) }
{
    let name = ArcStr::from_str(alloc, text_at(text, field.name))?;
    let value = ArcStr::from_str(alloc, text_at(text, field.value))?;
    Ok((name, value))
}

/// The first eight bytes of a name as a number, which ascends as names do. A shorter name is filled
/// with zeros.
#[inline(always)]
pub(crate) fn start_of(name: &str) -> u64 {
    let bytes = name.as_bytes();
    match bytes.first_chunk::<8>() {
        Some(first) => u64::from_be_bytes(*first),
        None => short_start(bytes),
    }
}

// The same for fewer than eight bytes.
#[inline(always)]
fn short_start(bytes: &[u8]) -> u64
    requires { length bytes.now < 8 }
{
    match (bytes.first_chunk::<4>(), bytes.last_chunk::<4>()) {
        (Some(first), Some(last)) => {
            let first = u64::from(u32::from_be_bytes(*first));
            let last = u64::from(u32::from_be_bytes(*last));
            let behind = (last << (8 * (8 - bytes.len()))) & 0xffff_ffff;
            (first << 32) | behind
        }
        _ => (byte_at(bytes, 0) << 56) | (byte_at(bytes, 1) << 48) | (byte_at(bytes, 2) << 40),
    }
}

// The byte at this place, or 0 past the end.
#[inline(always)]
fn byte_at(bytes: &[u8], place: usize) -> u64 {
    match bytes.get(place) {
        Some(byte) => u64::from(*byte),
        None => 0,
    }
}
