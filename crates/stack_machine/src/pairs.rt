//! The pairs that loops of two variables go over: an index and an item, or a key and a value.

ghost use Rattle.std.specs.Prelude.{◌≡◌, IfOk, Ok, Some, option_map, pos, slice_get, zero};
ghost use Rattle.cel_value.specs.View.{answer_view, entries_view, map_view, pairs_view, value_view, values_view};
ghost use Rattle.cel_ops.specs.Arithmetic.{int_answer};
ghost use Rattle.cel_ops.specs.Attributes.{header_entries};
ghost use Rattle.cel_ops.specs.Collections.{keyed, numbered};
ghost use Rattle.stack_machine.specs.private.Operands.{operand_view};
ghost use Rattle.stack_machine.specs.private.Pairs.{pair_answers, pair_view};

use crate::operand::Operand;
use attributes::Headers;
use cel_value::{CelError, Key, Map, Value};
use std::alloc::AllocError;
use std::sync::ArcStr;

/// An item of a list with its index.
pub(crate) fn item_pair<'a>(
    items: &[Value],
    index: usize,
) -> Result<Option<(Operand<'a>, Operand<'a>)>, AllocError>
    ensures { IfOk result (λ found. option_map pair_view found
        ≡ option_map pair_answers (slice_get (numbered zero (values_view items.now)) index)) }
{
    if index < items.len() {
        let item = hold_item(&items[index])?;
        return Ok(Some((hold_index(index), item)));
    }
    Ok(None)
}

/// An item of a list, as a result.
#[inline(always)]
pub(crate) fn hold_item<'a>(item: &Value) -> Result<Operand<'a>, AllocError>
    ensures { IfOk result (λ operand. operand_view operand ≡ answer_view (Ok item.now)) }
{
    match item {
        Value::Bool(b) => Ok(Operand::Bool(*b)),
        Value::Int(i) => Ok(Operand::Int(*i)),
        Value::Uint(n) => Ok(Operand::Uint(*n)),
        _ => Ok(Operand::of_value(item.copy()?)),
    }
}

// An index as an int, `Overflow` above 2^63 - 1.
fn hold_index<'a>(index: usize) -> Operand<'a>
    ensures { operand_view result ≡ int_answer (pos index) }
{
    match i64::try_from(index) {
        Ok(number) => Operand::Int(number),
        Err(_) => Operand::Fails(CelError::Overflow),
    }
}

/// The value of a map at an index in the order of its keys, with its key.
pub(crate) fn map_pair<'a>(
    map: &Map,
    index: usize,
) -> Result<Option<(Operand<'a>, Operand<'a>)>, AllocError>
    ensures { IfOk result (λ found. option_map pair_view found
        ≡ option_map pair_answers (slice_get (keyed (map_view map.now)) index)) }
{
    match map {
        Map::Entries(entries) => entry_pair(entries, index),
        Map::Texts(pairs) => text_pair(pairs, index),
    }
}

fn entry_pair<'a>(
    entries: &[(Key, Value)],
    index: usize,
) -> Result<Option<(Operand<'a>, Operand<'a>)>, AllocError>
    ensures { IfOk result (λ found. option_map pair_view found
        ≡ option_map pair_answers (slice_get (keyed (entries_view entries.now)) index)) }
{
    if index < entries.len() {
        let entry = &entries[index];
        let key = Operand::of_value(Value::from(entry.0.copy()?));
        let value = hold_item(&entry.1)?;
        return Ok(Some((key, value)));
    }
    Ok(None)
}

fn text_pair<'a>(
    pairs: &[(ArcStr, ArcStr)],
    index: usize,
) -> Result<Option<(Operand<'a>, Operand<'a>)>, AllocError>
    ensures { IfOk result (λ found. option_map pair_view found
        ≡ option_map pair_answers (slice_get (keyed (pairs_view pairs.now)) index)) }
{
    if index < pairs.len() {
        let pair = &pairs[index];
        let name = Operand::Text(pair.0.clone()?);
        let value = Operand::Text(pair.1.clone()?);
        return Ok(Some((name, value)));
    }
    Ok(None)
}

/// The name and the value of a header at an index, lent.
#[inline(always)]
pub(crate) fn header_pair(headers: &Headers, index: usize) -> Option<(Operand<'_>, Operand<'_>)>
    ensures { option_map pair_view result
        ≡ option_map pair_answers (slice_get (keyed (header_entries headers.now)) index) }
{
    match headers.get(index) {
        Some((name, value)) => Some((Operand::Part(name), Operand::Part(value))),
        None => None,
    }
}
