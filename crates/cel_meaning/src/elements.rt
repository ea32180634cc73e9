//! What comprehensions' variables get in each turn.

ghost use Rattle.std.specs.Prelude.{◌≡◌, ◌≢◌, IfOk, None, Some, map, option_map, pos};
ghost use Rattle.cel_ops.specs.Arithmetic.{int_answer};
ghost use Rattle.cel_ops.specs.Collections.{elements_of, keyed, numbered};
ghost use Rattle.cel_value.specs.View.{answer_view, entries_view, map_view, pairs_view, value_view, values_view};
ghost use Rattle.cel_types.specs.Meaning.{one_each, turns_of};
ghost use Rattle.cel_meaning.specs.private.Plain.{keyed_turns, turn_view};

use cel_ops::element_at;
use cel_types::Variables;
use cel_value::{Answer, CelError, Key, Map, Value};
use std::alloc::{AllocError, Global};
use std::sync::ArcStr;

/// What the variables of a comprehension get in one turn.
#[derive(Drop)]
pub(super) struct Turn {
    /// The index or the key, if there are two variables.
    pub(super) key: Option<Answer>,
    /// The element of the one variable, or the item or the value.
    pub(super) value: Value,
}

/// What the variables get in each turn over a range; none if it is neither a list nor a map.
pub(super) fn turns_of(
    alloc: Global,
    variables: Variables,
    range: &Value,
) -> Result<Option<Vec<Turn>>, AllocError>
    ensures { IfOk result (λ found. option_map (λ v. map turn_view v.items) found
        ≡ turns_of variables (value_view range.now)) }
{
    match (variables, range) {
        (Variables::One, Value::List(_)) => Ok(Some(element_turns(alloc, range)?)),
        (Variables::One, Value::Map(_)) => Ok(Some(element_turns(alloc, range)?)),
        (Variables::Two, Value::List(items)) => Ok(Some(item_turns(alloc, items)?)),
        (Variables::Two, Value::Map(map)) => Ok(Some(map_turns(alloc, map)?)),
        (_, _) => Ok(None),
    }
}

fn element_turns(alloc: Global, range: &Value) -> Result<Vec<Turn>, AllocError>
    requires { elements_of (value_view range.now) ≢ None }
    ensures { IfOk result (λ turns.
        Some (map turn_view turns.items) ≡ option_map one_each (elements_of (value_view range.now))) }
{
    let elements = take_elements(alloc, range)?;
    one_each(alloc, &elements)
}

// A turn for each element.
fn one_each(alloc: Global, elements: &[Value]) -> Result<Vec<Turn>, AllocError>
    ensures { IfOk result (λ turns. map turn_view turns.items ≡ one_each (values_view elements.now)) }
{
    let mut turns = Vec::new(alloc);
    for element in elements {
        turns.push(Turn {
            key: None,
            value: element.copy()?,
        })?;
    }
    Ok(turns)
}

// A turn for each item, with its index.
fn item_turns(alloc: Global, items: &[Value]) -> Result<Vec<Turn>, AllocError>
    ensures { IfOk result (λ turns. map turn_view turns.items ≡ keyed_turns (numbered 0 (values_view items.now))) }
{
    let mut turns = Vec::new(alloc);
    for index in 0..items.len() {
        turns.push(Turn {
            key: Some(index_answer(index)),
            value: items[index].copy()?,
        })?;
    }
    Ok(turns)
}

// An index as an int, `Overflow` above 2^63 - 1.
fn index_answer(index: usize) -> Answer
    ensures { answer_view result ≡ int_answer (pos index) }
{
    match i64::try_from(index) {
        Ok(number) => Ok(Value::Int(number)),
        Err(_) => Err(CelError::Overflow),
    }
}

// A turn for each value, with its key.
fn map_turns(alloc: Global, entries: &Map) -> Result<Vec<Turn>, AllocError>
    ensures { IfOk result (λ turns. map turn_view turns.items ≡ keyed_turns (keyed (map_view entries.now))) }
{
    match entries {
        Map::Entries(pairs) => entry_turns(alloc, pairs),
        Map::Texts(pairs) => text_turns(alloc, pairs),
    }
}

fn entry_turns(alloc: Global, entries: &[(Key, Value)]) -> Result<Vec<Turn>, AllocError>
    ensures { IfOk result (λ turns. map turn_view turns.items ≡ keyed_turns (keyed (entries_view entries.now))) }
{
    let mut turns = Vec::new(alloc);
    for entry in entries {
        turns.push(Turn {
            key: Some(Ok(Value::from(entry.0.copy()?))),
            value: entry.1.copy()?,
        })?;
    }
    Ok(turns)
}

fn text_turns(alloc: Global, pairs: &[(ArcStr, ArcStr)]) -> Result<Vec<Turn>, AllocError>
    ensures { IfOk result (λ turns. map turn_view turns.items ≡ keyed_turns (keyed (pairs_view pairs.now))) }
{
    let mut turns = Vec::new(alloc);
    for pair in pairs {
        turns.push(Turn {
            key: Some(Ok(Value::Text(pair.0.clone()?))),
            value: Value::Text(pair.1.clone()?),
        })?;
    }
    Ok(turns)
}

// The items of a list, or the keys of a map in ascending order.
fn take_elements(alloc: Global, range: &Value) -> Result<Vec<Value>, AllocError>
    requires { elements_of (value_view range.now) ≢ None }
    ensures { IfOk result (λ items.
        elements_of (value_view range.now) ≡ Some (values_view items.items)) }
{
    let mut items = Vec::new(alloc);
    while let Some(item) = element_at(range, items.len())? {
        items.push(item)?;
    }
    Ok(items)
}
