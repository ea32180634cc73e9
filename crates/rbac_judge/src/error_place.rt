//! The part of a condition that an error is from, in words for readers of an explanation. The part is found by
//! `evaluate_plainly`, whose contract says which it is. No contract mentions the words.

use attributes::Request;
use cel_meaning::{Place, Placed, Stopped, evaluate_plainly};
use cel_tree::Tree;
use cel_value::{Answer, Value};
use proto_wire::Refusal;
use rbac_policy::{WrittenCondition, written_condition};
use std::alloc::{AllocError, Global};
use std::sync::ArcStr;

// How many characters of a text are reported at most.
const SHOWN: usize = 100;

// How many steps the search for the part takes at most.
const MOST_STEPS: u64 = 10_000_000;

/// Where the error of a condition begins for the request, such as
/// `checked_condition.expr, node 7: no key "x-user"`. The condition is that of the policy of this number in the
/// filter's message. `None`: it has none, or it is no error.
pub fn place_of_error(
    alloc: Global,
    bytes: &[u8],
    number: usize,
    request: &Request,
) -> Result<Option<String>, AllocError> {
    match written_condition(alloc, bytes, number) {
        Ok(Some(condition)) => place_in_condition(alloc, &condition, request),
        Ok(None) => Ok(None),
        Err(Refusal::Memory) => Err(AllocError),
        Err(_) => Ok(None),
    }
}

fn place_in_condition(
    alloc: Global,
    condition: &WrittenCondition,
    request: &Request,
) -> Result<Option<String>, AllocError> {
    let name = match condition.is_checked {
        true => "checked_condition.expr",
        false => "condition",
    };
    match evaluate_plainly(alloc, &condition.checked.tree, request, &[], MOST_STEPS) {
        Ok(Some(Placed { place, .. })) => match place {
            Some(place) => Ok(Some(place_text(alloc, name, &place, request)?)),
            None => Ok(None),
        },
        Ok(None) => Ok(None),
        Err(Stopped::Memory) => Err(AllocError),
        Err(Stopped::OutOfSteps) => {
            let words = "the part is not found within 10000000 steps";
            Ok(Some(String::from_str(alloc, words)?))
        }
    }
}

// A part of a condition: its node, the turns that it is in, and what is wrong there. A node of the id 0 is not named.
fn place_text(
    alloc: Global,
    name: &str,
    place: &Place<'_>,
    request: &Request,
) -> Result<String, AllocError> {
    let words = words_of(alloc, place, request)?;
    let turns = turns_text(alloc, &place.turns)?;
    match id_of(place.part) {
        0 => format!(in alloc; "{name}{turns}: {words}"),
        id => format!(in alloc; "{name}, node {id}{turns}: {words}"),
    }
}

// The numbers of turns, those of the outermost comprehension first.
fn turns_text(alloc: Global, turns: &[usize]) -> Result<String, AllocError> {
    let mut text = String::new(alloc);
    for number in turns.iter().rev() {
        let turn = format!(in alloc; ", turn {number}")?;
        text.push_str(turn.as_str())?;
    }
    Ok(text)
}

// The id of a node.
fn id_of(tree: &Tree) -> i64 {
    match tree {
        Tree::Constant { id, .. } => *id,
        Tree::Ident { id, .. } => *id,
        Tree::Select { id, .. } => *id,
        Tree::Call { id, .. } => *id,
        Tree::List { id, .. } => *id,
        Tree::Map { id, .. } => *id,
        Tree::Comprehension { id, .. } => *id,
    }
}

// What is wrong at a part that is an error, though its operands are none.
fn words_of(alloc: Global, place: &Place<'_>, request: &Request) -> Result<String, AllocError> {
    match place.part {
        Tree::Constant { .. } | Tree::List { .. } => String::from_str(alloc, "an error"),
        Tree::Ident { name, .. } => words_of_attribute(alloc, name),
        Tree::Select { operand, field, .. } => words_of_select(alloc, operand, field),
        Tree::Call { function, args, .. } => {
            words_of_call(alloc, function.as_str(), args, place, request)
        }
        Tree::Map { .. } => String::from_str(alloc, "a map literal that repeats a key"),
        Tree::Comprehension { parts, .. } => {
            let variable = shown(alloc, parts.iter_var.as_str())?;
            format!(in alloc; "the comprehension with the variable {variable}")
        }
    }
}

// An attribute that the request lacks.
fn words_of_attribute(alloc: Global, name: &ArcStr) -> Result<String, AllocError> {
    let name = name.as_str();
    format!(in alloc; "no attribute {name}")
}

// A Select that is an error: of an attribute that the request lacks, or of a key that a map lacks.
fn words_of_select(alloc: Global, operand: &Tree, field: &ArcStr) -> Result<String, AllocError> {
    let field = field.as_str();
    match operand {
        Tree::Ident { name, .. } if is_root(name.as_str()) => {
            let root = name.as_str();
            format!(in alloc; "no attribute {root}.{field}")
        }
        _ => words_of_key(alloc, field),
    }
}

// Whether the name of a variable is a root of attributes, as `request`. A dotted name is that of an attribute.
fn is_root(name: &str) -> bool {
    !name.as_bytes().contains(&b'.')
}

// A call that is an error: of a key or an item that is not there, or of another function.
fn words_of_call(
    alloc: Global,
    function: &str,
    args: &[Tree],
    place: &Place<'_>,
    request: &Request,
) -> Result<String, AllocError> {
    if function == "_[_]" {
        if let [_, key] = args {
            let key = evaluate_plainly(alloc, key, request, &place.locals, MOST_STEPS);
            return words_of_index(alloc, &key);
        }
    }
    format!(in alloc; "the call of {function}")
}

// A key or an index that is not there.
fn words_of_index(
    alloc: Global,
    key: &Result<Option<Placed<'_>>, Stopped>,
) -> Result<String, AllocError> {
    match key {
        Ok(Some(placed)) => words_of_answer(alloc, &placed.answer),
        Ok(None) | Err(Stopped::OutOfSteps) => String::from_str(alloc, "no such key"),
        Err(Stopped::Memory) => Err(AllocError),
    }
}

fn words_of_answer(alloc: Global, key: &Answer) -> Result<String, AllocError> {
    match key {
        Ok(Value::Text(text)) => words_of_key(alloc, text.as_str()),
        Ok(Value::Int(number)) => format!(in alloc; "no item or key {number}"),
        Ok(Value::Uint(number)) => format!(in alloc; "no key {number}u"),
        Ok(Value::Bool(truth)) => format!(in alloc; "no key {truth}"),
        _ => String::from_str(alloc, "no such key"),
    }
}

// A key of a map that is not there.
fn words_of_key(alloc: Global, key: &str) -> Result<String, AllocError> {
    let key = shown(alloc, key)?;
    format!(in alloc; "no key {key}")
}

// The first characters of the text in quotes, and `..` if more follow.
fn shown(alloc: Global, text: &str) -> Result<String, AllocError> {
    match text.char_indices().nth(SHOWN) {
        Some((end, _)) => {
            let start = text.get(..end).unwrap_or("");
            format!(in alloc; "{start:?}..")
        }
        None => format!(in alloc; "{text:?}"),
    }
}
