//! Literals of lists and maps; `None` if a key is not of a key's kind.

ghost use Rattle.std.specs.Prelude.{◌≡◌, IfOk, is_some, map, option_map};
ghost use Rattle.cel_ops.specs.Collections.{list_literal, map_literal};
ghost use Rattle.cel_ops.specs.private.Gathering.{some_error};
ghost use Rattle.cel_value.specs.View.{answer_view};
ghost use Rattle.cel_meaning.specs.private.Plain.{are_pairs, is_key};

use cel_value::Answer;
use std::alloc::{AllocError, Global};

/// A list literal of these elements' answers.
pub(super) fn list_of(alloc: Global, operands: Vec<Answer>) -> Result<Option<Answer>, AllocError>
    ensures { IfOk result (λ found.
        option_map answer_view found ≡ list_literal (map answer_view operands.items)) }
{
    Ok(Some(cel_ops::make_list(alloc, operands)?))
}

/// A map literal of the answers of its keys and values, in turn.
pub(super) fn map_of(alloc: Global, operands: Vec<Answer>) -> Result<Option<Answer>, AllocError>
    ensures { IfOk result (λ found.
        option_map answer_view found ≡ map_literal (map answer_view operands.items)) }
{
    if !make_map(&operands) {
        return Ok(None);
    }
    Ok(Some(cel_ops::make_map(alloc, operands)?))
}

// Whether a map literal of these operands has an answer.
fn make_map(operands: &[Answer]) -> bool
    ensures { result ≡ is_some (map_literal (map answer_view operands.now)) }
{
    if has_error(operands) {
        return true;
    }
    are_pairs(operands)
}

fn has_error(operands: &[Answer]) -> bool
    ensures { result ≡ some_error (map answer_view operands.now) }
{
    for operand in operands {
        if operand.is_err() {
            return true;
        }
    }
    false
}

// Whether the operands are pairs, each with a key first.
fn are_pairs(operands: &[Answer]) -> bool
    ensures { result ≡ are_pairs (map answer_view operands.now) }
{
    match operands {
        [] => true,
        [key, _, others @ ..] => {
            if !is_key(key) {
                return false;
            }
            are_pairs(others)
        }
        _ => false,
    }
}

fn is_key(operand: &Answer) -> bool
    ensures { result ≡ is_key (answer_view operand.now) }
{
    match operand {
        Ok(value) => value.as_key().is_some(),
        Err(_) => false,
    }
}
