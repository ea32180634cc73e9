//! Operations on one operand; `None` if its kind does not fit.

ghost use Rattle.std.specs.Prelude.{◌≡◌, IfOk, Some, option_map};
ghost use Rattle.cel_ops.specs.Arithmetic.{opposite};
ghost use Rattle.cel_ops.specs.Collections.{field, has_field, size};
ghost use Rattle.cel_ops.specs.Conversions.{conversion, text_of_int, text_of_uint};
ghost use Rattle.cel_ops.specs.Strict.{strict};
ghost use Rattle.cel_ops.specs.declared.conversion.Conversion.TheVariants.{IntToUint, TextToBytes, UintToInt};
ghost use Rattle.cel_overload.specs.Answers.{text_conversion_of};
ghost use Rattle.cel_ops.specs.Logic.{logical_not, not_strictly_false};
ghost use Rattle.cel_value.specs.Texts.{text_view};
ghost use Rattle.cel_value.specs.View.{answer_view};

use cel_ops::{Conversion, convert};
use cel_value::{Answer, Value};
use std::alloc::{AllocError, Global};
use std::sync::ArcStr;

/// `!`.
pub(super) fn logical_not(operand: &Answer) -> Option<Answer>
    ensures { option_map answer_view result ≡ logical_not (answer_view operand.now) }
{
    match operand {
        Ok(Value::Bool(_)) => Some(cel_ops::logical_not(operand)),
        Ok(_) => None,
        Err(error) => Some(Err(*error)),
    }
}

/// `@not_strictly_false`.
pub(super) fn not_strictly_false(operand: &Answer) -> Option<Answer>
    ensures { option_map answer_view result ≡ not_strictly_false (answer_view operand.now) }
{
    match operand {
        Ok(Value::Bool(_)) => Some(cel_ops::not_strictly_false(operand)),
        Ok(_) => None,
        Err(_) => Some(cel_ops::not_strictly_false(operand)),
    }
}

/// `-` before an int.
pub(super) fn negate(operand: &Answer) -> Option<Answer>
    ensures { option_map answer_view result ≡ opposite (answer_view operand.now) }
{
    match operand {
        Ok(Value::Int(_)) => Some(cel_ops::negate(operand)),
        Ok(_) => None,
        Err(error) => Some(Err(*error)),
    }
}

/// `size`.
pub(super) fn size(operand: &Answer) -> Option<Answer>
    ensures { option_map answer_view result ≡ size (answer_view operand.now) }
{
    match operand {
        Ok(Value::Text(_)) => Some(cel_ops::size(operand)),
        Ok(Value::Bytes(_)) => Some(cel_ops::size(operand)),
        Ok(Value::List(_)) => Some(cel_ops::size(operand)),
        Ok(Value::Map(_)) => Some(cel_ops::size(operand)),
        Ok(_) => None,
        Err(error) => Some(Err(*error)),
    }
}

/// `int`.
pub(super) fn to_int(alloc: Global, operand: &Answer) -> Result<Option<Answer>, AllocError>
    ensures { IfOk result (λ found.
        option_map answer_view found ≡ conversion UintToInt (answer_view operand.now)) }
{
    match operand {
        Ok(Value::Uint(_)) => Ok(Some(convert(alloc, Conversion::UintToInt, operand)?)),
        Ok(_) => Ok(None),
        Err(error) => Ok(Some(Err(*error))),
    }
}

/// `uint`.
pub(super) fn to_uint(alloc: Global, operand: &Answer) -> Result<Option<Answer>, AllocError>
    ensures { IfOk result (λ found.
        option_map answer_view found ≡ conversion IntToUint (answer_view operand.now)) }
{
    match operand {
        Ok(Value::Int(_)) => Ok(Some(convert(alloc, Conversion::IntToUint, operand)?)),
        Ok(_) => Ok(None),
        Err(error) => Ok(Some(Err(*error))),
    }
}

/// `string`.
pub(super) fn to_text(alloc: Global, operand: &Answer) -> Result<Option<Answer>, AllocError>
    ensures { IfOk result (λ found.
        option_map answer_view found ≡ strict text_conversion_of (answer_view operand.now)) }
{
    match operand {
        Ok(Value::Int(i)) => Ok(Some(int_text(alloc, *i)?)),
        Ok(Value::Uint(n)) => Ok(Some(uint_text(alloc, *n)?)),
        Ok(Value::Bytes(_)) => Ok(Some(convert(alloc, Conversion::BytesToText, operand)?)),
        Ok(_) => Ok(None),
        Err(error) => Ok(Some(Err(*error))),
    }
}

fn int_text(alloc: Global, i: i64) -> Result<Answer, AllocError>
    ensures { IfOk result (λ answer. Some (answer_view answer) ≡ text_of_int i) }
{
    let operand = Ok(Value::Int(i));
    convert(alloc, Conversion::IntToText, &operand)
}

fn uint_text(alloc: Global, n: u64) -> Result<Answer, AllocError>
    ensures { IfOk result (λ answer. Some (answer_view answer) ≡ text_of_uint n) }
{
    let operand = Ok(Value::Uint(n));
    convert(alloc, Conversion::UintToText, &operand)
}

/// `bytes`.
pub(super) fn to_bytes(alloc: Global, operand: &Answer) -> Result<Option<Answer>, AllocError>
    ensures { IfOk result (λ found.
        option_map answer_view found ≡ conversion TextToBytes (answer_view operand.now)) }
{
    match operand {
        Ok(Value::Text(_)) => Ok(Some(convert(alloc, Conversion::TextToBytes, operand)?)),
        Ok(_) => Ok(None),
        Err(error) => Ok(Some(Err(*error))),
    }
}

/// `m.name`.
pub(super) fn select_field(name: &ArcStr, operand: &Answer) -> Result<Option<Answer>, AllocError>
    ensures { IfOk result (λ found.
        option_map answer_view found ≡ field (text_view name.now) (answer_view operand.now)) }
{
    match operand {
        Ok(Value::Map(map)) => {
            if !map.rises() {
                return Ok(None);
            }
            Ok(Some(cel_ops::select_field(name, operand)?))
        }
        Ok(_) => Ok(None),
        Err(error) => Ok(Some(Err(*error))),
    }
}

/// `has(m.name)`.
pub(super) fn has_field(name: &ArcStr, operand: &Answer) -> Option<Answer>
    ensures { option_map answer_view result ≡ has_field (text_view name.now) (answer_view operand.now) }
{
    match operand {
        Ok(Value::Map(map)) => {
            if !map.rises() {
                return None;
            }
            Some(cel_ops::has_field(name, operand))
        }
        Ok(_) => None,
        Err(error) => Some(Err(*error)),
    }
}
