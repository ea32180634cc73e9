//! Operations on two operands; `None` if their kinds do not fit.

ghost use Rattle.std.specs.Prelude.{◌≡◌, IfOk, is_some, option_map};
ghost use Rattle.cel_ops.specs.Arithmetic.{arithmetic, arithmetic_of};
ghost use Rattle.cel_ops.specs.Collections.{at_key};
ghost use Rattle.cel_ops.specs.Comparison.{comparison, comparison_of, order_of};
ghost use Rattle.cel_ops.specs.Logic.{conjunction, disjunction};
ghost use Rattle.cel_ops.specs.Parts.{joined, joined_of, text_test, text_test_of};
ghost use Rattle.cel_ops.specs.Strict.{strict_two};
ghost use Rattle.cel_ops.specs.declared.arithmetic.ArithmeticOp.{ArithmeticOp};
ghost use Rattle.cel_ops.specs.declared.texts.TextTest.{TextTest};
ghost use Rattle.cel_overload.specs.Answers.{addition_of, in_of, index_of};
ghost use Rattle.cel_value.specs.Keys.{key_of_value};
ghost use Rattle.cel_value.specs.Values.{CelAnswer, CelEntries, CelKey};
ghost use Rattle.cel_value.specs.View.{answer_view, map_view, value_view};

use cel_ops::{ArithmeticOp, CompareOp, TextTest};
use cel_value::{Answer, Map, Value};
use std::alloc::{AllocError, Global};

/// `&&`.
pub(super) fn conjunction(left: &Answer, right: &Answer) -> Option<Answer>
    ensures { option_map answer_view result ≡ conjunction (answer_view left.now) (answer_view right.now) }
{
    match (left, right) {
        (Ok(Value::Bool(_)), Ok(Value::Bool(_))) => Some(cel_ops::conjunction(left, right)),
        (Ok(Value::Bool(_)), Err(_)) => Some(cel_ops::conjunction(left, right)),
        (Err(_), Ok(Value::Bool(_))) => Some(cel_ops::conjunction(left, right)),
        (Err(_), Err(_)) => Some(cel_ops::conjunction(left, right)),
        _ => None,
    }
}

/// `||`.
pub(super) fn disjunction(left: &Answer, right: &Answer) -> Option<Answer>
    ensures { option_map answer_view result ≡ disjunction (answer_view left.now) (answer_view right.now) }
{
    match (left, right) {
        (Ok(Value::Bool(_)), Ok(Value::Bool(_))) => Some(cel_ops::disjunction(left, right)),
        (Ok(Value::Bool(_)), Err(_)) => Some(cel_ops::disjunction(left, right)),
        (Err(_), Ok(Value::Bool(_))) => Some(cel_ops::disjunction(left, right)),
        (Err(_), Err(_)) => Some(cel_ops::disjunction(left, right)),
        _ => None,
    }
}

/// `==`, `!=`, `<`, `<=`, `>` and `>=`.
pub(super) fn compare(op: CompareOp, left: &Answer, right: &Answer) -> Option<Answer>
    ensures { option_map answer_view result ≡ comparison op (answer_view left.now) (answer_view right.now) }
{
    match (left, right) {
        (Err(error), _) => Some(Err(*error)),
        (Ok(_), Err(error)) => Some(Err(*error)),
        (Ok(a), Ok(b)) => {
            if !are_comparable(op, a, b) {
                return None;
            }
            Some(cel_ops::compare(op, left, right))
        }
    }
}

fn are_comparable(op: CompareOp, left: &Value, right: &Value) -> bool
    ensures { result ≡ is_some (comparison_of op (value_view left.now) (value_view right.now)) }
{
    match op {
        CompareOp::Equal => true,
        CompareOp::NotEqual => true,
        CompareOp::Less => have_order(left, right),
        CompareOp::LessOrEqual => have_order(left, right),
        CompareOp::Greater => have_order(left, right),
        CompareOp::GreaterOrEqual => have_order(left, right),
    }
}

fn have_order(left: &Value, right: &Value) -> bool
    ensures { result ≡ is_some (order_of (value_view left.now) (value_view right.now)) }
{
    match (left, right) {
        (Value::Bool(_), Value::Bool(_)) => true,
        (Value::Int(_), Value::Int(_)) => true,
        (Value::Uint(_), Value::Uint(_)) => true,
        (Value::Text(_), Value::Text(_)) => true,
        (Value::Bytes(_), Value::Bytes(_)) => true,
        _ => false,
    }
}

/// `contains`, `startsWith` and `endsWith`.
pub(super) fn test_text(test: TextTest, left: &Answer, right: &Answer) -> Option<Answer>
    ensures { option_map answer_view result ≡ text_test test (answer_view left.now) (answer_view right.now) }
{
    match (left, right) {
        (Err(error), _) => Some(Err(*error)),
        (Ok(_), Err(error)) => Some(Err(*error)),
        (Ok(Value::Text(_)), Ok(Value::Text(_))) => Some(cel_ops::test_text(test, left, right)),
        (Ok(_), Ok(_)) => None,
    }
}

/// `+`, `-`, `*`, `/` and `%` of numbers.
pub(super) fn calculate(op: ArithmeticOp, left: &Answer, right: &Answer) -> Option<Answer>
    ensures { option_map answer_view result ≡ arithmetic op (answer_view left.now) (answer_view right.now) }
{
    match (left, right) {
        (Err(error), _) => Some(Err(*error)),
        (Ok(_), Err(error)) => Some(Err(*error)),
        (Ok(Value::Int(_)), Ok(Value::Int(_))) => Some(cel_ops::calculate(op, left, right)),
        (Ok(Value::Uint(_)), Ok(Value::Uint(_))) => Some(cel_ops::calculate(op, left, right)),
        (Ok(_), Ok(_)) => None,
    }
}

/// `+`: the sum of two numbers, or two texts, bytes or lists joined.
pub(super) fn add(
    alloc: Global,
    left: &Answer,
    right: &Answer,
) -> Result<Option<Answer>, AllocError>
    ensures { IfOk result (λ found. option_map answer_view found
        ≡ strict_two addition_of (answer_view left.now) (answer_view right.now)) }
{
    match left {
        Ok(Value::Text(_)) => join(alloc, left, right),
        Ok(Value::Bytes(_)) => join(alloc, left, right),
        Ok(Value::List(_)) => join(alloc, left, right),
        Ok(_) => Ok(calculate(ArithmeticOp::Add, left, right)),
        Err(error) => Ok(Some(Err(*error))),
    }
}

fn join(alloc: Global, left: &Answer, right: &Answer) -> Result<Option<Answer>, AllocError>
    ensures { IfOk result (λ found. option_map answer_view found
        ≡ joined (answer_view left.now) (answer_view right.now)) }
{
    match (left, right) {
        (Err(error), _) => Ok(Some(Err(*error))),
        (Ok(_), Err(error)) => Ok(Some(Err(*error))),
        (Ok(a), Ok(b)) => {
            if !are_joinable(a, b) {
                return Ok(None);
            }
            Ok(Some(cel_ops::join(alloc, left, right)?))
        }
    }
}

fn are_joinable(left: &Value, right: &Value) -> bool
    ensures { result ≡ is_some (joined_of (value_view left.now) (value_view right.now)) }
{
    match (left, right) {
        (Value::Text(_), Value::Text(_)) => true,
        (Value::Bytes(_), Value::Bytes(_)) => true,
        (Value::List(_), Value::List(_)) => true,
        _ => false,
    }
}

/// `_[_]` of a list and an int, or of a map and a key.
pub(super) fn index(left: &Answer, right: &Answer) -> Result<Option<Answer>, AllocError>
    ensures { IfOk result (λ found. option_map answer_view found
        ≡ strict_two index_of (answer_view left.now) (answer_view right.now)) }
{
    match (left, right) {
        (Err(error), _) => Ok(Some(Err(*error))),
        (Ok(_), Err(error)) => Ok(Some(Err(*error))),
        (Ok(Value::List(_)), Ok(Value::Int(_))) => Ok(Some(cel_ops::index_list(left, right)?)),
        (Ok(Value::Map(map)), Ok(key)) => {
            if !may_hold(map, key) {
                return Ok(None);
            }
            Ok(Some(cel_ops::index_map(left, right)?))
        }
        (Ok(_), Ok(_)) => Ok(None),
    }
}

/// `in`: whether a list has the value, or a map has the key.
pub(super) fn is_in(left: &Answer, right: &Answer) -> Option<Answer>
    ensures { option_map answer_view result ≡ strict_two in_of (answer_view left.now) (answer_view right.now) }
{
    match (left, right) {
        (Err(error), _) => Some(Err(*error)),
        (Ok(_), Err(error)) => Some(Err(*error)),
        (Ok(key), Ok(range)) => match range {
            Value::List(_) => Some(cel_ops::is_in_list(left, right)),
            Value::Map(map) => {
                if !may_hold(map, key) {
                    return None;
                }
                Some(cel_ops::is_in_map(left, right))
            }
            _ => None,
        },
    }
}

// Whether the map's keys ascend, and the value is of a key's kind.
fn may_hold(map: &Map, key: &Value) -> bool
    ensures { (f : CelEntries → CelKey → CelAnswer)
        → result ≡ is_some (at_key f (map_view map.now) (key_of_value (value_view key.now))) }
{
    map.rises() && key.as_key().is_some()
}
