//! Calls, by their functions' names.

ghost use Rattle.std.specs.Prelude.{◌≡◌, [], ◌∷◌, IfOk, Some, map, option_map};
ghost use Rattle.cel_ops.specs.declared.arithmetic.ArithmeticOp.{ArithmeticOp};
ghost use Rattle.cel_overload.specs.Answers.{conditional, function_answer};
ghost use Rattle.cel_overload.specs.declared.function.Function.TheVariants as functions;
ghost use Rattle.cel_value.specs.Texts.{points_of};
ghost use Rattle.cel_value.specs.View.{answer_view};
ghost use Rattle.cel_types.specs.Meaning.{call_answer};

use crate::binary::{add, calculate, compare, conjunction, disjunction, index, is_in, test_text};
use crate::unary::{
    logical_not, negate, not_strictly_false, size, to_bytes, to_int, to_text, to_uint,
};
use cel_ops::ArithmeticOp;
use cel_overload::{Function, function_named};
use cel_value::{Answer, Value, copy_answer};
use std::alloc::{AllocError, Global};

/// The answer of a call on these operands, its target first.
pub(super) fn call(
    alloc: Global,
    name: &str,
    operands: &[Answer],
) -> Result<Option<Answer>, AllocError>
    ensures { IfOk result (λ found. option_map answer_view found
        ≡ call_answer (points_of name.now) (Some (map answer_view operands.now))) }
{
    match function_named(name) {
        Some(function) => answer_all(alloc, function, operands),
        None => Ok(None),
    }
}

fn answer_all(
    alloc: Global,
    function: Function,
    operands: &[Answer],
) -> Result<Option<Answer>, AllocError>
    ensures { IfOk result (λ found. option_map answer_view found
        ≡ function_answer function (map answer_view operands.now)) }
{
    match operands {
        [a] => answer_one(alloc, function, a),
        [a, b] => answer_two(alloc, function, a, b),
        [a, b, c] => answer_three(function, a, b, c),
        _ => Ok(None),
    }
}

fn answer_one(
    alloc: Global,
    function: Function,
    operand: &Answer,
) -> Result<Option<Answer>, AllocError>
    ensures { IfOk result (λ found. option_map answer_view found
        ≡ function_answer function (answer_view operand.now ∷ [])) }
{
    match function {
        Function::Not => Ok(logical_not(operand)),
        Function::NotStrictlyFalse => Ok(not_strictly_false(operand)),
        Function::Negate => Ok(negate(operand)),
        Function::Size => Ok(size(operand)),
        Function::ToInt => to_int(alloc, operand),
        Function::ToUint => to_uint(alloc, operand),
        Function::ToText => to_text(alloc, operand),
        Function::ToBytes => to_bytes(alloc, operand),
        _ => Ok(None),
    }
}

fn answer_two(
    alloc: Global,
    function: Function,
    left: &Answer,
    right: &Answer,
) -> Result<Option<Answer>, AllocError>
    ensures { IfOk result (λ found. option_map answer_view found
        ≡ function_answer function (answer_view left.now ∷ answer_view right.now ∷ [])) }
{
    match function {
        Function::And => Ok(conjunction(left, right)),
        Function::Or => Ok(disjunction(left, right)),
        Function::Compare(op) => Ok(compare(op, left, right)),
        Function::Arithmetic(op) => answer_arithmetic(alloc, op, left, right),
        Function::Index => index(left, right),
        Function::In => Ok(is_in(left, right)),
        Function::TestText(test) => Ok(test_text(test, left, right)),
        _ => Ok(None),
    }
}

fn answer_arithmetic(
    alloc: Global,
    op: ArithmeticOp,
    left: &Answer,
    right: &Answer,
) -> Result<Option<Answer>, AllocError>
    ensures { IfOk result (λ found. option_map answer_view found
        ≡ function_answer (functions.Arithmetic op) (answer_view left.now ∷ answer_view right.now ∷ [])) }
{
    match op {
        ArithmeticOp::Add => add(alloc, left, right),
        ArithmeticOp::Subtract => Ok(calculate(op, left, right)),
        ArithmeticOp::Multiply => Ok(calculate(op, left, right)),
        ArithmeticOp::Divide => Ok(calculate(op, left, right)),
        ArithmeticOp::Remainder => Ok(calculate(op, left, right)),
    }
}

fn answer_three(
    function: Function,
    first: &Answer,
    second: &Answer,
    third: &Answer,
) -> Result<Option<Answer>, AllocError>
    ensures { IfOk result (λ found. option_map answer_view found ≡ function_answer function
        (answer_view first.now ∷ answer_view second.now ∷ answer_view third.now ∷ [])) }
{
    match function {
        Function::Conditional => choose(first, second, third),
        _ => Ok(None),
    }
}

// The branch that a condition chooses, or its error.
fn choose(
    condition: &Answer,
    then: &Answer,
    otherwise: &Answer,
) -> Result<Option<Answer>, AllocError>
    ensures { IfOk result (λ found. option_map answer_view found ≡ conditional
        (answer_view condition.now ∷ answer_view then.now ∷ answer_view otherwise.now ∷ [])) }
{
    match condition {
        Ok(Value::Bool(true)) => Ok(Some(copy_answer(then)?)),
        Ok(Value::Bool(false)) => Ok(Some(copy_answer(otherwise)?)),
        Ok(_) => Ok(None),
        Err(error) => Ok(Some(Err(*error))),
    }
}
