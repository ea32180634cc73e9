//! Operations on one or two operands, each with its answer and its charge.

ghost use Rattle.std.specs.Prelude.{◌≡◌, ◌≢◌, IfErr, IfOk, None, Some};
ghost use Rattle.cel_value.specs.Masses.{left_of};
ghost use Rattle.cel_value.specs.View.{answer_view};
ghost use Rattle.cel_ops.specs.Conversions.{MakesText};
ghost use Rattle.cel_ops.specs.Operations.{one_answer, one_charge, two_answer, two_charge, work};

use crate::arithmetic::{ArithmeticOp, calculate, negate};
use crate::charges::{
    spend_comparison, spend_conversion, spend_in_list, spend_in_map, spend_join, spend_map_index,
    spend_size,
};
use crate::collections::{index_list, index_map, is_in_list, is_in_map, size};
use crate::comparison::{CompareOp, compare};
use crate::conversion::{Conversion, convert};
use crate::logic::{conjunction, disjunction, logical_not, not_strictly_false};
use crate::texts::{TextTest, join, test_text};
use cel_value::Answer;
use std::alloc::{AllocError, Global};

/// An operation. All are strict except `NotStrictlyFalse`, `And` and `Or`.
#[derive(Clone, Copy, PartialEq, Eq, Debug)]
pub enum Operation {
    /// Two ints or two uints: a number of their kind.
    Arithmetic(ArithmeticOp),
    /// An int: its opposite.
    Negate,
    /// A bool: the other one.
    Not,
    /// A bool: whether it is not false; true for an error (`@not_strictly_false`).
    NotStrictlyFalse,
    /// Two bools: their conjunction; false on either side makes it false.
    And,
    /// Two bools: their disjunction; true on either side makes it true.
    Or,
    /// Two values of one type: a bool.
    Compare(CompareOp),
    /// Two texts: a bool.
    TestText(TextTest),
    /// Two texts, bytes or lists: the one followed by the other.
    Concat,
    /// A text, bytes, a list or a map: its size.
    Size,
    /// A list and an index: the item.
    ListIndex,
    /// A map and a key: the value.
    MapIndex,
    /// A key and a map: whether the map has the key.
    InMap,
    /// A value and a list: whether the list has the value.
    InList,
    /// An int, a uint, a text or bytes: the value as one of another of these types.
    Convert(Conversion),
}

/// The answer of an operation on one operand. Only an answer that is a text or bytes takes memory.
#[inline(always)]
pub fn answer_one(alloc: Global, op: Operation, operand: &Answer) -> Result<Answer, AllocError>
    requires { one_answer (work op) (answer_view operand.now) ≢ None }
    ensures found { IfOk result (λ answer.
        Some (answer_view answer) ≡ one_answer (work op) (answer_view operand.now)) }
    ensures memory { IfErr result (λ e. MakesText (one_answer (work op) (answer_view operand.now))) }
{
    match op {
        Operation::Negate => Ok(negate(operand)),
        Operation::Not => Ok(logical_not(operand)),
        Operation::NotStrictlyFalse => Ok(not_strictly_false(operand)),
        Operation::Size => Ok(size(operand)),
        Operation::Convert(kind) => convert(alloc, kind, operand),
        Operation::Arithmetic(_) => unreachable!(),
        Operation::And => unreachable!(),
        Operation::Or => unreachable!(),
        Operation::Compare(_) => unreachable!(),
        Operation::TestText(_) => unreachable!(),
        Operation::Concat => unreachable!(),
        Operation::ListIndex => unreachable!(),
        Operation::MapIndex => unreachable!(),
        Operation::InMap => unreachable!(),
        Operation::InList => unreachable!(),
    }
}

/// The answer of an operation on two operands.
#[inline(always)]
pub fn answer_two(
    alloc: Global,
    op: Operation,
    left: &Answer,
    right: &Answer,
) -> Result<Answer, AllocError>
    requires { two_answer (work op) (answer_view left.now) (answer_view right.now) ≢ None }
    ensures { IfOk result (λ answer. Some (answer_view answer)
        ≡ two_answer (work op) (answer_view left.now) (answer_view right.now)) }
{
    match op {
        Operation::Arithmetic(op) => Ok(calculate(op, left, right)),
        Operation::And => Ok(conjunction(left, right)),
        Operation::Or => Ok(disjunction(left, right)),
        Operation::Compare(op) => Ok(compare(op, left, right)),
        Operation::TestText(test) => Ok(test_text(test, left, right)),
        Operation::Concat => join(alloc, left, right),
        Operation::ListIndex => index_list(left, right),
        Operation::MapIndex => index_map(left, right),
        Operation::InMap => Ok(is_in_map(left, right)),
        Operation::InList => Ok(is_in_list(left, right)),
        Operation::Negate => unreachable!(),
        Operation::Not => unreachable!(),
        Operation::NotStrictlyFalse => unreachable!(),
        Operation::Size => unreachable!(),
        Operation::Convert(_) => unreachable!(),
    }
}

/// The fuel left after a step that costs 1.
#[inline(always)]
pub fn spend_one(fuel: u64) -> Option<u64>
    ensures { result ≡ left_of fuel 1 }
{
    fuel.checked_sub(1)
}

/// The fuel left after an operation on one operand.
#[inline(always)]
pub fn spend_on_one(op: Operation, operand: &Answer, fuel: u64) -> Option<u64>
    ensures { result ≡ left_of fuel (one_charge (work op) (answer_view operand.now)) }
{
    match op {
        Operation::Size => spend_size(operand, fuel),
        Operation::Convert(kind) => spend_conversion(kind, operand, fuel),
        Operation::Negate => spend_one(fuel),
        Operation::Not => spend_one(fuel),
        Operation::NotStrictlyFalse => spend_one(fuel),
        Operation::Arithmetic(_) => spend_one(fuel),
        Operation::And => spend_one(fuel),
        Operation::Or => spend_one(fuel),
        Operation::Compare(_) => spend_one(fuel),
        Operation::TestText(_) => spend_one(fuel),
        Operation::Concat => spend_one(fuel),
        Operation::ListIndex => spend_one(fuel),
        Operation::MapIndex => spend_one(fuel),
        Operation::InMap => spend_one(fuel),
        Operation::InList => spend_one(fuel),
    }
}

/// The fuel left after an operation on two operands.
#[inline(always)]
pub fn spend_on_two(op: Operation, left: &Answer, right: &Answer, fuel: u64) -> Option<u64>
    ensures { result ≡ left_of fuel
        (two_charge (work op) (answer_view left.now) (answer_view right.now)) }
{
    match op {
        Operation::Compare(_) => spend_comparison(left, right, fuel),
        Operation::TestText(_) => spend_comparison(left, right, fuel),
        Operation::Concat => spend_join(left, right, fuel),
        Operation::MapIndex => spend_map_index(left, right, fuel),
        Operation::InMap => spend_in_map(left, right, fuel),
        Operation::InList => spend_in_list(left, right, fuel),
        Operation::Arithmetic(_) => spend_one(fuel),
        Operation::And => spend_one(fuel),
        Operation::Or => spend_one(fuel),
        Operation::ListIndex => spend_one(fuel),
        Operation::Negate => spend_one(fuel),
        Operation::Not => spend_one(fuel),
        Operation::NotStrictlyFalse => spend_one(fuel),
        Operation::Size => spend_one(fuel),
        Operation::Convert(_) => spend_one(fuel),
    }
}
