//! Overloads: which one a call is, by its function and its operands' types.

ghost use Rattle.std.specs.Prelude.{◌≡◌, IfErr, IfOk, option_map};
ghost use Rattle.cel_value.specs.Texts.{points_of};
ghost use Rattle.cel_value.specs.Types.{key_type_eq, type_eq, type_of_key, type_view};
ghost use Rattle.cel_overload.specs.Overloads.{CallFault, IsCall};
ghost use Rattle.cel_overload.specs.View.{result_view, types_of};
ghost use Rattle.cel_overload.specs.declared.overload.Overload.TheVariants.{Operate};
ghost use Rattle.cel_overload.specs.private.View.{found_view};
ghost use Rattle.cel_overload.specs.private.Choosing.{are_both, choose, choose_arithmetic, choose_binary, choose_comparison, choose_in, choose_index, choose_ternary, choose_to_text, choose_unary, when};

use crate::function::{Function, function_named, may_take};
use crate::kinds::{has_key_type, is_joined, is_number, is_sized};
use cel_ops::{ArithmeticOp, CompareOp, Conversion, Operation};
use cel_value::CelType;

/// What a call does.
#[derive(Clone, Copy, PartialEq, Eq, Debug)]
pub enum Overload {
    /// The second or the third operand, as the first one decides.
    Conditional,
    /// An operation. Several overloads of CEL may be one here: `Arithmetic` is `add_int64` and
    /// `add_uint64`, `Concat` is `add_string`, `add_bytes` and `add_list`.
    Operate(Operation),
}

/// The type of a call's result.
#[derive(Clone, Copy)]
pub enum ResultType<'a> {
    Bool,
    Int,
    Uint,
    Text,
    Bytes,
    /// The type of an operand, or of a part of it.
    Same(&'a CelType),
}

/// An overload with the type of its result.
#[derive(Clone, Copy)]
pub struct Found<'a> {
    pub overload: Overload,
    pub result: ResultType<'a>,
}

/// Why a call has no overload.
#[derive(Clone, Copy, PartialEq, Eq, Debug)]
pub enum OverloadFault {
    /// No function has the name.
    UnknownName,
    /// The function takes no such target or operands.
    NoOverload,
}

/// The overload of a call: by its function's name, whether it has a target, and its operands' types, a
/// target first. `UnknownName` if no function has the name. `NoOverload` if the function takes no such
/// target or operands.
pub fn find_overload<'a>(
    name: &str,
    has_target: bool,
    operands: &[&'a CelType],
) -> Result<Found<'a>, OverloadFault>
    ensures found { IfOk result (λ f. IsCall (points_of name.now) has_target (types_of operands.now)
        f.overload (result_view f.result)) }
    ensures fault { IfErr result (CallFault (points_of name.now) has_target (types_of operands.now)) }
{
    match function_named(name) {
        None => Err(OverloadFault::UnknownName),
        Some(function) => match choose(function, has_target, operands) {
            None => Err(OverloadFault::NoOverload),
            Some(found) => Ok(found),
        },
    }
}

fn choose<'a>(function: Function, has_target: bool, operands: &[&'a CelType]) -> Option<Found<'a>>
    ensures { option_map found_view result ≡ choose function has_target (types_of operands.now) }
{
    if !may_take(function, has_target) {
        return None;
    }
    match operands {
        [a] => choose_unary(function, a),
        [a, b] => choose_binary(function, a, b),
        [a, b, c] => choose_ternary(function, a, b, c),
        _ => None,
    }
}

// An overload, if its operands fit.
fn when<'a>(fits: bool, overload: Overload, kind: ResultType<'a>) -> Option<Found<'a>>
    ensures { option_map found_view result ≡ when fits overload (result_view kind.entry) }
{
    if fits {
        Some(Found {
            overload,
            result: kind,
        })
    } else {
        None
    }
}

// An operation, if its operands fit.
fn operate<'a>(fits: bool, op: Operation, kind: ResultType<'a>) -> Option<Found<'a>>
    ensures { option_map found_view result ≡ when fits (Operate op) (result_view kind.entry) }
{
    when(fits, Overload::Operate(op), kind)
}

fn choose_unary<'a>(function: Function, operand: &'a CelType) -> Option<Found<'a>>
    ensures { option_map found_view result ≡ choose_unary function (type_view operand.now) }
{
    match function {
        Function::Not => operate(*operand == CelType::Bool, Operation::Not, ResultType::Bool),
        Function::NotStrictlyFalse => operate(
            *operand == CelType::Bool,
            Operation::NotStrictlyFalse,
            ResultType::Bool,
        ),
        Function::Negate => operate(*operand == CelType::Int, Operation::Negate, ResultType::Int),
        Function::Size => operate(is_sized(operand), Operation::Size, ResultType::Int),
        Function::ToInt => operate(
            *operand == CelType::Uint,
            Operation::Convert(Conversion::UintToInt),
            ResultType::Int,
        ),
        Function::ToUint => operate(
            *operand == CelType::Int,
            Operation::Convert(Conversion::IntToUint),
            ResultType::Uint,
        ),
        Function::ToText => choose_to_text(operand),
        Function::ToBytes => operate(
            *operand == CelType::Text,
            Operation::Convert(Conversion::TextToBytes),
            ResultType::Bytes,
        ),
        _ => None,
    }
}

// `string` takes an int, a uint or bytes.
fn choose_to_text<'a>(operand: &'a CelType) -> Option<Found<'a>>
    ensures { option_map found_view result ≡ choose_to_text (type_view operand.now) }
{
    let kind = match operand {
        CelType::Int => Conversion::IntToText,
        CelType::Uint => Conversion::UintToText,
        CelType::Bytes => Conversion::BytesToText,
        CelType::Bool | CelType::Text | CelType::List(_) | CelType::Map(_, _) => return None,
    };
    operate(true, Operation::Convert(kind), ResultType::Text)
}

fn choose_binary<'a>(function: Function, left: &'a CelType, right: &'a CelType) -> Option<Found<'a>>
    ensures { option_map found_view result ≡ choose_binary function (type_view left.now) (type_view right.now) }
{
    match function {
        Function::And => operate(
            are_both(left, right, &CelType::Bool),
            Operation::And,
            ResultType::Bool,
        ),
        Function::Or => operate(
            are_both(left, right, &CelType::Bool),
            Operation::Or,
            ResultType::Bool,
        ),
        Function::Compare(op) => choose_comparison(op, left, right),
        Function::Arithmetic(op) => choose_arithmetic(op, left, right),
        Function::Index => choose_index(left, right),
        Function::In => choose_in(left, right),
        Function::TestText(test) => operate(
            are_both(left, right, &CelType::Text),
            Operation::TestText(test),
            ResultType::Bool,
        ),
        _ => None,
    }
}

// Equality is for all types, an order for the types that have one.
fn choose_comparison<'a>(op: CompareOp, left: &'a CelType, right: &'a CelType) -> Option<Found<'a>>
    ensures { option_map found_view result ≡ choose_comparison op (type_view left.now) (type_view right.now) }
{
    let fits = match op {
        CompareOp::Equal | CompareOp::NotEqual => *left == *right,
        _ => left.is_ordered() && *left == *right,
    };
    operate(fits, Operation::Compare(op), ResultType::Bool)
}

// Numbers have arithmetic; `_+_` also joins texts, bytes and lists.
fn choose_arithmetic<'a>(
    op: ArithmeticOp,
    left: &'a CelType,
    right: &'a CelType,
) -> Option<Found<'a>>
    ensures { option_map found_view result ≡ choose_arithmetic op (type_view left.now) (type_view right.now) }
{
    if op == ArithmeticOp::Add && is_joined(left) {
        return operate(*left == *right, Operation::Concat, ResultType::Same(left));
    }
    operate(
        is_number(left) && *left == *right,
        Operation::Arithmetic(op),
        ResultType::Same(left),
    )
}

fn choose_index<'a>(left: &'a CelType, right: &'a CelType) -> Option<Found<'a>>
    ensures { option_map found_view result ≡ choose_index (type_view left.now) (type_view right.now) }
{
    match left {
        CelType::List(items) => operate(
            *right == CelType::Int,
            Operation::ListIndex,
            ResultType::Same(items),
        ),
        CelType::Map(keys, values) => operate(
            has_key_type(right, *keys),
            Operation::MapIndex,
            ResultType::Same(values),
        ),
        CelType::Bool | CelType::Int | CelType::Uint | CelType::Text | CelType::Bytes => None,
    }
}

fn choose_in<'a>(left: &'a CelType, right: &'a CelType) -> Option<Found<'a>>
    ensures { option_map found_view result ≡ choose_in (type_view left.now) (type_view right.now) }
{
    match right {
        CelType::List(items) => operate(*left == **items, Operation::InList, ResultType::Bool),
        CelType::Map(keys, _) => operate(
            has_key_type(left, *keys),
            Operation::InMap,
            ResultType::Bool,
        ),
        CelType::Bool | CelType::Int | CelType::Uint | CelType::Text | CelType::Bytes => None,
    }
}

fn choose_ternary<'a>(
    function: Function,
    first: &'a CelType,
    second: &'a CelType,
    third: &'a CelType,
) -> Option<Found<'a>>
    ensures { option_map found_view result ≡ choose_ternary function (type_view first.now) (type_view second.now) (type_view third.now) }
{
    match function {
        Function::Conditional => when(
            *first == CelType::Bool && *second == *third,
            Overload::Conditional,
            ResultType::Same(second),
        ),
        _ => None,
    }
}

// Whether both are this type.
fn are_both(left: &CelType, right: &CelType, both: &CelType) -> bool
    ensures { result ≡ are_both (type_view left.now) (type_view right.now) (type_view both.now) }
{
    *left == *both && *right == *both
}
