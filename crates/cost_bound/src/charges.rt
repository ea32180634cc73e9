//! The charges of instructions, and their payment from a budget.

ghost use Rattle.std.specs.Prelude.{◌≡◌, ◌≢◌, ◌<◌, ◌+◌, ◌-◌, ◌*◌, ◌^◌, ◌↔◌, List, [], ◌∷◌, IfErr, IfOk, IsTrue, length};
ghost use Rattle.cel_ops.specs.declared.operation.Operation.TheVariants as operations;
ghost use Rattle.cel_overload.specs.declared.overload.Overload.TheVariants as overloads;
ghost use Rattle.cel_types.specs.Elaborated.{kind, kinds};
ghost use Rattle.cel_types.specs.View.{expr_view};
ghost use Rattle.cel_types.specs.private.ExprViews.{exprs_view};
ghost use Rattle.cel_value.specs.Texts.{text_view};
ghost use Rattle.cel_value.specs.Types.{ValueType, type_view};
ghost use Rattle.cel_costs.specs.Costs.{charge_at, conversion_cost, counted_cost, field_cost, map_cost};
ghost use Rattle.cost_bound.specs.private.Measuring.{CostsMore, call_part};
ghost use Rattle.cost_bound.specs.private.Numbers.{capped};
ghost use Rattle.cost_bound.specs.private.SizeView.{size_view, sizes_view};

use crate::budget::Budget;
use crate::size::{ValueSize, product, sum};
use cel_ops::{Conversion, Operation};
use cel_overload::Overload;
use cel_types::TypedExpr;
use cel_value::{CelType, text_length};
use proto_wire::Refusal;
use std::sync::ArcStr;

/// The budget less 1 step and less a part; `TooCostly` if it has too few steps. A capped part is 2^64 - 1: no
/// budget pays for it and for the 1.
#[inline(always)]
pub(crate) fn pay(left: Budget, part: u64) -> Result<Budget, Refusal>
    ensures fits { left.steps < 2 ^ 64 }
    ensures found { IfOk result (λ rest. (left.steps ≡ 1 + part + rest.steps) × (left.visits ≡ rest.visits)) }
    ensures fault { IfErr result (CostsMore (1 + part) left.steps) }
{
    if part < left.steps {
        return Ok(Budget {
            steps: left.steps - part - 1,
            visits: left.visits,
        });
    }
    Err(Refusal::TooCostly)
}

/// The budget less so many turns of this cost; `TooCostly` if it has too few steps.
pub(crate) fn pay_turns(left: Budget, turns: u64, cost: u64) -> Result<Budget, Refusal>
    ensures found { IfOk result (λ rest. (left.steps ≡ turns * cost + rest.steps) × (left.visits ≡ rest.visits)) }
    ensures fault { IfErr result (CostsMore (turns * cost) left.steps) }
{
    match turns.checked_mul(cost) {
        Some(all) => {
            if all <= left.steps {
                return Ok(Budget {
                    steps: left.steps - all,
                    visits: left.visits,
                });
            }
            Err(Refusal::TooCostly)
        }
        None => Err(Refusal::TooCostly),
    }
}

/// The charge of a look-up of a name in a map of this size, less 1.
pub(crate) fn field_part(name: &ArcStr, map: &ValueSize) -> u64
    ensures { result ≡ capped (field_cost (text_view name.now) (size_view map.now) - 1) }
{
    product(sum(1, text_length(name)), map.most())
}

/// The charge of a call of one operand, less 1, by the operand and its size.
pub(crate) fn single_part(overload: Overload, operand: &TypedExpr<'_>, size: &ValueSize) -> u64
    ensures { result ≡ capped (call_part overload (kind (expr_view operand.now) ∷ []) (size_view size.now ∷ [])) }
{
    match overload {
        Overload::Operate(op) => operand_part(op, operand, size),
        Overload::Conditional => 0,
    }
}

// The same, of an operation.
fn operand_part(op: Operation, operand: &TypedExpr<'_>, size: &ValueSize) -> u64
    ensures { result ≡ capped (call_part (overloads.Operate op) (kind (expr_view operand.now) ∷ [])
        (size_view size.now ∷ [])) }
{
    match op {
        Operation::Convert(kind) => conversion_part(kind, size),
        Operation::Size => counted(operand, size),
        Operation::Arithmetic(_) => 0,
        Operation::Negate => 0,
        Operation::Not => 0,
        Operation::NotStrictlyFalse => 0,
        Operation::And => 0,
        Operation::Or => 0,
        Operation::Compare(_) => 0,
        Operation::TestText(_) => 0,
        Operation::Concat => 0,
        Operation::ListIndex => 0,
        Operation::MapIndex => 0,
        Operation::InMap => 0,
        Operation::InList => 0,
    }
}

// The charge of a conversion, less 1.
fn conversion_part(kind: Conversion, size: &ValueSize) -> u64
    ensures { result ≡ capped (conversion_cost kind (size_view size.now)) }
{
    match kind {
        Conversion::UintToInt => 0,
        Conversion::IntToUint => 0,
        Conversion::IntToText => 20,
        Conversion::UintToText => 20,
        Conversion::BytesToText => size.most(),
        Conversion::TextToBytes => size.most(),
    }
}

// The length of a text or bytes, which `size` counts; 0 for other types.
fn counted(operand: &TypedExpr<'_>, size: &ValueSize) -> u64
    ensures { result ≡ capped (counted_cost (kind (expr_view operand.now)) (size_view size.now)) }
{
    match operand.cel_type() {
        CelType::Bool => 0,
        CelType::Int => 0,
        CelType::Uint => 0,
        CelType::Text => size.most(),
        CelType::Bytes => size.most(),
        CelType::List(_) => 0,
        CelType::Map(_, _) => 0,
    }
}

/// The charge of a call of two operands, less 1, by their sizes.
pub(crate) fn pair_part(overload: Overload, first: &ValueSize, second: &ValueSize) -> u64
    ensures { (ts : List ValueType) → result
        ≡ capped (call_part overload ts (size_view first.now ∷ size_view second.now ∷ [])) }
{
    match overload {
        Overload::Conditional => 0,
        Overload::Operate(op) => operation_part(op, first, second),
    }
}

// The charge of an operation on two operands, less 1, by their sizes.
fn operation_part(op: Operation, first: &ValueSize, second: &ValueSize) -> u64
    ensures { (ts : List ValueType) → result
        ≡ capped (call_part (overloads.Operate op) ts (size_view first.now ∷ size_view second.now ∷ [])) }
{
    match op {
        Operation::And => 1,
        Operation::Or => 1,
        Operation::Compare(_) => sum(first.mass(), second.mass()),
        Operation::TestText(_) => sum(first.mass(), second.mass()),
        Operation::Concat => sum(first.most(), second.most()),
        Operation::MapIndex => product(second.mass(), first.most()),
        Operation::InMap => product(first.mass(), second.most()),
        Operation::InList => sum(second.mass(), product(second.most(), first.mass())),
        Operation::Arithmetic(_) => 0,
        Operation::Negate => 0,
        Operation::Not => 0,
        Operation::NotStrictlyFalse => 0,
        Operation::Size => 0,
        Operation::ListIndex => 0,
        Operation::Convert(_) => 0,
    }
}

/// Whether the call is a conditional, which evaluates only one of its last two operands.
pub(crate) fn is_choice(overload: Overload, operands: &[TypedExpr<'_>]) -> bool
    ensures { IsTrue result ↔ ((overload ≡ overloads.Conditional) × (length operands.now ≡ 3)) }
{
    overload == Overload::Conditional && operands.len() == 3
}
