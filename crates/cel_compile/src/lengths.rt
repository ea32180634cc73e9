//! The number of instructions of an expression's code, counted once; the targets of jumps are computed from
//! it.

ghost use Rattle.std.specs.Prelude.{◌≡◌, ◌≤◌, ◌<◌, ◌+◌, ◌-◌, ◌^◌, ◌++◌, ◌∷◌, [], ℕ, List, IfOk, length, ◌⊎◌};
ghost use Rattle.cel_value.specs.Types.{ValueType};
ghost use Rattle.cel_types.specs.Elaborated.{typed_call};
ghost use Rattle.cel_types.specs.View.{expr_view, loop_of};
ghost use Rattle.cel_types.specs.private.ExprViews.{exprs_view, parts_view};
ghost use Rattle.cel_ops.specs.declared.operation.Operation.TheVariants as operations;
ghost use Rattle.cel_overload.specs.declared.overload.Overload.TheVariants as Overload;
ghost use Rattle.cel_compile.specs.private.Lengths.{Counts, Measures, MeasuresAll, lengths_are};

use crate::instructions::{is_choice, is_junction};
use cel_overload::Overload;
use cel_types::{TypedExpr, TypedLoop};
use std::alloc::AllocError;

/// The lengths of an expression that jumps: of its whole code, and of its last part's code.
#[derive(Clone, Copy)]
pub(crate) struct Lengths {
    pub(crate) whole: u32,
    pub(crate) last: u32,
}

/// For an expression that jumps: where its code ends, and where its last part's code begins.
#[derive(Clone, Copy)]
pub(crate) struct Targets {
    pub(crate) end: u16,
    pub(crate) last: u16,
}

/// Takes the lengths of an expression that jumps, and gives its targets; its code begins at `begin`.
pub(crate) fn take_targets(lengths: &mut Vec<Lengths>, begin: usize) -> Targets
    requires { (rest : List Lengths) × (whole last : ℕ)
        × (lengths.old.items ≡ rest ++ lengths_are whole last ∷ []) × (last ≤ whole) × (begin + whole < 2 ^ 16) }
    ensures { (rest : List Lengths) (whole last : ℕ)
        → lengths.old.items ≡ rest ++ lengths_are whole last ∷ []
        → (lengths.new.items ≡ rest) × (result.end ≡ begin + whole) × (result.last ≡ begin + whole - last) }
{
    let Some(taken) = lengths.pop() else {
        unreachable!();
    };
    let end = begin + taken.whole as usize;
    Targets {
        end: end as u16,
        last: (end - taken.last as usize) as u16,
    }
}

/// Counts the instructions of an expression, and appends the lengths of the expressions in it that jump.
/// Those that are taken first are last.
#[cycle(measure)]
pub(crate) fn measure(lengths: &mut Vec<Lengths>, expr: &TypedExpr<'_>) -> Result<u32, AllocError>
    ensures long { IfOk result
        (λ n. Measures lengths.old.items lengths.new.items n (expr_view expr.now)) }
{
    match expr {
        TypedExpr::Constant { .. } => Ok(1),
        TypedExpr::Local { .. } => Ok(1),
        TypedExpr::Attribute { .. } => Ok(1),
        TypedExpr::Field { map, .. } => Ok(sum(measure(lengths, map)?, 1)),
        TypedExpr::HasField { map, .. } => Ok(sum(measure(lengths, map)?, 1)),
        TypedExpr::Call {
            overload,
            operands,
            ..
        } => measure_call(lengths, *overload, operands),
        TypedExpr::List { elements, .. } => Ok(sum(measure_all(lengths, elements)?, 1)),
        TypedExpr::Map { pairs, .. } => Ok(sum(measure_all(lengths, pairs)?, 1)),
        TypedExpr::Loop { parts, .. } => measure_loop(lengths, parts),
    }
}

// The same for expressions in order.
#[cycle(measure)]
fn measure_all(lengths: &mut Vec<Lengths>, exprs: &[TypedExpr<'_>]) -> Result<u32, AllocError>
    ensures long { IfOk result
        (λ n. MeasuresAll lengths.old.items lengths.new.items n (exprs_view exprs.now)) }
{
    let mut count = 0;
    for measured in 0..exprs.len() {
        let own = measure(lengths, &exprs[exprs.len() - measured - 1])?;
        count = sum(own, count);
    }
    Ok(count)
}

// The same for a call.
#[cycle(measure)]
fn measure_call(
    lengths: &mut Vec<Lengths>,
    overload: Overload,
    operands: &[TypedExpr<'_>],
) -> Result<u32, AllocError>
    ensures long { IfOk result (λ n. (t : ValueType)
        → Measures lengths.old.items lengths.new.items n (typed_call t overload (exprs_view operands.now))) }
{
    if is_junction(overload, operands.len()) {
        return measure_junction(lengths, overload, operands);
    }
    if is_choice(overload, operands.len()) {
        return measure_choice(lengths, operands);
    }
    Ok(sum(measure_all(lengths, operands)?, 1))
}

// The same for `&&` or `||`.
#[cycle(measure)]
fn measure_junction(
    lengths: &mut Vec<Lengths>,
    overload: Overload,
    operands: &[TypedExpr<'_>],
) -> Result<u32, AllocError>
    requires two { length operands.now ≡ 2 }
    requires junction { (overload ≡ Overload.Operate operations.And) ⊎ (overload ≡ Overload.Operate operations.Or) }
    ensures long { IfOk result (λ n. (t : ValueType)
        → Measures lengths.old.items lengths.new.items n (typed_call t overload (exprs_view operands.now))) }
{
    let last = measure(lengths, &operands[1])?;
    let first = measure(lengths, &operands[0])?;
    let whole = sum(sum(first, last), 2);
    lengths.push(Lengths { whole, last })?;
    Ok(whole)
}

// The same for `?:`.
#[cycle(measure)]
fn measure_choice(lengths: &mut Vec<Lengths>, operands: &[TypedExpr<'_>]) -> Result<u32, AllocError>
    requires { length operands.now ≡ 3 }
    ensures long { IfOk result (λ n. (t : ValueType)
        → Measures lengths.old.items lengths.new.items n
        (typed_call t Overload.Conditional (exprs_view operands.now))) }
{
    let last = measure(lengths, &operands[2])?;
    let chosen = measure(lengths, &operands[1])?;
    let tested = measure(lengths, &operands[0])?;
    let whole = sum(sum(sum(tested, chosen), last), 2);
    lengths.push(Lengths { whole, last })?;
    Ok(whole)
}

// The same for a comprehension.
#[cycle(measure)]
fn measure_loop(lengths: &mut Vec<Lengths>, parts: &TypedLoop<'_>) -> Result<u32, AllocError>
    ensures long { IfOk result (λ n. (t : ValueType)
        → Measures lengths.old.items lengths.new.items n (loop_of t (parts_view parts.now))) }
{
    let last = measure(lengths, &parts.result)?;
    let step = measure(lengths, &parts.step)?;
    let condition = measure(lengths, &parts.condition)?;
    let init = measure(lengths, &parts.init)?;
    let range = measure(lengths, &parts.range)?;
    let turn = sum(sum(condition, step), 4);
    let whole = sum(sum(sum(range, init), sum(turn, last)), 2);
    lengths.push(Lengths { whole, last })?;
    Ok(whole)
}

// The sum of two counts; the greatest `u32` if the sum is greater.
fn sum(left: u32, right: u32) -> u32
    ensures { (a b : ℕ) → Counts left a → Counts right b → Counts result (a + b) }
{
    left.saturating_add(right)
}
