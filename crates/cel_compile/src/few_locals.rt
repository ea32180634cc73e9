//! Whether the numbers of an expression's locals fit in one byte.

ghost use Rattle.std.specs.Prelude.{◌≡◌, IsTrue, ◌↔◌, OnOk, IfErr};
ghost use Rattle.cel_types.specs.View.{expr_view, loop_of};
ghost use Rattle.cel_types.specs.private.ExprViews.{exprs_view, parts_view};
ghost use Rattle.cel_value.specs.Types.{ValueType};
ghost use Rattle.cel_compile.specs.Slots.{HasFewLocals, HaveFewLocals};

use crate::instructions::variable_count;
use cel_types::{TypedExpr, TypedLoop};
use proto_wire::Refusal;

/// Refuses an expression if some part of it has more than 255 locals in scope.
pub(crate) fn require_few_locals(expr: &TypedExpr<'_>) -> Result<(), Refusal>
    ensures found { OnOk result (HasFewLocals 0 (expr_view expr.now)) }
    ensures fault { IfErr result (λ e. (e ≡ Refusal.TooLarge)
        × (HasFewLocals 0 (expr_view expr.now) → ⊥)) }
{
    if !has_few_locals(0, expr) {
        return Err(Refusal::TooLarge);
    }
    Ok(())
}

// Whether no part of the expression has more than 255 locals in scope, if `depth` are in scope outside of
// it.
#[cycle(few_locals)]
fn has_few_locals(depth: u8, expr: &TypedExpr<'_>) -> bool
    ensures { IsTrue result ↔ HasFewLocals depth (expr_view expr.now) }
{
    match expr {
        TypedExpr::Constant { .. } => true,
        TypedExpr::Local { .. } => true,
        TypedExpr::Attribute { .. } => true,
        TypedExpr::Field { map, .. } => has_few_locals(depth, map),
        TypedExpr::HasField { map, .. } => has_few_locals(depth, map),
        TypedExpr::Call { operands, .. } => have_few_locals(depth, operands),
        TypedExpr::List { elements, .. } => have_few_locals(depth, elements),
        TypedExpr::Map { pairs, .. } => have_few_locals(depth, pairs),
        TypedExpr::Loop { parts, .. } => loop_has_few_locals(depth, parts),
    }
}

// The same for a comprehension.
#[cycle(few_locals)]
fn loop_has_few_locals(depth: u8, parts: &TypedLoop<'_>) -> bool
    ensures { (t : ValueType) → IsTrue result ↔ HasFewLocals depth (loop_of t (parts_view parts.now)) }
{
    let count = variable_count(parts.variables);
    if depth > 254 - count {
        return false;
    }
    let inside = depth + 1 + count;
    has_few_locals(depth, &parts.range)
        && has_few_locals(depth, &parts.init)
        && has_few_locals(inside, &parts.condition)
        && has_few_locals(inside, &parts.step)
        && has_few_locals(depth + 1, &parts.result)
}

// The same for each of the expressions.
#[cycle(few_locals)]
fn have_few_locals(depth: u8, exprs: &[TypedExpr<'_>]) -> bool
    ensures { IsTrue result ↔ HaveFewLocals depth (exprs_view exprs.now) }
{
    for expr in exprs {
        if !has_few_locals(depth, expr) {
            return false;
        }
    }
    true
}
