//! The names of comprehensions, and comprehensions of checked parts.

ghost use Rattle.std.specs.Prelude.{◌≡◌, ◌↔◌, [], IfErr, IfOk, IsTrue, OnOk};
ghost use Rattle.cel_value.specs.Texts.{text_view};
ghost use Rattle.cel_types.specs.Elaborated.{kind, typed_loop};
ghost use Rattle.cel_types.specs.Names.{variables_of};
ghost use Rattle.cel_types.specs.Typing.{NamesFault};
ghost use Rattle.cel_types.specs.private.Rules.{NamesDiffer};
ghost use Rattle.cel_types.specs.View.{expr_view, loop_of};
ghost use Rattle.cel_types.specs.private.ExprViews.{parts_view};
ghost use Rattle.proto_wire.specs.Refusal.{MemoryOr};

use crate::checker::scope::same_names;
use cel_tree::both;
use cel_types::{TypedExpr, TypedLoop, Variables};
use proto_wire::Refusal;
use std::alloc::Global;
use std::sync::ArcStr;

/// Refuses names of a comprehension if one is empty, or two are the same. Only the second may be empty.
pub(super) fn require_names_differ(
    element: &ArcStr,
    second: &ArcStr,
    gathered: &ArcStr,
) -> Result<(), Refusal>
    ensures found { OnOk result (NamesDiffer (text_view element.now) (text_view second.now) (text_view gathered.now)) }
    ensures fault { IfErr result (NamesFault (text_view element.now) (text_view second.now) (text_view gathered.now)) }
{
    if is_nameless(element) {
        return Err(Refusal::Missing);
    }
    if is_nameless(gathered) {
        return Err(Refusal::Missing);
    }
    if same_names(element, gathered) {
        return Err(Refusal::OutOfRange);
    }
    if same_names(element, second) {
        return Err(Refusal::OutOfRange);
    }
    if same_names(second, gathered) {
        return Err(Refusal::OutOfRange);
    }
    Ok(())
}

/// One variable without a second name, otherwise two.
pub(super) fn variables_of(second: &ArcStr) -> Variables
    ensures { result ≡ variables_of (text_view second.now) }
{
    if is_nameless(second) {
        return Variables::One;
    }
    Variables::Two
}

fn is_nameless(name: &ArcStr) -> bool
    ensures { IsTrue result ↔ (text_view name.now ≡ []) }
{
    name.as_str().is_empty()
}

/// The comprehension of these parts: its range and its initial value, its condition and its step, and its result.
pub(super) fn loop_expr<'a>(
    alloc: Global,
    variables: Variables,
    exprs: (
        (TypedExpr<'a>, TypedExpr<'a>),
        ((TypedExpr<'a>, TypedExpr<'a>), TypedExpr<'a>),
    ),
) -> Result<TypedExpr<'a>, Refusal>
    ensures found { IfOk result (λ e. expr_view e ≡ typed_loop (kind (expr_view exprs.entry.1.1)) variables
        (expr_view exprs.entry.0.0) (expr_view exprs.entry.0.1) (expr_view exprs.entry.1.0.0)
        (expr_view exprs.entry.1.0.1) (expr_view exprs.entry.1.1)) }
    ensures fault { IfErr result (MemoryOr (λ _. ⊥)) }
{
    let ((range, init), ((condition, step), result)) = exprs;
    boxed_loop(
        alloc,
        TypedLoop {
            variables,
            range,
            init,
            condition,
            step,
            result,
        },
    )
}

fn boxed_loop<'a>(alloc: Global, parts: TypedLoop<'a>) -> Result<TypedExpr<'a>, Refusal>
    ensures found { IfOk result (λ e. expr_view e ≡ loop_of (kind (expr_view parts.entry.result))
        (parts_view parts.entry)) }
    ensures fault { IfErr result (MemoryOr (λ _. ⊥)) }
{
    let copied = parts.result.cel_type().copy();
    let (parts, cel_type) = both(parts, copied)?;
    let (cel_type, parts) = both(cel_type, Box::new(alloc, parts))?;
    Ok(TypedExpr::Loop { cel_type, parts })
}
