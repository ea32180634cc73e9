//! Finds the overloads of calls.

ghost use Rattle.std.specs.Prelude.{◌≡◌, IfErr, IfOk};
ghost use Rattle.cel_overload.specs.Overloads.{IsCall};
ghost use Rattle.cel_overload.specs.View.{result_view, types_of};
ghost use Rattle.cel_value.specs.Texts.{points_of, text_view};
ghost use Rattle.cel_value.specs.Types.{type_view};
ghost use Rattle.cel_types.specs.Elaborated.{kinds};
ghost use Rattle.cel_types.specs.View.{expr_view};
ghost use Rattle.cel_types.specs.private.ExprViews.{exprs_view};
ghost use Rattle.cel_check.specs.private.Checks.{IsCalled};
ghost use Rattle.cel_check.specs.private.Kinds.{NoCall};
ghost use Rattle.proto_wire.specs.Refusal.{MemoryOr};

use cel_overload::{Found, Overload, OverloadFault, ResultType, find_overload};
use cel_types::TypedExpr;
use cel_value::CelType;
use proto_wire::Refusal;
use std::alloc::{AllocError, Global};
use std::sync::ArcStr;

/// A call on these operands, its target first.
pub(super) fn call_expr<'a>(
    alloc: Global,
    function: &ArcStr,
    has_target: bool,
    operands: Vec<TypedExpr<'a>>,
) -> Result<TypedExpr<'a>, Refusal>
    ensures found { IfOk result (λ e. IsCalled (text_view function.now) has_target (exprs_view operands.entry.items)
        (expr_view e)) }
    ensures fault { IfErr result (MemoryOr (NoCall (text_view function.now) has_target
        (kinds (exprs_view operands.entry.items)))) }
{
    let (overload, cel_type) = call_type(alloc, function, has_target, &operands)?;
    Ok(TypedExpr::Call {
        cel_type,
        overload,
        operands,
    })
}

// The overload of a call on these operands, and the type of its result.
fn call_type(
    alloc: Global,
    function: &ArcStr,
    has_target: bool,
    operands: &[TypedExpr<'_>],
) -> Result<(Overload, CelType), Refusal>
    ensures found { IfOk result (λ r. IsCall (text_view function.now) has_target (kinds (exprs_view operands.now))
        r.0 (type_view r.1)) }
    ensures fault { IfErr result (MemoryOr (NoCall (text_view function.now) has_target
        (kinds (exprs_view operands.now)))) }
{
    let found = found_overload(alloc, function.as_str(), has_target, operands)?;
    let cel_type = result_type(found.result)?;
    Ok((found.overload, cel_type))
}

// The overload of a call on these operands. One to three operands need no list of their types, and
// no overload takes more.
fn found_overload<'t>(
    alloc: Global,
    name: &str,
    has_target: bool,
    operands: &'t [TypedExpr<'_>],
) -> Result<Found<'t>, Refusal>
    ensures found { IfOk result (λ f. IsCall (points_of name.now) has_target (kinds (exprs_view operands.now))
        f.overload (result_view f.result)) }
    ensures fault { IfErr result (MemoryOr (NoCall (points_of name.now) has_target
        (kinds (exprs_view operands.now)))) }
{
    match operands {
        [one] => overload_of(name, has_target, &[one.cel_type()]),
        [first, second] => { overload_of(name, has_target, &[first.cel_type(), second.cel_type()]) }
        [first, second, third] => {
            let types = [first.cel_type(), second.cel_type(), third.cel_type()];
            overload_of(name, has_target, &types)
        }
        _ => {
            let types = types_of(alloc, operands)?;
            overload_of(name, has_target, &types)
        }
    }
}

// The types of expressions.
fn types_of<'t>(alloc: Global, exprs: &'t [TypedExpr<'_>]) -> Result<Vec<&'t CelType>, AllocError>
    ensures { IfOk result (λ v. types_of v.items ≡ kinds (exprs_view exprs.now)) }
{
    let mut types = Vec::new(alloc);
    for expr in exprs {
        types.push(expr.cel_type())?;
    }
    Ok(types)
}

// The overload of a call. Refuses a name that no function has, and operands that no overload takes.
fn overload_of<'t>(
    name: &str,
    has_target: bool,
    types: &[&'t CelType],
) -> Result<Found<'t>, Refusal>
    ensures found { IfOk result (λ f. IsCall (points_of name.now) has_target (types_of types.now)
        f.overload (result_view f.result)) }
    ensures fault { IfErr result (NoCall (points_of name.now) has_target (types_of types.now)) }
{
    match find_overload(name, has_target, types) {
        Ok(found) => Ok(found),
        Err(OverloadFault::UnknownName) => Err(Refusal::UnknownName),
        Err(OverloadFault::NoOverload) => Err(Refusal::NoOverload),
    }
}

// The type of a result.
fn result_type(kind: ResultType<'_>) -> Result<CelType, AllocError>
    ensures { IfOk result (λ t. type_view t ≡ result_view kind.entry) }
{
    match kind {
        ResultType::Bool => Ok(CelType::Bool),
        ResultType::Int => Ok(CelType::Int),
        ResultType::Uint => Ok(CelType::Uint),
        ResultType::Text => Ok(CelType::Text),
        ResultType::Bytes => Ok(CelType::Bytes),
        ResultType::Same(same) => same.copy(),
    }
}
