//! Compiles elaborated expressions to code.

ghost use Rattle.std.specs.Prelude.{◌≡◌, ◌↔◌, IsTrue, ◌<◌, ◌^◌, ◌⊎◌, ℕ, List, [], ◌∷◌, ◌++◌, length, IfErr, IfOk, OnOk};
ghost use Rattle.attributes.specs.Limits.{InLimits, LimitsValue};
ghost use Rattle.attributes.specs.Request.{IsRequest, RequestValue};
ghost use Rattle.cel_value.specs.Types.{ValueType};
ghost use Rattle.cel_tree.specs.Checked.{CelChecked};
ghost use Rattle.cel_tree.specs.GoodConstants.{HasGoodConstants};
ghost use Rattle.cel_tree.specs.Message.{ExprParts, IsExprOf};
ghost use Rattle.cel_types.specs.Elaborated.{IsElaborated, kind, typed_call};
ghost use Rattle.cel_ops.specs.declared.operation.Operation.TheVariants as operations;
ghost use Rattle.cel_overload.specs.declared.overload.Overload.TheVariants as Overload;
ghost use Rattle.cel_types.specs.View.{expr_view, loop_of, typed_view};
ghost use Rattle.cel_types.specs.private.ExprViews.{exprs_view, parts_view};
ghost use Rattle.cel_types.specs.WellTyped.{IsWellTyped};
ghost use Rattle.proto_wire.specs.Refusal.{MemoryOr};
ghost use Rattle.machine_code.specs.Instructions.{code_view, instr_view};
ghost use Rattle.machine_code.specs.Machine.{NeverStuck};
ghost use Rattle.machine_code.specs.Typable.{Forward};
ghost use Rattle.cel_compile.specs.Codes.{code_of, instruction_of};
ghost use Rattle.cel_compile.specs.Slots.{HasFewLocals};
ghost use Rattle.cel_compile.specs.Sound.{IsSound, RunsToMeaning};
ghost use Rattle.cel_compile.specs.private.Extents.{extent};
ghost use Rattle.cel_compile.specs.private.Emitting.{Grows, GrowsAll, HasRoom, HaveRoom};

use crate::few_locals::require_few_locals;
use crate::instructions::{
    call_instr, constant_instr, field_instr, has_field_instr, is_choice, is_junction, list_instr,
    map_instr, passing_over, turn_instr, variable_count,
};
use crate::lengths::{Lengths, measure, take_targets};
use cel_overload::Overload;
use cel_types::{Typed, TypedExpr, TypedLoop};
use machine_code::{Code, CodeFault, Instr};
use proto_wire::Refusal;
use std::alloc::{AllocError, Global};

/// Compiles an expression to code, which shares the expression's texts.
///
/// It refuses code of more than 65,535 instructions with 8, `TooLarge`. So it does if some part of the
/// expression has more than 255 locals in scope. If it is out of memory, it refuses with 19, `Memory`. An
/// expression that was read and has a type is never too large.
pub fn compile(alloc: Global, typed: &Typed<'_>) -> Result<Code, Refusal>
    ensures found { IfOk result (λ code. code_view code ≡ code_of 0 0 (typed_view typed.now)) }
    ensures sound { IfOk result (λ code. IsWellTyped [] (typed_view typed.now)
        → IsSound (code_view code) (typed_view typed.now)) }
    // the code of a checked expression's elaboration evaluates to what the expression means
    ensures means { IfOk result (λ code. (c : CelChecked) (request : RequestValue) (limits : LimitsValue)
        → HasGoodConstants c.tree → IsElaborated c (typed_view typed.now) → IsRequest request
        → InLimits request limits
        → RunsToMeaning (code_view code) c (typed_view typed.now) request limits) }
    // one pass verifies the code of a well typed expression, and no run of that code is stuck
    ensures forward { IfOk result (λ code. IsWellTyped [] (typed_view typed.now)
        → Forward (code_view code) (kind (typed_view typed.now))) }
    ensures lives { IfOk result (λ code. (request : RequestValue) → IsWellTyped [] (typed_view typed.now)
        → IsRequest request → NeverStuck (code_view code) request) }
    ensures fault { IfErr result (MemoryOr (λ e. (e ≡ Refusal.TooLarge)
        × ((65535 < length (code_of 0 0 (typed_view typed.now))) ⊎ (HasFewLocals 0 (typed_view typed.now) → ⊥)))) }
    // the elaboration of an expression that was read is refused only if it is out of memory
    ensures room { IfErr result (λ e. (parts : ExprParts) (c : CelChecked) → IsExprOf parts c
        → IsElaborated c (typed_view typed.now) → e ≡ Refusal.Memory) }
{
    compile_whole(alloc, typed)
}

// The same as `compile`, without the clauses on the code's runs.
fn compile_whole(alloc: Global, typed: &Typed<'_>) -> Result<Code, Refusal>
    ensures found { IfOk result (λ code. code_view code ≡ code_of 0 0 (typed_view typed.now)) }
    ensures fault { IfErr result (MemoryOr (λ e. (e ≡ Refusal.TooLarge)
        × ((65535 < extent (typed_view typed.now)) ⊎ (HasFewLocals 0 (typed_view typed.now) → ⊥)))) }
{
    require_few_locals(&typed.root)?;
    let mut lengths = Vec::new(alloc);
    require_short(measure(&mut lengths, &typed.root)?)?;
    let mut code = Code::empty(alloc);
    emit(&mut code, &mut lengths, 0, &typed.root)?;
    Ok(code)
}

// Refuses more instructions than code may have.
fn require_short(count: u32) -> Result<(), Refusal>
    ensures found { OnOk result (count < 2 ^ 16) }
    ensures fault { IfErr result (λ e. (e ≡ Refusal.TooLarge) × (65535 < count)) }
{
    if count > 65_535 {
        return Err(Refusal::TooLarge);
    }
    Ok(())
}

// Appends an instruction; the code has room for it.
fn put(code: &mut Code, instr: Instr) -> Result<(), AllocError>
    requires { length code.old < 65535 }
    ensures found { OnOk result (code_view code.new ≡ code_view code.old ++ instr_view instr ∷ []) }
{
    match code.push(instr) {
        Ok(()) => Ok(()),
        Err(CodeFault::Memory) => Err(AllocError),
        Err(CodeFault::TooMany) => unreachable!(),
    }
}

// Appends the instruction of a call; the code has room for it.
fn put_call(code: &mut Code, overload: Overload) -> Result<(), AllocError>
    requires { length code.old < 65535 }
    ensures found { OnOk result (code_view code.new ≡ code_view code.old ++ instruction_of overload ∷ []) }
{
    put(code, call_instr(overload))
}

// Appends the instructions of an expression with `depth` locals in scope, and takes the lengths of its jumps.
// The code before them stays as it is.
#[cycle(emit)]
fn emit(
    code: &mut Code,
    lengths: &mut Vec<Lengths>,
    depth: u8,
    expr: &TypedExpr<'_>,
) -> Result<(), AllocError>
    requires room { HasRoom code.old lengths.old.items depth (expr_view expr.now) }
    ensures grows { OnOk result
        (Grows code.old code.new lengths.old.items lengths.new.items depth (expr_view expr.now)) }
{
    match expr {
        TypedExpr::Constant { value, .. } => put(code, constant_instr(value)?),
        TypedExpr::Local { outside, .. } => put(code, Instr::Load(*outside)),
        TypedExpr::Attribute { id, .. } => put(code, Instr::Attr(*id)),
        TypedExpr::Field { map, name, .. } => {
            emit(code, lengths, depth, map)?;
            put(code, field_instr(name)?)
        }
        TypedExpr::HasField { map, name, .. } => {
            emit(code, lengths, depth, map)?;
            put(code, has_field_instr(name)?)
        }
        TypedExpr::Call {
            overload,
            operands,
            ..
        } => emit_call(code, lengths, depth, *overload, operands),
        TypedExpr::List { cel_type, elements } => {
            emit_all(code, lengths, depth, elements)?;
            let instr = list_instr(cel_type, elements)?;
            put(code, instr)
        }
        TypedExpr::Map { cel_type, pairs } => {
            emit_all(code, lengths, depth, pairs)?;
            let instr = map_instr(cel_type, pairs)?;
            put(code, instr)
        }
        TypedExpr::Loop { parts, .. } => emit_loop(code, lengths, depth, parts),
    }
}

// The same for expressions in order.
#[cycle(emit)]
fn emit_all(
    code: &mut Code,
    lengths: &mut Vec<Lengths>,
    depth: u8,
    exprs: &[TypedExpr<'_>],
) -> Result<(), AllocError>
    requires room { HaveRoom code.old lengths.old.items depth (exprs_view exprs.now) }
    ensures grows { OnOk result
        (GrowsAll code.old code.new lengths.old.items lengths.new.items depth (exprs_view exprs.now)) }
{
    for expr in exprs {
        emit(code, lengths, depth, expr)?;
    }
    Ok(())
}

// The same for a call.
#[cycle(emit)]
fn emit_call(
    code: &mut Code,
    lengths: &mut Vec<Lengths>,
    depth: u8,
    overload: Overload,
    operands: &[TypedExpr<'_>],
) -> Result<(), AllocError>
    requires room { (t : ValueType) × HasRoom code.old lengths.old.items depth
        (typed_call t overload (exprs_view operands.now)) }
    ensures grows { OnOk result ((t : ValueType)
        → Grows code.old code.new lengths.old.items lengths.new.items depth
        (typed_call t overload (exprs_view operands.now))) }
{
    if is_junction(overload, operands.len()) {
        emit_junction(code, lengths, depth, overload, operands)?;
        return Ok(());
    }
    if is_choice(overload, operands.len()) {
        emit_choice(code, lengths, depth, operands)?;
        return Ok(());
    }
    emit_all(code, lengths, depth, operands)?;
    put_call(code, overload)?;
    Ok(())
}

// The same for `&&` or `||`: if the left side decides, a jump skips the right side.
#[cycle(emit)]
fn emit_junction(
    code: &mut Code,
    lengths: &mut Vec<Lengths>,
    depth: u8,
    overload: Overload,
    operands: &[TypedExpr<'_>],
) -> Result<(), AllocError>
    requires two { length operands.now ≡ 2 }
    requires junction { (overload ≡ Overload.Operate operations.And) ⊎ (overload ≡ Overload.Operate operations.Or) }
    requires room { (t : ValueType) × HasRoom code.old lengths.old.items depth
        (typed_call t overload (exprs_view operands.now)) }
    ensures grows { OnOk result ((t : ValueType)
        → Grows code.old code.new lengths.old.items lengths.new.items depth
        (typed_call t overload (exprs_view operands.now))) }
{
    let left = &operands[0];
    let right = &operands[1];
    let targets = take_targets(lengths, code.len());
    emit(code, lengths, depth, left)?;
    put(code, passing_over(overload, targets.end))?;
    emit(code, lengths, depth, right)?;
    put_call(code, overload)?;
    Ok(())
}

// The same for `?:`: one of the branches runs, or none if the condition is an error.
#[cycle(emit)]
fn emit_choice(
    code: &mut Code,
    lengths: &mut Vec<Lengths>,
    depth: u8,
    operands: &[TypedExpr<'_>],
) -> Result<(), AllocError>
    requires three { length operands.now ≡ 3 }
    requires room { (t : ValueType) × HasRoom code.old lengths.old.items depth
        (typed_call t Overload.Conditional (exprs_view operands.now)) }
    ensures grows { OnOk result ((t : ValueType)
        → Grows code.old code.new lengths.old.items lengths.new.items depth
        (typed_call t Overload.Conditional (exprs_view operands.now))) }
{
    let tested = &operands[0];
    let chosen = &operands[1];
    let other = &operands[2];
    let targets = take_targets(lengths, code.len());
    let otherwise = targets.last;
    let failed = targets.end;
    emit(code, lengths, depth, tested)?;
    put(code, Instr::Test { otherwise, failed })?;
    emit(code, lengths, depth, chosen)?;
    put(code, Instr::Jump(failed))?;
    emit(code, lengths, depth, other)?;
    Ok(())
}

// The same for a comprehension.
#[cycle(emit)]
fn emit_loop(
    code: &mut Code,
    lengths: &mut Vec<Lengths>,
    depth: u8,
    parts: &TypedLoop<'_>,
) -> Result<(), AllocError>
    requires room { (t : ValueType) × HasRoom code.old lengths.old.items depth
        (loop_of t (parts_view parts.now)) }
    ensures grows { OnOk result ((t : ValueType)
        → Grows code.old code.new lengths.old.items lengths.new.items depth
        (loop_of t (parts_view parts.now))) }
{
    let targets = take_targets(lengths, code.len());
    let done = targets.last;
    let end = targets.end;
    emit(code, lengths, depth, &parts.range)?;
    put(code, Instr::LoopStart { failed: end })?;
    emit(code, lengths, depth, &parts.init)?;
    put(code, Instr::Store(depth))?;
    let turn = code.len() as u16;
    let first = depth + 1;
    let inside = first + variable_count(parts.variables);
    put(code, turn_instr(parts.variables, first, done))?;
    emit(code, lengths, inside, &parts.condition)?;
    put(code, Instr::LoopTest { done, failed: end })?;
    emit(code, lengths, inside, &parts.step)?;
    put(code, Instr::Store(depth))?;
    put(code, Instr::Jump(turn))?;
    emit(code, lengths, depth + 1, &parts.result)?;
    Ok(())
}
