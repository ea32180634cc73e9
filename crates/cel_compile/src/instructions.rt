//! Single instructions of the code of elaborated expressions.

ghost use Rattle.std.specs.Prelude.{◌≡◌, ◌≢◌, ◌<◌, ◌≤◌, ◌↔◌, ◌⊎◌, ◌^◌, IfOk, IsTrue, length};
ghost use Rattle.cel_ops.specs.declared.operation.Operation.TheVariants as operations;
ghost use Rattle.cel_overload.specs.declared.overload.Overload.TheVariants as Overload;
ghost use Rattle.cel_value.specs.Types.{type_view};
ghost use Rattle.cel_tree.specs.View.{constant_view};
ghost use Rattle.cel_types.specs.private.ExprViews.{exprs_view};
ghost use Rattle.cel_types.specs.Names.{variable_count};
ghost use Rattle.machine_code.specs.Instructions.{instr_view, Const, Field, HasField};
ghost use Rattle.machine_code.specs.Instructions as machine;
ghost use Rattle.cel_value.specs.Texts.{text_view};
ghost use Rattle.cel_compile.specs.Codes.{instruction_of, list_instruction, map_instruction, turn_instruction};
ghost use Rattle.cel_compile.specs.private.Emitting.{passing_over};

use cel_ops::Operation;
use cel_overload::Overload;
use cel_tree::Constant;
use cel_types::{TypedExpr, Variables};
use cel_value::CelType;
use machine_code::{Constant as MachineConstant, Instr};
use std::alloc::AllocError;
use std::sync::ArcStr;

/// Whether a call is `&&` or `||` with two operands; its code jumps.
pub(crate) fn is_junction(overload: Overload, count: usize) -> bool
    ensures { IsTrue result ↔ (((overload ≡ Overload.Operate operations.And)
        ⊎ (overload ≡ Overload.Operate operations.Or)) × (count ≡ 2)) }
{
    (overload == Overload::Operate(Operation::And) || overload == Overload::Operate(Operation::Or))
        && count == 2
}

/// Whether a call is `?:` with three operands; its code jumps.
pub(crate) fn is_choice(overload: Overload, count: usize) -> bool
    ensures { IsTrue result ↔ ((overload ≡ Overload.Conditional) × (count ≡ 3)) }
{
    overload == Overload::Conditional && count == 3
}

/// The push of a constant; it shares the tree's text or bytes.
pub(crate) fn constant_instr(constant: &Constant) -> Result<Instr, AllocError>
    ensures { IfOk result (λ i. instr_view i ≡ Const (constant_view constant.now)) }
{
    Ok(Instr::Const(constant_of(constant)?))
}

// The constant as the machine has it.
fn constant_of(constant: &Constant) -> Result<MachineConstant, AllocError>
    ensures { IfOk result (λ c. machine.constant_view c ≡ constant_view constant.now) }
{
    match constant {
        Constant::Bool(b) => Ok(MachineConstant::Bool(*b)),
        Constant::Int(i) => Ok(MachineConstant::Int(*i)),
        Constant::Uint(n) => Ok(MachineConstant::Uint(*n)),
        Constant::Text(text) => Ok(MachineConstant::Text(text.clone()?)),
        Constant::Bytes(bytes) => Ok(MachineConstant::Bytes(bytes.clone()?)),
    }
}

/// The look-up of a name in a map; it shares the tree's text.
pub(crate) fn field_instr(name: &ArcStr) -> Result<Instr, AllocError>
    ensures { IfOk result (λ i. instr_view i ≡ Field (text_view name.now)) }
{
    Ok(Instr::Field(name.clone()?))
}

/// The test whether a map has a name; it shares the tree's text.
pub(crate) fn has_field_instr(name: &ArcStr) -> Result<Instr, AllocError>
    ensures { IfOk result (λ i. instr_view i ≡ HasField (text_view name.now)) }
{
    Ok(Instr::HasField(name.clone()?))
}

/// The jump over the right side: of `&&` if the left side is false, of `||` if it is true.
pub(crate) fn passing_over(overload: Overload, end: u16) -> Instr
    ensures { instr_view result ≡ passing_over overload end }
{
    if overload == Overload::Operate(Operation::Or) {
        return Instr::IfTrue(end);
    }
    Instr::IfFalse(end)
}

/// The instruction of a call on its operands' answers.
pub(crate) fn call_instr(overload: Overload) -> Instr
    ensures { instr_view result ≡ instruction_of overload }
{
    match overload {
        Overload::Conditional => Instr::Operate(Operation::Not),
        Overload::Operate(op) => Instr::Operate(op),
    }
}

/// The instruction of a list literal of this type. It has the items' type if the list is empty, else the number
/// of elements.
pub(crate) fn list_instr(
    cel_type: &CelType,
    elements: &[TypedExpr<'_>],
) -> Result<Instr, AllocError>
    requires { length elements.now < 2 ^ 16 }
    ensures { IfOk result (λ i.
        instr_view i ≡ list_instruction (type_view cel_type.now) (exprs_view elements.now)) }
{
    match cel_type {
        CelType::List(items) if elements.is_empty() => Ok(Instr::EmptyList(items.copy()?)),
        _ => Ok(Instr::MakeList(elements.len() as u16)),
    }
}

/// The instruction of a map literal of this type. It has the types of keys and values if the map is empty, else
/// the number of pairs.
pub(crate) fn map_instr(cel_type: &CelType, pairs: &[TypedExpr<'_>]) -> Result<Instr, AllocError>
    requires { length pairs.now < 2 ^ 16 }
    ensures { IfOk result (λ i.
        instr_view i ≡ map_instruction (type_view cel_type.now) (exprs_view pairs.now)) }
{
    match cel_type {
        CelType::Map(keys, values) if pairs.is_empty() => Ok(Instr::EmptyMap(
            *keys,
            values.copy()?,
        )),
        _ => Ok(Instr::MakeMap((pairs.len() / 2) as u16)),
    }
}

/// How many variables a comprehension has beside its accumulator.
pub(crate) fn variable_count(variables: Variables) -> u8
    ensures same { result ≡ variable_count variables }
    ensures few { result ≤ 2 }
{
    match variables {
        Variables::One => 1,
        Variables::Two => 2,
    }
}

/// The begin of a turn. It sets the local with this number, and for two variables the next one too.
pub(crate) fn turn_instr(variables: Variables, local: u8, done: u16) -> Instr
    requires { local < 255 }
    ensures { instr_view result ≡ turn_instruction variables local done }
{
    match variables {
        Variables::One => Instr::LoopNext { local, done },
        Variables::Two => Instr::LoopNext2 {
            key: local,
            value: local + 1,
            done,
        },
    }
}
