//! Measures expressions: the size of the answer, the cost, and the visits.

ghost use Rattle.std.specs.Prelude.{◌≡◌, ◌+◌, [], ◌∷◌, IfErr, IfOk, length};
ghost use Rattle.proto_wire.specs.Refusal.{MemoryOr};
ghost use Rattle.cel_overload.specs.declared.overload.Overload.TheVariants.{Conditional};
ghost use Rattle.cel_types.specs.View.{expr_view};
ghost use Rattle.cel_types.specs.private.ExprViews.{exprs_view, parts_view};
ghost use Rattle.cel_value.specs.Texts.{text_view};
ghost use Rattle.cel_value.specs.Types.{ValueType, type_view};
ghost use Rattle.cel_costs.specs.Sizes.{join};
ghost use Rattle.cost_bound.specs.private.Finding.{ExceedsBody, ExceedsCall, ExceedsExpr, ExceedsField, ExceedsInside, ExceedsList, ExceedsLoop, ExceedsMap, ExceedsOthers, ExceedsParts, ExceedsTurn, ExceedsTurns, FindsBody, FindsCall, FindsExpr, FindsField, FindsHas, FindsInside, FindsList, FindsLoop, FindsMap, FindsOthers, FindsParts, FindsTurn, FindsTurns};
ghost use Rattle.cost_bound.specs.private.Measuring.{Exceeds, Finds, cost_in, scope_in, size_in, visits_in};
ghost use Rattle.cost_bound.specs.private.ScopeView.{scope_view};
ghost use Rattle.cost_bound.specs.private.SizeView.{size_view};

use crate::budget::Budget;
use crate::charges::{field_part, is_choice, pay, pay_turns};
use crate::joining::join_owned;
use crate::known::{attribute_size, constant_size};
use crate::made::{Entries, key_count, list_size, map_size};
use crate::measured::{Measured, call_of_one, call_of_two, leaf};
use crate::measuring::{Around, Measuring, Turns};
use crate::same::same;
use crate::scope::{all_of, find};
use crate::size::ValueSize;
use crate::variables::VariableSizes;
use crate::visits::visit;
use crate::wider::join;
use cel_overload::Overload;
use cel_types::{TypedExpr, TypedLoop};
use cel_value::CelType;
use proto_wire::Refusal;
use std::alloc::Global;
use std::sync::ArcStr;

/// Measures an expression: the visit of its node, and what it has.
#[cycle(measure)]
pub(crate) fn measure(
    alloc: Global,
    expr: &TypedExpr<'_>,
    at: &Measuring<'_>,
    left: Budget,
) -> Result<Measured, Refusal>
    ensures found { IfOk result (FindsExpr at.now (expr_view expr.now) left) }
    ensures fault { IfErr result (MemoryOr (ExceedsExpr at.now (expr_view expr.now) left)) }
{
    let rest = visit(left, expr.cel_type())?;
    measure_node(alloc, expr, at, rest)
}

// The same without the visit of the expression's own node.
#[cycle(measure)]
fn measure_node(
    alloc: Global,
    expr: &TypedExpr<'_>,
    at: &Measuring<'_>,
    left: Budget,
) -> Result<Measured, Refusal>
    ensures found { IfOk result (FindsInside at.now (expr_view expr.now) left) }
    ensures fault { IfErr result (MemoryOr (ExceedsInside at.now (expr_view expr.now) left)) }
{
    match expr {
        TypedExpr::Constant { value, .. } => leaf(constant_size(value), left),
        TypedExpr::Local { outside, .. } => leaf(find(at, *outside)?, left),
        TypedExpr::Attribute { id, .. } => leaf(attribute_size(alloc, at, *id)?, left),
        TypedExpr::Field { map, name, .. } => measure_field(alloc, map, at, name, left),
        TypedExpr::HasField { map, name, .. } => measure_has(alloc, map, at, name, left),
        TypedExpr::Call {
            overload,
            operands,
            ..
        } => measure_call(alloc, operands, at, *overload, left),
        TypedExpr::List { cel_type, elements } => measure_list(alloc, elements, at, cel_type, left),
        TypedExpr::Map { cel_type, pairs } => measure_map(alloc, pairs, at, cel_type, left),
        TypedExpr::Loop { parts, .. } => measure_loop(alloc, parts, at, left),
    }
}

// A look-up of a name in a map; gives the size of the map's values.
#[cycle(measure)]
#[inline(always)]
fn measure_field(
    alloc: Global,
    map: &TypedExpr<'_>,
    at: &Measuring<'_>,
    name: &ArcStr,
    left: Budget,
) -> Result<Measured, Refusal>
    ensures found { IfOk result (FindsField at.now (expr_view map.now) (text_view name.now) left) }
    ensures fault { IfErr result (MemoryOr (ExceedsField at.now (expr_view map.now) (text_view name.now) left)) }
{
    let found = measure(alloc, map, at, left)?;
    let left = pay(found.left, field_part(name, &found.size))?;
    let size = found.size.value()?;
    Ok(Measured { size, left })
}

// The question whether a map has a name.
#[cycle(measure)]
#[inline(always)]
fn measure_has(
    alloc: Global,
    map: &TypedExpr<'_>,
    at: &Measuring<'_>,
    name: &ArcStr,
    left: Budget,
) -> Result<Measured, Refusal>
    ensures found { IfOk result (FindsHas at.now (expr_view map.now) (text_view name.now) left) }
    ensures fault { IfErr result (MemoryOr (ExceedsField at.now (expr_view map.now) (text_view name.now) left)) }
{
    let found = measure_field(alloc, map, at, name, left)?;
    let size = ValueSize::Flat;
    let left = found.left;
    Ok(Measured { size, left })
}

// A list literal. The sizes of its items are joined as they are found.
#[cycle(measure)]
fn measure_list(
    alloc: Global,
    items: &[TypedExpr<'_>],
    at: &Measuring<'_>,
    cel_type: &CelType,
    left: Budget,
) -> Result<Measured, Refusal>
    ensures found { IfOk result (FindsList at.now (type_view cel_type.now) (exprs_view items.now) left) }
    ensures fault { IfErr result (MemoryOr (ExceedsList at.now (exprs_view items.now) left)) }
{
    let mut joined = ValueSize::Flat;
    let mut rest = left;
    for item in items {
        let found = measure(alloc, item, at, rest)?;
        joined = join_owned(alloc, joined, found.size)?;
        rest = found.left;
    }
    let count = items.len() as u64;
    let left = pay(rest, count)?;
    let size = list_size(alloc, cel_type, count, joined)?;
    Ok(Measured { size, left })
}

// A map literal, by its keys and values in turn, from the last to the first.
#[cycle(measure)]
fn measure_map(
    alloc: Global,
    pairs: &[TypedExpr<'_>],
    at: &Measuring<'_>,
    cel_type: &CelType,
    left: Budget,
) -> Result<Measured, Refusal>
    ensures found { IfOk result (FindsMap at.now (type_view cel_type.now) (exprs_view pairs.now) left) }
    ensures fault { IfErr result (MemoryOr (ExceedsMap at.now (exprs_view pairs.now) left)) }
{
    let mut entries = Entries::none();
    let mut rest = left;
    let mut place = pairs.len();
    while place > 0 {
        place -= 1;
        let found = measure(alloc, &pairs[place], at, rest)?;
        entries = entries.from_before(alloc, found.size)?;
        rest = found.left;
    }
    let keys = key_count(pairs.len());
    let left = pay(rest, entries.part(keys))?;
    let size = map_size(alloc, cel_type, keys, entries)?;
    Ok(Measured { size, left })
}

// A call; of a conditional's branches the greater cost counts.
#[cycle(measure)]
#[inline(always)]
fn measure_call(
    alloc: Global,
    operands: &[TypedExpr<'_>],
    at: &Measuring<'_>,
    overload: Overload,
    left: Budget,
) -> Result<Measured, Refusal>
    ensures found { IfOk result (FindsCall at.now overload (exprs_view operands.now) left) }
    ensures fault { IfErr result (MemoryOr (ExceedsCall at.now overload (exprs_view operands.now) left)) }
{
    match operands.len() {
        1 => measure_single(alloc, &operands[0], at, overload, left),
        2 => measure_pair(alloc, operands, at, overload, left),
        _ if is_choice(overload, operands) => measure_conditional(alloc, operands, at, left),
        _ => measure_others(alloc, operands, at, left),
    }
}

// A call of one operand.
#[cycle(measure)]
#[inline(always)]
fn measure_single(
    alloc: Global,
    only: &TypedExpr<'_>,
    at: &Measuring<'_>,
    overload: Overload,
    left: Budget,
) -> Result<Measured, Refusal>
    ensures found { IfOk result (FindsCall at.now overload (exprs_view (only.now ∷ [])) left) }
    ensures fault { IfErr result (MemoryOr (ExceedsCall at.now overload (exprs_view (only.now ∷ [])) left)) }
{
    let found = measure(alloc, only, at, left)?;
    call_of_one(overload, only, found)
}

// A call of two operands.
#[cycle(measure)]
#[inline(always)]
fn measure_pair(
    alloc: Global,
    operands: &[TypedExpr<'_>],
    at: &Measuring<'_>,
    overload: Overload,
    left: Budget,
) -> Result<Measured, Refusal>
    requires two { length operands.now ≡ 2 }
    ensures found { IfOk result (FindsCall at.now overload (exprs_view operands.now) left) }
    ensures fault { IfErr result (MemoryOr (ExceedsCall at.now overload (exprs_view operands.now) left)) }
{
    let one = measure(alloc, &operands[0], at, left)?;
    let other = measure(alloc, &operands[1], at, one.left)?;
    call_of_two(alloc, overload, &one.size, &other.size, other.left)
}

// A call of any other number of operands, which no overload takes.
#[cycle(measure)]
fn measure_others(
    alloc: Global,
    operands: &[TypedExpr<'_>],
    at: &Measuring<'_>,
    left: Budget,
) -> Result<Measured, Refusal>
    ensures found { IfOk result (FindsOthers at.now (exprs_view operands.now) left) }
    ensures fault { IfErr result (MemoryOr (ExceedsOthers at.now (exprs_view operands.now) left)) }
{
    let mut rest = left;
    for operand in operands {
        let found = measure(alloc, operand, at, rest)?;
        rest = found.left;
    }
    leaf(ValueSize::Flat, rest)
}

// A conditional of three operands.
#[cycle(measure)]
fn measure_conditional(
    alloc: Global,
    operands: &[TypedExpr<'_>],
    at: &Measuring<'_>,
    left: Budget,
) -> Result<Measured, Refusal>
    requires three { length operands.now ≡ 3 }
    ensures found { IfOk result (FindsCall at.now Conditional (exprs_view operands.now) left) }
    ensures fault { IfErr result (MemoryOr (ExceedsCall at.now Conditional (exprs_view operands.now) left)) }
{
    match operands {
        [condition, first, second] => {
            let tested = measure(alloc, condition, at, left)?;
            let before = pay(tested.left, 0)?;
            drop(tested);
            let one = measure(alloc, first, at, before)?;
            let rest = Budget {
                steps: before.steps,
                visits: one.left.visits,
            };
            let other = measure(alloc, second, at, rest)?;
            let least = Budget {
                steps: one.left.steps.min(other.left.steps),
                visits: other.left.visits,
            };
            let left = pay(least, 0)?;
            let size = join_owned(alloc, one.size, other.size)?;
            Ok(Measured { size, left })
        }
        _ => unreachable!(),
    }
}

// A comprehension. All locals in scope are one list in it.
#[cycle(measure)]
fn measure_loop(
    alloc: Global,
    parts: &TypedLoop<'_>,
    at: &Measuring<'_>,
    left: Budget,
) -> Result<Measured, Refusal>
    ensures found { (t : ValueType) → IfOk result (FindsLoop at.now t (parts_view parts.now) left) }
    ensures fault { (t : ValueType) → IfErr result (MemoryOr (ExceedsLoop at.now t (parts_view parts.now) left)) }
{
    let locals = all_of(alloc, at)?;
    let around = Around {
        limits: at.around.limits,
        locals: &locals,
    };
    measure_parts(alloc, parts, around, left)
}

// The parts of a comprehension: the range, the turns over its elements, and the result.
#[cycle(measure)]
fn measure_parts(
    alloc: Global,
    parts: &TypedLoop<'_>,
    around: Around<'_>,
    left: Budget,
) -> Result<Measured, Refusal>
    ensures found { (t : ValueType) → IfOk result (FindsParts around.entry t (parts_view parts.now) left) }
    ensures fault { (t : ValueType) → IfErr result (MemoryOr (ExceedsParts around.entry t (parts_view parts.now) left)) }
{
    let before = Measuring { around, inner: &[] };
    let range = measure(alloc, &parts.range, &before, left)?;
    let opened = pay(range.left, range.size.most())?;
    let found = VariableSizes::of_range(parts.variables, &range.size)?;
    let each = &found;
    let count = range.size.most();
    drop(range);
    let init = measure(alloc, &parts.init, &before, opened)?;
    let begun = leaf(init.size, init.left)?;
    let turns = Turns { around, each };
    let accumulator = measure_turns(alloc, parts, &turns, count, begun)?;
    let closed = pay(accumulator.left, 0)?;
    let inner = &[&accumulator.size];
    measure(alloc, &parts.result, &Measuring { around, inner }, closed)
}

// So many turns, until the accumulator's size stays the same: each of the others costs as the last one, unvisited.
#[cycle(measure)]
fn measure_turns(
    alloc: Global,
    parts: &TypedLoop<'_>,
    turns: &Turns<'_>,
    count: u64,
    begun: Measured,
) -> Result<Measured, Refusal>
    ensures found { IfOk result (FindsTurns (parts_view parts.now) turns.now count begun) }
    ensures fault { IfErr result (MemoryOr (ExceedsTurns (parts_view parts.now) turns.now count begun)) }
{
    let mut accumulator = begun.size;
    let mut rest = begun.left;
    let mut others = count;
    while others > 0 {
        let turn = measure_turn(alloc, parts, turns, &accumulator, rest)?;
        others -= 1;
        if same(&turn.size, &accumulator) {
            let left = pay_turns(turn.left, others, rest.steps - turn.left.steps)?;
            let size = accumulator;
            return Ok(Measured { size, left });
        }
        rest = turn.left;
        accumulator = turn.size;
    }
    let size = accumulator;
    let left = rest;
    Ok(Measured { size, left })
}

// One turn, and the accumulator's size after it.
#[cycle(measure)]
fn measure_turn(
    alloc: Global,
    parts: &TypedLoop<'_>,
    turns: &Turns<'_>,
    accumulator: &ValueSize,
    left: Budget,
) -> Result<Measured, Refusal>
    ensures found { IfOk result (FindsTurn (parts_view parts.now) turns.now (size_view accumulator.now) left) }
    ensures fault { IfErr result (MemoryOr (ExceedsTurn (parts_view parts.now) turns.now (size_view accumulator.now) left)) }
{
    let rest = visit(left, parts.init.cel_type())?;
    let around = turns.around;
    match &turns.each.key {
        None => {
            let inner = &[accumulator, &turns.each.value];
            measure_body(alloc, parts, Measuring { around, inner }, accumulator, rest)
        }
        Some(key) => {
            let inner = &[accumulator, key, &turns.each.value];
            measure_body(alloc, parts, Measuring { around, inner }, accumulator, rest)
        }
    }
}

// The condition and the step, with the locals in scope, and the accumulator's size after them.
#[cycle(measure)]
fn measure_body(
    alloc: Global,
    parts: &TypedLoop<'_>,
    inside: Measuring<'_>,
    accumulator: &ValueSize,
    left: Budget,
) -> Result<Measured, Refusal>
    ensures found { IfOk result (FindsBody inside.entry (parts_view parts.now) (size_view accumulator.now) left) }
    ensures fault { IfErr result (MemoryOr (ExceedsBody inside.entry (parts_view parts.now) left)) }
{
    let tested = measure(alloc, &parts.condition, &inside, left)?;
    let stepped = measure(alloc, &parts.step, &inside, tested.left)?;
    let left = pay(stepped.left, 3)?;
    let size = join(alloc, accumulator, &stepped.size)?;
    Ok(Measured { size, left })
}
