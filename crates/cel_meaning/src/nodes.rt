//! Nodes, and the nodes inside them.

ghost use Rattle.std.specs.Prelude.{◌≡◌, ◌+◌, ◌<◌, [], ◌∷◌, IfErr, IfOk, OnOk, Option, Some, map, option_map, ℕ};
ghost use Rattle.cel_tree.specs.View.{target_of, tree_view};
ghost use Rattle.cel_tree.specs.private.TreeViews.{boxed_view, loop_view, tree_entries_view, trees_view};
ghost use Rattle.cel_value.specs.Texts.{text_view};
ghost use Rattle.cel_value.specs.View.{answer_view};
ghost use Rattle.cel_types.specs.Meaning.{select_answer};
ghost use Rattle.cel_types.specs.Names.{root_of};
ghost use Rattle.cel_meaning.specs.Origin.{CelPlaced, in_result, placed, placed_each, placed_entries, placed_target, placed_turn, select_place};
ghost use Rattle.cel_meaning.specs.Places.{placed_view};
ghost use Rattle.cel_meaning.specs.Steps.{steps, steps_each, steps_entries, steps_target};
ghost use Rattle.cel_meaning.specs.private.Counting.{loop_steps, operand_steps, then_steps, turn_steps, turns_steps};
ghost use Rattle.cel_meaning.specs.private.Plain.{around_view, loop_answer, shared_view, turn_view, turned, turns};

use crate::around::Around;
use crate::elements::{Turn, turns_of};
use crate::known::{bare_root, turn_scope, variables_of, with_local};
use crate::leaves::{constant_value, field_answer};
use crate::place::{Place, Placed, joined};
use crate::stopped::{Stopped, spend};
use crate::unary::{has_field, select_field};
use crate::way::{Way, way_of};
use cel_tree::{Comprehension, Tree, TreeEntry};
use cel_value::Answer;
use std::sync::{Arc, ArcStr};

/// What a turn of a comprehension does.
#[derive(Drop)]
pub(super) enum Turned<'t> {
    /// The loop continues with this accumulator.
    Next(Placed<'t>),
    /// The loop ends.
    Ends,
    /// The loop's answer is this error.
    Fails(Placed<'t>),
    /// A value is of a wrong kind, or a name is not known.
    Nothing,
}

/// The answer of an expression.
#[cycle(eval)]
pub(super) fn eval<'t>(
    around: &Around<'_, 't>,
    tree: &'t Tree,
    left: &mut u64,
) -> Result<Option<Placed<'t>>, Stopped>
    ensures found { IfOk result (λ found. option_map placed_view found
        ≡ placed around.now.request.now (around_view around.now) (tree_view tree.now)) }
    ensures taken { let r = around.now.request.now in let c = around_view around.now in
        OnOk result (left.old ≡ steps r c (tree_view tree.now) + left.new) }
    ensures out { let r = around.now.request.now in let c = around_view around.now in
        IfErr result (λ e. e ≡ Stopped.OutOfSteps → left.old < steps r c (tree_view tree.now)) }
{
    spend(left)?;
    match tree {
        Tree::Constant { value, .. } => Ok(Some(Placed::of(constant_value(value)?))),
        Tree::Ident { name, .. } => Ok(around.name(tree, name)?),
        Tree::Select {
            operand,
            field,
            test_only,
            ..
        } => {
            let (answer, inner) = eval_select(around, operand, field, *test_only, left)?;
            Ok(around.settled(tree, answer, inner)?)
        }
        Tree::Call {
            function,
            target,
            args,
            ..
        } => match eval_target(around, target, left)? {
            Some(first) => match eval_each(around, args, left)? {
                Some(others) => {
                    let operands = joined(first, others)?;
                    Ok(around.call(tree, function, &operands)?)
                }
                None => Ok(None),
            },
            None => Ok(None),
        },
        Tree::List { elements, .. } => {
            match eval_each(around, elements, left)? {
                Some(operands) => Ok(around.list(tree, &operands)?),
                None => Ok(None),
            }
        }
        Tree::Map { entries, .. } => match eval_entries(around, entries, left)? {
            Some(operands) => Ok(around.map(tree, &operands)?),
            None => Ok(None),
        },
        Tree::Comprehension { parts, .. } => eval_loop(around, parts, left),
    }
}

// A Select: a root's attribute, or a test or value of a map at a name; and the place of the map.
#[cycle(eval)]
fn eval_select<'t>(
    around: &Around<'_, 't>,
    operand: &'t Tree,
    field: &ArcStr,
    test_only: bool,
    left: &mut u64,
) -> Result<(Option<Answer>, Option<Arc<Place<'t>>>), Stopped>
    ensures found { let c = around_view around.now in let on = placed around.now.request.now c (tree_view operand.now) in
        let root = root_of (tree_view operand.now) c.locals in
        IfOk result (λ found. (option_map answer_view found.0 ≡ select_answer around.now.request.now root
        (option_map (λ a. a.0) on) (text_view field.now) test_only)
        × (shared_view found.1 ≡ select_place root on)) }
    ensures taken { let r = around.now.request.now in let c = around_view around.now in
        OnOk result (left.old ≡ operand_steps r c (tree_view operand.now) + left.new) }
    ensures out { let r = around.now.request.now in let c = around_view around.now in
        IfErr result (λ e. e ≡ Stopped.OutOfSteps → left.old < operand_steps r c (tree_view operand.now)) }
{
    if let Some(root) = bare_root(operand, around.known) {
        if test_only {
            return Ok((None, None));
        }
        let answer = field_answer(around.alloc, root, field, around.request)?;
        return Ok((answer, None));
    }
    match eval(around, operand, left)? {
        None => Ok((None, None)),
        Some(Placed { answer, place }) => {
            if test_only {
                let has = has_field(field, &answer);
                drop(answer);
                return Ok((has, place));
            }
            let selected = select_field(field, &answer);
            drop(answer);
            Ok((selected?, place))
        }
    }
}

// The target of a call, if there is one.
#[cycle(eval)]
fn eval_target<'t>(
    around: &Around<'_, 't>,
    target: &'t Option<Box<Tree>>,
    left: &mut u64,
) -> Result<Option<Vec<Placed<'t>>>, Stopped>
    ensures found { IfOk result (λ found. option_map (λ v. map placed_view v.items) found
        ≡ placed_target around.now.request.now (around_view around.now) (target_of (boxed_view target.now)) (Some [])) }
    ensures taken { let r = around.now.request.now in let c = around_view around.now in
        OnOk result (left.old ≡ steps_target r c (target_of (boxed_view target.now)) 0 + left.new) }
    ensures out { let r = around.now.request.now in let c = around_view around.now in
        IfErr result (λ e. e ≡ Stopped.OutOfSteps → left.old < steps_target r c (target_of (boxed_view target.now)) 0) }
{
    let mut operands = Vec::new(around.alloc);
    match target {
        None => Ok(Some(operands)),
        Some(target) => match eval(around, target, left)? {
            None => Ok(None),
            Some(answer) => {
                operands.push(answer)?;
                Ok(Some(operands))
            }
        },
    }
}

// Expressions in order.
#[cycle(eval)]
fn eval_each<'t>(
    around: &Around<'_, 't>,
    trees: &'t [Tree],
    left: &mut u64,
) -> Result<Option<Vec<Placed<'t>>>, Stopped>
    ensures found { IfOk result (λ found. option_map (λ v. map placed_view v.items) found
        ≡ placed_each around.now.request.now (around_view around.now) (trees_view trees.now)) }
    ensures taken { let r = around.now.request.now in let c = around_view around.now in
        OnOk result (left.old ≡ steps_each r c (trees_view trees.now) + left.new) }
    ensures out { let r = around.now.request.now in let c = around_view around.now in
        IfErr result (λ e. e ≡ Stopped.OutOfSteps → left.old < steps_each r c (trees_view trees.now)) }
{
    let mut answers = Vec::new(around.alloc);
    for tree in trees {
        match eval(around, tree, left)? {
            Some(answer) => answers.push(answer)?,
            None => return Ok(None),
        }
    }
    Ok(Some(answers))
}

// Keys and values, in turn.
#[cycle(eval)]
fn eval_entries<'t>(
    around: &Around<'_, 't>,
    entries: &'t [TreeEntry],
    left: &mut u64,
) -> Result<Option<Vec<Placed<'t>>>, Stopped>
    ensures found { IfOk result (λ found. option_map (λ v. map placed_view v.items) found
        ≡ placed_entries around.now.request.now (around_view around.now) (tree_entries_view entries.now)) }
    ensures taken { let r = around.now.request.now in let c = around_view around.now in
        OnOk result (left.old ≡ steps_entries r c (tree_entries_view entries.now) + left.new) }
    ensures out { let r = around.now.request.now in let c = around_view around.now in
        IfErr result (λ e. e ≡ Stopped.OutOfSteps → left.old < steps_entries r c (tree_entries_view entries.now)) }
{
    let mut answers = Vec::new(around.alloc);
    for entry in entries {
        match eval(around, &entry.key, left)? {
            Some(key) => answers.push(key)?,
            None => return Ok(None),
        }
        match eval(around, &entry.value, left)? {
            Some(value) => answers.push(value)?,
            None => return Ok(None),
        }
    }
    Ok(Some(answers))
}

// A comprehension: its range, its initial value, and then its turns and its result.
#[cycle(eval)]
fn eval_loop<'t>(
    around: &Around<'_, 't>,
    parts: &'t Comprehension,
    left: &mut u64,
) -> Result<Option<Placed<'t>>, Stopped>
    ensures found { IfOk result (λ found. option_map placed_view found
        ≡ loop_answer (loop_view parts.now) around.now.request.now (around_view around.now)) }
    ensures taken { let r = around.now.request.now in let c = around_view around.now in
        OnOk result (left.old ≡ loop_steps (loop_view parts.now) r c + left.new) }
    ensures out { let r = around.now.request.now in let c = around_view around.now in
        IfErr result (λ e. e ≡ Stopped.OutOfSteps → left.old < loop_steps (loop_view parts.now) r c) }
{
    let range = match eval(around, &parts.iter_range, left)? {
        None => return Ok(None),
        Some(range) => range,
    };
    let turns = match &range.answer {
        Err(_) => return Ok(Some(range)),
        Ok(value) => turns_of(around.alloc, variables_of(&parts.iter_var2), value)?,
    };
    drop(range);
    let Some(turns) = turns else {
        return Ok(None);
    };
    match eval(around, &parts.accu_init, left)? {
        None => Ok(None),
        Some(init) => eval_turns(around, parts, &turns, init, left),
    }
}

// All turns of a comprehension, from this accumulator, and then its result.
#[cycle(eval)]
fn eval_turns<'t>(
    around: &Around<'_, 't>,
    parts: &'t Comprehension,
    each: &[Turn],
    init: Placed<'t>,
    left: &mut u64,
) -> Result<Option<Placed<'t>>, Stopped>
    ensures found { IfOk result (λ found. option_map placed_view found
        ≡ turns (loop_view parts.now) around.now.request.now (around_view around.now) 0 (map turn_view each.now)
        (placed_view init.entry)) }
    ensures taken { let r = around.now.request.now in let c = around_view around.now in
        OnOk result (left.old ≡ turns_steps (loop_view parts.now) r c 0 (map turn_view each.now) (placed_view init.entry)
        + left.new) }
    ensures out { let r = around.now.request.now in let c = around_view around.now in
        IfErr result (λ e. e ≡ Stopped.OutOfSteps
        → left.old < turns_steps (loop_view parts.now) r c 0 (map turn_view each.now) (placed_view init.entry)) }
{
    let mut gathered = init;
    for number in 0..each.len() {
        let known = turn_scope(around.alloc, parts, around.known, &each[number], &gathered)?;
        let turns = around.turns_with(number)?;
        let inner = Around {
            turns: &turns,
            known: &known,
            ..*around
        };
        match eval_turn(&inner, parts, left)? {
            Turned::Next(next) => gathered = next,
            Turned::Ends => return eval_result(around, parts, &gathered, left),
            Turned::Fails(error) => return Ok(Some(error)),
            Turned::Nothing => return Ok(None),
        }
    }
    eval_result(around, parts, &gathered, left)
}

// The result of the last accumulator.
#[cycle(eval)]
fn eval_result<'t>(
    around: &Around<'_, 't>,
    parts: &'t Comprehension,
    gathered: &Placed<'t>,
    left: &mut u64,
) -> Result<Option<Placed<'t>>, Stopped>
    ensures found { IfOk result (λ found. option_map placed_view found ≡ placed around.now.request.now
        (in_result (text_view parts.now.accu_var) (placed_view gathered.now) (around_view around.now))
        (tree_view parts.now.result)) }
    ensures taken { let r = around.now.request.now in let c = around_view around.now in
        OnOk result (left.old ≡ steps r (in_result (text_view parts.now.accu_var) (placed_view gathered.now) c)
        (tree_view parts.now.result) + left.new) }
    ensures out { let r = around.now.request.now in let c = around_view around.now in
        IfErr result (λ e. e ≡ Stopped.OutOfSteps
        → left.old < steps r (in_result (text_view parts.now.accu_var) (placed_view gathered.now) c) (tree_view parts.now.result)) }
{
    let known = with_local(around.alloc, around.known, &parts.accu_var, gathered)?;
    let inner = Around {
        known: &known,
        ..*around
    };
    eval(&inner, &parts.result, left)
}

// One turn, with its variables and the accumulator around it.
#[cycle(eval)]
fn eval_turn<'t>(
    around: &Around<'_, 't>,
    parts: &'t Comprehension,
    left: &mut u64,
) -> Result<Turned<'t>, Stopped>
    ensures found { let r = around.now.request.now in let c = around_view around.now in
        IfOk result (λ t. (next : CelPlaced → Option CelPlaced) (ended : Option CelPlaced)
        → placed_turn (placed r c (tree_view parts.now.loop_condition)) (placed r c (tree_view parts.now.loop_step))
        next ended ≡ turned t next ended) }
    ensures taken { let r = around.now.request.now in let c = around_view around.now in
        IfOk result (λ t. (next : CelPlaced → ℕ) (ended : ℕ)
        → left.old + then_steps t next ended ≡ turn_steps (loop_view parts.now) r c next ended + left.new) }
    ensures out { let r = around.now.request.now in let c = around_view around.now in
        IfErr result (λ e. e ≡ Stopped.OutOfSteps → (next : CelPlaced → ℕ) (ended : ℕ)
        → left.old < turn_steps (loop_view parts.now) r c next ended) }
{
    let condition = match eval(around, &parts.loop_condition, left)? {
        None => return Ok(Turned::Nothing),
        Some(condition) => condition,
    };
    match way_of(&condition.answer) {
        Way::Goes => {
            drop(condition);
            match eval(around, &parts.loop_step, left)? {
                Some(next) => Ok(Turned::Next(next)),
                None => Ok(Turned::Nothing),
            }
        }
        Way::Ends => {
            drop(condition);
            Ok(Turned::Ends)
        }
        Way::Nothing => {
            drop(condition);
            Ok(Turned::Nothing)
        }
        Way::Fails => Ok(Turned::Fails(condition)),
    }
}
