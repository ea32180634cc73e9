//! Checks nodes, and the nodes inside them.

ghost use Rattle.std.specs.Prelude.{◌≡◌, ◌≤◌, ◌+◌, IfErr, IfOk, length, map, max};
ghost use Rattle.cel_tree.specs.Tree.{list_literal, map_literal, select};
ghost use Rattle.cel_tree.specs.View.{checked_view, loop_of, target_of, tree_view};
ghost use Rattle.cel_tree.specs.private.TreeViews.{boxed_view, loop_view, tree_entries_view, trees_view};
ghost use Rattle.cel_value.specs.Texts.{text_view};
ghost use Rattle.cel_value.specs.Types.{type_view};
ghost use Rattle.cel_types.specs.Elaborated.{ElaboratesPairs, kind};
ghost use Rattle.cel_types.specs.Typing.{locals_in, locals_in_each, locals_in_entries, locals_in_target, maps_of, most_locals};
ghost use Rattle.cel_types.specs.Agreeing.{PairsAgree};
ghost use Rattle.cel_types.specs.View.{expr_view};
ghost use Rattle.cel_types.specs.private.ExprViews.{exprs_view};
ghost use Rattle.cel_tree.specs.Places.{PlacedOr};
ghost use Rattle.cel_check.specs.Places.{PairFaultAt, SomeFaultAt, TargetFaultAt, TypeFaultAt};
ghost use Rattle.cel_check.specs.private.Checks.{AreFound, AreTwo, BodyFault, EitherFault, IsBody, IsFound, IsNode, IsTarget, IsTurn, PlacedInside, StepFault, TurnFault};
ghost use Rattle.cel_check.specs.private.Scopes.{locals_in_loop, scope_view};

use crate::checker::calls::call_expr;
use crate::checker::entries::require_type;
use crate::checker::kinds::{bool_expr, constant_type, expr_of, turn_types};
use crate::checker::literals::{list_type, map_type};
use crate::checker::loops::{loop_expr, require_names_differ, variables_of};
use crate::checker::names::bare_root;
use crate::checker::naming::{at_node, id_of};
use crate::checker::scope::Scope;
use crate::checker::variables::{check_attribute, check_ident, field_expr};
use cel_tree::{Checked, Comprehension, Tree, TreeEntry, both, kept};
use cel_types::TypedExpr;
use cel_value::CelType;
use proto_wire::Fault;
use std::alloc::Global;
use std::sync::ArcStr;

/// Checks an expression: its node, and then the node's type entry.
#[cycle(check)]
pub(super) fn check_tree<'a>(
    alloc: Global,
    checked: &'a Checked,
    scope: &Scope<'_>,
    tree: &'a Tree,
) -> Result<TypedExpr<'a>, Fault>
    requires { length (scope_view scope.now) + locals_in (tree_view tree.now) ≤ most_locals }
    ensures found { IfOk result (λ e. IsFound (maps_of (checked_view checked.now)) (scope_view scope.now)
        (tree_view tree.now) (expr_view e)) }
    ensures fault { IfErr result (PlacedOr (TypeFaultAt (maps_of (checked_view checked.now)) (scope_view scope.now)
        (tree_view tree.now))) }
{
    at_node(check_agreeing(alloc, checked, scope, tree), id_of(tree))
}

// Checks an expression, as `check_tree` does. A fault of its own node has no place.
#[cycle(check)]
#[inline(always)]
fn check_agreeing<'a>(
    alloc: Global,
    checked: &'a Checked,
    scope: &Scope<'_>,
    tree: &'a Tree,
) -> Result<TypedExpr<'a>, Fault>
    requires { length (scope_view scope.now) + locals_in (tree_view tree.now) ≤ most_locals }
    ensures found { IfOk result (λ e. IsFound (maps_of (checked_view checked.now)) (scope_view scope.now)
        (tree_view tree.now) (expr_view e)) }
    ensures fault { IfErr result (PlacedOr (PlacedInside (maps_of (checked_view checked.now)) (scope_view scope.now)
        (tree_view tree.now))) }
{
    let typed = check_node(alloc, checked, scope, tree)?;
    let agrees = require_type(checked.types.get(id_of(tree)), typed.cel_type());
    Ok(kept(typed, agrees)?)
}

// Checks an expression, without the type entry of its own node.
#[cycle(check)]
fn check_node<'a>(
    alloc: Global,
    checked: &'a Checked,
    scope: &Scope<'_>,
    tree: &'a Tree,
) -> Result<TypedExpr<'a>, Fault>
    requires { length (scope_view scope.now) + locals_in (tree_view tree.now) ≤ most_locals }
    ensures found { IfOk result (λ e. IsNode (maps_of (checked_view checked.now)) (scope_view scope.now)
        (tree_view tree.now) (expr_view e)) }
    ensures fault { IfErr result (PlacedOr (PlacedInside (maps_of (checked_view checked.now)) (scope_view scope.now)
        (tree_view tree.now))) }
{
    match tree {
        Tree::Constant { value, .. } => Ok(TypedExpr::Constant {
            cel_type: constant_type(value),
            value,
        }),
        Tree::Ident { id, name } => Ok(check_ident(alloc, checked, scope, *id, name)?),
        Tree::Select {
            id,
            operand,
            field,
            test_only,
        } => {
            let selected = Selected {
                field,
                test_only: *test_only,
            };
            check_select(alloc, checked, scope, *id, operand, selected)
        }
        Tree::Call {
            function,
            target,
            args,
            ..
        } => {
            let first = check_target(alloc, checked, scope, target)?;
            let operands = check_each(alloc, checked, scope, args, first)?;
            Ok(call_expr(alloc, function, target.is_some(), operands)?)
        }
        Tree::List { id, elements } => check_list(alloc, checked, scope, *id, elements),
        Tree::Map { id, entries } => check_map(alloc, checked, scope, *id, entries),
        Tree::Comprehension { id, parts } => check_loop(alloc, checked, scope, *id, parts),
    }
}

// What a Select takes of its operand: a field, or whether it is there.
#[derive(Clone, Copy)]
struct Selected<'a> {
    field: &'a ArcStr,
    test_only: bool,
}

// Checks a Select: of a root's attribute, or of its operand, a map from texts.
#[cycle(check)]
fn check_select<'a>(
    alloc: Global,
    checked: &'a Checked,
    scope: &Scope<'_>,
    id: i64,
    operand: &'a Tree,
    selected: Selected<'a>,
) -> Result<TypedExpr<'a>, Fault>
    requires { length (scope_view scope.now) + locals_in (tree_view operand.now) ≤ most_locals }
    ensures found { IfOk result (λ e. IsNode (maps_of (checked_view checked.now)) (scope_view scope.now)
        (select id (tree_view operand.now) (text_view selected.entry.field.now) selected.entry.test_only) (expr_view e)) }
    ensures fault { IfErr result (PlacedOr (PlacedInside (maps_of (checked_view checked.now)) (scope_view scope.now)
        (select id (tree_view operand.now) (text_view selected.entry.field.now) selected.entry.test_only))) }
{
    if let Some(root) = bare_root(operand, scope) {
        let attribute = check_attribute(
            alloc,
            &checked.refs,
            id,
            root,
            selected.field,
            selected.test_only,
        )?;
        return Ok(attribute);
    }
    let map = check_tree(alloc, checked, scope, operand)?;
    Ok(field_expr(alloc, map, selected.field, selected.test_only)?)
}

// Checks the target of a call, if there is one.
#[cycle(check)]
fn check_target<'a>(
    alloc: Global,
    checked: &'a Checked,
    scope: &Scope<'_>,
    target: &'a Option<Box<Tree>>,
) -> Result<Vec<TypedExpr<'a>>, Fault>
    requires { length (scope_view scope.now) + locals_in_target (target_of (boxed_view target.now)) ≤ most_locals }
    ensures found { IfOk result (λ v. IsTarget (maps_of (checked_view checked.now)) (scope_view scope.now)
        (target_of (boxed_view target.now)) (map expr_view v.items)) }
    ensures fault { IfErr result (PlacedOr (TargetFaultAt (maps_of (checked_view checked.now)) (scope_view scope.now)
        (target_of (boxed_view target.now)))) }
{
    let mut found = Vec::new(alloc);
    match target {
        None => Ok(found),
        Some(target) => {
            found.push(check_tree(alloc, checked, scope, target)?)?;
            Ok(found)
        }
    }
}

// Checks expressions in order, and appends their elaborations.
#[cycle(check)]
fn check_each<'a>(
    alloc: Global,
    checked: &'a Checked,
    scope: &Scope<'_>,
    trees: &'a [Tree],
    before: Vec<TypedExpr<'a>>,
) -> Result<Vec<TypedExpr<'a>>, Fault>
    requires { length (scope_view scope.now) + locals_in_each (trees_view trees.now) ≤ most_locals }
    ensures found { IfOk result (λ v. AreFound (maps_of (checked_view checked.now)) (scope_view scope.now)
        (trees_view trees.now) (map expr_view before.entry.items) (map expr_view v.items)) }
    ensures fault { IfErr result (PlacedOr (SomeFaultAt (maps_of (checked_view checked.now)) (scope_view scope.now)
        (trees_view trees.now))) }
{
    let mut typed = before;
    for tree in trees {
        typed.push(check_tree(alloc, checked, scope, tree)?)?;
    }
    Ok(typed)
}

// Checks a list literal: its elements, and then whether they have one type.
#[cycle(check)]
fn check_list<'a>(
    alloc: Global,
    checked: &'a Checked,
    scope: &Scope<'_>,
    id: i64,
    elements: &'a [Tree],
) -> Result<TypedExpr<'a>, Fault>
    requires { length (scope_view scope.now) + locals_in_each (trees_view elements.now) ≤ most_locals }
    ensures found { IfOk result (λ e. IsNode (maps_of (checked_view checked.now)) (scope_view scope.now)
        (list_literal id (trees_view elements.now)) (expr_view e)) }
    ensures fault { IfErr result (PlacedOr (PlacedInside (maps_of (checked_view checked.now)) (scope_view scope.now)
        (list_literal id (trees_view elements.now)))) }
{
    let elements = check_each(alloc, checked, scope, elements, Vec::new(alloc))?;
    let cel_type = list_type(alloc, checked.types.get(id), &elements)?;
    Ok(TypedExpr::List { cel_type, elements })
}

// Checks a map literal: its keys and values, and then whether all keys have one type, and all
// values one.
#[cycle(check)]
fn check_map<'a>(
    alloc: Global,
    checked: &'a Checked,
    scope: &Scope<'_>,
    id: i64,
    entries: &'a [TreeEntry],
) -> Result<TypedExpr<'a>, Fault>
    requires { length (scope_view scope.now) + locals_in_entries (tree_entries_view entries.now) ≤ most_locals }
    ensures found { IfOk result (λ e. IsNode (maps_of (checked_view checked.now)) (scope_view scope.now)
        (map_literal id (tree_entries_view entries.now)) (expr_view e)) }
    ensures fault { IfErr result (PlacedOr (PlacedInside (maps_of (checked_view checked.now)) (scope_view scope.now)
        (map_literal id (tree_entries_view entries.now)))) }
{
    let pairs = check_pairs(alloc, checked, scope, entries)?;
    let cel_type = map_type(alloc, checked.types.get(id), &pairs)?;
    Ok(TypedExpr::Map { cel_type, pairs })
}

// Checks keys and values in turn.
#[cycle(check)]
fn check_pairs<'a>(
    alloc: Global,
    checked: &'a Checked,
    scope: &Scope<'_>,
    entries: &'a [TreeEntry],
) -> Result<Vec<TypedExpr<'a>>, Fault>
    requires { length (scope_view scope.now) + locals_in_entries (tree_entries_view entries.now) ≤ most_locals }
    ensures found { IfOk result (λ v. ElaboratesPairs (maps_of (checked_view checked.now)) (scope_view scope.now)
        (tree_entries_view entries.now) (exprs_view v.items)
        × PairsAgree (maps_of (checked_view checked.now)) (scope_view scope.now) (tree_entries_view entries.now)) }
    ensures fault { IfErr result (PlacedOr (PairFaultAt (maps_of (checked_view checked.now)) (scope_view scope.now)
        (tree_entries_view entries.now))) }
{
    let mut pairs = Vec::new(alloc);
    for entry in entries {
        pairs.push(check_tree(alloc, checked, scope, &entry.key)?)?;
        pairs.push(check_tree(alloc, checked, scope, &entry.value)?)?;
    }
    Ok(pairs)
}

// Checks a comprehension: its names, its range, its initial value, its turns, and then its result.
#[cycle(check)]
fn check_loop<'a>(
    alloc: Global,
    checked: &'a Checked,
    scope: &Scope<'_>,
    id: i64,
    parts: &'a Comprehension,
) -> Result<TypedExpr<'a>, Fault>
    requires { length (scope_view scope.now) + locals_in_loop (loop_view parts.now) ≤ most_locals }
    ensures found { IfOk result (λ e. IsNode (maps_of (checked_view checked.now)) (scope_view scope.now)
        (loop_of id (loop_view parts.now)) (expr_view e)) }
    ensures fault { IfErr result (PlacedOr (PlacedInside (maps_of (checked_view checked.now)) (scope_view scope.now)
        (loop_of id (loop_view parts.now)))) }
{
    require_names_differ(&parts.iter_var, &parts.iter_var2, &parts.accu_var)?;
    let ends = check_ends(alloc, checked, scope, parts)?;
    let body = check_body(alloc, checked, scope, parts, &ends);
    let exprs = both(ends, body)?;
    Ok(loop_expr(alloc, variables_of(&parts.iter_var2), exprs)?)
}

// Checks the range and the initial value of a comprehension.
#[cycle(check)]
fn check_ends<'a>(
    alloc: Global,
    checked: &'a Checked,
    scope: &Scope<'_>,
    parts: &'a Comprehension,
) -> Result<(TypedExpr<'a>, TypedExpr<'a>), Fault>
    requires { length (scope_view scope.now) + max (locals_in (tree_view parts.now.iter_range))
        (locals_in (tree_view parts.now.accu_init)) ≤ most_locals }
    ensures found { IfOk result (λ ends. AreTwo (maps_of (checked_view checked.now)) (scope_view scope.now)
        (tree_view parts.now.iter_range) (tree_view parts.now.accu_init) (expr_view ends.0) (expr_view ends.1)) }
    ensures fault { IfErr result (PlacedOr (EitherFault (maps_of (checked_view checked.now)) (scope_view scope.now)
        (tree_view parts.now.iter_range) (tree_view parts.now.accu_init))) }
{
    let range = check_tree(alloc, checked, scope, &parts.iter_range)?;
    both(range, check_tree(alloc, checked, scope, &parts.accu_init))
}

// Checks the condition, the step and the result of a comprehension with this range and this initial value.
#[cycle(check)]
fn check_body<'a>(
    alloc: Global,
    checked: &'a Checked,
    scope: &Scope<'_>,
    parts: &'a Comprehension,
    ends: &(TypedExpr<'a>, TypedExpr<'a>),
) -> Result<((TypedExpr<'a>, TypedExpr<'a>), TypedExpr<'a>), Fault>
    requires { length (scope_view scope.now) + locals_in_loop (loop_view parts.now) ≤ most_locals }
    ensures found { IfOk result (λ body. IsBody (maps_of (checked_view checked.now)) (scope_view scope.now)
        (loop_view parts.now) (kind (expr_view ends.now.0)) (kind (expr_view ends.now.1))
        (expr_view body.0.0) (expr_view body.0.1) (expr_view body.1)) }
    ensures fault { IfErr result (PlacedOr (BodyFault (maps_of (checked_view checked.now)) (scope_view scope.now)
        (loop_view parts.now) (kind (expr_view ends.now.0)) (kind (expr_view ends.now.1)))) }
{
    let gathered = ends.1.cel_type();
    let each = turn_types(variables_of(&parts.iter_var2), ends.0.cel_type())?;
    let inner = (&*scope).with(&parts.accu_var, gathered);
    let first = inner.with(&parts.iter_var, &each.first);
    let turn = first.with_second(&parts.iter_var2, &each.second);
    let turned = check_turn(alloc, checked, &turn, parts, gathered);
    drop(each);
    let two = turned?;
    both(two, check_tree(alloc, checked, &inner, &parts.result))
}

// Checks the condition and the step of a comprehension, whose accumulator has this type.
#[cycle(check)]
fn check_turn<'a>(
    alloc: Global,
    checked: &'a Checked,
    turn: &Scope<'_>,
    parts: &'a Comprehension,
    gathered: &CelType,
) -> Result<(TypedExpr<'a>, TypedExpr<'a>), Fault>
    requires { length (scope_view turn.now) + max (locals_in (tree_view parts.now.loop_condition))
        (locals_in (tree_view parts.now.loop_step)) ≤ most_locals }
    ensures found { IfOk result (λ r. IsTurn (maps_of (checked_view checked.now)) (scope_view turn.now)
        (tree_view parts.now.loop_condition) (tree_view parts.now.loop_step) (type_view gathered.now)
        (expr_view r.0) (expr_view r.1)) }
    ensures fault { IfErr result (PlacedOr (TurnFault (maps_of (checked_view checked.now)) (scope_view turn.now)
        (tree_view parts.now.loop_condition) (tree_view parts.now.loop_step) (type_view gathered.now))) }
{
    let condition = bool_expr(check_tree(alloc, checked, turn, &parts.loop_condition)?)?;
    both(
        condition,
        check_step(alloc, checked, turn, &parts.loop_step, gathered),
    )
}

// Checks the step of a comprehension, whose accumulator has this type.
#[cycle(check)]
fn check_step<'a>(
    alloc: Global,
    checked: &'a Checked,
    turn: &Scope<'_>,
    step: &'a Tree,
    gathered: &CelType,
) -> Result<TypedExpr<'a>, Fault>
    requires { length (scope_view turn.now) + locals_in (tree_view step.now) ≤ most_locals }
    ensures found { IfOk result (λ e. IsFound (maps_of (checked_view checked.now)) (scope_view turn.now)
        (tree_view step.now) (expr_view e) × (kind (expr_view e) ≡ type_view gathered.now)) }
    ensures fault { IfErr result (PlacedOr (StepFault (maps_of (checked_view checked.now)) (scope_view turn.now)
        (tree_view step.now) (type_view gathered.now))) }
{
    Ok(expr_of(check_tree(alloc, checked, turn, step)?, gathered)?)
}
