//! Limits the number of locals in scope.

ghost use Rattle.std.specs.Prelude.{◌≡◌, ◌+◌, ◌≤◌, ℤ, IfErr, OnOk, Some};
ghost use Rattle.cel_tree.specs.Places.{NamesNode};
ghost use Rattle.cel_tree.specs.View.{target_of, tree_view};
ghost use Rattle.cel_tree.specs.private.TreeViews.{boxed_view, loop_view, tree_entries_view, trees_view};
ghost use Rattle.cel_value.specs.Texts.{text_view};
ghost use Rattle.cel_types.specs.Names.{variable_count, variables_of};
ghost use Rattle.cel_types.specs.Typing.{locals_in, most_locals};
ghost use Rattle.cel_check.specs.Places.{first_crowded, first_crowded_each, first_crowded_entry, first_crowded_target};
ghost use Rattle.cel_check.specs.private.Scopes.{crowded_in_loop, crowded_inside};
ghost use Rattle.proto_wire.specs.Places.{path_of};
ghost use Rattle.proto_wire.specs.declared.refusal.Refusal.TheVariants.{TooLarge};

use crate::checker::loops::variables_of;
use crate::checker::naming::id_of;
use cel_tree::{Comprehension, Tree, TreeEntry, fault_of_node};
use cel_types::Variables;
use proto_wire::{Fault, Refusal};

pub(super) const MOST_LOCALS: u8 = 64;

/// Refuses an expression if one of its nodes has too many locals in scope. The fault names the first such node.
pub(super) fn require_few_locals(tree: &Tree) -> Result<(), Fault>
    ensures found { OnOk result (locals_in (tree_view tree.now) ≤ most_locals) }
    ensures fault { IfErr result (λ fault. (fault.refusal ≡ TooLarge) × (id : ℤ)
        × (first_crowded 0 (tree_view tree.now) ≡ Some id) × NamesNode id (path_of fault.place)) }
{
    let found = crowded_node(tree, 0);
    match &found {
        Some(id) => Err(fault_of_node(Refusal::TooLarge, number_of(id))),
        None => Ok(()),
    }
}

// The number itself.
fn number_of(number: &i64) -> i64
    ensures { result ≡ number.now }
{
    *number
}

// The id of the first node with too many locals in scope, if there is one. The tree has `around` of them in scope.
#[cycle(locals)]
fn crowded_node(tree: &Tree, around: u8) -> Option<i64>
    ensures { result ≡ first_crowded around (tree_view tree.now) }
{
    if around > MOST_LOCALS {
        return Some(id_of(tree));
    }
    crowded_inside(tree, around)
}

#[cycle(locals)]
fn crowded_inside(tree: &Tree, around: u8) -> Option<i64>
    requires { around ≤ most_locals }
    ensures { result ≡ crowded_inside around (tree_view tree.now) }
{
    match tree {
        Tree::Constant { .. } => None,
        Tree::Ident { .. } => None,
        Tree::Select { operand, .. } => crowded_node(operand, around),
        Tree::Call { target, args, .. } => {
            crowded_target(target, around).or(crowded_in_each(args, around))
        }
        Tree::List { elements, .. } => crowded_in_each(elements, around),
        Tree::Map { entries, .. } => crowded_in_entries(entries, around),
        Tree::Comprehension { parts, .. } => crowded_in_loop(parts, around),
    }
}

#[cycle(locals)]
fn crowded_target(target: &Option<Box<Tree>>, around: u8) -> Option<i64>
    ensures { result ≡ first_crowded_target around (target_of (boxed_view target.now)) }
{
    match target {
        None => None,
        Some(target) => crowded_node(target, around),
    }
}

#[cycle(locals)]
fn crowded_in_each(trees: &[Tree], around: u8) -> Option<i64>
    ensures { result ≡ first_crowded_each around (trees_view trees.now) }
{
    for tree in trees {
        if let Some(id) = crowded_node(tree, around) {
            return Some(id);
        }
    }
    None
}

#[cycle(locals)]
fn crowded_in_entries(entries: &[TreeEntry], around: u8) -> Option<i64>
    ensures { result ≡ first_crowded_entry around (tree_entries_view entries.now) }
{
    for entry in entries {
        if let Some(id) = crowded_node(&entry.key, around) {
            return Some(id);
        }
        if let Some(id) = crowded_node(&entry.value, around) {
            return Some(id);
        }
    }
    None
}

// The same of a comprehension: its condition and step have all its locals in scope, its result one.
#[cycle(locals)]
fn crowded_in_loop(parts: &Comprehension, around: u8) -> Option<i64>
    requires { around ≤ most_locals }
    ensures { result ≡ crowded_in_loop around (loop_view parts.now) }
{
    let in_turn = around + own_locals(parts);
    let range = crowded_node(&parts.iter_range, around);
    let init = crowded_node(&parts.accu_init, around);
    let condition = crowded_node(&parts.loop_condition, in_turn);
    let step = crowded_node(&parts.loop_step, in_turn);
    let result = crowded_node(&parts.result, around + 1);
    range.or(init.or(condition.or(step.or(result))))
}

// The number of a comprehension's locals: its variables and its accumulator.
fn own_locals(parts: &Comprehension) -> u8
    ensures own { result ≡ variable_count (variables_of (text_view parts.now.iter_var2)) + 1 }
    ensures few { result ≤ 3 }
{
    match variables_of(&parts.iter_var2) {
        Variables::One => 2,
        Variables::Two => 3,
    }
}
