//! Reads trees, within limits of levels and nodes.

ghost use Rattle.std.specs.Prelude.{◌≡◌, ◌<◌, ◌+◌, ◌++◌, [], ◌∷◌, IfOk, IfErr, OnOk};
ghost use Rattle.proto_wire.specs.Merge.{parts_view};
ghost use Rattle.proto_wire.specs.Places.{path_of};
ghost use Rattle.proto_wire.specs.Refusal.{MemoryOr};
ghost use Rattle.proto_wire.specs.declared.refusal.Refusal.TheVariants.{TooLarge};
ghost use Rattle.cel_value.specs.Texts.{text_view};
ghost use Rattle.cel_value.specs.Types.{IsInt64};
ghost use Rattle.cel_tree.specs.Places.{PlacedOr};
ghost use Rattle.cel_tree.specs.Nodes.{IsNode, select_node, call_node, list_node, map_node, loop_node, children, entry_children, if_there, loop_children, singles};
ghost use Rattle.cel_tree.specs.Trees.{IsTree, AreTrees, node_count, trees_count};
ghost use Rattle.cel_tree.specs.View.{tree_view};
ghost use Rattle.cel_tree.specs.private.TreeViews.{trees_view, tree_entries_view, loop_view, boxed_view};
ghost use Rattle.cel_read.specs.Places.{OwnFault, SomeFaultAt, TreeFaultAt};
ghost use Rattle.cel_read.specs.private.EntryViews.{entry_nodes_view};
ghost use Rattle.cel_read.specs.private.Inside.{AreEntryTrees, AreLoopTrees, AreTwoTrees, Inside, IsLoopBody, IsTarget, loop_body, target_nodes};
ghost use Rattle.cel_read.specs.private.NodeViews.{loop_node_view, node_view};

use crate::fields::number_of;
use crate::node::read_node;
use crate::node_id::fault_of_expr;
use crate::parsed::{EntryNode, LoopNode, Node};
use cel_tree::{Comprehension, Tree, TreeEntry, both};
use proto_wire::{Fault, Payloads, Refusal, require_level};
use std::alloc::{AllocError, Global};
use std::sync::ArcStr;

/// Reads a tree of at most `depth` levels and `left` nodes from its parts. Tests both limits before it reads
/// anything of a node.
#[cycle(read)]
pub(crate) fn read_tree(
    alloc: Global,
    parts: &[&[u8]],
    depth: u32,
    left: &mut u32,
) -> Result<Tree, Fault>
    ensures found { IfOk result (λ t. IsTree depth (parts_view parts.now) (tree_view t)
        × (left.new + node_count (tree_view t) ≡ left.old)) }
    ensures fault { IfErr result (PlacedOr (TreeFaultAt depth left.old (parts_view parts.now))) }
{
    match read_own(alloc, parts, depth, left) {
        Ok((id, node)) => read_inside(alloc, id, node, depth - 1, left),
        Err(refusal) => Err(fault_of_expr(parts, refusal)),
    }
}

// Reads an expression's own message, if one more node is within the limits.
#[inline(always)]
fn read_own<'a>(
    alloc: Global,
    parts: &[&'a [u8]],
    depth: u32,
    left: &mut u32,
) -> Result<(i64, Node<'a>), Refusal>
    ensures found { IfOk result (λ n. (0 < depth) × (left.new + 1 ≡ left.old)
        × IsNode (parts_view parts.now) n.0 (node_view n.1)) }
    ensures ranged { IfOk result (λ n. IsInt64 n.0) }
    ensures fault { IfErr result (MemoryOr (OwnFault depth left.old (parts_view parts.now))) }
{
    require_level(depth)?;
    take_node(left)?;
    read_node(alloc, parts)
}

// Reads the trees inside a node; each may have `depth` levels.
#[cycle(read)]
fn read_inside(
    alloc: Global,
    id: i64,
    node: Node<'_>,
    depth: u32,
    left: &mut u32,
) -> Result<Tree, Fault>
    ensures found { IfOk result (λ t. Inside depth id (node_view node.entry) (tree_view t) left.new left.old) }
    ensures fault { IfErr result (PlacedOr (SomeFaultAt depth left.old (children (node_view node.entry)))) }
{
    match node {
        Node::Constant(value) => Ok(Tree::Constant { id, value }),
        Node::Ident(name) => Ok(Tree::Ident { id, name }),
        Node::Select {
            operand,
            field,
            test_only,
        } => select_tree(alloc, id, &operand, field, test_only, depth, left),
        Node::Call {
            function,
            target,
            args,
        } => call_tree(alloc, id, function, &target, &args, depth, left),
        Node::List(elements) => list_tree(alloc, id, &elements, depth, left),
        Node::Map(entries) => map_tree(alloc, id, &entries, depth, left),
        Node::Comprehension(node) => loop_tree(alloc, id, node, depth, left),
    }
}

// The Select of this id and field; reads its operand.
#[cycle(read)]
#[inline(always)]
fn select_tree(
    alloc: Global,
    id: i64,
    operand: &Payloads<'_>,
    field: ArcStr,
    test_only: bool,
    depth: u32,
    left: &mut u32,
) -> Result<Tree, Fault>
    ensures found { IfOk result (λ t.
        Inside depth id (select_node (parts_view operand.now.items) (text_view field) test_only) (tree_view t) left.new left.old) }
    ensures fault { IfErr result (PlacedOr (SomeFaultAt depth left.old (parts_view operand.now.items ∷ []))) }
{
    let operand = read_tree(alloc, operand, depth, left)?;
    let operand = Box::new(alloc, operand)?;
    Ok(Tree::Select {
        id,
        operand,
        field,
        test_only,
    })
}

// The Call of this id and function; reads its target and its arguments.
#[cycle(read)]
#[inline(always)]
fn call_tree(
    alloc: Global,
    id: i64,
    function: ArcStr,
    target: &Payloads<'_>,
    args: &Payloads<'_>,
    depth: u32,
    left: &mut u32,
) -> Result<Tree, Fault>
    ensures found { IfOk result (λ t.
        Inside depth id (call_node (text_view function) (parts_view target.now.items) (parts_view args.now.items)) (tree_view t) left.new left.old) }
    ensures fault { IfErr result (PlacedOr
        (SomeFaultAt depth left.old (if_there (parts_view target.now.items) ++ singles (parts_view args.now.items)))) }
{
    let target = read_target(alloc, target, depth, left)?;
    let args = read_trees(alloc, args, depth, left)?;
    Ok(Tree::Call {
        id,
        function,
        target,
        args,
    })
}

// The list literal of this id; reads its elements.
#[cycle(read)]
#[inline(always)]
fn list_tree(
    alloc: Global,
    id: i64,
    elements: &Payloads<'_>,
    depth: u32,
    left: &mut u32,
) -> Result<Tree, Fault>
    ensures found { IfOk result (λ t. Inside depth id (list_node (parts_view elements.now.items)) (tree_view t) left.new left.old) }
    ensures fault { IfErr result (PlacedOr (SomeFaultAt depth left.old (singles (parts_view elements.now.items)))) }
{
    let elements = read_trees(alloc, elements, depth, left)?;
    Ok(Tree::List { id, elements })
}

// The map literal of this id; reads its entries.
#[cycle(read)]
#[inline(always)]
fn map_tree(
    alloc: Global,
    id: i64,
    nodes: &[EntryNode<'_>],
    depth: u32,
    left: &mut u32,
) -> Result<Tree, Fault>
    ensures found { IfOk result (λ t. Inside depth id (map_node (entry_nodes_view nodes.now)) (tree_view t) left.new left.old) }
    ensures fault { IfErr result (PlacedOr (SomeFaultAt depth left.old (entry_children (entry_nodes_view nodes.now)))) }
{
    let entries = read_entry_trees(alloc, nodes, depth, left)?;
    Ok(Tree::Map { id, entries })
}

// The comprehension of this id; reads its trees. This function only adds that it drops the node.
#[cycle(read)]
#[inline(always)]
fn loop_tree(
    alloc: Global,
    id: i64,
    node: LoopNode<'_>,
    depth: u32,
    left: &mut u32,
) -> Result<Tree, Fault>
    ensures found { IfOk result (λ t. Inside depth id (loop_node (loop_node_view node.entry)) (tree_view t) left.new left.old) }
    ensures fault { IfErr result (PlacedOr (SomeFaultAt depth left.old (loop_children (loop_node_view node.entry)))) }
{
    lent_loop_tree(alloc, id, &node, depth, left)
}

// The same for a borrowed node.
#[cycle(read)]
#[inline(always)]
fn lent_loop_tree(
    alloc: Global,
    id: i64,
    node: &LoopNode<'_>,
    depth: u32,
    left: &mut u32,
) -> Result<Tree, Fault>
    ensures found { IfOk result (λ t. Inside depth id (loop_node (loop_node_view node.now)) (tree_view t) left.new left.old) }
    ensures fault { IfErr result (PlacedOr (SomeFaultAt depth left.old (loop_children (loop_node_view node.now)))) }
{
    let parts = read_loop_trees(alloc, node, depth, left)?;
    let parts = Box::new(alloc, parts)?;
    Ok(Tree::Comprehension { id, parts })
}

// Reads the target of a call; none if it has no parts.
#[cycle(read)]
fn read_target(
    alloc: Global,
    parts: &[&[u8]],
    depth: u32,
    left: &mut u32,
) -> Result<Option<Box<Tree>>, Fault>
    ensures found { IfOk result (λ t. IsTarget depth (parts_view parts.now) (boxed_view t)
        × (left.new + target_nodes (boxed_view t) ≡ left.old)) }
    ensures fault { IfErr result (PlacedOr (SomeFaultAt depth left.old (if_there (parts_view parts.now)))) }
{
    if parts.is_empty() {
        return Ok(None);
    }
    let target = read_tree(alloc, parts, depth, left)?;
    Ok(Some(Box::new(alloc, target)?))
}

// Reads trees, one from each payload.
#[cycle(read)]
fn read_trees(
    alloc: Global,
    payloads: &[&[u8]],
    depth: u32,
    left: &mut u32,
) -> Result<Vec<Tree>, Fault>
    ensures found { IfOk result (λ v. AreTrees (IsTree depth) (singles (parts_view payloads.now)) (trees_view v.items)
        × (left.new + trees_count (trees_view v.items) ≡ left.old)) }
    ensures fault { IfErr result (PlacedOr (SomeFaultAt depth left.old (singles (parts_view payloads.now)))) }
{
    let mut trees = no_trees(alloc, payloads.len(), *left)?;
    for payload in payloads {
        let tree = read_tree(alloc, &[*payload], depth, left)?;
        trees.push(tree)?;
    }
    Ok(trees)
}

// An empty list, with room for `count` trees, but at most for the `left` nodes that may follow.
fn no_trees(alloc: Global, count: usize, left: u32) -> Result<Vec<Tree>, AllocError>
    ensures { IfOk result (λ v. v.items ≡ []) }
{
    let most = left as usize;
    if count < most {
        return Vec::with_capacity(alloc, count);
    }
    Vec::with_capacity(alloc, most)
}

// Reads the keys and values of a map literal's entries.
#[cycle(read)]
fn read_entry_trees(
    alloc: Global,
    nodes: &[EntryNode<'_>],
    depth: u32,
    left: &mut u32,
) -> Result<Vec<TreeEntry>, Fault>
    ensures found { IfOk result (λ v.
        AreEntryTrees depth (entry_nodes_view nodes.now) (tree_entries_view v.items) left.new left.old) }
    ensures fault { IfErr result (PlacedOr (SomeFaultAt depth left.old (entry_children (entry_nodes_view nodes.now)))) }
{
    let mut entries = Vec::new(alloc);
    for node in nodes {
        let (key, value) = read_two(alloc, &node.key, &node.value, depth, left)?;
        entries.push(TreeEntry {
            id: number_of(&node.id),
            key,
            value,
        })?;
    }
    Ok(entries)
}

// Reads the trees of a comprehension.
#[cycle(read)]
fn read_loop_trees(
    alloc: Global,
    node: &LoopNode<'_>,
    depth: u32,
    left: &mut u32,
) -> Result<Comprehension, Fault>
    ensures found { IfOk result (λ c. AreLoopTrees depth (loop_node_view node.now) (loop_view c) left.new left.old) }
    ensures fault { IfErr result (PlacedOr (SomeFaultAt depth left.old (loop_children (loop_node_view node.now)))) }
{
    let (iter_var, iter_var2, accu_var) = names_of(node)?;
    let start = read_two(alloc, &node.iter_range, &node.accu_init, depth, left)?;
    let (start, body) = both(start, read_loop_body(alloc, node, depth, left))?;
    let (iter_range, accu_init) = start;
    let ((loop_condition, loop_step), result) = body;
    Ok(Comprehension {
        iter_var,
        iter_var2,
        accu_var,
        iter_range,
        accu_init,
        loop_condition,
        loop_step,
        result,
    })
}

// Reads the condition, the step and the result of a comprehension.
#[cycle(read)]
#[inline(always)]
fn read_loop_body(
    alloc: Global,
    node: &LoopNode<'_>,
    depth: u32,
    left: &mut u32,
) -> Result<((Tree, Tree), Tree), Fault>
    ensures found { IfOk result (λ trees. IsLoopBody depth (loop_node_view node.now)
        (tree_view trees.0.0) (tree_view trees.0.1) (tree_view trees.1) left.new left.old) }
    ensures fault { IfErr result (PlacedOr (SomeFaultAt depth left.old (loop_body (loop_node_view node.now)))) }
{
    let two = read_two(alloc, &node.loop_condition, &node.loop_step, depth, left)?;
    both(two, read_tree(alloc, &node.result, depth, left))
}

// Reads two trees, in order.
#[cycle(read)]
#[inline(always)]
fn read_two(
    alloc: Global,
    first: &[&[u8]],
    second: &[&[u8]],
    depth: u32,
    left: &mut u32,
) -> Result<(Tree, Tree), Fault>
    ensures found { IfOk result (λ trees. AreTwoTrees depth (parts_view first.now) (parts_view second.now)
        (tree_view trees.0) (tree_view trees.1) left.new left.old) }
    ensures fault { IfErr result (PlacedOr
        (SomeFaultAt depth left.old (parts_view first.now ∷ parts_view second.now ∷ []))) }
{
    let first = read_tree(alloc, first, depth, left)?;
    both(first, read_tree(alloc, second, depth, left))
}

// The names of a comprehension.
fn names_of(node: &LoopNode<'_>) -> Result<(ArcStr, ArcStr, ArcStr), AllocError>
    ensures { IfOk result (λ names. (text_view names.0 ≡ text_view node.now.iter_var)
        × (text_view names.1 ≡ text_view node.now.iter_var2)
        × (text_view names.2 ≡ text_view node.now.accu_var)) }
{
    let iter_var = node.iter_var.clone()?;
    let iter_var2 = node.iter_var2.clone()?;
    let accu_var = node.accu_var.clone()?;
    Ok((iter_var, iter_var2, accu_var))
}

// Takes one of the nodes that are left; refuses if there is none.
fn take_node(left: &mut u32) -> Result<(), Refusal>
    ensures found { OnOk result (left.new + 1 ≡ left.old) }
    ensures fault { IfErr result (λ e. (left.old ≡ 0) × (e ≡ TooLarge)) }
{
    if *left == 0 {
        return Err(Refusal::TooLarge);
    }
    *left -= 1;
    Ok(())
}
