//! The leaves that decide whether rules match a request.

ghost use Rattle.std.specs.Prelude.{◌≡◌, ◌≤◌, ◌++◌, ◌∷◌, [], IfOk, OnOk, length, option_and_then, slice_get, take};
ghost use Rattle.rbac_match.specs.Causes.{all_causes, causes, decides, first_causes, is_decided, itself};
ghost use Rattle.rbac_match.specs.Formula.{not_of, or_of};
ghost use Rattle.rbac_match.specs.Tokens.{first_of, joined_by};
ghost use Rattle.rbac_match.specs.View.{rules_view};
ghost use Rattle.rbac_match.specs.private.Causes.{Finds, joined};
ghost use Rattle.rbac_match.specs.private.Nodes.{formula_in, formulas_in};

use crate::leaves::Leaves;
use crate::list::{Joint, Node, RuleList, Rules, cut};
use crate::matching::{all_match, node_matches, some_match};
use attributes::Request;
use std::alloc::{AllocError, Global};
use std::fmt::{self, Debug, Formatter};
use std::marker::Model;

/// A step from a rule to one of the rules that it joins: how it joins them, and the index of that one.
#[derive(Clone, Copy)]
pub struct Step {
    pub(crate) joint: Joint,
    pub(crate) index: usize,
}

/// A leaf that decides: the steps to it, and the place of its test. Without a place, it matches every request.
#[derive(Drop)]
pub(crate) struct Cause {
    pub(crate) path: Vec<Step>,
    pub(crate) place: Option<u32>,
}

/// The leaves that decide whether rules match a request, in order.
#[derive(Drop)]
pub struct Causes<'a> {
    pub(crate) leaves: &'a Leaves,
    pub(crate) found: Vec<Cause>,
}

impl<'a> Model for Causes<'a> {
    ghost use Rattle.std.specs.Prelude.{List};
    ghost use Rattle.rbac_match.specs.Causes.{CauseValue};
    ghost use Rattle.rbac_match.specs.private.Causes.{causes_in};

    ghost Value = { List CauseValue };

    ghost view = { λ c. causes_in c.leaves.now c.found.items };
}

impl Debug for Causes<'_> {
    fn fmt<W: fmt::Write>(&self, f: &mut Formatter<W>) -> fmt::Result {
        f.debug_struct("Causes").finish_non_exhaustive()
    }
}

// Where causes are searched, for which request, and how many are found at most.
#[derive(Drop)]
struct Search<'a> {
    alloc: Global,
    leaves: &'a Leaves,
    request: &'a Request,
    limit: usize,
}

/// The first `limit` leaves that decide whether at least one of these rules of the list matches the request.
pub fn rule_causes<'a>(
    list: &'a RuleList,
    rules: Rules,
    request: &Request,
    limit: usize,
) -> Result<Causes<'a>, AllocError>
    ensures { IfOk result (λ found.
        found ≡ take limit (causes request.now (or_of (rules_view list.now rules)))) }
{
    let (leaves, nodes) = list.parts(rules);
    let search = Search {
        alloc: list.alloc(),
        leaves,
        request,
        limit,
    };
    let mut found = Vec::new(search.alloc);
    joined_causes(&search, &mut found, &[], Joint::Or, nodes)?;
    Ok(Causes { leaves, found })
}

// Appends the causes of a node's rule, which is at the end of the path; `inside` has the nodes of the rules in
// it.
#[cycle(causes)]
fn node_causes(
    search: &Search<'_>,
    found: &mut Vec<Cause>,
    path: &[Step],
    node: &Node,
    inside: &[Node],
) -> Result<(), AllocError>
    requires { length found.old.items ≤ search.now.limit }
    ensures { OnOk result (Finds search.now.leaves.now search.now.limit path.now found.old.items
        found.new.items (causes search.now.request.now
        (formula_in search.now.leaves.now node.now inside.now))) }
{
    match node {
        Node::Leaf(place) => add(search, found, path, Some(*place)),
        Node::Any => add(search, found, path, None),
        Node::Joined(joint, _) => joined_causes(search, found, path, *joint, inside),
    }
}

// The same for a rule that joins others.
#[cycle(causes)]
fn joined_causes(
    search: &Search<'_>,
    found: &mut Vec<Cause>,
    path: &[Step],
    joint: Joint,
    inside: &[Node],
) -> Result<(), AllocError>
    requires { length found.old.items ≤ search.now.limit }
    ensures { OnOk result (Finds search.now.leaves.now search.now.limit path.now found.old.items
        found.new.items (causes search.now.request.now
        (joined_by joint (formulas_in search.now.leaves.now inside.now)))) }
{
    match joint {
        Joint::And => many_causes(search, found, path, Joint::And, inside),
        Joint::Or => many_causes(search, found, path, Joint::Or, inside),
        Joint::Not => negated_causes(search, found, path, inside),
    }
}

// Appends the causes of a rule that negates the first rule of the nodes.
#[cycle(causes)]
fn negated_causes(
    search: &Search<'_>,
    found: &mut Vec<Cause>,
    path: &[Step],
    nodes: &[Node],
) -> Result<(), AllocError>
    requires { length found.old.items ≤ search.now.limit }
    ensures { OnOk result (Finds search.now.leaves.now search.now.limit path.now found.old.items
        found.new.items (causes search.now.request.now
        (not_of (first_of (formulas_in search.now.leaves.now nodes.now))))) }
{
    let deeper = path_with(search.alloc, path, Joint::Not, 0)?;
    let Some((node, behind)) = nodes.split_first() else {
        return add(search, found, &deeper, None);
    };
    let (inside, _) = cut(behind, node.inside());
    node_causes(search, found, &deeper, node, inside)
}

// Appends the causes of an `And` or an `Or` of the rules of the nodes.
#[cycle(causes)]
fn many_causes(
    search: &Search<'_>,
    found: &mut Vec<Cause>,
    path: &[Step],
    joint: Joint,
    nodes: &[Node],
) -> Result<(), AllocError>
    requires { length found.old.items ≤ search.now.limit }
    ensures { OnOk result (Finds search.now.leaves.now search.now.limit path.now found.old.items
        found.new.items (joined search.now.request.now joint
        (formulas_in search.now.leaves.now nodes.now))) }
{
    if is_decided(search, joint, nodes) {
        return first_causes(search, found, path, joint, nodes);
    }
    all_causes(search, found, path, joint, nodes)
}

// Appends the causes of the first rule of the nodes that decides alone.
#[cycle(causes)]
fn first_causes(
    search: &Search<'_>,
    found: &mut Vec<Cause>,
    path: &[Step],
    joint: Joint,
    nodes: &[Node],
) -> Result<(), AllocError>
    requires { length found.old.items ≤ search.now.limit }
    ensures { OnOk result (Finds search.now.leaves.now search.now.limit path.now found.old.items
        found.new.items (first_causes search.now.request.now joint 0
        (formulas_in search.now.leaves.now nodes.now))) }
{
    let mut rest = nodes;
    let mut index = 0;
    while let Some((node, behind)) = rest.split_first() {
        let (inside, others) = cut(behind, node.inside());
        if decides(
            joint,
            node_matches(search.leaves, node, inside, search.request),
        ) {
            let deeper = path_with(search.alloc, path, joint, index)?;
            return node_causes(search, found, &deeper, node, inside);
        }
        rest = others;
        index += 1;
    }
    Ok(())
}

// Appends the causes of all rules of the nodes.
#[cycle(causes)]
fn all_causes(
    search: &Search<'_>,
    found: &mut Vec<Cause>,
    path: &[Step],
    joint: Joint,
    nodes: &[Node],
) -> Result<(), AllocError>
    requires { length found.old.items ≤ search.now.limit }
    ensures { OnOk result (Finds search.now.leaves.now search.now.limit path.now found.old.items
        found.new.items (all_causes search.now.request.now joint 0
        (formulas_in search.now.leaves.now nodes.now))) }
{
    let mut rest = nodes;
    let mut index = 0;
    while let Some((node, behind)) = rest.split_first() {
        let (inside, others) = cut(behind, node.inside());
        let deeper = path_with(search.alloc, path, joint, index)?;
        node_causes(search, found, &deeper, node, inside)?;
        rest = others;
        index += 1;
    }
    Ok(())
}

// Whether some rule of the nodes decides an `And` or an `Or` of them alone.
fn is_decided(search: &Search<'_>, joint: Joint, nodes: &[Node]) -> bool
    ensures { result ≡ is_decided search.now.request.now joint
        (formulas_in search.now.leaves.now nodes.now) }
{
    match joint {
        Joint::And => !all_match(search.leaves, nodes, search.request),
        Joint::Or | Joint::Not => some_match(search.leaves, nodes, search.request),
    }
}

// Whether a joined rule of this value decides alone.
fn decides(joint: Joint, value: bool) -> bool
    ensures { result ≡ decides joint value }
{
    match joint {
        Joint::And => !value,
        Joint::Or | Joint::Not => value,
    }
}

// The path with one step more.
fn path_with(
    alloc: Global,
    path: &[Step],
    joint: Joint,
    index: usize,
) -> Result<Vec<Step>, AllocError>
    ensures { IfOk result (λ steps.
        steps.items ≡ path.now ++ record { joint = joint; index = index } ∷ []) }
{
    let mut steps = Vec::new(alloc);
    steps.extend_from_slice(path)?;
    steps.push(Step { joint, index })?;
    Ok(steps)
}

// Appends the leaf at the end of the path, whose test is at this place, unless the limit is reached.
fn add(
    search: &Search<'_>,
    found: &mut Vec<Cause>,
    path: &[Step],
    place: Option<u32>,
) -> Result<(), AllocError>
    requires { length found.old.items ≤ search.now.limit }
    ensures { OnOk result (Finds search.now.leaves.now search.now.limit path.now found.old.items
        found.new.items (itself (option_and_then (slice_get search.now.leaves.now) place) ∷ [])) }
{
    if found.len() == search.limit {
        return Ok(());
    }
    let mut steps = Vec::new(search.alloc);
    steps.extend_from_slice(path)?;
    found.push(Cause { path: steps, place })?;
    Ok(())
}
