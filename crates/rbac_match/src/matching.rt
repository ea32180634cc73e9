//! Whether rules match a request.

ghost use Rattle.std.specs.Prelude.{◌≡◌};
ghost use Rattle.rbac_match.specs.Formula.{holds, all_hold, some_hold};
ghost use Rattle.rbac_match.specs.Tokens.{first_of, joined_by};
ghost use Rattle.rbac_match.specs.View.{rules_view};
ghost use Rattle.rbac_match.specs.private.Nodes.{formula_in, formulas_in};

use crate::leaves::Leaves;
use crate::list::{Joint, Node, RuleList, Rules, cut};
use attributes::Request;

/// Whether at least one of these rules of the list matches the request. It takes no memory, and looks at each
/// node at most once.
#[inline(always)]
pub fn any_matches(list: &RuleList, rules: Rules, request: &Request) -> bool
    ensures { result ≡ some_hold request.now (rules_view list.now rules) }
{
    let (leaves, nodes) = list.parts(rules);
    some_match(leaves, nodes, request)
}

/// Whether the rule of a node matches the request; `inside` has the nodes of the rules in it. A test is
/// inlined, so a loop over tests makes no call for each.
#[cycle(matching)]
#[inline(always)]
pub(crate) fn node_matches(leaves: &Leaves, node: &Node, inside: &[Node], request: &Request) -> bool
    ensures { result ≡ holds request.now (formula_in leaves.now node.now inside.now) }
{
    match node {
        Node::Leaf(place) => leaves.passes(*place, request),
        Node::Any => true,
        Node::Joined(joint, _) => joined_match(leaves, *joint, inside, request),
    }
}

// The same for a rule that joins others.
#[cycle(matching)]
#[inline(never)]
fn joined_match(leaves: &Leaves, joint: Joint, inside: &[Node], request: &Request) -> bool
    ensures { result ≡ holds request.now (joined_by joint (formulas_in leaves.now inside.now)) }
{
    match joint {
        Joint::And => all_match(leaves, inside, request),
        Joint::Or => some_match(leaves, inside, request),
        Joint::Not => !first_matches(leaves, inside, request),
    }
}

// Whether the first rule of the nodes matches the request; true without nodes.
#[cycle(matching)]
fn first_matches(leaves: &Leaves, nodes: &[Node], request: &Request) -> bool
    ensures { result ≡ holds request.now (first_of (formulas_in leaves.now nodes.now)) }
{
    let Some((node, behind)) = nodes.split_first() else {
        return true;
    };
    let (inside, _) = cut(behind, node.inside());
    node_matches(leaves, node, inside, request)
}

/// Whether each rule of the nodes matches the request.
#[cycle(matching)]
#[inline(always)]
pub(crate) fn all_match(leaves: &Leaves, nodes: &[Node], request: &Request) -> bool
    ensures { result ≡ all_hold request.now (formulas_in leaves.now nodes.now) }
{
    let mut rest = nodes;
    while let Some((node, behind)) = rest.split_first() {
        let (inside, others) = cut(behind, node.inside());
        if !node_matches(leaves, node, inside, request) {
            return false;
        }
        rest = others;
    }
    true
}

/// Whether at least one rule of the nodes matches the request.
#[cycle(matching)]
#[inline(always)]
pub(crate) fn some_match(leaves: &Leaves, nodes: &[Node], request: &Request) -> bool
    ensures { result ≡ some_hold request.now (formulas_in leaves.now nodes.now) }
{
    let mut rest = nodes;
    while let Some((node, behind)) = rest.split_first() {
        let (inside, others) = cut(behind, node.inside());
        if node_matches(leaves, node, inside, request) {
            return true;
        }
        rest = others;
    }
    false
}
