//! What all requests that rules match have in common: how their paths begin, and the value of a header.

ghost use Rattle.std.specs.Prelude.{◌≡◌, ◌≤◌, true, IfSome, List, [], length, slice_get, take, unwrap_or};
ghost use Rattle.attributes.specs.Attributes.{url_path_of};
ghost use Rattle.attributes.specs.Request.{RequestValue, header_of};
ghost use Rattle.rbac_match.specs.Formula.{all_hold, holds, some_hold};
ghost use Rattle.rbac_match.specs.Needs.{Begins, NeedsStart, NeedsValue};
ghost use Rattle.rbac_match.specs.View.{rules_view};
ghost use Rattle.rbac_match.specs.declared.list.Node.{Node};
ghost use Rattle.rbac_match.specs.private.Leaves.{passes_at};
ghost use Rattle.rbac_match.specs.private.Nodes.{formula_in, formulas_in};

use crate::leaves::Leaves;
use crate::list::{Joint, Node, RuleList, Rules, cut};

/// A start of the path of every request that at least one of these rules matches: the longest start that the
/// rules have in common. A rule has a start if it is a test of the path, or an `And` with such a test in it.
pub fn path_start(list: &RuleList, rules: Rules) -> &[u8]
    ensures { NeedsStart (rules_view list.now rules) result.now }
{
    let (leaves, nodes) = list.parts(rules);
    let Some((node, behind)) = nodes.split_first() else {
        return &[];
    };
    let (inside, others) = cut(behind, node.inside());
    let start = rule_start(leaves, node, inside);
    common_start(leaves, start, others)
}

/// The value of the header of this name in every request that at least one of these rules matches; a missing
/// header counts as empty. It is known if each rule requires the same value. Such a rule tests the header,
/// or is an `And` with such a test.
pub fn header_value<'a>(list: &'a RuleList, rules: Rules, name: &str) -> Option<&'a [u8]>
    ensures { IfSome result (λ value. NeedsValue (rules_view list.now rules) name.now value.now) }
{
    let (leaves, nodes) = list.parts(rules);
    let Some((node, behind)) = nodes.split_first() else {
        return None;
    };
    let (inside, others) = cut(behind, node.inside());
    match rule_value(leaves, node, inside, name) {
        Some(value) => {
            if all_need(leaves, others, name, value) {
                return Some(value);
            }
            None
        }
        None => None,
    }
}

/// The name of the header whose value the first rule requires. If several of its tests require one, the first
/// test counts.
pub fn header_name(list: &RuleList, rules: Rules) -> Option<&str> {
    let (leaves, nodes) = list.parts(rules);
    let Some((node, behind)) = nodes.split_first() else {
        return None;
    };
    let (inside, _) = cut(behind, node.inside());
    match node {
        Node::Joined(Joint::And, _) => joined_name(leaves, inside),
        _ => test_name(leaves, node),
    }
}

// A start of the path of every request that the rule of a node matches; `inside` has the nodes of the rules
// in it.
fn rule_start<'a>(leaves: &'a Leaves, node: &Node, inside: &[Node]) -> &'a [u8]
    ensures { (r : RequestValue) → holds r (formula_in leaves.now node.now inside.now) ≡ true
        → Begins result.now (url_path_of r.target) }
{
    match node {
        Node::Joined(Joint::And, _) => joined_start(leaves, inside),
        _ => test_start(leaves, node),
    }
}

// The same for a rule that is a test.
fn test_start<'a>(leaves: &'a Leaves, node: &Node) -> &'a [u8]
    ensures { (inside : List Node) (r : RequestValue)
        → holds r (formula_in leaves.now node.now inside) ≡ true
        → Begins result.now (url_path_of r.target) }
{
    match node {
        Node::Leaf(place) => leaves.path_start(*place),
        _ => &[],
    }
}

// A start of the path of every request that all rules of the nodes match: that of the first test of the path
// among them.
fn joined_start<'a>(leaves: &'a Leaves, nodes: &[Node]) -> &'a [u8]
    ensures { (r : RequestValue) → all_hold r (formulas_in leaves.now nodes.now) ≡ true
        → Begins result.now (url_path_of r.target) }
{
    let mut rest = nodes;
    while let Some((node, behind)) = rest.split_first() {
        let start = test_start(leaves, node);
        if !start.is_empty() {
            return start;
        }
        let (_, others) = cut(behind, node.inside());
        rest = others;
    }
    &[]
}

// A start that `start` has in common with the path of every request that at least one rule of the nodes
// matches.
fn common_start<'a>(leaves: &'a Leaves, start: &'a [u8], nodes: &[Node]) -> &'a [u8]
    ensures start { Begins result.now start.now }
    ensures rules { (r : RequestValue) → some_hold r (formulas_in leaves.now nodes.now) ≡ true
        → Begins result.now (url_path_of r.target) }
{
    let mut common = start;
    let mut rest = nodes;
    while let Some((node, behind)) = rest.split_first() {
        let (inside, others) = cut(behind, node.inside());
        common = shared(common, rule_start(leaves, node, inside));
        rest = others;
    }
    common
}

// The longest start that two texts have in common.
fn shared<'a>(one: &'a [u8], other: &[u8]) -> &'a [u8]
    ensures one { Begins result.now one.now }
    ensures other { Begins result.now other.now }
{
    let count = same_count(one, other);
    &one[..count]
}

// The number of bytes of that start.
fn same_count(one: &[u8], other: &[u8]) -> usize
    ensures { (result ≤ length one.now) × (take result one.now ≡ take result other.now) }
{
    for (count, byte) in one.iter().enumerate() {
        match other.get(count) {
            Some(same) => {
                if *same != *byte {
                    return count;
                }
            }
            None => return count,
        }
    }
    one.len()
}

// The value of the header of this name in every request that the rule of a node matches. `inside` has the
// nodes of the rules in it.
fn rule_value<'a>(leaves: &'a Leaves, node: &Node, inside: &[Node], name: &str) -> Option<&'a [u8]>
    ensures { IfSome result (λ value. (r : RequestValue)
        → holds r (formula_in leaves.now node.now inside.now) ≡ true
        → unwrap_or (header_of r name.now) [] ≡ value.now) }
{
    match node {
        Node::Joined(Joint::And, _) => joined_value(leaves, inside, name),
        _ => test_value(leaves, node, name),
    }
}

// The same for a rule that is a test.
fn test_value<'a>(leaves: &'a Leaves, node: &Node, name: &str) -> Option<&'a [u8]>
    ensures { IfSome result (λ value. (inside : List Node) (r : RequestValue)
        → holds r (formula_in leaves.now node.now inside) ≡ true
        → unwrap_or (header_of r name.now) [] ≡ value.now) }
{
    match node {
        Node::Leaf(place) => needed_value(leaves, *place, name),
        _ => None,
    }
}

// The same for the test at this place.
fn needed_value<'a>(leaves: &'a Leaves, place: u32, name: &str) -> Option<&'a [u8]>
    ensures { IfSome result (λ value. (r : RequestValue)
        → passes_at (slice_get leaves.now place) r ≡ true
        → unwrap_or (header_of r name.now) [] ≡ value.now) }
{
    match leaves.header_value(place) {
        Some((own, value)) => {
            if own == name {
                return Some(value);
            }
            None
        }
        None => None,
    }
}

// The value of the header of this name in every request that all rules of the nodes match. It is that of the
// first test that needs one.
fn joined_value<'a>(leaves: &'a Leaves, nodes: &[Node], name: &str) -> Option<&'a [u8]>
    ensures { IfSome result (λ value. (r : RequestValue)
        → all_hold r (formulas_in leaves.now nodes.now) ≡ true
        → unwrap_or (header_of r name.now) [] ≡ value.now) }
{
    let mut rest = nodes;
    while let Some((node, behind)) = rest.split_first() {
        let need = test_value(leaves, node, name);
        if need.is_some() {
            return need;
        }
        let (_, others) = cut(behind, node.inside());
        rest = others;
    }
    None
}

// Whether each rule of the nodes needs this value of the header of this name.
fn all_need(leaves: &Leaves, nodes: &[Node], name: &str, value: &[u8]) -> bool
    ensures { result ≡ true → (r : RequestValue)
        → some_hold r (formulas_in leaves.now nodes.now) ≡ true
        → unwrap_or (header_of r name.now) [] ≡ value.now }
{
    let mut rest = nodes;
    while let Some((node, behind)) = rest.split_first() {
        let (inside, others) = cut(behind, node.inside());
        if !needs_value(leaves, node, inside, name, value) {
            return false;
        }
        rest = others;
    }
    true
}

// The same for the rule of a node; `inside` has the nodes of the rules in it.
fn needs_value(leaves: &Leaves, node: &Node, inside: &[Node], name: &str, value: &[u8]) -> bool
    ensures { result ≡ true → (r : RequestValue)
        → holds r (formula_in leaves.now node.now inside.now) ≡ true
        → unwrap_or (header_of r name.now) [] ≡ value.now }
{
    match rule_value(leaves, node, inside, name) {
        Some(own) => own == value,
        None => false,
    }
}

// The name of the header in the first test, among the rules of the nodes, that requires a value.
fn joined_name<'a>(leaves: &'a Leaves, nodes: &[Node]) -> Option<&'a str> {
    let mut rest = nodes;
    while let Some((node, behind)) = rest.split_first() {
        let name = test_name(leaves, node);
        if name.is_some() {
            return name;
        }
        let (_, others) = cut(behind, node.inside());
        rest = others;
    }
    None
}

// The name of the header whose value the node's test needs.
fn test_name<'a>(leaves: &'a Leaves, node: &Node) -> Option<&'a str> {
    match node {
        Node::Leaf(place) => match leaves.header_value(*place) {
            Some((name, _)) => Some(name),
            None => None,
        },
        _ => None,
    }
}
