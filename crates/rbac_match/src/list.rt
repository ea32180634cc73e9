//! All rules of a filter in one list; each is before the rules in it.

ghost use Rattle.std.specs.Prelude.{◌≡◌, ◌<◌, ◌≤◌, ◌+◌, ◌-◌, ◌++◌, ◌∷◌, [], List, length, take, drop, IfOk, OnOk};
ghost use Rattle.rbac_match.specs.Tokens.{every, test as test_of, joins, inside_count, slice_at};
ghost use Rattle.rbac_match.specs.declared.matcher.Matcher.{Matcher};
ghost use Rattle.rbac_match.specs.private.Nodes.{token_in, tokens_in};

use crate::leaves::Leaves;
use crate::matcher::Matcher;
use crate::search::position;
use std::alloc::{AllocError, Global};
use std::fmt::{self, Debug, Formatter};
use std::marker::Model;

/// How a rule joins the rules in it.
#[derive(Clone, Copy, PartialEq, Eq)]
pub enum Joint {
    /// It matches if each rule in it matches.
    And,
    /// It matches if at least one rule in it matches.
    Or,
    /// It matches if the rule in it does not match.
    Not,
}

/// A rule, or the head of a rule that has others in it.
#[derive(Clone, Copy)]
pub(crate) enum Node {
    /// Matches every request.
    Any,
    /// Matches if the request passes the test at this place.
    Leaf(u32),
    /// Joins the rules of the next nodes, of which there are this many.
    Joined(Joint, u32),
}

impl Node {
    /// The number of nodes of the rules in it.
    #[inline(always)]
    pub(crate) fn inside(&self) -> usize
        ensures { (leaves : List Matcher) → result ≡ inside_count (token_in leaves self.now) }
    {
        match self {
            Node::Joined(_, count) => *count as usize,
            _ => 0,
        }
    }
}

/// Consecutive rules of a list: their first node, and the number of their nodes.
#[derive(Clone, Copy, Debug)]
pub struct Rules {
    from: u32,
    count: u32,
}

/// The rules of a filter, in a list to which readers append. Its value is the list of its tokens. A rule's
/// own token says how it joins the rules in it, and how many tokens they take. Their tokens follow it.
#[derive(Drop)]
pub struct RuleList {
    nodes: Vec<Node>,
    leaves: Leaves,
}

impl Model for RuleList {
    ghost use Rattle.std.specs.Prelude.{List, length};
    ghost use Rattle.rbac_match.specs.Tokens.{Token};
    ghost use Rattle.rbac_match.specs.private.Nodes.{HasLeaves, tokens_in};

    ghost Value = { List Token };

    ghost view = { λ s. tokens_in s.leaves s.nodes.items };

    ghost invariant = { λ s. HasLeaves (length s.leaves) s.nodes.items };
}

impl Debug for RuleList {
    fn fmt<W: fmt::Write>(&self, f: &mut Formatter<W>) -> fmt::Result {
        f.debug_struct("RuleList").finish_non_exhaustive()
    }
}

impl RuleList {
    /// An empty list of rules.
    pub fn new(alloc: Global) -> Self
        ensures { result ≡ [] }
    {
        RuleList {
            nodes: Vec::new(alloc),
            leaves: Leaves::new(alloc),
        }
    }

    /// The allocator of the list.
    pub fn alloc(&self) -> Global {
        *self.nodes.allocator()
    }

    /// The number of tokens.
    pub(crate) fn len(&self) -> usize
        ensures { result ≡ length self.now }
    {
        self.nodes.len()
    }

    /// Appends a rule that matches every request.
    pub(crate) fn add_any(&mut self) -> Result<(), AllocError>
        ensures { OnOk result (self.new ≡ self.old ++ every ∷ []) }
    {
        self.nodes.push(Node::Any)?;
        Ok(())
    }

    /// Appends a rule that is a test.
    pub(crate) fn add_leaf(&mut self, test: &Matcher<'_>) -> Result<(), AllocError>
        ensures { OnOk result (self.new ≡ self.old ++ test_of test.now ∷ []) }
    {
        let alloc = *self.nodes.allocator();
        let place = self.leaves.push(alloc, test)?;
        self.nodes.push(Node::Leaf(place))?;
        Ok(())
    }

    /// Replaces the rule at this place, which was added as one that matches every request. The new rule joins
    /// all rules after it.
    pub(crate) fn join(&mut self, place: usize, joint: Joint) -> Result<(), AllocError>
        requires { place < length self.old }
        ensures { OnOk result (self.new ≡ take place self.old
            ++ joins joint (length self.old - place - 1) ∷ drop (place + 1) self.old) }
    {
        let count = position(self.nodes.len() - place - 1)?;
        self.nodes[place] = Node::Joined(joint, count);
        Ok(())
    }

    /// Frees the unused capacity.
    pub fn shrink(&mut self)
        ensures { self.new ≡ self.old }
    {
        self.nodes.shrink_to_fit();
        self.leaves.shrink();
    }

    /// The rules from this place to the end of the list.
    pub(crate) fn since(&self, place: usize) -> Result<Rules, AllocError>
        requires { place ≤ length self.now }
        ensures { IfOk result (λ rules. (rules.from ≡ place)
            × (rules.count ≡ length self.now - place)) }
    {
        let from = position(place)?;
        let count = position(self.nodes.len() - place)?;
        Ok(Rules { from, count })
    }

    /// The tests of the list, and the nodes of these rules.
    #[inline(always)]
    pub(crate) fn parts(&self, rules: Rules) -> (&Leaves, &[Node])
        ensures { tokens_in result.0.now result.1.now ≡ slice_at rules.from rules.count self.now }
    {
        let (_, behind) = cut(&self.nodes, rules.from as usize);
        let (nodes, _) = cut(behind, rules.count as usize);
        (&self.leaves, nodes)
    }
}

/// The first `count` nodes, and the nodes after them. If there are no more than `count`, all nodes, and none.
#[inline(always)]
pub(crate) fn cut(nodes: &[Node], count: usize) -> (&[Node], &[Node])
    ensures first { result.0.now ≡ take count nodes.now }
    ensures others { result.1.now ≡ drop count nodes.now }
    ensures fewer { (length result.0.now ≤ length nodes.now) × (length result.1.now ≤ length nodes.now) }
{
    if count < nodes.len() {
        return nodes.split_at(count);
    }
    (nodes, &[])
}
