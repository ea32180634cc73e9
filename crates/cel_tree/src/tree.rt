//! Trees of expressions.

use std::sync::{ArcSlice, ArcStr};

/// A constant in a tree.
#[derive(Drop)]
pub enum Constant {
    Bool(bool),
    Int(i64),
    Uint(u64),
    Text(ArcStr),
    Bytes(ArcSlice<u8>),
}

/// An expression (CEL language definition, "Abstract Syntax"): each node has an id.
#[derive(Drop)]
#[cycle(tree)]
pub enum Tree {
    Constant {
        id: i64,
        value: Constant,
    },
    /// A variable by its name.
    Ident {
        id: i64,
        name: ArcStr,
    },
    /// The operand's value at a field's name, or, in a test, whether there is one.
    Select {
        id: i64,
        operand: Box<Tree>,
        field: ArcStr,
        test_only: bool,
    },
    Call {
        id: i64,
        function: ArcStr,
        target: Option<Box<Tree>>,
        args: Vec<Tree>,
    },
    List {
        id: i64,
        elements: Vec<Tree>,
    },
    Map {
        id: i64,
        entries: Vec<TreeEntry>,
    },
    Comprehension {
        id: i64,
        parts: Box<Comprehension>,
    },
}

/// An entry of a map literal.
#[derive(Drop)]
#[cycle(tree)]
pub struct TreeEntry {
    pub id: i64,
    pub key: Tree,
    pub value: Tree,
}

/// A comprehension: a fold over the items of a list, or over the keys of a map.
#[derive(Drop)]
#[cycle(tree)]
pub struct Comprehension {
    /// The name of the element, or, if there is a second name, of the index or key, in the condition and in
    /// the step.
    pub iter_var: ArcStr,
    /// The second name, of the item or value, in the condition and in the step; empty for one variable.
    pub iter_var2: ArcStr,
    /// The name of the accumulator, in the condition, in the step and in the result.
    pub accu_var: ArcStr,
    /// The list or map whose elements are folded.
    pub iter_range: Tree,
    /// The accumulator's initial value.
    pub accu_init: Tree,
    /// Evaluated for each element, before the step; if it is false, the fold ends.
    pub loop_condition: Tree,
    /// The accumulator's value after an element.
    pub loop_step: Tree,
    /// The value of the comprehension.
    pub result: Tree,
}
