//! Nodes whose own message is read; the expressions inside are unread parts.

use cel_tree::Constant;
use proto_wire::Payloads;
use std::sync::ArcStr;

/// A node whose own message is read; the expressions inside are unread parts.
#[derive(Drop)]
pub(crate) enum Node<'a> {
    Constant(Constant),
    Ident(ArcStr),
    Select {
        operand: Payloads<'a>,
        field: ArcStr,
        test_only: bool,
    },
    /// A call without a target has no parts of it.
    Call {
        function: ArcStr,
        target: Payloads<'a>,
        args: Payloads<'a>,
    },
    List(Payloads<'a>),
    Map(Vec<EntryNode<'a>>),
    Comprehension(LoopNode<'a>),
}

/// An entry whose own message is read; its key and its value are unread parts.
#[derive(Drop)]
pub(crate) struct EntryNode<'a> {
    pub id: i64,
    pub key: Payloads<'a>,
    pub value: Payloads<'a>,
}

/// A comprehension whose own message is read; the expressions inside are unread parts.
#[derive(Drop)]
pub(crate) struct LoopNode<'a> {
    pub iter_var: ArcStr,
    pub iter_var2: ArcStr,
    pub accu_var: ArcStr,
    pub iter_range: Payloads<'a>,
    pub accu_init: Payloads<'a>,
    pub loop_condition: Payloads<'a>,
    pub loop_step: Payloads<'a>,
    pub result: Payloads<'a>,
}
