//! One message of an expression, without the expressions inside it.

ghost use Rattle.std.specs.Prelude.{◌≡◌, Some, None, IfOk, IfErr, MatchOption, map};
ghost use Rattle.proto_wire.specs.Fields.{field_view};
ghost use Rattle.proto_wire.specs.Merge.{parts_view};
ghost use Rattle.proto_wire.specs.Refusal.{MemoryOr};
ghost use Rattle.proto_wire.specs.declared.refusal.Refusal.TheVariants.{Missing, Unsupported};
ghost use Rattle.cel_value.specs.Types.{IsInt64};
ghost use Rattle.cel_tree.specs.Nodes.{node_kinds, kind_keys, KindSays, KindFault, MemberSays, MemberFails, NodeSays, IsNode, NodeFault};
ghost use Rattle.proto_wire.specs.Reading.{LacksMember, IsUnsupported, OneofFault};
ghost use Rattle.proto_wire.specs.private.Values.{ValuesFault};
ghost use Rattle.proto_wire.specs.Oneof.{last_number, member_in, member_run};
ghost use Rattle.cel_read.specs.private.NodeViews.{node_view, numbered_view};

use crate::constant::read_constant;
use crate::fields::run_payloads;
use crate::literals::{read_list, read_struct};
use crate::loops::read_loop;
use crate::operands::{read_call, read_ident, read_select};
use crate::parsed::Node;
use cel_tree::{NODE_ID, NodeKind};
use proto_wire::{Field, Key, Refusal, int64_at, keys, last_number, read_message};
use std::alloc::Global;

const CONST_EXPR: u32 = 3;

const IDENT_EXPR: u32 = 4;

const SELECT_EXPR: u32 = 5;

const CALL_EXPR: u32 = 6;

const LIST_EXPR: u32 = 7;

const STRUCT_EXPR: u32 = 8;

const COMPREHENSION_EXPR: u32 = 9;

static EXPR: [Key; 8] = keys![
    Varint NODE_ID, Len CONST_EXPR, Len IDENT_EXPR, Len SELECT_EXPR, Len CALL_EXPR, Len LIST_EXPR,
    Len STRUCT_EXPR, Len COMPREHENSION_EXPR
];

// The members of the oneof.
static KINDS: [Key; 7] = keys![
    Len CONST_EXPR, Len IDENT_EXPR, Len SELECT_EXPR, Len CALL_EXPR, Len LIST_EXPR, Len STRUCT_EXPR,
    Len COMPREHENSION_EXPR
];

// The last member of an Expr, which determines its node.
#[derive(Clone, Copy, Debug)]
struct LastKind {
    kind: NodeKind,
    number: u32,
}

/// Reads an Expr from its parts: its id and its node. Does not read the expressions inside.
pub(crate) fn read_node<'a>(alloc: Global, parts: &[&'a [u8]]) -> Result<(i64, Node<'a>), Refusal>
    ensures found { IfOk result (λ n. IsNode (parts_view parts.now) n.0 (node_view n.1)) }
    ensures ranged { IfOk result (λ n. IsInt64 n.0) }
    ensures fault { IfErr result (MemoryOr (NodeFault (parts_view parts.now))) }
{
    let fields = read_message(alloc, parts, &EXPR)?;
    node_of(alloc, &fields)
}

// The id and the node that the fields mean.
fn node_of<'a>(alloc: Global, fields: &[Field<'a>]) -> Result<(i64, Node<'a>), Refusal>
    ensures found { IfOk result (λ n. NodeSays (map field_view fields.now) (numbered_view n)) }
    ensures ranged { IfOk result (λ n. IsInt64 n.0) }
    ensures fault { IfErr result (MemoryOr (ValuesFault (LacksMember node_kinds)
        (OneofFault node_kinds IsUnsupported MemberFails) (map field_view fields.now))) }
{
    let last = last_kind(fields)?;
    let node = last_node(alloc, fields, last)?;
    Ok((int64_at(fields, NODE_ID), node))
}

// The node that the last member of an Expr's fields means.
fn last_node<'a>(alloc: Global, fields: &[Field<'a>], last: LastKind) -> Result<Node<'a>, Refusal>
    ensures found { IfOk result (λ node. MemberSays last.kind last.number
        (member_run kind_keys (map field_view fields.now)) (node_view node)) }
    ensures fault { IfErr result (MemoryOr (MemberFails last.kind last.number
        (member_run kind_keys (map field_view fields.now)))) }
{
    let parts = run_payloads(alloc, fields, &KINDS, last.number)?;
    read_kind(alloc, last.kind, &parts)
}

// The last member of an Expr's fields: `Missing` if there is none.
fn last_kind(fields: &[Field<'_>]) -> Result<LastKind, Refusal>
    ensures found { IfOk result (λ last.
        (last_number kind_keys (map field_view fields.now) ≡ Some last.number)
        × (member_in node_kinds last.number ≡ Some last.kind)) }
    ensures fault { IfErr result (λ e. MatchOption (last_number kind_keys (map field_view fields.now))
        (e ≡ Missing) (λ n. (member_in node_kinds n ≡ None) × (e ≡ Unsupported))) }
{
    let Some(number) = last_number(fields, &KINDS) else {
        return Err(Refusal::Missing);
    };
    match kind_at(number) {
        Some(kind) => Ok(LastKind { kind, number }),
        None => Err(Refusal::Unsupported),
    }
}

// The member of this number.
fn kind_at(number: u32) -> Option<NodeKind>
    ensures { result ≡ member_in node_kinds number }
{
    match number {
        CONST_EXPR => Some(NodeKind::Constant),
        IDENT_EXPR => Some(NodeKind::Ident),
        SELECT_EXPR => Some(NodeKind::Select),
        CALL_EXPR => Some(NodeKind::Call),
        LIST_EXPR => Some(NodeKind::List),
        STRUCT_EXPR => Some(NodeKind::Struct),
        COMPREHENSION_EXPR => Some(NodeKind::Comprehension),
        _ => None,
    }
}

// Reads the message of a member of this kind from its parts.
fn read_kind<'a>(alloc: Global, kind: NodeKind, parts: &[&'a [u8]]) -> Result<Node<'a>, Refusal>
    ensures found { IfOk result (λ node. KindSays kind (parts_view parts.now) (node_view node)) }
    ensures fault { IfErr result (MemoryOr (KindFault kind (parts_view parts.now))) }
{
    match kind {
        NodeKind::Constant => Ok(Node::Constant(read_constant(alloc, parts)?)),
        NodeKind::Ident => read_ident(alloc, parts),
        NodeKind::Select => read_select(alloc, parts),
        NodeKind::Call => read_call(alloc, parts),
        NodeKind::List => read_list(alloc, parts),
        NodeKind::Struct => read_struct(alloc, parts),
        NodeKind::Comprehension => read_loop(alloc, parts),
    }
}
