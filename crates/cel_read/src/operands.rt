//! The messages Ident, Select and Call, without the expressions inside them.

ghost use Rattle.std.specs.Prelude.{IfOk, IfErr, map};
ghost use Rattle.proto_wire.specs.Fields.{field_view};
ghost use Rattle.proto_wire.specs.Merge.{parts_view};
ghost use Rattle.proto_wire.specs.Refusal.{MemoryOr};
ghost use Rattle.proto_wire.specs.Values.{StringFault};
ghost use Rattle.cel_tree.specs.Nodes.{ident_keys, IdentSays, select_keys, SelectSays, SelectLacks, call_keys, CallSays, ident_field, select_field, call_field};
ghost use Rattle.proto_wire.specs.Reading.{Reads, ReadFault, Never};
ghost use Rattle.proto_wire.specs.private.Values.{ValuesFault};
ghost use Rattle.cel_read.specs.private.NodeViews.{node_view};

use crate::fields::{name_at, two_payloads_of};
use crate::parsed::Node;
use proto_wire::{
    Field, Key, Refusal, bool_at, keys, payloads_of, read_message, require_payload, text_at,
};
use std::alloc::Global;
use std::sync::ArcStr;

// The field of an Ident.
const NAME: u32 = 1;

// The fields of a Select.
const OPERAND: u32 = 1;

const FIELD: u32 = 2;

const TEST_ONLY: u32 = 3;

// The fields of a Call.
const TARGET: u32 = 1;

const FUNCTION: u32 = 2;

const ARGS: u32 = 3;

static IDENT: [Key; 1] = keys![Len NAME];

static SELECT: [Key; 3] = keys![Len OPERAND, Len FIELD, Varint TEST_ONLY];

static CALL: [Key; 3] = keys![Len TARGET, Len FUNCTION, Len ARGS];

/// Reads an Ident from its parts.
pub(crate) fn read_ident<'a>(alloc: Global, parts: &[&'a [u8]]) -> Result<Node<'a>, Refusal>
    ensures found { IfOk result (λ node. Reads ident_keys IdentSays (parts_view parts.now) (node_view node)) }
    ensures fault { IfErr result (MemoryOr (ReadFault ident_keys Never (StringFault ident_field.name) (parts_view parts.now))) }
{
    let fields = read_message(alloc, parts, &IDENT)?;
    ident_of(alloc, &fields)
}

// The node that the fields of an Ident mean.
fn ident_of<'a>(alloc: Global, fields: &[Field<'a>]) -> Result<Node<'a>, Refusal>
    ensures found { IfOk result (λ node. IdentSays (map field_view fields.now) (node_view node)) }
    ensures fault { IfErr result (MemoryOr (ValuesFault Never (StringFault ident_field.name) (map field_view fields.now))) }
{
    Ok(Node::Ident(name_at(alloc, fields, NAME)?))
}

/// Reads a Select from its parts.
pub(crate) fn read_select<'a>(alloc: Global, parts: &[&'a [u8]]) -> Result<Node<'a>, Refusal>
    ensures found { IfOk result (λ node. Reads select_keys SelectSays (parts_view parts.now) (node_view node)) }
    ensures fault { IfErr result (MemoryOr (ReadFault select_keys SelectLacks (StringFault select_field.field) (parts_view parts.now))) }
{
    let fields = read_message(alloc, parts, &SELECT)?;
    select_of(alloc, &fields)
}

// The node that the fields of a Select mean.
fn select_of<'a>(alloc: Global, fields: &[Field<'a>]) -> Result<Node<'a>, Refusal>
    ensures found { IfOk result (λ node. SelectSays (map field_view fields.now) (node_view node)) }
    ensures fault { IfErr result (MemoryOr (ValuesFault SelectLacks (StringFault select_field.field) (map field_view fields.now))) }
{
    let name = text_at(fields, FIELD)?;
    require_payload(fields, OPERAND)?;
    let operand = payloads_of(alloc, fields, OPERAND)?;
    let field = ArcStr::from_str(alloc, name)?;
    let test_only = bool_at(fields, TEST_ONLY);
    Ok(Node::Select {
        operand,
        field,
        test_only,
    })
}

/// Reads a Call from its parts.
pub(crate) fn read_call<'a>(alloc: Global, parts: &[&'a [u8]]) -> Result<Node<'a>, Refusal>
    ensures found { IfOk result (λ node. Reads call_keys CallSays (parts_view parts.now) (node_view node)) }
    ensures fault { IfErr result (MemoryOr (ReadFault call_keys Never (StringFault call_field.function) (parts_view parts.now))) }
{
    let fields = read_message(alloc, parts, &CALL)?;
    call_of(alloc, &fields)
}

// The node that the fields of a Call mean.
fn call_of<'a>(alloc: Global, fields: &[Field<'a>]) -> Result<Node<'a>, Refusal>
    ensures found { IfOk result (λ node. CallSays (map field_view fields.now) (node_view node)) }
    ensures fault { IfErr result (MemoryOr (ValuesFault Never (StringFault call_field.function) (map field_view fields.now))) }
{
    let function = name_at(alloc, fields, FUNCTION)?;
    let (target, args) = two_payloads_of(alloc, fields, TARGET, ARGS)?;
    Ok(Node::Call {
        function,
        target,
        args,
    })
}
