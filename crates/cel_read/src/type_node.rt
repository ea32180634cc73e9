//! One message of a type, without the types inside it.

ghost use Rattle.std.specs.Prelude.{◌≡◌, ◌≢◌, [], Some, None, IfOk, IfErr, OnOk, MatchOption, map};
ghost use Rattle.proto_wire.specs.Fields.{field_view};
ghost use Rattle.proto_wire.specs.Merge.{parts_view};
ghost use Rattle.proto_wire.specs.Refusal.{MemoryOr};
ghost use Rattle.proto_wire.specs.Values.{payloads};
ghost use Rattle.proto_wire.specs.declared.refusal.Refusal.TheVariants.{OutOfRange};
ghost use Rattle.proto_wire.specs.Reading.{Reads, ReadFault, Never, OneofSays, OneofFault};
ghost use Rattle.proto_wire.specs.private.Values.{ValuesFault};
ghost use Rattle.proto_wire.specs.Oneof.{last_number, member_in};
ghost use Rattle.cel_tree.specs.TypeEntries.{type_kinds, type_keys, list_type_keys, map_type_keys, primitive_of, ListTypeSays, ListTypeWrong, MapTypeSays, MapTypeWrong, TypeSays, TypeFails, IsOfOtherKind, IsTypeNode, TypeNodeFault};
ghost use Rattle.cel_tree.specs.View.{type_entry_view};
ghost use Rattle.cel_read.specs.private.NodeViews.{type_node_view};

use crate::fields::two_payloads_of;
use cel_tree::{TypeEntry, TypeKind};
use cel_value::CelType;
use proto_wire::{
    Field, Key, Payloads, Refusal, has_payload, keys, last_number, member_run, payloads_of,
    read_message, uint32_at,
};
use std::alloc::Global;

const DYN: u32 = 1;

const NULL: u32 = 2;

const PRIMITIVE: u32 = 3;

const WRAPPER: u32 = 4;

const WELL_KNOWN: u32 = 5;

const LIST_TYPE: u32 = 6;

const MAP_TYPE: u32 = 7;

const FUNCTION: u32 = 8;

const MESSAGE_TYPE: u32 = 9;

const TYPE_PARAM: u32 = 10;

// The part of a ListType.
const ELEM: u32 = 1;

// The parts of a MapType.
const KEY: u32 = 1;

const VALUE: u32 = 2;

// The members of the oneof: a Type has no other fields.
static TYPE: [Key; 10] = keys![
    Len DYN, Varint NULL, Varint PRIMITIVE, Varint WRAPPER, Varint WELL_KNOWN, Len LIST_TYPE,
    Len MAP_TYPE, Len FUNCTION, Len MESSAGE_TYPE, Len TYPE_PARAM
];

static LIST: [Key; 1] = keys![Len ELEM];

static MAP: [Key; 2] = keys![Len KEY, Len VALUE];

/// A type whose own message is read; the types inside are unread parts.
#[derive(Drop)]
pub(crate) enum TypeNode<'a> {
    /// No type is inside.
    Plain(TypeEntry),
    List {
        elem: Payloads<'a>,
    },
    Map {
        key: Payloads<'a>,
        value: Payloads<'a>,
    },
}

// The last member of a Type, which determines the type.
#[derive(Clone, Copy, Debug)]
struct LastKind {
    kind: TypeKind,
    number: u32,
}

/// Reads a Type from its parts. Does not read the types inside.
pub(crate) fn read_type_node<'a>(alloc: Global, parts: &[&'a [u8]]) -> Result<TypeNode<'a>, Refusal>
    ensures found { IfOk result (λ node. IsTypeNode (parts_view parts.now) (type_node_view node)) }
    ensures fault { IfErr result (MemoryOr (TypeNodeFault (parts_view parts.now))) }
{
    let fields = read_message(alloc, parts, &TYPE)?;
    type_of(alloc, &fields)
}

// The type that the fields mean.
fn type_of<'a>(alloc: Global, fields: &[Field<'a>]) -> Result<TypeNode<'a>, Refusal>
    ensures found { IfOk result (λ node.
        OneofSays type_kinds IsOfOtherKind TypeSays (map field_view fields.now) (type_node_view node)) }
    ensures fault { IfErr result (MemoryOr
        (ValuesFault Never (OneofFault type_kinds Never TypeFails) (map field_view fields.now))) }
{
    let Some(last) = last_kind(fields) else {
        return Ok(TypeNode::Plain(TypeEntry::Unsupported));
    };
    let run = member_run(alloc, fields, &TYPE)?;
    type_in(alloc, last, &run)
}

// The last member of a Type's fields; `None` if there is none, or if it is not supported.
fn last_kind(fields: &[Field<'_>]) -> Option<LastKind>
    ensures { MatchOption result
        (MatchOption (last_number type_keys (map field_view fields.now)) (Unit {0}) (λ n. member_in type_kinds n ≡ None))
        (λ last. (last_number type_keys (map field_view fields.now) ≡ Some last.number)
        × (member_in type_kinds last.number ≡ Some last.kind)) }
{
    let number = last_number(fields, &TYPE)?;
    let kind = kind_at(number)?;
    Some(LastKind { kind, number })
}

// The member of this number; `None` if it is not supported.
fn kind_at(number: u32) -> Option<TypeKind>
    ensures { result ≡ member_in type_kinds number }
{
    match number {
        DYN => Some(TypeKind::Dyn),
        PRIMITIVE => Some(TypeKind::Primitive),
        LIST_TYPE => Some(TypeKind::List),
        MAP_TYPE => Some(TypeKind::Map),
        _ => None,
    }
}

// The type that the last member's run means.
fn type_in<'a>(alloc: Global, last: LastKind, run: &[Field<'a>]) -> Result<TypeNode<'a>, Refusal>
    ensures found { IfOk result (λ node.
        TypeSays last.kind last.number (map field_view run.now) (type_node_view node)) }
    ensures fault { IfErr result (MemoryOr (TypeFails last.kind last.number (map field_view run.now))) }
{
    match last.kind {
        TypeKind::Dyn => Ok(TypeNode::Plain(TypeEntry::Dyn)),
        TypeKind::Primitive => Ok(TypeNode::Plain(primitive(uint32_at(run, last.number))?)),
        TypeKind::List => {
            let parts = payloads_of(alloc, run, last.number)?;
            read_list_type(alloc, &parts)
        }
        TypeKind::Map => {
            let parts = payloads_of(alloc, run, last.number)?;
            read_map_type(alloc, &parts)
        }
    }
}

// The primitive type of this number.
fn primitive(number: u32) -> Result<TypeEntry, Refusal>
    ensures found { IfOk result (λ entry. primitive_of number ≡ Some (type_entry_view entry)) }
    ensures fault { IfErr result (λ e. (primitive_of number ≡ None) × (e ≡ OutOfRange)) }
{
    match number {
        1 => Ok(TypeEntry::Type(CelType::Bool)),
        2 => Ok(TypeEntry::Type(CelType::Int)),
        3 => Ok(TypeEntry::Type(CelType::Uint)),
        4 => Ok(TypeEntry::Unsupported),
        5 => Ok(TypeEntry::Type(CelType::Text)),
        6 => Ok(TypeEntry::Type(CelType::Bytes)),
        _ => Err(Refusal::OutOfRange),
    }
}

// Reads a ListType from its parts.
fn read_list_type<'a>(alloc: Global, parts: &[&'a [u8]]) -> Result<TypeNode<'a>, Refusal>
    ensures found { IfOk result (λ node. Reads list_type_keys ListTypeSays (parts_view parts.now) (type_node_view node)) }
    ensures fault { IfErr result (MemoryOr (ReadFault list_type_keys Never ListTypeWrong (parts_view parts.now))) }
{
    let fields = read_message(alloc, parts, &LIST)?;
    list_type_of(alloc, &fields)
}

// The list type that the fields mean.
fn list_type_of<'a>(alloc: Global, fields: &[Field<'a>]) -> Result<TypeNode<'a>, Refusal>
    ensures found { IfOk result (λ node. ListTypeSays (map field_view fields.now) (type_node_view node)) }
    ensures fault { IfErr result (MemoryOr (ValuesFault Never ListTypeWrong (map field_view fields.now))) }
{
    require_type(fields, ELEM)?;
    let elem = payloads_of(alloc, fields, ELEM)?;
    Ok(TypeNode::List { elem })
}

// Reads a MapType from its parts.
fn read_map_type<'a>(alloc: Global, parts: &[&'a [u8]]) -> Result<TypeNode<'a>, Refusal>
    ensures found { IfOk result (λ node. Reads map_type_keys MapTypeSays (parts_view parts.now) (type_node_view node)) }
    ensures fault { IfErr result (MemoryOr (ReadFault map_type_keys Never MapTypeWrong (parts_view parts.now))) }
{
    let fields = read_message(alloc, parts, &MAP)?;
    map_type_of(alloc, &fields)
}

// The map type that the fields mean.
fn map_type_of<'a>(alloc: Global, fields: &[Field<'a>]) -> Result<TypeNode<'a>, Refusal>
    ensures found { IfOk result (λ node. MapTypeSays (map field_view fields.now) (type_node_view node)) }
    ensures fault { IfErr result (MemoryOr (ValuesFault Never MapTypeWrong (map field_view fields.now))) }
{
    require_type(fields, KEY)?;
    require_type(fields, VALUE)?;
    let (key, value) = two_payloads_of(alloc, fields, KEY, VALUE)?;
    Ok(TypeNode::Map { key, value })
}

// Refuses a list or map type that lacks a required part.
fn require_type(fields: &[Field<'_>], number: u32) -> Result<(), Refusal>
    ensures found { OnOk result (payloads number (map field_view fields.now) ≢ []) }
    ensures fault { IfErr result (λ e. (payloads number (map field_view fields.now) ≡ []) × (e ≡ OutOfRange)) }
{
    if has_payload(fields, number) {
        return Ok(());
    }
    Err(Refusal::OutOfRange)
}
