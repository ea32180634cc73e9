//! Reads constants.

ghost use Rattle.std.specs.Prelude.{◌≡◌, Some, None, IfOk, IfErr, MatchOption, map};
ghost use Rattle.proto_wire.specs.Fields.{field_view};
ghost use Rattle.proto_wire.specs.Merge.{parts_view};
ghost use Rattle.proto_wire.specs.Refusal.{MemoryOr};
ghost use Rattle.proto_wire.specs.declared.refusal.Refusal.TheVariants.{Missing, Unsupported};
ghost use Rattle.cel_tree.specs.Constants.{constants, constant_keys, ConstantSays, ConstantFails, IsConstant, ConstantFault};
ghost use Rattle.proto_wire.specs.Reading.{OneofSays, Never, LacksMember, IsUnsupported, OneofFault};
ghost use Rattle.proto_wire.specs.private.Values.{ValuesFault};
ghost use Rattle.proto_wire.specs.Oneof.{last_number, member_in};
ghost use Rattle.cel_tree.specs.View.{constant_view};

use cel_tree::{Constant, ConstantKind};
use proto_wire::{
    Field, Key, Refusal, bool_at, bytes_at, int64_at, keys, last_number, last_varint, member_run,
    read_message, text_at,
};
use std::alloc::Global;
use std::sync::{ArcSlice, ArcStr};

const NULL_VALUE: u32 = 1;

const BOOL_VALUE: u32 = 2;

const INT64_VALUE: u32 = 3;

const UINT64_VALUE: u32 = 4;

const DOUBLE_VALUE: u32 = 5;

const STRING_VALUE: u32 = 6;

const BYTES_VALUE: u32 = 7;

// The members of the oneof: a Constant has no other fields.
static CONSTANT: [Key; 7] = keys![
    Varint NULL_VALUE, Varint BOOL_VALUE, Varint INT64_VALUE, Varint UINT64_VALUE, I64 DOUBLE_VALUE,
    Len STRING_VALUE, Len BYTES_VALUE
];

// The last member of a Constant, which determines its value.
#[derive(Clone, Copy, Debug)]
struct LastConstant {
    kind: ConstantKind,
    number: u32,
}

/// Reads a Constant from its parts.
pub(crate) fn read_constant(alloc: Global, parts: &[&[u8]]) -> Result<Constant, Refusal>
    ensures found { IfOk result (λ constant. IsConstant (parts_view parts.now) (constant_view constant)) }
    ensures fault { IfErr result (MemoryOr (ConstantFault (parts_view parts.now))) }
{
    let fields = read_message(alloc, parts, &CONSTANT)?;
    constant_of(alloc, &fields)
}

// The constant that the fields mean.
fn constant_of(alloc: Global, fields: &[Field<'_>]) -> Result<Constant, Refusal>
    ensures found { IfOk result (λ constant.
        OneofSays constants Never ConstantSays (map field_view fields.now) (constant_view constant)) }
    ensures fault { IfErr result (MemoryOr
        (ValuesFault (LacksMember constants) (OneofFault constants IsUnsupported ConstantFails) (map field_view fields.now))) }
{
    let last = last_constant(fields)?;
    let run = member_run(alloc, fields, &CONSTANT)?;
    constant_in(alloc, last, &run)
}

// The last member of a Constant's fields: `Missing` if there is none, `Unsupported` if it is not supported.
fn last_constant(fields: &[Field<'_>]) -> Result<LastConstant, Refusal>
    ensures found { IfOk result (λ last.
        (last_number constant_keys (map field_view fields.now) ≡ Some last.number)
        × (member_in constants last.number ≡ Some last.kind)) }
    ensures fault { IfErr result (λ e. MatchOption (last_number constant_keys (map field_view fields.now))
        (e ≡ Missing) (λ n. (member_in constants n ≡ None) × (e ≡ Unsupported))) }
{
    let Some(number) = last_number(fields, &CONSTANT) else {
        return Err(Refusal::Missing);
    };
    match constant_at(number) {
        Some(kind) => Ok(LastConstant { kind, number }),
        None => Err(Refusal::Unsupported),
    }
}

// The member of this number; `None` if it is not supported.
fn constant_at(number: u32) -> Option<ConstantKind>
    ensures { result ≡ member_in constants number }
{
    match number {
        BOOL_VALUE => Some(ConstantKind::Bool),
        INT64_VALUE => Some(ConstantKind::Int),
        UINT64_VALUE => Some(ConstantKind::Uint),
        STRING_VALUE => Some(ConstantKind::Text),
        BYTES_VALUE => Some(ConstantKind::Bytes),
        _ => None,
    }
}

// The constant that the last member's run means.
fn constant_in(alloc: Global, last: LastConstant, run: &[Field<'_>]) -> Result<Constant, Refusal>
    ensures found { IfOk result (λ constant.
        ConstantSays last.kind last.number (map field_view run.now) (constant_view constant)) }
    ensures fault { IfErr result (MemoryOr (ConstantFails last.kind last.number (map field_view run.now))) }
{
    match last.kind {
        ConstantKind::Bool => Ok(Constant::Bool(bool_at(run, last.number))),
        ConstantKind::Int => Ok(Constant::Int(int64_at(run, last.number))),
        ConstantKind::Uint => Ok(Constant::Uint(last_varint(run, last.number).unwrap_or(0))),
        ConstantKind::Text => {
            let text = text_at(run, last.number)?;
            Ok(Constant::Text(ArcStr::from_str(alloc, text)?))
        }
        ConstantKind::Bytes => {
            let bytes = bytes_at(run, last.number);
            Ok(Constant::Bytes(ArcSlice::from_slice(alloc, bytes)?))
        }
    }
}
