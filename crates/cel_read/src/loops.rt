//! The message Comprehension, without the expressions inside it.

ghost use Rattle.std.specs.Prelude.{◌≡◌, [], IfOk, IfErr, OnOk, map};
ghost use Rattle.proto_wire.specs.Fields.{field_view};
ghost use Rattle.proto_wire.specs.Merge.{parts_view, SomeOf};
ghost use Rattle.proto_wire.specs.Refusal.{MemoryOr};
ghost use Rattle.proto_wire.specs.Values.{payloads};
ghost use Rattle.proto_wire.specs.declared.refusal.Refusal.TheVariants.{Missing};
ghost use Rattle.cel_tree.specs.Nodes.{loop_field, loop_keys, NamesRead, PartsThere, loop_parts, LoopSays, LoopLacks, LoopWrong};
ghost use Rattle.proto_wire.specs.Reading.{Reads, ReadFault};
ghost use Rattle.proto_wire.specs.private.Values.{ValuesFault};
ghost use Rattle.cel_read.specs.private.NodeViews.{node_view};

use crate::fields::{name_at, two_payloads_of};
use crate::parsed::{LoopNode, Node};
use proto_wire::{
    Field, Key, Payloads, Refusal, keys, payloads_of, read_message, require_payload, text_at,
};
use std::alloc::{AllocError, Global};
use std::sync::ArcStr;

const ITER_VAR: u32 = 1;

const ITER_RANGE: u32 = 2;

const ACCU_VAR: u32 = 3;

const ACCU_INIT: u32 = 4;

const LOOP_CONDITION: u32 = 5;

const LOOP_STEP: u32 = 6;

const RESULT: u32 = 7;

const ITER_VAR2: u32 = 8;

static COMPREHENSION: [Key; 8] = keys![
    Len ITER_VAR, Len ACCU_VAR, Len ITER_VAR2, Len ITER_RANGE, Len ACCU_INIT, Len LOOP_CONDITION,
    Len LOOP_STEP, Len RESULT
];

/// Reads a Comprehension from its parts.
pub(crate) fn read_loop<'a>(alloc: Global, parts: &[&'a [u8]]) -> Result<Node<'a>, Refusal>
    ensures found { IfOk result (λ node. Reads loop_keys LoopSays (parts_view parts.now) (node_view node)) }
    ensures fault { IfErr result (MemoryOr (ReadFault loop_keys LoopLacks LoopWrong (parts_view parts.now))) }
{
    let fields = read_message(alloc, parts, &COMPREHENSION)?;
    loop_of(alloc, &fields)
}

// The node that the fields of a Comprehension mean.
fn loop_of<'a>(alloc: Global, fields: &[Field<'a>]) -> Result<Node<'a>, Refusal>
    ensures found { IfOk result (λ node. LoopSays (map field_view fields.now) (node_view node)) }
    ensures fault { IfErr result (MemoryOr (ValuesFault LoopLacks LoopWrong (map field_view fields.now))) }
{
    require_names(fields)?;
    require_parts(fields)?;
    let iter_var = name_at(alloc, fields, ITER_VAR)?;
    let iter_var2 = name_at(alloc, fields, ITER_VAR2)?;
    let accu_var = name_at(alloc, fields, ACCU_VAR)?;
    let (iter_range, accu_init) = two_payloads_of(alloc, fields, ITER_RANGE, ACCU_INIT)?;
    let (loop_condition, loop_step, result) = body_of(alloc, fields)?;
    Ok(Node::Comprehension(LoopNode {
        iter_var,
        iter_var2,
        accu_var,
        iter_range,
        accu_init,
        loop_condition,
        loop_step,
        result,
    }))
}

// The payloads of the condition, of the step and of the result.
#[inline(always)]
fn body_of<'a>(
    alloc: Global,
    fields: &[Field<'a>],
) -> Result<(Payloads<'a>, Payloads<'a>, Payloads<'a>), AllocError>
    ensures { IfOk result (λ body.
        (parts_view body.0.items ≡ payloads loop_field.loop_condition (map field_view fields.now))
        × (parts_view body.1.items ≡ payloads loop_field.loop_step (map field_view fields.now))
        × (parts_view body.2.items ≡ payloads loop_field.result (map field_view fields.now))) }
{
    let (loop_condition, loop_step) = two_payloads_of(alloc, fields, LOOP_CONDITION, LOOP_STEP)?;
    let result = payloads_of(alloc, fields, RESULT)?;
    Ok((loop_condition, loop_step, result))
}

// Refuses names that are not UTF-8.
fn require_names(fields: &[Field<'_>]) -> Result<(), Refusal>
    ensures found { OnOk result (NamesRead (map field_view fields.now)) }
    ensures fault { IfErr result (LoopWrong (map field_view fields.now)) }
{
    text_at(fields, ITER_VAR)?;
    text_at(fields, ACCU_VAR)?;
    text_at(fields, ITER_VAR2)?;
    Ok(())
}

// Refuses a comprehension that lacks a part.
fn require_parts(fields: &[Field<'_>]) -> Result<(), Refusal>
    ensures found { OnOk result (PartsThere (map field_view fields.now)) }
    ensures fault { IfErr result (λ e.
        SomeOf (λ n. payloads n (map field_view fields.now) ≡ []) loop_parts × (e ≡ Missing)) }
{
    require_payload(fields, ITER_RANGE)?;
    require_payload(fields, ACCU_INIT)?;
    require_payload(fields, LOOP_CONDITION)?;
    require_payload(fields, LOOP_STEP)?;
    require_payload(fields, RESULT)
}
