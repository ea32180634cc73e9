//! The client of a stream (`envoy.config.core.v3.Node`).

ghost use Rattle.std.specs.Prelude.{◌≡◌, List, map, IfOk, IfErr, OnOk, OnErr};
ghost use Rattle.std.specs.Option.{option_map};
ghost use Rattle.proto_wire.specs.Fields.{Wire, IsFieldNumber, field_view};
ghost use Rattle.proto_wire.specs.Merge.{parts_view};
ghost use Rattle.proto_wire.specs.Refusal.{MemoryOr};
ghost use Rattle.xds_wire.specs.Discovery.{AreNodeFields, NodeFieldsFault, IsNode, NodeFault};
ghost use Rattle.proto_wire.specs.Reading.{IsOptional, OptionalFault};
ghost use Rattle.xds_wire.specs.View.{node_view};
ghost use Rattle.xds_wire.specs.Written.{NodeWritten, AreOptional};
ghost use Rattle.xds_wire.specs.private.Writing.{Adds};

use crate::writing::put_text;
use proto_wire::{Field, Refusal, Writer, payloads_of, read_parts, text_at};
use std::alloc::{AllocError, Global};

/// The client of a stream.
#[derive(Clone, Copy, PartialEq, Eq, Debug)]
pub struct Node<'a> {
    /// The client's own name.
    pub id: &'a str,
    /// The name of the cluster that the client belongs to.
    pub cluster: &'a str,
}

// The number of `id` in a Node.
const ID: u32 = 1;

// The number of `cluster` in a Node.
const CLUSTER: u32 = 2;

// The message that the payloads merge to.
fn read_node<'a>(alloc: Global, parts: &[&'a [u8]]) -> Result<Node<'a>, Refusal>
    ensures found { IfOk result (λ node. IsNode (parts_view parts.now) (node_view node)) }
    ensures fault { IfErr result (MemoryOr (NodeFault (parts_view parts.now))) }
{
    let fields = read_parts(alloc, parts)?;
    node_of(&fields)
}

// The message of these fields.
fn node_of<'a>(fields: &[Field<'a>]) -> Result<Node<'a>, Refusal>
    ensures found { IfOk result (λ node. AreNodeFields (map field_view fields.now) (node_view node)) }
    ensures fault { IfErr result (NodeFieldsFault (map field_view fields.now)) }
{
    Ok(Node {
        id: text_at(fields, ID)?,
        cluster: text_at(fields, CLUSTER)?,
    })
}

/// The optional message of this number; all its payloads merge.
pub(crate) fn merged_node<'a>(
    alloc: Global,
    fields: &[Field<'a>],
    number: u32,
) -> Result<Option<Node<'a>>, Refusal>
    ensures found { IfOk result (λ found.
        IsOptional IsNode number (map field_view fields.now) (option_map node_view found)) }
    ensures fault { IfErr result (MemoryOr (OptionalFault NodeFault number (map field_view fields.now))) }
{
    let parts = payloads_of(alloc, fields, number)?;
    if parts.is_empty() {
        return Ok(None);
    }
    Ok(Some(read_node(alloc, &parts)?))
}

// The message's bytes.
fn node_bytes(alloc: Global, node: &Node<'_>) -> Result<Vec<u8>, AllocError>
    ensures { IfOk result (λ v. NodeWritten (node_view node.now) v.items) }
{
    let mut writer = Writer::new(Vec::new(alloc));
    put_text(&mut writer, ID, node.id)?;
    put_text(&mut writer, CLUSTER, node.cluster)?;
    Ok(writer.into_bytes())
}

/// Writes the optional message.
pub(crate) fn put_node(
    alloc: Global,
    writer: &mut Writer,
    number: u32,
    node: &Option<Node<'_>>,
) -> Result<(), AllocError>
    requires { IsFieldNumber number }
    ensures found { OnOk result ((fs : List Wire)
        × AreOptional NodeWritten number (option_map node_view node.now) fs
        × Adds writer.old fs writer.new) }
    ensures fault { OnErr result (writer.new ≡ writer.old) }
{
    let Some(node) = node else {
        return Ok(());
    };
    let bytes = node_bytes(alloc, node)?;
    writer.message(number, &bytes)
}
