//! The requests of a client (`envoy.service.discovery.v3.DiscoveryRequest`).

ghost use Rattle.std.specs.Prelude.{◌≡◌, IfOk, IfErr, OnOk, OnErr};
ghost use Rattle.proto_wire.specs.Refusal.{MemoryOr};
ghost use Rattle.xds_wire.specs.Discovery.{IsRequest, RequestFault};
ghost use Rattle.proto_wire.specs.private.Writing.{Keeps};
ghost use Rattle.xds_wire.specs.View.{request_view};
ghost use Rattle.xds_wire.specs.Written.{RequestWritten, AddsMessage};

use crate::node::{Node, merged_node, put_node};
use crate::status::{Status, merged_status, put_status};
use crate::texts::repeated_text;
use crate::writing::{put_back, put_text, put_texts, take_writer};
use proto_wire::{Refusal, Writer, read_parts, text_at};
use std::alloc::{AllocError, Global};

/// The resources that a client asks for, and its answer to the last response.
#[derive(Debug, Drop)]
pub struct DiscoveryRequest<'a> {
    /// The version that the client accepted last; empty if there is none.
    pub version_info: &'a str,
    /// The client.
    pub node: Option<Node<'a>>,
    /// The names of the resources.
    pub resource_names: Vec<&'a str>,
    /// The resources' type.
    pub type_url: &'a str,
    /// The nonce of the response that this answers; empty if it answers none.
    pub response_nonce: &'a str,
    /// Why that response is refused, if it is.
    pub error_detail: Option<Status<'a>>,
}

// The number of `version_info` in a DiscoveryRequest.
const VERSION_INFO: u32 = 1;

// The number of `node` in a DiscoveryRequest.
const NODE: u32 = 2;

// The number of `resource_names` in a DiscoveryRequest.
const RESOURCE_NAMES: u32 = 3;

// The number of `type_url` in a DiscoveryRequest.
const TYPE_URL: u32 = 4;

// The number of `response_nonce` in a DiscoveryRequest.
const RESPONSE_NONCE: u32 = 5;

// The number of `error_detail` in a DiscoveryRequest.
const ERROR_DETAIL: u32 = 6;

/// Reads a DiscoveryRequest and skips unknown fields. `BadWire` if the bytes, or those of a message in them, are not a
/// list of whole fields. `BadText` if a string is not UTF-8; or `Memory`.
pub fn read_request<'a>(alloc: Global, bytes: &'a [u8]) -> Result<DiscoveryRequest<'a>, Refusal>
    ensures found { IfOk result (λ request. IsRequest bytes.now (request_view request)) }
    ensures fault { IfErr result (MemoryOr (RequestFault bytes.now)) }
{
    let fields = read_parts(alloc, &[bytes])?;
    Ok(DiscoveryRequest {
        version_info: text_at(&fields, VERSION_INFO)?,
        node: merged_node(alloc, &fields, NODE)?,
        resource_names: repeated_text(alloc, &fields, RESOURCE_NAMES)?,
        type_url: text_at(&fields, TYPE_URL)?,
        response_nonce: text_at(&fields, RESPONSE_NONCE)?,
        error_detail: merged_status(alloc, &fields, ERROR_DETAIL)?,
    })
}

/// Appends a DiscoveryRequest in its shortest spelling, without defaults. If memory runs out, the bytes stay as they
/// were.
pub fn write_request(request: &DiscoveryRequest<'_>, out: &mut Vec<u8>) -> Result<(), AllocError>
    ensures found { OnOk result
        (AddsMessage (RequestWritten (request_view request.now)) out.old.items out.new.items) }
    ensures fault { OnErr result (out.new.items ≡ out.old.items) }
{
    let start = out.len();
    let alloc = *out.allocator();
    let mut writer = take_writer(out);
    let written = put_request(alloc, request, &mut writer);
    put_back(out, writer, written, start)
}

// Writes the fields of the message.
fn put_request(
    alloc: Global,
    request: &DiscoveryRequest<'_>,
    writer: &mut Writer,
) -> Result<(), AllocError>
    ensures found { OnOk result
        (AddsMessage (RequestWritten (request_view request.now)) writer.old writer.new) }
    ensures fault { OnErr result (Keeps writer.old writer.new) }
{
    put_text(writer, VERSION_INFO, request.version_info)?;
    put_node(alloc, writer, NODE, &request.node)?;
    put_texts(writer, RESOURCE_NAMES, &request.resource_names)?;
    put_text(writer, TYPE_URL, request.type_url)?;
    put_text(writer, RESPONSE_NONCE, request.response_nonce)?;
    put_status(alloc, writer, ERROR_DETAIL, &request.error_detail)
}
