//! The responses of a server (`envoy.service.discovery.v3.DiscoveryResponse`).

ghost use Rattle.std.specs.Prelude.{◌≡◌, IfOk, IfErr, OnOk, OnErr};
ghost use Rattle.proto_wire.specs.Refusal.{MemoryOr};
ghost use Rattle.xds_wire.specs.Discovery.{IsResponse, ResponseFault};
ghost use Rattle.proto_wire.specs.private.Writing.{Keeps};
ghost use Rattle.xds_wire.specs.View.{response_view};
ghost use Rattle.xds_wire.specs.Written.{ResponseWritten, AddsMessage};

use crate::any::{Any, put_each_any, repeated_any};
use crate::writing::{put_back, put_text, take_writer};
use proto_wire::{Refusal, Writer, read_parts, text_at};
use std::alloc::{AllocError, Global};

/// Resources of one type, their version, and the nonce that a client names in its answer.
#[derive(Debug, Drop)]
pub struct DiscoveryResponse<'a> {
    /// The resources' version.
    pub version_info: &'a str,
    /// The resources.
    pub resources: Vec<Any<'a>>,
    /// The resources' type.
    pub type_url: &'a str,
    /// The nonce that a client names in its answer.
    pub nonce: &'a str,
}

// The number of `version_info` in a DiscoveryResponse.
const VERSION_INFO: u32 = 1;

// The number of `resources` in a DiscoveryResponse.
const RESOURCES: u32 = 2;

// The number of `type_url` in a DiscoveryResponse.
const TYPE_URL: u32 = 4;

// The number of `nonce` in a DiscoveryResponse.
const NONCE: u32 = 5;

/// Reads a DiscoveryResponse and skips unknown fields. `BadWire` if the bytes, or those of a resource, are not a list
/// of whole fields; `BadText` if a string is not UTF-8; or `Memory`. It does not read a resource's value.
pub fn read_response<'a>(alloc: Global, bytes: &'a [u8]) -> Result<DiscoveryResponse<'a>, Refusal>
    ensures found { IfOk result (λ response. IsResponse bytes.now (response_view response)) }
    ensures fault { IfErr result (MemoryOr (ResponseFault bytes.now)) }
{
    let fields = read_parts(alloc, &[bytes])?;
    Ok(DiscoveryResponse {
        version_info: text_at(&fields, VERSION_INFO)?,
        resources: repeated_any(alloc, &fields, RESOURCES)?,
        type_url: text_at(&fields, TYPE_URL)?,
        nonce: text_at(&fields, NONCE)?,
    })
}

/// Appends a DiscoveryResponse in its shortest spelling, without defaults. If memory runs out, the bytes stay as they
/// were.
pub fn write_response(response: &DiscoveryResponse<'_>, out: &mut Vec<u8>) -> Result<(), AllocError>
    ensures found { OnOk result
        (AddsMessage (ResponseWritten (response_view response.now)) out.old.items out.new.items) }
    ensures fault { OnErr result (out.new.items ≡ out.old.items) }
{
    let start = out.len();
    let alloc = *out.allocator();
    let mut writer = take_writer(out);
    let written = put_response(alloc, response, &mut writer);
    put_back(out, writer, written, start)
}

// Writes the fields of the message.
fn put_response(
    alloc: Global,
    response: &DiscoveryResponse<'_>,
    writer: &mut Writer,
) -> Result<(), AllocError>
    ensures found { OnOk result
        (AddsMessage (ResponseWritten (response_view response.now)) writer.old writer.new) }
    ensures fault { OnErr result (Keeps writer.old writer.new) }
{
    put_text(writer, VERSION_INFO, response.version_info)?;
    put_each_any(alloc, writer, RESOURCES, &response.resources)?;
    put_text(writer, TYPE_URL, response.type_url)?;
    put_text(writer, NONCE, response.nonce)
}
