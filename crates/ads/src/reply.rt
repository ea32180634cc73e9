//! The requests of a client, as bytes.

ghost use Rattle.std.specs.Prelude.{◌≡◌, [], Some, None, IfOk, OnOk};
ghost use Rattle.std.specs.String.{string_bytes};
ghost use Rattle.xds_wire.specs.View.{request_view, response_view, status_view, texts_view};
ghost use Rattle.ads.specs.Config.{names_of};
ghost use Rattle.ads.specs.Answer.{ack_of, request_of, code_of, status_of, node_of};
ghost use Rattle.ads.specs.Views.{entries_view};
ghost use Rattle.ads.specs.private.Drafts.{AddsFrame};

use crate::config::Config;
use crate::judging::EXTENSION_TYPE;
use cost_bound::Budget;
use indexmap::IndexMap;
use proto_wire::Refusal;
use std::alloc::{AllocError, Global};
use xds_wire::{DiscoveryRequest, DiscoveryResponse, Node, Status, write_frame, write_request};

// The code of a response that is wrong (`google.rpc.Code.INVALID_ARGUMENT`).
const INVALID_ARGUMENT: i32 = 3;

// The code of a refusal because memory ran out (`google.rpc.Code.RESOURCE_EXHAUSTED`).
const RESOURCE_EXHAUSTED: i32 = 8;

// The smallest length that a frame cannot hold, in bytes.
const FRAME_ROOM: usize = 0x1_0000_0000;

/// Appends the frame of the first request on a stream.
pub(crate) fn put_first(
    alloc: Global,
    config: &Config,
    version: &str,
    out: &mut Vec<u8>,
) -> Result<(), AllocError>
    ensures { OnOk result (AddsFrame (request_of config.now version.now (Some (node_of config.now)) [] None)
        out.old.items out.new.items) }
{
    let mut request = request_of(alloc, config, version, "")?;
    request.node = Some(Node {
        id: config.node(),
        cluster: config.cluster(),
    });
    put_frame(alloc, &request, out)
}

/// Appends the frame of the answer to an accepted response.
pub(crate) fn put_ack(
    alloc: Global,
    config: &Config,
    response: &DiscoveryResponse<'_>,
    out: &mut Vec<u8>,
) -> Result<(), AllocError>
    ensures { OnOk result (AddsFrame (ack_of config.now (response_view response.now)) out.old.items out.new.items) }
{
    let request = request_of(alloc, config, response.version_info, response.nonce)?;
    put_frame(alloc, &request, out)
}

/// Appends the frame of the answer to a refused response, with the last accepted version.
pub(crate) fn put_nack(
    alloc: Global,
    config: &Config,
    version: &str,
    nonce: &str,
    refusal: Refusal,
    out: &mut Vec<u8>,
) -> Result<(), AllocError>
    ensures { OnOk result (AddsFrame
        (request_of config.now version.now None nonce.now (Some (status_of refusal)))
        out.old.items out.new.items) }
{
    let message = refusal_text(alloc, refusal)?;
    let mut request = request_of(alloc, config, version, nonce)?;
    request.error_detail = Some(status_of(refusal, &message));
    put_frame(alloc, &request, out)
}

// The error of a refusal: its code, with this text.
fn status_of(refusal: Refusal, message: &str) -> Status<'_>
    ensures { status_view result ≡ record { code = code_of refusal; message = message.now } }
{
    match refusal {
        Refusal::Memory => Status {
            code: RESOURCE_EXHAUSTED,
            message,
        },
        _ => Status {
            code: INVALID_ARGUMENT,
            message,
        },
    }
}

// The text of a refusal's error, with the number of the refusal.
fn refusal_text(alloc: Global, refusal: Refusal) -> Result<String, AllocError>
    ensures { IfOk result (λ text. string_bytes text ≡ (status_of refusal).message) }
{
    let number = refusal.number();
    format!(in alloc; "policy refused: {number}")
}

// A request without a node and without an error.
fn request_of<'a>(
    alloc: Global,
    config: &'a Config,
    version: &'a str,
    nonce: &'a str,
) -> Result<DiscoveryRequest<'a>, AllocError>
    ensures { IfOk result (λ request.
        request_view request ≡ request_of config.now version.now None nonce.now None) }
{
    Ok(DiscoveryRequest {
        version_info: version,
        node: None,
        resource_names: names(alloc, config.filters())?,
        type_url: EXTENSION_TYPE,
        response_nonce: nonce,
        error_detail: None,
    })
}

// Appends the request's frame. A request of 2^32 bytes or more does not fit in a frame, and counts as out of memory.
fn put_frame(
    alloc: Global,
    request: &DiscoveryRequest<'_>,
    out: &mut Vec<u8>,
) -> Result<(), AllocError>
    ensures { OnOk result (AddsFrame (request_view request.now) out.old.items out.new.items) }
{
    let mut message = Vec::new(alloc);
    write_request(request, &mut message)?;
    if message.len() >= FRAME_ROOM {
        return Err(AllocError);
    }
    write_frame(&message, out)
}

// The names of the filters, in configured order.
fn names<'a>(
    alloc: Global,
    filters: &'a IndexMap<String, Budget>,
) -> Result<Vec<&'a str>, AllocError>
    ensures { IfOk result (λ v. texts_view v.items ≡ names_of (entries_view filters.now.entries)) }
{
    let mut names = Vec::new(alloc);
    for (name, _) in filters {
        names.push(name.as_str())?;
    }
    Ok(names)
}
