//! Requests by their parts, as a proxy has them (RFC 9112, sections 3 and 5; RFC 9113, section 8.3).
ghost use Rattle.std.specs.Prelude.{◌≡◌, ◌<◌, IfErr, IfOk, IsOk, length};
ghost use Rattle.attributes.specs.Conn.{conn_view};
ghost use Rattle.attributes.specs.Limits.{InLimits};
ghost use Rattle.attributes.specs.Request.{in_protocol};
ghost use Rattle.http_front.specs.declared.fault.HeadFault.TheVariants.{OutsideLimits};
ghost use Rattle.http_front.specs.declared.fault.HeadPart.{HeadPart};
ghost use Rattle.http_front.specs.Head.{head_room};
ghost use Rattle.http_front.specs.Parts.{IsMalformedIn, PartsAsk, PartsFault, parts_text, parts_view, spelled_head};

use crate::fault::HeadFault;
use crate::parts::HeadParts;
use crate::spelled::Spelled;
use attributes::{Conn, Limits, Protocol, Request};
use std::alloc::{AllocError, Global};
use std::sync::Arc;

/// The request of these parts on the connection `conn`, or its fault: what the head that they spell asks for. Their
/// faults have the statuses 400, 431 and 501 of a head. If there are several faults, gives one of them.
///
/// `:authority` is a Host, and a Host of the same value beside it counts once. So two hosts are a fault, and none is one
/// except in HTTP/1.0. A part is malformed if a head cannot have it, such as a value with a line end.
pub fn request_of_parts(
    alloc: Global,
    limits: &Limits,
    conn: Conn,
    parts: &HeadParts<'_>,
) -> Result<Result<Request, HeadFault>, AllocError>
    ensures request { IfOk result (λ found.
        IfOk found (PartsAsk (parts_view parts.now) limits.now (conn_view conn))) }
    ensures fault { IfOk result (λ found.
        IfErr found (PartsFault (parts_view parts.now) limits.now (conn_view conn))) }
    ensures malformed { (part : HeadPart) → IsMalformedIn (spelled_head (parts_view parts.now)) part → IsOk result }
    ensures long { head_room < length (parts_text (parts_view parts.now)) → IsOk result }
{
    let head = Spelled::of(parts);
    let size = match head.size() {
        Ok(size) => size,
        Err(fault) => return Ok(Err(fault)),
    };
    if let Some(fault) = head.refusal(limits) {
        return Ok(Err(fault));
    }
    let request = head.to_request(alloc, size, Arc::new(alloc, conn)?)?;
    Ok(within(limits, request, parts.protocol))
}

// The request, of this protocol; or the fault that the request is outside the limits.
#[inline(always)]
fn within(limits: &Limits, request: Request, protocol: Protocol) -> Result<Request, HeadFault>
    ensures found { IfOk result (λ r.
        (r ≡ in_protocol protocol request) × InLimits request limits.now) }
    ensures fault { IfErr result (λ fault. (fault ≡ OutsideLimits) × ¬ (InLimits request limits.now)) }
{
    if limits.fits(&request) {
        Ok(request.in_protocol(protocol))
    } else {
        Err(HeadFault::OutsideLimits)
    }
}
