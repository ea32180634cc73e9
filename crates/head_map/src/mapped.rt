//! The client's request, as the request of a front proxy gives it.
ghost use Rattle.std.specs.Prelude.{◌≡◌, IfOk, MatchResult};
ghost use Rattle.attributes.specs.Headers.{lines_view};
ghost use Rattle.head_map.specs.Mapped.{HasMapFault, IsMapped, mapping_view, parts_view};

use crate::client::Client;
use crate::fact::MapFault;
use crate::lines::{are_present, lines_with_host, other_lines};
use crate::mapping::Mapping;
use crate::parts::Parts;
use std::alloc::{AllocError, Global};

/// The parts of the client's request, by those of the front's; or a fault of these, which is answered 400. The named
/// fields leave the lines; all other lines stay in order. A host that a field says is the last line.
pub fn mapped_of(
    alloc: Global,
    mapping: &Mapping,
    parts: Parts,
) -> Result<Result<Parts, MapFault>, AllocError>
    ensures { IfOk result (λ found. MatchResult found
        (λ new. IsMapped (mapping_view mapping.now) (parts_view parts) (parts_view new))
        (HasMapFault (mapping_view mapping.now) (lines_view parts.lines.items))) }
{
    let Parts {
        method,
        target,
        lines,
        conn,
    } = parts;
    if !are_present(&lines, &mapping.required) {
        return Ok(Err(MapFault::Missing));
    }
    let mut client = Client {
        method,
        target,
        host: None,
        conn,
    };
    match client.put_all(alloc, &mapping.named, &lines)? {
        Ok(()) => (),
        Err(fault) => return Ok(Err(fault)),
    }
    let others = other_lines(&mapping.named, lines);
    Ok(Ok(Parts {
        method: client.method,
        target: client.target,
        lines: lines_with_host(alloc, client.host, others)?,
        conn: client.conn,
    }))
}
