//! Ports and ranges of ports, and whether a request goes to them.

ghost use Rattle.std.specs.Prelude.{◌≡◌, IfOk, IfErr, map};
ghost use Rattle.proto_wire.specs.Fields.{field_view};
ghost use Rattle.proto_wire.specs.Merge.{parts_view};
ghost use Rattle.proto_wire.specs.Places.{FaultOr};
ghost use Rattle.proto_wire.specs.declared.refusal.Refusal.TheVariants.{OutOfRange};
ghost use Rattle.rbac_match.specs.Ports.{AreBounds, IsDestinationPort, IsPortRange, PortFault, PortRangeFault};
ghost use Rattle.rbac_match.specs.Matcher.{matcher_holds};
ghost use Rattle.rbac_match.specs.declared.matcher.Matcher.TheVariants.{Port, PortRange as PortsInARow};
ghost use Rattle.rbac_match.specs.private.Ports.{AreNoBounds};

use crate::keys::{END, RANGE, START};
use attributes::Request;
use proto_wire::{Fault, Field, Refusal, int32_at, read_message_at, uint32_at};
use std::alloc::Global;
use std::marker::Model;

// One more than the greatest port.
const PORTS: i32 = 65_536;

/// Consecutive ports: `start` is the first, and `end` is the one after the last.
#[derive(Clone, Copy)]
pub struct PortRange {
    pub(crate) start: u32,
    pub(crate) end: u32,
}

impl Model for PortRange {
    ghost use Rattle.std.specs.Prelude.{◌<◌, ◌≤◌, ℕ};
    ghost use Rattle.std.specs.declared.ops.Range.{Range};

    ghost Value = { Range ℕ };

    ghost view = { λ r. record { start = r.start; end = r.end } };

    ghost invariant = { λ r. (r.start < r.end) × (r.end ≤ 65536) };

    ghost inverse = { λ s. record { start = s.start; end = s.end } };
}

/// Reads a permission's `destination_port` from its run, whose fields have this number. `OutOfRange`: it is
/// above 65,535.
pub(crate) fn read_port(run: &[Field<'_>], number: u32) -> Result<u16, Refusal>
    ensures found { IfOk result (λ port. IsDestinationPort number (map field_view run.now) port) }
    ensures fault { IfErr result (λ e. PortFault number (map field_view run.now) e) }
{
    let port = uint32_at(run, number);
    if port > u16::MAX as u32 {
        return Err(Refusal::OutOfRange);
    }
    Ok(port as u16)
}

/// Reads a range of ports (`envoy.type.v3.Int32Range`) from its parts. `OutOfRange`: it has no ports, or has
/// numbers that are no ports.
pub(crate) fn read_port_range(alloc: Global, parts: &[&[u8]]) -> Result<PortRange, Fault>
    ensures found { IfOk result (λ range. IsPortRange (parts_view parts.now) range) }
    ensures fault { IfErr result (FaultOr (PortRangeFault (parts_view parts.now))) }
{
    let fields = read_message_at(alloc, parts, &RANGE)?;
    Ok(port_range(&fields)?)
}

// The ports between the bounds in the fields.
fn port_range(fields: &[Field<'_>]) -> Result<PortRange, Refusal>
    ensures found { IfOk result (λ range. AreBounds (map field_view fields.now) range) }
    ensures fault { IfErr result (λ e. AreNoBounds (map field_view fields.now) × (e ≡ OutOfRange)) }
{
    let start = int32_at(fields, START);
    let end = int32_at(fields, END);
    if start < 0 || end > PORTS || end <= start {
        return Err(Refusal::OutOfRange);
    }
    Ok(PortRange {
        start: start as u32,
        end: end as u32,
    })
}

/// Whether the request goes to this port; not if its port is unknown.
pub(crate) fn port_matches(port: u16, request: &Request) -> bool
    ensures { result ≡ matcher_holds (Port port) request.now }
{
    request.conn().destination_port == Some(port)
}

/// Whether the request goes to one of these ports; not if its port is unknown.
#[inline(never)]
pub(crate) fn port_range_matches(range: &PortRange, request: &Request) -> bool
    ensures { result ≡ matcher_holds (PortsInARow range.now) request.now }
{
    match request.conn().destination_port {
        Some(port) => range.start <= port as u32 && (port as u32) < range.end,
        None => false,
    }
}
