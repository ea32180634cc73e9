//! The ends of a connection (`envoy.config.core.v3.Address`).

ghost use Rattle.std.specs.Prelude.{◌≡◌, IfErr, IfOk, map};
ghost use Rattle.std.specs.Arc.{arc_str_bytes};
ghost use Rattle.std.specs.Option.{option_map};
ghost use Rattle.std.specs.String.{string_bytes};
ghost use Rattle.attributes.specs.Address.{IsIpText};
ghost use Rattle.attributes.specs.declared.address.Ip.{Ip};
ghost use Rattle.proto_wire.specs.Fields.{field_view};
ghost use Rattle.proto_wire.specs.declared.refusal.Refusal.TheVariants.{OutOfRange};
ghost use Rattle.check_request.specs.Faults.{EndFault, FaultOr, PortFault, SocketFault};
ghost use Rattle.check_request.specs.Sockets.{IsEnd, IsSocket, Spells, address_text, bracketed};
ghost use Rattle.check_request.specs.View.{socket_view};
ghost use Rattle.check_request.specs.declared.part.CheckPart.TheVariants.{Host, Port};
ghost use Rattle.check_request.specs.private.Ports.{IsPort};

use crate::fault::CheckFault;
use crate::fields::{fields_in, inner, text_in};
use crate::part::{CheckPart, End};
use attributes::{Ip, parse_ip};
use proto_wire::{Field, Key, Refusal, keys, last_number, member_run, payloads_of, uint32_at};
use std::alloc::{AllocError, Global};
use std::sync::ArcStr;

/// An end of a connection.
#[derive(Clone, Copy, Debug)]
pub(crate) struct Socket<'a> {
    /// The address as it is written.
    pub host: &'a str,
    /// The address in its one form.
    pub ip: Ip,
    pub port: u16,
}

// The number of `address` in a Peer.
const ADDRESS: u32 = 1;

// The numbers of the members of an Address.
const SOCKET_ADDRESS: u32 = 1;

const PIPE: u32 = 2;

const INTERNAL_ADDRESS: u32 = 3;

static ADDRESSES: [Key; 3] = keys![Len SOCKET_ADDRESS, Len PIPE, Len INTERNAL_ADDRESS];

// The number of `address` in a SocketAddress.
const HOST: u32 = 2;

// The numbers of the members of its oneof.
const PORT_VALUE: u32 = 3;

const NAMED_PORT: u32 = 4;

static PORTS: [Key; 2] = keys![Varint PORT_VALUE, Len NAMED_PORT];

/// The end that a Peer with these fields says; none without an address of IP.
pub(crate) fn read_end<'a>(
    alloc: Global,
    peer: &[Field<'a>],
    end: End,
) -> Result<Option<Socket<'a>>, CheckFault>
    ensures found { IfOk result (λ s. IsEnd (map field_view peer.now) (option_map socket_view s)) }
    ensures fault { IfErr result (FaultOr (EndFault end (map field_view peer.now))) }
{
    let address = inner(alloc, peer, ADDRESS, CheckPart::Address(end))?;
    let run = member_run(alloc, &address, &ADDRESSES)?;
    let parts = payloads_of(alloc, &run, SOCKET_ADDRESS)?;
    if parts.is_empty() {
        return Ok(None);
    }
    let fields = fields_in(alloc, &parts, CheckPart::Address(end))?;
    let socket = read_socket(&fields, end)?;
    Ok(Some(socket))
}

// The end that a SocketAddress with these fields says.
fn read_socket<'a>(fields: &[Field<'a>], end: End) -> Result<Socket<'a>, CheckFault>
    ensures found { IfOk result (λ s. IsSocket (map field_view fields.now) (socket_view s)) }
    ensures fault { IfErr result (λ f. SocketFault end (map field_view fields.now) f.part f.refusal) }
{
    let host = text_in(fields, HOST, CheckPart::Host(end))?;
    let ip = read_ip(host, end)?;
    let port = read_port(fields, end)?;
    Ok(Socket { host, ip, port })
}

// The address that this text spells.
fn read_ip(host: &str, end: End) -> Result<Ip, CheckFault>
    ensures found { IfOk result (Spells host.now) }
    ensures fault { IfErr result (λ f. (f.part ≡ Host end) × (f.refusal ≡ OutOfRange)
        × ((ip : Ip) → ¬ (IsIpText host.now ip))) }
{
    match parse_ip(host) {
        Some(ip) => Ok(ip.unmapped()),
        None => Err(CheckFault {
            part: CheckPart::Host(end),
            refusal: Refusal::OutOfRange,
        }),
    }
}

// The port of a SocketAddress with these fields.
fn read_port(fields: &[Field<'_>], end: End) -> Result<u16, CheckFault>
    ensures found { IfOk result (IsPort (map field_view fields.now)) }
    ensures fault { IfErr result (λ f. (f.part ≡ Port end)
        × PortFault (map field_view fields.now) f.refusal) }
{
    let part = CheckPart::Port(end);
    if last_number(fields, &PORTS) != Some(PORT_VALUE) {
        return Err(CheckFault {
            part,
            refusal: Refusal::Missing,
        });
    }
    let port = uint32_at(fields, PORT_VALUE);
    if port > u16::MAX as u32 {
        return Err(CheckFault {
            part,
            refusal: Refusal::OutOfRange,
        });
    }
    Ok(port as u16)
}

/// The end as Envoy writes it in `source.address`.
pub(crate) fn address_text(alloc: Global, socket: &Socket<'_>) -> Result<ArcStr, AllocError>
    ensures { IfOk result (λ text. arc_str_bytes text ≡ address_text (socket_view socket.now)) }
{
    let mut text = bracketed(alloc, socket.host)?;
    let port = socket.port;
    text.push_str(":")?;
    text.push_str(format!(in alloc; "{port}")?.as_str())?;
    ArcStr::from_string(text)
}

// An address with brackets, if it is written as one of IPv6.
fn bracketed(alloc: Global, host: &str) -> Result<String, AllocError>
    ensures { IfOk result (λ text. string_bytes text ≡ bracketed host.now) }
{
    if host.as_bytes().contains(&b'.') {
        return String::from_str(alloc, host);
    }
    let mut text = String::from_str(alloc, "[")?;
    text.push_str(host)?;
    text.push_str("]")?;
    Ok(text)
}
