//! Ranges of addresses, and the addresses of a request that are compared with them.

ghost use Rattle.std.specs.Prelude.{◌≡◌, ◌<◌, ◌≤◌, IfOk, IfErr, IsUtf8, map};
ghost use Rattle.attributes.specs.Address.{IsIpText, width_of};
ghost use Rattle.attributes.specs.Conn.{conn_view};
ghost use Rattle.proto_wire.specs.Fields.{field_view};
ghost use Rattle.proto_wire.specs.Merge.{parts_view};
ghost use Rattle.proto_wire.specs.Messages.{MessageFault};
ghost use Rattle.proto_wire.specs.Places.{FaultOr};
ghost use Rattle.proto_wire.specs.declared.refusal.Refusal.TheVariants.{OutOfRange};
ghost use Rattle.proto_wire.specs.Values.{bytes_at};
ghost use Rattle.rbac_match.specs.Cidr.{cidr_field, IsCidr, IsUint32, AddressFault, CidrFault, uint32_keys, source_ip};
ghost use Rattle.rbac_match.specs.Matcher.{matcher_holds};
ghost use Rattle.rbac_match.specs.declared.matcher.Matcher.TheVariants.{Address};

use attributes::{Cidr, Conn, Ip, Request, parse_ip};
use proto_wire::{
    Fault, Field, Key, Refusal, at_field, inside_field, keys, payloads_of, read_message_at,
    text_at, uint32_at,
};
use std::alloc::Global;

/// The address of a request that a rule tests.
#[derive(Clone, Copy)]
pub enum AddressSource {
    /// The address that the connection goes to: a permission's `destination_ip`.
    Destination,
    /// The address that the connection comes from: a principal's `direct_remote_ip`.
    DirectRemote,
    /// The address that the request comes from: a principal's `remote_ip`.
    Remote,
}

impl AddressSource {
    pub(crate) fn of(self, conn: &Conn) -> Option<Ip>
        ensures { result ≡ source_ip self (conn_view conn.now) }
    {
        match self {
            AddressSource::Destination => conn.destination_ip,
            AddressSource::DirectRemote => conn.direct_remote_ip,
            AddressSource::Remote => conn.remote_ip,
        }
    }
}

pub(crate) const ADDRESS_PREFIX: u32 = 1;

pub(crate) const PREFIX_LEN: u32 = 2;

// The field of a UInt32Value's value.
const VALUE: u32 = 1;

static CIDR_RANGE: [Key; 2] = keys![Len ADDRESS_PREFIX, Len PREFIX_LEN];

static UINT32_VALUE: [Key; 1] = keys![Varint VALUE];

/// Reads a range of addresses (`envoy.config.core.v3.CidrRange`) from its parts. `BadText`: the address is
/// not UTF-8. `OutOfRange`: the text spells no address, or the address has fewer bits than the prefix. An
/// absent `prefix_len` is 0.
pub(crate) fn read_cidr(alloc: Global, parts: &[&[u8]]) -> Result<Cidr, Fault>
    ensures found { IfOk result (λ range. IsCidr (parts_view parts.now) range) }
    ensures fault { IfErr result (FaultOr (CidrFault (parts_view parts.now))) }
{
    let fields = read_message_at(alloc, parts, &CIDR_RANGE)?;
    let address = at_field(address_prefix(&fields), ADDRESS_PREFIX)?;
    let payloads = payloads_of(alloc, &fields, PREFIX_LEN)?;
    let prefix_len = inside_field(read_uint32(alloc, &payloads), PREFIX_LEN, 0)?;
    at_field(range_of(address, prefix_len), PREFIX_LEN)
}

// The address in the fields of a range.
fn address_prefix(fields: &[Field<'_>]) -> Result<Ip, Refusal>
    ensures found { let text = bytes_at cidr_field.address_prefix (map field_view fields.now) in
        IfOk result (λ ip. IsUtf8 text × IsIpText text ip) }
    ensures fault { let text = bytes_at cidr_field.address_prefix (map field_view fields.now) in
        IfErr result (λ e. AddressFault text e) }
{
    let text = text_at(fields, ADDRESS_PREFIX)?;
    parse_ip(text).ok_or(Refusal::OutOfRange)
}

// Reads a `google.protobuf.UInt32Value`, a message that holds one uint32, from its parts.
fn read_uint32(alloc: Global, parts: &[&[u8]]) -> Result<u32, Fault>
    ensures found { IfOk result (λ n. IsUint32 (parts_view parts.now) n) }
    ensures fault { IfErr result (FaultOr (MessageFault uint32_keys (parts_view parts.now))) }
{
    let fields = read_message_at(alloc, parts, &UINT32_VALUE)?;
    Ok(uint32_at(&fields, VALUE))
}

// The range of the addresses that begin with the first `prefix_len` bits of `address`, unless it has fewer
// bits.
fn range_of(address: Ip, prefix_len: u32) -> Result<Cidr, Refusal>
    ensures found { IfOk result (λ range. (range.address ≡ address)
        × (range.prefix_len ≡ prefix_len) × (prefix_len ≤ width_of address)) }
    ensures fault { IfErr result (λ e. (width_of address < prefix_len) × (e ≡ OutOfRange)) }
{
    match Cidr::new(address, prefix_len) {
        Some(range) => Ok(range),
        None => Err(Refusal::OutOfRange),
    }
}

/// Whether this address of the request is in the range; an unknown address is in no range.
#[inline(never)]
pub(crate) fn address_matches(source: AddressSource, range: &Cidr, request: &Request) -> bool
    ensures { result ≡ matcher_holds (Address source range.now) request.now }
{
    match source.of(request.conn()) {
        Some(ip) => range.contains(ip),
        None => false,
    }
}
