//! The facts of a connection, as C gives them.

ghost use Rattle.std.specs.Prelude.{◌≡◌, ◌↔◌, IfOk, IfErr, IfSome, IsTrue, Some, None, if◌then◌else◌, option_map};
ghost use Rattle.std.specs.Arc.{arc_str_bytes};
ghost use Rattle.attributes.specs.Conn.{conn_view, server_name, text_view};
ghost use Rattle.c_inputs.specs.Facts.{AreAccepted, AreInRange, FactsFail, IsAddressInput, IsPortInput, IsText, MemoryOr, address_given, facts_given, flag_given, port_given, text_given};
ghost use Rattle.c_inputs.specs.declared.facts.FactsFault.TheVariants.{NoText};

use attributes::{Conn, Ip, server_name};
use std::alloc::{AllocError, Global};
use std::str;
use std::sync::ArcStr;

// A longer text is not read: its length may be wrong. The greatest limit of a text is 1,024.
const MOST_BYTES: usize = 65_536;

/// A text that may be absent. The bytes of an absent one are not read.
#[repr(C)]
#[derive(Drop)]
pub struct Text<'a> {
    pub bytes: &'a [u8],
    pub is_there: bool,
}

/// The facts of a connection. A number below 0 is absent, and so is an address of no bytes. Any other has 4 or 16 bytes.
#[repr(C)]
#[derive(Drop)]
pub struct FactsInput<'a> {
    pub scheme: &'a [u8],
    pub source_address: Text<'a>,
    pub destination_address: Text<'a>,
    pub requested_server_name: Text<'a>,
    pub tls_version: Text<'a>,
    pub subject_peer_certificate: Text<'a>,
    pub dns_san_peer_certificate: Text<'a>,
    pub uri_san_peer_certificate: Text<'a>,
    pub direct_remote_ip: &'a [u8],
    pub remote_ip: &'a [u8],
    pub destination_ip: &'a [u8],
    pub source_port: i32,
    pub destination_port: i32,
    pub mtls: i32,
    pub connection_id: u64,
    pub has_connection_id: bool,
}

/// Why facts are no connection.
pub enum FactsFault {
    /// A text is not UTF-8, or has more than 65,536 bytes. The bytes of such a long one are not read.
    NoText,
    /// A port is above 65,535, or an address has neither 4 nor 16 bytes.
    OutOfRange,
    /// Memory ran out.
    Memory,
}

impl From<AllocError> for FactsFault {
    ghost use Rattle.c_inputs.specs.declared.facts.FactsFault.TheVariants.{Memory};

    ghost from_gives = { λ _ e. e ≡ Memory };

    fn from(_error: AllocError) -> FactsFault {
        FactsFault::Memory
    }
}

/// The connection of these facts. A to Z in the name of the server are lowered. An IPv4 address that is written as one of
/// IPv6 is one of IPv4. `NoText` if a text is not UTF-8, or has more than 65,536 bytes. `OutOfRange` if a port is above
/// 65,535, or an address has neither 4 nor 16 bytes.
pub fn conn_of(alloc: Global, facts: &FactsInput<'_>) -> Result<Conn, FactsFault>
    ensures found { IfOk result (λ conn. conn_view conn ≡ facts_given facts.now) }
    ensures accepted { IfOk result (λ conn. AreAccepted facts.now) }
    ensures fault { IfErr result (FactsFail facts.now) }
{
    if !are_in_range(facts) {
        return Err(FactsFault::OutOfRange);
    }
    Ok(Conn {
        source_address: text_or_none(alloc, &facts.source_address)?,
        source_port: port(facts.source_port),
        destination_address: text_or_none(alloc, &facts.destination_address)?,
        destination_port: port(facts.destination_port),
        mtls: flag(facts.mtls),
        connection_id: number(facts.connection_id, facts.has_connection_id),
        requested_server_name: name_or_none(alloc, &facts.requested_server_name)?,
        tls_version: text_or_none(alloc, &facts.tls_version)?,
        subject_peer_certificate: text_or_none(alloc, &facts.subject_peer_certificate)?,
        dns_san_peer_certificate: text_or_none(alloc, &facts.dns_san_peer_certificate)?,
        uri_san_peer_certificate: text_or_none(alloc, &facts.uri_san_peer_certificate)?,
        direct_remote_ip: address(facts.direct_remote_ip),
        remote_ip: address(facts.remote_ip),
        destination_ip: address(facts.destination_ip),
        scheme: shared_text(alloc, facts.scheme)?,
    })
}

// The text of these bytes, if they are not too many.
fn text_in(bytes: &[u8]) -> Result<&str, FactsFault>
    ensures found { IfOk result (λ text. (text.now ≡ bytes.now) × IsText bytes.now) }
    ensures fault { IfErr result (λ e. (e ≡ NoText) × ¬ (IsText bytes.now)) }
{
    if bytes.len() > MOST_BYTES {
        return Err(FactsFault::NoText);
    }
    match str::from_utf8(bytes) {
        Ok(text) => Ok(text),
        Err(_) => Err(FactsFault::NoText),
    }
}

fn shared_text(alloc: Global, bytes: &[u8]) -> Result<ArcStr, FactsFault>
    ensures found { IfOk result (λ text. (arc_str_bytes text ≡ bytes.now) × IsText bytes.now) }
    ensures fault { IfErr result (MemoryOr (¬ (IsText bytes.now))) }
{
    let text = text_in(bytes)?;
    Ok(ArcStr::from_str(alloc, text)?)
}

fn text_or_none(alloc: Global, given: &Text<'_>) -> Result<Option<ArcStr>, FactsFault>
    ensures found { IfOk result (λ text. text_view text ≡ text_given given.now) }
    ensures accepted { IfOk result (λ text. IfSome (text_given given.now) IsText) }
    ensures fault { IfErr result (MemoryOr (¬ (IfSome (text_given given.now) IsText))) }
{
    if !given.is_there {
        return Ok(None);
    }
    Ok(Some(shared_text(alloc, given.bytes)?))
}

// The name of a server, in its one form.
fn name_or_none(alloc: Global, given: &Text<'_>) -> Result<Option<ArcStr>, FactsFault>
    ensures found { IfOk result (λ name. text_view name ≡ option_map server_name (text_given given.now)) }
    ensures accepted { IfOk result (λ name. IfSome (text_given given.now) IsText) }
    ensures fault { IfErr result (MemoryOr (¬ (IfSome (text_given given.now) IsText))) }
{
    if given.is_there {
        let name = text_in(given.bytes)?;
        return Ok(Some(server_name(alloc, name)?));
    }
    Ok(None)
}

// Whether each port and each address is one, or absent.
fn are_in_range(facts: &FactsInput<'_>) -> bool
    ensures { IsTrue result ↔ AreInRange facts.now }
{
    is_port_input(facts.source_port)
        && is_port_input(facts.destination_port)
        && is_address_input(facts.direct_remote_ip)
        && is_address_input(facts.remote_ip)
        && is_address_input(facts.destination_ip)
}

fn is_port_input(given: i32) -> bool
    ensures { IsTrue result ↔ IsPortInput given }
{
    given <= 65_535
}

fn is_address_input(bytes: &[u8]) -> bool
    ensures { IsTrue result ↔ IsAddressInput bytes.now }
{
    matches!(bytes.len(), 0 | 4 | 16)
}

fn port(given: i32) -> Option<u16>
    ensures { result ≡ port_given given }
{
    if given < 0 || given > 65_535 {
        return None;
    }
    Some(given as u16)
}

fn flag(given: i32) -> Option<bool>
    ensures { result ≡ flag_given given }
{
    if given < 0 { None } else { Some(given != 0) }
}

fn number(given: u64, is_there: bool) -> Option<u64>
    ensures { result ≡ (if is_there then Some given else None) }
{
    if is_there { Some(given) } else { None }
}

fn address(bytes: &[u8]) -> Option<Ip>
    ensures { result ≡ address_given bytes.now }
{
    match bytes.len() {
        4 => match bytes.first_chunk::<4>() {
            Some(octets) => Some(Ip::V4(u32::from_be_bytes(*octets))),
            None => unreachable!(),
        },
        16 => match bytes.first_chunk::<16>() {
            Some(octets) => Some(Ip::V6(u128::from_be_bytes(*octets)).unmapped()),
            None => unreachable!(),
        },
        _ => None,
    }
}
