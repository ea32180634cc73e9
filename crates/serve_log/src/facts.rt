//! The facts of a connection as a JSON object.
ghost use Rattle.std.specs.Prelude.{◌≡◌, ◌++◌, ◌∷◌, IfOk, OnOk, Some, option_map, string_bytes};
ghost use Rattle.std.specs.Arc.{arc_str_bytes};
ghost use Rattle.attributes.specs.Conn.{conn_view, text_view};
ghost use Rattle.attributes.specs.declared.address.Ip.TheVariants.{V4, V6};
ghost use Rattle.serde_json.specs.Data.{boolean, number, string, unsigned};
ghost use Rattle.serde_json.specs.View.{members_view, view};
ghost use Rattle.program_texts.specs.Facts.{name_of};
ghost use Rattle.program_texts.specs.WrittenFacts.{fact_data, facts_json, ip_text};
ghost use Rattle.serve_log.specs.private.PutFacts.{put_facts, put_known};

use attributes::{Conn, Ip};
use program_texts::Fact;
use serde_json::{Map, Value};
use std::alloc::{AllocError, Global};
use std::sync::ArcStr;

// Every fact, in the order of their names.
const FACTS_BY_NAME: [Fact; 15] = [
    Fact::ConnectionDnsSanPeerCertificate,
    Fact::ConnectionId,
    Fact::ConnectionMtls,
    Fact::ConnectionRequestedServerName,
    Fact::ConnectionSubjectPeerCertificate,
    Fact::ConnectionTlsVersion,
    Fact::ConnectionUriSanPeerCertificate,
    Fact::DestinationAddress,
    Fact::DestinationPort,
    Fact::DestinationIp,
    Fact::DirectRemoteIp,
    Fact::RemoteIp,
    Fact::RequestScheme,
    Fact::SourceAddress,
    Fact::SourcePort,
];

/// The facts of a connection, as the object of a facts file. A fact that is absent is left out.
pub fn facts_value(alloc: Global, conn: &Conn) -> Result<Value, AllocError>
    ensures { IfOk result (λ value. view value ≡ facts_json (conn_view conn.now)) }
{
    let mut members = Map::new(alloc);
    put_all(alloc, &mut members, &FACTS_BY_NAME, conn)?;
    Ok(Value::Object(members))
}

// Puts the members of these facts.
fn put_all(
    alloc: Global,
    members: &mut Map<String, Value>,
    facts: &[Fact],
    conn: &Conn,
) -> Result<(), AllocError>
    ensures { OnOk result (members_view members.new.entries
        ≡ put_facts (conn_view conn.now) facts.now (members_view members.old.entries)) }
{
    for fact in facts {
        put_one(alloc, members, fact, conn)?;
    }
    Ok(())
}

// Puts the member of a fact, if the fact is known.
fn put_one(
    alloc: Global,
    members: &mut Map<String, Value>,
    fact: &Fact,
    conn: &Conn,
) -> Result<(), AllocError>
    ensures { OnOk result (members_view members.new.entries
        ≡ put_known (name_of fact.now) (fact_data fact.now (conn_view conn.now)) (members_view members.old.entries)) }
{
    let value = fact_value(alloc, *fact, conn)?;
    put_value(alloc, members, fact.name(), value)
}

// Puts a member with this name, if there is a value for it.
fn put_value(
    alloc: Global,
    members: &mut Map<String, Value>,
    name: &str,
    value: Option<Value>,
) -> Result<(), AllocError>
    ensures { OnOk result (members_view members.new.entries
        ≡ put_known name.now (option_map view value) (members_view members.old.entries)) }
{
    match value {
        Some(value) => serde_json::put(members, alloc, name, value),
        None => Ok(()),
    }
}

// The value of a fact, if the fact is known.
fn fact_value(alloc: Global, fact: Fact, conn: &Conn) -> Result<Option<Value>, AllocError>
    ensures { IfOk result (λ value. option_map view value ≡ fact_data fact (conn_view conn.now)) }
{
    match fact {
        Fact::SourceAddress => text_value(alloc, &conn.source_address),
        Fact::SourcePort => Ok(port_value(conn.source_port)),
        Fact::DestinationAddress => text_value(alloc, &conn.destination_address),
        Fact::DestinationPort => Ok(port_value(conn.destination_port)),
        Fact::ConnectionMtls => Ok(answer_value(conn.mtls)),
        Fact::ConnectionId => Ok(number_value(conn.connection_id)),
        Fact::ConnectionRequestedServerName => text_value(alloc, &conn.requested_server_name),
        Fact::ConnectionTlsVersion => text_value(alloc, &conn.tls_version),
        Fact::ConnectionSubjectPeerCertificate => {
            text_value(alloc, &conn.subject_peer_certificate)
        }
        Fact::ConnectionDnsSanPeerCertificate => text_value(alloc, &conn.dns_san_peer_certificate),
        Fact::ConnectionUriSanPeerCertificate => text_value(alloc, &conn.uri_san_peer_certificate),
        Fact::DirectRemoteIp => ip_value(alloc, conn.direct_remote_ip),
        Fact::RemoteIp => ip_value(alloc, conn.remote_ip),
        Fact::DestinationIp => ip_value(alloc, conn.destination_ip),
        Fact::RequestScheme => scheme_value(alloc, &conn.scheme),
    }
}

fn text_value(alloc: Global, text: &Option<ArcStr>) -> Result<Option<Value>, AllocError>
    ensures { IfOk result (λ value. option_map view value ≡ option_map string (text_view text.now)) }
{
    match text {
        Some(text) => Ok(Some(Value::try_from_str(alloc, text)?)),
        None => Ok(None),
    }
}

fn scheme_value(alloc: Global, scheme: &ArcStr) -> Result<Option<Value>, AllocError>
    ensures { IfOk result (λ value. option_map view value ≡ Some (string (arc_str_bytes scheme.now))) }
{
    Ok(Some(Value::try_from_str(alloc, scheme)?))
}

fn port_value(port: Option<u16>) -> Option<Value>
    ensures { option_map view result ≡ option_map (λ n. number (unsigned n)) port }
{
    match port {
        Some(port) => Some(Value::from(port)),
        None => None,
    }
}

fn number_value(known: Option<u64>) -> Option<Value>
    ensures { option_map view result ≡ option_map (λ n. number (unsigned n)) known }
{
    match known {
        Some(known) => Some(Value::from(known)),
        None => None,
    }
}

fn answer_value(answer: Option<bool>) -> Option<Value>
    ensures { option_map view result ≡ option_map boolean answer }
{
    match answer {
        Some(answer) => Some(Value::Bool(answer)),
        None => None,
    }
}

fn ip_value(alloc: Global, ip: Option<Ip>) -> Result<Option<Value>, AllocError>
    ensures { IfOk result (λ value. option_map view value ≡ option_map (λ a. string (ip_text a)) ip) }
{
    match ip {
        Some(ip) => Ok(Some(Value::String(text_of_ip(alloc, ip)?))),
        None => Ok(None),
    }
}

// An address as a text: four decimal numbers, or eight groups of hexadecimal digits.
fn text_of_ip(alloc: Global, ip: Ip) -> Result<String, AllocError>
    ensures { IfOk result (λ text. string_bytes text ≡ ip_text ip) }
{
    match ip {
        Ip::V4(number) => dotted(alloc, number),
        Ip::V6(number) => groups(alloc, number),
    }
}

// An IPv4 address as four decimal numbers.
fn dotted(alloc: Global, number: u32) -> Result<String, AllocError>
    ensures { IfOk result (λ text. string_bytes text ≡ ip_text (V4 number)) }
{
    let [a, b, c, d] = number.to_be_bytes();
    format!(in alloc; "{a}.{b}.{c}.{d}")
}

// An IPv6 address as eight groups of four hexadecimal digits.
fn groups(alloc: Global, number: u128) -> Result<String, AllocError>
    ensures { IfOk result (λ text. string_bytes text ≡ ip_text (V6 number)) }
{
    let [a, b, c, d, e, f, g, h, i, j, k, l, m, n, o, p] = number.to_be_bytes();
    let first = hex::encode(alloc, &[a, b])?;
    let second = hex::encode(alloc, &[c, d])?;
    let third = hex::encode(alloc, &[e, f])?;
    let fourth = hex::encode(alloc, &[g, h])?;
    let fifth = hex::encode(alloc, &[i, j])?;
    let sixth = hex::encode(alloc, &[k, l])?;
    let seventh = hex::encode(alloc, &[m, n])?;
    let eighth = hex::encode(alloc, &[o, p])?;
    let high = four_groups(alloc, &first, &second, &third, &fourth)?;
    let low = four_groups(alloc, &fifth, &sixth, &seventh, &eighth)?;
    two_halves(alloc, &high, &low)
}

fn four_groups(
    alloc: Global,
    first: &String,
    second: &String,
    third: &String,
    fourth: &String,
) -> Result<String, AllocError>
    ensures { IfOk result (λ text. string_bytes text ≡ string_bytes first.now ++ (58 ∷ (string_bytes second.now
        ++ (58 ∷ (string_bytes third.now ++ (58 ∷ string_bytes fourth.now)))))) }
{
    format!(in alloc; "{first}:{second}:{third}:{fourth}")
}

fn two_halves(alloc: Global, high: &String, low: &String) -> Result<String, AllocError>
    ensures { IfOk result (λ text. string_bytes text ≡ string_bytes high.now ++ (58 ∷ string_bytes low.now)) }
{
    format!(in alloc; "{high}:{low}")
}
