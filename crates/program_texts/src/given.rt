//! Reads the facts of a JSON value without taking memory: their texts are those of the value.
ghost use Rattle.std.specs.Prelude.{◌≡◌, ℕ, Bool, true, false, List, Option, IfErr, IfOk, OnOk, option_map};
ghost use Rattle.attributes.specs.Conn.{conn_view, server_name, text_view};
ghost use Rattle.attributes.specs.declared.address.Ip.{Ip};
ghost use Rattle.serde_json.specs.Find.{get};
ghost use Rattle.serde_json.specs.View.{members_view, view};
ghost use Rattle.program_texts.specs.Facts.{AreFacts, AreNamed, HasFactFault, HasFactNames, IsAddress, IsAnswer, IsFactName, IsNumber, IsPortNumber, IsScheme, IsServerName, IsText, BothOrNone, name_of};
ghost use Rattle.program_texts.specs.private.Given.{HasUnknown, given_view};
ghost use Rattle.program_texts.specs.declared.fact.Fact.TheVariants.{ConnectionRequestedServerName};
ghost use Rattle.program_texts.specs.declared.fact_fault.FactFault.TheVariants.{NotOfKind};

use crate::fact::Fact;
use crate::fact_fault::FactFault;
use attributes::{Conn, Ip, parse_ip, server_name};
use serde_json::{Map, Value};
use std::alloc::{AllocError, Global};
use std::sync::ArcStr;

/// The facts that a value means, or the member that has a fault.
pub(crate) fn given_facts<'a>(value: &'a Value) -> Result<Conn<&'a str>, FactFault<'a>>
    ensures found { IfOk result (λ facts. AreFacts (view value.now) (given_view facts)) }
    ensures fault { IfErr result (HasFactFault (view value.now)) }
{
    require_fact_names(value)?;
    Ok(Conn {
        source_address: text_at(value, Fact::SourceAddress)?,
        source_port: port_at(value, Fact::SourcePort)?,
        destination_address: text_at(value, Fact::DestinationAddress)?,
        destination_port: port_at(value, Fact::DestinationPort)?,
        mtls: answer_at(value, Fact::ConnectionMtls)?,
        connection_id: number_at(value, Fact::ConnectionId)?,
        requested_server_name: name_at(value)?,
        tls_version: text_at(value, Fact::ConnectionTlsVersion)?,
        subject_peer_certificate: text_at(value, Fact::ConnectionSubjectPeerCertificate)?,
        dns_san_peer_certificate: text_at(value, Fact::ConnectionDnsSanPeerCertificate)?,
        uri_san_peer_certificate: text_at(value, Fact::ConnectionUriSanPeerCertificate)?,
        direct_remote_ip: address_at(value, Fact::DirectRemoteIp)?,
        remote_ip: address_at(value, Fact::RemoteIp)?,
        destination_ip: address_at(value, Fact::DestinationIp)?,
        scheme: scheme_at(value, Fact::RequestScheme)?,
    })
}

/// A connection with copies of these facts.
pub(crate) fn owned(alloc: Global, facts: &Conn<&str>) -> Result<Conn, AllocError>
    ensures { IfOk result (λ conn. conn_view conn ≡ given_view facts.now) }
{
    Ok(Conn {
        source_address: owned_text(alloc, facts.source_address)?,
        source_port: facts.source_port,
        destination_address: owned_text(alloc, facts.destination_address)?,
        destination_port: facts.destination_port,
        mtls: facts.mtls,
        connection_id: facts.connection_id,
        requested_server_name: owned_name(alloc, facts.requested_server_name)?,
        tls_version: owned_text(alloc, facts.tls_version)?,
        subject_peer_certificate: owned_text(alloc, facts.subject_peer_certificate)?,
        dns_san_peer_certificate: owned_text(alloc, facts.dns_san_peer_certificate)?,
        uri_san_peer_certificate: owned_text(alloc, facts.uri_san_peer_certificate)?,
        direct_remote_ip: facts.direct_remote_ip,
        remote_ip: facts.remote_ip,
        destination_ip: facts.destination_ip,
        scheme: ArcStr::from_str(alloc, facts.scheme)?,
    })
}

fn owned_text(alloc: Global, text: Option<&str>) -> Result<Option<ArcStr>, AllocError>
    ensures { IfOk result (λ copy. text_view copy ≡ option_map (λ t. t.now) text.entry) }
{
    match text {
        Some(text) => Ok(Some(ArcStr::from_str(alloc, text)?)),
        None => Ok(None),
    }
}

// The name of a server, in its one form.
fn owned_name(alloc: Global, text: Option<&str>) -> Result<Option<ArcStr>, AllocError>
    ensures { IfOk result (λ copy.
        text_view copy ≡ option_map server_name (option_map (λ t. t.now) text.entry)) }
{
    match text {
        Some(text) => Ok(Some(server_name(alloc, text)?)),
        None => Ok(None),
    }
}

// Refuses any value but an object whose names are all those of facts.
fn require_fact_names<'a>(value: &'a Value) -> Result<(), FactFault<'a>>
    ensures found { OnOk result (HasFactNames (view value.now)) }
    ensures fault { IfErr result (HasFactFault (view value.now)) }
{
    match value.as_object() {
        Some(members) => require_named(members),
        None => Err(FactFault::NoObject),
    }
}

// Refuses members if one has a name that no fact has.
fn require_named<'a>(members: &'a Map<String, Value>) -> Result<(), FactFault<'a>>
    ensures found { OnOk result (AreNamed (members_view members.now.entries)) }
    ensures fault { IfErr result (HasUnknown (members_view members.now.entries)) }
{
    match members.keys().find(|name| is_unknown(name.as_str())) {
        Some(name) => Err(FactFault::NoFact(name.as_str())),
        None => Ok(()),
    }
}

// Whether no fact has this name.
fn is_unknown(name: &str) -> bool
    ensures unknown { result ≡ true → ¬ IsFactName name.now }
    ensures known { result ≡ false → IsFactName name.now }
{
    Fact::named(name).is_none()
}

fn text_at<'a>(object: &'a Value, fact: Fact) -> Result<Option<&'a str>, FactFault<'a>>
    ensures found { IfOk result
        (λ text. BothOrNone IsText (get (name_of fact) (view object.now)) (option_map (λ t. t.now) text)) }
    ensures fault { IfErr result (λ e. (e ≡ NotOfKind fact)
        × ((text : Option (List ℕ)) → ¬ BothOrNone IsText (get (name_of fact) (view object.now)) text)) }
{
    let Some(value) = object.get(fact.name()) else {
        return Ok(None);
    };
    match value.as_str() {
        Some(text) => Ok(Some(text)),
        None => Err(FactFault::NotOfKind(fact)),
    }
}

// The name of the server, as it is written.
fn name_at<'a>(object: &'a Value) -> Result<Option<&'a str>, FactFault<'a>>
    ensures found { IfOk result
        (λ text. BothOrNone IsServerName (get (name_of ConnectionRequestedServerName) (view object.now))
        (option_map server_name (option_map (λ t. t.now) text))) }
    ensures fault { IfErr result (λ e. (e ≡ NotOfKind ConnectionRequestedServerName)
        × ((name : Option (List ℕ))
        → ¬ BothOrNone IsServerName (get (name_of ConnectionRequestedServerName) (view object.now)) name)) }
{
    text_at(object, Fact::ConnectionRequestedServerName)
}

fn number_at<'a>(object: &'a Value, fact: Fact) -> Result<Option<u64>, FactFault<'a>>
    ensures found { IfOk result (λ n. BothOrNone IsNumber (get (name_of fact) (view object.now)) n) }
    ensures fault { IfErr result (λ e. (e ≡ NotOfKind fact)
        × ((n : Option ℕ) → ¬ BothOrNone IsNumber (get (name_of fact) (view object.now)) n)) }
{
    let Some(value) = object.get(fact.name()) else {
        return Ok(None);
    };
    match value.as_u64() {
        Some(number) => Ok(Some(number)),
        None => Err(FactFault::NotOfKind(fact)),
    }
}

fn port_at<'a>(object: &'a Value, fact: Fact) -> Result<Option<u16>, FactFault<'a>>
    ensures found { IfOk result
        (λ port. BothOrNone IsPortNumber (get (name_of fact) (view object.now)) port) }
    ensures fault { IfErr result (λ e. (e ≡ NotOfKind fact)
        × ((port : Option ℕ) → ¬ BothOrNone IsPortNumber (get (name_of fact) (view object.now)) port)) }
{
    match number_at(object, fact)? {
        None => Ok(None),
        Some(number) if number <= u16::MAX as u64 => Ok(Some(number as u16)),
        Some(_) => Err(FactFault::NotOfKind(fact)),
    }
}

fn answer_at<'a>(object: &'a Value, fact: Fact) -> Result<Option<bool>, FactFault<'a>>
    ensures found { IfOk result (λ b. BothOrNone IsAnswer (get (name_of fact) (view object.now)) b) }
    ensures fault { IfErr result (λ e. (e ≡ NotOfKind fact)
        × ((b : Option Bool) → ¬ BothOrNone IsAnswer (get (name_of fact) (view object.now)) b)) }
{
    let Some(value) = object.get(fact.name()) else {
        return Ok(None);
    };
    match value.as_bool() {
        Some(answer) => Ok(Some(answer)),
        None => Err(FactFault::NotOfKind(fact)),
    }
}

fn address_at<'a>(object: &'a Value, fact: Fact) -> Result<Option<Ip>, FactFault<'a>>
    ensures found { IfOk result (λ ip. BothOrNone IsAddress (get (name_of fact) (view object.now)) ip) }
    ensures fault { IfErr result (λ e. (e ≡ NotOfKind fact)
        × ((ip : Option Ip) → ¬ BothOrNone IsAddress (get (name_of fact) (view object.now)) ip)) }
{
    let Some(text) = text_at(object, fact)? else {
        return Ok(None);
    };
    match parse_ip(text) {
        Some(ip) => Ok(Some(ip.unmapped())),
        None => Err(FactFault::NotOfKind(fact)),
    }
}

fn scheme_at<'a>(object: &'a Value, fact: Fact) -> Result<&'a str, FactFault<'a>>
    ensures found { IfOk result
        (λ scheme. IsScheme (get (name_of fact) (view object.now)) scheme.now) }
    ensures fault { IfErr result (λ e. (e ≡ NotOfKind fact)
        × ((scheme : List ℕ) → ¬ IsScheme (get (name_of fact) (view object.now)) scheme)) }
{
    match text_at(object, fact)? {
        Some(scheme) => Ok(scheme),
        None => Ok("http"),
    }
}
