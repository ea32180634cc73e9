//! The request and the facts of a client, put together from the claims of fields.
ghost use Rattle.std.specs.Prelude.{◌≡◌, ◌∷◌, [], List, Any, IfOk, MatchResult, OnOk, option_map};
ghost use Rattle.std.specs.String.{string_bytes};
ghost use Rattle.attributes.specs.Conn.{server_name, text_view};
ghost use Rattle.attributes.specs.Headers.{Entry, lines_view, values_of};
ghost use Rattle.head_map.specs.Mapped.{Says, SaysFault, put};
ghost use Rattle.head_map.specs.private.Client.{IsClaimedBy, client_view};
ghost use Rattle.head_map.specs.private.FieldClaims.{claim_of};

use crate::fact::{MapFault, NamedFact};
use crate::field_claim::{FieldClaim, read};
use crate::lines::value_of;
use attributes::{Conn, server_name};
use std::alloc::{AllocError, Global};
use std::sync::ArcStr;

/// What is said of a client.
#[derive(Debug, Drop)]
pub(crate) struct Client {
    pub(crate) method: String,
    pub(crate) target: String,
    /// The value of its Host field, if a field says it.
    pub(crate) host: Option<String>,
    pub(crate) conn: Conn,
}

impl Client {
    /// Takes what the named fields of these lines say, in order; stops at the first that says nothing.
    pub(crate) fn put_all(
        &mut self,
        alloc: Global,
        named: &[NamedFact],
        lines: &[(String, String)],
    ) -> Result<Result<(), MapFault>, AllocError>
        ensures { IfOk result (λ outcome. MatchResult outcome
            (λ _. IsClaimedBy (lines_view lines.now) named.now (client_view self.old) (client_view self.new))
            (λ fault. Any (λ n. SaysFault (lines_view lines.now) n fault) named.now)) }
    {
        for one in named {
            match claim_by(one, lines) {
                Ok(claim) => self.put(alloc, claim)?,
                Err(fault) => return Ok(Err(fault)),
            }
        }
        Ok(Ok(()))
    }

    // Takes what a field says.
    fn put(&mut self, alloc: Global, claim: FieldClaim<'_>) -> Result<(), AllocError>
        ensures { OnOk result (client_view self.new ≡ put (claim_of claim.entry) (client_view self.old)) }
    {
        match claim {
            FieldClaim::Method(text) => self.method = String::from_str(alloc, text)?,
            FieldClaim::Target(text) => self.target = String::from_str(alloc, text)?,
            FieldClaim::Host(text) => self.host = Some(String::from_str(alloc, text)?),
            FieldClaim::Scheme(text) => self.conn.scheme = ArcStr::from_str(alloc, text)?,
            FieldClaim::RemoteIp(ip) => self.conn.remote_ip = Some(ip),
            FieldClaim::DirectRemoteIp(ip) => self.conn.direct_remote_ip = Some(ip),
            FieldClaim::SourcePort(port) => self.conn.source_port = Some(port),
            FieldClaim::Mtls(is) => self.conn.mtls = Some(is),
            FieldClaim::RequestedServerName(text) => {
                self.conn.requested_server_name = fact_name(alloc, text)?
            }
            FieldClaim::SubjectPeerCertificate(text) => {
                self.conn.subject_peer_certificate = fact_text(alloc, text)?
            }
            FieldClaim::DnsSanPeerCertificate(text) => {
                self.conn.dns_san_peer_certificate = fact_text(alloc, text)?
            }
            FieldClaim::UriSanPeerCertificate(text) => {
                self.conn.uri_san_peer_certificate = fact_text(alloc, text)?
            }
        }
        Ok(())
    }
}

// A text of the facts, if there is one.
fn fact_text(alloc: Global, text: Option<&str>) -> Result<Option<ArcStr>, AllocError>
    ensures { IfOk result (λ copy. text_view copy ≡ option_map (λ t. t.now) text.entry) }
{
    match text {
        Some(text) => Ok(Some(ArcStr::from_str(alloc, text)?)),
        None => Ok(None),
    }
}

// The name of a server, if there is one, in its one form.
fn fact_name(alloc: Global, text: Option<&str>) -> Result<Option<ArcStr>, AllocError>
    ensures { IfOk result (λ copy.
        text_view copy ≡ option_map server_name (option_map (λ t. t.now) text.entry)) }
{
    match text {
        Some(text) => Ok(Some(server_name(alloc, text)?)),
        None => Ok(None),
    }
}

// What the named field of these lines says.
fn claim_by<'a>(
    named: &NamedFact,
    lines: &'a [(String, String)],
) -> Result<FieldClaim<'a>, MapFault>
    ensures { MatchResult result (λ claim. Says (lines_view lines.now) named.now (claim_of claim))
        (SaysFault (lines_view lines.now) named.now) }
{
    match value_of(lines, named.field.as_str()) {
        Ok(value) => read_value(named, value),
        Err(fault) => Err(fault),
    }
}

// What the named field says by its one value.
fn read_value<'a>(named: &NamedFact, value: &'a str) -> Result<FieldClaim<'a>, MapFault>
    ensures { (lines : List Entry) → values_of (string_bytes named.now.field) lines ≡ value.now ∷ []
        → MatchResult result (λ claim. Says lines named.now (claim_of claim))
        (SaysFault lines named.now) }
{
    match read(&named.fact, value) {
        Some(claim) => Ok(claim),
        None => Err(MapFault::Unreadable),
    }
}
