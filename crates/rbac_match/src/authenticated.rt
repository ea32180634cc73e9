//! Tests of the peer's certificate (`envoy.config.rbac.v3.Principal.Authenticated`).

ghost use Rattle.std.specs.Prelude.{◌≡◌, ◌⊎◌, IfOk, IfErr, option_copied};
ghost use Rattle.attributes.specs.Conn.{conn_view, text_view};
ghost use Rattle.proto_wire.specs.Merge.{parts_view};
ghost use Rattle.proto_wire.specs.Places.{FaultOr};
ghost use Rattle.rbac_match.specs.Authenticated.{IsAuthenticated, AuthenticatedFault, peer_name};

use crate::text::{TextMatcher, read_text_matcher};
use attributes::Conn;
use proto_wire::{Fault, Key, inside_field, keys, payloads_of, read_message_at};
use std::alloc::Global;

pub(crate) const PRINCIPAL_NAME: u32 = 2;

static AUTHENTICATED: [Key; 1] = keys![Len PRINCIPAL_NAME];

/// Reads an Authenticated from its parts: the test of the peer's name, or `None` if every name is accepted.
pub(crate) fn read_authenticated<'a>(
    alloc: Global,
    parts: &[&'a [u8]],
) -> Result<Option<TextMatcher<'a>>, Fault>
    ensures found { IfOk result (λ name. IsAuthenticated (parts_view parts.now) name) }
    ensures fault { IfErr result (FaultOr (AuthenticatedFault (parts_view parts.now))) }
{
    let fields = read_message_at(alloc, parts, &AUTHENTICATED)?;
    let name = payloads_of(alloc, &fields, PRINCIPAL_NAME)?;
    if name.is_empty() {
        return Ok(None);
    }
    Ok(Some(inside_field(read_text_matcher(alloc, &name), PRINCIPAL_NAME, 0)?))
}

/// The peer's name: the first that is known of the URI SAN, the DNS SAN and the subject.
pub(crate) fn peer_name(conn: &Conn) -> Option<&str>
    ensures { option_copied result ≡ peer_name (conn_view conn.now) }
{
    let name = conn
        .uri_san_peer_certificate
        .as_ref()
        .or(conn.dns_san_peer_certificate.as_ref())
        .or(conn.subject_peer_certificate.as_ref())?;
    Some(name.as_str())
}
