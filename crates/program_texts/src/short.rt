//! Whether the texts of a connection are within the greatest limit.
ghost use Rattle.std.specs.Prelude.{◌≡◌, Some, IfErr, IfOk, OnOk};
ghost use Rattle.attributes.specs.Conn.{conn_view, text_view};
ghost use Rattle.attributes.specs.Limits.{FactsInLimits, IsWithin, largest};
ghost use Rattle.program_texts.specs.Facts.{HasLongText, IsLong};

use crate::fact::Fact;
use crate::fact_fault::FactFault;
use attributes::{Conn, Limit, Limits};
use std::sync::ArcStr;

/// The connection, if its texts are within the limits; otherwise the first fact whose text is not.
pub fn within_limits(conn: Conn) -> Result<Conn, FactFault<'static>>
    ensures found { IfOk result (λ same. (same ≡ conn) × FactsInLimits (conn_view conn) largest) }
    ensures fault { IfErr result (HasLongText (conn_view conn)) }
{
    require_limits(&conn)?;
    Ok(conn)
}

// Refuses a connection with a text above the limit.
fn require_limits(conn: &Conn) -> Result<(), FactFault<'static>>
    ensures found { OnOk result (FactsInLimits (conn_view conn.now) largest) }
    ensures fault { IfErr result (HasLongText (conn_view conn.now)) }
{
    require_short(Fact::SourceAddress, &conn.source_address)?;
    require_short(Fact::DestinationAddress, &conn.destination_address)?;
    require_short(
        Fact::ConnectionRequestedServerName,
        &conn.requested_server_name,
    )?;
    require_short(Fact::ConnectionTlsVersion, &conn.tls_version)?;
    require_short(
        Fact::ConnectionSubjectPeerCertificate,
        &conn.subject_peer_certificate,
    )?;
    require_short(
        Fact::ConnectionDnsSanPeerCertificate,
        &conn.dns_san_peer_certificate,
    )?;
    require_short(
        Fact::ConnectionUriSanPeerCertificate,
        &conn.uri_san_peer_certificate,
    )?;
    require_text(Fact::RequestScheme, conn.scheme.as_str())
}

// Refuses the text of a fact above the limit, if there is one.
fn require_short(fact: Fact, text: &Option<ArcStr>) -> Result<(), FactFault<'static>>
    ensures found { OnOk result (IsWithin largest.text (text_view text.now)) }
    ensures fault { IfErr result (IsLong fact (text_view text.now)) }
{
    match text {
        Some(text) => require_text(fact, text.as_str()),
        None => Ok(()),
    }
}

// Refuses the text of a fact above the limit.
fn require_text(fact: Fact, text: &str) -> Result<(), FactFault<'static>>
    ensures found { OnOk result (IsWithin largest.text (Some text.now)) }
    ensures fault { IfErr result (IsLong fact (Some text.now)) }
{
    if text.len() > Limits::largest().get(Limit::Text) {
        return Err(FactFault::TooLong(fact, text.len()));
    }
    Ok(())
}
