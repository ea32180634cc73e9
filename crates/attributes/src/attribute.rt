//! The attributes of a request; each is a function of the request's parts.
ghost use Rattle.std.specs.Prelude.{◌≡◌, ◌↔◌, IfSome, Some, find, option_map};
ghost use Rattle.std.specs.Str.{bytes_eq};
ghost use Rattle.attributes.specs.Attributes.{HasSortedPairs, attr_name, attr_of, attr_view, port_data, text, attr_type};
ghost use Rattle.attributes.specs.declared.attribute.AttrId.{AttrId};
ghost use Rattle.attributes.specs.Conn.{conn_view, text_view};
ghost use Rattle.attributes.specs.Request.{IsRequest};
ghost use Rattle.attributes.specs.private.Request.{lent_view};

use crate::lookup::Headers;
use crate::request::Request;
use std::sync::ArcStr;

/// An attribute: `RequestUrlPath` is the one named `request.url_path`.
#[derive(Clone, Copy, Debug, PartialEq, Eq)]
pub enum AttrId {
    /// The whole target.
    RequestPath,
    /// The target before its first `#` and the first `?`.
    RequestUrlPath,
    /// The header `:authority`: the Host field's value.
    RequestHost,
    /// The scheme that the connection's facts give.
    RequestScheme,
    /// The method, as it was sent.
    RequestMethod,
    /// All headers by ascending name, pseudo-headers included.
    RequestHeaders,
    /// The header `referer`.
    RequestReferer,
    /// The header `user-agent`.
    RequestUseragent,
    /// The header `x-request-id`.
    RequestId,
    /// `HTTP/1.0`, `HTTP/1.1`, `HTTP/2` or `HTTP/3`.
    RequestProtocol,
    /// The target between its first `?` and the first `#` after it.
    RequestQuery,
    /// The address that the connection comes from.
    SourceAddress,
    /// The port that the connection comes from.
    SourcePort,
    /// The address that the connection goes to.
    DestinationAddress,
    /// The port that the connection goes to.
    DestinationPort,
    /// Whether TLS is used and the client showed a certificate.
    ConnectionMtls,
    /// The number of the connection.
    ConnectionId,
    /// The server name that the client asked for.
    ConnectionRequestedServerName,
    /// The version of TLS.
    ConnectionTlsVersion,
    /// The subject of the peer certificate.
    ConnectionSubjectPeerCertificate,
    /// The first DNS entry of the peer certificate's SAN field.
    ConnectionDnsSanPeerCertificate,
    /// The first URI entry of the peer certificate's SAN field.
    ConnectionUriSanPeerCertificate,
}

/// The type of an attribute's values.
#[derive(Clone, Copy, Debug, PartialEq, Eq)]
pub enum AttrType {
    /// A text.
    Text,
    /// A signed number of 64 bits.
    Int,
    /// An unsigned number of 64 bits.
    Uint,
    /// A bool.
    Bool,
    /// A map from texts to texts.
    TextMap,
}

/// The value of an attribute, lent by the request. To keep a text or the pairs, copy them.
#[derive(Clone, Copy, Debug)]
pub enum AttrValue<'a> {
    /// A text.
    Text(&'a str),
    /// A signed number: a port.
    Int(i64),
    /// An unsigned number: that of the connection.
    Uint(u64),
    /// A bool.
    Bool(bool),
    /// Names with their values, by ascending name.
    Pairs(&'a Headers),
}

// Every attribute.
const ATTRIBUTES: [AttrId; 22] = [
    AttrId::RequestPath,
    AttrId::RequestUrlPath,
    AttrId::RequestHost,
    AttrId::RequestScheme,
    AttrId::RequestMethod,
    AttrId::RequestHeaders,
    AttrId::RequestReferer,
    AttrId::RequestUseragent,
    AttrId::RequestId,
    AttrId::RequestProtocol,
    AttrId::RequestQuery,
    AttrId::SourceAddress,
    AttrId::SourcePort,
    AttrId::DestinationAddress,
    AttrId::DestinationPort,
    AttrId::ConnectionMtls,
    AttrId::ConnectionId,
    AttrId::ConnectionRequestedServerName,
    AttrId::ConnectionTlsVersion,
    AttrId::ConnectionSubjectPeerCertificate,
    AttrId::ConnectionDnsSanPeerCertificate,
    AttrId::ConnectionUriSanPeerCertificate,
];

/// The attribute of this name, such as `request.url_path`; `None` if no attribute has the name.
pub fn attr_named(name: &str) -> Option<AttrId>
    ensures { (id : AttrId) → (result ≡ Some id) ↔ (name.now ≡ attr_name id) }
{
    find_named(&ATTRIBUTES, name)
}

// The first of these that has the name.
fn find_named(ids: &[AttrId], name: &str) -> Option<AttrId>
    ensures { result ≡ find (λ id. bytes_eq (attr_name id) name.now) ids.now }
{
    ids.iter().copied().find(|id| attr_name(*id) == name)
}

fn attr_name(id: AttrId) -> &'static str
    ensures { result.now ≡ attr_name id }
{
    match id {
        AttrId::RequestPath => "request.path",
        AttrId::RequestUrlPath => "request.url_path",
        AttrId::RequestHost => "request.host",
        AttrId::RequestScheme => "request.scheme",
        AttrId::RequestMethod => "request.method",
        AttrId::RequestHeaders => "request.headers",
        AttrId::RequestReferer => "request.referer",
        AttrId::RequestUseragent => "request.useragent",
        AttrId::RequestId => "request.id",
        AttrId::RequestProtocol => "request.protocol",
        AttrId::RequestQuery => "request.query",
        AttrId::SourceAddress => "source.address",
        AttrId::SourcePort => "source.port",
        AttrId::DestinationAddress => "destination.address",
        AttrId::DestinationPort => "destination.port",
        AttrId::ConnectionMtls => "connection.mtls",
        AttrId::ConnectionId => "connection.id",
        AttrId::ConnectionRequestedServerName => "connection.requested_server_name",
        AttrId::ConnectionTlsVersion => "connection.tls_version",
        AttrId::ConnectionSubjectPeerCertificate => "connection.subject_peer_certificate",
        AttrId::ConnectionDnsSanPeerCertificate => "connection.dns_san_peer_certificate",
        AttrId::ConnectionUriSanPeerCertificate => "connection.uri_san_peer_certificate",
    }
}

/// The type of the attribute's values: a request that has the attribute has a value of that type
/// (`laws::attributes_have_their_types`).
pub fn attr_type(id: AttrId) -> AttrType
    ensures { result ≡ attr_type id }
{
    match id {
        AttrId::SourcePort | AttrId::DestinationPort => AttrType::Int,
        AttrId::ConnectionId => AttrType::Uint,
        AttrId::ConnectionMtls => AttrType::Bool,
        AttrId::RequestHeaders => AttrType::TextMap,
        _ => AttrType::Text,
    }
}

impl Request {
    /// The attribute's value; `None` if the request does not have the attribute.
    pub fn attr(&self, id: AttrId) -> Option<AttrValue<'_>>
        ensures value { option_map attr_view result ≡ attr_of self.now id }
        ensures ordered { IfSome result HasSortedPairs }
        ensures sound { IsRequest self.now }
    {
        let conn = self.conn();
        match id {
            AttrId::RequestPath => Some(AttrValue::Text(self.target())),
            AttrId::RequestUrlPath => Some(AttrValue::Text(self.url_path())),
            AttrId::RequestHost => text_value(self.header(":authority")),
            AttrId::RequestScheme => Some(AttrValue::Text(conn.scheme.as_str())),
            AttrId::RequestMethod => Some(AttrValue::Text(self.method())),
            AttrId::RequestHeaders => Some(AttrValue::Pairs(self.headers())),
            AttrId::RequestReferer => text_value(self.header("referer")),
            AttrId::RequestUseragent => text_value(self.header("user-agent")),
            AttrId::RequestId => text_value(self.header("x-request-id")),
            AttrId::RequestProtocol => Some(AttrValue::Text(self.protocol().text())),
            AttrId::RequestQuery => Some(AttrValue::Text(self.query())),
            AttrId::SourceAddress => text_value(lent_text(&conn.source_address)),
            AttrId::SourcePort => port_value(conn.source_port),
            AttrId::DestinationAddress => text_value(lent_text(&conn.destination_address)),
            AttrId::DestinationPort => port_value(conn.destination_port),
            AttrId::ConnectionMtls => Some(AttrValue::Bool(conn.mtls?)),
            AttrId::ConnectionId => Some(AttrValue::Uint(conn.connection_id?)),
            AttrId::ConnectionRequestedServerName => {
                text_value(lent_text(&conn.requested_server_name))
            }
            AttrId::ConnectionTlsVersion => text_value(lent_text(&conn.tls_version)),
            AttrId::ConnectionSubjectPeerCertificate => {
                text_value(lent_text(&conn.subject_peer_certificate))
            }
            AttrId::ConnectionDnsSanPeerCertificate => {
                text_value(lent_text(&conn.dns_san_peer_certificate))
            }
            AttrId::ConnectionUriSanPeerCertificate => {
                text_value(lent_text(&conn.uri_san_peer_certificate))
            }
        }
    }
}

fn text_value(found: Option<&str>) -> Option<AttrValue<'_>>
    ensures value { option_map attr_view result ≡ option_map text (lent_view found.entry) }
    ensures ordered { IfSome result HasSortedPairs }
{
    Some(AttrValue::Text(found?))
}

// The text, if there is one.
fn lent_text(text: &Option<ArcStr>) -> Option<&str>
    ensures { lent_view result ≡ text_view text.now }
{
    match text {
        Some(text) => Some(text.as_str()),
        None => None,
    }
}

fn port_value<'a>(port: Option<u16>) -> Option<AttrValue<'a>>
    ensures value { option_map attr_view result ≡ port_data port }
    ensures ordered { IfSome result HasSortedPairs }
{
    Some(AttrValue::Int(i64::from(port?)))
}
