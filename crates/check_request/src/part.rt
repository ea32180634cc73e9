//! The parts of a CheckRequest, and which name of a certificate a principal is.

/// An end of a connection.
#[derive(Clone, Copy, PartialEq, Eq, Debug)]
pub enum End {
    /// Where the request comes from.
    Source,
    /// Where the connection goes to.
    Destination,
}

/// Which name of the peer's certificate its `principal` is.
#[derive(Clone, Copy, PartialEq, Eq, Debug)]
pub enum PrincipalName {
    /// The first URI entry of its SAN field.
    UriSan,
    /// The first DNS entry of its SAN field.
    DnsSan,
    /// Its subject.
    Subject,
}

/// A part of a CheckRequest that may have a fault.
#[derive(Clone, Copy, PartialEq, Eq, Debug)]
pub enum CheckPart {
    /// The message itself.
    Whole,
    /// `attributes`
    Attributes,
    /// `attributes.source` or `attributes.destination`
    Peer(End),
    /// Its `address`
    Address(End),
    /// Its `address.socket_address.address`
    Host(End),
    /// Its `address.socket_address.port_value`
    Port(End),
    /// `attributes.source.principal`
    Principal,
    /// `attributes.request`
    Request,
    /// `attributes.request.http`
    Http,
    /// `attributes.request.http.protocol`
    Protocol,
    /// `attributes.request.http.scheme`
    Scheme,
    /// `attributes.request.http.headers`
    Headers,
    /// `attributes.request.http.header_map`
    HeaderMap,
    /// Its header at this place; the first is at place 0.
    Header(usize),
    /// `attributes.tls_session`
    Session,
    /// `attributes.tls_session.sni`
    ServerName,
    /// `attributes.context_extensions`
    Extensions,
    /// Its value at the key `filters`.
    Filters,
}
