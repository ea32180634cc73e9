//! What the fields of a front proxy hold.

/// What a field of a front holds: a part of the client's request, or a fact of its connection.
#[derive(Debug, Drop)]
pub enum Fact {
    /// The method.
    Method,
    /// The target, in origin form.
    Target,
    /// The value of the Host field.
    Host,
    /// The scheme, `http` or `https`.
    Scheme,
    /// The address that the request comes from.
    RemoteIp,
    /// Addresses with commas between; the one at this place from the right is the address that the request comes from.
    /// The last is at place 1.
    ForwardedFor(usize),
    /// The address that the connection comes from.
    DirectRemoteIp,
    /// The port that the connection comes from.
    SourcePort,
    /// Whether the client showed a certificate: it did exactly if the value is this text.
    Mtls(String),
    /// The server name that the client asked for.
    RequestedServerName,
    /// The subject of the peer certificate.
    SubjectPeerCertificate,
    /// The first DNS entry of the peer certificate's SAN field.
    DnsSanPeerCertificate,
    /// The first URI entry of the peer certificate's SAN field.
    UriSanPeerCertificate,
}

/// A field of a front, by its name in lower case, and what it holds.
#[derive(Debug, Drop)]
pub struct NamedFact {
    /// The name of the field.
    pub field: String,
    /// What the field holds.
    pub fact: Fact,
}

/// Why a request of a front is not one of its client's.
#[derive(Clone, Copy, Debug, PartialEq, Eq)]
pub enum MapFault {
    /// A field is missing.
    Missing,
    /// There are several fields of one name.
    Doubled,
    /// A field's value does not spell what the field holds.
    Unreadable,
}
