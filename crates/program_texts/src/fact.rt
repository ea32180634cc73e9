//! The facts that an object may have, by their names.
ghost use Rattle.std.specs.Prelude.{◌≡◌, ◌↔◌, Some, find};
ghost use Rattle.std.specs.Str.{bytes_eq};
ghost use Rattle.program_texts.specs.Facts.{name_of};
ghost use Rattle.program_texts.specs.declared.fact.Fact.{Fact};

/// A fact, named after its member: `SourcePort` is `source.port`.
#[derive(Clone, Copy, Debug)]
pub enum Fact {
    /// The address that the connection comes from.
    SourceAddress,
    /// The port that the connection comes from.
    SourcePort,
    /// The address that the connection goes to.
    DestinationAddress,
    /// The port that the connection goes to.
    DestinationPort,
    /// Whether TLS is used and the client presented a certificate.
    ConnectionMtls,
    /// The number of the connection.
    ConnectionId,
    /// The server name that the client asked for.
    ConnectionRequestedServerName,
    /// The version of TLS.
    ConnectionTlsVersion,
    /// The subject of the peer certificate.
    ConnectionSubjectPeerCertificate,
    /// The first DNS entry of the peer certificate's SAN field.
    ConnectionDnsSanPeerCertificate,
    /// The first URI entry of the peer certificate's SAN field.
    ConnectionUriSanPeerCertificate,
    /// The address of the peer itself.
    DirectRemoteIp,
    /// The address of the client; a proxy in between may have reported it.
    RemoteIp,
    /// The address that the connection goes to, as an IP address.
    DestinationIp,
    /// The scheme of the connection's requests.
    RequestScheme,
}

// Every fact.
const FACTS: [Fact; 15] = [
    Fact::SourceAddress,
    Fact::SourcePort,
    Fact::DestinationAddress,
    Fact::DestinationPort,
    Fact::ConnectionMtls,
    Fact::ConnectionId,
    Fact::ConnectionRequestedServerName,
    Fact::ConnectionTlsVersion,
    Fact::ConnectionSubjectPeerCertificate,
    Fact::ConnectionDnsSanPeerCertificate,
    Fact::ConnectionUriSanPeerCertificate,
    Fact::DirectRemoteIp,
    Fact::RemoteIp,
    Fact::DestinationIp,
    Fact::RequestScheme,
];

impl Fact {
    /// The name of the fact's member.
    pub fn name(self) -> &'static str
        ensures { result.now ≡ name_of self }
    {
        match self {
            Fact::SourceAddress => "source.address",
            Fact::SourcePort => "source.port",
            Fact::DestinationAddress => "destination.address",
            Fact::DestinationPort => "destination.port",
            Fact::ConnectionMtls => "connection.mtls",
            Fact::ConnectionId => "connection.id",
            Fact::ConnectionRequestedServerName => "connection.requested_server_name",
            Fact::ConnectionTlsVersion => "connection.tls_version",
            Fact::ConnectionSubjectPeerCertificate => "connection.subject_peer_certificate",
            Fact::ConnectionDnsSanPeerCertificate => "connection.dns_san_peer_certificate",
            Fact::ConnectionUriSanPeerCertificate => "connection.uri_san_peer_certificate",
            Fact::DirectRemoteIp => "direct_remote_ip",
            Fact::RemoteIp => "remote_ip",
            Fact::DestinationIp => "destination_ip",
            Fact::RequestScheme => "request.scheme",
        }
    }

    /// What the value of the fact's member has to be, in words.
    pub(crate) fn kind(self) -> &'static str {
        match self {
            Fact::SourcePort | Fact::DestinationPort => "a whole number from 0 to 65535",
            Fact::ConnectionId => "a whole number below 2^64",
            Fact::ConnectionMtls => "true or false",
            Fact::DirectRemoteIp | Fact::RemoteIp | Fact::DestinationIp => {
                "a text that spells an IP address"
            }
            Fact::SourceAddress
            | Fact::DestinationAddress
            | Fact::ConnectionRequestedServerName
            | Fact::ConnectionTlsVersion
            | Fact::ConnectionSubjectPeerCertificate
            | Fact::ConnectionDnsSanPeerCertificate
            | Fact::ConnectionUriSanPeerCertificate
            | Fact::RequestScheme => "a text",
        }
    }

    /// The fact of this name, if there is one.
    pub(crate) fn named(name: &str) -> Option<Fact>
        ensures { (fact : Fact) → (result ≡ Some fact) ↔ (name.now ≡ name_of fact) }
    {
        find_named(&FACTS, name)
    }
}

// The first of these facts that has the name.
fn find_named(facts: &[Fact], name: &str) -> Option<Fact>
    ensures { result ≡ find (λ fact. bytes_eq (name_of fact) name.now) facts.now }
{
    facts.iter().copied().find(|fact| fact.name() == name)
}
