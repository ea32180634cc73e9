//! Where a server listens, and where its control plane is.
ghost use Rattle.std.specs.Prelude.{◌↔◌, IsTrue};
ghost use Rattle.serve_config.specs.Calls.{SpeaksGrpc};

use std::fmt;
use std::net::SocketAddr;

/// Where a server listens. It is displayed as its text in a configuration, with control characters escaped.
#[derive(Debug, Drop)]
pub enum Address {
    /// A TCP address.
    Tcp(SocketAddr),
    /// The path of a Unix socket. The server makes it, with mode 0600, and removes a stale one first.
    Unix(String),
    /// A listening TCP socket that a supervisor opened as this descriptor.
    Descriptor(i32),
}

impl fmt::Display for Address {
    fn fmt<W: fmt::Write>(&self, f: &mut fmt::Formatter<W>) -> fmt::Result {
        match self {
            Address::Tcp(address) => write!(f, "{address}"),
            Address::Unix(path) => write!(f, "unix:{}", path.as_str().escape_debug()),
            Address::Descriptor(number) => write!(f, "fd:{number}"),
        }
    }
}

/// Where the responses of a control plane come from. It is displayed as its text in a configuration, with control
/// characters escaped.
#[derive(Debug, Drop)]
pub enum ControlAddress {
    /// A TCP address.
    Tcp(SocketAddr),
    /// The path of a Unix socket.
    Unix(String),
    /// The TCP address of one that speaks gRPC.
    GrpcTcp(SocketAddr),
    /// The path of the Unix socket of one that speaks gRPC.
    GrpcUnix(String),
    /// The path of a file with one `DiscoveryResponse`. It is read again when it changes.
    File(String),
}

impl ControlAddress {
    /// Whether the control plane at this address speaks gRPC.
    pub fn is_grpc(&self) -> bool
        ensures { IsTrue result ↔ SpeaksGrpc self.now }
    {
        match self {
            ControlAddress::GrpcTcp(_) | ControlAddress::GrpcUnix(_) => true,
            ControlAddress::Tcp(_) | ControlAddress::Unix(_) | ControlAddress::File(_) => false,
        }
    }
}

impl fmt::Display for ControlAddress {
    fn fmt<W: fmt::Write>(&self, f: &mut fmt::Formatter<W>) -> fmt::Result {
        match self {
            ControlAddress::Tcp(address) => write!(f, "{address}"),
            ControlAddress::Unix(path) => write!(f, "unix:{}", path.as_str().escape_debug()),
            ControlAddress::GrpcTcp(address) => write!(f, "grpc://{address}"),
            ControlAddress::GrpcUnix(path) => {
                write!(f, "grpc+unix:{}", path.as_str().escape_debug())
            }
            ControlAddress::File(path) => write!(f, "file:{}", path.as_str().escape_debug()),
        }
    }
}
