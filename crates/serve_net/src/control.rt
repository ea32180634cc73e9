//! The way to the control plane.

use crate::call_fields::call_fields;
use crate::file::{Look, WatchedFile};
use crate::grpc::{GrpcStream, Shared};
use crate::link::Link;
use crate::stream::NetStream;
use crate::tcp::TcpLink;
use hpack::Field;
use mio::net::{TcpStream, UnixStream};
use mio::{Interest, Registry, Token};
use serve_config::{ControlAddress, ServeConfig};
use std::alloc::{AllocError, Global};
use std::fs::Files;
use std::io::{self, ErrorKind};
use std::net::{Net, SocketAddr};

/// The way to the control plane.
#[derive(Drop)]
pub(crate) enum ControlPlane {
    Tcp(TcpPlane),
    Unix(String),
    File(WatchedFile),
    Grpc(GrpcPlane),
}

/// A control plane at a TCP address.
#[derive(Drop)]
pub(crate) struct TcpPlane {
    address: SocketAddr,
    // a stream that is not connected yet
    pending: Option<TcpLink>,
}

/// The way to a control plane that speaks gRPC, and how it is called.
#[derive(Drop)]
pub(crate) struct GrpcPlane {
    way: Way,
    fields: Vec<Field>,
    keepalive: u64,
    shared: Shared,
}

// Where a control plane is that speaks gRPC.
#[derive(Drop)]
enum Way {
    Tcp(TcpPlane),
    Unix(String),
}

impl ControlPlane {
    /// The control plane of these settings.
    pub(crate) fn new(alloc: Global, config: &ServeConfig) -> Result<ControlPlane, AllocError> {
        match &config.control {
            ControlAddress::Tcp(address) => Ok(ControlPlane::Tcp(TcpPlane::new(*address))),
            ControlAddress::Unix(path) => Ok(ControlPlane::Unix(path.clone()?)),
            ControlAddress::File(path) => Ok(ControlPlane::File(WatchedFile::new(path.clone()?))),
            ControlAddress::GrpcTcp(address) => {
                let way = Way::Tcp(TcpPlane::new(*address));
                Ok(ControlPlane::Grpc(GrpcPlane::new(alloc, way, config)?))
            }
            ControlAddress::GrpcUnix(path) => {
                let way = Way::Unix(path.clone()?);
                Ok(ControlPlane::Grpc(GrpcPlane::new(alloc, way, config)?))
            }
        }
    }

    /// Tells its streams the time in milliseconds since a fixed time.
    pub(crate) fn tell(&self, now: u64) {
        if let ControlPlane::Grpc(plane) = self {
            plane.shared.clock.set(now);
        }
    }

    /// Whether it is a file that was read and can still be read.
    pub(crate) fn reads_file(&self) -> bool {
        match self {
            ControlPlane::File(file) => file.is_read(),
            ControlPlane::Tcp(_) | ControlPlane::Unix(_) | ControlPlane::Grpc(_) => false,
        }
    }

    /// Why its last call by gRPC ended, if that was not taken yet.
    pub(crate) fn take_end_words(&self) -> Option<String> {
        match self {
            ControlPlane::Grpc(plane) => plane.shared.end_words.take(),
            _ => None,
        }
    }

    /// What the last look at its file found, if that is to be reported and was not taken yet.
    pub(crate) fn take_look(&mut self) -> Option<Look> {
        match self {
            ControlPlane::File(file) => file.take_look(),
            _ => None,
        }
    }

    /// A stream to it. Fails with `WouldBlock` while it is being connected. The system reports it under this token, unless
    /// it is a file.
    pub(crate) fn connect<R: Files + Net>(
        &mut self,
        alloc: Global,
        rt: &R,
        registry: &Registry,
        token: Token,
    ) -> io::Result<NetStream> {
        match self {
            ControlPlane::Tcp(plane) => Ok(NetStream::Tcp(plane.connect(rt, registry, token)?)),
            ControlPlane::Unix(path) => {
                Ok(NetStream::Unix(connect_unix(rt, path.as_str(), registry, token)?))
            }
            ControlPlane::File(file) => Ok(NetStream::File(file.connect(alloc, rt)?)),
            ControlPlane::Grpc(plane) => {
                let link = match &mut plane.way {
                    Way::Tcp(tcp) => Link::Tcp(tcp.connect(rt, registry, token)?),
                    Way::Unix(path) => {
                        Link::Unix(connect_unix(rt, path.as_str(), registry, token)?)
                    }
                };
                let stream = plane.call(alloc, link)?;
                Ok(NetStream::Grpc(stream))
            }
        }
    }
}

impl GrpcPlane {
    fn new(alloc: Global, way: Way, config: &ServeConfig) -> Result<GrpcPlane, AllocError> {
        Ok(GrpcPlane {
            way,
            fields: call_fields(alloc, &config.control, &config.grpc)?,
            keepalive: config.grpc.keepalive,
            shared: Shared::new(alloc)?,
        })
    }

    // A call over this link.
    fn call(&self, alloc: Global, link: Link) -> io::Result<GrpcStream> {
        GrpcStream::new(alloc, link, &self.fields, &self.shared, self.keepalive)
    }
}

impl TcpPlane {
    fn new(address: SocketAddr) -> TcpPlane {
        TcpPlane {
            address,
            pending: None,
        }
    }

    // A stream to it. Fails with `WouldBlock` while it is being connected.
    fn connect<R: Files + Net>(
        &mut self,
        rt: &R,
        registry: &Registry,
        token: Token,
    ) -> io::Result<TcpLink> {
        let link = match self.pending.take() {
            Some(link) => link,
            None => {
                let mut stream = TcpStream::connect(rt, self.address)?;
                let _ = stream.set_nodelay(true);
                let both = Interest::READABLE | Interest::WRITABLE;
                registry.register(&mut stream, token, both)?;
                TcpLink::connecting(stream)
            }
        };
        connected(link, &mut self.pending)
    }
}

// A stream to the Unix socket at this path.
fn connect_unix<R: Files + Net>(
    rt: &R,
    path: &str,
    registry: &Registry,
    token: Token,
) -> io::Result<UnixStream> {
    let mut stream = UnixStream::connect(rt, path)?;
    let both = Interest::READABLE | Interest::WRITABLE;
    registry.register(&mut stream, token, both)?;
    Ok(stream)
}

// The stream, if it is connected. One that is not yet waits for the next call.
fn connected(link: TcpLink, pending: &mut Option<TcpLink>) -> io::Result<TcpLink> {
    let mut link = link;
    match link.settle() {
        Ok(()) => Ok(link),
        Err(error) => {
            if error.kind() == ErrorKind::WouldBlock {
                *pending = Some(link);
            }
            Err(error)
        }
    }
}
