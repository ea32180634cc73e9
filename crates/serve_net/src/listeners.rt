//! Where a server listens.

use crate::accepted::Accepted;
use crate::fault::OpenFault;
use crate::inherited::Inherited;
use crate::listener::{Arrival, Listener};
use crate::turn::after;
use crate::unix_path;
use mio::net::TcpListener;
use mio::{Registry, Token};
use serve_config::Address;
use std::alloc::{AllocError, Global};
use std::fs::Files;
use std::io::{self, ErrorKind};
use std::net::{Net, SocketAddr};

/// The listening sockets of a server. They are accepted from in turn.
#[derive(Drop)]
pub(crate) struct Listeners {
    all: Vec<Listener>,
    // connections of inherited sockets, which the system will not report
    first: Vec<Arrival>,
    // which is tried first
    next: usize,
}

impl Listeners {
    /// Takes the sockets that a supervisor opened. No socket of this process may be open yet: a descriptor that the
    /// supervisor did not open could otherwise be one of them.
    pub(crate) fn inherited(alloc: Global, listen: &[Address]) -> Result<Listeners, OpenFault> {
        let mut all = Vec::new(alloc);
        let mut first = Vec::new(alloc);
        let mut taken: Vec<i32> = Vec::new(alloc);
        for address in listen {
            let Address::Descriptor(descriptor) = address else {
                continue;
            };
            let inherited = if taken.contains(descriptor) {
                Err(io::Error::from(ErrorKind::AddrInUse))
            } else {
                Inherited::take(*descriptor)
            };
            let inherited = match inherited {
                Ok(inherited) => inherited,
                Err(error) => return Err(fault(alloc, address, error)),
            };
            all.push(inherited.listener)?;
            if let Some(arrival) = inherited.first {
                first.push(arrival)?;
            }
            taken.push(*descriptor)?;
        }
        Ok(Listeners {
            all,
            first,
            next: 0,
        })
    }

    /// Opens the other sockets.
    pub(crate) fn open<R: Files + Net>(
        &mut self,
        alloc: Global,
        rt: &R,
        listen: &[Address],
    ) -> Result<(), OpenFault> {
        for address in listen {
            let opened = match address {
                Address::Tcp(place) => TcpListener::bind(rt, *place).map(Listener::Tcp),
                Address::Unix(path) => unix_path::listen(alloc, rt, path).map(Listener::Unix),
                Address::Descriptor(_) => continue,
            };
            match opened {
                Ok(listener) => self.all.push(listener)?,
                Err(error) => return Err(fault(alloc, address, error)),
            }
        }
        Ok(())
    }

    /// Has all reported under this token.
    pub(crate) fn register(&mut self, registry: &Registry, token: Token) -> io::Result<()> {
        for listener in self.all.iter_mut() {
            listener.register(registry, token)?;
        }
        Ok(())
    }

    /// Whether a connection waits that the system will not report.
    pub(crate) fn has_first(&self) -> bool {
        !self.first.is_empty()
    }

    /// The next connection: the listeners are tried in turn. Fails with `WouldBlock` once none has one.
    pub(crate) fn accept(&mut self, registry: &Registry, token: Token) -> io::Result<Accepted> {
        if let Some(arrival) = self.first.pop() {
            return arrival.accepted(registry, token);
        }
        let count = self.all.len();
        for _ in 0..count {
            let at = self.next;
            if at >= count {
                break;
            }
            self.next = after(at, count);
            let Some(listener) = self.all.get_mut(at) else {
                break;
            };
            match listener.accept() {
                Ok(arrival) => return arrival.accepted(registry, token),
                Err(error) if error.kind() == ErrorKind::WouldBlock => {}
                Err(error) => return Err(error),
            }
        }
        Err(io::Error::from(ErrorKind::WouldBlock))
    }

    /// The addresses of the TCP sockets, those of inherited ones first.
    pub(crate) fn addresses(&self, alloc: Global) -> Result<Vec<SocketAddr>, AllocError> {
        let mut found = Vec::new(alloc);
        for listener in self.all.iter() {
            if let Some(address) = listener.address() {
                found.push(address)?;
            }
        }
        Ok(found)
    }
}

// The fault of an address, which is named as it is configured.
fn fault(alloc: Global, address: &Address, error: io::Error) -> OpenFault {
    let named = match address {
        Address::Tcp(place) => format!(in alloc; "{place}"),
        Address::Unix(path) => format!(in alloc; "unix:{path}"),
        Address::Descriptor(descriptor) => format!(in alloc; "fd:{descriptor}"),
    };
    match named {
        Ok(address) => OpenFault::Listen { address, error },
        Err(AllocError) => OpenFault::Memory(AllocError),
    }
}
