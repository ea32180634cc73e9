//! A connection that was accepted.

use crate::stream::NetStream;
use std::net::SocketAddr;

/// A connection that was accepted. A listener of IPv6 that also serves IPv4 gives the addresses of IPv4 as IPv6 ones
/// (`::ffff:192.0.2.1`), as the system does.
#[derive(Drop)]
pub struct Accepted {
    pub stream: NetStream,
    /// The address of the other end; none at a Unix socket.
    pub peer: Option<SocketAddr>,
    /// The address of this end; none at a Unix socket.
    pub local: Option<SocketAddr>,
}
