//! What is known of a connection.
ghost use Rattle.std.specs.Prelude.{◌≡◌, IfOk, OnOk};
ghost use Rattle.attributes.specs.Address.{unmapped};
ghost use Rattle.attributes.specs.Conn.{conn_view};
ghost use Rattle.serve_host.specs.Known.{AreFactsAt, IsDestination, IsSource, number_of};

use attributes::{Conn, Ip};
use serve_net::Accepted;
use std::alloc::{AllocError, Global};
use std::net::{IpAddr, Ipv4Addr, Ipv6Addr, SocketAddr};
use std::sync::ArcStr;

/// What is known of a connection: what is known of each, and its addresses.
pub(crate) fn conn_of(alloc: Global, known: &Conn, accepted: &Accepted) -> Result<Conn, AllocError>
    ensures { IfOk result (AreFactsAt (conn_view known.now) accepted.now.peer accepted.now.local) }
{
    let mut conn = known.copy()?;
    set_source(alloc, &mut conn, accepted.peer)?;
    set_destination(alloc, &mut conn, accepted.local)?;
    Ok(conn)
}

// The connection comes from this address, if it has one.
fn set_source(alloc: Global, conn: &mut Conn, peer: Option<SocketAddr>) -> Result<(), AllocError>
    ensures { OnOk result (IsSource peer (conn_view conn.old) (conn_view conn.new)) }
{
    let Some(peer) = peer else {
        return Ok(());
    };
    conn.source_address = Some(address_text(alloc, &peer)?);
    conn.source_port = Some(peer.port());
    conn.direct_remote_ip = Some(ip_of(peer.ip()));
    Ok(())
}

// The connection goes to this address, if it has one.
fn set_destination(
    alloc: Global,
    conn: &mut Conn,
    local: Option<SocketAddr>,
) -> Result<(), AllocError>
    ensures { OnOk result (IsDestination local (conn_view conn.old) (conn_view conn.new)) }
{
    let Some(local) = local else {
        return Ok(());
    };
    conn.destination_address = Some(address_text(alloc, &local)?);
    conn.destination_port = Some(local.port());
    conn.destination_ip = Some(ip_of(local.ip()));
    Ok(())
}

// An address with its port, as Envoy writes it in `source.address`.
fn address_text(alloc: Global, address: &SocketAddr) -> Result<ArcStr, AllocError> {
    let port = address.port();
    let text = match ip_of(address.ip()) {
        Ip::V4(bits) => {
            let ip = Ipv4Addr::from_bits(bits);
            format!(in alloc; "{ip}:{port}")?
        }
        Ip::V6(bits) => {
            let ip = Ipv6Addr::from_bits(bits);
            format!(in alloc; "[{ip}]:{port}")?
        }
    };
    ArcStr::from_str(alloc, text.as_str())
}

// The address as a number; one of IPv4 that is written as one of IPv6 (RFC 4291, section 2.5.5.2) is one of IPv4.
fn ip_of(address: IpAddr) -> Ip
    ensures { result ≡ unmapped (number_of address) }
{
    let number = match address {
        IpAddr::V4(address) => Ip::V4(address.to_bits()),
        IpAddr::V6(address) => Ip::V6(address.to_bits()),
    };
    number.unmapped()
}
