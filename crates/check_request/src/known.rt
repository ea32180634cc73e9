//! The facts of a connection, as a CheckRequest gives them.

ghost use Rattle.std.specs.Prelude.{◌≡◌, IfOk, OnOk};
ghost use Rattle.std.specs.Arc.{arc_str_bytes};
ghost use Rattle.std.specs.Option.{option_map};
ghost use Rattle.attributes.specs.Conn.{conn_view};
ghost use Rattle.check_request.specs.Facts.{facts_of, with_destination, with_principal, with_server_name, with_source};
ghost use Rattle.check_request.specs.View.{known_view, socket_view};

use crate::part::PrincipalName;
use crate::socket::{Socket, address_text};
use attributes::{Conn, server_name};
use std::alloc::{AllocError, Global};
use std::sync::ArcStr;

/// What is said of a connection. An empty text says that there is none.
#[derive(Clone, Copy, Debug)]
pub(crate) struct Known<'a> {
    pub scheme: &'a str,
    pub source: Option<Socket<'a>>,
    pub destination: Option<Socket<'a>>,
    pub principal: &'a str,
    pub server_name: &'a str,
}

/// The facts that this says; `name` says which name of a certificate the principal is.
pub(crate) fn conn_of(
    alloc: Global,
    name: PrincipalName,
    known: &Known<'_>,
) -> Result<Conn, AllocError>
    ensures { IfOk result (λ conn. conn_view conn ≡ facts_of name (known_view known.now)) }
{
    let mut conn = Conn::of_scheme(ArcStr::from_str(alloc, known.scheme)?);
    put_source(alloc, &mut conn, &known.source)?;
    put_destination(alloc, &mut conn, &known.destination)?;
    put_server_name(alloc, &mut conn, known.server_name)?;
    put_principal(alloc, &mut conn, name, known.principal)?;
    Ok(conn)
}

fn put_source(alloc: Global, conn: &mut Conn, socket: &Option<Socket<'_>>) -> Result<(), AllocError>
    ensures { OnOk result (conn_view conn.new
        ≡ with_source (option_map socket_view socket.now) (conn_view conn.old)) }
{
    let Some(socket) = socket else {
        return Ok(());
    };
    conn.source_address = Some(address_text(alloc, socket)?);
    conn.source_port = Some(socket.port);
    conn.remote_ip = Some(socket.ip);
    Ok(())
}

fn put_destination(
    alloc: Global,
    conn: &mut Conn,
    socket: &Option<Socket<'_>>,
) -> Result<(), AllocError>
    ensures { OnOk result (conn_view conn.new
        ≡ with_destination (option_map socket_view socket.now) (conn_view conn.old)) }
{
    let Some(socket) = socket else {
        return Ok(());
    };
    conn.destination_address = Some(address_text(alloc, socket)?);
    conn.destination_port = Some(socket.port);
    conn.destination_ip = Some(socket.ip);
    Ok(())
}

fn put_server_name(alloc: Global, conn: &mut Conn, name: &str) -> Result<(), AllocError>
    ensures { OnOk result (conn_view conn.new ≡ with_server_name name.now (conn_view conn.old)) }
{
    if !name.is_empty() {
        conn.requested_server_name = Some(server_name(alloc, name)?);
    }
    Ok(())
}

fn put_principal(
    alloc: Global,
    conn: &mut Conn,
    name: PrincipalName,
    principal: &str,
) -> Result<(), AllocError>
    ensures { OnOk result (conn_view conn.new
        ≡ with_principal name principal.now (conn_view conn.old)) }
{
    if principal.is_empty() {
        return Ok(());
    }
    let text = ArcStr::from_str(alloc, principal)?;
    conn.mtls = Some(true);
    match name {
        PrincipalName::UriSan => conn.uri_san_peer_certificate = Some(text),
        PrincipalName::DnsSan => conn.dns_san_peer_certificate = Some(text),
        PrincipalName::Subject => conn.subject_peer_certificate = Some(text),
    }
    Ok(())
}
