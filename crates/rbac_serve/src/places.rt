//! The places of connections.

ghost use Rattle.std.specs.Prelude.{◌≡◌, ◌<◌, ◌++◌, ℕ, List, Some, IfOk, OnErr, set, slice_get, vec_len};
ghost use Rattle.ads.specs.Ends.{client_view};
ghost use Rattle.rbac_serve.specs.Tables.{FitsFor};
ghost use Rattle.rbac_serve.specs.private.ConnectionStates.{AnswersConnection, free_connection, free_connections};

use crate::connection::ConnectionState;
use crate::outbox::Outbox;
use crate::results::Answered;
use ads::Client;
use std::alloc::{AllocError, Global};
use std::mem;

/// A place in which no connection is open, and nothing waits.
pub(crate) fn new_connection(alloc: Global) -> ConnectionState
    ensures { result ≡ free_connection }
{
    ConnectionState {
        session: None,
        outbox: Outbox::new(alloc),
    }
}

/// So many places in which no connection is open.
pub(crate) fn new_connections(
    alloc: Global,
    places: usize,
) -> Result<Vec<ConnectionState>, AllocError>
    ensures { IfOk result (λ connections. connections.items ≡ free_connections places) }
{
    let mut connections = Vec::new(alloc);
    'adding: while connections.len() < places {
        connections.push(new_connection(alloc))?;
    }
    Ok(connections)
}

/// Puts a connection in a place, and returns the one that was there.
pub(crate) fn put_connection(
    connections: &mut Vec<ConnectionState>,
    k: usize,
    connection: ConnectionState,
) -> ConnectionState
    requires { k < vec_len connections.old }
    ensures before { slice_get connections.old.items k ≡ Some result }
    ensures after { connections.new.items ≡ set connections.old.items k connection }
{
    mem::replace(&mut connections[k], connection)
}

/// The connection after it delivered bytes, whose answers wait after those that waited. Also what was asked and
/// answered.
pub(crate) fn answer_connection(
    alloc: Global,
    client: &Client,
    connection: ConnectionState,
    bytes: &[u8],
) -> Result<(ConnectionState, Answered), AllocError>
    requires { FitsFor (client_view client.now).config.limits connection.session }
    ensures fits { IfOk result (λ r. FitsFor (client_view client.now).config.limits r.0.session) }
    ensures found { IfOk result (λ r. (http : List ℕ) × AnswersConnection connection.session (client_view client.now).accepted
        bytes.now r.1.answered_asks.items http r.0.session r.1.closes × (r.0.outbox ≡ connection.outbox ++ http)) }
{
    let ConnectionState {
        session,
        mut outbox,
    } = connection;
    let Some(session) = session else {
        let answered_asks = Vec::new(alloc);
        return Ok((
            ConnectionState {
                session: None,
                outbox,
            },
            Answered {
                answered_asks,
                closes: false,
            },
        ));
    };
    let (answers, session, answered_asks) = session.take(alloc, client, bytes)?;
    outbox.add(answers)?;
    let closes = session.is_none();
    Ok((
        ConnectionState { session, outbox },
        Answered {
            answered_asks,
            closes,
        },
    ))
}
