//! Connections and requests, made once for many decisions.

ghost use Rattle.std.specs.Prelude.{◌≡◌, ◌≢◌, Some, None, IfOk, IfErr, IsTrue, Err};
ghost use Rattle.attributes.specs.Conn.{conn_view};
ghost use Rattle.attributes.specs.Limits.{largest};
ghost use Rattle.c_inputs.specs.Requests.{are_too_long, parts_given};
ghost use Rattle.vupresal_c.specs.Decisions.{Fails, too_long};
ghost use Rattle.vupresal_c.specs.Handles.{facts_in, request_in};
ghost use Rattle.vupresal_c.specs.Making.{AreTooLongOn, ConnectionFails, HeadMakesNone, IsOfHead, IsOfParts, IsOpened, Makes, PartsMakeNone};
ghost use Rattle.vupresal_c.specs.Statuses.{done, status_of};
ghost use Rattle.vupresal_c.specs.declared.fault.Fault.{Fault as FaultValue};

use crate::connection::Connection;
use crate::fault::{Fault, OK};
use crate::made_request::MadeRequest;
use attributes::{Conn, Limits, Request};
use c_inputs::{FactsInput, RequestInput, conn_of};
use c_slots::{Made, Opened};
use http_front::{HeadAsk, HeadFault, HeadParts, read_head, request_of_parts};
use std::alloc::Global;

/// Checks the facts of a connection, and puts the connection into the handle, instead of what it held. The status is 0,
/// or 400 for a text that is not UTF-8 or has more than 65,536 bytes. It is -2 for a port or an address out of range, and 19 without
/// memory. If it is not 0, the handle is empty, so no request is made on what it held.
#[unsafe(no_mangle)]
pub extern "C" fn vupresal_connection_new(
    alloc: Global,
    connection: &mut Connection,
    facts: &FactsInput<'_>,
) -> i32
    ensures found { result ≡ done → IsOpened facts.now (facts_in connection.new) }
    ensures fault { result ≢ done
        → (e : FaultValue) × ConnectionFails facts.now e × (result ≡ status_of e) }
    ensures emptied { result ≢ done → facts_in connection.new ≡ None }
{
    drop(connection.take(alloc));
    match opened(alloc, facts) {
        Ok(opened) => {
            connection.put(opened);
            OK
        }
        Err(fault) => fault.status(),
    }
}

// The connection of these facts, in a box.
fn opened(alloc: Global, facts: &FactsInput<'_>) -> Result<Box<Opened>, Fault>
    ensures found { IfOk result (λ opened.
        IsOpened facts.now (Some (conn_view opened.value.conn))) }
    ensures fault { IfErr result (ConnectionFails facts.now) }
{
    let conn = conn_of(alloc, facts)?;
    Ok(Box::new(alloc, Opened { conn })?)
}

/// Makes a request of its parts on the connection, and puts it into the handle, instead of what that held. The status is 0,
/// or 400, 431 or 501 for parts at fault, by the greatest limits. It is -1 for an empty connection, -2 for a protocol out of range,
/// and 19 without memory.
/// If it is not 0, the handle is empty, so nothing is decided on what it held. If the lengths of the parts put them outside the
/// limits, no byte of a part is read.
#[unsafe(no_mangle)]
pub extern "C" fn vupresal_request_of_parts(
    alloc: Global,
    made: &mut MadeRequest,
    connection: &mut Connection,
    request: &RequestInput<'_>,
) -> i32
    ensures found { result ≡ done
        → Makes (IsOfParts request.now) (facts_in connection.old) (request_in made.new) }
    ensures fault { result ≢ done → (e : FaultValue)
        × Fails (facts_in connection.old) (PartsMakeNone request.now) e
        × (result ≡ status_of e) }
    ensures long { AreTooLongOn (parts_given request.now) (facts_in connection.old)
        → result ≡ status_of too_long }
    ensures emptied { result ≢ done → request_in made.new ≡ None }
    ensures same { facts_in connection.new ≡ facts_in connection.old }
{
    drop(made.take(alloc));
    let Some(opened) = connection.take(alloc) else {
        return Fault::Empty.status();
    };
    let answer = made_of_parts(alloc, &opened.conn, request);
    connection.put(opened);
    match answer {
        Ok(request) => {
            made.put(request);
            OK
        }
        Err(fault) => fault.status(),
    }
}

/// Makes a request of a head of HTTP/1 on the connection, and puts it into the handle, instead of what that held. The status is
/// as for parts, and 400 also for a head that is not whole. If it is not 0, the handle is empty.
#[unsafe(no_mangle)]
pub extern "C" fn vupresal_request_of_head(
    alloc: Global,
    made: &mut MadeRequest,
    connection: &mut Connection,
    head: &[u8],
) -> i32
    ensures found { result ≡ done
        → Makes (IsOfHead head.now) (facts_in connection.old) (request_in made.new) }
    ensures fault { result ≢ done → (e : FaultValue)
        × Fails (facts_in connection.old) (HeadMakesNone head.now) e
        × (result ≡ status_of e) }
    ensures emptied { result ≢ done → request_in made.new ≡ None }
    ensures same { facts_in connection.new ≡ facts_in connection.old }
{
    drop(made.take(alloc));
    let Some(opened) = connection.take(alloc) else {
        return Fault::Empty.status();
    };
    let answer = made_of_head(alloc, &opened.conn, head);
    connection.put(opened);
    match answer {
        Ok(request) => {
            made.put(request);
            OK
        }
        Err(fault) => fault.status(),
    }
}

/// The request of these parts, in a box. Their lengths are tested before they are read.
pub(crate) fn made_of_parts(
    alloc: Global,
    conn: &Conn,
    request: &RequestInput<'_>,
) -> Result<Box<Made>, Fault>
    ensures found { IfOk result (λ made.
        IsOfParts request.now (conn_view conn.now) made.value.request) }
    ensures fault { IfErr result (PartsMakeNone request.now (conn_view conn.now)) }
    ensures long { IsTrue (are_too_long largest (parts_given request.now))
        → result ≡ Err too_long }
{
    if request.is_too_long(&Limits::largest()) {
        return Err(Fault::Head(HeadFault::OutsideLimits));
    }
    let request = read_parts(alloc, conn, request)?;
    Ok(Box::new(alloc, Made { request })?)
}

// The request of parts that are read.
fn read_parts(alloc: Global, conn: &Conn, request: &RequestInput<'_>) -> Result<Request, Fault>
    ensures found { IfOk result (IsOfParts request.now (conn_view conn.now)) }
    ensures fault { IfErr result (PartsMakeNone request.now (conn_view conn.now)) }
{
    let Some(protocol) = request.given_protocol() else {
        return Err(Fault::OutOfRange);
    };
    let parts = HeadParts {
        method: request.method,
        target: request.target,
        protocol,
        lines: request.lines,
    };
    match request_of_parts(alloc, &Limits::largest(), conn.copy()?, &parts)? {
        Ok(request) => Ok(request),
        Err(fault) => Err(Fault::Head(fault)),
    }
}

/// The request of a head, in a box.
pub(crate) fn made_of_head(alloc: Global, conn: &Conn, head: &[u8]) -> Result<Box<Made>, Fault>
    ensures found { IfOk result (λ made.
        IsOfHead head.now (conn_view conn.now) made.value.request) }
    ensures fault { IfErr result (HeadMakesNone head.now (conn_view conn.now)) }
{
    match read_head(alloc, head, &Limits::largest(), conn.copy()?)? {
        Some(HeadAsk::Judge(request)) => Ok(Box::new(alloc, Made { request })?),
        Some(HeadAsk::Fault(fault)) => Err(Fault::Head(fault)),
        None => Err(Fault::Unfinished),
    }
}
