//! The front of a connection, the asks in its bytes, and the answers.

ghost use Rattle.std.specs.Prelude.{◌≡◌, ◌++◌, map, IfOk, IsOk};
ghost use Rattle.attributes.specs.Conn.{conn_view};
ghost use Rattle.attributes.specs.Limits.{FactsInLimits};
ghost use Rattle.ads.specs.Ends.{client_view};
ghost use Rattle.http_front.specs.Answer.{answer_of, reply_view};
ghost use Rattle.proxy_core.specs.Chain.{IsReplyTo};
ghost use Rattle.proxy_core.specs.Step.{AnswersAsks, AsksAsWritten, DecidesAsWritten, CompletesAsks, OpensFront, AnswersBytes};
ghost use Rattle.proxy_core.specs.private.Fronts.{IsOpenFor};
ghost use Rattle.proxy_core.specs.private.Deciding.{AskInLimits, TriesNoFilter};

use crate::answered_ask::AnsweredAsk;
use crate::chain::judged;
use ads::Client;
use attributes::Conn;
use http_front::{Ask, Case, Front, Reply};
use std::alloc::{AllocError, Global};

/// The front of a new connection with these facts; none if they are outside the limits. Then no memory is taken.
pub(crate) fn open_front(
    alloc: Global,
    client: &Client,
    conn: &Conn,
) -> Result<Option<Front>, AllocError>
    ensures found { IfOk result
        (OpensFront (client_view client.now).config.limits (conn_view conn.now)) }
    ensures fits { IfOk result (IsOpenFor (client_view client.now).config.limits) }
    ensures unfit { (FactsInLimits (conn_view conn.now) (client_view client.now).config.limits → ⊥)
        → IsOk result }
{
    let limits = *client.config().limits();
    if !limits.fits_conn(conn) {
        return Ok(None);
    }
    let front = Front::new(alloc, limits, conn.copy()?);
    Ok(Some(front))
}

/// The answers to the asks that the bytes complete, and the front that has read them; none if the connection closes
/// after the answers. Also the asks with the answers.
pub(crate) fn take_bytes(
    alloc: Global,
    client: &Client,
    front: Front,
    bytes: &[u8],
) -> Result<(Vec<u8>, Option<Front>, Vec<AnsweredAsk>), AllocError>
    requires { front.limits ≡ (client_view client.now).config.limits }
    ensures found { IfOk result (λ r.
        AnswersBytes (client_view client.now).accepted front bytes.now r.2.items r.0.items r.1) }
    ensures fits { IfOk result (λ r. IsOpenFor (client_view client.now).config.limits r.1) }
{
    let (front, answers, answered_asks) = answer_asks(alloc, client, front, bytes)?;
    if front.is_closed() {
        return Ok((answers, None, answered_asks));
    }
    Ok((answers, Some(front), answered_asks))
}

// The front that has read the bytes, the answers to the asks that they complete, and the asks with the answers.
fn answer_asks(
    alloc: Global,
    client: &Client,
    front: Front,
    bytes: &[u8],
) -> Result<(Front, Vec<u8>, Vec<AnsweredAsk>), AllocError>
    requires { front.limits ≡ (client_view client.now).config.limits }
    ensures { IfOk result (λ r. CompletesAsks front bytes.now (map (λ t. t.ask) r.2.items) r.0
        × AnswersAsks (client_view client.now).accepted r.2.items r.1.items) }
{
    let mut front = front;
    front.feed(bytes)?;
    let mut out = Vec::new(alloc);
    let mut answered_asks = Vec::new(alloc);
    while let Some(ask) = front.next()? {
        let reply = answer_to(alloc, client, &ask, &mut out)?;
        answered_asks.push(AnsweredAsk { ask, reply })?;
    }
    Ok((front, out, answered_asks))
}

// Appends the answer to an ask, and returns it.
fn answer_to(
    alloc: Global,
    client: &Client,
    ask: &Ask,
    out: &mut Vec<u8>,
) -> Result<Reply, AllocError>
    requires { AskInLimits (client_view client.now).config.limits ask.now }
    ensures is { IfOk result (λ reply. IsReplyTo DecidesAsWritten AsksAsWritten
        (client_view client.now).accepted ask.now (reply_view reply)) }
    ensures put { IfOk result (λ reply. out.new.items ≡ out.old.items ++ answer_of (reply_view reply)) }
{
    let reply = reply_to(alloc, client, ask)?;
    let bytes = Front::answer(alloc, &reply)?;
    out.extend_from_slice(&bytes)?;
    Ok(reply)
}

// The answer to an ask. If no filter is tried, it takes no memory.
fn reply_to(alloc: Global, client: &Client, ask: &Ask) -> Result<Reply, AllocError>
    requires { AskInLimits (client_view client.now).config.limits ask.now }
    ensures found { IfOk result (λ reply. IsReplyTo DecidesAsWritten AsksAsWritten
        (client_view client.now).accepted ask.now (reply_view reply)) }
    ensures sure { TriesNoFilter (client_view client.now).accepted ask.now → IsOk result }
{
    match ask {
        Ask::Judge(request, closes) => {
            let (case, matches) = judged(alloc, client.policies(), request)?;
            Ok(Reply {
                case,
                matches,
                generation: client.generation(),
                closes: *closes,
                is_head: request.method() == "HEAD",
            })
        }
        Ask::Fault(fault) => Ok(Reply {
            case: Case::Fault(*fault),
            matches: Vec::new(alloc),
            generation: client.generation(),
            closes: true,
            is_head: false,
        }),
    }
}
