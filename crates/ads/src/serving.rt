//! The serving of the requests of a stream, in order.

ghost use Rattle.std.specs.Prelude.{◌≡◌, ◌≢◌, ◌≤◌, ◌<◌, ◌-◌, ◌^◌, ◌++◌, ℕ, None, [], List, length, decimal, IfOk, IsOk, MatchBool, MatchOption};
ghost use Rattle.std.specs.String.{string_bytes};
ghost use Rattle.xds_wire.specs.Frames.{frame_of};
ghost use Rattle.xds_wire.specs.View.{request_view, texts_view};
ghost use Rattle.ads.specs.Client.{most_bytes};
ghost use Rattle.ads.specs.Control.{Sends, Advances, IsSnapshot, ResourceValue};
ghost use Rattle.ads.specs.Exchanges.{AreExchanged, Says};
ghost use Rattle.ads.specs.declared.exchange.Exchange.{Exchange};
ghost use Rattle.ads.specs.Views.{snapshot_view, snapshots_view, served_view};
ghost use Rattle.ads.specs.private.Serving.{IsKind, AddsReplies, IsServed, IsTaken, MessageIsServed, sent_since};

use crate::ended::Ended;
use crate::exchange::{Exchange, RequestMeaning, Sent};
use crate::judging::EXTENSION_TYPE;
use crate::refused::memory_apart;
use crate::response::{MOST_BYTES, decimal_text, response_bytes};
use crate::snapshot::Snapshot;
use std::alloc::{AllocError, Global};
use xds_wire::{DiscoveryRequest, Frames, read_request, write_frame};

/// The number of the current snapshot, and how many responses were sent. Also the number of the last response on this
/// stream, and of the last acknowledged snapshot.
#[derive(Clone, Copy, Debug)]
pub(crate) struct Served {
    pub(crate) current: usize,
    pub(crate) sent: u64,
    pub(crate) last: Option<u64>,
    pub(crate) acknowledged: Option<u64>,
}

/// The kind of a request.
#[derive(Clone, Copy, Debug)]
pub(crate) enum Kind {
    /// It is the first one of a stream.
    First,
    /// It accepts the last response.
    Ack,
    /// It refuses the last response.
    Nack,
    /// Nothing is done with it.
    Ignored,
}

/// The serving state while bytes are served, with the bytes to send and the exchanges.
#[derive(Debug, Drop)]
pub(crate) struct Serving {
    pub(crate) served: Served,
    pub(crate) replies: Vec<u8>,
    pub(crate) exchanges: Vec<Exchange>,
}

/// Serves the complete messages, up to one that ends the stream. Returns why, if there is one.
pub(crate) fn serve_all(
    alloc: Global,
    snapshots: &[Snapshot],
    serving: &mut Serving,
    frames: &mut Frames,
) -> Result<Option<Ended>, AllocError>
    ensures served { IfOk result (λ reason. (exchanges : List Exchange) × (replies numbers : List ℕ)
        × AreExchanged (snapshots_view snapshots.now) (served_view serving.old.served) frames.old.messages exchanges
        replies numbers (served_view serving.new.served) reason
        × (serving.new.exchanges.items ≡ serving.old.exchanges.items ++ exchanges)
        × (serving.new.replies.items ≡ serving.old.replies.items ++ replies)) }
    ensures frames { (frames.new.max ≡ frames.old.max) × (frames.new.tail ≡ frames.old.tail) }
    ensures taken { IfOk result (λ reason. reason ≡ None → frames.new.messages ≡ []) }
{
    while let Some(message) = frames.next() {
        if let Some(reason) = serve(alloc, snapshots, serving, message.as_slice())? {
            return Ok(Some(reason));
        }
    }
    Ok(None)
}

// Serves a message. Returns why it ends the stream, if it does: it is no request, or its response cannot be sent.
fn serve(
    alloc: Global,
    snapshots: &[Snapshot],
    serving: &mut Serving,
    message: &[u8],
) -> Result<Option<Ended>, AllocError>
    ensures { IfOk result (MessageIsServed (snapshots_view snapshots.now) message.now serving.old serving.new) }
{
    match memory_apart(read_request(alloc, message))? {
        Ok(request) => take_request(alloc, snapshots, serving, &request),
        Err(refusal) => Ok(Some(Ended::BadMessage(refusal))),
    }
}

// Serves a request, and appends the exchange. Returns why it ends the stream, if it does.
fn take_request(
    alloc: Global,
    snapshots: &[Snapshot],
    serving: &mut Serving,
    request: &DiscoveryRequest<'_>,
) -> Result<Option<Ended>, AllocError>
    ensures { IfOk result (IsTaken (snapshots_view snapshots.now) (request_view request.now) serving.old serving.new) }
{
    let before = serving.served.sent;
    let replies = &mut serving.replies;
    let ends = serve_request(alloc, snapshots, &mut serving.served, replies, request)?;
    let exchange = exchange_of(alloc, request, sent_since(before, &serving.served))?;
    serving.exchanges.push(exchange)?;
    if ends {
        return Ok(Some(Ended::Unsendable));
    }
    Ok(None)
}

// The response that was sent last, if more were sent than before.
fn sent_since(before: u64, served: &Served) -> Option<Sent>
    ensures { result ≡ sent_since before (served_view served.now) }
{
    if served.sent == before {
        return None;
    }
    Some(Sent {
        snapshot: served.current as u64,
        count: served.sent,
    })
}

// The exchange of a request for which this response was sent.
fn exchange_of(
    alloc: Global,
    request: &DiscoveryRequest<'_>,
    sent: Option<Sent>,
) -> Result<Exchange, AllocError>
    ensures version { IfOk result (λ x. string_bytes x.version ≡ (request_view request.now).version_info) }
    ensures nonce { IfOk result (λ x. string_bytes x.nonce ≡ (request_view request.now).response_nonce) }
    ensures says { IfOk result (λ x. Says (request_view request.now) x.meaning) }
    ensures sent { IfOk result (λ x. x.sent ≡ sent) }
{
    Ok(Exchange {
        version: String::from_str(alloc, request.version_info)?,
        nonce: String::from_str(alloc, request.response_nonce)?,
        meaning: meaning_of_request(alloc, request)?,
        sent,
    })
}

// What a request says.
fn meaning_of_request(
    alloc: Global,
    request: &DiscoveryRequest<'_>,
) -> Result<RequestMeaning, AllocError>
    ensures { IfOk result (Says (request_view request.now)) }
{
    let Some(status) = &request.error_detail else {
        if request.response_nonce.is_empty() {
            return Ok(RequestMeaning::Asks);
        }
        return Ok(RequestMeaning::Accepts);
    };
    Ok(RequestMeaning::Refuses(String::from_str(alloc, status.message)?))
}

// Serves a request. Returns whether it ends the stream.
fn serve_request(
    alloc: Global,
    snapshots: &[Snapshot],
    served: &mut Served,
    replies: &mut Vec<u8>,
    request: &DiscoveryRequest<'_>,
) -> Result<bool, AllocError>
    ensures { IfOk result (IsServed (snapshots_view snapshots.now) (request_view request.now)
        (served_view served.old) replies.old.items replies.new.items (served_view served.new)) }
{
    let names = &request.resource_names;
    match kind_of(alloc, request, served)? {
        Kind::First => send(alloc, snapshots, served, replies, names),
        Kind::Ack => {
            served.acknowledged = Some(served.current as u64);
            advance(alloc, snapshots, served, replies, names)
        }
        Kind::Nack => advance(alloc, snapshots, served, replies, names),
        Kind::Ignored => Ok(false),
    }
}

// The kind of a request, after what was served.
fn kind_of(
    alloc: Global,
    request: &DiscoveryRequest<'_>,
    served: &Served,
) -> Result<Kind, AllocError>
    ensures { IfOk result (IsKind (served_view served.now) (request_view request.now)) }
{
    if request.type_url != EXTENSION_TYPE {
        return Ok(Kind::Ignored);
    }
    let Some(last) = served.last else {
        if request.response_nonce.is_empty() {
            return Ok(Kind::First);
        }
        return Ok(Kind::Ignored);
    };
    if !is_number(alloc, request.response_nonce, last)? {
        return Ok(Kind::Ignored);
    }
    if request.error_detail.is_some() {
        return Ok(Kind::Nack);
    }
    if is_number(alloc, request.version_info, served.current as u64)? {
        return Ok(Kind::Ack);
    }
    Ok(Kind::Ignored)
}

// Whether the text is the number in decimal.
fn is_number(alloc: Global, text: &str, number: u64) -> Result<bool, AllocError>
    ensures { IfOk result (λ is. MatchBool is (text.now ≡ decimal number) (text.now ≢ decimal number)) }
{
    let digits = decimal_text(alloc, number)?;
    Ok(digits.as_str() == text)
}

// Makes the next snapshot, if there is one, the current one and sends it. Returns whether that ends the stream.
fn advance(
    alloc: Global,
    snapshots: &[Snapshot],
    served: &mut Served,
    replies: &mut Vec<u8>,
    names: &[&str],
) -> Result<bool, AllocError>
    ensures { IfOk result (λ ends. AddsReplies (λ added. Advances (snapshots_view snapshots.now)
        (texts_view names.now) (served_view served.old) added (served_view served.new) ends)
        replies.old.items replies.new.items) }
{
    if served.current >= snapshots.len() {
        return Ok(false);
    }
    served.current += 1;
    send(alloc, snapshots, served, replies, names)
}

// Sends the current snapshot, if there is one. The stream ends, and nothing is sent, if the response is too long or
// its number does not fit in 64 bits. Returns whether the stream ends.
fn send(
    alloc: Global,
    snapshots: &[Snapshot],
    served: &mut Served,
    replies: &mut Vec<u8>,
    names: &[&str],
) -> Result<bool, AllocError>
    ensures sent { IfOk result (λ ends. AddsReplies (λ added. Sends (snapshots_view snapshots.now)
        (texts_view names.now) (served_view served.old) added (served_view served.new) ends)
        replies.old.items replies.new.items) }
    ensures too_many { 2 ^ 64 - 1 ≤ served.old.sent → IsOk result }
{
    let Some(snapshot) = snapshot_at(snapshots, served.current) else {
        return Ok(false);
    };
    let Some(count) = served.sent.checked_add(1) else {
        return Ok(true);
    };
    let message = response_bytes(alloc, snapshot, names, served.current, count)?;
    if put_message(&message, replies)? {
        return Ok(true);
    }
    served.sent = count;
    served.last = Some(count);
    Ok(false)
}

// Appends the frame of a message, unless the message is too long. Returns whether it is; if it is, no memory is taken.
fn put_message(message: &[u8], replies: &mut Vec<u8>) -> Result<bool, AllocError>
    ensures found { IfOk result (λ is. MatchBool is
        ((most_bytes < length message.now) × (replies.new.items ≡ replies.old.items))
        ((length message.now ≤ most_bytes)
        × (replies.new.items ≡ replies.old.items ++ frame_of message.now))) }
    ensures too_long { most_bytes < length message.now → IsOk result }
{
    if message.len() > MOST_BYTES {
        return Ok(true);
    }
    write_frame(message, replies)?;
    Ok(false)
}

// The snapshot of this number, if there is one.
fn snapshot_at(snapshots: &[Snapshot], number: usize) -> Option<&Snapshot>
    ensures { MatchOption result
        ((s : List ResourceValue) → IsSnapshot (snapshots_view snapshots.now) number s → ⊥)
        (λ s. IsSnapshot (snapshots_view snapshots.now) number (snapshot_view s.now)) }
{
    let place = number.checked_sub(1)?;
    snapshots.get(place)
}
