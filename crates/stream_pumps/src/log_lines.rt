//! The lines of a log, as JSON objects. No contract describes them.

use ads::{Client, Ended, Exchange, Judgement, Refused, RequestMeaning, ResponseOutcome, Sent};
use fault_texts::{StreamEnd, fault_of};
use serde_json::{Value, json};
use std::alloc::{AllocError, Global};

/// Who ended a connection.
#[derive(Clone, Copy)]
pub(crate) enum EndedBy {
    /// The client closed it, or a read failed.
    Client,
    /// The proxy closed it, or a write failed, or memory ran out.
    Proxy,
}

/// What happened to an update stream.
#[derive(Clone, Copy)]
pub(crate) enum StreamEvent {
    /// It came up.
    Up,
    /// It could not be connected.
    Unreachable,
    /// It was lost.
    Lost,
}

/// The line for what happened to an update stream, and why the client ended it, if it did.
pub(crate) fn stream_value(
    alloc: Global,
    event: StreamEvent,
    ended: Option<Ended>,
) -> Result<Value, AllocError> {
    let word = match event {
        StreamEvent::Up => "up",
        StreamEvent::Unreachable => "unreachable",
        StreamEvent::Lost => "lost",
    };
    let Some(ended) = ended else {
        return json!(in alloc; {"stream": word});
    };
    let reason = StreamEnd(ended).to_string(alloc)?;
    json!(in alloc; {"stream": word, "reason": reason})
}

/// The line for the end of the connection with this number, counted from 1.
pub(crate) fn connection_value(
    alloc: Global,
    number: u64,
    end: EndedBy,
) -> Result<Value, AllocError> {
    let word = match end {
        EndedBy::Client => "client",
        EndedBy::Proxy => "proxy",
    };
    json!(in alloc; {"connection": number, "end": word})
}

/// The line for a response that this client judged: acknowledged, or refused with the reason and the part of the
/// response that has the fault.
pub(crate) fn judgement_value(
    alloc: Global,
    judgement: &Judgement,
    client: &Client,
) -> Result<Value, AllocError> {
    match &judgement.outcome {
        ResponseOutcome::Accepted(_) => acknowledged_value(alloc, judgement, client.generation()),
        ResponseOutcome::Refused(refused) => refused_value(alloc, judgement, refused, client),
    }
}

// The line for a response that is acknowledged.
fn acknowledged_value(
    alloc: Global,
    judgement: &Judgement,
    generation: u64,
) -> Result<Value, AllocError> {
    json!(in alloc; {
        "update": "acknowledged",
        "version": judgement.version.as_str(),
        "nonce": judgement.nonce.as_str(),
        "generation": generation
    })
}

// The line for a response that is refused for this reason.
fn refused_value(
    alloc: Global,
    judgement: &Judgement,
    refused: &Refused,
    client: &Client,
) -> Result<Value, AllocError> {
    let refusal = refused.fault.refusal;
    let fault = fault_of(alloc, refused, client.config());
    let cause = fault.part.meaning(refusal).to_string(alloc)?;
    json!(in alloc; {
        "update": "refused",
        "version": judgement.version.as_str(),
        "nonce": judgement.nonce.as_str(),
        "refused": refusal.number(),
        "name": refusal.name(),
        "cause": cause,
        "filter": text_or_null(alloc, fault.filter)?,
        "place": text_or_null(alloc, fault.part.place.as_deref())?,
        "generation": client.generation()
    })
}

// The text, or `null`.
fn text_or_null(alloc: Global, text: Option<&str>) -> Result<Value, AllocError> {
    match text {
        Some(text) => Value::try_from_str(alloc, text),
        None => Ok(Value::Null),
    }
}

/// The line for a client's request: it asks for resources, or answers a response.
pub(crate) fn request_value(alloc: Global, exchange: &Exchange) -> Result<Value, AllocError> {
    let word = match &exchange.meaning {
        RequestMeaning::Asks => "asked",
        RequestMeaning::Accepts => "acknowledged",
        RequestMeaning::Refuses(text) => {
            return json!(in alloc; {
                "update": "refused",
                "nonce": exchange.nonce.as_str(),
                "message": text.as_str()
            });
        }
    };
    json!(in alloc; {
        "update": word,
        "version": exchange.version.as_str(),
        "nonce": exchange.nonce.as_str()
    })
}

/// The line for a response of a control plane.
pub(crate) fn sent_value(alloc: Global, sent: &Sent) -> Result<Value, AllocError> {
    let version = sent.snapshot.to_string(alloc)?;
    let nonce = sent.count.to_string(alloc)?;
    json!(in alloc; {"update": "sent", "version": version, "nonce": nonce})
}
