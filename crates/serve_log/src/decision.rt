//! The lines of decisions.

use crate::object::Object;
use crate::recorder::RecordPosition;
use crate::time::time_text;
use serde_json::Value;
use std::alloc::{AllocError, Global};

/// A decision on a request.
#[derive(Clone, Copy)]
pub struct Decision<'a> {
    /// Milliseconds since 1970.
    pub time: u64,
    /// The number of the connection.
    pub connection: u64,
    /// The address of the peer.
    pub peer: Option<&'a str>,
    /// The method of the request, if its head has one.
    pub method: Option<&'a str>,
    /// The target of the request, if its head has one.
    pub target: Option<&'a str>,
    /// The host of the request, if its head has one.
    pub host: Option<&'a str>,
    /// `allow`, `deny` or another word of the answer.
    pub verdict: &'a str,
    /// The status of the answer.
    pub status: u16,
    /// The name of the filter that decided.
    pub filter: Option<&'a str>,
    /// The name of the policy that matched.
    pub policy: Option<&'a str>,
    /// The number of responses of the control plane that were accepted.
    pub generation: u64,
    /// What is wrong with the head of the request.
    pub fault: Option<&'a str>,
    /// Where the record has the last bytes of the request.
    pub record: Option<&'a RecordPosition>,
}

/// The line of a decision: a JSON object whose members are the fields, in the order of their names. What is absent is
/// `null`. The member `record` is an object with `file` and `line`.
pub fn decision_line(alloc: Global, decision: &Decision<'_>) -> Result<String, AllocError> {
    let mut object = Object::new(alloc);
    put_time(alloc, &mut object, decision.time)?;
    put_request(&mut object, decision)?;
    put_answer(&mut object, decision)?;
    object.put("record", position_value(alloc, decision.record)?)?;
    object.line()
}

// Puts the connection and the request.
fn put_request(object: &mut Object, decision: &Decision<'_>) -> Result<(), AllocError> {
    object.put_number("connection", decision.connection)?;
    object.put_or_null("peer", decision.peer)?;
    object.put_or_null("method", decision.method)?;
    object.put_or_null("target", decision.target)?;
    object.put_or_null("host", decision.host)?;
    object.put_or_null("fault", decision.fault)
}

// Puts the answer, and what decided.
fn put_answer(object: &mut Object, decision: &Decision<'_>) -> Result<(), AllocError> {
    object.put_text("verdict", decision.verdict)?;
    object.put_number("status", decision.status as u64)?;
    object.put_or_null("filter", decision.filter)?;
    object.put_or_null("policy", decision.policy)?;
    object.put_number("generation", decision.generation)
}

/// Puts a time as a text; `null` after the year 9999.
pub(crate) fn put_time(
    alloc: Global,
    object: &mut Object,
    milliseconds: u64,
) -> Result<(), AllocError> {
    match time_text(alloc, milliseconds)? {
        Some(text) => object.put("time", Value::String(text)),
        None => object.put("time", Value::Null),
    }
}

// A place in the record, or `null`.
fn position_value(alloc: Global, position: Option<&RecordPosition>) -> Result<Value, AllocError> {
    let Some(position) = position else {
        return Ok(Value::Null);
    };
    let mut object = Object::new(alloc);
    object.put_number("file", position.file)?;
    object.put_number("line", position.line)?;
    Ok(object.value())
}
