//! The lines of updates.

use crate::decision::put_time;
use crate::object::Object;
use serde_json::Value;
use std::alloc::{AllocError, Global};

/// A response that is acknowledged.
#[derive(Clone, Copy)]
pub struct Acknowledged<'a> {
    /// The version of the response.
    pub version: &'a str,
    /// The nonce of the response.
    pub nonce: &'a str,
    /// The number of accepted responses, with this one.
    pub generation: u64,
    /// How long it took to judge the response.
    pub milliseconds: u64,
}

/// A response that is refused.
#[derive(Clone, Copy)]
pub struct Refused<'a> {
    /// The version of the response.
    pub version: &'a str,
    /// The nonce of the response.
    pub nonce: &'a str,
    /// The number of accepted responses, as before.
    pub generation: u64,
    /// The number of the reason.
    pub number: u8,
    /// The name of the reason.
    pub name: &'a str,
    /// The reason in words.
    pub cause: &'a str,
    /// The filter that has the fault, if it is known.
    pub filter: Option<&'a str>,
    /// The part of the filter that has the fault, if it is known.
    pub place: Option<&'a str>,
    /// How long it took to judge the response.
    pub milliseconds: u64,
}

/// What a response that is acknowledged leaves open.
#[derive(Clone, Copy)]
pub struct Incomplete<'a> {
    /// The version of the response.
    pub version: &'a str,
    /// The nonce of the response.
    pub nonce: &'a str,
    /// The number of accepted responses, with this one.
    pub generation: u64,
    /// The filters that are without policies: none came yet, or they have none.
    pub without_policies: &'a [&'a str],
    /// The names of its resources that nobody asked for.
    pub unasked: &'a [&'a str],
}

/// What happened to the update stream.
#[derive(Clone, Copy)]
pub enum Update<'a> {
    /// It came up.
    Up,
    /// It could not be connected, for this cause.
    Unreachable(&'a str),
    /// The call that it is was ended, for this cause.
    Ended(&'a str),
    /// It was lost, for the reason of this word.
    Lost(&'a str),
    /// A response was accepted.
    Accepted(Acknowledged<'a>),
    /// A response was refused.
    Refused(Refused<'a>),
    /// A response that was accepted leaves filters without policies, or has names that nobody asked for.
    Incomplete(Incomplete<'a>),
}

/// The line of an update: a JSON object. Its time is in milliseconds since 1970. A stream has the member `stream`
/// (`up`, `unreachable` or `ended` with `cause`, or `lost` with `reason`), a response the member `update` (`acknowledged`,
/// `refused` or `incomplete`). The number of a reason is `refused`, and what is not known is `null`.
pub fn update_line(alloc: Global, time: u64, update: &Update<'_>) -> Result<String, AllocError> {
    let mut object = Object::new(alloc);
    put_time(alloc, &mut object, time)?;
    match update {
        Update::Up => object.put_text("stream", "up")?,
        Update::Unreachable(cause) => {
            object.put_text("stream", "unreachable")?;
            object.put_text("cause", cause)?;
        }
        Update::Ended(cause) => {
            object.put_text("stream", "ended")?;
            object.put_text("cause", cause)?;
        }
        Update::Lost(reason) => {
            object.put_text("stream", "lost")?;
            object.put_text("reason", reason)?;
        }
        Update::Accepted(accepted) => put_accepted(&mut object, accepted)?,
        Update::Refused(refused) => put_refused(&mut object, refused)?,
        Update::Incomplete(incomplete) => put_incomplete(alloc, &mut object, incomplete)?,
    }
    object.line()
}

// Puts a response that is accepted.
fn put_accepted(object: &mut Object, accepted: &Acknowledged<'_>) -> Result<(), AllocError> {
    object.put_text("update", "acknowledged")?;
    object.put_text("version", accepted.version)?;
    object.put_text("nonce", accepted.nonce)?;
    object.put_number("generation", accepted.generation)?;
    object.put_number("milliseconds", accepted.milliseconds)
}

// How many names a list of a line has at most. Its length is a member of its own.
const MOST_NAMES: usize = 16;
// The greatest number of bytes of such a name. Of a longer one there is the beginning.
const MOST_BYTES: usize = 128;

// Puts a response that leaves something open.
fn put_incomplete(
    alloc: Global,
    object: &mut Object,
    incomplete: &Incomplete<'_>,
) -> Result<(), AllocError> {
    object.put_text("update", "incomplete")?;
    object.put_text("version", incomplete.version)?;
    object.put_text("nonce", incomplete.nonce)?;
    object.put_number("generation", incomplete.generation)?;
    let without = incomplete.without_policies;
    object.put("without_policies", names_value(alloc, without)?)?;
    let unasked = incomplete.unasked;
    object.put_number("unasked_count", unasked.len() as u64)?;
    object.put("unasked", names_value(alloc, unasked)?)
}

// The first of these names, each at most so long.
fn names_value(alloc: Global, names: &[&str]) -> Result<Value, AllocError> {
    let mut values = Vec::new(alloc);
    for name in names.iter().take(MOST_NAMES) {
        let end = name.floor_char_boundary(MOST_BYTES);
        let shown = name.get(..end).unwrap_or("");
        values.push(Value::try_from_str(alloc, shown)?)?;
    }
    Ok(Value::Array(values))
}

// Puts a response that is refused.
fn put_refused(object: &mut Object, refused: &Refused<'_>) -> Result<(), AllocError> {
    object.put_text("update", "refused")?;
    object.put_text("version", refused.version)?;
    object.put_text("nonce", refused.nonce)?;
    object.put_number("generation", refused.generation)?;
    object.put_number("milliseconds", refused.milliseconds)?;
    put_reason(object, refused)
}

// Puts why a response is refused.
fn put_reason(object: &mut Object, refused: &Refused<'_>) -> Result<(), AllocError> {
    object.put_number("refused", refused.number as u64)?;
    object.put_text("name", refused.name)?;
    object.put_text("cause", refused.cause)?;
    object.put_or_null("filter", refused.filter)?;
    object.put_or_null("place", refused.place)
}
