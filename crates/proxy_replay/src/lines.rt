//! The lines of a replay: events as JSON objects, and outputs in four words.
ghost use Rattle.std.specs.Prelude.{◌≡◌, ◌≢◌, ◌⊎◌, ◌↔◌, ℕ, List, Some, None, IfOk, IfErr, OnErr, OnOk, if◌then◌else◌, find, option_map, string_bytes};
ghost use Rattle.std.specs.Str.{bytes_eq};
ghost use Rattle.attributes.specs.Conn.{Facts, conn_view};
ghost use Rattle.hex.specs.declared.error.FromHexError.TheVariants.{OutOfMemory};
ghost use Rattle.proxy_core.specs.Events.{EventValue, event_view, output_view};
ghost use Rattle.serde_json.specs.View.{view};
ghost use Rattle.program_texts.specs.Members.{HasOnly};
ghost use Rattle.proxy_replay.specs.Lines.{HasFacts, HasHex, HasParts, IsEvent, IsLine, bytes_word, end_word, kind_of, line_view, name_of, names_of, words_of};
ghost use Rattle.proxy_replay.specs.Replays.{seen_by};
ghost use Rattle.program_texts.specs.declared.line_fault.LineFault.TheVariants.{BadLine, Memory};

use attributes::Conn;
use hex::FromHexError;
use program_texts::{
    FactsFault, InvalidValue, LineFault, cause_of_bad_value, conn_of, number_at, require_names,
    str_at,
};
use proxy_core::{Event, Output};
use serde_json::Value;
use std::alloc::{AllocError, Global};

/// The kind of an event.
#[derive(Clone, Copy)]
pub(crate) enum EventKind {
    /// The update stream comes up.
    AdsUp,
    /// The update stream delivers bytes.
    AdsBytes,
    /// The update stream is lost.
    AdsLost,
    /// A connection opens.
    HttpOpen,
    /// A connection delivers bytes.
    HttpBytes,
    /// A connection is closed.
    HttpClosed,
}

// Every kind.
const KINDS: [EventKind; 6] = [
    EventKind::AdsUp,
    EventKind::AdsBytes,
    EventKind::AdsLost,
    EventKind::HttpOpen,
    EventKind::HttpBytes,
    EventKind::HttpClosed,
];

impl EventKind {
    // The name of the kind in a line.
    fn name(self) -> &'static str
        ensures { result.now ≡ name_of self }
    {
        match self {
            EventKind::AdsUp => "ads_up",
            EventKind::AdsBytes => "ads_bytes",
            EventKind::AdsLost => "ads_lost",
            EventKind::HttpOpen => "http_open",
            EventKind::HttpBytes => "http_bytes",
            EventKind::HttpClosed => "http_closed",
        }
    }

    // The kind of this name, if there is one.
    fn named(name: &str) -> Option<EventKind>
        ensures { (kind : EventKind) → (result ≡ Some kind) ↔ (name.now ≡ name_of kind) }
    {
        kind_named(&KINDS, name)
    }
}

// The first of these kinds that has the name.
fn kind_named(kinds: &[EventKind], name: &str) -> Option<EventKind>
    ensures { result ≡ find (λ kind. bytes_eq (name_of kind) name.now) kinds.now }
{
    kinds.iter().copied().find(|kind| kind.name() == name)
}

/// An event, with the bytes and the facts of a line.
#[derive(Drop)]
pub enum LineEvent {
    /// The update stream comes up.
    AdsUp,
    /// The update stream delivers these bytes.
    AdsBytes(Vec<u8>),
    /// The update stream is lost.
    AdsLost,
    /// A connection of this number opens, with these facts.
    HttpOpen(u64, Conn),
    /// The connection of this number delivers these bytes.
    HttpBytes(u64, Vec<u8>),
    /// The connection of this number is closed.
    HttpClosed(u64),
}

impl LineEvent {
    /// The event, with the bytes and the facts borrowed.
    pub fn event(&self) -> Event<'_>
        ensures { event_view result ≡ line_view self.now }
    {
        match self {
            LineEvent::AdsUp => Event::AdsUp,
            LineEvent::AdsBytes(bytes) => Event::AdsBytes(bytes),
            LineEvent::AdsLost => Event::AdsLost,
            LineEvent::HttpOpen(k, conn) => Event::HttpOpen(*k, conn),
            LineEvent::HttpBytes(k, bytes) => Event::HttpBytes(*k, bytes),
            LineEvent::HttpClosed(k) => Event::HttpClosed(*k),
        }
    }

    /// The event as a replay sees it: as it is. If a connection is named, its own are those of connection 0, and there are
    /// none of others.
    pub(crate) fn seen_by(self, only: Option<u64>) -> Option<LineEvent>
        ensures { option_map line_view result ≡ seen_by only (line_view self) }
    {
        let Some(k) = only else {
            return Some(self);
        };
        match self {
            LineEvent::AdsUp => Some(LineEvent::AdsUp),
            LineEvent::AdsBytes(bytes) => Some(LineEvent::AdsBytes(bytes)),
            LineEvent::AdsLost => Some(LineEvent::AdsLost),
            LineEvent::HttpOpen(j, conn) => seen_if(k == j, LineEvent::HttpOpen(0, conn)),
            LineEvent::HttpBytes(j, bytes) => seen_if(k == j, LineEvent::HttpBytes(0, bytes)),
            LineEvent::HttpClosed(j) => seen_if(k == j, LineEvent::HttpClosed(0)),
        }
    }
}

// The event, if it is seen.
fn seen_if(is_seen: bool, event: LineEvent) -> Option<LineEvent>
    ensures { option_map line_view result ≡ (if is_seen then Some (line_view event) else None) }
{
    if is_seen { Some(event) } else { None }
}

/// The event of a JSON text (RFC 8259): an object whose `event` is `ads_up`, `ads_bytes`, `ads_lost`, `http_open`,
/// `http_bytes` or `http_closed`. Bytes are hexadecimal pairs in `hex`. The number of a connection is `k`, below 2^64,
/// and its facts are an object as in `read_facts`. Each member of an event is required, and no other is allowed. Of two
/// members with the same name the last counts. `BadLine` if the text is no event, `Memory` if memory ran out.
pub fn line_event(alloc: Global, line: &str) -> Result<LineEvent, LineFault>
    ensures found { IfOk result (λ event. IsLine line.now (line_view event)) }
    ensures fault { IfErr result (λ e. e ≡ BadLine → (event : EventValue) → ¬ IsLine line.now event) }
{
    let value = Value::from_str(alloc, line)?;
    event_at(alloc, &value)
}

// The event of a JSON value.
fn event_at(alloc: Global, value: &Value) -> Result<LineEvent, LineFault>
    ensures found { IfOk result (λ event. IsEvent (view value.now) (line_view event)) }
    ensures fault { IfErr result (λ e. e ≡ BadLine → (event : EventValue) → ¬ IsEvent (view value.now) event) }
{
    let name = str_at(value, "event")?;
    let Some(kind) = EventKind::named(name) else {
        return Err(LineFault::BadLine);
    };
    require_members(value, kind)?;
    parts_at(alloc, value, kind)
}

// Refuses a value that has members which an event of this kind does not have.
fn require_members(value: &Value, kind: EventKind) -> Result<(), InvalidValue>
    ensures found { OnOk result (HasOnly (names_of kind) (view value.now)) }
    ensures fault { OnErr result (¬ HasOnly (names_of kind) (view value.now)) }
{
    match kind {
        EventKind::AdsUp | EventKind::AdsLost => require_names(value, &["event"]),
        EventKind::AdsBytes => require_names(value, &["event", "hex"]),
        EventKind::HttpOpen => require_names(value, &["event", "k", "facts"]),
        EventKind::HttpBytes => require_names(value, &["event", "k", "hex"]),
        EventKind::HttpClosed => require_names(value, &["event", "k"]),
    }
}

// The event of this kind, with the other members of a value.
fn parts_at(alloc: Global, value: &Value, kind: EventKind) -> Result<LineEvent, LineFault>
    ensures kind { IfOk result (λ event. kind_of (line_view event) ≡ kind) }
    ensures found { IfOk result (λ event. HasParts (view value.now) (line_view event)) }
    ensures fault { IfErr result (λ e. e ≡ BadLine → (event : EventValue) → kind_of event ≡ kind
        → ¬ HasParts (view value.now) event) }
{
    match kind {
        EventKind::AdsUp => Ok(LineEvent::AdsUp),
        EventKind::AdsBytes => Ok(LineEvent::AdsBytes(hex_at(alloc, value)?)),
        EventKind::AdsLost => Ok(LineEvent::AdsLost),
        EventKind::HttpOpen => {
            let k = number_at(value, "k")?;
            let conn = facts_at(alloc, value)?;
            Ok(LineEvent::HttpOpen(k, conn))
        }
        EventKind::HttpBytes => {
            let k = number_at(value, "k")?;
            let bytes = hex_at(alloc, value)?;
            Ok(LineEvent::HttpBytes(k, bytes))
        }
        EventKind::HttpClosed => Ok(LineEvent::HttpClosed(number_at(value, "k")?)),
    }
}

// The bytes of the member `hex`.
fn hex_at(alloc: Global, object: &Value) -> Result<Vec<u8>, LineFault>
    ensures found { IfOk result (λ bytes. HasHex (view object.now) bytes.items) }
    ensures fault { IfErr result (λ e. e ≡ BadLine → (bytes : List ℕ) → ¬ HasHex (view object.now) bytes) }
{
    let text = str_at(object, "hex")?;
    match hex::decode(alloc, text.as_bytes()) {
        Ok(bytes) => Ok(bytes),
        Err(error) => Err(hex_fault(error)),
    }
}

// The fault of a line whose `hex` has this fault.
fn hex_fault(error: FromHexError) -> LineFault
    ensures { result ≡ BadLine → error ≢ OutOfMemory }
{
    match error {
        FromHexError::OutOfMemory => LineFault::Memory,
        FromHexError::InvalidHexCharacter { .. }
        | FromHexError::OddLength
        | FromHexError::InvalidStringLength => LineFault::BadLine,
    }
}

// The facts of the member `facts`.
fn facts_at(alloc: Global, object: &Value) -> Result<Conn, LineFault>
    ensures found { IfOk result (λ conn. HasFacts (view object.now) (conn_view conn)) }
    ensures fault { IfErr result (λ e. e ≡ BadLine → (facts : Facts) → ¬ HasFacts (view object.now) facts) }
{
    let Some(value) = object.get("facts") else {
        return Err(LineFault::BadLine);
    };
    match conn_of(alloc, value) {
        Ok(conn) => Ok(conn),
        Err(FactsFault::Memory) => Err(LineFault::Memory),
        Err(FactsFault::Bad) => Err(LineFault::BadLine),
    }
}

/// An output in four words, separated by spaces. The first is the bytes for the update stream as hexadecimal pairs, or
/// `-` for none. The second is `close` or `open`, whether that stream is closed. The others are the same for the
/// event's connection.
pub fn line_text(alloc: Global, output: &Output) -> Result<String, AllocError>
    ensures { IfOk result (λ text. string_bytes text ≡ words_of (output_view output.now)) }
{
    let ads = bytes_text(alloc, &output.ads)?;
    let ads_end = end_text(output.ads_close);
    let http = bytes_text(alloc, &output.http)?;
    let http_end = end_text(output.http_close);
    format!(in alloc; "{ads} {ads_end} {http} {http_end}")
}

// Bytes as a word.
fn bytes_text(alloc: Global, bytes: &[u8]) -> Result<String, AllocError>
    ensures { IfOk result (λ text. string_bytes text ≡ bytes_word bytes.now) }
{
    if bytes.is_empty() {
        return String::from_str(alloc, "-");
    }
    hex::encode(alloc, bytes)
}

// The word for whether something is closed.
fn end_text(closes: bool) -> &'static str
    ensures { result.now ≡ end_word closes }
{
    if closes { "close" } else { "open" }
}

/// Why a line is no event, in words for its author.
pub(crate) fn cause_of_bad_line(alloc: Global, line: &[u8]) -> Result<String, AllocError> {
    let value = match Value::from_slice(alloc, line) {
        Ok(value) => value,
        Err(error) => return format!(in alloc; "it is not a JSON text: {error}"),
    };
    let Ok(name) = str_at(&value, "event") else {
        return String::from_str(alloc, "it is not a JSON object with a text \"event\"");
    };
    let Some(kind) = EventKind::named(name) else {
        return format!(in alloc; "there is no event {name:?}");
    };
    cause_of_bad_parts(alloc, &value, kind)
}

// Why the members of a value are not those of an event of this kind.
fn cause_of_bad_parts(alloc: Global, value: &Value, kind: EventKind) -> Result<String, AllocError> {
    let name = kind.name();
    if require_members(value, kind).is_err() {
        return format!(in alloc; "it has a member that {name} does not have");
    }
    if value.get("k").is_some() && number_at(value, "k").is_err() {
        return String::from_str(alloc, "the value of k is not a whole number below 2^64");
    }
    if let Some(facts) = value.get("facts") {
        if let Some(cause) = cause_of_bad_value(alloc, facts)? {
            return Ok(cause);
        }
    }
    format!(in alloc; "{name} lacks a member, or its hex is not a text of hexadecimal pairs")
}
