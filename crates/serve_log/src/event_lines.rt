//! The lines of a record: events as JSON objects, as a replay reads them.
ghost use Rattle.std.specs.Prelude.{◌≡◌, IfOk, string_bytes};
ghost use Rattle.attributes.specs.Conn.{conn_view};
ghost use Rattle.hex.specs.Hex.{encode_lower};
ghost use Rattle.serde_json.specs.View.{view};
ghost use Rattle.proxy_core.specs.Events.{ads_bytes, ads_lost, ads_up, http_bytes, http_closed, http_open};
ghost use Rattle.serve_log.specs.Lines.{closed_json, event_text, fed_json, opened_json, plain_json, received_json};

use crate::facts::facts_value;
use attributes::Conn;
use serde_json::{Value, json};
use std::alloc::{AllocError, Global};

/// The update stream comes up.
pub(crate) fn up_line(alloc: Global) -> Result<String, AllocError>
    ensures { IfOk result (λ text. string_bytes text ≡ event_text ads_up) }
{
    plain_value(alloc, "ads_up")?.to_string(alloc)
}

/// The update stream is lost.
pub(crate) fn lost_line(alloc: Global) -> Result<String, AllocError>
    ensures { IfOk result (λ text. string_bytes text ≡ event_text ads_lost) }
{
    plain_value(alloc, "ads_lost")?.to_string(alloc)
}

fn plain_value(alloc: Global, name: &str) -> Result<Value, AllocError>
    ensures { IfOk result (λ value. view value ≡ plain_json name.now) }
{
    json!(in alloc; {"event": name})
}

/// The update stream delivers these bytes.
pub(crate) fn fed_line(alloc: Global, bytes: &[u8]) -> Result<String, AllocError>
    ensures { IfOk result (λ text. string_bytes text ≡ event_text (ads_bytes bytes.now)) }
{
    fed_value(alloc, bytes)?.to_string(alloc)
}

fn fed_value(alloc: Global, bytes: &[u8]) -> Result<Value, AllocError>
    ensures { IfOk result (λ value. view value ≡ fed_json bytes.now) }
{
    let text = hex_text(alloc, bytes)?;
    json!(in alloc; {"event": "ads_bytes", "hex": text})
}

/// The connection of this number opens, with these facts.
pub(crate) fn opened_line(alloc: Global, k: u64, facts: &Conn) -> Result<String, AllocError>
    ensures { IfOk result (λ text. string_bytes text ≡ event_text (http_open k (conn_view facts.now))) }
{
    let facts = facts_value(alloc, facts)?;
    let value = opened_value(alloc, k, facts)?;
    value.to_string(alloc)
}

fn opened_value(alloc: Global, k: u64, facts: Value) -> Result<Value, AllocError>
    ensures { IfOk result (λ value. view value ≡ opened_json k (view facts)) }
{
    json!(in alloc; {"event": "http_open", "k": k, "facts": facts})
}

/// The connection of this number delivers these bytes.
pub(crate) fn received_line(alloc: Global, k: u64, bytes: &[u8]) -> Result<String, AllocError>
    ensures { IfOk result (λ text. string_bytes text ≡ event_text (http_bytes k bytes.now)) }
{
    received_value(alloc, k, bytes)?.to_string(alloc)
}

fn received_value(alloc: Global, k: u64, bytes: &[u8]) -> Result<Value, AllocError>
    ensures { IfOk result (λ value. view value ≡ received_json k bytes.now) }
{
    let text = hex_text(alloc, bytes)?;
    json!(in alloc; {"event": "http_bytes", "k": k, "hex": text})
}

/// The connection of this number is closed.
pub(crate) fn closed_line(alloc: Global, k: u64) -> Result<String, AllocError>
    ensures { IfOk result (λ text. string_bytes text ≡ event_text (http_closed k)) }
{
    closed_value(alloc, k)?.to_string(alloc)
}

fn closed_value(alloc: Global, k: u64) -> Result<Value, AllocError>
    ensures { IfOk result (λ value. view value ≡ closed_json k) }
{
    json!(in alloc; {"event": "http_closed", "k": k})
}

// Bytes as hexadecimal pairs in lower case.
fn hex_text(alloc: Global, bytes: &[u8]) -> Result<String, AllocError>
    ensures { IfOk result (λ text. string_bytes text ≡ encode_lower bytes.now) }
{
    hex::encode(alloc, bytes)
}
