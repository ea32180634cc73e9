//! What bytes look like that are no message of the kind that is wanted. No contract describes the guess.

use proto_wire::{Payload, Reader};
use std::fmt;

/// What a file that is no filter message looks like.
#[derive(Clone, Copy)]
pub enum GuessedFormat {
    /// No bytes.
    Empty,
    /// A JSON text.
    Json,
    /// A YAML or other text.
    Yaml,
    /// A text of hexadecimal digits.
    Hex,
    /// A text in base64.
    Base64,
    /// A gzip file.
    Gzip,
    /// A `google.protobuf.Any`.
    Any,
    /// An `envoy.config.core.v3.TypedExtensionConfig`.
    TypedExtensionConfig,
    /// An `envoy.config.rbac.v3.RBAC` without a filter around it.
    BareRules,
    /// A filter's message without a response around it.
    Filter,
}

impl fmt::Display for GuessedFormat {
    fn fmt<W: fmt::Write>(&self, f: &mut fmt::Formatter<W>) -> fmt::Result {
        f.write_str(match self {
            GuessedFormat::Empty => "an empty file",
            GuessedFormat::Json => "JSON, which `tools/policy/policy encode` turns into bytes",
            GuessedFormat::Yaml => {
                "YAML or other text, which `tools/policy/policy encode` turns into bytes"
            }
            GuessedFormat::Hex => "hexadecimal text",
            GuessedFormat::Base64 => "base64 text",
            GuessedFormat::Gzip => "a gzip file",
            GuessedFormat::Any => "a google.protobuf.Any",
            GuessedFormat::TypedExtensionConfig => "an envoy.config.core.v3.TypedExtensionConfig",
            GuessedFormat::BareRules => "a bare envoy.config.rbac.v3.RBAC",
            GuessedFormat::Filter => {
                "a bare filter, which `tools/policy/policy wrap` puts into a response"
            }
        })
    }
}

// The beginning of the type URL of an Any.
const TYPE_START: &[u8] = b"type.googleapis.com/";

// The field number of `rules` in a filter message.
const RULES: u32 = 1;

// The field number of `type_url` in a response.
const TYPE_URL: u32 = 4;

/// What the bytes look like, if they are plainly no filter message. Call it only if the file's own fields may be wrong.
pub fn likeness_of(bytes: &[u8]) -> Option<GuessedFormat> {
    if bytes.starts_with(&[0x1f, 0x8b]) {
        return Some(GuessedFormat::Gzip);
    }
    if begins_as_any(bytes) {
        return Some(GuessedFormat::Any);
    }
    let fields = first_fields(bytes);
    if fields.has_any {
        return Some(GuessedFormat::TypedExtensionConfig);
    }
    match bytes.first() {
        None => Some(GuessedFormat::Empty),
        Some(0x08 | 0x12) if !fields.has_rules => Some(GuessedFormat::BareRules),
        Some(_) if bytes.iter().all(|&byte| is_printed(byte)) => Some(likeness_of_text(bytes)),
        _ => None,
    }
}

/// What the bytes look like, if they are plainly no response of a control plane. No bytes look like nothing.
pub fn likeness_of_response(bytes: &[u8]) -> Option<GuessedFormat> {
    if bytes.starts_with(&[0x1f, 0x8b]) {
        return Some(GuessedFormat::Gzip);
    }
    if begins_as_any(bytes) {
        return Some(GuessedFormat::Any);
    }
    let fields = first_fields(bytes);
    match bytes.first() {
        None => None,
        Some(_) if fields.has_type => None,
        Some(_) if fields.has_any => Some(GuessedFormat::TypedExtensionConfig),
        Some(0x08 | 0x12) => Some(GuessedFormat::BareRules),
        Some(_) if is_text(bytes) => Some(likeness_of_text(bytes)),
        Some(_) if fields.has_filter => Some(GuessedFormat::Filter),
        Some(_) => None,
    }
}

// Whether the bytes begin like an Any, with a type URL. A filter's rules never do, since their field 1 is a number.
fn begins_as_any(bytes: &[u8]) -> bool {
    bytes.first() == Some(&0x0a) && bytes.get(2..).unwrap_or(&[]).starts_with(TYPE_START)
}

// What the fields of a file include, up to its end or to bytes that are no field.
#[derive(Clone, Copy)]
struct FirstFields {
    // Whether one field has the number and the wire type of a filter's rules.
    has_rules: bool,
    // Whether such a field begins like rules: with an action or a policy.
    has_filter: bool,
    // Whether one field begins like an Any.
    has_any: bool,
    // Whether one field has the number of a response's type, and begins like one.
    has_type: bool,
}

fn first_fields(bytes: &[u8]) -> FirstFields {
    let mut found = FirstFields {
        has_rules: false,
        has_filter: false,
        has_any: false,
        has_type: false,
    };
    let mut reader = Reader::new(bytes);
    for _ in bytes {
        let Ok(Some(field)) = reader.next() else {
            return found;
        };
        if let Payload::Len(inner) = field.payload {
            let is_rules = field.number == RULES;
            found.has_rules |= is_rules;
            found.has_filter |= is_rules && matches!(inner.first(), Some(0x08 | 0x12));
            found.has_any |= begins_as_any(inner);
            found.has_type |= field.number == TYPE_URL && inner.starts_with(TYPE_START);
        }
    }
    found
}

// Whether the bytes are a text in UTF-8.
fn is_text(bytes: &[u8]) -> bool {
    str::from_utf8(bytes).is_ok() && bytes.iter().all(|&byte| is_printed(byte))
}

// Whether the byte may be part of a text.
fn is_printed(byte: u8) -> bool {
    byte >= 0x80 || byte.is_ascii_graphic() || byte.is_ascii_whitespace()
}

// What the text looks like.
fn likeness_of_text(text: &[u8]) -> GuessedFormat {
    if matches!(text.trim_ascii_start().first(), Some(b'{' | b'[')) {
        return GuessedFormat::Json;
    }
    if text
        .iter()
        .all(|b| b.is_ascii_hexdigit() || b.is_ascii_whitespace())
    {
        return GuessedFormat::Hex;
    }
    if text.iter().all(|b| b.is_ascii_alphanumeric()
        || b.is_ascii_whitespace()
        || b"+/=-_".contains(b))
    {
        return GuessedFormat::Base64;
    }
    GuessedFormat::Yaml
}
