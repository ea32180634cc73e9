//! grpc-message: its octets are percent-encoded (gRPC's PROTOCOL-HTTP2, Responses).

ghost use Rattle.std.specs.Prelude.{◌≡◌, ◌≤◌, ◌<◌, ◌∷◌, IfOk, IfSome, map, None, true, List, ℕ, drop, length};
ghost use Rattle.hpack.specs.Field.{line_of};
ghost use Rattle.http2.specs.Controls.{told_view};
ghost use Rattle.http2.specs.Message.{is_hex, hex_of, decoded, told_in, told_at};

use crate::answer::value_of;
use hpack::Field;
use std::alloc::{AllocError, Global};

// The most octets of a message that are kept.
const MOST_TEXT: usize = 1_024;

/// What grpc-message told: its first octets, and how many more there were.
#[derive(Debug, Drop)]
pub(crate) struct Message {
    pub(crate) text: Vec<u8>,
    pub(crate) cut: usize,
}

// Whether an octet is a digit of base 16.
fn is_hex(digit: u8) -> bool
    ensures { result ≡ is_hex digit }
{
    (digit >= 48 && digit < 58) || (digit >= 65 && digit < 71) || (digit >= 97 && digit < 103)
}

// The value of a digit of base 16.
fn hex_of(digit: u8) -> u8
    requires { is_hex digit ≡ true }
    ensures value { result ≡ hex_of digit }
    ensures small { result < 16 }
{
    if digit < 58 {
        return digit - 48;
    }
    if digit < 71 {
        return digit - 55;
    }
    digit - 87
}

// The octet that the first three encode, if they are a code.
fn coded(text: &[u8]) -> Option<u8>
    ensures code { IfSome result (λ octet. (3 ≤ length text.now) × (decoded text.now ≡ octet ∷ decoded (drop 3 text.now))) }
    ensures plain { (byte : ℕ) (rest : List ℕ) → result ≡ None → text.now ≡ byte ∷ rest
        → decoded text.now ≡ byte ∷ decoded rest }
{
    match text {
        [37, a, b, ..] => {
            if !is_hex(*a) || !is_hex(*b) {
                return None;
            }
            Some(hex_of(*a) * 16 + hex_of(*b))
        }
        _ => None,
    }
}

// The octets that a value encodes.
fn decoded(alloc: Global, value: &[u8]) -> Result<Vec<u8>, AllocError>
    ensures { IfOk result (λ text. text.items ≡ decoded value.now) }
{
    let mut text = Vec::new(alloc);
    let mut rest = value;
    'codes: while let Some((byte, others)) = rest.split_first() {
        match coded(rest) {
            Some(octet) => {
                text.push(octet)?;
                rest = &rest[3..];
            }
            None => {
                text.push(*byte)?;
                rest = others;
            }
        }
    }
    Ok(text)
}

impl Message {
    /// No message.
    pub(crate) fn new(alloc: Global) -> Message
        ensures { told_view result ≡ told_at None }
    {
        Message {
            text: Vec::new(alloc),
            cut: 0,
        }
    }

    /// What fields tell.
    pub(crate) fn of(alloc: Global, fields: &[Field]) -> Result<Message, AllocError>
        ensures { IfOk result (λ m. told_view m ≡ told_in (map line_of fields.now)) }
    {
        let Some(value) = value_of(fields, b"grpc-message".as_slice()) else {
            return Ok(Message::new(alloc));
        };
        let mut text = decoded(alloc, value)?;
        let cut = text.len().saturating_sub(MOST_TEXT);
        text.truncate(MOST_TEXT);
        Ok(Message { text, cut })
    }
}
