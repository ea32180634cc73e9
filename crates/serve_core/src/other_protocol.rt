//! Recognises TLS and HTTP/2 in the first bytes of an update stream.
ghost use Rattle.std.specs.Prelude.{◌≡◌, ◌≤◌, ◌++◌, ◌-◌, ◌↔◌, ℕ, List, [], length, take, IsTrue};
ghost use Rattle.serve_loop.specs.Events.{event_view};
ghost use Rattle.serve_core.specs.OtherProtocols.{IsHttp2, IsOfStreamZero, IsSettings, IsTls, Shown, Speaks, updates_then};

use attributes::Conn;
use serve_loop::{Event, Stream};
use std::marker::Model;

// How many bytes of a stream show another protocol.
const ENOUGH: usize = 9;

/// A protocol that a control plane speaks by mistake.
#[derive(Clone, Copy, PartialEq, Eq, Debug)]
pub enum OtherProtocol {
    /// The other end speaks HTTP/2.
    Http2,
    /// The other end speaks TLS.
    Tls,
}

/// The first bytes of the update stream since it was connected, as many as show another protocol.
#[derive(Drop)]
pub(crate) struct FirstBytes {
    // zeros for those that did not come yet
    bytes: [u8; ENOUGH],
    // how many came
    count: usize,
    ghost few: { count ≤ 9 },
}

impl Model for FirstBytes {
    ghost use Rattle.std.specs.Prelude.{ℕ, List, take};

    ghost Value = { List ℕ };

    ghost view = { λ first. take first.count first.bytes };
}

impl FirstBytes {
    /// No bytes.
    pub(crate) fn new() -> FirstBytes
        ensures { result ≡ [] }
    {
        FirstBytes {
            bytes: [0; ENOUGH],
            count: 0,
        }
    }

    /// Takes the bytes of an event. Returns the other protocol that it shows, if it does.
    pub(crate) fn take(&mut self, event: &Event<'_, Conn>) -> Option<OtherProtocol>
        ensures first { (past : List ℕ) → self.old ≡ take 9 past → self.new ≡ take 9 (updates_then (event_view event.now) past) }
        ensures found { (past : List ℕ) → self.old ≡ take 9 past
            → Shown (event_view event.now) (updates_then (event_view event.now) past) result }
    {
        match *event {
            Event::Connected => {
                *self = FirstBytes::new();
                None
            }
            Event::Received(Stream::Updates, bytes) => {
                *self = self.with(bytes);
                other_protocol_in(self.as_slice())
            }
            _ => None,
        }
    }

    // The first of these and of further bytes.
    fn with(&self, bytes: &[u8]) -> FirstBytes
        ensures { result ≡ take 9 (self.now ++ bytes.now) }
    {
        let (own, _rest) = bytes.split_at(bytes.len().min(ENOUGH - self.count));
        let count = self.count + own.len();
        let mut filled = self.bytes;
        filled[self.count..count].copy_from_slice(own);
        FirstBytes {
            bytes: filled,
            count,
        }
    }

    /// How many bytes are missing.
    pub(crate) fn lacks(&self) -> usize
        ensures { result ≡ 9 - length self.now }
    {
        ENOUGH - self.count
    }

    // The bytes.
    fn as_slice(&self) -> &[u8]
        ensures { result.now ≡ self.now }
    {
        &self.bytes[..self.count]
    }
}

// The other protocol that the bytes begin with, if they do. That is the SETTINGS frame with which each HTTP/2
// connection begins, or a record of TLS. No response begins with such bytes.
fn other_protocol_in(first: &[u8]) -> Option<OtherProtocol>
    ensures { Speaks first.now result }
{
    if is_http2(first) {
        return Some(OtherProtocol::Http2);
    }
    if is_tls(first) {
        return Some(OtherProtocol::Tls);
    }
    None
}

// Whether the bytes begin with the head of a SETTINGS frame of HTTP/2 with up to 42 settings.
fn is_http2(first: &[u8]) -> bool
    ensures { IsTrue result ↔ IsHttp2 first.now }
{
    if first.len() < ENOUGH {
        return false;
    }
    is_settings(first) && is_of_stream_zero(&first[4..])
}

// Whether the bytes begin with the length and the type of such a frame.
fn is_settings(first: &[u8]) -> bool
    ensures { IsTrue result ↔ IsSettings first.now }
{
    first.len() >= 4 && first[0] == 0 && first[1] == 0 && first[2] % 6 == 0 && first[3] == 4
}

// Whether the bytes begin with flags, and the number of the stream 0.
fn is_of_stream_zero(rest: &[u8]) -> bool
    ensures { IsTrue result ↔ IsOfStreamZero rest.now }
{
    rest.len() >= 5 && rest[1] == 0 && rest[2] == 0 && rest[3] == 0 && rest[4] == 0
}

// Whether the bytes begin with an alert or a handshake of TLS.
fn is_tls(first: &[u8]) -> bool
    ensures { IsTrue result ↔ IsTls first.now }
{
    first.len() >= 2 && (first[0] == 21 || first[0] == 22) && first[1] == 3
}
