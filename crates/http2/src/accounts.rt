//! What a frame says to flow control, and what data it brings.

ghost use Rattle.std.specs.Prelude.{◌≡◌, ◌≤◌, ◌<◌, ◌+◌, ◌-◌, ◌^◌, ◌↔◌, IsTrue, length, drop, IfSome, IfNone};
ghost use Rattle.http2.specs.Frame.{data_on, flow_of, flow_on, increment_of, window_in, window_first, window_after, is_pong, mark_of};
ghost use Rattle.http2.specs.Trail.{ponged};

use crate::frame::{DATA, Frame, PING, SETTINGS, UPDATE, word};

/// How many bytes of the frame count.
pub(crate) fn flow(frame: &Frame) -> usize
    ensures { result ≡ flow_of frame.now.bytes.items }
{
    if frame.kind() == DATA {
        return frame.payload().len();
    }
    0
}

/// How many bytes of the frame count on a stream.
pub(crate) fn flow_on(stream: u32, frame: &Frame) -> usize
    ensures found { result ≡ flow_on stream frame.now.bytes.items }
    ensures few { result ≤ flow_of frame.now.bytes.items }
{
    if frame.stream() != stream {
        return 0;
    }
    flow(frame)
}

/// What the frame brings on a stream.
pub(crate) fn data(stream: u32, frame: &Frame) -> &[u8]
    ensures found { result.now ≡ data_on stream frame.now.bytes.items }
    ensures short { length result.now ≤ flow_on stream frame.now.bytes.items }
{
    if frame.kind() != DATA || frame.stream() != stream {
        return &[];
    }
    frame.content()
}

/// What the frame adds to a window.
pub(crate) fn increment(stream: u32, frame: &Frame) -> u32
    ensures { result ≡ increment_of stream frame.now.bytes.items }
{
    if frame.kind() != UPDATE || frame.stream() != stream || frame.payload().len() != 4 {
        return 0;
    }
    word(&frame.bytes, 9) % (1 << 31)
}

/// What a peer added to a window with what the frame adds, or none if that is 2^63 or more.
pub(crate) fn raise(window: u64, stream: u32, frame: &Frame) -> Option<u64>
    requires { window < 2 ^ 63 }
    ensures raised { IfSome result (λ n. n ≡ window + increment_of stream frame.now.bytes.items) }
    ensures sum { IfSome result (λ n. n < 2 ^ 63) }
    ensures full { IfNone result (2 ^ 63 ≤ window + increment_of stream frame.now.bytes.items) }
{
    let sum = window + increment(stream, frame) as u64;
    if sum >= 1 << 63 {
        return None;
    }
    Some(sum)
}

// The initial window after these settings.
fn after_settings(window: u32, payload: &[u8]) -> u32
    ensures { result ≡ window_in window payload.now }
{
    let mut window = window;
    let mut rest = payload;
    'entries: while rest.len() >= 6 {
        window = entry(window, rest);
        rest = behind(rest);
    }
    window
}

/// The settings after the first.
pub(crate) fn behind(rest: &[u8]) -> &[u8]
    requires { 6 ≤ length rest.now }
    ensures { result.now ≡ drop 6 rest.now }
{
    &rest[6..]
}

// The initial window after the first of these settings.
fn entry(window: u32, rest: &[u8]) -> u32
    requires { 6 ≤ length rest.now }
    ensures { result ≡ window_first window rest.now }
{
    if (rest[0] as u32) * 256 + rest[1] as u32 == 4 {
        return word(rest, 2);
    }
    window
}

/// The initial window after the frame.
pub(crate) fn after(window: u32, frame: &Frame) -> u32
    ensures { result ≡ window_after window frame.now.bytes.items }
{
    if frame.kind() == SETTINGS {
        return after_settings(window, frame.payload());
    }
    window
}

// The eight bytes of a ping, as a number.
fn mark(frame: &Frame) -> u64
    ensures { result ≡ mark_of frame.now.bytes.items }
{
    let payload = frame.payload();
    (word(payload, 0) as u64) * 4_294_967_296 + word(payload, 4) as u64
}

/// The mark of the ping that waits, after a frame that came.
pub(crate) fn ponged(waits: Option<u64>, frame: &Frame) -> Option<u64>
    ensures { result ≡ ponged waits frame.now.bytes.items }
{
    if frame.kind() != PING || !frame.is_acknowledgement() {
        return waits;
    }
    if waits? == mark(frame) {
        return None;
    }
    waits
}

/// What is left of a window.
pub(crate) fn left(window: u32, more: u64, used: u64) -> u64
    requires { more < 2 ^ 63 }
    ensures { result ≡ window + more - used }
{
    (more + window as u64).saturating_sub(used)
}

/// Whether a window is larger than any may be.
pub(crate) fn is_beyond(window: u32, more: u64, used: u64) -> bool
    requires { more < 2 ^ 63 }
    ensures { IsTrue result ↔ (2 ^ 31 ≤ window + more - used) }
{
    left(window, more, used) > 0x7fff_ffff
}
