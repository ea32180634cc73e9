//! What is wrong with a frame by itself (RFC 9113, 6).

ghost use Rattle.std.specs.Prelude.{◌≡◌, ◌≤◌, ◌<◌, ◌+◌, length, IfOk, IfErr};
ghost use Rattle.http2.specs.Faults.{has_flag, error_of, wrong_padding, wrong_data, before_block, padding_in, wrong_headers, wrong_priority, wrong_reset, wrong_settings, wrong_entries, wrong_setting, wrong_ping, wrong_goaway, wrong_update, wrong_continuation, fault_by};

use crate::accounts::behind;
use crate::fault::{Code, Fault};
use crate::frame::{Frame, byte, word};

// Whether a flag is set.
fn has(flags: u8, mask: u8) -> bool
    requires { 0 < mask }
    ensures { result ≡ has_flag mask flags }
{
    flags / mask % 2 == 1
}

fn wrong(code: Code) -> Fault
    ensures { result ≡ Fault.Connection code }
{
    Fault::Connection(code)
}

/// Refuses a frame of the peer that has a fault by itself. What a peer's setting may say of pushes is at most this.
pub(crate) fn check(pushes: u32, frame: &Frame) -> Result<(), Fault>
    ensures { error_of result ≡ fault_by pushes frame.now.bytes.items }
{
    let payload = frame.payload();
    let flags = frame.flags();
    let on_stream = frame.stream() != 0;
    match frame.kind() {
        0 => check_data(flags, on_stream, payload),
        1 => check_headers(flags, on_stream, payload),
        2 => check_priority(on_stream, payload),
        3 => check_reset(on_stream, payload),
        4 => check_settings(pushes, flags, on_stream, payload),
        5 => Err(wrong(Code::Protocol)),
        6 => check_ping(on_stream, payload),
        7 => check_goaway(on_stream, payload),
        8 => check_update(on_stream, payload),
        9 => check_continuation(on_stream),
        _ => Ok(()),
    }
}

// Refuses padding that is longer than what is left.
fn check_padding(flags: u8, payload: &[u8]) -> Result<(), Fault>
    ensures { error_of result ≡ wrong_padding flags payload.now }
{
    if !has(flags, 8) {
        return Ok(());
    }
    let Some((pad, bytes)) = payload.split_first() else {
        return Err(wrong(Code::FrameSize));
    };
    if *pad as usize > bytes.len() {
        return Err(wrong(Code::Protocol));
    }
    Ok(())
}

fn check_data(flags: u8, on_stream: bool, payload: &[u8]) -> Result<(), Fault>
    ensures { error_of result ≡ wrong_data flags on_stream payload.now }
{
    if !on_stream {
        return Err(wrong(Code::Protocol));
    }
    check_padding(flags, payload)
}

// How many bytes come before the block of HEADERS: the length of padding, and a priority.
fn before_block(flags: u8) -> usize
    ensures value { result ≡ before_block flags }
    ensures few { result ≤ 6 }
{
    let padded = if has(flags, 8) { 1 } else { 0 };
    let first = if has(flags, 32) { 5 } else { 0 };
    padded + first
}

// How many bytes of padding HEADERS say that they have.
fn padding_in(flags: u8, payload: &[u8]) -> usize
    ensures { result ≡ padding_in flags payload.now }
{
    if has(flags, 8) {
        return byte(payload, 0) as usize;
    }
    0
}

fn check_headers(flags: u8, on_stream: bool, payload: &[u8]) -> Result<(), Fault>
    ensures { error_of result ≡ wrong_headers flags on_stream payload.now }
{
    if !on_stream {
        return Err(wrong(Code::Protocol));
    }
    let before = before_block(flags);
    if payload.len() < before {
        return Err(wrong(Code::FrameSize));
    }
    if payload.len() - before < padding_in(flags, payload) {
        return Err(wrong(Code::Protocol));
    }
    Ok(())
}

fn check_priority(on_stream: bool, payload: &[u8]) -> Result<(), Fault>
    ensures { error_of result ≡ wrong_priority on_stream payload.now }
{
    if !on_stream {
        return Err(wrong(Code::Protocol));
    }
    if payload.len() != 5 {
        return Err(Fault::Stream(Code::FrameSize));
    }
    Ok(())
}

fn check_reset(on_stream: bool, payload: &[u8]) -> Result<(), Fault>
    ensures { error_of result ≡ wrong_reset on_stream payload.now }
{
    if !on_stream {
        return Err(wrong(Code::Protocol));
    }
    if payload.len() != 4 {
        return Err(wrong(Code::FrameSize));
    }
    Ok(())
}

fn check_settings(pushes: u32, flags: u8, on_stream: bool, payload: &[u8]) -> Result<(), Fault>
    ensures { error_of result ≡ wrong_settings pushes flags on_stream payload.now }
{
    if on_stream {
        return Err(wrong(Code::Protocol));
    }
    if has(flags, 1) {
        if !payload.is_empty() {
            return Err(wrong(Code::FrameSize));
        }
        return Ok(());
    }
    if payload.len() % 6 != 0 {
        return Err(wrong(Code::FrameSize));
    }
    check_entries(pushes, payload)
}

// The first setting that is wrong.
fn check_entries(pushes: u32, payload: &[u8]) -> Result<(), Fault>
    ensures { error_of result ≡ wrong_entries pushes payload.now }
{
    let mut rest = payload;
    'entries: while rest.len() >= 6 {
        check_setting(
            pushes,
            (rest[0] as u32) * 256 + rest[1] as u32,
            word(rest, 2),
        )?;
        rest = behind(rest);
    }
    Ok(())
}

// What a peer's setting may be.
fn check_setting(pushes: u32, number: u32, value: u32) -> Result<(), Fault>
    ensures { error_of result ≡ wrong_setting pushes number value }
{
    if number == 2 && value > pushes {
        return Err(wrong(Code::Protocol));
    }
    if number == 4 && value > 2_147_483_647 {
        return Err(wrong(Code::FlowControl));
    }
    if number == 5 && (value < 16_384 || value > 16_777_215) {
        return Err(wrong(Code::Protocol));
    }
    Ok(())
}

fn check_ping(on_stream: bool, payload: &[u8]) -> Result<(), Fault>
    ensures { error_of result ≡ wrong_ping on_stream payload.now }
{
    if on_stream {
        return Err(wrong(Code::Protocol));
    }
    if payload.len() != 8 {
        return Err(wrong(Code::FrameSize));
    }
    Ok(())
}

fn check_goaway(on_stream: bool, payload: &[u8]) -> Result<(), Fault>
    ensures { error_of result ≡ wrong_goaway on_stream payload.now }
{
    if on_stream {
        return Err(wrong(Code::Protocol));
    }
    if payload.len() < 8 {
        return Err(wrong(Code::FrameSize));
    }
    Ok(())
}

fn check_update(on_stream: bool, payload: &[u8]) -> Result<(), Fault>
    ensures { error_of result ≡ wrong_update on_stream payload.now }
{
    if payload.len() != 4 {
        return Err(wrong(Code::FrameSize));
    }
    let more = word(payload, 0) % (1 << 31);
    if more > 0 {
        return Ok(());
    }
    if on_stream {
        return Err(Fault::Stream(Code::Protocol));
    }
    Err(wrong(Code::Protocol))
}

fn check_continuation(on_stream: bool) -> Result<(), Fault>
    ensures { error_of result ≡ wrong_continuation on_stream }
{
    if !on_stream {
        return Err(wrong(Code::Protocol));
    }
    Ok(())
}
