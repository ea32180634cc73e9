//! Why a call to a control plane is over, in words.

use http2::{End, Fault, Tunnel};
use std::alloc::{AllocError, Global};
use std::io::ErrorKind;

// The name of a status of gRPC; none for a number that gRPC does not have.
fn status_name(status: u32) -> &'static str {
    match status {
        0 => " OK",
        1 => " CANCELLED",
        2 => " UNKNOWN",
        3 => " INVALID_ARGUMENT",
        4 => " DEADLINE_EXCEEDED",
        5 => " NOT_FOUND",
        6 => " ALREADY_EXISTS",
        7 => " PERMISSION_DENIED",
        8 => " RESOURCE_EXHAUSTED",
        9 => " FAILED_PRECONDITION",
        10 => " ABORTED",
        11 => " OUT_OF_RANGE",
        12 => " UNIMPLEMENTED",
        13 => " INTERNAL",
        14 => " UNAVAILABLE",
        15 => " DATA_LOSS",
        16 => " UNAUTHENTICATED",
        _ => "",
    }
}

// The name of an error code of HTTP/2 (RFC 9113, section 7); none for a number that it does not have.
fn code_name(code: u32) -> &'static str {
    match code {
        0 => " NO_ERROR",
        1 => " PROTOCOL_ERROR",
        2 => " INTERNAL_ERROR",
        3 => " FLOW_CONTROL_ERROR",
        4 => " SETTINGS_TIMEOUT",
        5 => " STREAM_CLOSED",
        6 => " FRAME_SIZE_ERROR",
        7 => " REFUSED_STREAM",
        8 => " CANCEL",
        9 => " COMPRESSION_ERROR",
        10 => " CONNECT_ERROR",
        11 => " ENHANCE_YOUR_CALM",
        12 => " INADEQUATE_SECURITY",
        13 => " HTTP_1_1_REQUIRED",
        _ => "",
    }
}

// How many bytes of a control plane's message are shown, at most.
const MOST_SHOWN: usize = 256;

/// The kind of error that the end of a call is.
pub(crate) fn kind_of(end: End) -> ErrorKind {
    match end {
        End::Broken(Fault::Memory) => ErrorKind::OutOfMemory,
        End::Broken(_) => ErrorKind::InvalidData,
        _ => ErrorKind::ConnectionReset,
    }
}

/// Why a call is over, in words: `grpc-status` with the message of the control plane, or what HTTP/2 says.
pub(crate) fn words_of(alloc: Global, end: End, tunnel: &Tunnel) -> Result<String, AllocError> {
    match end {
        End::Broken(Fault::Memory) => String::from_str(alloc, "out of memory"),
        End::Broken(fault) => {
            let code = fault.code() as u32;
            format!(in alloc; "HTTP/2 is not kept: code {code}{}", code_name(code))
        }
        End::Reset(code) => {
            format!(in alloc; "the call was reset: code {code}{}", code_name(code))
        }
        End::Away(code) => format!(in alloc; "GOAWAY: code {code}{}", code_name(code)),
        End::Refused(http, status) => {
            let message = message_of(alloc, tunnel)?;
            let name = status_name(status);
            format!(in alloc; "HTTP status {http}, grpc-status {status}{name}{message}")
        }
        End::Status(Some(status)) => {
            let message = message_of(alloc, tunnel)?;
            format!(in alloc; "grpc-status {status}{}{message}", status_name(status))
        }
        End::Status(None) => String::from_str(alloc, "the call ended without a status"),
        End::Cancelled => String::from_str(alloc, "the call was cancelled"),
    }
}

// The message of the control plane after a colon, as printable characters; nothing if there is none.
fn message_of(alloc: Global, tunnel: &Tunnel) -> Result<String, AllocError> {
    let mut text = String::new(alloc);
    let message = tunnel.message();
    if message.is_empty() {
        return Ok(text);
    }
    text.push_str(": ")?;
    for byte in message.iter().take(MOST_SHOWN) {
        let shown = if *byte >= 32 && *byte <= 126 {
            *byte
        } else {
            b'?'
        };
        text.push(char::from(shown))?;
    }
    if message.len() > MOST_SHOWN || tunnel.message_cut() > 0 {
        text.push_str("..")?;
    }
    Ok(text)
}
