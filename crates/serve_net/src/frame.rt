//! A message in a frame.

ghost use Rattle.std.specs.Prelude.{◌≡◌, ◌<◌, ◌≤◌, ◌^◌, length, IfOk};
ghost use Rattle.serve_net.specs.Frame.{frame_of as framed};

use std::alloc::{AllocError, Global};

/// The message of these bytes: what is after the frame's head, if they are one frame; else all of them. No message
/// begins with the byte 0, since no field of Protocol Buffers has the number 0.
pub(crate) fn message_in(bytes: &[u8]) -> &[u8]
    ensures { length result.now ≤ length bytes.now }
{
    match bytes {
        [0, a, b, c, d, message @ ..] => {
            let length = u32::from_be_bytes([*a, *b, *c, *d]);
            if u64::from(length) == message.len() as u64 {
                message
            } else {
                bytes
            }
        }
        _ => bytes,
    }
}

/// The frame of a message (gRPC over HTTP2, "Length-Prefixed-Message").
pub(crate) fn frame_of(alloc: Global, message: &[u8]) -> Result<Vec<u8>, AllocError>
    requires { length message.now < 2 ^ 32 }
    ensures { IfOk result (λ frame. frame.items ≡ framed message.now) }
{
    let mut frame = Vec::new(alloc);
    frame.push(0)?;
    frame.extend_from_slice(&(message.len() as u32).to_be_bytes())?;
    frame.extend_from_slice(message)?;
    Ok(frame)
}
