//! Frames of the update stream, and the response that changes nothing.
ghost use Rattle.std.specs.Prelude.{◌≡◌, ◌<◌, ◌^◌, IfOk, length};
ghost use Rattle.xds_wire.specs.Frames.{frame_of};
ghost use Rattle.serve_log.specs.Frames.{empty_response};

use std::alloc::{AllocError, Global};

/// A `DiscoveryResponse` that has its `type_url` alone, in a frame of 68 bytes. A client accepts it: its policies stay,
/// and the number of accepted responses grows by one.
pub fn empty_response(alloc: Global) -> Result<Vec<u8>, AllocError>
    ensures { IfOk result (λ v. v.items ≡ frame_of empty_response) }
{
    frame(
        alloc,
        b"\x22\x3dtype.googleapis.com/envoy.config.core.v3.TypedExtensionConfig",
    )
}

/// A frame of the message, which has fewer than 2^32 bytes: a zero byte, the length in four bytes, the highest first,
/// and the message.
pub fn frame(alloc: Global, message: &[u8]) -> Result<Vec<u8>, AllocError>
    requires { length message.now < 2 ^ 32 }
    ensures { IfOk result (λ v. v.items ≡ frame_of message.now) }
{
    let [a, b, c, d] = (message.len() as u32).to_be_bytes();
    let mut bytes = Vec::new(alloc);
    bytes.extend_from_slice(&[0, a, b, c, d])?;
    bytes.extend_from_slice(message)?;
    Ok(bytes)
}
