//! The one message of a unary call, and the codes that it ends with.
ghost use Rattle.std.specs.Prelude.{◌≡◌, ◌<◌, ◌^◌, Ok, Err, IfOk, IfErr, length};
ghost use Rattle.hpack.specs.Field.{lines_of};
ghost use Rattle.grpc_server.specs.Messages.{code_text, ending, message_in, plain};

use crate::answer::field;
use hpack::Field;
use std::alloc::{AllocError, Global};

/// The codes that a call ends with (gRPC's status codes), in the order of their numbers; `Done` is OK.
#[derive(Clone, Copy, Debug, PartialEq, Eq)]
pub enum StatusCode {
    Done,
    Cancelled,
    Unknown,
    InvalidArgument,
    DeadlineExceeded,
    NotFound,
    AlreadyExists,
    PermissionDenied,
    ResourceExhausted,
    FailedPrecondition,
    Aborted,
    OutOfRange,
    Unimplemented,
    Internal,
    Unavailable,
    DataLoss,
    Unauthenticated,
}

impl StatusCode {
    // The number of the code.
    fn text(self) -> &'static str
        ensures { result.now ≡ code_text self }
    {
        match self {
            StatusCode::Done => "0",
            StatusCode::Cancelled => "1",
            StatusCode::Unknown => "2",
            StatusCode::InvalidArgument => "3",
            StatusCode::DeadlineExceeded => "4",
            StatusCode::NotFound => "5",
            StatusCode::AlreadyExists => "6",
            StatusCode::PermissionDenied => "7",
            StatusCode::ResourceExhausted => "8",
            StatusCode::FailedPrecondition => "9",
            StatusCode::Aborted => "10",
            StatusCode::OutOfRange => "11",
            StatusCode::Unimplemented => "12",
            StatusCode::Internal => "13",
            StatusCode::Unavailable => "14",
            StatusCode::DataLoss => "15",
            StatusCode::Unauthenticated => "16",
        }
    }
}

/// The one message of a request's content, or the code that the call ends with.
pub fn message_in(content: &[u8]) -> Result<&[u8], StatusCode>
    ensures found { IfOk result (λ m. message_in content.now ≡ Ok m.now) }
    ensures fault { IfErr result (λ e. message_in content.now ≡ Err e) }
{
    let Some((flag, octets)) = content.split_first() else {
        return Err(StatusCode::Unimplemented);
    };
    if *flag == 0 {
        return plain(octets);
    }
    if *flag == 1 {
        return Err(StatusCode::Unimplemented);
    }
    Err(StatusCode::Internal)
}

// A message that is not compressed.
fn plain(octets: &[u8]) -> Result<&[u8], StatusCode>
    ensures found { IfOk result (λ m. plain octets.now ≡ Ok m.now) }
    ensures fault { IfErr result (λ e. plain octets.now ≡ Err e) }
{
    if octets.len() < 4 {
        return Err(StatusCode::Internal);
    }
    let size = (octets[0] as usize) * 16_777_216
        + (octets[1] as usize) * 65_536
        + (octets[2] as usize) * 256
        + octets[3] as usize;
    let message = &octets[4..];
    if message.len() == size {
        return Ok(message);
    }
    if message.len() > size {
        return Err(StatusCode::Unimplemented);
    }
    Err(StatusCode::Internal)
}

/// The content that has this one message.
pub fn content_of(alloc: Global, message: &[u8]) -> Result<Vec<u8>, AllocError>
    requires { length message.now < 2 ^ 32 }
    ensures { IfOk result (λ content. message_in content.items ≡ Ok message.now) }
{
    let size = message.len() as u32;
    let mut content = Vec::with_capacity(alloc, message.len() + 5)?;
    content.extend_from_slice(&[
        0,
        (size / 16_777_216) as u8,
        (size / 65_536 % 256) as u8,
        (size / 256 % 256) as u8,
        (size % 256) as u8,
    ])?;
    content.extend_from_slice(message)?;
    Ok(content)
}

/// The fields that end the answer of a unary call.
pub(crate) fn ending(alloc: Global, code: StatusCode) -> Result<Vec<Field>, AllocError>
    ensures { IfOk result (λ fields. lines_of fields ≡ ending code) }
{
    let mut fields = Vec::new(alloc);
    fields.push(field(alloc, "grpc-status", code.text())?)?;
    Ok(fields)
}
