//! Cuts one frame off the bytes of a stream.

ghost use Rattle.std.specs.Prelude.{◌<◌, ◌++◌};
ghost use Rattle.xds_wire.specs.private.Pieces.{head_view, IsPiece};

use crate::fault::FrameFault;
use crate::head::{HEAD, Head};

/// What the bytes begin with.
#[derive(Clone, Copy, Debug)]
pub(crate) enum Piece<'a> {
    /// The bytes are less than a head.
    Head(Head),
    /// The bytes are a head that names this length, and a part of its message.
    Part(usize, &'a [u8]),
    /// The bytes are a frame of this message, and then others.
    Whole(&'a [u8], &'a [u8]),
    /// The bytes begin with no frame.
    Broken(FrameFault),
}

/// Cuts off one frame. The frame begins with the head's bytes and continues with the others. It takes no
/// memory.
pub(crate) fn cut_frame<'a>(head: Head, bytes: &'a [u8], max: usize) -> Piece<'a>
    requires { head.count < HEAD }
    ensures { IsPiece max (head_view head ++ bytes.now) result }
{
    let (head, rest) = head.fill(bytes);
    let [flag, a, b, c, d] = head.bytes;
    if head.count > 0 && flag != 0 {
        return Piece::Broken(FrameFault::Compressed);
    }
    if head.count < HEAD {
        return Piece::Head(head);
    }
    let length = u32::from_be_bytes([a, b, c, d]) as usize;
    if length > max {
        return Piece::Broken(FrameFault::TooLong);
    }
    if rest.len() < length {
        return Piece::Part(length, rest);
    }
    let (message, behind) = rest.split_at(length);
    Piece::Whole(message, behind)
}
