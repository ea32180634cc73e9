//! Why a stream of frames gives no further message.

/// Why bytes begin with no frame (gRPC over HTTP2, "Length-Prefixed-Message").
#[derive(Clone, Copy, PartialEq, Eq, Debug)]
pub enum FrameFault {
    /// The first byte says that the message is compressed.
    Compressed,
    /// The message is longer than the limit.
    TooLong,
}

/// Why a call takes no bytes, or why no further message can follow.
#[derive(Clone, Copy, PartialEq, Eq, Debug, thiserror::Error)]
pub enum FrameError {
    /// A frame's first byte says that its message is compressed.
    #[error("a message is compressed")]
    Compressed,
    /// A frame's message is longer than the limit.
    #[error("a message is too long")]
    TooLong,
    /// Out of memory.
    #[error("memory ran out")]
    Memory,
}

impl From<FrameFault> for FrameError {
    ghost use Rattle.std.specs.Prelude.{◌≡◌};
    ghost use Rattle.xds_wire.specs.Frames.{error_of};

    ghost from_gives = { λ fault e. e ≡ error_of fault };

    fn from(fault: FrameFault) -> FrameError {
        match fault {
            FrameFault::Compressed => FrameError::Compressed,
            FrameFault::TooLong => FrameError::TooLong,
        }
    }
}
