//! The bytes of the update stream that are not judged yet: the next message, as far as it came.
ghost use Rattle.std.specs.Prelude.{◌≡◌, ◌<◌, ◌^◌, ◌++◌, ℕ, List, [], true, length};
ghost use Rattle.xds_wire.specs.Frames.{frame_of};

use std::alloc::Global;

// How many bytes the head of a frame has (gRPC over HTTP/2, Length-Prefixed-Message).
const HEAD: usize = 5;

/// The bytes of the update stream since the last message that was judged.
#[derive(Drop)]
pub(crate) struct NextMessage {
    alloc: Global,
    bytes: Vec<u8>,
    // whether no memory was lacking since the stream began
    has_all: bool,
}

impl NextMessage {
    /// No bytes came.
    pub(crate) fn new(alloc: Global) -> NextMessage
        ensures { (result.bytes.items ≡ []) × (result.has_all ≡ true) }
    {
        NextMessage {
            alloc,
            bytes: Vec::new(alloc),
            has_all: true,
        }
    }

    /// A stream begins.
    pub(crate) fn clear(&mut self)
        ensures { (self.new.bytes.items ≡ []) × (self.new.has_all ≡ true) }
    {
        *self = NextMessage::new(self.alloc);
    }

    /// The stream gave these bytes.
    pub(crate) fn add(&mut self, bytes: &[u8])
        ensures { self.new.has_all ≡ true
            → (self.old.has_all ≡ true) × (self.new.bytes.items ≡ self.old.bytes.items ++ bytes.now) }
    {
        if self.has_all && self.bytes.extend_from_slice(bytes).is_err() {
            self.bytes = Vec::new(self.alloc);
            self.has_all = false;
        }
    }

    /// The message of the first frame; no bytes if memory was lacking, or if it is not complete.
    pub(crate) fn message(&self) -> &[u8]
        ensures { (message rest : List ℕ) → length message < 2 ^ 32 → self.now.has_all ≡ true
            → self.now.bytes.items ≡ frame_of message ++ rest → result.now ≡ message }
    {
        if !self.has_all {
            return &[];
        }
        self.bytes.get(HEAD..self.frame()).unwrap_or(&[])
    }

    /// The message of the first frame was judged.
    pub(crate) fn judged(&mut self)
        ensures { (message rest : List ℕ) → length message < 2 ^ 32 → self.new.has_all ≡ true
            → self.old.bytes.items ≡ frame_of message ++ rest
            → (self.old.has_all ≡ true) × (self.new.bytes.items ≡ rest) }
    {
        if !self.has_all {
            return;
        }
        let frame = self.frame();
        let mut rest = NextMessage::new(self.alloc);
        rest.add(self.bytes.get(frame..).unwrap_or(&[]));
        *self = rest;
    }

    /// So many messages came that are judged. The last one is the next.
    pub(crate) fn begin_last(&mut self, count: usize) {
        for _ in 1..count {
            self.judged();
        }
    }

    // How many bytes the first frame has, with its head.
    fn frame(&self) -> usize
        ensures { (message rest : List ℕ) → length message < 2 ^ 32
            → self.now.bytes.items ≡ frame_of message ++ rest → result ≡ length (frame_of message) }
    {
        match self.bytes.as_slice() {
            [_, a, b, c, d, ..] => {
                let length = u32::from_be_bytes([*a, *b, *c, *d]) as usize;
                HEAD.saturating_add(length)
            }
            _ => HEAD,
        }
    }
}
