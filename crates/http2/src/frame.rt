//! A frame (RFC 9113, 4.1).

ghost use Rattle.std.specs.Prelude.{◌≡◌, ◌≤◌, ◌<◌, ◌+◌, ◌^◌, length};
ghost use Rattle.http2.specs.Frame.{size_of, kind_of, flags_of, stream_of, payload_of, byte, word_at, unpadded, content_of, ends_stream, ends_block, is_acknowledgement, has_priority, fragment_of};

/// The types of frames (RFC 9113, 6).
pub(crate) const DATA: u8 = 0;

pub(crate) const HEADERS: u8 = 1;

pub(crate) const PRIORITY: u8 = 2;

pub(crate) const RESET: u8 = 3;

pub(crate) const SETTINGS: u8 = 4;

pub(crate) const PING: u8 = 6;

pub(crate) const GOAWAY: u8 = 7;

pub(crate) const UPDATE: u8 = 8;

pub(crate) const CONTINUATION: u8 = 9;

/// The number of bytes of a frame's head.
pub(crate) const HEAD: usize = 9;

/// The most bytes of a frame's payload, since no other limit is announced.
pub(crate) const MOST: usize = 16_384;

/// A whole frame, in its bytes.
#[derive(Debug, Drop)]
pub struct Frame {
    pub(crate) bytes: Vec<u8>,
    ghost whole: { length bytes.items ≡ 9 + size_of bytes.items },
    ghost small: { size_of bytes.items ≤ 16384 },
}

impl Frame {
    /// The frame's type.
    pub fn kind(&self) -> u8
        ensures { result ≡ kind_of self.now.bytes.items }
    {
        self.bytes[3]
    }

    /// The frame's flags.
    pub fn flags(&self) -> u8
        ensures { result ≡ flags_of self.now.bytes.items }
    {
        self.bytes[4]
    }

    /// The frame's stream; 0 is the connection.
    pub fn stream(&self) -> u32
        ensures number { result ≡ stream_of self.now.bytes.items }
        ensures small { result < 2147483648 }
    {
        word(&self.bytes, 5) % (1 << 31)
    }

    /// Whether the stream ends after the frame, if it is one of DATA or HEADERS.
    pub fn ends_stream(&self) -> bool
        ensures { result ≡ ends_stream self.now.bytes.items }
    {
        self.flags() % 2 == 1
    }

    /// Whether the frame acknowledges one of ours, if it is one of SETTINGS or PING.
    pub fn is_acknowledgement(&self) -> bool
        ensures { result ≡ is_acknowledgement self.now.bytes.items }
    {
        self.flags() % 2 == 1
    }

    /// Whether the header block ends with the frame, if it is one of HEADERS or CONTINUATION.
    pub fn ends_block(&self) -> bool
        ensures { result ≡ ends_block self.now.bytes.items }
    {
        self.flags() / 4 % 2 == 1
    }

    /// The payload without its padding, if the frame is one of DATA or HEADERS.
    pub fn content(&self) -> &[u8]
        ensures { result.now ≡ content_of self.now.bytes.items }
    {
        if self.flags() / 8 % 2 == 1 {
            return unpadded(self.payload());
        }
        self.payload()
    }

    /// The part of a header block that the frame has, if it is one of HEADERS: after the five bytes of a priority.
    pub fn fragment(&self) -> &[u8]
        ensures { result.now ≡ fragment_of self.now.bytes.items }
    {
        let content = self.content();
        if self.flags() / 32 % 2 == 1 {
            return &content[content.len().min(5)..];
        }
        content
    }

    /// The frame's payload.
    pub fn payload(&self) -> &[u8]
        ensures { result.now ≡ payload_of self.now.bytes.items }
    {
        &self.bytes[HEAD..]
    }
}

// The bytes without their padding, whose length is the first of them. There are none if that is too long.
fn unpadded(payload: &[u8]) -> &[u8]
    ensures { result.now ≡ unpadded payload.now }
{
    match payload.split_first() {
        Some((pad, bytes)) => &bytes[..bytes.len().saturating_sub(*pad as usize)],
        None => payload,
    }
}

/// The byte at a place, and 0 after the end.
pub(crate) fn byte(bytes: &[u8], at: usize) -> u8
    ensures { result ≡ byte bytes.now at }
{
    match bytes.get(at) {
        Some(byte) => *byte,
        None => 0,
    }
}

/// Four bytes as a number, the highest first; those after the end are 0.
pub(crate) fn word(bytes: &[u8], at: usize) -> u32
    requires { at < 2 ^ 32 }
    ensures { result ≡ word_at bytes.now at }
{
    (byte(bytes, at) as u32) * 16_777_216
        + (byte(bytes, at + 1) as u32) * 65_536
        + (byte(bytes, at + 2) as u32) * 256
        + byte(bytes, at + 3) as u32
}

/// The length that a head names.
pub(crate) fn size(bytes: &[u8]) -> usize
    requires { 3 ≤ length bytes.now }
    ensures { result ≡ size_of bytes.now }
{
    (bytes[0] as usize) * 65_536 + (bytes[1] as usize) * 256 + bytes[2] as usize
}
