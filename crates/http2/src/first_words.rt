//! What each end says first, and the numbers that go with it.

/// The window that is announced: one message of the update stream and its head.
pub const WINDOW: usize = 1_048_581;

/// What a client says first: the preface, its settings, and the window of the connection, raised to that of a stream. The
/// settings are no pushes, the window of a stream, and 16,384 octets for the fields of a header block.
pub(crate) const OPENING: &[u8; 64] = b"PRI * HTTP/2.0\r\n\r\nSM\r\n\r\n\
\x00\x00\x12\x04\x00\x00\x00\x00\x00\x00\x02\x00\x00\x00\x00\x00\x04\x00\x10\x00\x05\x00\x06\x00\x00\x40\x00\
\x00\x00\x04\x08\x00\x00\x00\x00\x00\x00\x0f\x00\x06";

/// What a server says first: its settings, and the window of the connection, raised to that of a stream. The settings are
/// one stream at once, the window of a stream, and 16,384 octets for the fields of a header block.
pub(crate) const GREETING: &[u8; 40] =
    b"\x00\x00\x12\x04\x00\x00\x00\x00\x00\x00\x03\x00\x00\x00\x01\x00\x04\x00\x10\x00\x05\
\x00\x06\x00\x00\x40\x00\
\x00\x00\x04\x08\x00\x00\x00\x00\x00\x00\x0f\x00\x06";

/// What a server of unary calls says first: its settings, and the window of the connection, raised to `WINDOW`. The settings are 100
/// streams at once, the largest window of a stream, and 16,384 octets for the fields of a header block.
pub(crate) const WELCOME: &[u8; 40] =
    b"\x00\x00\x12\x04\x00\x00\x00\x00\x00\x00\x03\x00\x00\x00\x64\x00\x04\x7f\xff\xff\xff\
\x00\x06\x00\x00\x40\x00\
\x00\x00\x04\x08\x00\x00\x00\x00\x00\x00\x0f\x00\x06";

/// What a client says first (RFC 9113, 3.4).
pub(crate) const PREFACE: &[u8; 24] = b"PRI * HTTP/2.0\r\n\r\nSM\r\n\r\n";

/// The number of a call's stream that is not open yet: no frame is on it.
pub(crate) const UNOPENED: u32 = 2_147_483_648;
