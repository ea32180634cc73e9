//! Why bytes are not a list of fields.

/// The first fault of the bytes (Protocol Buffers encoding guide, "Message Structure").
#[derive(Clone, Copy, PartialEq, Eq, Debug, thiserror::Error)]
pub enum WireError {
    /// The bytes end inside a field.
    #[error("a field is cut short")]
    Truncated,
    /// A varint takes more than ten bytes or 64 bits.
    #[error("a varint takes more than 64 bits")]
    LongVarint,
    /// A field's number is 0, or above 2^29 - 1.
    #[error("a field's number is out of its range")]
    BadNumber,
    /// A wire type is neither VARINT, I64, LEN nor I32 (groups are not read).
    #[error("a wire type is not known")]
    BadWireType,
}
