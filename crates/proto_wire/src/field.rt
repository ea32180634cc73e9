//! A field of a message: its number and what it holds.

ghost use Rattle.std.specs.Prelude.{◌≡◌};
ghost use Rattle.proto_wire.specs.Fields.{wire_type_of, payload_view};

/// How a field's payload is spelt (Protocol Buffers encoding guide, "Message Structure").
#[derive(Clone, Copy, PartialEq, Eq, Debug)]
pub enum WireType {
    /// VARINT: a number of up to 64 bits, in groups of seven.
    Varint,
    /// I64: eight bytes.
    I64,
    /// LEN: a length, and so many bytes.
    Len,
    /// I32: four bytes.
    I32,
}

/// What a field holds; the bytes of a LEN are a slice of the input.
#[derive(Clone, Copy, PartialEq, Eq, Debug)]
pub enum Payload<'a> {
    /// The value of a VARINT.
    Varint(u64),
    /// The number that an I64 spells by eight bytes, the lowest first.
    I64(u64),
    /// The bytes of a LEN: a string, bytes, or a message.
    Len(&'a [u8]),
    /// The number that an I32 spells by four bytes, the lowest first.
    I32(u32),
}

impl<'a> Payload<'a> {
    /// The payload's wire type.
    pub(crate) fn wire_type(&self) -> WireType
        ensures { result ≡ wire_type_of (payload_view self.now) }
    {
        match self {
            Payload::Varint(_) => WireType::Varint,
            Payload::I64(_) => WireType::I64,
            Payload::Len(_) => WireType::Len,
            Payload::I32(_) => WireType::I32,
        }
    }
}

/// The value in the unused places of a list.
impl<'a> Default for Payload<'a> {
    fn default() -> Payload<'a> {
        Payload::Varint(0)
    }
}

/// A field of a message.
#[derive(Clone, Copy, PartialEq, Eq, Debug)]
pub struct Field<'a> {
    /// The field's number, 1 to 2^29 - 1.
    pub number: u32,
    /// What the field holds.
    pub payload: Payload<'a>,
}

/// The value in the unused places of a list; no field has the number 0.
impl<'a> Default for Field<'a> {
    fn default() -> Field<'a> {
        Field {
            number: 0,
            payload: Payload::default(),
        }
    }
}
