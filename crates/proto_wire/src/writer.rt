//! Writes fields, each number in its shortest spelling.

ghost use Rattle.std.specs.Prelude.{◌≡◌, ◌+◌, ◌*◌, List, ℕ, take, OnOk, OnErr};
ghost use Rattle.proto_wire.specs.Fields.{IsFieldNumber, varint, len};
ghost use Rattle.proto_wire.specs.Shortest.{Appends, field_of};
ghost use Rattle.proto_wire.specs.private.Writing.{Keeps, AppendsVarint};

use std::alloc::AllocError;
use std::marker::Model;

// The number of VARINT in the low three bits of a tag.
const VARINT: u64 = 0;

// The number of LEN.
const LEN: u64 = 2;

/// Appends fields to a vector of bytes. Each call writes the whole field; if memory runs out, it
/// leaves the bytes as they were. Field numbers are 1 to 2^29 - 1.
#[derive(Debug, Drop)]
pub struct Writer {
    bytes: Vec<u8>,
}

impl Model for Writer {
    ghost Value = { List ℕ };

    ghost view = { λ writer. writer.bytes.items };
}

impl Writer {
    /// A writer that appends to these bytes.
    pub fn new(bytes: Vec<u8>) -> Writer
        ensures { result ≡ bytes.items }
    {
        Writer { bytes }
    }

    /// The bytes, with what was written.
    pub fn into_bytes(self) -> Vec<u8>
        ensures { result.items ≡ self }
    {
        self.bytes
    }

    /// Writes a VARINT field: a bool, an enum or an integer; negative ones in 64 bits of two's
    /// complement.
    pub fn varint(&mut self, number: u32, value: u64) -> Result<(), AllocError>
        requires { IsFieldNumber number }
        ensures written { OnOk result (Appends self.old (field_of number (varint value)) self.new) }
        ensures unchanged { OnErr result (self.new ≡ self.old) }
    {
        let start = self.bytes.len();
        let written = append_varint_field(&mut self.bytes, number, value);
        self.keep_whole(start, written)
    }

    /// Writes a LEN field that is a string.
    pub fn text(&mut self, number: u32, text: &str) -> Result<(), AllocError>
        requires { IsFieldNumber number }
        ensures written { OnOk result (Appends self.old (field_of number (len text.now)) self.new) }
        ensures unchanged { OnErr result (self.new ≡ self.old) }
    {
        self.bytes(number, text.as_bytes())
    }

    /// Writes a LEN field of these bytes.
    pub fn bytes(&mut self, number: u32, bytes: &[u8]) -> Result<(), AllocError>
        requires { IsFieldNumber number }
        ensures written { OnOk result (Appends self.old
            (field_of number (len bytes.now)) self.new) }
        ensures unchanged { OnErr result (self.new ≡ self.old) }
    {
        let start = self.bytes.len();
        let written = append_len_field(&mut self.bytes, number, bytes);
        self.keep_whole(start, written)
    }

    /// Writes a LEN field whose payload is a message with these bytes.
    pub fn message(&mut self, number: u32, message: &[u8]) -> Result<(), AllocError>
        requires { IsFieldNumber number }
        ensures written { OnOk result (Appends self.old
            (field_of number (len message.now)) self.new) }
        ensures unchanged { OnErr result (self.new ≡ self.old) }
    {
        self.bytes(number, message)
    }

    // If a call failed, drops what it wrote after the first `start` bytes.
    fn keep_whole(
        &mut self,
        start: usize,
        written: Result<(), AllocError>,
    ) -> Result<(), AllocError>
        ensures same { result ≡ written }
        ensures whole { OnOk written (self.new ≡ self.old) }
        ensures dropped { OnErr written (self.new ≡ take start self.old) }
    {
        if written.is_err() {
            self.bytes.truncate(start);
        }
        written
    }
}

fn append_varint_field(out: &mut Vec<u8>, number: u32, value: u64) -> Result<(), AllocError>
    requires { IsFieldNumber number }
    ensures written { OnOk result (Appends out.old.items
        (field_of number (varint value)) out.new.items) }
    ensures kept { Keeps out.old.items out.new.items }
{
    append_varint(out, u64::from(number) * 8 + VARINT)?;
    append_varint(out, value)
}

fn append_len_field(out: &mut Vec<u8>, number: u32, bytes: &[u8]) -> Result<(), AllocError>
    requires { IsFieldNumber number }
    ensures written { OnOk result (Appends out.old.items
        (field_of number (len bytes.now)) out.new.items) }
    ensures kept { Keeps out.old.items out.new.items }
{
    append_varint(out, u64::from(number) * 8 + LEN)?;
    append_varint(out, bytes.len() as u64)?;
    out.extend_from_slice(bytes)
}

// Appends the number, seven bits to a byte, the lowest first.
fn append_varint(out: &mut Vec<u8>, value: u64) -> Result<(), AllocError>
    ensures written { OnOk result (AppendsVarint out.old.items value out.new.items) }
    ensures kept { Keeps out.old.items out.new.items }
{
    let mut rest = value;
    while rest >= 128 {
        out.push((rest % 128) as u8 + 128)?;
        rest /= 128;
    }
    out.push(rest as u8)?;
    Ok(())
}
