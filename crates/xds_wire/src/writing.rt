//! Appends fields to bytes; if memory runs out, the bytes stay as they were.

ghost use Rattle.std.specs.Prelude.{◌≡◌, take, OnOk, OnErr};
ghost use Rattle.proto_wire.specs.Fields.{IsFieldNumber};
ghost use Rattle.proto_wire.specs.private.Writing.{Keeps};
ghost use Rattle.xds_wire.specs.View.{texts_view};
ghost use Rattle.xds_wire.specs.Written.{string_fields, strings_fields};
ghost use Rattle.xds_wire.specs.private.Writing.{Adds};

use proto_wire::Writer;
use std::alloc::AllocError;
use std::mem;

/// Writes the bytes, unless there are none.
pub(crate) fn put_bytes(writer: &mut Writer, number: u32, bytes: &[u8]) -> Result<(), AllocError>
    requires { IsFieldNumber number }
    ensures found { OnOk result (Adds writer.old (string_fields number bytes.now) writer.new) }
    ensures fault { OnErr result (writer.new ≡ writer.old) }
{
    if bytes.is_empty() {
        return Ok(());
    }
    writer.bytes(number, bytes)
}

/// Writes the string, unless it is empty.
pub(crate) fn put_text(writer: &mut Writer, number: u32, text: &str) -> Result<(), AllocError>
    requires { IsFieldNumber number }
    ensures found { OnOk result (Adds writer.old (string_fields number text.now) writer.new) }
    ensures fault { OnErr result (writer.new ≡ writer.old) }
{
    put_bytes(writer, number, text.as_bytes())
}

/// Writes each of the strings, also an empty one.
pub(crate) fn put_texts(writer: &mut Writer, number: u32, texts: &[&str]) -> Result<(), AllocError>
    requires { IsFieldNumber number }
    ensures found { OnOk result
        (Adds writer.old (strings_fields number (texts_view texts.now)) writer.new) }
    ensures fault { OnErr result (Keeps writer.old writer.new) }
{
    for text in texts {
        writer.text(number, text)?;
    }
    Ok(())
}

/// Takes the vector's bytes into a writer, which appends to them.
pub(crate) fn take_writer(out: &mut Vec<u8>) -> Writer
    ensures { result ≡ out.old.items }
{
    let empty = Vec::new(*out.allocator());
    Writer::new(mem::replace(out, empty))
}

/// Puts the bytes back. If not all could be written, drops those after the first `start`.
pub(crate) fn put_back(
    out: &mut Vec<u8>,
    writer: Writer,
    written: Result<(), AllocError>,
    start: usize,
) -> Result<(), AllocError>
    ensures same { result ≡ written }
    ensures whole { OnOk written (out.new.items ≡ writer) }
    ensures dropped { OnErr written (out.new.items ≡ take start writer) }
{
    *out = writer.into_bytes();
    if written.is_err() {
        out.truncate(start);
    }
    written
}
