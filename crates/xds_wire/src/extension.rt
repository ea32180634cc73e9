//! A named resource (`envoy.config.core.v3.TypedExtensionConfig`).

ghost use Rattle.std.specs.Prelude.{◌≡◌, IfOk, IfErr, OnOk, OnErr};
ghost use Rattle.proto_wire.specs.Refusal.{MemoryOr};
ghost use Rattle.xds_wire.specs.Discovery.{IsExtension, ExtensionFault};
ghost use Rattle.proto_wire.specs.private.Writing.{Keeps};
ghost use Rattle.xds_wire.specs.View.{extension_view};
ghost use Rattle.xds_wire.specs.Written.{ExtensionWritten, AddsMessage};

use crate::any::{Any, merged_any, put_any};
use crate::writing::{put_back, put_text, take_writer};
use proto_wire::{Refusal, Writer, read_parts, text_at};
use std::alloc::{AllocError, Global};

/// A named resource and its configuration.
#[derive(Clone, Copy, Debug)]
pub struct TypedExtensionConfig<'a> {
    /// The resource's name.
    pub name: &'a str,
    /// The configuration; it names its own type.
    pub typed_config: Option<Any<'a>>,
}

// The number of `name` in a TypedExtensionConfig.
const NAME: u32 = 1;

// The number of `typed_config` in a TypedExtensionConfig.
const TYPED_CONFIG: u32 = 2;

/// Reads a TypedExtensionConfig and skips unknown fields. `BadWire` if the bytes, or those of `typed_config`, are not a
/// list of whole fields; `BadText` if a string is not UTF-8; or `Memory`. It does not read the configuration's value.
pub fn read_extension<'a>(
    alloc: Global,
    bytes: &'a [u8],
) -> Result<TypedExtensionConfig<'a>, Refusal>
    ensures found { IfOk result (λ extension. IsExtension bytes.now (extension_view extension)) }
    ensures fault { IfErr result (MemoryOr (ExtensionFault bytes.now)) }
{
    let fields = read_parts(alloc, &[bytes])?;
    Ok(TypedExtensionConfig {
        name: text_at(&fields, NAME)?,
        typed_config: merged_any(alloc, &fields, TYPED_CONFIG)?,
    })
}

/// Appends a TypedExtensionConfig in its shortest spelling, without defaults. If memory runs out, the bytes stay as
/// they were.
pub fn write_extension(
    extension: &TypedExtensionConfig<'_>,
    out: &mut Vec<u8>,
) -> Result<(), AllocError>
    ensures found { OnOk result
        (AddsMessage (ExtensionWritten (extension_view extension.now)) out.old.items out.new.items) }
    ensures fault { OnErr result (out.new.items ≡ out.old.items) }
{
    let start = out.len();
    let alloc = *out.allocator();
    let mut writer = take_writer(out);
    let written = put_extension(alloc, extension, &mut writer);
    put_back(out, writer, written, start)
}

// Writes the fields of the message.
fn put_extension(
    alloc: Global,
    extension: &TypedExtensionConfig<'_>,
    writer: &mut Writer,
) -> Result<(), AllocError>
    ensures found { OnOk result
        (AddsMessage (ExtensionWritten (extension_view extension.now)) writer.old writer.new) }
    ensures fault { OnErr result (Keeps writer.old writer.new) }
{
    put_text(writer, NAME, extension.name)?;
    put_any(alloc, writer, TYPED_CONFIG, &extension.typed_config)
}
