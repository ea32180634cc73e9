//! The response that sends a snapshot, as bytes.

ghost use Rattle.std.specs.Prelude.{◌≡◌, map, bytes_eq, decimal, IfOk};
ghost use Rattle.std.specs.List.{AllZip, list_any};
ghost use Rattle.std.specs.String.{string_bytes};
ghost use Rattle.xds_wire.specs.Discovery.{ResponseMessage};
ghost use Rattle.xds_wire.specs.View.{any_view, texts_view};
ghost use Rattle.xds_wire.specs.Written.{ExtensionWritten, ResponseWritten};
ghost use Rattle.ads.specs.Control.{IsResponseOf, asked, extension_of};
ghost use Rattle.ads.specs.Views.{resource_view, snapshot_view};
ghost use Rattle.ads.specs.private.Serving.{any_of, ResponseIsOf};

use crate::judging::{EXTENSION_TYPE, FILTER_TYPE};
use crate::snapshot::{Resource, Snapshot};
use std::alloc::{AllocError, Global};
use xds_wire::{Any, DiscoveryResponse, TypedExtensionConfig, write_extension, write_response};

/// The longest message that is taken or sent, in bytes.
pub(crate) const MOST_BYTES: usize = 1_048_576;

/// The message of the response that sends the snapshot of this number for these names. Its nonce is `count`, the number
/// of responses sent so far, including it.
pub(crate) fn response_bytes(
    alloc: Global,
    snapshot: &Snapshot,
    names: &[&str],
    number: usize,
    count: u64,
) -> Result<Vec<u8>, AllocError>
    ensures { IfOk result (λ v. (response : ResponseMessage)
        × IsResponseOf (snapshot_view snapshot.now) (texts_view names.now) number count response
        × ResponseWritten response v.items) }
{
    let values = extensions(alloc, &snapshot.resources, names)?;
    let version = decimal_text(alloc, number as u64)?;
    let nonce = decimal_text(alloc, count)?;
    written(alloc, &version, &nonce, &values)
}

/// The number in decimal.
pub(crate) fn decimal_text(alloc: Global, number: u64) -> Result<String, AllocError>
    ensures { IfOk result (λ text. string_bytes text ≡ decimal number) }
{
    format!(in alloc; "{number}")
}

// The message of a response with this version, this nonce and these resources.
fn written(
    alloc: Global,
    version: &str,
    nonce: &str,
    values: &[Vec<u8>],
) -> Result<Vec<u8>, AllocError>
    ensures { IfOk result (λ v. ResponseIsOf version.now nonce.now
        (map (λ b. any_of b.items) values.now) v.items) }
{
    let resources = any_messages(alloc, values)?;
    let response = DiscoveryResponse {
        version_info: version,
        resources,
        type_url: EXTENSION_TYPE,
        nonce,
    };
    let mut message = Vec::new(alloc);
    write_response(&response, &mut message)?;
    Ok(message)
}

// The messages of the resources with one of these names, in order.
fn extensions(
    alloc: Global,
    resources: &[Resource],
    names: &[&str],
) -> Result<Vec<Vec<u8>>, AllocError>
    ensures { IfOk result (λ v. AllZip (λ r bytes. ExtensionWritten (extension_of r) bytes)
        (asked (texts_view names.now) (map resource_view resources.now)) (map (λ b. b.items) v.items)) }
{
    let mut values = Vec::new(alloc);
    for resource in resources {
        if is_asked(names, &resource.name) {
            values.push(extension_bytes(alloc, resource)?)?;
        }
    }
    Ok(values)
}

// Whether the name is one of those that the request lists.
fn is_asked(names: &[&str], name: &str) -> bool
    ensures { result ≡ list_any (λ n. bytes_eq n name.now) (texts_view names.now) }
{
    names.iter().any(|other| *other == name)
}

// The message of a resource, as an extension.
fn extension_bytes(alloc: Global, resource: &Resource) -> Result<Vec<u8>, AllocError>
    ensures { IfOk result (λ v. ExtensionWritten (extension_of (resource_view resource.now)) v.items) }
{
    let extension = TypedExtensionConfig {
        name: resource.name.as_str(),
        typed_config: Some(Any {
            type_url: FILTER_TYPE,
            value: resource.filter.as_slice(),
        }),
    };
    let mut bytes = Vec::new(alloc);
    write_extension(&extension, &mut bytes)?;
    Ok(bytes)
}

// The messages, as resources of a response.
fn any_messages<'a>(alloc: Global, values: &'a [Vec<u8>]) -> Result<Vec<Any<'a>>, AllocError>
    ensures { IfOk result (λ v. map any_view v.items ≡ map (λ b. any_of b.items) values.now) }
{
    let mut any_messages = Vec::new(alloc);
    for value in values {
        any_messages.push(Any {
            type_url: EXTENSION_TYPE,
            value: value.as_slice(),
        })?;
    }
    Ok(any_messages)
}
