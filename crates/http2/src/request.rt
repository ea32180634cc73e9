//! The fields of a request, and of a call of gRPC.

ghost use Rattle.std.specs.Prelude.{◌≡◌, map};
ghost use Rattle.std.specs.Option.{option_map};
ghost use Rattle.hpack.specs.Field.{line_of};
ghost use Rattle.http2.specs.Request.{count_of, is_pseudo, is_allowed, are_allowed, are_in_order, has_octets, is_request, is_text, is_call};

use crate::answer::{is_grpc, value_of};
use crate::fields::{is_plain, is_value};
use hpack::Field;

// How many fields have this name.
fn count_of(fields: &[Field], name: &[u8]) -> usize
    ensures { result ≡ count_of name.now (map line_of fields.now) }
{
    let mut count = 0;
    let mut rest = fields;
    'fields: while let Some((field, others)) = rest.split_first() {
        if field.name.as_slice() == name {
            count += 1;
        }
        rest = others;
    }
    count
}

// Whether the name is that of a pseudo-field of a request.
fn is_pseudo(name: &[u8]) -> bool
    ensures { result ≡ is_pseudo name.now }
{
    name == b":method".as_slice()
        || name == b":scheme".as_slice()
        || name == b":path".as_slice()
        || name == b":authority".as_slice()
}

// Whether the field may come after the pseudo-fields.
fn is_allowed(field: &Field) -> bool
    ensures { result ≡ is_allowed (line_of field.now) }
{
    if field.name.as_slice() == b"te".as_slice() {
        return field.value.as_slice() == b"trailers".as_slice();
    }
    is_plain(field)
}

// Whether each field may.
fn are_allowed(fields: &[Field]) -> bool
    ensures { result ≡ are_allowed (map line_of fields.now) }
{
    let mut rest = fields;
    'fields: while let Some((field, others)) = rest.split_first() {
        if !is_allowed(field) {
            return false;
        }
        rest = others;
    }
    true
}

// Whether the pseudo-fields are in front, each with a value that a field may have.
fn are_in_order(fields: &[Field]) -> bool
    ensures { result ≡ are_in_order (map line_of fields.now) }
{
    let mut rest = fields;
    'fields: while let Some((field, others)) = rest.split_first() {
        if !is_pseudo(&field.name) {
            return are_allowed(rest);
        }
        if !is_value(&field.value) {
            return false;
        }
        rest = others;
    }
    true
}

// Whether there is a value, and it has octets.
fn has_octets(value: Option<&[u8]>) -> bool
    ensures { result ≡ has_octets (option_map (λ v. v.now) value.entry) }
{
    match value {
        Some([]) => false,
        Some(_) => true,
        None => false,
    }
}

/// Whether a request is well formed.
pub(crate) fn is_request(fields: &[Field]) -> bool
    ensures { result ≡ is_request (map line_of fields.now) }
{
    count_of(fields, b":method".as_slice()) == 1
        && count_of(fields, b":scheme".as_slice()) == 1
        && count_of(fields, b":path".as_slice()) == 1
        && count_of(fields, b":authority".as_slice()) <= 1
        && has_octets(value_of(fields, b":path".as_slice()))
        && are_in_order(fields)
}

// Whether a value is this text.
fn is_text(value: Option<&[u8]>, text: &[u8]) -> bool
    ensures { result ≡ is_text (option_map (λ v. v.now) value.entry) text.now }
{
    match value {
        Some(value) => value == text,
        None => false,
    }
}

/// Whether a request is a call of gRPC's method with this path.
pub fn is_call(path: &[u8], fields: &[Field]) -> bool
    ensures { result ≡ is_call path.now (map line_of fields.now) }
{
    is_text(value_of(fields, b":method".as_slice()), b"POST".as_slice())
        && is_text(value_of(fields, b":path".as_slice()), path)
        && is_grpc(fields)
}
