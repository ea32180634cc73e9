//! Whether fields are malformed (RFC 9113, 8.2 and 8.3).

ghost use Rattle.std.specs.Prelude.{◌≡◌, false, map};
ghost use Rattle.hpack.specs.Field.{line_of};
ghost use Rattle.http2.specs.Fields.{is_in_name, all_in_name, is_name, is_in_value, all_in_value, is_blank, begins_blank, ends_blank, is_value, is_of_connection, is_plain, are_plain, are_of_answer};

use hpack::Field;

// Whether an octet may be in a name.
fn is_in_name(byte: u8) -> bool
    ensures { result ≡ is_in_name byte }
{
    byte >= 33 && byte <= 126 && byte != 58 && (byte < 65 || byte > 90)
}

// Whether all octets may.
fn all_in_name(name: &[u8]) -> bool
    ensures { result ≡ all_in_name name.now }
{
    let mut rest = name;
    'bytes: while let Some((byte, others)) = rest.split_first() {
        if !is_in_name(*byte) {
            return false;
        }
        rest = others;
    }
    true
}

// Whether a field may have this name.
fn is_name(name: &[u8]) -> bool
    ensures { result ≡ is_name name.now }
{
    match name {
        [] => false,
        [_, ..] => all_in_name(name),
    }
}

// Whether an octet may be in a value.
fn is_in_value(byte: u8) -> bool
    ensures { result ≡ is_in_value byte }
{
    byte != 0 && byte != 10 && byte != 13
}

// Whether all octets may.
fn all_in_value(value: &[u8]) -> bool
    ensures { result ≡ all_in_value value.now }
{
    let mut rest = value;
    'bytes: while let Some((byte, others)) = rest.split_first() {
        if !is_in_value(*byte) {
            return false;
        }
        rest = others;
    }
    true
}

// Whether an octet is a space or a tab.
fn is_blank(byte: u8) -> bool
    ensures { result ≡ is_blank byte }
{
    byte == 32 || byte == 9
}

// Whether the first octet is one.
fn begins_blank(value: &[u8]) -> bool
    ensures { result ≡ begins_blank value.now }
{
    match value {
        [] => false,
        [byte, ..] => is_blank(*byte),
    }
}

// Whether the last octet is one.
fn ends_blank(value: &[u8]) -> bool
    ensures { result ≡ ends_blank false value.now }
{
    let mut rest = value;
    let mut blank = false;
    'bytes: while let Some((byte, others)) = rest.split_first() {
        blank = is_blank(*byte);
        rest = others;
    }
    blank
}

/// Whether a field may have this value.
pub(crate) fn is_value(value: &[u8]) -> bool
    ensures { result ≡ is_value value.now }
{
    all_in_value(value) && !begins_blank(value) && !ends_blank(value)
}

// Whether the field of this name is about a connection of HTTP/1.1.
fn is_of_connection(name: &[u8]) -> bool
    ensures { result ≡ is_of_connection name.now }
{
    name == b"connection".as_slice()
        || name == b"proxy-connection".as_slice()
        || name == b"keep-alive".as_slice()
        || name == b"transfer-encoding".as_slice()
        || name == b"upgrade".as_slice()
}

/// Whether the field is no pseudo-field and may be there.
pub(crate) fn is_plain(field: &Field) -> bool
    ensures { result ≡ is_plain (line_of field.now) }
{
    is_name(&field.name) && !is_of_connection(&field.name) && is_value(&field.value)
}

/// Whether each field is such a one, as in trailers.
pub(crate) fn are_plain(fields: &[Field]) -> bool
    ensures { result ≡ are_plain (map line_of fields.now) }
{
    let mut rest = fields;
    'fields: while let Some((field, others)) = rest.split_first() {
        if !is_plain(field) {
            return false;
        }
        rest = others;
    }
    true
}

/// Whether these are the fields of an answer: its status, and such ones.
pub(crate) fn are_of_answer(fields: &[Field]) -> bool
    ensures { result ≡ are_of_answer (map line_of fields.now) }
{
    let Some((first, others)) = fields.split_first() else {
        return false;
    };
    first.name.as_slice() == b":status".as_slice() && are_plain(others)
}
