//! The fields of an answer that count for a call of gRPC.

ghost use Rattle.std.specs.Prelude.{◌≡◌, map, None};
ghost use Rattle.std.specs.Option.{option_map};
ghost use Rattle.hpack.specs.Field.{line_of};
ghost use Rattle.http2.specs.Answer.{value_of, digit_of, number_in, number_of, status_in, status_of, is_grpc, is_interim, meant_by, refusal_in, decimal_in, digits_from, agrees, length_from, without, is_whole};

use hpack::Field;

/// The value of the first field of this name.
pub(crate) fn value_of<'a>(fields: &'a [Field], name: &[u8]) -> Option<&'a [u8]>
    ensures { option_map (λ v. v.now) result ≡ value_of name.now (map line_of fields.now) }
{
    let mut rest = fields;
    'fields: while let Some((field, others)) = rest.split_first() {
        if field.name.as_slice() == name {
            return Some(field.value.as_slice());
        }
        rest = others;
    }
    None
}

// The number that a digit means.
fn digit_of(digit: u8) -> Option<u32>
    ensures { result ≡ digit_of digit }
{
    if digit < 48 || digit > 57 {
        return None;
    }
    Some(digit as u32 - 48)
}

// The number of one to three digits.
fn number_in(text: &[u8]) -> Option<u32>
    ensures { result ≡ number_in text.now }
{
    match text {
        [a] => digit_of(*a),
        [a, b] => Some(digit_of(*a)? * 10 + digit_of(*b)?),
        [a, b, c] => Some((digit_of(*a)? * 10 + digit_of(*b)?) * 10 + digit_of(*c)?),
        _ => None,
    }
}

/// The number that the first field of this name has, if it has one to three digits.
pub(crate) fn number_of(fields: &[Field], name: &[u8]) -> Option<u32>
    ensures { result ≡ number_of name.now (map line_of fields.now) }
{
    number_in(value_of(fields, name)?)
}

// The status of HTTP that a value is: three digits.
fn status_in(text: &[u8]) -> Option<u32>
    ensures { result ≡ status_in text.now }
{
    match text {
        [a, b, c] => Some((digit_of(*a)? * 10 + digit_of(*b)?) * 10 + digit_of(*c)?),
        _ => None,
    }
}

/// The status of an answer, whose first field has it.
pub(crate) fn status_of(fields: &[Field]) -> Option<u32>
    ensures { result ≡ status_of (map line_of fields.now) }
{
    let (first, _others) = fields.split_first()?;
    status_in(&first.value)
}

/// Whether a status is interim.
pub(crate) fn is_interim(status: u32) -> bool
    ensures { result ≡ is_interim status }
{
    status >= 100 && status < 200
}

/// Whether the content is gRPC's.
pub(crate) fn is_grpc(fields: &[Field]) -> bool
    ensures { result ≡ is_grpc (map line_of fields.now) }
{
    match value_of(fields, b"content-type".as_slice()) {
        Some(kind) => kind.starts_with(b"application/grpc".as_slice()),
        None => false,
    }
}

// The grpc-status that a status of HTTP means.
fn meant_by(status: u32) -> u32
    ensures { result ≡ meant_by status }
{
    match status {
        400 => 13,
        401 => 16,
        403 => 7,
        404 => 12,
        429 | 502 | 503 | 504 => 14,
        _ => 2,
    }
}

/// The grpc-status of fields that are no answer of gRPC.
pub(crate) fn refusal_in(status: u32, fields: &[Field]) -> u32
    ensures { result ≡ refusal_in status (map line_of fields.now) }
{
    match number_of(fields, b"grpc-status".as_slice()) {
        Some(told) => told,
        None => meant_by(status),
    }
}

// The number of these digits, if it is below 10^18.
fn decimal_in(text: &[u8]) -> Option<u64>
    ensures { result ≡ decimal_in text.now }
{
    if text.is_empty() {
        return None;
    }
    let mut rest = text;
    let mut number: u64 = 0;
    'digits: while let Some((digit, others)) = rest.split_first() {
        if number > 99_999_999_999_999_999 || *digit < 48 || *digit > 57 {
            return None;
        }
        number = number * 10 + (*digit - 48) as u64;
        rest = others;
    }
    Some(number)
}

// Whether a content-length agrees with the one before it.
fn agrees(told: Option<u64>, next: Option<u64>) -> bool
    ensures { result ≡ agrees told next }
{
    match (told, next) {
        (_, None) => false,
        (None, Some(_)) => true,
        (Some(m), Some(n)) => m == n,
    }
}

/// The content-length that fields tell, if they tell one. None if it is wrong.
pub(crate) fn length_of(fields: &[Field]) -> Option<Option<u64>>
    ensures { result ≡ length_from None (map line_of fields.now) }
{
    let mut rest = fields;
    let mut told = None;
    'fields: while let Some((field, others)) = rest.split_first() {
        if field.name.as_slice() == b"content-length".as_slice() {
            let next = decimal_in(&field.value);
            if !agrees(told, next) {
                return None;
            }
            told = next;
        }
        rest = others;
    }
    Some(told)
}

/// What is still to come of the content, if that was told. None if more came than that.
pub(crate) fn without(left: Option<u64>, count: usize) -> Option<Option<u64>>
    ensures { result ≡ without left count }
{
    let Some(left) = left else {
        return Some(None);
    };
    if left < count as u64 {
        return None;
    }
    Some(Some(left - count as u64))
}

/// Whether the content is whole, as far as was told.
pub(crate) fn is_whole(left: Option<u64>) -> bool
    ensures { result ≡ is_whole left }
{
    match left {
        Some(left) => left == 0,
        None => true,
    }
}
