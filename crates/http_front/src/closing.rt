//! Whether the connection closes after a request (RFC 9112, section 9.6).
ghost use Rattle.std.specs.Prelude.{◌≡◌, All, length, map, reverse};
ghost use Rattle.std.specs.Iterator.{YieldsFirstRef, item_count};
ghost use Rattle.std.specs.List.{list_any};
ghost use Rattle.httparse.specs.Grammar.{skip_ows, trim_ows};
ghost use Rattle.httparse.specs.Spans.{IsHeaderWithin, header_bytes};
ghost use Rattle.http_front.specs.Closing.{elements, is_close, lists_close};
ghost use Rattle.http_front.specs.Rules.{lowered};
ghost use Rattle.http_front.specs.private.Elements.{elements_left};

use httparse::is_space_or_tab;
use httparse::spans::HeaderSpan;

/// Whether one of these fields is a Connection field that lists the option `close`.
pub(crate) fn list_close(bytes: &[u8], fields: &[HeaderSpan]) -> bool
    requires { All (IsHeaderWithin (length bytes.now)) fields.now }
    ensures { result ≡ list_any lists_close (map lowered (map (header_bytes bytes.now) fields.now)) }
{
    for field in fields {
        if is_closing(field.name.of(bytes), field.value.of(bytes)) {
            return true;
        }
    }
    false
}

// Whether this is a Connection field that lists `close`.
fn is_closing(name: &[u8], value: &[u8]) -> bool
    ensures { result ≡ lists_close (lowered (name.now, value.now)) }
{
    if name.eq_ignore_ascii_case(b"connection") {
        return lists_close(value);
    }
    false
}

fn lists_close(value: &[u8]) -> bool
    ensures { result ≡ list_any is_close (elements value.now) }
{
    Elements::new(value).any(|element| is_close(element))
}

fn is_close(element: &[u8]) -> bool
    ensures { result ≡ is_close element.now }
{
    element.eq_ignore_ascii_case(b"close")
}

// The elements of a list, without the spaces and tabs around each (RFC 9110, section 5.6.1).
#[derive(Drop)]
struct Elements<'a> {
    rest: Option<&'a [u8]>,
}

impl<'a> Elements<'a> {
    fn new(value: &'a [u8]) -> Elements<'a>
        ensures { elements_left result ≡ elements value.now }
    {
        Elements { rest: Some(value) }
    }
}

impl<'a> Iterator for Elements<'a> {
    type Item = &'a [u8];

    ghost next_gives = { YieldsFirstRef elements_left };

    ghost remaining = { item_count elements_left };

    fn next(&mut self) -> Option<&'a [u8]> {
        let rest = self.rest?;
        match rest.iter().position(|b| *b == b',') {
            Some(comma) => {
                self.rest = Some(&rest[comma + 1..]);
                Some(trim_ows(&rest[..comma]))
            }
            None => {
                self.rest = None;
                Some(trim_ows(rest))
            }
        }
    }
}

/// The bytes without the spaces and tabs at both ends.
pub(crate) fn trim_ows(text: &[u8]) -> &[u8]
    ensures { result.now ≡ trim_ows text.now }
{
    trim_end(trim_start(text))
}

fn trim_start(mut text: &[u8]) -> &[u8]
    ensures { result.now ≡ skip_ows text.now }
{
    while let [first, rest @ ..] = text
        && is_space_or_tab(*first)
    {
        text = rest;
    }
    text
}

fn trim_end(mut text: &[u8]) -> &[u8]
    ensures { result.now ≡ reverse (skip_ows (reverse text.now)) }
{
    while let [rest @ .., last] = text
        && is_space_or_tab(*last)
    {
        text = rest;
    }
    text
}
