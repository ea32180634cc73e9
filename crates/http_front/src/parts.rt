//! The parts of a request, as a proxy has them (RFC 9112, sections 3 and 5; RFC 9113, section 8.3).
ghost use Rattle.std.specs.Prelude.{◌≡◌, ◌↔◌, IsTrue, IsUtf8};
ghost use Rattle.httparse.specs.Grammar.{trim_ows};
ghost use Rattle.http_front.specs.Parts.{field_view, is_authority, is_host_of, line_name};

use crate::closing::trim_ows;
use attributes::Protocol;
use std::str;

/// A field: its name in any case, and its value. Its layout is C's, so that a list of fields from C is not copied.
#[repr(C)]
#[derive(Drop)]
pub struct Line<'a> {
    /// The name. `:authority` of HTTP/2 is the host.
    pub name: &'a [u8],
    /// The value. Spaces and tabs at its ends do not count.
    pub value: &'a [u8],
}

/// The parts of a request.
#[derive(Drop)]
pub struct HeadParts<'a> {
    /// The method.
    pub method: &'a [u8],
    /// The target, as a head of HTTP/1 has it: `:path` of HTTP/2.
    pub target: &'a [u8],
    /// The protocol. HTTP/2 and HTTP/3 have the rules of a head of HTTP/1.1.
    pub protocol: Protocol,
    /// The fields in order, with the host as `host` or `:authority` and no other pseudo-header.
    pub lines: &'a [Line<'a>],
}

impl<'a> Line<'a> {
    /// Whether this is the host by its name in HTTP/2.
    pub(crate) fn is_authority(&self) -> bool
        ensures { result ≡ is_authority self.now.name.now }
    {
        match self.name {
            [b':', name @ ..] => name.eq_ignore_ascii_case(b"authority"),
            _ => false,
        }
    }

    /// Whether this is a Host with this value.
    pub(crate) fn is_host_of(&self, value: &[u8]) -> bool
        ensures { result ≡ is_host_of value.now (field_view self.now) }
    {
        self.name.eq_ignore_ascii_case(b"host") && trim_ows(self.value) == trim_ows(value)
    }

    /// The name under which a head has the field.
    #[inline(always)]
    pub(crate) fn head_name(&self) -> &[u8]
        ensures { result.now ≡ line_name self.now.name.now }
    {
        if self.is_authority() {
            return b"host";
        }
        self.name
    }

    /// The value without the spaces and tabs at its ends.
    pub(crate) fn head_value(&self) -> &[u8]
        ensures { result.now ≡ trim_ows self.now.value.now }
    {
        trim_ows(self.value)
    }

    /// Whether the value is UTF-8.
    pub(crate) fn is_text(&self) -> bool
        ensures { IsTrue result ↔ IsUtf8 (trim_ows self.now.value.now) }
    {
        if self.value.is_ascii() {
            return true;
        }
        str::from_utf8(self.value).is_ok()
    }
}
