//! Tests of a request's header (`envoy.config.route.v3.HeaderMatcher`), and the reading of their messages.

ghost use Rattle.std.specs.Prelude.{◌≡◌, ◌≢◌, ◌⊎◌, [], Some, None, IfOk, IfErr, map};
ghost use Rattle.std.specs.Str.{IsUtf8};
ghost use Rattle.proto_wire.specs.Fields.{field_view};
ghost use Rattle.proto_wire.specs.Merge.{parts_view};
ghost use Rattle.proto_wire.specs.Oneof.{member_in};
ghost use Rattle.proto_wire.specs.Places.{FaultOr};
ghost use Rattle.proto_wire.specs.Reading.{OneofFault, IsUnsupported};
ghost use Rattle.proto_wire.specs.Values.{bytes_at, Utf8Fault};
ghost use Rattle.proto_wire.specs.declared.refusal.Refusal.TheVariants.{Missing, Unsupported};
ghost use Rattle.rbac_match.specs.Header.{header_field, specifiers, SaysMember, SaysSpecifier, IsHeader, HeaderMemberFault, HeaderFault};

use crate::int64_range::{Int64Range, read_int64_range};
use crate::text::{Pattern, TextMatcher, read_text_matcher, sought_text};
use proto_wire::{
    Fault, Field, Key, Refusal, at_field, bool_at, bytes_at, inside_field, keys, last_number,
    member_run, payloads_of, read_message_at, text_of,
};
use std::alloc::Global;
use std::marker::Model;

/// What a test requires of a header.
#[derive(Drop)]
pub enum Specifier<'a> {
    /// The header is present if `true`, and missing if `false`.
    Present(bool),
    /// The header's value passes the test of texts.
    Text(TextMatcher<'a>),
    /// The header's value is a decimal number in the range.
    Range(Int64Range),
}

/// A test of a request's header, as a message has it. The case of letters in its name does not count.
#[derive(Drop)]
pub struct HeaderMatcher<'a> {
    pub(crate) name: &'a str,
    pub(crate) specifier: Specifier<'a>,
    pub(crate) invert_match: bool,
    pub(crate) treat_missing_header_as_empty: bool,
}

impl<'a> Model for HeaderMatcher<'a> {
    ghost use Rattle.std.specs.Str.{str_to_ascii_lowercase};
    ghost use Rattle.rbac_match.specs.Header.{HeaderTest};

    ghost Value = { HeaderTest };

    ghost view = { λ m. record {
      name = str_to_ascii_lowercase m.name.now;
      specifier = m.specifier;
      invert_match = m.invert_match;
      treat_missing_header_as_empty = m.treat_missing_header_as_empty;
    } };
}

/// A supported member of the oneof, by the kind of its test.
#[derive(Clone, Copy)]
pub(crate) enum HeaderMember {
    /// `exact_match`, `prefix_match`, `suffix_match` or `contains_match`
    Text(Pattern),
    /// `range_match`
    Range,
    /// `present_match`
    Present,
    /// `string_match`
    Matcher,
}

pub(crate) const NAME: u32 = 1;

pub(crate) const EXACT_MATCH: u32 = 4;

pub(crate) const RANGE_MATCH: u32 = 6;

const PRESENT_MATCH: u32 = 7;

const INVERT_MATCH: u32 = 8;

pub(crate) const PREFIX_MATCH: u32 = 9;

pub(crate) const SUFFIX_MATCH: u32 = 10;

pub(crate) const SAFE_REGEX_MATCH: u32 = 11;

pub(crate) const CONTAINS_MATCH: u32 = 12;

pub(crate) const STRING_MATCH: u32 = 13;

const TREAT_MISSING_HEADER_AS_EMPTY: u32 = 14;

static SPECIFIERS: [Key; 8] = keys![
    Len EXACT_MATCH, Len RANGE_MATCH, Varint PRESENT_MATCH, Len PREFIX_MATCH, Len SUFFIX_MATCH,
    Len SAFE_REGEX_MATCH, Len CONTAINS_MATCH, Len STRING_MATCH
];

static HEADER_MATCHER: [Key; 11] = keys![
    Len NAME, Varint INVERT_MATCH, Varint TREAT_MISSING_HEADER_AS_EMPTY, Len EXACT_MATCH,
    Len RANGE_MATCH, Varint PRESENT_MATCH, Len PREFIX_MATCH, Len SUFFIX_MATCH,
    Len SAFE_REGEX_MATCH, Len CONTAINS_MATCH, Len STRING_MATCH
];

/// Reads a HeaderMatcher from its parts. `Missing`: it has no name. `BadText`: the name or the last member's
/// text is not UTF-8. `OutOfRange`: a prefix, a suffix or a contained text is empty. `Unsupported`: the last
/// member is a regular expression.
pub(crate) fn read_header_matcher<'a>(
    alloc: Global,
    parts: &[&'a [u8]],
) -> Result<HeaderMatcher<'a>, Fault>
    ensures found { IfOk result (λ h. IsHeader (parts_view parts.now) h) }
    ensures fault { IfErr result (FaultOr (HeaderFault (parts_view parts.now))) }
{
    let fields = read_message_at(alloc, parts, &HEADER_MATCHER)?;
    let specifier = read_specifier(alloc, &fields)?;
    let name = at_field(header_name(&fields), NAME)?;
    let invert_match = bool_at(&fields, INVERT_MATCH);
    let treat_missing_header_as_empty = bool_at(&fields, TREAT_MISSING_HEADER_AS_EMPTY);
    Ok(HeaderMatcher {
        name,
        specifier,
        invert_match,
        treat_missing_header_as_empty,
    })
}

// The name as the message has it; it is not empty.
fn header_name<'a>(fields: &[Field<'a>]) -> Result<&'a str, Refusal>
    ensures found { let bytes = bytes_at header_field.name (map field_view fields.now) in
        IfOk result (λ name. (name.now ≡ bytes) × IsUtf8 bytes × (bytes ≢ [])) }
    ensures fault { let bytes = bytes_at header_field.name (map field_view fields.now) in
        IfErr result (λ e. Utf8Fault bytes e ⊎ ((e ≡ Missing) × (bytes ≡ []))) }
{
    let bytes = bytes_at(fields, NAME);
    if bytes.is_empty() {
        return Err(Refusal::Missing);
    }
    text_of(bytes)
}

// What the last member requires; without a member, the header must be present.
fn read_specifier<'a>(alloc: Global, fields: &[Field<'a>]) -> Result<Specifier<'a>, Fault>
    ensures found { IfOk result (λ s. SaysSpecifier (map field_view fields.now) s) }
    ensures fault { IfErr result (FaultOr
        (OneofFault specifiers IsUnsupported HeaderMemberFault (map field_view fields.now))) }
{
    let Some(number) = last_number(fields, &SPECIFIERS) else {
        return Ok(Specifier::Present(true));
    };
    let member = at_field(header_member(number), number)?;
    let run = member_run(alloc, fields, &SPECIFIERS)?;
    inside_field(read_header_member(alloc, member, number, &run), number, 0)
}

// The member of this number; a regular expression is not supported.
fn header_member(number: u32) -> Result<HeaderMember, Refusal>
    ensures found { IfOk result (λ member. member_in specifiers number ≡ Some member) }
    ensures fault { IfErr result (λ e. (member_in specifiers number ≡ None) × (e ≡ Unsupported)) }
{
    match number {
        EXACT_MATCH => Ok(HeaderMember::Text(Pattern::Exact)),
        RANGE_MATCH => Ok(HeaderMember::Range),
        PRESENT_MATCH => Ok(HeaderMember::Present),
        PREFIX_MATCH => Ok(HeaderMember::Text(Pattern::Prefix)),
        SUFFIX_MATCH => Ok(HeaderMember::Text(Pattern::Suffix)),
        CONTAINS_MATCH => Ok(HeaderMember::Text(Pattern::Contains)),
        STRING_MATCH => Ok(HeaderMember::Matcher),
        _ => Err(Refusal::Unsupported),
    }
}

// Reads from its run what this member requires. If the member is itself a text, the case of letters counts.
fn read_header_member<'a>(
    alloc: Global,
    member: HeaderMember,
    number: u32,
    run: &[Field<'a>],
) -> Result<Specifier<'a>, Fault>
    ensures found { IfOk result (λ s. SaysMember member number (map field_view run.now) s) }
    ensures fault { IfErr result (FaultOr
        (HeaderMemberFault member number (map field_view run.now))) }
{
    match member {
        HeaderMember::Text(pattern) => {
            let sought = sought_text(pattern, bytes_at(run, number))?;
            Ok(Specifier::Text(TextMatcher::new(pattern, sought, false)))
        }
        HeaderMember::Range => {
            let parts = payloads_of(alloc, run, number)?;
            Ok(Specifier::Range(read_int64_range(alloc, &parts)?))
        }
        HeaderMember::Present => Ok(Specifier::Present(bool_at(run, number))),
        HeaderMember::Matcher => {
            let parts = payloads_of(alloc, run, number)?;
            Ok(Specifier::Text(read_text_matcher(alloc, &parts)?))
        }
    }
}
