//! Tests of a text (`envoy.type.matcher.v3.StringMatcher`): the reading of their messages, and which texts
//! pass.

ghost use Rattle.std.specs.Prelude.{◌≡◌, Some, None, nat_eq, IfOk, IfErr, MatchOption, map};
ghost use Rattle.std.specs.List.{starts_with, ends_with};
ghost use Rattle.std.specs.Map.{keys_of};
ghost use Rattle.std.specs.Str.{str_to_ascii_lowercase};
ghost use Rattle.proto_wire.specs.Fields.{field_view};
ghost use Rattle.proto_wire.specs.Merge.{parts_view};
ghost use Rattle.proto_wire.specs.Places.{FaultOr};
ghost use Rattle.proto_wire.specs.Values.{bytes_at};
ghost use Rattle.proto_wire.specs.declared.refusal.Refusal.TheVariants.{Missing};
ghost use Rattle.proto_wire.specs.Oneof.{last_number, member_in};
ghost use Rattle.rbac_match.specs.Text.{is_substring, pattern_holds, string_members, IsSought, IsTextMatcher, SoughtFault, TextFault};
ghost use Rattle.rbac_match.specs.private.Leaves.{pattern_of};

use memchr::memmem;
use proto_wire::{
    Fault, Field, Key, Refusal, at_field, bool_at, bytes_at, keys, last_number, read_message_at,
    text_of,
};
use std::alloc::Global;
use std::marker::Model;

/// How a text is compared with the sought one.
#[derive(Clone, Copy, PartialEq, Eq)]
pub enum Pattern {
    /// The text is the sought one.
    Exact,
    /// The text begins with the sought one.
    Prefix,
    /// The text ends with the sought one.
    Suffix,
    /// The text contains the sought one.
    Contains,
}

/// How a text is compared with the sought one, from its ends.
#[derive(Clone, Copy)]
pub(crate) enum Ends {
    /// The text is the sought one.
    Exact,
    /// The text begins with the sought one.
    Prefix,
    /// The text ends with the sought one.
    Suffix,
}

/// A test of a text, as a message has it.
#[derive(Drop)]
pub struct TextMatcher<'a> {
    pub(crate) pattern: Pattern,
    pub(crate) sought: &'a str,
    pub(crate) ignore_case: bool,
}

impl<'a> Model for TextMatcher<'a> {
    ghost use Rattle.rbac_match.specs.Text.{TextTest, IsFilled};

    ghost Value = { TextTest };

    ghost view = { λ m. record {
      pattern = m.pattern;
      sought = m.sought.now;
      ignore_case = m.ignore_case;
    } };

    ghost invariant = { λ m. IsFilled m.pattern m.sought.now };
}

pub(crate) const EXACT: u32 = 1;

pub(crate) const PREFIX: u32 = 2;

pub(crate) const SUFFIX: u32 = 3;

pub(crate) const SAFE_REGEX: u32 = 5;

const IGNORE_CASE: u32 = 6;

pub(crate) const CONTAINS: u32 = 7;

static STRING_MEMBERS: [Key; 5] = keys![
    Len EXACT, Len PREFIX, Len SUFFIX, Len SAFE_REGEX, Len CONTAINS
];

static STRING_MATCHER: [Key; 6] = keys![
    Varint IGNORE_CASE, Len EXACT, Len PREFIX, Len SUFFIX, Len SAFE_REGEX, Len CONTAINS
];

impl<'a> TextMatcher<'a> {
    /// The test by this pattern; the pattern allows the sought text.
    pub(crate) fn new(pattern: Pattern, sought: &'a str, ignore_case: bool) -> Self
        requires { IsSought pattern sought.now }
        ensures { result
            ≡ record { pattern = pattern; sought = sought.now; ignore_case = ignore_case } }
    {
        TextMatcher {
            pattern,
            sought,
            ignore_case,
        }
    }
}

/// Reads a StringMatcher from its parts. `Missing`: it has no member. `BadText`: the last member's text is
/// not UTF-8. `OutOfRange`: a prefix, a suffix or a contained text is empty. `Unsupported`: the last member
/// is a regular expression.
pub(crate) fn read_text_matcher<'a>(
    alloc: Global,
    parts: &[&'a [u8]],
) -> Result<TextMatcher<'a>, Fault>
    ensures found { IfOk result (λ m. IsTextMatcher (parts_view parts.now) m) }
    ensures fault { IfErr result (FaultOr (TextFault (parts_view parts.now))) }
{
    let fields = read_message_at(alloc, parts, &STRING_MATCHER)?;
    let (pattern, sought) = last_pattern(&fields)?;
    let ignore_case = bool_at(&fields, IGNORE_CASE);
    Ok(TextMatcher::new(pattern, sought, ignore_case))
}

// The pattern and the text of the last member.
fn last_pattern<'a>(fields: &[Field<'a>]) -> Result<(Pattern, &'a str), Fault>
    ensures found { let fs = map field_view fields.now in IfOk result (λ p.
        MatchOption (last_number (keys_of string_members) fs) ⊥ (λ n.
        (member_in string_members n ≡ Some p.0) × (p.1.now ≡ bytes_at n fs)
        × IsSought p.0 p.1.now)) }
    ensures fault { let fs = map field_view fields.now in IfErr result (λ e.
        MatchOption (last_number (keys_of string_members) fs) (e.refusal ≡ Missing) (λ n.
        SoughtFault (member_in string_members n) (bytes_at n fs) e.refusal)) }
{
    let Some(number) = last_number(fields, &STRING_MEMBERS) else {
        return Err(Fault::at(Refusal::Missing, 0));
    };
    let Some(pattern) = pattern_at(number) else {
        return Err(Fault::at(Refusal::Unsupported, number));
    };
    let sought = at_field(sought_text(pattern, bytes_at(fields, number)), number)?;
    Ok((pattern, sought))
}

// The pattern of the member of this number; `None` for a regular expression.
fn pattern_at(number: u32) -> Option<Pattern>
    ensures { result ≡ member_in string_members number }
{
    match number {
        EXACT => Some(Pattern::Exact),
        PREFIX => Some(Pattern::Prefix),
        SUFFIX => Some(Pattern::Suffix),
        CONTAINS => Some(Pattern::Contains),
        _ => None,
    }
}

/// The bytes as a text to seek by this pattern. `BadText`: they are not UTF-8. `OutOfRange`: they are empty,
/// and the pattern is not `Exact`.
pub(crate) fn sought_text(pattern: Pattern, bytes: &[u8]) -> Result<&str, Refusal>
    ensures found { IfOk result (λ sought. (sought.now ≡ bytes.now) × IsSought pattern bytes.now) }
    ensures fault { IfErr result (SoughtFault (Some pattern) bytes.now) }
{
    if bytes.is_empty() && pattern != Pattern::Exact {
        return Err(Refusal::OutOfRange);
    }
    text_of(bytes)
}

/// Whether the text is, begins with, ends with or contains the sought one.
#[inline(always)]
pub(crate) fn holds(pattern: Pattern, sought: &[u8], text: &[u8]) -> bool
    ensures { result ≡ pattern_holds pattern sought.now text.now }
{
    match pattern {
        Pattern::Exact => text == sought,
        Pattern::Prefix => text.starts_with(sought),
        Pattern::Suffix => text.ends_with(sought),
        Pattern::Contains => contains(text, sought),
    }
}

// Not inlined: the search is long code, and few patterns need it.
#[inline(never)]
fn contains(text: &[u8], part: &[u8]) -> bool
    ensures { result ≡ is_substring part.now text.now }
{
    memmem::find(text, part).is_some()
}

/// Whether the text is, begins with or ends with the sought one, in any case of letters.
#[inline(never)]
pub(crate) fn holds_ignore_case(ends: Ends, sought: &[u8], text: &[u8]) -> bool
    ensures { result ≡ pattern_holds (pattern_of ends) (str_to_ascii_lowercase sought.now)
        (str_to_ascii_lowercase text.now) }
{
    match ends {
        Ends::Exact => text.eq_ignore_ascii_case(sought),
        Ends::Prefix => starts_with_ignore_case(text, sought),
        Ends::Suffix => ends_with_ignore_case(text, sought),
    }
}

fn starts_with_ignore_case(text: &[u8], start: &[u8]) -> bool
    ensures { result ≡ starts_with nat_eq (str_to_ascii_lowercase text.now)
        (str_to_ascii_lowercase start.now) }
{
    start.len() <= text.len() && text[..start.len()].eq_ignore_ascii_case(start)
}

fn ends_with_ignore_case(text: &[u8], end: &[u8]) -> bool
    ensures { result ≡ ends_with nat_eq (str_to_ascii_lowercase text.now)
        (str_to_ascii_lowercase end.now) }
{
    end.len() <= text.len() && text[text.len() - end.len()..].eq_ignore_ascii_case(end)
}
