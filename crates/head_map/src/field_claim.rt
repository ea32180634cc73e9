//! Reads the claim that a field of a front proxy makes of its client.
ghost use Rattle.std.specs.Prelude.{◌≡◌, ◌↔◌, IsTrue, MatchOption, Some, ℕ, List, length, option_map, slice_get, slice_index};
ghost use Rattle.std.specs.Option.{option_copied};
ghost use Rattle.attributes.specs.declared.address.Ip.{Ip};
ghost use Rattle.httparse.specs.Grammar.{is_token, is_uri_byte};
ghost use Rattle.std.specs.List.{list_all};
ghost use Rattle.head_map.specs.Claims.{Claim, IsClientIp, IsForwarded, IsFromRight, IsPortText, Reads, begins_with_slash, is_host, is_scheme, is_target, parts_of, text_of, without_back_blanks, without_front_blanks};
ghost use Rattle.head_map.specs.private.FieldClaims.{claim_of};

use crate::fact::Fact;
use attributes::{Ip, parse_ip};
use httparse::{is_token, is_uri_token};

/// What a field says.
#[derive(Clone, Copy, Debug)]
pub(crate) enum FieldClaim<'a> {
    Method(&'a str),
    Target(&'a str),
    Host(&'a str),
    Scheme(&'a str),
    RemoteIp(Ip),
    DirectRemoteIp(Ip),
    SourcePort(u16),
    Mtls(bool),
    RequestedServerName(Option<&'a str>),
    SubjectPeerCertificate(Option<&'a str>),
    DnsSanPeerCertificate(Option<&'a str>),
    UriSanPeerCertificate(Option<&'a str>),
}

/// What a field that holds this fact says by its value; `None` if the value does not spell it.
pub(crate) fn read<'a>(fact: &Fact, value: &'a str) -> Option<FieldClaim<'a>>
    ensures { MatchOption result ((claim : Claim) → ¬ (Reads fact.now value.now claim))
        (λ claim. Reads fact.now value.now (claim_of claim)) }
{
    match fact {
        Fact::Method => {
            if is_token(value.as_bytes()) {
                return Some(FieldClaim::Method(value));
            }
            None
        }
        Fact::Target => {
            if is_target(value.as_bytes()) {
                return Some(FieldClaim::Target(value));
            }
            None
        }
        Fact::Host => {
            if is_host(value.as_bytes()) {
                return Some(FieldClaim::Host(value));
            }
            None
        }
        Fact::Scheme => {
            if is_scheme(value) {
                return Some(FieldClaim::Scheme(value));
            }
            None
        }
        Fact::RemoteIp => Some(FieldClaim::RemoteIp(client_ip(value)?)),
        Fact::ForwardedFor(place) => Some(FieldClaim::RemoteIp(forwarded(*place, value)?)),
        Fact::DirectRemoteIp => Some(FieldClaim::DirectRemoteIp(client_ip(value)?)),
        Fact::SourcePort => Some(FieldClaim::SourcePort(parse_port(value)?)),
        Fact::Mtls(text) => Some(FieldClaim::Mtls(value == text.as_str())),
        Fact::RequestedServerName => Some(FieldClaim::RequestedServerName(text_of(value))),
        Fact::SubjectPeerCertificate => Some(FieldClaim::SubjectPeerCertificate(text_of(value))),
        Fact::DnsSanPeerCertificate => Some(FieldClaim::DnsSanPeerCertificate(text_of(value))),
        Fact::UriSanPeerCertificate => Some(FieldClaim::UriSanPeerCertificate(text_of(value))),
    }
}

// The text; an empty one says that there is none.
fn text_of(value: &str) -> Option<&str>
    ensures { option_map (λ text. text.now) result ≡ text_of value.now }
{
    if value.is_empty() {
        return None;
    }
    Some(value)
}

// Whether this is a target in origin form.
fn is_target(text: &[u8]) -> bool
    ensures { result ≡ is_target text.now }
{
    begins_with_slash(text) && all_visible(text)
}

fn begins_with_slash(text: &[u8]) -> bool
    ensures { result ≡ begins_with_slash text.now }
{
    matches!(text, [b'/', ..])
}

// Whether this may be the value of a Host field.
fn is_host(text: &[u8]) -> bool
    ensures { result ≡ is_host text.now }
{
    !text.is_empty() && all_visible(text)
}

// Whether a request line may have all these bytes in its target.
fn all_visible(text: &[u8]) -> bool
    ensures { result ≡ list_all is_uri_byte text.now }
{
    text.iter().all(|byte| is_uri_token(*byte))
}

fn is_scheme(text: &str) -> bool
    ensures { result ≡ is_scheme text.now }
{
    text == "http" || text == "https"
}

// The port that the digits spell.
fn parse_port(text: &str) -> Option<u16>
    ensures { MatchOption result ((port : ℕ) → ¬ (IsPortText text.now port)) (IsPortText text.now) }
{
    if has_plus(text.as_bytes()) {
        return None;
    }
    text.parse::<u16>().ok()
}

// Whether a plus comes first.
fn has_plus(text: &[u8]) -> bool
    ensures { IsTrue result ↔ (slice_index text.now 0 ≡ 43) }
{
    matches!(text, [b'+', ..])
}

// The address at this place from the right; the last is at place 1.
fn forwarded(place: usize, value: &str) -> Option<Ip>
    ensures { MatchOption result ((ip : Ip) → ¬ (IsForwarded place value.now ip)) (IsForwarded place value.now) }
{
    client_ip(part_from_right(place, value)?.trim_ascii())
}

// The address that the text spells, in its one form.
fn client_ip(text: &str) -> Option<Ip>
    ensures { MatchOption result ((ip : Ip) → ¬ (IsClientIp text.now ip)) (IsClientIp text.now) }
{
    match parse_ip(text) {
        Some(ip) => Some(ip.unmapped()),
        None => None,
    }
}

// The part between commas at this place from the right.
fn part_from_right(place: usize, value: &str) -> Option<&str>
    ensures { MatchOption result ((part : List ℕ) → ¬ (IsFromRight place (parts_of value.now) part))
        (λ part. IsFromRight place (parts_of value.now) part.now) }
{
    if place == 0 {
        return None;
    }
    let before = count_parts(value).checked_sub(place)?;
    part_at(value, before)
}

fn count_parts(value: &str) -> usize
    ensures { result ≡ length (parts_of value.now) }
{
    value.split(',').count()
}

fn part_at(value: &str, place: usize) -> Option<&str>
    ensures { option_copied result ≡ slice_get (parts_of value.now) place }
{
    value.split(',').nth(place)
}
