//! Which fields of a front proxy hold the client's request.
ghost use Rattle.std.specs.Prelude.{◌≡◌, ◌++◌, IfOk, MatchOption, MatchResult, false, map, true};
ghost use Rattle.std.specs.Char.{is_ascii_uppercase};
ghost use Rattle.std.specs.List.{list_all, list_any};
ghost use Rattle.std.specs.Str.{bytes_eq};
ghost use Rattle.std.specs.String.{string_bytes};
ghost use Rattle.head_map.specs.declared.mapping.MappingFault.{MappingFault};
ghost use Rattle.head_map.specs.Mapped.{mapping_view};
ghost use Rattle.head_map.specs.Mappings.{IsMapping, facts_of, fields_of, has_place, is_distinct, is_name, keeps, mapping_of, fact_name};

use crate::fact::{Fact, NamedFact};
use httparse::is_token;
use std::alloc::{AllocError, Global};

/// Which fields of a front hold the client's request, and which have to be there.
#[derive(Debug, Drop)]
pub struct Mapping {
    pub(crate) named: Vec<NamedFact>,
    pub(crate) required: Vec<String>,
}

/// Why fields and what they hold are no mapping.
#[derive(Clone, Copy, Debug, PartialEq, Eq)]
pub enum MappingFault {
    /// A name is not a token in lower case; so the name of a pseudo-header is refused.
    BadName,
    /// A name is used twice.
    NamedTwice,
    /// Two fields hold the same: a mapping has a `RemoteIp` or a `ForwardedFor`.
    ClaimedTwice,
    /// An address is at place 0 from the right.
    NoPlace,
}

impl Mapping {
    /// The mapping by these fields and what they hold; fields of the `required` names have to be there too.
    pub fn new(
        alloc: Global,
        named: Vec<NamedFact>,
        required: Vec<String>,
    ) -> Result<Result<Mapping, MappingFault>, AllocError>
        ensures { let m = mapping_of named.items required.items in IfOk result (λ made.
            MatchResult made (λ mapping. (mapping_view mapping ≡ m) × IsMapping m)
            (λ fault. keeps fault m ≡ false)) }
    {
        match fault_of(alloc, &named, &required)? {
            Some(fault) => Ok(Err(fault)),
            None => Ok(Ok(Mapping { named, required })),
        }
    }

    /// The named fields, in the order in which they are read.
    pub fn named(&self) -> &[NamedFact]
        ensures { result.now ≡ (mapping_view self.now).named }
    {
        &self.named
    }

    /// The names of the other fields that have to be there.
    pub fn required(&self) -> &[String]
        ensures { map string_bytes result.now ≡ (mapping_view self.now).required }
    {
        &self.required
    }
}

// The first rule that these break.
fn fault_of(
    alloc: Global,
    named: &[NamedFact],
    required: &[String],
) -> Result<Option<MappingFault>, AllocError>
    ensures { let m = mapping_of named.now required.now in IfOk result (λ found.
        MatchOption found (IsMapping m) (λ fault. keeps fault m ≡ false)) }
{
    let fields = fields_of(alloc, named, required)?;
    let facts = facts_of(alloc, named)?;
    if !are_names(&fields) {
        return Ok(Some(MappingFault::BadName));
    }
    if !are_distinct(&fields) {
        return Ok(Some(MappingFault::NamedTwice));
    }
    if !are_distinct(&facts) {
        return Ok(Some(MappingFault::ClaimedTwice));
    }
    if !have_places(named) {
        return Ok(Some(MappingFault::NoPlace));
    }
    Ok(None)
}

// All names of fields.
fn fields_of<'a>(
    alloc: Global,
    named: &'a [NamedFact],
    required: &'a [String],
) -> Result<Vec<&'a str>, AllocError>
    ensures { IfOk result (λ names. map (λ name. name.now) names.items
        ≡ fields_of (mapping_of named.now required.now)) }
{
    let mut names = Vec::new(alloc);
    for one in named {
        names.push(one.field.as_str())?;
    }
    for name in required {
        names.push(name.as_str())?;
    }
    Ok(names)
}

// The names of all that the fields hold.
fn facts_of<'a>(alloc: Global, named: &'a [NamedFact]) -> Result<Vec<&'a str>, AllocError>
    ensures { IfOk result (λ names. map (λ name. name.now) names.items ≡ facts_of named.now) }
{
    let mut names = Vec::new(alloc);
    for one in named {
        names.push(fact_name(&one.fact))?;
    }
    Ok(names)
}

fn are_names(names: &[&str]) -> bool
    ensures { result ≡ list_all is_name (map (λ name. name.now) names.now) }
{
    for name in names {
        if !is_name(name.as_bytes()) {
            return false;
        }
    }
    true
}

/// Whether a field may have this name in a mapping: it is a token without upper-case letters.
pub fn is_field_name(name: &str) -> bool
    ensures { result ≡ is_name name.now }
{
    is_name(name.as_bytes())
}

// Whether this is a token without upper-case letters.
fn is_name(name: &[u8]) -> bool
    ensures { result ≡ is_name name.now }
{
    is_token(name) && !has_uppercase(name)
}

fn has_uppercase(name: &[u8]) -> bool
    ensures { result ≡ list_any is_ascii_uppercase name.now }
{
    name.iter().any(|byte| byte.is_ascii_uppercase())
}

// Whether no two of the names are the same.
fn are_distinct(names: &[&str]) -> bool
    ensures { result ≡ is_distinct (map (λ name. name.now) names.now) }
{
    let mut rest = names;
    while let [first, others @ ..] = rest {
        if has(others, first) {
            return false;
        }
        rest = others;
    }
    true
}

fn has(names: &[&str], name: &str) -> bool
    ensures { result ≡ list_any (λ other. bytes_eq other name.now) (map (λ other. other.now) names.now) }
{
    for other in names {
        if *other == name {
            return true;
        }
    }
    false
}

fn have_places(named: &[NamedFact]) -> bool
    ensures { result ≡ list_all (λ one. has_place one.fact) named.now }
{
    for one in named {
        if !has_place(&one.fact) {
            return false;
        }
    }
    true
}

fn has_place(fact: &Fact) -> bool
    ensures { result ≡ has_place fact.now }
{
    !matches!(fact, Fact::ForwardedFor(0))
}

/// The name of what a field holds. Both ways to hold the address of the request have one name.
pub fn fact_name(fact: &Fact) -> &'static str
    ensures { result.now ≡ fact_name fact.now }
{
    match fact {
        Fact::Method => "method",
        Fact::Target => "target",
        Fact::Host => "host",
        Fact::Scheme => "scheme",
        Fact::RemoteIp | Fact::ForwardedFor(_) => "remote_ip",
        Fact::DirectRemoteIp => "direct_remote_ip",
        Fact::SourcePort => "source.port",
        Fact::Mtls(_) => "mtls",
        Fact::RequestedServerName => "requested_server_name",
        Fact::SubjectPeerCertificate => "subject_peer_certificate",
        Fact::DnsSanPeerCertificate => "dns_san_peer_certificate",
        Fact::UriSanPeerCertificate => "uri_san_peer_certificate",
    }
}
