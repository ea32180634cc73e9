//! Reads which fields of a front proxy hold the request of its client, and which paths are judged.
ghost use Rattle.std.specs.Prelude.{◌≡◌, IfOk, codes, map, string_bytes};
ghost use Rattle.std.specs.List.{AllZip};
ghost use Rattle.serde_json.specs.Data.{string};
ghost use Rattle.serde_json.specs.View.{view};
ghost use Rattle.head_map.specs.Mappings.{fact_name};
ghost use Rattle.serve_config.specs.Maps.{AreRequired, IsMappingBy, IsNamedBy, IsPathsBy, member_name, present};
ghost use Rattle.serve_config.specs.Members.{data_of, member_of};
ghost use Rattle.serve_config.specs.declared.map.Member.TheVariants as members;
ghost use Rattle.serve_config.specs.private.Plain.{IsPlain};

use crate::config::Paths;
use crate::fault::ServeConfigFault;
use crate::object::Object;
use head_map::{Fact, Mapping, MappingFault, NamedFact, is_field_name};
use serde_json::Value;

/// A member of `map`, by what its field holds.
#[derive(Clone, Copy, Debug, PartialEq, Eq)]
pub(crate) enum Member {
    Method,
    Target,
    Host,
    Scheme,
    RemoteIp,
    DirectRemoteIp,
    SourcePort,
    Mtls,
    RequestedServerName,
    SubjectPeerCertificate,
    DnsSanPeerCertificate,
    UriSanPeerCertificate,
}

// Each member, in the order in which their fields are read.
const MEMBERS: [Member; 12] = [
    Member::Method,
    Member::Target,
    Member::Host,
    Member::Scheme,
    Member::RemoteIp,
    Member::DirectRemoteIp,
    Member::SourcePort,
    Member::Mtls,
    Member::RequestedServerName,
    Member::SubjectPeerCertificate,
    Member::DnsSanPeerCertificate,
    Member::UriSanPeerCertificate,
];

// The names of the members, in the same order.
const MAP_NAMES: [&str; 12] = [
    "method",
    "target",
    "host",
    "scheme",
    "remote_ip",
    "direct_remote_ip",
    "source.port",
    "mtls",
    "requested_server_name",
    "subject_peer_certificate",
    "dns_san_peer_certificate",
    "uri_san_peer_certificate",
];

const HOPS_NAMES: [&str; 2] = ["field", "hops"];

const MTLS_NAMES: [&str; 2] = ["field", "is"];

const BAD_FIELD: &str = "is not the name of a field in lower case, such as \"x-forwarded-uri\"";

const BAD_ADDRESS_FIELD: &str =
    "is neither the name of a field in lower case, such as \"x-real-ip\", nor an object with field and hops";

const BAD_MTLS: &str = "is not an object with field and is";

const BAD_TEXT: &str = "is not a text";

const NAMED_TWICE: &str = "names a field that is named before";

const BAD_REQUIRE: &str = "is not an array of names of fields in lower case";

const BAD_PATHS: &str = "is neither \"strict\" nor \"as_sent\"";

impl Member {
    // The name of the member.
    fn name(self) -> &'static str
        ensures { result.now ≡ member_name self }
    {
        match self {
            Member::Method => "method",
            Member::Target => "target",
            Member::Host => "host",
            Member::Scheme => "scheme",
            Member::RemoteIp => "remote_ip",
            Member::DirectRemoteIp => "direct_remote_ip",
            Member::SourcePort => "source.port",
            Member::Mtls => "mtls",
            Member::RequestedServerName => "requested_server_name",
            Member::SubjectPeerCertificate => "subject_peer_certificate",
            Member::DnsSanPeerCertificate => "dns_san_peer_certificate",
            Member::UriSanPeerCertificate => "uri_san_peer_certificate",
        }
    }
}

/// Which fields hold the request, and which have to be there: the members `map` and `require`.
pub(crate) fn mapping_at(whole: Object) -> Result<Mapping, ServeConfigFault>
    ensures { IfOk result (IsMappingBy (data_of whole.entry)) }
{
    let map = whole.object("map", &MAP_NAMES)?;
    let named = named_by(map, &MEMBERS)?;
    let required = required_at(whole, &named)?;
    match Mapping::new(whole.alloc, named, required)? {
        Ok(mapping) => Ok(mapping),
        Err(fault) => Err(whole.refuse("map", cause_of(fault))),
    }
}

// What is wrong with a mapping.
fn cause_of(fault: MappingFault) -> &'static str {
    match fault {
        MappingFault::BadName => BAD_FIELD,
        MappingFault::NamedTwice => NAMED_TWICE,
        MappingFault::ClaimedTwice => "has two fields for one fact",
        MappingFault::NoPlace => "has hops of 0",
    }
}

// The fields that these members name.
fn named_by(map: Object, members: &[Member]) -> Result<Vec<NamedFact>, ServeConfigFault>
    ensures { IfOk result (λ named. AllZip IsNamedBy (present (data_of map.entry) members.now) named.items) }
{
    let mut named = Vec::new(map.alloc);
    for member in members {
        let name = member.name();
        if let Some(value) = map.get(name) {
            let one = named_of(map, *member, value)?;
            if is_named(&named, one.field.as_str()) {
                return Err(map.refuse(name, NAMED_TWICE));
            }
            named.push(one)?;
        }
    }
    Ok(named)
}

// Whether one of these has this field.
fn is_named(named: &[NamedFact], field: &str) -> bool {
    named.iter().any(|one| one.field.as_str() == field)
}

// The field that a member names, and what it holds.
fn named_of(map: Object, member: Member, value: &Value) -> Result<NamedFact, ServeConfigFault>
    ensures { IfOk result (IsNamedBy (member, view value.now)) }
{
    match member {
        Member::Method => plain(map, member, value, Fact::Method),
        Member::Target => plain(map, member, value, Fact::Target),
        Member::Host => plain(map, member, value, Fact::Host),
        Member::Scheme => plain(map, member, value, Fact::Scheme),
        Member::RemoteIp => address_of(map, value),
        Member::DirectRemoteIp => plain(map, member, value, Fact::DirectRemoteIp),
        Member::SourcePort => plain(map, member, value, Fact::SourcePort),
        Member::Mtls => certificate_of(map, value),
        Member::RequestedServerName => plain(map, member, value, Fact::RequestedServerName),
        Member::SubjectPeerCertificate => plain(map, member, value, Fact::SubjectPeerCertificate),
        Member::DnsSanPeerCertificate => plain(map, member, value, Fact::DnsSanPeerCertificate),
        Member::UriSanPeerCertificate => plain(map, member, value, Fact::UriSanPeerCertificate),
    }
}

// The field that a member names by a text.
fn plain(
    map: Object,
    member: Member,
    value: &Value,
    fact: Fact,
) -> Result<NamedFact, ServeConfigFault>
    requires { (fact_name fact ≡ member_name member) × IsPlain fact }
    ensures { IfOk result (IsNamedBy (member, view value.now)) }
{
    let field = field_of(map, member.name(), value, BAD_FIELD)?;
    Ok(NamedFact { field, fact })
}

// The field that holds the address of the request: a name, or an object with a name and a place from the right.
fn address_of(map: Object, value: &Value) -> Result<NamedFact, ServeConfigFault>
    ensures { IfOk result (IsNamedBy (members.RemoteIp, view value.now)) }
{
    if !value.is_object() {
        let field = field_of(map, "remote_ip", value, BAD_ADDRESS_FIELD)?;
        return Ok(NamedFact {
            field,
            fact: Fact::RemoteIp,
        });
    }
    let list = map.inner(value, "map.remote_ip", &HOPS_NAMES)?;
    let field = field_of(list, "field", list.required("field")?, BAD_FIELD)?;
    let place = list.number("hops", &(1..=1_000), 1)? as usize;
    Ok(NamedFact {
        field,
        fact: Fact::ForwardedFor(place),
    })
}

// The field that says whether the client showed a certificate, and the text with which it does.
fn certificate_of(map: Object, value: &Value) -> Result<NamedFact, ServeConfigFault>
    ensures { IfOk result (IsNamedBy (members.Mtls, view value.now)) }
{
    if !value.is_object() {
        return Err(map.refuse("mtls", BAD_MTLS));
    }
    let mtls = map.inner(value, "map.mtls", &MTLS_NAMES)?;
    let field = field_of(mtls, "field", mtls.required("field")?, BAD_FIELD)?;
    match mtls.required("is")?.as_str() {
        Some(text) => Ok(NamedFact {
            field,
            fact: Fact::Mtls(String::from_str(map.alloc, text)?),
        }),
        None => Err(mtls.refuse("is", BAD_TEXT)),
    }
}

// The name of a field that a value is.
fn field_of(
    object: Object,
    name: &str,
    value: &Value,
    reason: &str,
) -> Result<String, ServeConfigFault>
    ensures { IfOk result (λ field. view value.now ≡ string (string_bytes field)) }
{
    match value.as_str() {
        Some(field) if is_field_name(field) => Ok(String::from_str(object.alloc, field)?),
        _ => Err(object.refuse(name, reason)),
    }
}

// The names of the fields that have to be there beside those that are named.
fn required_at(whole: Object, named: &[NamedFact]) -> Result<Vec<String>, ServeConfigFault>
    ensures { IfOk result (λ names. AreRequired (member_of (codes "require") (data_of whole.entry))
        (map string_bytes names.items)) }
{
    match whole.get("require") {
        None => Ok(Vec::new(whole.alloc)),
        Some(Value::Array(items)) => names_of(whole, named, items.as_slice()),
        Some(_) => Err(whole.refuse("require", BAD_REQUIRE)),
    }
}

// The names that these items are.
fn names_of(
    whole: Object,
    named: &[NamedFact],
    items: &[Value],
) -> Result<Vec<String>, ServeConfigFault>
    ensures { IfOk result (λ names. map view items.now ≡ map (λ name. string (string_bytes name)) names.items) }
{
    let mut names = Vec::new(whole.alloc);
    for item in items {
        let index = names.len();
        let name = name_at(whole, index, item)?;
        if is_named(named, name.as_str()) || names.contains(&name) {
            return Err(whole.refuse(item_name(whole, index)?.as_str(), NAMED_TWICE));
        }
        names.push(name)?;
    }
    Ok(names)
}

// The name that an item of `require` is.
fn name_at(whole: Object, index: usize, item: &Value) -> Result<String, ServeConfigFault>
    ensures { IfOk result (λ name. view item.now ≡ string (string_bytes name)) }
{
    let path = item_name(whole, index)?;
    field_of(whole, path.as_str(), item, BAD_FIELD)
}

// How an item of `require` is called.
fn item_name(whole: Object, index: usize) -> Result<String, ServeConfigFault> {
    Ok(format!(in whole.alloc; "require[{index}]")?)
}

/// Which paths are judged.
pub(crate) fn paths_at(whole: Object) -> Result<Paths, ServeConfigFault>
    ensures { IfOk result (IsPathsBy (member_of (codes "paths") (data_of whole.entry))) }
{
    let Some(value) = whole.get("paths") else {
        return Ok(Paths::AsSent);
    };
    match value.as_str() {
        Some(text) if text == "strict" => Ok(Paths::Strict),
        Some(text) if text == "as_sent" => Ok(Paths::AsSent),
        _ => Err(whole.refuse("paths", BAD_PATHS)),
    }
}
