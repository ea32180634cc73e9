//! How a control plane is called that speaks gRPC.
ghost use Rattle.std.specs.Prelude.{◌≡◌, ◌↔◌, IfOk, IsTrue, codes, map};
ghost use Rattle.std.specs.Char.{is_ascii_graphic};
ghost use Rattle.std.specs.List.{AllZip, list_all};
ghost use Rattle.serde_json.specs.View.{view};
ghost use Rattle.serve_config.specs.Calls.{AreMetadata, IsAuthority, IsCallFor, IsMetadata, IsMetadataName, IsMethodBy, is_authority, is_grpcs, is_metadata_value, is_printable, is_short, is_short_name};
ghost use Rattle.serve_config.specs.Members.{IsOrNull, data_of, member_of};

use crate::address::ControlAddress;
use crate::fault::ServeConfigFault;
use crate::object::Object;
use head_map::is_field_name;
use program_texts::is_among;
use serde_json::Value;

const CALL_NAMES: [&str; 4] = ["method", "authority", "metadata", "keepalive"];

const METADATA_NAMES: [&str; 2] = ["name", "value"];

// How many fields are sent with a call, at most, beside its own.
const MOST_METADATA: usize = 32;

// How many bytes the name or the value of such a field has, at most.
const LONGEST_METADATA: usize = 256;

// The fields that a call has by itself, or that HTTP/2 does not allow.
const OWN_NAMES: [&str; 10] = [
    "te",
    "content-type",
    "content-length",
    "user-agent",
    "host",
    "connection",
    "keep-alive",
    "proxy-connection",
    "transfer-encoding",
    "upgrade",
];

const BAD_METHOD: &str = "is neither \"ads\" nor \"ecds\"";

const BAD_AUTHORITY: &str =
    "is not a text of 1 to 256 visible characters of ASCII, such as \"xds.example:18000\"";

const BAD_METADATA: &str = "is not an array of at most 32 objects with name and value";

const BAD_NAME: &str =
    "is not the name of a field in lower case of 1 to 256 bytes, such as \"x-token\", or is one that gRPC sends by itself";

const BAD_VALUE: &str = "is not a text of 1 to 256 printable characters of ASCII";

const NO_GRPC: &str = "is only for a control plane \"grpc://IP:PORT\" or \"grpc+unix:PATH\"";

/// The method of the call: which of xDS's streams it is.
#[derive(Clone, Copy, Debug, PartialEq, Eq)]
pub enum CallMethod {
    /// `StreamAggregatedResources` of the aggregated discovery service.
    Ads,
    /// `StreamExtensionConfigs` of the extension config discovery service.
    Ecds,
}

/// A field that is sent with the call, such as a token. It is never logged.
#[derive(Debug, Drop)]
pub struct Metadata {
    /// Its name, in lower case.
    pub name: String,
    /// Its value.
    pub value: String,
}

/// How a control plane is called that speaks gRPC.
#[derive(Debug, Drop)]
pub struct GrpcCall {
    /// Which stream is called.
    pub method: CallMethod,
    /// The authority that the call names; the address of the control plane if there is none.
    pub authority: Option<String>,
    /// What else is sent with the call, in order.
    pub metadata: Vec<Metadata>,
    /// After how many milliseconds without a byte of the control plane it is asked whether it is there; 0 is never.
    pub keepalive: u64,
}

/// How the control plane at this address is called. The member is only allowed if the control plane speaks gRPC.
pub(crate) fn call_at(whole: Object, control: &ControlAddress) -> Result<GrpcCall, ServeConfigFault>
    ensures { IfOk result (IsCallFor control.now (member_of (codes "grpc") (data_of whole.entry))) }
{
    if whole.get("grpc").is_some() && !control.is_grpc() {
        return Err(whole.refuse("grpc", NO_GRPC));
    }
    let call = whole.object("grpc", &CALL_NAMES)?;
    Ok(GrpcCall {
        method: method_at(call)?,
        authority: authority_at(call)?,
        metadata: metadata_at(call)?,
        keepalive: call.number("keepalive", &(0..=86_400_000), 0)?,
    })
}

// Which stream is called.
fn method_at(call: Object) -> Result<CallMethod, ServeConfigFault>
    ensures { IfOk result (IsMethodBy (member_of (codes "method") (data_of call.entry))) }
{
    let Some(value) = call.get("method") else {
        return Ok(CallMethod::Ads);
    };
    match value.as_str() {
        Some(text) if text == "ads" => Ok(CallMethod::Ads),
        Some(text) if text == "ecds" => Ok(CallMethod::Ecds),
        _ => Err(call.refuse("method", BAD_METHOD)),
    }
}

// The authority that the call names, if there is one.
fn authority_at(call: Object) -> Result<Option<String>, ServeConfigFault>
    ensures { IfOk result (IsOrNull IsAuthority (member_of (codes "authority") (data_of call.entry))) }
{
    match call.get("authority") {
        None | Some(Value::Null) => Ok(None),
        Some(value) => match value.as_str() {
            Some(text) if is_authority(text.as_bytes()) => Ok(Some(String::from_str(
                call.alloc, text,
            )?)),
            _ => Err(call.refuse("authority", BAD_AUTHORITY)),
        },
    }
}

// What else is sent with the call.
fn metadata_at(call: Object) -> Result<Vec<Metadata>, ServeConfigFault>
    ensures { IfOk result (λ found. AreMetadata (member_of (codes "metadata") (data_of call.entry)) found.items) }
{
    match call.get("metadata") {
        None => Ok(Vec::new(call.alloc)),
        Some(Value::Array(items)) if items.len() <= MOST_METADATA => {
            fields_of(call, items.as_slice())
        }
        Some(_) => Err(call.refuse("metadata", BAD_METADATA)),
    }
}

// The fields that these items are.
fn fields_of(call: Object, items: &[Value]) -> Result<Vec<Metadata>, ServeConfigFault>
    ensures { IfOk result (λ found. AllZip IsMetadata (map view items.now) found.items) }
{
    let mut fields = Vec::new(call.alloc);
    for item in items {
        let index = fields.len();
        let field = field_of(call, index, item)?;
        fields.push(field)?;
    }
    Ok(fields)
}

// The field that an item of `metadata` is.
fn field_of(call: Object, index: usize, item: &Value) -> Result<Metadata, ServeConfigFault>
    ensures { IfOk result (IsMetadata (view item.now)) }
{
    let path = format!(in call.alloc; "grpc.metadata[{index}]")?;
    let field = call.inner(item, path.as_str(), &METADATA_NAMES)?;
    let name = match field.required("name")?.as_str() {
        Some(name) if is_metadata_name(name) => String::from_str(call.alloc, name)?,
        _ => return Err(field.refuse("name", BAD_NAME)),
    };
    let value = match field.required("value")?.as_str() {
        Some(value) if is_metadata_value(value.as_bytes()) => String::from_str(call.alloc, value)?,
        _ => return Err(field.refuse("value", BAD_VALUE)),
    };
    Ok(Metadata { name, value })
}

// Whether a call may name this authority.
fn is_authority(text: &[u8]) -> bool
    ensures { result ≡ is_authority text.now }
{
    is_short(text) && are_visible(text)
}

// Whether a field of this name may be sent with a call.
fn is_metadata_name(name: &str) -> bool
    ensures { IsTrue result ↔ IsMetadataName name.now }
{
    if !is_short_name(name) {
        return false;
    }
    !is_among(name, &OWN_NAMES)
}

// Whether a field of this name may be sent with a call, unless the call has it by itself.
fn is_short_name(name: &str) -> bool
    ensures { result ≡ is_short_name name.now }
{
    is_short(name.as_bytes()) && is_field_name(name) && !is_grpcs(name.as_bytes())
}

// Whether a name is one that gRPC keeps for itself.
fn is_grpcs(name: &[u8]) -> bool
    ensures { result ≡ is_grpcs name.now }
{
    matches!(name, [b'g', b'r', b'p', b'c', b'-', ..])
}

// Whether a field with this value may be sent with a call.
fn is_metadata_value(value: &[u8]) -> bool
    ensures { result ≡ is_metadata_value value.now }
{
    is_short(value) && are_printable(value)
}

// Whether a text has 1 to 256 bytes.
fn is_short(text: &[u8]) -> bool
    ensures { result ≡ is_short text.now }
{
    !text.is_empty() && text.len() <= LONGEST_METADATA
}

fn are_visible(text: &[u8]) -> bool
    ensures { result ≡ list_all is_ascii_graphic text.now }
{
    text.iter().all(|byte| byte.is_ascii_graphic())
}

fn are_printable(text: &[u8]) -> bool
    ensures { result ≡ list_all is_printable text.now }
{
    text.iter().all(|byte| is_printable(*byte))
}

fn is_printable(byte: u8) -> bool
    ensures { result ≡ is_printable byte }
{
    byte >= 32 && byte <= 126
}
