//! The fields of a call to a control plane (gRPC over HTTP/2, Requests).

use hpack::Field;
use serve_config::{CallMethod, ControlAddress, GrpcCall};
use std::alloc::{AllocError, Global};

// The path of a method of xDS.
fn path_of(method: CallMethod) -> &'static str {
    match method {
        CallMethod::Ads => {
            "/envoy.service.discovery.v3.AggregatedDiscoveryService/StreamAggregatedResources"
        }
        CallMethod::Ecds => {
            "/envoy.service.extension.v3.ExtensionConfigDiscoveryService/StreamExtensionConfigs"
        }
    }
}

/// The fields of the call to the control plane at this address.
pub(crate) fn call_fields(
    alloc: Global,
    control: &ControlAddress,
    call: &GrpcCall,
) -> Result<Vec<Field>, AllocError> {
    let authority = authority_of(alloc, control, call)?;
    let mut fields = Vec::new(alloc);
    fields.push(field(alloc, ":method", "POST")?)?;
    fields.push(field(alloc, ":scheme", "http")?)?;
    fields.push(field(alloc, ":path", path_of(call.method))?)?;
    fields.push(field(alloc, ":authority", authority.as_str())?)?;
    fields.push(field(alloc, "te", "trailers")?)?;
    fields.push(field(alloc, "content-type", "application/grpc")?)?;
    fields.push(field(alloc, "user-agent", "rbacd")?)?;
    for metadata in &call.metadata {
        fields.push(field(alloc, metadata.name.as_str(), metadata.value.as_str())?)?;
    }
    Ok(fields)
}

// The authority of the call: the one that is set, or the address. A Unix socket has none, so it is `localhost`.
fn authority_of(
    alloc: Global,
    control: &ControlAddress,
    call: &GrpcCall,
) -> Result<String, AllocError> {
    match (&call.authority, control) {
        (Some(authority), _) => String::from_str(alloc, authority.as_str()),
        (None, ControlAddress::GrpcTcp(address) | ControlAddress::Tcp(address)) => {
            format!(in alloc; "{address}")
        }
        (None, _) => String::from_str(alloc, "localhost"),
    }
}

fn field(alloc: Global, name: &str, value: &str) -> Result<Field, AllocError> {
    let mut found = Field {
        name: Vec::new(alloc),
        value: Vec::new(alloc),
    };
    found.name.extend_from_slice(name.as_bytes())?;
    found.value.extend_from_slice(value.as_bytes())?;
    Ok(found)
}
