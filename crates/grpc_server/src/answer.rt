//! The methods that are served, and the fields of their answers.
ghost use Rattle.std.specs.Prelude.{◌≡◌, map, IfOk};
ghost use Rattle.hpack.specs.Field.{line, line_of, lines_of};
ghost use Rattle.grpc_server.specs.Answers.{ads_path, is_served, opening, refusal, status_text, trailers};

use hpack::Field;
use http2::is_call;
use std::alloc::{AllocError, Global};

// The path of the aggregated stream of xDS.
const ADS: &str =
    "/envoy.service.discovery.v3.AggregatedDiscoveryService/StreamAggregatedResources";

// The path of the stream of extension configs.
const ECDS: &str =
    "/envoy.service.extension.v3.ExtensionConfigDiscoveryService/StreamExtensionConfigs";

/// Why an answer ends (gRPC's status codes).
#[derive(Clone, Copy, Debug, PartialEq, Eq)]
pub enum Status {
    /// The client had no more.
    Done,
    /// What the client sent could not be served on.
    Broken,
    /// The request is no call of a method that is served.
    Unknown,
}

impl Status {
    // The number of the status.
    fn text(self) -> &'static str
        ensures { result.now ≡ status_text self }
    {
        match self {
            Status::Done => "0",
            Status::Broken => "3",
            Status::Unknown => "12",
        }
    }
}

/// Whether a request is a call of a method that is served.
pub(crate) fn is_served(request: &[Field]) -> bool
    ensures { result ≡ is_served (map line_of request.now) }
{
    is_call(ADS.as_bytes(), request) || is_call(ECDS.as_bytes(), request)
}

/// The fields that begin an answer.
pub(crate) fn opening(alloc: Global) -> Result<Vec<Field>, AllocError>
    ensures { IfOk result (λ fields. lines_of fields ≡ opening) }
{
    let mut fields = Vec::new(alloc);
    fields.push(field(alloc, ":status", "200")?)?;
    fields.push(field(alloc, "content-type", "application/grpc")?)?;
    Ok(fields)
}

/// The fields that end an answer.
pub(crate) fn trailers(alloc: Global, status: Status) -> Result<Vec<Field>, AllocError>
    ensures { IfOk result (λ fields. lines_of fields ≡ trailers status) }
{
    let mut fields = Vec::new(alloc);
    fields.push(field(alloc, "grpc-status", status.text())?)?;
    Ok(fields)
}

/// The fields of an answer that has nothing else.
pub(crate) fn refusal(alloc: Global) -> Result<Vec<Field>, AllocError>
    ensures { IfOk result (λ fields. lines_of fields ≡ refusal) }
{
    let mut fields = opening(alloc)?;
    fields.push(field(alloc, "grpc-status", Status::Unknown.text())?)?;
    Ok(fields)
}

pub(crate) fn field(alloc: Global, name: &str, value: &str) -> Result<Field, AllocError>
    ensures { IfOk result (λ f. line_of f ≡ line name.now value.now) }
{
    let name = Vec::from_slice(alloc, name.as_bytes())?;
    let value = Vec::from_slice(alloc, value.as_bytes())?;
    Ok(Field { name, value })
}
