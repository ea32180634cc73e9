//! Reads the snapshots that a control plane serves.
ghost use Rattle.std.specs.Prelude.{◌≡◌, ◌≢◌, ◌<◌, ◌^◌, ◌⊎◌, ◌↔◌, [], ℕ, List, IfErr, IfOk, IsTrue, OnErr, OnOk, length, map, string_bytes};
ghost use Rattle.std.specs.List.{AllZip};
ghost use Rattle.std.specs.declared.io.Error.{Error as IoError};
ghost use Rattle.proto_wire.specs.Refusal.{MemoryOr};
ghost use Rattle.xds_wire.specs.Frames.{head_of};
ghost use Rattle.xds_wire.specs.View.{any_view, extension_view};
ghost use Rattle.ads.specs.Answer.{HoldsFilter, IsResource, extension_type};
ghost use Rattle.ads.specs.Control.{ResourceValue, extension_of};
ghost use Rattle.ads.specs.Views.{resource_view, snapshot_view, snapshots_view};
ghost use Rattle.program_jobs.specs.Jobs.{AreNamedSnapshots, AreSnapshotsOf, HoldsSnapshot, IsMessageIn, IsNamedSnapshot, IsResponseAt, IsResponseWith, IsUnread, LacksFile, LacksResponse, LacksSnapshot, NamesNoResponse};
ghost use Rattle.command_line.specs.Words.{AreGrouped, AreWhole};
ghost use Rattle.program_jobs.specs.private.Stopping.{MemoryOrStop};

use crate::files::Source;
use crate::job_fault::JobFault;
use crate::reading::read_file;
use ads::{Resource, Snapshot};
use command_line::SnapshotFiles;
use proto_wire::Refusal;
use std::alloc::Global;
use std::io::{self, ErrorKind};
use xds_wire::{Any, TypedExtensionConfig, read_extension, read_response};

// How many bytes are before a message in its frame.
const FRAME_HEAD: usize = 5;

// The type URL of a named filter in a response.
const EXTENSION_TYPE: &str = "type.googleapis.com/envoy.config.core.v3.TypedExtensionConfig";

// The type URL of a filter's message.
const FILTER_TYPE: &str = "type.googleapis.com/envoy.extensions.filters.http.rbac.v3.RBAC";

/// The snapshots of these files.
pub(crate) fn snapshots_of<F: Source>(
    alloc: Global,
    files: &F,
    paths: &SnapshotFiles,
) -> Result<Vec<Snapshot>, JobFault>
    requires { AreWhole paths.now }
    ensures found { IfOk result (λ v. AreSnapshotsOf (F.holds files.now) (F.lacks files.now) paths.now
        (snapshots_view v.items)) }
    ensures fault { IfErr result (MemoryOrStop (LacksSnapshot (F.holds files.now) (F.lacks files.now) paths.now)) }
{
    match paths {
        SnapshotFiles::Filters {
            names,
            files: filters,
        } => named_snapshots(alloc, files, names, filters),
        SnapshotFiles::Responses { files: responses } => {
            response_snapshots(alloc, files, responses)
        }
    }
}

// The snapshots of these files, each with one filter of each name.
fn named_snapshots<F: Source>(
    alloc: Global,
    files: &F,
    names: &[String],
    paths: &[String],
) -> Result<Vec<Snapshot>, JobFault>
    requires { AreGrouped (length names.now) (length paths.now) }
    ensures found { IfOk result (λ v. AreNamedSnapshots (F.holds files.now) (F.lacks files.now)
        (map string_bytes names.now) (map string_bytes paths.now) (snapshots_view v.items)) }
    ensures fault { IfErr result (MemoryOrStop (LacksFile (F.holds files.now) (F.lacks files.now)
        (map string_bytes paths.now))) }
{
    let mut snapshots = Vec::new(alloc);
    let mut rest = paths;
    while !rest.is_empty() {
        let (first, others) = rest.split_at(names.len());
        snapshots.push(named_snapshot(alloc, files, names, first)?)?;
        rest = others;
    }
    Ok(snapshots)
}

// The snapshot of these files, one for each name.
fn named_snapshot<F: Source>(
    alloc: Global,
    files: &F,
    names: &[String],
    paths: &[String],
) -> Result<Snapshot, JobFault>
    requires { length names.now ≡ length paths.now }
    ensures found { IfOk result (λ s. IsNamedSnapshot (F.holds files.now) (F.lacks files.now)
        (map string_bytes names.now) (map string_bytes paths.now) (snapshot_view s)) }
    ensures fault { IfErr result (MemoryOrStop (LacksFile (F.holds files.now) (F.lacks files.now)
        (map string_bytes paths.now))) }
{
    let mut resources = Vec::new(alloc);
    for path in paths {
        let name = &names[resources.len()];
        resources.push(filter_at(alloc, files, name.as_str(), path.as_str())?)?;
    }
    Ok(Snapshot { resources })
}

// The filter of this name, of the file at this path.
fn filter_at<F: Source>(
    alloc: Global,
    files: &F,
    name: &str,
    path: &str,
) -> Result<Resource, JobFault>
    ensures name { IfOk result (λ r. string_bytes r.name ≡ name.now) }
    ensures found { IfOk result (λ r. F.holds files.now path.now r.filter.items) }
    ensures fault { IfErr result (MemoryOrStop (IsUnread (F.holds files.now) (F.lacks files.now) path.now)) }
{
    let filter = read_file(alloc, files, path)?;
    let name = String::from_str(alloc, name)?;
    Ok(Resource { name, filter })
}

// The snapshots of these files of responses.
fn response_snapshots<F: Source>(
    alloc: Global,
    files: &F,
    paths: &[String],
) -> Result<Vec<Snapshot>, JobFault>
    ensures found { IfOk result (λ v. AllZip (IsResponseAt (F.holds files.now) (F.lacks files.now))
        (map string_bytes paths.now) (snapshots_view v.items)) }
    ensures fault { IfErr result (MemoryOrStop (LacksResponse (F.holds files.now) (F.lacks files.now)
        (map string_bytes paths.now))) }
{
    let mut snapshots = Vec::new(alloc);
    for path in paths {
        snapshots.push(response_snapshot(alloc, files, path.as_str())?)?;
    }
    Ok(snapshots)
}

// The snapshot of the response in the file at this path.
fn response_snapshot<F: Source>(alloc: Global, files: &F, path: &str) -> Result<Snapshot, JobFault>
    ensures found { IfOk result (λ s. IsResponseAt (F.holds files.now) (F.lacks files.now) path.now
        (snapshot_view s)) }
    ensures fault { IfErr result (MemoryOrStop (λ e. IsUnread (F.holds files.now) (F.lacks files.now) path.now e
        ⊎ NamesNoResponse (F.holds files.now) (F.lacks files.now) path.now e)) }
{
    let bytes = read_file(alloc, files, path)?;
    match snapshot_in(alloc, &bytes) {
        Ok(snapshot) => Ok(snapshot),
        Err(refusal) => Err(stop_by_response(String::from_str(alloc, path)?, refusal)),
    }
}

// The job's fault if the file of this name holds no response, with this refusal.
fn stop_by_response(name: String, refusal: Refusal) -> JobFault
    ensures memory { refusal ≡ Refusal.Memory → result ≡ JobFault.Memory }
    ensures file { (result ≡ JobFault.Memory) ⊎ ((cause : IoError) × (result ≡ JobFault.File name cause)) }
{
    if matches!(refusal, Refusal::Memory) {
        return JobFault::Memory;
    }
    let cause = io::Error::new(
        ErrorKind::InvalidData,
        "it is no DiscoveryResponse whose resources are named HTTP RBAC filters",
    );
    JobFault::File(name, cause)
}

// The snapshot of the response that these bytes hold, with or without its frame.
fn snapshot_in(alloc: Global, bytes: &[u8]) -> Result<Snapshot, Refusal>
    ensures found { IfOk result (λ s. HoldsSnapshot bytes.now (snapshot_view s)) }
    ensures fault { IfErr result (MemoryOr (λ e. (snapshot : List ResourceValue)
        → ¬ (HoldsSnapshot bytes.now snapshot))) }
{
    snapshot_of(alloc, message_in(bytes))
}

// The message of the frame, if the bytes are one frame; otherwise all of them.
fn message_in(bytes: &[u8]) -> &[u8]
    ensures { IsMessageIn bytes.now result.now }
{
    if bytes.len() < FRAME_HEAD {
        return bytes;
    }
    let (head, message) = bytes.split_at(FRAME_HEAD);
    if is_head(head, message.len()) {
        return message;
    }
    bytes
}

// Whether these bytes are the head of the frame of a message of this length.
fn is_head(bytes: &[u8], length: usize) -> bool
    ensures { IsTrue result ↔ ((length < 2 ^ 32) × (bytes.now ≡ head_of length)) }
{
    if length > u32::MAX as usize {
        return false;
    }
    let [a, b, c, d] = (length as u32).to_be_bytes();
    bytes == [0, a, b, c, d].as_slice()
}

// The snapshot of this response.
fn snapshot_of(alloc: Global, message: &[u8]) -> Result<Snapshot, Refusal>
    ensures found { IfOk result (λ s. IsResponseWith message.now (snapshot_view s)) }
    ensures fault { IfErr result (MemoryOr (λ e. (snapshot : List ResourceValue)
        → ¬ (IsResponseWith message.now snapshot))) }
{
    let response = read_response(alloc, message)?;
    check_type(response.type_url)?;
    let resources = filters_in(alloc, &response.resources)?;
    Ok(Snapshot { resources })
}

// The filters that these resources of a response hold, with their names.
fn filters_in(alloc: Global, resources: &[Any<'_>]) -> Result<Vec<Resource>, Refusal>
    ensures found { IfOk result (λ v. AllZip (λ any r. IsResource any (extension_of r))
        (map any_view resources.now) (map resource_view v.items)) }
    ensures fault { IfErr result (MemoryOr (λ e. (filters : List ResourceValue)
        → ¬ (AllZip (λ any r. IsResource any (extension_of r)) (map any_view resources.now) filters))) }
{
    let mut filters = Vec::new(alloc);
    for resource in resources {
        filters.push(filter_in(alloc, resource)?)?;
    }
    Ok(filters)
}

// Refuses any type but that of named filters.
fn check_type(type_url: &str) -> Result<(), Refusal>
    ensures found { OnOk result (type_url.now ≡ extension_type) }
    ensures fault { OnErr result (¬ (type_url.now ≡ extension_type)) }
{
    if type_url != EXTENSION_TYPE {
        return Err(Refusal::WrongType);
    }
    Ok(())
}

// The filter that this resource of a response holds, with its name.
fn filter_in(alloc: Global, resource: &Any<'_>) -> Result<Resource, Refusal>
    ensures found { IfOk result (λ r. IsResource (any_view resource.now) (extension_of (resource_view r))) }
    ensures fault { IfErr result (MemoryOr (λ e. (r : ResourceValue)
        → ¬ (IsResource (any_view resource.now) (extension_of r)))) }
{
    check_type(resource.type_url)?;
    let extension = read_extension(alloc, resource.value)?;
    let bytes = filter_bytes(&extension)?;
    let name = String::from_str(alloc, extension.name)?;
    let filter = Vec::from_slice(alloc, bytes)?;
    Ok(Resource { name, filter })
}

// The bytes of the filter's message that the extension holds, if it has a name.
fn filter_bytes<'a>(extension: &TypedExtensionConfig<'a>) -> Result<&'a [u8], Refusal>
    ensures found { IfOk result (λ bytes. HoldsFilter (extension_view extension.now) bytes.now
        × (extension.now.name.now ≢ [])) }
    ensures fault { OnErr result ((bytes : List ℕ) → HoldsFilter (extension_view extension.now) bytes
        → extension.now.name.now ≡ []) }
{
    if extension.name.is_empty() {
        return Err(Refusal::Missing);
    }
    match extension.typed_config {
        Some(config) if config.type_url == FILTER_TYPE => Ok(config.value),
        _ => Err(Refusal::WrongType),
    }
}
