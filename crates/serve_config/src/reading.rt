//! Reads the settings of a server.
ghost use Rattle.std.specs.Prelude.{Some, IfOk, codes};
ghost use Rattle.serde_json.specs.View.{view};
ghost use Rattle.serve_config.specs.Members.{IsOrNull, data_of, member_of};
ghost use Rattle.serve_config.specs.Settings.{AreSettings, AreTimeouts, AreWaits, IsAccessLog, IsEventRecord};

use crate::addresses::{admin_at, control_at, listen_at};
use crate::config::{AccessLog, Record, ServeConfig, Timeouts};
use crate::fault::ServeConfigFault;
use crate::grpc::call_at;
use crate::map::{mapping_at, paths_at};
use crate::object::Object;
use serde_json::Value;
use std::alloc::Global;

// The members that a configuration may have.
const NAMES: [&str; 20] = [
    "proxy",
    "facts",
    "listen",
    "control",
    "grpc",
    "admin",
    "connections",
    "pending",
    "timeouts",
    "backoff",
    "nack_pause",
    "silence",
    "stale_after",
    "access_log",
    "update_log",
    "record",
    "until_eof",
    "map",
    "require",
    "paths",
];

const TIMEOUT_NAMES: [&str; 5] = ["head", "idle", "write", "drain", "first_response"];

const BACKOFF_NAMES: [&str; 2] = ["first", "greatest"];

const ACCESS_LOG_NAMES: [&str; 2] = ["path", "sample"];

const RECORD_NAMES: [&str; 3] = ["path", "bytes", "files"];

/// Reads the settings of a server from a JSON object. Of `proxy` it only requires that it is present, and of `facts`
/// nothing. The errors are `Member`, for a member that is missing, unknown or not allowed, and `Memory`. An unknown
/// member of the whole object is found first.
pub fn read_serve_config(alloc: Global, value: &Value) -> Result<ServeConfig, ServeConfigFault>
    ensures { IfOk result (AreSettings (Some (view value.now))) }
{
    let whole = Object::whole(alloc, value, &NAMES)?;
    whole.required("proxy")?;
    let listen = listen_at(whole)?;
    let control = control_at(whole)?;
    let grpc = call_at(whole, &control)?;
    let admin = admin_at(whole)?;
    let connections = whole.number("connections", &(1..=100_000), 1_024)? as usize;
    let pending = whole.number("pending", &(1..=16_777_216), 65_536)? as usize;
    let timeouts = timeouts_at(whole)?;
    let (first_backoff, greatest_backoff) = backoff_at(whole)?;
    let nack_pause = whole.number("nack_pause", &(0..=3_600_000), 1_000)?;
    let silence = whole.number("silence", &(0..=86_400), 0)?;
    let stale_after = whole.number("stale_after", &(0..=86_400), 0)?;
    let access_log = access_log_at(whole)?;
    let update_log = whole.path_or_null("update_log")?;
    let record = record_at(whole)?;
    let until_eof = whole.flag("until_eof")?;
    let mapping = mapping_at(whole)?;
    let paths = paths_at(whole)?;
    Ok(ServeConfig {
        listen,
        control,
        grpc,
        admin,
        connections,
        pending,
        timeouts,
        first_backoff,
        greatest_backoff,
        nack_pause,
        silence,
        stale_after,
        access_log,
        update_log,
        record,
        until_eof,
        mapping,
        paths,
    })
}

// The times that things may take.
fn timeouts_at(whole: Object) -> Result<Timeouts, ServeConfigFault>
    ensures { IfOk result (AreTimeouts (member_of (codes "timeouts") (data_of whole.entry))) }
{
    let timeouts = whole.object("timeouts", &TIMEOUT_NAMES)?;
    let times = 1..=86_400_000;
    Ok(Timeouts {
        head: timeouts.number("head", &times, 10_000)?,
        idle: timeouts.number("idle", &times, 60_000)?,
        write: timeouts.number("write", &times, 10_000)?,
        drain: timeouts.number("drain", &times, 10_000)?,
        first_response: timeouts.number("first_response", &times, 30_000)?,
    })
}

// The first and the greatest time before a control plane is tried again.
fn backoff_at(whole: Object) -> Result<(u64, u64), ServeConfigFault>
    ensures { IfOk result (λ waits. AreWaits (member_of (codes "backoff") (data_of whole.entry)) waits.0 waits.1) }
{
    let backoff = whole.object("backoff", &BACKOFF_NAMES)?;
    let times = 1..=3_600_000;
    let first = backoff.number("first", &times, 250)?;
    let greatest = backoff.number("greatest", &times, 30_000)?;
    if first > greatest {
        let reason = format!(in whole.alloc;
            "is {first}, which is above backoff.greatest, {greatest}"
        )?;
        return Err(backoff.refuse("first", reason.as_str()));
    }
    Ok((first, greatest))
}

// Where decisions are logged, if they are.
fn access_log_at(whole: Object) -> Result<Option<AccessLog>, ServeConfigFault>
    ensures { IfOk result (IsOrNull IsAccessLog (member_of (codes "access_log") (data_of whole.entry))) }
{
    let Some(log) = whole.object_or_null("access_log", &ACCESS_LOG_NAMES)? else {
        return Ok(None);
    };
    let path = log.path("path")?;
    let sample = log.number("sample", &(1..=1_000_000), 1)?;
    Ok(Some(AccessLog { path, sample }))
}

// Where events are recorded, if they are.
fn record_at(whole: Object) -> Result<Option<Record>, ServeConfigFault>
    ensures { IfOk result (IsOrNull IsEventRecord (member_of (codes "record") (data_of whole.entry))) }
{
    let Some(record) = whole.object_or_null("record", &RECORD_NAMES)? else {
        return Ok(None);
    };
    let path = record.path("path")?;
    let bytes = record.number("bytes", &(65_536..=1_099_511_627_776), 67_108_864)?;
    let files = record.number("files", &(0..=1_000), 4)? as u32;
    Ok(Some(Record { path, bytes, files }))
}
