//! The meaning of the settings, in lines for their author.

use crate::config::{Paths, ServeConfig, Timeouts};
use crate::grpc::{CallMethod, GrpcCall};
use head_map::{Fact, Mapping, fact_name};
use std::alloc::{AllocError, Global};
use std::fmt::Write;

/// The settings with their defaults, a line for each member and for each address of `listen`. Each line is a member's
/// name and its value. The fields of `map` and `require` have lines of their own, if there are any, and `paths` has one if
/// it is strict. Texts are escaped, so a line has no control characters.
pub fn meaning(alloc: Global, config: &ServeConfig) -> Result<String, AllocError> {
    let mut text = String::new(alloc);
    for address in &config.listen {
        writeln!(text, "listen {address}")?;
    }
    writeln!(text, "control {}", config.control)?;
    if config.control.is_grpc() {
        write_call(&mut text, &config.grpc)?;
    }
    match config.admin {
        Some(address) => writeln!(text, "admin {address}")?,
        None => text.push_str("admin none\n")?,
    }
    writeln!(text, "connections {}", config.connections)?;
    writeln!(text, "pending {} bytes", config.pending)?;
    write_times(&mut text, config)?;
    write_logs(&mut text, config)?;
    writeln!(text, "until_eof {}", config.until_eof)?;
    write_mapping(&mut text, &config.mapping)?;
    if config.paths == Paths::Strict {
        text.push_str("paths strict\n")?;
    }
    Ok(text)
}

// The line of the call. Of the fields that are sent with it, it has only the names.
fn write_call(text: &mut String, call: &GrpcCall) -> Result<(), AllocError> {
    let method = match call.method {
        CallMethod::Ads => "ads",
        CallMethod::Ecds => "ecds",
    };
    write!(text, "grpc method {method}")?;
    if let Some(authority) = &call.authority {
        write!(text, " authority {authority}")?;
    }
    for field in &call.metadata {
        write!(text, " metadata {}", field.name)?;
    }
    writeln!(text, " keepalive {} milliseconds", call.keepalive)
}

// The lines of the times.
fn write_times(text: &mut String, config: &ServeConfig) -> Result<(), AllocError> {
    let Timeouts {
        head,
        idle,
        write,
        drain,
        first_response,
    } = config.timeouts;
    writeln!(
        text,
        "timeouts head {head} idle {idle} write {write} drain {drain} first_response {first_response} milliseconds"
    )?;
    let (first, greatest) = (config.first_backoff, config.greatest_backoff);
    writeln!(
        text,
        "backoff first {first} greatest {greatest} milliseconds"
    )?;
    writeln!(text, "nack_pause {} milliseconds", config.nack_pause)?;
    writeln!(text, "silence {} seconds", config.silence)?;
    writeln!(text, "stale_after {} seconds", config.stale_after)
}

// The lines of the logs and the record.
fn write_logs(text: &mut String, config: &ServeConfig) -> Result<(), AllocError> {
    match &config.access_log {
        Some(log) => writeln!(text, "access_log path {:?} sample {}", log.path, log.sample)?,
        None => text.push_str("access_log none\n")?,
    }
    match &config.update_log {
        Some(path) => writeln!(text, "update_log path {path:?}")?,
        None => text.push_str("update_log standard error\n")?,
    }
    match &config.record {
        Some(record) => writeln!(
            text,
            "record path {:?} bytes {} files {}",
            record.path, record.bytes, record.files
        ),
        None => text.push_str("record none\n"),
    }
}

// The lines of the fields that are mapped or required.
fn write_mapping(text: &mut String, mapping: &Mapping) -> Result<(), AllocError> {
    for one in mapping.named() {
        write!(text, "map {} {}", fact_name(&one.fact), one.field)?;
        match &one.fact {
            Fact::ForwardedFor(place) => writeln!(text, " hops {place}")?,
            Fact::Mtls(is) => writeln!(text, " is {is:?}")?,
            Fact::Method
            | Fact::Target
            | Fact::Host
            | Fact::Scheme
            | Fact::RemoteIp
            | Fact::DirectRemoteIp
            | Fact::SourcePort
            | Fact::RequestedServerName
            | Fact::SubjectPeerCertificate
            | Fact::DnsSanPeerCertificate
            | Fact::UriSanPeerCertificate => text.push_str("\n")?,
        }
    }
    for field in mapping.required() {
        writeln!(text, "require {field}")?;
    }
    Ok(())
}
