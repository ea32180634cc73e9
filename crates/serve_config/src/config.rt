//! The settings of a server.

use crate::address::{Address, ControlAddress};
use crate::grpc::GrpcCall;
use head_map::Mapping;
use std::net::SocketAddr;

/// The settings of a server, except for the configuration of its proxy and the facts of all connections. Times are in
/// milliseconds, except for `silence` and `stale_after`.
#[derive(Debug, Drop)]
pub struct ServeConfig {
    /// Where it listens; at least one address.
    pub listen: Vec<Address>,
    /// Where its control plane is.
    pub control: ControlAddress,
    /// How its control plane is called, if it speaks gRPC.
    pub grpc: GrpcCall,
    /// Where the admin port is, if there is one.
    pub admin: Option<SocketAddr>,
    /// How many connections are served at once, from 1 to 100,000.
    pub connections: usize,
    /// How many bytes wait for a connection before its requests are no longer read.
    pub pending: usize,
    /// How long things may take.
    pub timeouts: Timeouts,
    /// How long to wait before the first connection to a control plane that was lost is tried again.
    pub first_backoff: u64,
    /// How long to wait at most before a further try.
    pub greatest_backoff: u64,
    /// How long the update stream is not read after a response was refused.
    pub nack_pause: u64,
    /// After how many seconds without a byte an update stream ends; 0 for never. It does not hold for a file.
    pub silence: u64,
    /// After how many seconds in which no control plane was heard the server is not ready; 0 for never.
    pub stale_after: u64,
    /// Where decisions are logged, if they are.
    pub access_log: Option<AccessLog>,
    /// The path of the log of updates; standard error if there is none.
    pub update_log: Option<String>,
    /// Where the events are recorded, if they are.
    pub record: Option<Record>,
    /// Whether the server ends once its standard input does.
    pub until_eof: bool,
    /// Which fields of a front proxy hold the request of its client, and which have to be there.
    pub mapping: Mapping,
    /// Which paths are judged.
    pub paths: Paths,
}

/// Which paths are judged.
#[derive(Clone, Copy, Debug, PartialEq, Eq)]
pub enum Paths {
    /// Each one, as it was sent.
    AsSent,
    /// Only those that no rule of `head_map::path_is_strict` refuses.
    Strict,
}

/// How long things may take, in milliseconds.
#[derive(Clone, Copy, Debug)]
pub struct Timeouts {
    /// From a request's first byte until it is complete.
    pub head: u64,
    /// How long a connection stays open that is not used.
    pub idle: u64,
    /// How long a stream may take none of the bytes that wait for it.
    pub write: u64,
    /// How long connections are served once the server is to end.
    pub drain: u64,
    /// The first response of an update stream.
    pub first_response: u64,
}

/// A log of decisions.
#[derive(Debug, Drop)]
pub struct AccessLog {
    /// The path of the log.
    pub path: String,
    /// One in so many of the allowed requests is logged, and each other one; at least 1.
    pub sample: u64,
}

/// A record of events.
#[derive(Debug, Drop)]
pub struct Record {
    /// The path of the file that is written. Older ones have `.1`, `.2` and so on after it.
    pub path: String,
    /// A file is closed once it has so many bytes.
    pub bytes: u64,
    /// How many older files are kept.
    pub files: u32,
}
