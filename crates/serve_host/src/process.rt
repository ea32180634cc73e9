//! Opens the network of a server, and serves on it until the server is to end.
ghost use Rattle.std.specs.Prelude.{◌≡◌, [], None, true, IfOk};
ghost use Rattle.serve_loop.specs.History.{is_told};
ghost use Rattle.serve_loop.specs.Law.{wire_of};
ghost use Rattle.serve_core.specs.MappedHeadline.{SettingsHeadline};

use crate::admin_port::AdminPort;
use crate::descriptors::{fitting, open_files};
use crate::errors::{errors_of, taken_streams};
use crate::fault::HostFault;
use crate::network::HostNetwork;
use crate::serving::{EndedServer, Surroundings, serve_by};
use crate::upkeep::HostUpkeep;
use ads::Config;
use attributes::Conn;
use serve_admin::{Admin, FilterStatus};
use serve_config::{Record, ServeConfig};
use serve_log::{LogFile, RecordSettings, Recorder};
use serve_net::Sockets;
use serve_observe::{Accesses, Logs, Observers, unix_millis};
use std::alloc::{AllocError, Global};
use std::hash::RandomState;
use std::io::Write;

/// The sockets of these settings, as a network to which nothing happened. These facts are known of every connection.
pub fn open_network<'r>(
    alloc: Global,
    rt: &'r HostRuntime,
    conn: Conn,
    settings: &ServeConfig,
) -> Result<HostNetwork<'r>, HostFault>
    ensures wire { IfOk result (λ network. network.history.trace.turns ≡ []) }
    ensures facts { IfOk result (λ network. network.history.conn ≡ conn) }
{
    let taken = taken_streams(alloc, rt)?;
    let sockets = Sockets::open(alloc, rt, settings)?;
    let mut network = HostNetwork::new(alloc, rt, sockets, conn, settings.connections)?;
    network.keep(taken);
    Ok(network)
}

/// Serves on this network with this configuration of the proxy and by these settings until the server is to end. Then it
/// serves until its connections have ended, for at most the drain time. The headline by these settings holds of all that
/// happened on its wire, and its facts are those that it was opened with. An error says why it could not begin.
pub fn serve_on<'r>(
    alloc: Global,
    rt: &'r HostRuntime,
    config: &Config,
    settings: &ServeConfig,
    network: HostNetwork<'r>,
) -> Result<EndedServer<HostNetwork<'r>>, HostFault>
    requires { wire_of network.history.trace.turns ≡ [] }
    ensures headline { IfOk result (λ ended. SettingsHeadline config.now settings.now
        (wire_of ended.network.history.trace.turns)) }
    ensures setup { IfOk result (λ ended. ended.network.history.conn ≡ network.entry.history.conn) }
    ensures told { IfOk result (λ ended. ended.fault ≡ None → is_told (wire_of ended.network.history.trace.turns) ≡ true) }
{
    let at_once = most_at_once(rt, settings);
    let observers = observers_of(alloc, rt, config, settings, at_once)?;
    let upkeep = upkeep_of(alloc, rt, settings)?;
    let surroundings = Surroundings {
        network,
        observers,
        upkeep,
        at_once,
    };
    Ok(serve_by(alloc, config, settings, surroundings)?)
}

// How many connections are open at once at most: as many as are set. They are fewer if the system's limit of open files has
// room for no more, and then standard error says so.
fn most_at_once(rt: &HostRuntime, settings: &ServeConfig) -> usize {
    let set = settings.connections;
    let Some(limit) = open_files(rt) else {
        return set;
    };
    let fit = fitting(set, limit);
    if fit < set {
        let mut errors = errors_of(rt);
        let _ = writeln!(
            errors,
            "the limit of open files is {limit}: it leaves room for {fit} of {set} connections"
        );
    }
    fit
}

type HostObservers<'r> = Observers<'r, HostRuntime, &'r HostRuntime>;

// Those who see what happens, with so many connections at once at most: the status, the metrics and the logs.
fn observers_of<'r>(
    alloc: Global,
    rt: &'r HostRuntime,
    config: &Config,
    settings: &ServeConfig,
    at_once: usize,
) -> Result<HostObservers<'r>, HostFault>
    ensures { IfOk result (λ observers. observers.trace.turns ≡ []) }
{
    let node = String::from_str(alloc, config.node())?;
    let filters = filters_of(alloc, config)?;
    let mut admin = Admin::new(alloc, node, unix_millis(rt), filters)?;
    admin.metrics.set_limit(at_once as u64);
    admin.status.stale_after = settings.stale_after.saturating_mul(1_000);
    let logs = logs_of(alloc, rt, config, settings)?;
    Ok(Observers::new(alloc, rt, settings.connections, admin, logs)?)
}

// What is done between turns.
fn upkeep_of<'r>(
    alloc: Global,
    rt: &'r HostRuntime,
    settings: &ServeConfig,
) -> Result<HostUpkeep<'r, HostRuntime>, HostFault> {
    let keys = RandomState::new(rt).map_err(HostFault::Wait)?;
    let port = AdminPort::new(alloc, keys)?;
    let record = match &settings.record {
        Some(record) => Some(String::from_str(alloc, record.path.as_str())?),
        None => None,
    };
    Ok(HostUpkeep::new(rt, port, errors_of(rt), record))
}

// What the status says of the filters before they have policies.
fn filters_of(alloc: Global, config: &Config) -> Result<Vec<FilterStatus>, AllocError> {
    let mut filters = Vec::new(alloc);
    for (name, budget) in config.filters() {
        filters.push(FilterStatus {
            name: String::from_str(alloc, name.as_str())?,
            budget: budget.steps,
            policies: None,
        })?;
    }
    Ok(filters)
}

// The logs, which are opened.
fn logs_of<'r>(
    alloc: Global,
    rt: &'r HostRuntime,
    config: &Config,
    settings: &ServeConfig,
) -> Result<Logs<&'r HostRuntime>, HostFault> {
    let updates = match &settings.update_log {
        Some(path) => log_at(alloc, rt, path.as_str())?,
        None => LogFile::of_writer(alloc, rt, errors_of(rt)),
    };
    let accesses = match &settings.access_log {
        Some(access) => {
            let file = log_at(alloc, rt, access.path.as_str())?;
            Some(Accesses::new(alloc, file, access.sample))
        }
        None => None,
    };
    let recorder = match &settings.record {
        Some(record) => Some(recorder_at(alloc, rt, config, record)?),
        None => None,
    };
    Ok(Logs {
        updates,
        accesses,
        recorder,
    })
}

fn log_at<'r>(
    alloc: Global,
    rt: &'r HostRuntime,
    path: &str,
) -> Result<LogFile<&'r HostRuntime>, HostFault> {
    match LogFile::open(alloc, rt, path) {
        Ok(file) => Ok(file),
        Err(error) => Err(HostFault::Log {
            path: String::from_str(alloc, path)?,
            error,
        }),
    }
}

fn recorder_at<'r>(
    alloc: Global,
    rt: &'r HostRuntime,
    config: &Config,
    record: &Record,
) -> Result<Recorder<&'r HostRuntime>, HostFault> {
    let path = record.path.as_str();
    let settings = RecordSettings {
        path,
        bytes: record.bytes,
        older: record.files,
        filters: config.filters().len(),
    };
    match Recorder::new(alloc, rt, &settings) {
        Ok(recorder) => Ok(recorder),
        Err(error) => Err(HostFault::Log {
            path: String::from_str(alloc, path)?,
            error,
        }),
    }
}
