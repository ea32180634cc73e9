//! The job that serves connections until it is to end.
ghost use Rattle.std.specs.Prelude.{◌≡◌, ℕ, List, [], None, true, IfErr, IfOk, string_bytes};
ghost use Rattle.attributes.specs.Conn.{conn_view};
ghost use Rattle.rbacd.specs.Run.{EndsHost, EndsServe, EndsUnserved, HasHosted, LacksSettings};
ghost use Rattle.program_jobs.specs.ServerSettings.{IsSettingsText};
ghost use Rattle.program_jobs.specs.private.Stopping.{MemoryOrStop};
ghost use Rattle.serve_config.specs.declared.config.ServeConfig.{ServeConfig};
ghost use Rattle.serve_core.specs.MappedHeadline.{SettingsHeadline};
ghost use Rattle.serve_core.specs.Turns.{ServerFacts, ServerStep};
ghost use Rattle.serve_host.specs.Known.{HasKnownFacts};
ghost use Rattle.serve_loop.specs.History.{is_told};

use ads::Config;
use attributes::Conn;
use command_line::ServeWords;
use program_jobs::{
    JobFault, MISTAKE, ServerSettings, ServerSettingsFault, Source, end_by, end_by_memory,
    read_file, read_server_settings, server_settings_text, show, write_error,
};
use rbac_judge::Notes;
use serve_config::ServeConfig;
use serve_host::{EndedServer, HostFault};
use serve_loop::Network;
use std::alloc::{AllocError, Global};
use std::io::Write;

/// What can run a server: it opens a network, serves on it, and takes it back.
pub trait Hosts {
    /// The network of a server.
    type Network: Network<Conn>;

    /// This network is one that was opened by these facts and settings.
    ghost opened: { Self → ServerFacts → ServeConfig → Self.Network → Type 0 };

    /// This is all that happened on the wire of a network that was opened by these facts and settings, until it was taken
    /// back.
    ghost hosted: { Self → ServerFacts → ServeConfig → List ServerStep → Type 0 };

    /// Opens the network of these settings, to which nothing happened. These facts are known of every connection.
    fn open(
        &self,
        alloc: Global,
        conn: Conn,
        settings: &ServeConfig,
    ) -> Result<Self::Network, HostFault>
        ensures wire { IfOk result (λ network. Self.Network.wire network ≡ []) }
        ensures opened { IfOk result (λ network. opened self.now conn settings.now network) };

    /// Serves on this network by these settings until the server is to end. Fails if it cannot begin.
    fn serve(
        &self,
        alloc: Global,
        config: &Config,
        settings: &ServeConfig,
        network: Self::Network,
    ) -> Result<EndedServer<Self::Network>, HostFault>
        requires { Self.Network.wire network ≡ [] }
        ensures headline { IfOk result (λ ended. SettingsHeadline config.now settings.now (Self.Network.wire ended.network)) }
        ensures opened { (conn : ServerFacts) (by : ServeConfig) → opened self.now conn by network
            → IfOk result (λ ended. opened self.now conn by ended.network) }
        ensures told { IfOk result (λ ended. ended.fault ≡ None → is_told (Self.Network.wire ended.network) ≡ true) };

    /// Takes back a network.
    fn close(&self, network: Self::Network)
        ensures hosted { (conn : ServerFacts) (settings : ServeConfig) → opened self.now conn settings network
            → hosted self.now conn settings (Self.Network.wire network) }
        ensures facts { (conn : ServerFacts) (settings : ServeConfig) → opened self.now conn settings network
            → ∥ HasKnownFacts (conn_view conn) (Self.Network.wire network) ∥₁ };
}

/// Serves by the settings in the file, or prints what they mean. Returns the status.
pub(crate) fn run_serve<F: Source + Hosts, W: Write, E: Write>(
    alloc: Global,
    words: &ServeWords,
    system: &F,
    out: &mut W,
    errors: &mut E,
) -> u8
    ensures { EndsServe (F.holds system.now) (F.lacks system.now) (F.hosted system.now) (W.contents out.old)
        (W.contents out.new) (E.contents errors.old) (E.contents errors.new) result (string_bytes words.now.config)
        words.now.check }
{
    let mut notes = Notes::new(alloc);
    match server_settings_in(alloc, system, words.config.as_str(), &mut notes) {
        Ok(server_settings) => {
            if !words.check {
                return served(alloc, system, server_settings, out, errors);
            }
            match server_settings_text(alloc, &server_settings) {
                Ok(text) => show(text.as_bytes(), 0, out, errors),
                Err(AllocError) => end_by_memory(out, errors),
            }
        }
        Err(fault) => end_by(alloc, &fault, &notes, out, errors),
    }
}

// Serves until the server is to end. Returns the status.
fn served<F: Hosts, W: Write, E: Write>(
    alloc: Global,
    system: &F,
    server_settings: ServerSettings,
    out: &mut W,
    errors: &mut E,
) -> u8
    ensures { EndsHost (F.hosted system.now) server_settings.config server_settings.conn server_settings.settings
        (W.contents out.old) (W.contents out.new) (E.contents errors.old) (E.contents errors.new) result }
{
    match host(alloc, system, server_settings) {
        Ok(ended) => match ended {
            None => 0,
            Some(fault) => end_by_host(alloc, fault, out, errors),
        },
        Err(fault) => end_by_host(alloc, fault, out, errors),
    }
}

// Serves on a network that is opened by these settings, and gives it back. Returns why the server could not go on; none
// if it was told to end. Fails if it cannot begin.
fn host<F: Hosts>(
    alloc: Global,
    system: &F,
    server_settings: ServerSettings,
) -> Result<Option<HostFault>, HostFault>
    ensures { IfOk result (HasHosted (F.hosted system.now) server_settings.config server_settings.conn
        server_settings.settings) }
{
    let ServerSettings {
        config,
        conn,
        settings,
    } = server_settings;
    let network = system.open(alloc, conn, &settings)?;
    let ended = system.serve(alloc, &config, &settings, network)?;
    let (network, fault) = ended.into_parts();
    system.close(network);
    Ok(fault)
}

// Prints why a server cannot begin, or cannot go on. Returns the status.
fn end_by_host<W: Write, E: Write>(
    alloc: Global,
    fault: HostFault,
    out: &mut W,
    errors: &mut E,
) -> u8
    ensures { EndsUnserved (W.contents out.old) (W.contents out.new) (E.contents errors.old) (E.contents errors.new) result }
{
    let fault = match fault {
        HostFault::Memory(_) => return end_by_memory(out, errors),
        fault => fault,
    };
    match format!(in alloc; "{fault}\n") {
        Ok(text) => write_error(text.as_bytes(), MISTAKE, errors),
        Err(AllocError) => end_by_memory(out, errors),
    }
}

// The settings in the file at this path.
fn server_settings_in<F: Source>(
    alloc: Global,
    files: &F,
    path: &str,
    notes: &mut Notes,
) -> Result<ServerSettings, JobFault>
    ensures found { IfOk result (λ it. (text : List ℕ) × F.holds files.now path.now text
        × IsSettingsText text it.config (conn_view it.conn) it.settings) }
    ensures fault { IfErr result (MemoryOrStop
        (LacksSettings (F.holds files.now) (F.lacks files.now) path.now)) }
{
    let text = read_file(alloc, files, path)?;
    match read_server_settings(alloc, path, &text) {
        Ok(server_settings) => Ok(server_settings),
        Err(ServerSettingsFault::Memory) => Err(JobFault::Memory),
        Err(ServerSettingsFault::Bad(cause)) => {
            notes.config = cause;
            Err(JobFault::Config)
        }
    }
}
