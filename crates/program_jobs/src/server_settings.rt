//! The settings of a server, and their texts. No contract describes the texts that are printed.
ghost use Rattle.std.specs.Prelude.{IfOk, codes};
ghost use Rattle.attributes.specs.Conn.{conn_view};
ghost use Rattle.serde_json.specs.Find.{get};
ghost use Rattle.serde_json.specs.View.{view};
ghost use Rattle.program_jobs.specs.ServerSettings.{AreFactsIn, IsSettingsText, MeansSettings};

use crate::paths::clash_of;
use crate::settings_faults::all_causes;
use ads::Config;
use attributes::{Conn, Limit};
use program_texts::{FactsFault, conn_of};
use proxy_replay::{ConfigTextFault, config_at, config_text};
use rbac_judge::judge::plain_conn;
use serde_json::Value;
use serve_config::{Address, ServeConfig, ServeConfigFault, meaning, read_serve_config};
use serve_log::facts_value;
use std::alloc::{AllocError, Global};

// The length of the longest text of a peer's address with its port: one of IPv6 in brackets.
const LONGEST_PEER: usize = 47;

/// What a server is set to.
#[derive(Drop)]
pub struct ServerSettings {
    /// The node, the filters and the limits.
    pub config: Config,
    /// What is known of every connection.
    pub conn: Conn,
    /// Where it listens, and all else.
    pub settings: ServeConfig,
}

/// Why a text has no settings of a server.
#[derive(Drop)]
pub enum ServerSettingsFault {
    /// A member is wrong, for this cause.
    Bad(String),
    /// Memory ran out.
    Memory,
}

impl From<AllocError> for ServerSettingsFault {
    fn from(_refused: AllocError) -> ServerSettingsFault {
        ServerSettingsFault::Memory
    }
}

/// The settings of a JSON text (RFC 8259), which is an object. It has `proxy`, a configuration as in `read_config`, and
/// the members of `read_serve_config`. It may have `facts`, as in `read_facts`. `path` is that of their file.
pub fn read_server_settings(
    alloc: Global,
    path: &str,
    text: &[u8],
) -> Result<ServerSettings, ServerSettingsFault>
    ensures { IfOk result (λ it. IsSettingsText text.now it.config (conn_view it.conn) it.settings) }
{
    if text.is_empty() {
        return Err(ServerSettingsFault::Bad(String::from_str(alloc, "the file is empty")?));
    }
    let value = match Value::from_slice(alloc, text) {
        Ok(value) => value,
        Err(error) if error.is_memory() => return Err(ServerSettingsFault::Memory),
        Err(error) => {
            return Err(ServerSettingsFault::Bad(format!(in alloc;
                "it is not a JSON text: {error}"
            )?));
        }
    };
    let server_settings = match parts_of(alloc, &value) {
        Ok(server_settings) => server_settings,
        Err(PartFault::Memory) => return Err(ServerSettingsFault::Memory),
        Err(PartFault::Bad) => return Err(ServerSettingsFault::Bad(all_causes(alloc, value)?)),
    };
    match conflict_of(&server_settings).or(clash_of(&server_settings.settings, path)) {
        Some(cause) => Err(ServerSettingsFault::Bad(String::from_str(alloc, cause)?)),
        None => Ok(server_settings),
    }
}

// Why settings that are allowed by themselves do not go together, if they do not.
fn conflict_of(server_settings: &ServerSettings) -> Option<&'static str> {
    let limits = server_settings.config.limits();
    if !limits.fits_conn(&server_settings.conn) {
        return Some("facts: a text is longer than the limit text of proxy");
    }
    for address in &server_settings.settings.listen {
        if !matches!(address, Address::Unix(_)) && limits.get(Limit::Text) < LONGEST_PEER {
            return Some("proxy: the limit text is below 47, the length of a peer's address");
        }
    }
    None
}

// Why a value has no settings.
enum PartFault {
    Bad,
    Memory,
}

impl From<AllocError> for PartFault {
    fn from(_refused: AllocError) -> PartFault {
        PartFault::Memory
    }
}

// All settings, each by itself allowed.
fn parts_of(alloc: Global, value: &Value) -> Result<ServerSettings, PartFault>
    ensures { IfOk result (λ it. MeansSettings (view value.now) it.config (conn_view it.conn) it.settings) }
{
    let settings = match read_serve_config(alloc, value) {
        Ok(settings) => settings,
        Err(ServeConfigFault::Memory) => return Err(PartFault::Memory),
        Err(ServeConfigFault::Member { .. }) => return Err(PartFault::Bad),
    };
    let Some(proxy) = value.get("proxy") else {
        return Err(PartFault::Bad);
    };
    let config = match config_at(alloc, proxy) {
        Ok(config) => config,
        Err(ConfigTextFault::Memory) => return Err(PartFault::Memory),
        Err(ConfigTextFault::Bad) => return Err(PartFault::Bad),
    };
    let conn = facts_in(alloc, value)?;
    Ok(ServerSettings {
        config,
        conn,
        settings,
    })
}

// The facts of all connections.
fn facts_in(alloc: Global, value: &Value) -> Result<Conn, PartFault>
    ensures { IfOk result (λ conn. AreFactsIn (get (codes "facts") (view value.now)) (conn_view conn)) }
{
    match value.get("facts") {
        Some(facts) => match conn_of(alloc, facts) {
            Ok(conn) => Ok(conn),
            Err(FactsFault::Memory) => Err(PartFault::Memory),
            Err(FactsFault::Bad) => Err(PartFault::Bad),
        },
        None => {
            let conn = plain_conn(alloc)?;
            Ok(conn)
        }
    }
}

/// The meaning of the settings, in lines for their author.
pub fn server_settings_text(
    alloc: Global,
    server_settings: &ServerSettings,
) -> Result<String, AllocError> {
    let config = config_text(alloc, &server_settings.config)?;
    let facts = facts_text(alloc, &server_settings.conn)?;
    let settings = meaning(alloc, &server_settings.settings)?;
    format!(in alloc; "{config}facts {facts}\n{settings}")
}

// What is known of a connection, as the JSON object that a facts file has.
fn facts_text(alloc: Global, conn: &Conn) -> Result<String, AllocError> {
    facts_value(alloc, conn)?.to_string(alloc)
}
