//! Why a JSON value has no settings of a server: all faults at once, for their author. No contract describes the texts.

use program_texts::{FactsFault, cause_of_bad_value, conn_of};
use proxy_replay::{ConfigTextFault, causes_of_bad_settings, causes_text, config_at};
use serde_json::{Map, Value, put};
use serve_config::{ServeConfigFault, read_serve_config};
use std::alloc::{AllocError, Global};

// How often the settings are read again without a member that is wrong.
const MOST_READS: usize = 16;

/// The first fault of each member, one on a line, in the order in which the members are read. The first line is the fault
/// that `read_server_settings` meets.
pub(crate) fn all_causes(alloc: Global, value: Value) -> Result<String, AllocError> {
    let inner = inner_causes(alloc, &value)?;
    let mut causes = causes_of_members(alloc, value)?;
    for cause in inner {
        causes.push(cause)?;
    }
    causes_text(alloc, &causes)
}

// The faults inside `proxy` and `facts`, as far as these are present.
fn inner_causes(alloc: Global, value: &Value) -> Result<Vec<String>, AllocError> {
    let mut causes = Vec::new(alloc);
    if let Some(proxy) = value.get("proxy") {
        match config_at(alloc, proxy) {
            Ok(_) => {}
            Err(ConfigTextFault::Memory) => return Err(AllocError),
            Err(ConfigTextFault::Bad) => {
                for cause in causes_of_bad_settings(alloc, proxy)? {
                    causes.push(format!(in alloc; "proxy: {cause}")?)?;
                }
            }
        }
    }
    if let Some(facts) = value.get("facts") {
        if let Some(cause) = cause_of_facts(alloc, facts)? {
            causes.push(format!(in alloc; "facts: {cause}")?)?;
        }
    }
    Ok(causes)
}

// The fault of `facts`, if they have one.
fn cause_of_facts(alloc: Global, facts: &Value) -> Result<Option<String>, AllocError> {
    match conn_of(alloc, facts) {
        Ok(_) => Ok(None),
        Err(FactsFault::Memory) => Err(AllocError),
        Err(FactsFault::Bad) => match cause_of_bad_value(alloc, facts)? {
            Some(cause) => Ok(Some(cause)),
            None => Ok(Some(String::from_str(alloc, "a text is longer than the limit")?)),
        },
    }
}

// The faults of the members. After each one the settings are read again without the member that is wrong.
fn causes_of_members(alloc: Global, value: Value) -> Result<Vec<String>, AllocError> {
    let mut value = value;
    let mut causes = Vec::new(alloc);
    for _ in 0..MOST_READS {
        let Some(fault) = fault_of(alloc, &value)? else {
            break;
        };
        causes.push(format!(in alloc; "{fault}")?)?;
        if !is_mended(alloc, &mut value, &fault)? {
            break;
        }
    }
    Ok(causes)
}

// The first fault of a member, if there is one.
fn fault_of(alloc: Global, value: &Value) -> Result<Option<ServeConfigFault>, AllocError> {
    match read_serve_config(alloc, value) {
        Ok(_) => Ok(None),
        Err(ServeConfigFault::Memory) => Err(AllocError),
        Err(fault) => Ok(Some(fault)),
    }
}

// Takes the member of a fault out of an object, or gives it an allowed value if it is required. Whether that was done.
fn is_mended(
    alloc: Global,
    value: &mut Value,
    fault: &ServeConfigFault,
) -> Result<bool, AllocError> {
    let ServeConfigFault::Member { member, .. } = fault else {
        return Ok(false);
    };
    match value {
        Value::Object(members) => is_replaced(alloc, members, member.as_str()),
        _ => Ok(false),
    }
}

// Takes the member at this path out of the members, or gives it an allowed value. Whether there was one.
fn is_replaced(
    alloc: Global,
    members: &mut Map<String, Value>,
    path: &str,
) -> Result<bool, AllocError> {
    let name = first_name(path);
    let allowed = match name {
        "proxy" => Value::Null,
        "listen" => Value::try_from_str(alloc, "fd:3")?,
        "control" => Value::try_from_str(alloc, "grpc+unix:s")?,
        _ => return Ok(members.remove(path).is_some() || members.remove(name).is_some()),
    };
    put(members, alloc, name, allowed)?;
    Ok(true)
}

// The name of the member in which a path begins.
fn first_name(path: &str) -> &str {
    let name = path.split('.').next().unwrap_or(path);
    name.split('[').next().unwrap_or(name)
}
