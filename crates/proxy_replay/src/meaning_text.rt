//! The texts on a configuration: its meaning, or its fault. No contract describes these texts.
use crate::configuration::{CONFIG_NAMES, FILTER_NAMES, LIMIT_NAMES, limit_at};
use ads::Config;
use attributes::{Limit, Limits};
use cost_bound::{MOST_STEPS, MOST_VISITS};
use program_texts::{InvalidValue, is_among, items_at, number_or, str_at};
use serde_json::Value;
use std::alloc::{AllocError, Global};

// How many causes are reported, at most.
const MOST_CAUSES: usize = 16;

/// The meaning of a configuration, in lines for its author.
pub fn config_text(alloc: Global, config: &Config) -> Result<String, AllocError> {
    let (node, cluster) = (config.node(), config.cluster());
    let mut text = format!(in alloc; "node {node:?}\ncluster {cluster:?}\n")?;
    for (name, budget) in config.filters() {
        let name = name.as_str();
        let (steps, visits) = (budget.steps, budget.visits);
        let line = format!(in alloc; "filter {name:?} budget {steps} visits {visits}\n")?;
        text.push_str(line.as_str())?;
    }
    let limits = limits_text(alloc, config.limits())?;
    text.push_str(limits.as_str())?;
    Ok(text)
}

// The line of the limits.
fn limits_text(alloc: Global, limits: &Limits) -> Result<String, AllocError> {
    let (fields, name, value) = (
        limits.get(Limit::Fields),
        limits.get(Limit::Name),
        limits.get(Limit::Value),
    );
    let (method, target, text) = (
        limits.get(Limit::Method),
        limits.get(Limit::Target),
        limits.get(Limit::Text),
    );
    format!(in alloc;
        "limits fields {fields} name {name} value {value} method {method} target {target} text {text}\n"
    )
}

/// Why a text is no configuration, in words for its author.
pub fn cause_of_bad_config(alloc: Global, text: &[u8]) -> Result<String, AllocError> {
    if text.is_empty() {
        return String::from_str(alloc, "the file is empty");
    }
    let value = match Value::from_slice(alloc, text) {
        Ok(value) => value,
        Err(error) => return format!(in alloc; "it is not a JSON text: {error}"),
    };
    if value.get("proxy").is_some() && value.get("listen").is_some() {
        return String::from_str(
            alloc,
            "these are the settings of a server, which `rbacd serve --check` reads; a configuration is the value of their member \"proxy\"",
        );
    }
    let causes = causes_of_bad_settings(alloc, &value)?;
    causes_text(alloc, &causes)
}

/// The first of these causes, one on a line. The lines after the first are indented, as below `bad config`.
pub fn causes_text(alloc: Global, causes: &[String]) -> Result<String, AllocError> {
    let mut text = String::new(alloc);
    let mut mark = "";
    for (number, cause) in causes.iter().enumerate() {
        if number == MOST_CAUSES {
            break;
        }
        text.push_str(mark)?;
        text.push_str(cause.as_str())?;
        mark = "\n  ";
    }
    Ok(text)
}

/// Why a JSON value is no configuration, in words for its author: the first fault of its names, of each member and of
/// each filter.
pub fn causes_of_bad_settings(alloc: Global, value: &Value) -> Result<Vec<String>, AllocError> {
    let mut causes = Vec::new(alloc);
    note(&mut causes, cause_of_names(alloc, value, &CONFIG_NAMES)?)?;
    if !value.is_object() {
        return Ok(causes);
    }
    for name in ["node", "cluster"] {
        note(&mut causes, cause_of_text(alloc, value, name)?)?;
    }
    note(&mut causes, cause_of_limits(alloc, value)?)?;
    match items_at(value, "filters") {
        Ok(items) => note_filters(alloc, &mut causes, items)?,
        Err(InvalidValue) => {
            causes.push(String::from_str(alloc, "filters is missing or not an array")?)?;
        }
    }
    if causes.is_empty() {
        causes.push(String::from_str(alloc, "two filters have the same name")?)?;
    }
    Ok(causes)
}

// Adds a cause, if there is one.
fn note(causes: &mut Vec<String>, cause: Option<String>) -> Result<(), AllocError> {
    if let Some(cause) = cause {
        causes.push(cause)?;
    }
    Ok(())
}

// The fault of the node or the cluster, if it has one.
fn cause_of_text(alloc: Global, value: &Value, name: &str) -> Result<Option<String>, AllocError> {
    match str_at(value, name) {
        Ok(text) if text.len() <= 256 => Ok(None),
        Ok(_) => Ok(Some(format!(in alloc; "{name} has more than 256 bytes")?)),
        Err(InvalidValue) => Ok(Some(format!(in alloc; "{name} is missing or not a text")?)),
    }
}

// Why the names of an object's members are not all among these.
fn cause_of_names(
    alloc: Global,
    value: &Value,
    names: &[&str],
) -> Result<Option<String>, AllocError> {
    let Some(members) = value.as_object() else {
        return Ok(Some(String::from_str(alloc, "it is not a JSON object")?));
    };
    for name in members.keys() {
        let name = name.as_str();
        if !is_among(name, names) {
            return Ok(Some(format!(in alloc; "there is no member {name:?}")?));
        }
    }
    Ok(None)
}

// The fault of declared limits, if they have one.
fn cause_of_limits(alloc: Global, value: &Value) -> Result<Option<String>, AllocError> {
    let Some(limits) = value.get("limits") else {
        return Ok(None);
    };
    if let Some(cause) = cause_of_names(alloc, limits, &LIMIT_NAMES)? {
        return Ok(Some(format!(in alloc; "limits: {cause}")?));
    }
    for (name, limit) in [
        ("fields", Limit::Fields),
        ("name", Limit::Name),
        ("value", Limit::Value),
        ("method", Limit::Method),
        ("target", Limit::Target),
        ("text", Limit::Text),
    ] {
        let greatest = Limits::largest().get(limit);
        match limit_at(limits, name, limit) {
            Ok(number) if number > 0 && number <= greatest => {}
            _ => {
                return Ok(Some(format!(in alloc;
                    "the limit {name} is not a whole number from 1 to {greatest}"
                )?));
            }
        }
    }
    Ok(None)
}

// Adds the fault of the number of filters, or the first fault of each filter.
fn note_filters(
    alloc: Global,
    causes: &mut Vec<String>,
    items: &[Value],
) -> Result<(), AllocError> {
    let count = items.len();
    if count == 0 || count > 8 {
        causes.push(format!(in alloc; "there are {count} filters; there may be 1 to 8")?)?;
        return Ok(());
    }
    for (number, item) in items.iter().enumerate() {
        if let Some(cause) = cause_of_filter(alloc, item)? {
            causes.push(format!(in alloc; "filter {number}: {cause}")?)?;
        }
    }
    Ok(())
}

// The fault of this filter, if it has one.
fn cause_of_filter(alloc: Global, item: &Value) -> Result<Option<String>, AllocError> {
    if let Some(cause) = cause_of_names(alloc, item, &FILTER_NAMES)? {
        return Ok(Some(cause));
    }
    match str_at(item, "name") {
        Ok(name) if !name.is_empty() && name.len() <= 256 => {}
        _ => {
            return Ok(Some(String::from_str(alloc, "its name is not a text of 1 to 256 bytes")?));
        }
    }
    if !is_number_to(item, "budget", MOST_STEPS) {
        let cause = "its budget is not a whole number from 1 to 100000000";
        return Ok(Some(String::from_str(alloc, cause)?));
    }
    if !is_number_to(item, "visits", MOST_VISITS) {
        let cause = "its visits are not a whole number from 1 to 9223372036854775807";
        return Ok(Some(String::from_str(alloc, cause)?));
    }
    Ok(None)
}

// Whether a member is absent, or a number from 1 to the greatest.
fn is_number_to(item: &Value, name: &str, greatest: u64) -> bool {
    matches!(number_or(item, name, greatest), Ok(number) if number > 0 && number <= greatest)
}
