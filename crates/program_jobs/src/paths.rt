//! Paths of a server's files that have to differ. They are compared as they are written.

use serve_config::{ControlAddress, ServeConfig};

/// Why two files would have one path, if that is so. `own` is the path of the settings file.
pub(crate) fn clash_of(settings: &ServeConfig, own: &str) -> Option<&'static str> {
    let access = match &settings.access_log {
        Some(log) => Some(log.path.as_str()),
        None => None,
    };
    let updates = match &settings.update_log {
        Some(path) => Some(path.as_str()),
        None => None,
    };
    let policies = match &settings.control {
        ControlAddress::File(path) => Some(path.as_str()),
        _ => None,
    };
    let record = match &settings.record {
        Some(record) => Some(record.path.as_str()),
        None => None,
    };
    if is_taken(record, access) || is_taken(record, updates) {
        return Some("record.path: a file of the record would have the path of another log");
    }
    if is_taken(record, policies) || is_taken(record, Some(own)) {
        return Some("record.path: a file of the record would replace the policies or the settings");
    }
    if is_same(access, policies) || is_same(access, Some(own)) {
        return Some("access_log.path: it is the path of the policies or of the settings");
    }
    if is_same(updates, policies) || is_same(updates, Some(own)) {
        return Some("update_log: it is the path of the policies or of the settings");
    }
    None
}

// Whether a file of the record at the first path would have the other path: that path itself, or with `.new` or a number
// added.
fn is_taken(record: Option<&str>, other: Option<&str>) -> bool {
    let (Some(record), Some(other)) = (record, other) else {
        return false;
    };
    match plain(other).strip_prefix(plain(record)) {
        Some(added) => added.is_empty() || added == ".new" || is_number(added.as_bytes()),
        None => false,
    }
}

// Whether this is a point and digits.
fn is_number(added: &[u8]) -> bool {
    match added {
        [b'.', digits @ ..] => !digits.is_empty()
            && digits.iter().all(|byte| byte.is_ascii_digit()),
        _ => false,
    }
}

// Whether both are there and the same.
fn is_same(one: Option<&str>, other: Option<&str>) -> bool {
    match (one, other) {
        (Some(one), Some(other)) => plain(one) == plain(other),
        _ => false,
    }
}

// The path without `./` at its start.
fn plain(path: &str) -> &str {
    match path.strip_prefix("./") {
        Some(rest) => rest,
        None => path,
    }
}
