//! Which requests come from this machine's operator, as far as a browser can be trusted.

use bytes::Bytes;
use http::{HeaderMap, HeaderValue, Request, header};
use std::net::IpAddr;

/// Whether each host that a request names is an IP address or a loopback name. A page that a browser loaded under
/// another name is so kept from reading answers.
pub(crate) fn names_local_host(request: &Request<Bytes>) -> bool {
    let target = match request.uri().host() {
        Some(host) => is_local(host),
        None => true,
    };
    target
        && request
            .headers()
            .get_all(header::HOST)
            .iter()
            .all(is_local_value)
}

/// Whether a request comes from no page of another site.
pub(crate) fn has_own_origin(headers: &HeaderMap<HeaderValue>) -> bool {
    let host = headers
        .get(header::HOST)
        .map(HeaderValue::as_bytes)
        .unwrap_or(b"");
    headers
        .get_all(header::ORIGIN)
        .iter()
        .all(|origin| is_origin_of(origin.as_bytes(), host))
}

// Whether an origin is `http://` and this host.
fn is_origin_of(origin: &[u8], host: &[u8]) -> bool {
    match origin.strip_prefix(b"http://") {
        Some(rest) => rest.eq_ignore_ascii_case(host),
        None => false,
    }
}

fn is_local_value(value: &HeaderValue) -> bool {
    match value.to_str() {
        Ok(host) => is_local(host),
        Err(_) => false,
    }
}

// Whether a host, with or without a port, is an IP address or a loopback name.
fn is_local(host: &str) -> bool {
    if let Some(rest) = host.strip_prefix('[') {
        return match rest.split_once(']') {
            Some((address, _)) => is_address(address),
            None => false,
        };
    }
    let name = match host.split_once(':') {
        Some((name, _)) => name,
        None => host,
    };
    is_address(name) || is_loopback_name(name.as_bytes())
}

fn is_address(text: &str) -> bool {
    text.parse::<IpAddr>().is_ok()
}

// Whether a name is `localhost` or below it (RFC 6761, section 6.3).
fn is_loopback_name(name: &[u8]) -> bool {
    let name = name.strip_suffix(b".").unwrap_or(name);
    let local = b"localhost";
    let Some(before) = name.len().checked_sub(local.len()) else {
        return false;
    };
    match (name.get(..before), name.get(before..)) {
        (Some(front), Some(end)) => {
            end.eq_ignore_ascii_case(local) && (front.is_empty() || front.ends_with(b"."))
        }
        _ => false,
    }
}
