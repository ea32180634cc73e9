//! Times as texts.

use jiff::Timestamp;
use std::alloc::{AllocError, Global};

/// A time as RFC 3339 spells it, in UTC and with milliseconds, as `2026-11-27T08:54:09.120Z`. The number is that of the
/// milliseconds since 1970. None after the year 9999.
pub fn time_text(alloc: Global, milliseconds: u64) -> Result<Option<String>, AllocError> {
    if milliseconds > i64::MAX as u64 {
        return Ok(None);
    }
    match Timestamp::from_millisecond(milliseconds as i64) {
        Ok(time) => Ok(Some(format!(in alloc; "{time:.3}")?)),
        Err(_) => Ok(None),
    }
}
