//! The system's clocks: milliseconds since 1970, and microseconds for durations.

use std::rt::Clock;

/// The milliseconds since 1970; 0 if the system does not say.
pub fn unix_millis<R: Clock>(rt: &R) -> u64 {
    match rt.since_1970() {
        Ok(passed) => u64::try_from(passed.as_millis()).unwrap_or(u64::MAX),
        Err(_) => 0,
    }
}

/// The microseconds since a fixed time; 0 if the system does not say.
pub fn micros<R: Clock>(rt: &R) -> u64 {
    match rt.monotonic() {
        Ok(passed) => u64::try_from(passed.as_micros()).unwrap_or(u64::MAX),
        Err(_) => 0,
    }
}
