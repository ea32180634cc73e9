//! The responses of the control plane that took longest to judge.

use serde::Serialize;
use std::alloc::{AllocError, Global};

// How many are kept.
const KEPT: usize = 10;
// How many characters of a version are kept.
const VERSION_KEPT: usize = 100;

/// How long a response took.
#[derive(Debug, Drop, Serialize)]
pub(crate) struct Admission {
    // The response's version, or its first characters.
    version: String,
    // When it was judged, in milliseconds since 1970.
    time: u64,
    microseconds: u64,
}

/// The slowest responses, the slowest first.
#[derive(Debug, Drop)]
pub(crate) struct Slowest {
    admissions: Vec<Admission>,
}

impl Slowest {
    pub(crate) fn new(alloc: Global) -> Slowest {
        Slowest {
            admissions: Vec::new(alloc),
        }
    }

    /// Keeps a response if it is among the slowest. After an error one of those may be gone.
    pub(crate) fn offer(
        &mut self,
        alloc: Global,
        version: &str,
        time: u64,
        microseconds: u64,
    ) -> Result<(), AllocError> {
        let faster = self
            .admissions
            .iter()
            .position(|it| it.microseconds < microseconds);
        let place = faster.unwrap_or(self.admissions.len());
        if place >= KEPT {
            return Ok(());
        }
        let version = beginning(alloc, version)?;
        self.admissions.truncate(KEPT - 1);
        let place = place.min(self.admissions.len());
        let admission = Admission {
            version,
            time,
            microseconds,
        };
        Ok(self.admissions.insert(place, admission)?)
    }

    pub(crate) fn admissions(&self) -> &[Admission] {
        &self.admissions
    }
}

// The first characters of a text.
fn beginning(alloc: Global, text: &str) -> Result<String, AllocError> {
    let mut first = String::new(alloc);
    for ch in text.chars().take(VERSION_KEPT) {
        first.push(ch)?;
    }
    Ok(first)
}
