//! What a server reports of itself. Names, versions and causes are any text.
ghost use Rattle.std.specs.Prelude.{◌≡◌};
ghost use Rattle.std.specs.List.{list_all};
ghost use Rattle.serve_admin.specs.Readiness.{has_policies, is_stale, readiness};

use serde::Serialize;
use std::alloc::{AllocError, Global};

/// What a server reports of itself. All times are in milliseconds since 1970.
#[derive(Debug, Drop, Serialize)]
pub struct Status {
    /// How often the policies were replaced.
    pub generation: u64,
    /// The version of the policies that are in force, empty if there are none yet.
    pub version: String,
    /// The name of this server at its control plane.
    pub node: String,
    /// When it was started.
    pub started: u64,
    pub filters: Vec<FilterStatus>,
    pub stream: StreamStatus,
    /// The last response that was refused.
    pub refusal: Option<RefusalStatus>,
    /// Whether it serves what is open, and accepts no more.
    pub drains: bool,
    /// How much memory it takes, in bytes.
    pub resident_memory: u64,
    /// For how many milliseconds the control plane was not heard.
    pub control_silence: u64,
    /// After how many of them the server is not ready; 0 for never.
    pub stale_after: u64,
}

/// A filter, in the order of evaluation.
#[derive(Debug, Drop, Serialize)]
pub struct FilterStatus {
    pub name: String,
    /// The greatest bound that is admitted.
    pub budget: u64,
    /// The policies, if there are some yet.
    pub policies: Option<PoliciesStatus>,
}

/// The policies of a filter.
#[derive(Debug, Drop, Serialize)]
pub struct PoliciesStatus {
    /// The version of the response that brought them.
    pub version: String,
    /// How many steps their conditions take at most for one request.
    pub bound: u64,
    /// Their names, by their numbers.
    pub names: Vec<String>,
}

/// The update stream.
#[derive(Debug, Drop, Serialize)]
#[serde(tag = "state", rename_all = "snake_case")]
pub enum StreamStatus {
    Up { since: u64 },
    /// It is lost, or was never up.
    Down { since: u64, why: String },
}

/// A response that was refused.
#[derive(Debug, Drop, Serialize)]
pub struct RefusalStatus {
    /// When it was refused.
    pub time: u64,
    pub version: String,
    /// The number of the reason.
    pub number: u64,
    /// The name of the reason.
    pub name: String,
    /// The reason in words.
    pub cause: String,
    /// The filter that has the fault, if it is known.
    pub filter: Option<String>,
    /// The part of the filter that has the fault, if it is known.
    pub place: Option<String>,
}

impl Status {
    /// Of a server that has just been started: it has no filters, and the update stream is not up.
    pub fn new(alloc: Global, node: String, started: u64) -> Result<Status, AllocError> {
        Ok(Status {
            generation: 0,
            version: String::new(alloc),
            node,
            started,
            filters: Vec::new(alloc),
            stream: StreamStatus::Down {
                since: started,
                why: String::from_str(alloc, "not connected yet")?,
            },
            refusal: None,
            drains: false,
            resident_memory: 0,
            control_silence: 0,
            stale_after: 0,
        })
    }

    /// Whether requests are judged by policies, and new connections are accepted. A server whose control plane was not
    /// heard for too long is not ready.
    pub fn is_ready(&self) -> bool
        ensures { result ≡ readiness self.now }
    {
        !self.drains && !self.is_stale() && all_have_policies(&self.filters)
    }

    /// Whether the control plane was not heard for too long.
    pub fn is_stale(&self) -> bool
        ensures { result ≡ is_stale self.now }
    {
        self.stale_after > 0 && self.stale_after <= self.control_silence
    }
}

fn all_have_policies(filters: &[FilterStatus]) -> bool
    ensures { result ≡ list_all has_policies filters.now }
{
    filters.iter().all(|filter| has_policies(filter))
}

fn has_policies(filter: &FilterStatus) -> bool
    ensures { result ≡ has_policies filter.now }
{
    filter.policies.is_some()
}
