//! The two ends of an update stream. The client judges responses, answers them and keeps what it accepts; the control
//! plane serves snapshots.
#![tactic(auto)]

mod accepted;
mod answer;
mod calls;
mod client;
mod config;
mod control;
mod ended;
mod exchange;
mod judgement;
mod judging;
pub mod laws;
mod refused;
mod reply;
mod response;
mod serving;
mod snapshot;
mod stream;

pub use client::{Client, Fed};
pub use config::{Config, ConfigFault, Filter};
pub use control::{Control, Replied};
pub use ended::Ended;
pub use exchange::{Exchange, RequestMeaning, Sent};
pub use judgement::{Judgement, Refused, ResponseOutcome};
pub use snapshot::{Resource, Snapshot};
