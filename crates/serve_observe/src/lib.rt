//! What observes a server: each event is counted, logged and recorded.
#![tactic(auto)]

mod access_log;
mod clocks;
mod connections;
mod control;
mod frame;
mod gaps;
pub mod laws;
mod logs;
mod metrics;
mod observers;
mod record;
mod recording;
mod responses;
mod sample;
mod status;
mod update_log;

pub use access_log::Accesses;
pub use clocks::{micros, unix_millis};
pub use control::is_due;
pub use logs::Logs;
pub use observers::Observers;
