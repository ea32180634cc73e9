//! Moves bytes between streams and the core of a proxy or a control plane, in rounds, and logs what is sent.
#![tactic(auto)]

mod log;
mod log_lines;
mod pumps;
mod rounds;

pub use log::Log;
pub use pumps::{open_updates, serve_connection, serve_stream, take_response};
pub use rounds::{Streams, serve_rounds};
