//! A server's worker: the core with its connections and its update stream, and the bytes that wait for each. Sockets and
//! the loop are the caller's.
#![tactic(auto)]

mod calls;
mod connection;
pub mod laws;
mod outbox;
mod places;
mod results;
mod serving;
mod worker;

pub use outbox::{Outbox, Sent};
pub use results::{Answered, Fed};
pub use worker::Worker;
