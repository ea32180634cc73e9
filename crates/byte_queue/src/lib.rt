//! A queue of bytes, as those that wait to be sent on a stream.
#![tactic(auto)]

mod queue;

pub use queue::{ByteQueue, append};
