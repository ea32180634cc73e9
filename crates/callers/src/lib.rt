//! Callers of the engine, to copy. Each is a short function whose contract says what its caller gets.
//!
//! `decide` decides a request by an admitted filter. `updates` feeds the client of an update stream. `frames` reads the
//! messages of a stream of bytes. `condition` checks, compiles and runs one condition. `heads` takes the requests from
//! the bytes of a connection. Nothing uses this crate, so a change of a public call that they make shows here.
#![tactic(auto)]

mod condition;
mod decide;
mod frames;
mod heads;
mod updates;

pub use condition::{holds, prepare};
pub use decide::{Undecided, lets_through};
pub use frames::messages_in;
pub use heads::take_asks;
pub use updates::{Taken, take_updates};
