//! What a program in C gives: the facts of a connection, requests by their parts, and the limits of requests.
#![tactic(auto)]

mod bounds;
mod facts;
mod request;

pub use bounds::{Bounds, limits_of};
pub use facts::{FactsFault, FactsInput, Text, conn_of};
pub use request::RequestInput;
