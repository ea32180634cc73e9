//! Envoy's question by gRPC, `envoy.service.auth.v3.Authorization/Check`: which request a CheckRequest means, and the bytes
//! of its answer.
#![tactic(auto)]

mod answer;
mod check;
mod fault;
mod fields;
mod filters;
mod known;
pub mod laws;
mod lines;
mod outcome;
mod part;
mod socket;

pub use answer::{SetHeader, write_answer};
pub use check::{Check, read_check};
pub use fault::CheckFault;
pub use outcome::Outcome;
pub use part::{CheckPart, End, PrincipalName};
