//! Checks the types of CEL expressions.
#![tactic(auto)]

mod checker;
pub mod laws;

pub use checker::{check, check_at, id_of};
