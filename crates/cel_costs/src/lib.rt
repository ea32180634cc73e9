//! The size and the cost of a checked expression: definitions, and laws of them.
#![tactic(auto)]

pub mod laws;
