//! The meaning and the types of CEL expressions.
#![tactic(auto)]

pub mod laws;
mod names;
mod typed;

pub use names::{attribute_named, is_root, joined_name};
pub use typed::{Typed, TypedExpr, TypedLoop, Variables};
