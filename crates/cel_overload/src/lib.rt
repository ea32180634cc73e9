//! Functions and overloads of CEL: one table for the types, answers and charges of calls.
#![tactic(auto)]

mod function;
mod kinds;
pub mod laws;
mod overload;

pub use function::{Function, function_named};
pub use overload::{Found, Overload, OverloadFault, ResultType, find_overload};
