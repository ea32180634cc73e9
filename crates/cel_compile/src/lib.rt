//! Compiles conditions to code of the machine.
#![tactic(auto)]

mod compiler;
mod few_locals;
mod instructions;
pub mod laws;
mod lengths;

pub use compiler::compile;
