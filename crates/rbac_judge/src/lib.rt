//! Judges a request head, or a batch of heads, by the bytes of a policy file and the facts of a connection. Reports the
//! outcome in words or as JSON.
#![tactic(auto)]

mod admitting;
mod bad_heads;
pub mod batch;
mod error_place;
mod explain;
mod head_lines;
mod input;
mod json;
pub mod judge;
mod notes;
mod outcome;
mod policy_file;
mod report;

pub use admitting::admit_file;
pub use error_place::place_of_error;
pub use explain::{Explanation, OwnTrial, unavailable_text};
pub use json::Why;
pub use notes::Notes;
pub use outcome::Outcome;
pub use policy_file::PolicyFile;
pub use report::Report;
