//! An RBAC filter: admission of its message, and decisions by it.
#![tactic(auto)]

mod admission;
mod causes;
mod condition;
mod decide;
mod filter;
mod keys;
pub mod laws;
mod numbers;
mod place;
mod policy;
mod policy_index;
mod reason;
mod trials;
mod written;

pub use admission::{admit, admit_at};
pub use causes::PolicyCauses;
pub use filter::{Admitted, Verdict};
pub use place::place_of_fault;
pub use reason::Reason;
pub use trials::Trial;
pub use written::{WrittenCondition, written_condition};
