//! The texts on a refused policy file, a refused response and a head with a fault. They say what the fault means, and
//! which part has it.
#![tactic(auto)]

mod likeness;
mod meanings;
mod refused_part;
mod response_fault;
mod stream_end;

pub use likeness::{GuessedFormat, likeness_of, likeness_of_response};
pub use meanings::{meaning_of, rule_of};
pub use refused_part::{Meaning, RefusedPart, StepsLeft};
pub use response_fault::{ResponseFault, fault_of};
pub use stream_end::StreamEnd;
