//! Reads the heads of HTTP/1 requests, gives their requests or faults, and writes answers.
#![tactic(auto)]

mod answer;
mod ask;
mod body;
mod by_parts;
mod closing;
pub mod deciding;
mod fault;
mod fields;
mod framing;
mod front;
mod head;
pub mod laws;
mod line;
mod lines;
mod part;
mod parts;
mod read;
mod scan;
mod spelled;
mod spelled_ask;
mod turn;

pub use answer::{Case, Reply};
pub use ask::Ask;
pub use by_parts::request_of_parts;
pub use fault::{HeadFault, HeadPart};
pub use front::Front;
pub use parts::{HeadParts, Line};
pub use read::{HeadAsk, read_head};
