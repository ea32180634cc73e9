//! What a front proxy says of its client: the client's own request, taken from named fields, and which paths are safe
//! to judge.
#![tactic(auto)]

mod client;
mod fact;
mod field_claim;
mod head;
pub mod laws;
mod lines;
mod mapped;
mod mapping;
mod parts;
mod path;

pub use fact::{Fact, MapFault, NamedFact};
pub use head::head_of;
pub use mapped::mapped_of;
pub use mapping::{Mapping, MappingFault, fact_name, is_field_name};
pub use parts::Parts;
pub use path::{PathFault, path_is_strict};
