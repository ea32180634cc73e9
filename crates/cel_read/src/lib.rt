//! Reads the messages of checked expressions.
#![tactic(auto)]

mod constant;
mod fields;
pub mod laws;
mod literals;
mod loops;
mod maps;
mod message;
mod node;
mod node_id;
mod operands;
mod parsed;
mod read;
mod reference;
mod type_entry;
mod type_node;

pub use message::{
    read_checked, read_checked_at, read_checked_parts, read_unchecked_at, read_unchecked_parts,
};
