//! Values and types of CEL: their meaning, order, equality, lengths and masses.
#![tactic(auto)]

mod cel_type;
mod equality;
mod error;
mod key;
pub mod laws;
mod map;
mod mass;
mod value;

pub use cel_type::{CelType, KeyType};
pub use equality::same_texts;
pub use error::CelError;
pub use key::{LentKey, compare_texts};
pub use map::insert_entry;
pub use mass::{item_count, length, spend, text_length};
pub use value::{Answer, Key, Map, Value, copy_answer};
