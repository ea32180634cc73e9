//! Trees of CEL, and what their messages mean.
#![tactic(auto)]

mod checked;
mod id_map;
mod kinds;
mod pairs;
mod places;
mod tree;

pub use checked::{Checked, Reference, ReferenceMap, TypeEntry, TypeMap};
pub use kinds::{ConstantKind, NodeKind, TypeKind};
pub use pairs::{both, kept};
pub use places::{ENTRY_KEY, NODE_ID, fault_of_entry, fault_of_node};
pub use tree::{Comprehension, Constant, Tree, TreeEntry};
