//! Checked expressions: a tree, and the entries of its maps by the ids of nodes.

ghost use Rattle.std.specs.Prelude.{◌≡◌, MatchResult, option_map};
ghost use Rattle.std.specs.FinMap.{empty, get, insert};
ghost use Rattle.cel_tree.specs.View.{reference_view, references_view, type_entry_view, types_view};

use crate::id_map::IdMap;
use crate::tree::{Constant, Tree};
use cel_value::CelType;
use std::alloc::{AllocError, Global};
use std::sync::ArcStr;

/// An entry of the type map.
#[derive(Drop)]
pub enum TypeEntry {
    /// The node has this type.
    Type(CelType),
    /// The entry states no type (`dyn`).
    Dyn,
    /// The node has a type of which some part is not supported.
    Unsupported,
}

/// An entry of the reference map.
#[derive(Drop)]
pub struct Reference {
    /// The name that the node refers to; none if it is empty.
    pub name: Option<ArcStr>,
    /// The value, if the name is that of a constant.
    pub value: Option<Constant>,
}

/// The entries of a type map, by the ids of nodes.
#[derive(Drop)]
pub struct TypeMap {
    entries: IdMap<TypeEntry>,
}

/// The entries of a reference map, by the ids of nodes.
#[derive(Drop)]
pub struct ReferenceMap {
    entries: IdMap<Reference>,
}

/// A checked expression (`google.api.expr.v1alpha1.CheckedExpr`).
#[derive(Drop)]
pub struct Checked {
    pub tree: Tree,
    pub types: TypeMap,
    pub refs: ReferenceMap,
}

impl TypeMap {
    /// A map without entries.
    pub fn new(alloc: Global) -> TypeMap
        ensures { types_view result ≡ empty }
    {
        TypeMap {
            entries: IdMap::new(alloc),
        }
    }

    /// Puts an entry at an id, and replaces an earlier one. If memory runs out, the map stays as it
    /// was.
    pub fn insert(&mut self, id: i64, entry: TypeEntry) -> Result<(), AllocError>
        ensures { MatchResult result
            (λ done. types_view self.new ≡ insert (types_view self.old) id (type_entry_view entry))
            (λ e. types_view self.new ≡ types_view self.old) }
    {
        self.entries.insert(id, entry)?;
        Ok(())
    }

    /// The entry of the node with this id.
    pub fn get(&self, id: i64) -> Option<&TypeEntry>
        ensures { option_map (λ entry. type_entry_view entry.now) result ≡ get (types_view self.now) id }
    {
        self.entries.get(id)
    }
}

impl ReferenceMap {
    /// A map without entries.
    pub fn new(alloc: Global) -> ReferenceMap
        ensures { references_view result ≡ empty }
    {
        ReferenceMap {
            entries: IdMap::new(alloc),
        }
    }

    /// Puts an entry at an id, and replaces an earlier one. If memory runs out, the map stays as it
    /// was.
    pub fn insert(&mut self, id: i64, entry: Reference) -> Result<(), AllocError>
        ensures { MatchResult result
            (λ done. references_view self.new ≡ insert (references_view self.old) id (reference_view entry))
            (λ e. references_view self.new ≡ references_view self.old) }
    {
        self.entries.insert(id, entry)?;
        Ok(())
    }

    /// The entry of the node with this id.
    pub fn get(&self, id: i64) -> Option<&Reference>
        ensures { option_map (λ entry. reference_view entry.now) result ≡ get (references_view self.now) id }
    {
        self.entries.get(id)
    }
}
