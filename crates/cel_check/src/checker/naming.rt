//! Names the node at which an expression is refused.

ghost use Rattle.std.specs.Prelude.{◌≡◌, ◌≢◌, ◌⊎◌, Ok, IsErrAnd, MatchBool, MatchResult};
ghost use Rattle.proto_wire.specs.Places.{path_at, path_of};
ghost use Rattle.cel_tree.specs.Places.{NamesNode};
ghost use Rattle.cel_tree.specs.View.{tree_view};
ghost use Rattle.cel_check.specs.Places.{id_of};

use cel_tree::{Tree, fault_of_node};
use proto_wire::{Fault, Place};

/// The id of an expression's node.
pub fn id_of(tree: &Tree) -> i64
    ensures { result ≡ id_of (tree_view tree.now) }
{
    match tree {
        Tree::Constant { id, .. } => *id,
        Tree::Ident { id, .. } => *id,
        Tree::Select { id, .. } => *id,
        Tree::Call { id, .. } => *id,
        Tree::List { id, .. } => *id,
        Tree::Map { id, .. } => *id,
        Tree::Comprehension { id, .. } => *id,
    }
}

/// What was checked, or its fault at the node with this id, if no node is named yet.
#[inline(always)]
pub(super) fn at_node<T>(read: Result<T, Fault>, id: i64) -> Result<T, Fault>
    ensures { MatchResult read (λ x. result ≡ Ok x)
        (λ e. IsErrAnd result (λ f. (f.refusal ≡ e.refusal)
        × (((path_of e.place ≡ path_at 0) × NamesNode id (path_of f.place))
        ⊎ ((path_of e.place ≢ path_at 0) × (f ≡ e))))) }
{
    match read {
        Ok(value) => Ok(value),
        Err(fault) => Err(named(fault, id)),
    }
}

// The fault at the node with this id, if no node is named yet.
#[cold]
#[inline(never)]
fn named(fault: Fault, id: i64) -> Fault
    ensures { (result.refusal ≡ fault.refusal)
        × (((path_of fault.place ≡ path_at 0) × NamesNode id (path_of result.place))
        ⊎ ((path_of fault.place ≢ path_at 0) × (result ≡ fault))) }
{
    if is_whole(&fault.place) {
        return fault_of_node(fault.refusal, id);
    }
    fault
}

// Whether a place names nothing yet.
fn is_whole(place: &Place) -> bool
    ensures { MatchBool result (path_of place.now ≡ path_at 0) (path_of place.now ≢ path_at 0) }
{
    if place.step(0).is_some() {
        return false;
    }
    if place.is_cut_short() {
        return false;
    }
    place.field().is_none()
}
