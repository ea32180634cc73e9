//! Finds the types of expressions (CEL language definition, "Type Checking" and "Name Resolution").

ghost use Rattle.std.specs.Prelude.{◌≡◌, IfErr, IfOk};
ghost use Rattle.cel_tree.specs.View.{checked_view};
ghost use Rattle.cel_types.specs.Elaborated.{IsElaborated};
ghost use Rattle.cel_types.specs.TypingFaults.{CheckFault};
ghost use Rattle.cel_types.specs.View.{typed_view};
ghost use Rattle.cel_tree.specs.Places.{PlacedOr};
ghost use Rattle.cel_check.specs.Places.{CheckFaultAt};
ghost use Rattle.proto_wire.specs.Places.{FaultOr};
ghost use Rattle.proto_wire.specs.Refusal.{MemoryOr};

mod calls;
mod entries;
mod kinds;
mod literals;
mod locals;
mod loops;
mod names;
mod naming;
mod nodes;
mod scope;
mod variables;

use cel_tree::Checked;
use cel_types::Typed;
use locals::require_few_locals;
pub use naming::id_of;
use nodes::check_tree;
use proto_wire::{Fault, Refusal};
use scope::Scope;
use std::alloc::Global;

/// Finds the type of each node of a checked expression, and the local, attribute or overload that the
/// node is. Rules find types from the tree. Entries of the type map and of the reference map are
/// compared with them. Only the type of an empty literal is taken from its entry. Refuses an
/// expression with a fault: `Missing`, `OutOfRange`, `Unsupported`, `TooLarge`, `UnknownName`,
/// `NoOverload`, `BadTypeEntry`, `BadReference` or `NeedsType`; or `Memory`.
pub fn check<'a>(alloc: Global, checked: &'a Checked) -> Result<Typed<'a>, Refusal>
    ensures found { IfOk result (λ typed. IsElaborated (checked_view checked.now) (typed_view typed)) }
    ensures fault { IfErr result (MemoryOr (CheckFault (checked_view checked.now))) }
{
    Ok(check_at(alloc, checked)?)
}

/// Finds the type of each node, as `check` does. The place of a fault names its node.
pub fn check_at<'a>(alloc: Global, checked: &'a Checked) -> Result<Typed<'a>, Fault>
    ensures found { IfOk result (λ typed. IsElaborated (checked_view checked.now) (typed_view typed)) }
    ensures fault { IfErr result (FaultOr (CheckFault (checked_view checked.now))) }
    ensures place { IfErr result (PlacedOr (CheckFaultAt (checked_view checked.now))) }
{
    require_few_locals(&checked.tree)?;
    let root = check_tree(alloc, checked, &Scope::Empty, &checked.tree)?;
    Ok(Typed { root })
}
