//! Compares entries of the type map and of the reference map with a node.

ghost use Rattle.std.specs.Prelude.{◌≡◌, ◌↔◌, IfErr, IfOk, IsTrue, OnOk, Some, option_map};
ghost use Rattle.std.specs.Str.{bytes_eq};
ghost use Rattle.cel_tree.specs.Checked.{of_type};
ghost use Rattle.cel_tree.specs.View.{name_view, reference_view, type_entry_view};
ghost use Rattle.cel_value.specs.Texts.{points_of};
ghost use Rattle.cel_value.specs.Types.{type_view};
ghost use Rattle.cel_types.specs.Typing.{RefAgrees};
ghost use Rattle.cel_types.specs.TypingFaults.{NodeTypeFault};
ghost use Rattle.cel_types.specs.Agreeing.{TypeAgrees};
ghost use Rattle.cel_types.specs.private.Rules.{RefDiffers};
ghost use Rattle.cel_check.specs.private.Kinds.{NotGiven};
ghost use Rattle.proto_wire.specs.declared.refusal.Refusal.TheVariants.{BadReference};

use cel_tree::{Reference, TypeEntry};
use cel_value::CelType;
use proto_wire::Refusal;
use std::sync::ArcStr;

/// Refuses a type entry that disagrees with the node's type.
pub(super) fn require_type(entry: Option<&TypeEntry>, found: &CelType) -> Result<(), Refusal>
    ensures found { OnOk result (TypeAgrees (option_map (λ e. type_entry_view e.now) entry.entry)
        (type_view found.now)) }
    ensures fault { IfErr result (NodeTypeFault (option_map (λ e. type_entry_view e.now) entry.entry)
        (λ t. t ≡ type_view found.now)) }
{
    match entry {
        None => Ok(()),
        Some(entry) => require_said(entry, found),
    }
}

fn require_said(entry: &TypeEntry, found: &CelType) -> Result<(), Refusal>
    ensures found { OnOk result (TypeAgrees (Some (type_entry_view entry.now)) (type_view found.now)) }
    ensures fault { IfErr result (NodeTypeFault (Some (type_entry_view entry.now)) (λ t. t ≡ type_view found.now)) }
{
    match entry {
        TypeEntry::Dyn => Ok(()),
        TypeEntry::Unsupported => Err(Refusal::Unsupported),
        TypeEntry::Type(said) => {
            if *said == *found {
                return Ok(());
            }
            Err(Refusal::BadTypeEntry)
        }
    }
}

/// Refuses a variable's reference entry if it has another name, or a value.
pub(super) fn require_reference(entry: Option<&Reference>, name: &str) -> Result<(), Refusal>
    ensures found { OnOk result (RefAgrees (option_map (λ r. reference_view r.now) entry.entry)
        (points_of name.now)) }
    ensures fault { IfErr result (λ e. RefDiffers (option_map (λ r. reference_view r.now) entry.entry)
        (points_of name.now) × (e ≡ BadReference)) }
{
    match entry {
        None => Ok(()),
        Some(reference) => {
            if agrees(reference, name) {
                return Ok(());
            }
            Err(Refusal::BadReference)
        }
    }
}

fn agrees(reference: &Reference, name: &str) -> bool
    ensures { IsTrue result ↔ RefAgrees (Some (reference_view reference.now)) (points_of name.now) }
{
    match reference.value {
        Some(_) => false,
        None => is_name(&reference.name, name),
    }
}

// Whether the kept name is this one.
fn is_name(kept: &Option<ArcStr>, name: &str) -> bool
    ensures { result ≡ bytes_eq (name_view kept.now) (points_of name.now) }
{
    match kept {
        None => name.is_empty(),
        Some(text) => text.as_str() == name,
    }
}

/// The type in the entry of an empty literal; refuses an entry that gives none.
pub(super) fn type_given(entry: Option<&TypeEntry>) -> Result<&CelType, Refusal>
    ensures found { IfOk result (λ t. option_map (λ e. type_entry_view e.now) entry.entry
        ≡ Some (of_type (type_view t.now))) }
    ensures fault { IfErr result (NotGiven (option_map (λ e. type_entry_view e.now) entry.entry)) }
{
    match entry {
        None => Err(Refusal::NeedsType),
        Some(TypeEntry::Dyn) => Err(Refusal::NeedsType),
        Some(TypeEntry::Unsupported) => Err(Refusal::Unsupported),
        Some(TypeEntry::Type(given)) => Ok(given),
    }
}
