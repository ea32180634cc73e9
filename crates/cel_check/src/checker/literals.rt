//! Types of list and map literals.

ghost use Rattle.std.specs.Prelude.{◌≡◌, IfErr, IfOk, Some, option_map};
ghost use Rattle.cel_tree.specs.Checked.{of_type};
ghost use Rattle.cel_tree.specs.View.{type_entry_view};
ghost use Rattle.cel_value.specs.Types.{type_view};
ghost use Rattle.cel_types.specs.Elaborated.{kinds};
ghost use Rattle.cel_types.specs.Typing.{IsList, IsMap};
ghost use Rattle.cel_types.specs.private.ExprViews.{exprs_view};
ghost use Rattle.cel_check.specs.private.Kinds.{IsListOf, IsMapOf, NoListOf, NoMapOf, NotStated};
ghost use Rattle.proto_wire.specs.Refusal.{MemoryOr};

use crate::checker::entries::type_given;
use crate::checker::kinds::{require_in_turn, require_key, require_list, require_map};
use cel_tree::TypeEntry;
use cel_types::TypedExpr;
use cel_value::CelType;
use proto_wire::Refusal;
use std::alloc::Global;
use std::sync::Arc;

/// The type of a list literal with these elements; if it is empty, the type of its entry.
pub(super) fn list_type(
    alloc: Global,
    entry: Option<&TypeEntry>,
    elements: &[TypedExpr<'_>],
) -> Result<CelType, Refusal>
    ensures found { IfOk result (λ t. IsListOf (option_map (λ e. type_entry_view e.now) entry.entry)
        (kinds (exprs_view elements.now)) (type_view t)) }
    ensures fault { IfErr result (MemoryOr (NoListOf (option_map (λ e. type_entry_view e.now) entry.entry)
        (kinds (exprs_view elements.now)))) }
{
    match elements {
        [] => Ok(empty_list(entry)?.copy()?),
        [first, others @ ..] => {
            let item = first.cel_type();
            require_in_turn(others, item, item)?;
            Ok(CelType::List(Arc::new(alloc, item.copy()?)?))
        }
    }
}

// The type of an empty list: its entry's, which has to be a list.
fn empty_list(entry: Option<&TypeEntry>) -> Result<&CelType, Refusal>
    ensures found { IfOk result (λ t. (option_map (λ e. type_entry_view e.now) entry.entry
        ≡ Some (of_type (type_view t.now))) × IsList (type_view t.now)) }
    ensures fault { IfErr result (NotStated (option_map (λ e. type_entry_view e.now) entry.entry) IsList) }
{
    let given = type_given(entry)?;
    require_list(given)?;
    Ok(given)
}

/// The type of a map literal with these keys and values in turn; if it is empty, the type of its
/// entry.
pub(super) fn map_type(
    alloc: Global,
    entry: Option<&TypeEntry>,
    pairs: &[TypedExpr<'_>],
) -> Result<CelType, Refusal>
    ensures found { IfOk result (λ t. IsMapOf (option_map (λ e. type_entry_view e.now) entry.entry)
        (kinds (exprs_view pairs.now)) (type_view t)) }
    ensures fault { IfErr result (MemoryOr (NoMapOf (option_map (λ e. type_entry_view e.now) entry.entry)
        (kinds (exprs_view pairs.now)))) }
{
    match pairs {
        [key, value, others @ ..] => {
            let key_type = require_key(key.cel_type())?;
            require_in_turn(others, key.cel_type(), value.cel_type())?;
            Ok(CelType::Map(key_type, Arc::new(alloc, value.cel_type().copy()?)?))
        }
        _ => Ok(empty_map(entry)?.copy()?),
    }
}

// The type of an empty map: its entry's, which has to be a map.
fn empty_map(entry: Option<&TypeEntry>) -> Result<&CelType, Refusal>
    ensures found { IfOk result (λ t. (option_map (λ e. type_entry_view e.now) entry.entry
        ≡ Some (of_type (type_view t.now))) × IsMap (type_view t.now)) }
    ensures fault { IfErr result (NotStated (option_map (λ e. type_entry_view e.now) entry.entry) IsMap) }
{
    let given = type_given(entry)?;
    require_map(given)?;
    Ok(given)
}
