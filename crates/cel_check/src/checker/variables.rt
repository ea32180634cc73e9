//! Checks nodes that are variables: names and attributes.

ghost use Rattle.std.specs.Prelude.{◌≡◌, ◌≢◌, ◌≤◌, IfErr, IfOk, Some, length};
ghost use Rattle.std.specs.FinMap.{get};
ghost use Rattle.cel_tree.specs.Tree.{ident};
ghost use Rattle.cel_tree.specs.View.{checked_view, references_view};
ghost use Rattle.cel_value.specs.Texts.{text_view};
ghost use Rattle.cel_value.specs.Types.{ValueType, map_type, type_view};
ghost use Rattle.cel_value.specs.declared.cel_type.KeyType.TheVariants as keys;
ghost use Rattle.cel_types.specs.Elaborated.{kind};
ghost use Rattle.cel_types.specs.Names.{joined_name};
ghost use Rattle.cel_types.specs.Typing.{maps_of, most_locals};
ghost use Rattle.cel_types.specs.TypingFaults.{IdentFault, SelectFault};
ghost use Rattle.cel_types.specs.View.{expr_view};
ghost use Rattle.cel_check.specs.private.Checks.{IsAttribute, IsNode};
ghost use Rattle.cel_check.specs.private.Kinds.{field_of, field_type};
ghost use Rattle.cel_check.specs.private.Scopes.{scope_view};
ghost use Rattle.proto_wire.specs.Refusal.{MemoryOr};
ghost use Rattle.proto_wire.specs.declared.refusal.Refusal.TheVariants.{NoOverload};

use crate::checker::entries::require_reference;
use crate::checker::kinds::require_names;
use crate::checker::names::{attribute_expr, name_expr, resolve, resolve_field};
use crate::checker::scope::Scope;
use cel_tree::{Checked, ReferenceMap, both};
use cel_types::{TypedExpr, joined_name};
use cel_value::CelType;
use proto_wire::Refusal;
use std::alloc::Global;
use std::sync::ArcStr;

/// Checks an Ident: a local or an attribute, and its reference entry.
pub(super) fn check_ident<'a>(
    alloc: Global,
    checked: &Checked,
    scope: &Scope<'_>,
    id: i64,
    name: &ArcStr,
) -> Result<TypedExpr<'a>, Refusal>
    requires { length (scope_view scope.now) ≤ most_locals }
    ensures found { IfOk result (λ e. IsNode (maps_of (checked_view checked.now)) (scope_view scope.now)
        (ident id (text_view name.now)) (expr_view e)) }
    ensures fault { IfErr result (MemoryOr (IdentFault (get (references_view checked.now.refs) id)
        (scope_view scope.now) (text_view name.now))) }
{
    let found = resolve(scope, name)?;
    require_reference(checked.refs.get(id), name.as_str())?;
    Ok(name_expr(alloc, found)?)
}

/// Checks a Select of a root: an attribute, and its reference entry.
pub(super) fn check_attribute<'a>(
    alloc: Global,
    refs: &ReferenceMap,
    id: i64,
    root: &ArcStr,
    field: &ArcStr,
    test_only: bool,
) -> Result<TypedExpr<'a>, Refusal>
    ensures found { IfOk result (λ e. IsAttribute (get (references_view refs.now) id)
        (joined_name (text_view root.now) (text_view field.now)) test_only (expr_view e)) }
    ensures fault { IfErr result (MemoryOr (SelectFault (get (references_view refs.now) id)
        (Some (text_view root.now)) (λ _. ⊥) (λ _. ⊥) (text_view field.now) test_only)) }
{
    let name = joined_name(alloc, root.as_str(), field.as_str())?;
    let attribute = resolve_field(&name, test_only)?;
    require_reference(refs.get(id), &name)?;
    Ok(attribute_expr(alloc, attribute)?)
}

/// A map's value at a name, or, in a test, whether the map has the name. Refuses a type other than
/// a map from texts.
pub(super) fn field_expr<'a>(
    alloc: Global,
    map: TypedExpr<'a>,
    name: &'a ArcStr,
    test_only: bool,
) -> Result<TypedExpr<'a>, Refusal>
    ensures found { IfOk result (λ e. (t : ValueType) × (kind (expr_view map.entry) ≡ map_type keys.Text t)
        × (expr_view e ≡ field_of test_only t (expr_view map.entry) (text_view name.now))) }
    ensures fault { IfErr result (MemoryOr (λ e.
        ((t : ValueType) → kind (expr_view map.entry) ≢ map_type keys.Text t) × (e ≡ NoOverload))) }
{
    let found = field_type(map.cel_type(), test_only);
    let (map, cel_type) = both(map, found)?;
    let (cel_type, map) = both(cel_type, Box::new(alloc, map))?;
    if test_only {
        return Ok(TypedExpr::HasField {
            cel_type,
            map,
            name,
        });
    }
    Ok(TypedExpr::Field {
        cel_type,
        map,
        name,
    })
}

// The type of a map's value at a name, or of the test whether the map has the name. Refuses a type other
// than a map from texts.
fn field_type(found: &CelType, test_only: bool) -> Result<CelType, Refusal>
    ensures found { IfOk result (λ own. (t : ValueType) × (type_view found.now ≡ map_type keys.Text t)
        × (type_view own ≡ field_type test_only t)) }
    ensures fault { IfErr result (MemoryOr (λ e.
        ((t : ValueType) → type_view found.now ≢ map_type keys.Text t) × (e ≡ NoOverload))) }
{
    let values = require_names(found)?;
    if test_only {
        return Ok(CelType::Bool);
    }
    Ok(values.copy()?)
}
