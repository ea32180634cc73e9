//! Finds the local or attribute of a name.

ghost use Rattle.std.specs.Prelude.{◌≡◌, ◌≤◌, ◌⊎◌, IfErr, IfOk, None, Some, false, length, option_map, true};
ghost use Rattle.cel_ops.specs.Attributes.{attribute_type};
ghost use Rattle.cel_tree.specs.View.{tree_view};
ghost use Rattle.cel_value.specs.Texts.{points_of, text_view};
ghost use Rattle.cel_value.specs.Types.{type_view};
ghost use Rattle.cel_types.specs.Attributes.{attribute_named};
ghost use Rattle.cel_types.specs.Elaborated.{typed_attribute};
ghost use Rattle.cel_types.specs.Names.{bare_root, local, root_of};
ghost use Rattle.cel_types.specs.Typing.{most_locals, name_type};
ghost use Rattle.cel_types.specs.View.{expr_view};
ghost use Rattle.cel_check.specs.private.Scopes.{IsName, name_view, scope_view};
ghost use Rattle.proto_wire.specs.declared.refusal.Refusal.TheVariants.{UnknownName};

use crate::checker::scope::{FoundLocal, Scope};
use attributes::{AttrId, AttrType, attr_type};
use cel_tree::Tree;
use cel_types::{TypedExpr, attribute_named, is_root};
use cel_value::{CelType, KeyType};
use proto_wire::Refusal;
use std::alloc::{AllocError, Global};
use std::sync::{Arc, ArcStr};

/// The meaning of a name.
#[derive(Clone, Copy)]
pub(super) enum Name<'s> {
    Local(FoundLocal<'s>),
    Attribute(AttrId),
}

/// The innermost local of a name, or the attribute of that name.
pub(super) fn resolve<'s>(scope: &Scope<'s>, name: &ArcStr) -> Result<Name<'s>, Refusal>
    requires { length (scope_view scope.now) ≤ most_locals }
    ensures found { IfOk result (IsName (text_view name.now) (scope_view scope.now)) }
    ensures fault { IfErr result (λ e.
        (name_type (text_view name.now) (local (text_view name.now) (scope_view scope.now)) ≡ None)
        × (e ≡ UnknownName)) }
{
    if let Some(found) = scope.find(name) {
        return Ok(Name::Local(found));
    }
    match attribute_named(name.as_str()) {
        Some(id) => Ok(Name::Attribute(id)),
        None => Err(Refusal::UnknownName),
    }
}

/// The attribute of a root's field; refuses a test of it.
pub(super) fn resolve_field(name: &str, test_only: bool) -> Result<AttrId, Refusal>
    ensures found { IfOk result (λ id. (test_only ≡ false) × (attribute_named (points_of name.now) ≡ Some id)) }
    ensures fault { IfErr result (λ e. ((attribute_named (points_of name.now) ≡ None) ⊎ (test_only ≡ true))
        × (e ≡ UnknownName)) }
{
    if test_only {
        return Err(Refusal::UnknownName);
    }
    match attribute_named(name) {
        Some(id) => Ok(id),
        None => Err(Refusal::UnknownName),
    }
}

/// The expression for a name.
pub(super) fn name_expr<'a>(alloc: Global, name: Name<'_>) -> Result<TypedExpr<'a>, AllocError>
    ensures { IfOk result (λ e. expr_view e ≡ name_view name.entry) }
{
    match name {
        Name::Local(found) => Ok(TypedExpr::Local {
            cel_type: found.cel_type.copy()?,
            outside: found.outside,
        }),
        Name::Attribute(id) => attribute_expr(alloc, id),
    }
}

/// The expression for an attribute.
pub(super) fn attribute_expr<'a>(alloc: Global, id: AttrId) -> Result<TypedExpr<'a>, AllocError>
    ensures { IfOk result (λ e. expr_view e ≡ typed_attribute (attribute_type id) id) }
{
    let cel_type = attribute_type(alloc, id)?;
    Ok(TypedExpr::Attribute { cel_type, id })
}

fn attribute_type(alloc: Global, id: AttrId) -> Result<CelType, AllocError>
    ensures { IfOk result (λ t. type_view t ≡ attribute_type id) }
{
    match attr_type(id) {
        AttrType::Text => Ok(CelType::Text),
        AttrType::Int => Ok(CelType::Int),
        AttrType::Uint => Ok(CelType::Uint),
        AttrType::Bool => Ok(CelType::Bool),
        AttrType::TextMap => Ok(CelType::Map(KeyType::Text, Arc::new(alloc, CelType::Text)?)),
    }
}

/// The root that an expression is; none if it is anything but a root that no local hides.
pub(super) fn bare_root<'t>(tree: &'t Tree, scope: &Scope<'_>) -> Option<&'t ArcStr>
    requires { length (scope_view scope.now) ≤ most_locals }
    ensures { option_map (λ name. text_view name.now) result ≡ root_of (tree_view tree.now) (scope_view scope.now) }
{
    let Tree::Ident { name, .. } = tree else {
        return None;
    };
    if is_bare_root(name, scope) {
        return Some(name);
    }
    None
}

fn is_bare_root(name: &ArcStr, scope: &Scope<'_>) -> bool
    requires { length (scope_view scope.now) ≤ most_locals }
    ensures { result ≡ bare_root (text_view name.now) (scope_view scope.now) }
{
    if scope.find(name).is_some() {
        return false;
    }
    is_root(name.as_str())
}
