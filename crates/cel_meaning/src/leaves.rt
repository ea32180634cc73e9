//! Constants, names and attributes.

ghost use Rattle.std.specs.Prelude.{◌≡◌, IfOk, false, option_map};
ghost use Rattle.attributes.specs.Attributes.{HasSortedPairs, attr_view};
ghost use Rattle.cel_ops.specs.Attributes.{attribute, attribute_value};
ghost use Rattle.cel_tree.specs.View.{constant_view};
ghost use Rattle.cel_value.specs.Texts.{points_of, text_view};
ghost use Rattle.cel_value.specs.View.{answer_view, value_view};
ghost use Rattle.cel_types.specs.Meaning.{attribute_answer, name_answer};
ghost use Rattle.cel_types.specs.Names.{joined_name};
ghost use Rattle.cel_meaning.specs.Places.{placed_view};

use crate::place::Placed;
use attributes::{AttrId, AttrValue, Request};
use cel_tree::Constant;
use cel_types::{attribute_named, joined_name};
use cel_value::{Answer, CelError, Map, Value, copy_answer};
use std::alloc::{AllocError, Global};
use std::sync::ArcStr;

/// A constant as a value that shares its text or bytes.
pub(super) fn constant_value(constant: &Constant) -> Result<Value, AllocError>
    ensures { IfOk result (λ value. value_view value ≡ constant_view constant.now) }
{
    match constant {
        Constant::Bool(b) => Ok(Value::Bool(*b)),
        Constant::Int(i) => Ok(Value::Int(*i)),
        Constant::Uint(n) => Ok(Value::Uint(*n)),
        Constant::Text(text) => Ok(Value::Text(text.clone()?)),
        Constant::Bytes(bytes) => Ok(Value::Bytes(bytes.clone()?)),
    }
}

/// The answer of a name: of the local of that name, if there is one, or of the attribute.
pub(super) fn name_answer(
    alloc: Global,
    name: &ArcStr,
    request: &Request,
    local: Option<&Placed<'_>>,
) -> Result<Option<Answer>, AllocError>
    ensures { IfOk result (λ found. option_map answer_view found ≡ name_answer request.now (text_view name.now)
        (option_map (λ a. a.0) (option_map (λ a. placed_view a.now) local.entry))) }
{
    match local {
        Some(placed) => Ok(Some(copy_answer(&placed.answer)?)),
        None => attribute_answer(alloc, name.as_str(), request),
    }
}

/// The answer of a root's attribute.
pub(super) fn field_answer(
    alloc: Global,
    root: &ArcStr,
    field: &ArcStr,
    request: &Request,
) -> Result<Option<Answer>, AllocError>
    ensures { IfOk result (λ found. option_map answer_view found ≡ attribute_answer request.now
        (joined_name (text_view root.now) (text_view field.now))) }
{
    let name = joined_name(alloc, root.as_str(), field.as_str())?;
    attribute_answer(alloc, &name, request)
}

fn attribute_answer(
    alloc: Global,
    name: &str,
    request: &Request,
) -> Result<Option<Answer>, AllocError>
    ensures { IfOk result (λ found. option_map answer_view found ≡ attribute_answer request.now (points_of name.now)) }
{
    match attribute_named(name) {
        Some(id) => Ok(Some(read_attribute(alloc, request, id)?)),
        None => Ok(None),
    }
}

// A copy of an attribute of the request, or `MissingAttribute`.
fn read_attribute(alloc: Global, request: &Request, id: AttrId) -> Result<Answer, AllocError>
    ensures { IfOk result (λ answer. answer_view answer ≡ attribute request.now id) }
{
    match request.attr(id) {
        Some(found) => Ok(Ok(copy_value(alloc, found)?)),
        None => Ok(Err(CelError::MissingAttribute)),
    }
}

// The attribute as a value with a copy of its text or pairs.
fn copy_value(alloc: Global, found: AttrValue<'_>) -> Result<Value, AllocError>
    requires { HasSortedPairs found }
    ensures { IfOk result (λ value. value_view value ≡ attribute_value (attr_view found.entry)) }
{
    match found {
        AttrValue::Text(text) => Ok(Value::Text(ArcStr::from_str(alloc, text)?)),
        AttrValue::Int(n) => Ok(Value::Int(n)),
        AttrValue::Uint(n) => Ok(Value::Uint(n)),
        AttrValue::Bool(b) => Ok(Value::Bool(b)),
        AttrValue::Pairs(headers) => Ok(Value::Map(Map::Texts(headers.to_pairs(alloc)?))),
    }
}
