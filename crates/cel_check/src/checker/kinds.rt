//! Types of checked expressions, and what node rules require of them.

ghost use Rattle.std.specs.Prelude.{◌≡◌, ◌≢◌, IfErr, IfOk, OnOk, Some, false, true};
ghost use Rattle.cel_tree.specs.View.{constant_view};
ghost use Rattle.cel_value.specs.Types.{ValueType, bool_type, map_type, type_of_key, type_view};
ghost use Rattle.cel_value.specs.declared.cel_type.KeyType.{KeyType};
ghost use Rattle.cel_value.specs.declared.cel_type.KeyType.TheVariants as keys;
ghost use Rattle.cel_types.specs.Elaborated.{kind, kinds};
ghost use Rattle.cel_types.specs.Typing.{IsList, IsMap, IsOver, constant_type};
ghost use Rattle.cel_types.specs.View.{expr_view};
ghost use Rattle.cel_types.specs.private.ExprViews.{exprs_view};
ghost use Rattle.cel_check.specs.private.Kinds.{NoElements, each_view, in_turn};
ghost use Rattle.cel_types.specs.declared.typed.Variables.TheVariants as variables;
ghost use Rattle.proto_wire.specs.Refusal.{MemoryOr};
ghost use Rattle.proto_wire.specs.declared.refusal.Refusal.TheVariants.{BadTypeEntry, NoOverload};

use cel_tree::{Constant, kept};
use cel_types::{TypedExpr, Variables};
use cel_value::{CelType, KeyType};
use proto_wire::Refusal;

/// The types of what a comprehension's variables get in a turn.
#[derive(Drop)]
pub(super) struct TurnTypes {
    pub first: CelType,
    /// None if there is one variable.
    pub second: Option<CelType>,
}

/// The type of a constant.
pub(super) fn constant_type(constant: &Constant) -> CelType
    ensures { constant_type (constant_view constant.now) ≡ Some (type_view result) }
{
    match constant {
        Constant::Bool(_) => CelType::Bool,
        Constant::Int(_) => CelType::Int,
        Constant::Uint(_) => CelType::Uint,
        Constant::Text(_) => CelType::Text,
        Constant::Bytes(_) => CelType::Bytes,
    }
}

/// The type of a key as a value.
pub(super) fn type_of_key(key: KeyType) -> CelType
    ensures { type_view result ≡ type_of_key key }
{
    match key {
        KeyType::Bool => CelType::Bool,
        KeyType::Int => CelType::Int,
        KeyType::Uint => CelType::Uint,
        KeyType::Text => CelType::Text,
    }
}

// Refuses a type other than bool.
fn require_bool(found: &CelType) -> Result<(), Refusal>
    ensures found { OnOk result (type_view found.now ≡ bool_type) }
    ensures fault { IfErr result (λ e. (type_view found.now ≢ bool_type) × (e ≡ NoOverload)) }
{
    if *found == CelType::Bool {
        return Ok(());
    }
    Err(Refusal::NoOverload)
}

// Refuses a type other than the wanted one.
fn require_same(found: &CelType, wanted: &CelType) -> Result<(), Refusal>
    ensures found { OnOk result (type_view found.now ≡ type_view wanted.now) }
    ensures fault { IfErr result (λ e. (type_view found.now ≢ type_view wanted.now) × (e ≡ NoOverload)) }
{
    if *found == *wanted {
        return Ok(());
    }
    Err(Refusal::NoOverload)
}

/// An expression that is a bool; refuses any other.
pub(super) fn bool_expr<'a>(found: TypedExpr<'a>) -> Result<TypedExpr<'a>, Refusal>
    ensures found { IfOk result (λ e. (expr_view e ≡ expr_view found.entry) × (kind (expr_view e) ≡ bool_type)) }
    ensures fault { IfErr result (λ e. (kind (expr_view found.entry) ≢ bool_type) × (e ≡ NoOverload)) }
{
    let is_bool = require_bool(found.cel_type());
    kept(found, is_bool)
}

/// An expression of the wanted type; refuses any other.
pub(super) fn expr_of<'a>(found: TypedExpr<'a>, wanted: &CelType) -> Result<TypedExpr<'a>, Refusal>
    ensures found { IfOk result (λ e. (expr_view e ≡ expr_view found.entry)
        × (kind (expr_view e) ≡ type_view wanted.now)) }
    ensures fault { IfErr result (λ e. (kind (expr_view found.entry) ≢ type_view wanted.now) × (e ≡ NoOverload)) }
{
    let is_wanted = require_same(found.cel_type(), wanted);
    kept(found, is_wanted)
}

/// The type of the values of a map from texts; refuses any other type.
pub(super) fn require_names(found: &CelType) -> Result<&CelType, Refusal>
    ensures found { IfOk result (λ t. type_view found.now ≡ map_type keys.Text (type_view t.now)) }
    ensures fault { IfErr result (λ e. ((t : ValueType) → type_view found.now ≢ map_type keys.Text t)
        × (e ≡ NoOverload)) }
{
    match found {
        CelType::Map(key, values) => match key {
            KeyType::Text => Ok(values),
            KeyType::Bool | KeyType::Int | KeyType::Uint => Err(Refusal::NoOverload),
        },
        CelType::Bool
        | CelType::Int
        | CelType::Uint
        | CelType::Text
        | CelType::Bytes
        | CelType::List(_) => Err(Refusal::NoOverload),
    }
}

/// The types of what the variables get from a range; refuses a type without elements.
pub(super) fn turn_types(variables: Variables, range: &CelType) -> Result<TurnTypes, Refusal>
    ensures found { IfOk result (λ each. IsOver variables (type_view range.now) (each_view each)) }
    ensures fault { IfErr result (MemoryOr (NoElements variables (type_view range.now))) }
{
    match variables {
        Variables::One => one_type(range),
        Variables::Two => two_types(range),
    }
}

// The type of an item of a list, or of a key of a map.
fn one_type(range: &CelType) -> Result<TurnTypes, Refusal>
    ensures found { IfOk result (λ each. IsOver variables.One (type_view range.now) (each_view each)) }
    ensures fault { IfErr result (MemoryOr (NoElements variables.One (type_view range.now))) }
{
    match range {
        CelType::List(items) => Ok(TurnTypes {
            first: items.copy()?,
            second: None,
        }),
        CelType::Map(key, _) => Ok(TurnTypes {
            first: type_of_key(*key),
            second: None,
        }),
        _ => Err(Refusal::NoOverload),
    }
}

// The types of an index and an item of a list, or of a key and a value of a map.
fn two_types(range: &CelType) -> Result<TurnTypes, Refusal>
    ensures found { IfOk result (λ each. IsOver variables.Two (type_view range.now) (each_view each)) }
    ensures fault { IfErr result (MemoryOr (NoElements variables.Two (type_view range.now))) }
{
    match range {
        CelType::List(items) => Ok(TurnTypes {
            first: CelType::Int,
            second: Some(items.copy()?),
        }),
        CelType::Map(key, values) => Ok(TurnTypes {
            first: type_of_key(*key),
            second: Some(values.copy()?),
        }),
        _ => Err(Refusal::NoOverload),
    }
}

/// The type of keys that this type is; refuses any other.
pub(super) fn require_key(found: &CelType) -> Result<KeyType, Refusal>
    ensures found { IfOk result (λ k. type_view found.now ≡ type_of_key k) }
    ensures fault { IfErr result (λ e. ((k : KeyType) → type_view found.now ≢ type_of_key k)
        × (e ≡ NoOverload)) }
{
    match found {
        CelType::Bool => Ok(KeyType::Bool),
        CelType::Int => Ok(KeyType::Int),
        CelType::Uint => Ok(KeyType::Uint),
        CelType::Text => Ok(KeyType::Text),
        _ => Err(Refusal::NoOverload),
    }
}

/// Refuses a type that is not a list; it is the type entry of an empty list.
pub(super) fn require_list(given: &CelType) -> Result<(), Refusal>
    ensures found { OnOk result (IsList (type_view given.now)) }
    ensures fault { IfErr result (λ e. (IsList (type_view given.now) → ⊥) × (e ≡ BadTypeEntry)) }
{
    match given {
        CelType::List(_) => Ok(()),
        CelType::Bool
        | CelType::Int
        | CelType::Uint
        | CelType::Text
        | CelType::Bytes
        | CelType::Map(_, _) => Err(Refusal::BadTypeEntry),
    }
}

/// Refuses a type that is not a map; it is the type entry of an empty map.
pub(super) fn require_map(given: &CelType) -> Result<(), Refusal>
    ensures found { OnOk result (IsMap (type_view given.now)) }
    ensures fault { IfErr result (λ e. (IsMap (type_view given.now) → ⊥) × (e ≡ BadTypeEntry)) }
{
    match given {
        CelType::Map(_, _) => Ok(()),
        CelType::Bool
        | CelType::Int
        | CelType::Uint
        | CelType::Text
        | CelType::Bytes
        | CelType::List(_) => Err(Refusal::BadTypeEntry),
    }
}

/// Refuses expressions whose types are not these two in turn.
pub(super) fn require_in_turn(
    exprs: &[TypedExpr<'_>],
    first: &CelType,
    second: &CelType,
) -> Result<(), Refusal>
    ensures found { OnOk result (in_turn (type_view first.now) (type_view second.now)
        (kinds (exprs_view exprs.now)) ≡ true) }
    ensures fault { IfErr result (λ e. (in_turn (type_view first.now) (type_view second.now)
        (kinds (exprs_view exprs.now)) ≡ false) × (e ≡ NoOverload)) }
{
    if are_in_turn(exprs, first, second) {
        return Ok(());
    }
    Err(Refusal::NoOverload)
}

fn are_in_turn(exprs: &[TypedExpr<'_>], first: &CelType, second: &CelType) -> bool
    ensures { result ≡ in_turn (type_view first.now) (type_view second.now) (kinds (exprs_view exprs.now)) }
{
    let mut this = first;
    let mut next = second;
    for expr in exprs {
        if *expr.cel_type() != *this {
            return false;
        }
        (this, next) = (next, this);
    }
    true
}
