//! Expressions with the results of checking.

ghost use Rattle.std.specs.Prelude.{◌≡◌};
ghost use Rattle.cel_value.specs.Types.{type_view};
ghost use Rattle.cel_types.specs.Elaborated.{kind};
ghost use Rattle.cel_types.specs.View.{expr_view};

use attributes::AttrId;
use cel_overload::Overload;
use cel_tree::Constant;
use cel_value::CelType;
use std::sync::ArcStr;

/// A checked expression. Each node has its type; each name is a local or an attribute, and each call
/// is an overload. Constants and names are lent by the tree.
#[derive(Drop)]
#[cycle(typed)]
pub enum TypedExpr<'a> {
    Constant {
        cel_type: CelType,
        value: &'a Constant,
    },
    /// A local, by the number of locals outside of it.
    Local {
        cel_type: CelType,
        outside: u8,
    },
    Attribute {
        cel_type: CelType,
        id: AttrId,
    },
    /// A map's value at a name: `m.f`.
    Field {
        cel_type: CelType,
        map: Box<TypedExpr<'a>>,
        name: &'a ArcStr,
    },
    /// Whether a map has a name: `has(m.f)`.
    HasField {
        cel_type: CelType,
        map: Box<TypedExpr<'a>>,
        name: &'a ArcStr,
    },
    /// A call; its target, if it has one, is the first operand.
    Call {
        cel_type: CelType,
        overload: Overload,
        operands: Vec<TypedExpr<'a>>,
    },
    List {
        cel_type: CelType,
        elements: Vec<TypedExpr<'a>>,
    },
    /// A map literal: keys and values in turn.
    Map {
        cel_type: CelType,
        pairs: Vec<TypedExpr<'a>>,
    },
    Loop {
        cel_type: CelType,
        parts: Box<TypedLoop<'a>>,
    },
}

impl<'a> TypedExpr<'a> {
    /// The type of the expression.
    pub fn cel_type(&self) -> &CelType
        ensures { type_view result.now ≡ kind (expr_view self.now) }
    {
        match self {
            TypedExpr::Constant { cel_type, .. } => cel_type,
            TypedExpr::Local { cel_type, .. } => cel_type,
            TypedExpr::Attribute { cel_type, .. } => cel_type,
            TypedExpr::Field { cel_type, .. } => cel_type,
            TypedExpr::HasField { cel_type, .. } => cel_type,
            TypedExpr::Call { cel_type, .. } => cel_type,
            TypedExpr::List { cel_type, .. } => cel_type,
            TypedExpr::Map { cel_type, .. } => cel_type,
            TypedExpr::Loop { cel_type, .. } => cel_type,
        }
    }
}

/// How many variables a comprehension has beside its accumulator.
#[derive(Clone, Copy, PartialEq, Eq, Debug)]
pub enum Variables {
    /// The item of a list, or the key of a map.
    One,
    /// The index and the item of a list, or the key and the value of a map.
    Two,
}

/// The parts of a comprehension. In its scope, the accumulator is the next local, and the variables come
/// after that, in order.
#[derive(Drop)]
#[cycle(typed)]
pub struct TypedLoop<'a> {
    pub variables: Variables,
    pub range: TypedExpr<'a>,
    pub init: TypedExpr<'a>,
    pub condition: TypedExpr<'a>,
    pub step: TypedExpr<'a>,
    pub result: TypedExpr<'a>,
}

/// A whole checked expression.
#[derive(Drop)]
pub struct Typed<'a> {
    pub root: TypedExpr<'a>,
}
