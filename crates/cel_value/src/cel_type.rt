//! Types of CEL.

ghost use Rattle.std.specs.Prelude.{◌≡◌, IfOk};
ghost use Rattle.std.specs.Cmp.{on_equiv, on_per, partial_equiv_from_equiv};
ghost use Rattle.cel_value.specs.private.EqualityLaws.{type_eq_equiv};
ghost use Rattle.cel_value.specs.Types.{is_ordered, key_type_eq, key_type_of, type_eq, type_view};

use std::alloc::AllocError;
use std::sync::Arc;

/// The type of a map's keys (CEL language definition, "Map Values").
#[derive(Clone, Copy, PartialEq, Eq, Debug)]
pub enum KeyType {
    Bool,
    Int,
    Uint,
    Text,
}

/// A type (CEL language definition, "Type System"); its parts are shared.
#[derive(Drop)]
pub enum CelType {
    Bool,
    Int,
    Uint,
    Text,
    Bytes,
    /// A list of items of one type.
    List(Arc<CelType>),
    /// A map from keys of one type to values of one type.
    Map(KeyType, Arc<CelType>),
}

impl CelType {
    /// Another owner of the same type.
    pub fn copy(&self) -> Result<CelType, AllocError>
        ensures { IfOk result (λ copy. type_view copy ≡ type_view self.now) }
    {
        match self {
            CelType::Bool => Ok(CelType::Bool),
            CelType::Int => Ok(CelType::Int),
            CelType::Uint => Ok(CelType::Uint),
            CelType::Text => Ok(CelType::Text),
            CelType::Bytes => Ok(CelType::Bytes),
            CelType::List(items) => Ok(CelType::List(items.clone()?)),
            CelType::Map(keys, values) => Ok(CelType::Map(*keys, values.clone()?)),
        }
    }

    /// The type of keys that this type is; `None` if no key has it.
    pub fn key_type(&self) -> Option<KeyType>
        ensures { result ≡ key_type_of (type_view self.now) }
    {
        match self {
            CelType::Bool => Some(KeyType::Bool),
            CelType::Int => Some(KeyType::Int),
            CelType::Uint => Some(KeyType::Uint),
            CelType::Text => Some(KeyType::Text),
            CelType::Bytes | CelType::List(_) | CelType::Map(_, _) => None,
        }
    }

    /// Whether values of the type are ordered (CEL language definition, "Ordering"): all but lists and
    /// maps.
    pub fn is_ordered(&self) -> bool
        ensures { result ≡ is_ordered (type_view self.now) }
    {
        match self {
            CelType::Bool | CelType::Int | CelType::Uint | CelType::Text | CelType::Bytes => true,
            CelType::List(_) | CelType::Map(_, _) => false,
        }
    }
}

// Whether the types are the same.
fn same_types(left: &CelType, right: &CelType) -> bool
    ensures { result ≡ type_eq (type_view left.now) (type_view right.now) }
{
    match (left, right) {
        (CelType::Bool, CelType::Bool) => true,
        (CelType::Int, CelType::Int) => true,
        (CelType::Uint, CelType::Uint) => true,
        (CelType::Text, CelType::Text) => true,
        (CelType::Bytes, CelType::Bytes) => true,
        (CelType::List(a), CelType::List(b)) => same_types(a, b),
        (CelType::Map(j, a), CelType::Map(k, b)) => same_key_types(*j, *k) && same_types(a, b),
        _ => false,
    }
}

fn same_key_types(left: KeyType, right: KeyType) -> bool
    ensures { result ≡ key_type_eq left right }
{
    left == right
}

impl PartialEq for CelType {
    ghost eq = { λ left right. type_eq (type_view left) (type_view right) };

    ghost laws = { on_per type_view (partial_equiv_from_equiv type_eq_equiv) };

    fn eq(&self, other: &CelType) -> bool {
        same_types(self, other)
    }
}

impl Eq for CelType {
    ghost laws = { on_equiv type_view type_eq_equiv };
}
