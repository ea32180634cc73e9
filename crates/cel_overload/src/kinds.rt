//! Tests of the types that overloads require.

ghost use Rattle.std.specs.Prelude.{◌≡◌};
ghost use Rattle.cel_value.specs.Types.{type_eq, type_of_key, type_view};
ghost use Rattle.cel_overload.specs.private.Choosing.{is_joined, is_number, is_sized};

use cel_value::{CelType, KeyType};

/// Whether the type has arithmetic: int and uint.
pub(crate) fn is_number(kind: &CelType) -> bool
    ensures { result ≡ is_number (type_view kind.now) }
{
    match kind {
        CelType::Int | CelType::Uint => true,
        CelType::Bool | CelType::Text | CelType::Bytes => false,
        CelType::List(_) | CelType::Map(_, _) => false,
    }
}

/// Whether values of the type can be joined.
pub(crate) fn is_joined(kind: &CelType) -> bool
    ensures { result ≡ is_joined (type_view kind.now) }
{
    match kind {
        CelType::Text | CelType::Bytes | CelType::List(_) => true,
        CelType::Bool | CelType::Int | CelType::Uint | CelType::Map(_, _) => false,
    }
}

/// Whether values of the type have a size.
pub(crate) fn is_sized(kind: &CelType) -> bool
    ensures { result ≡ is_sized (type_view kind.now) }
{
    match kind {
        CelType::Text | CelType::Bytes | CelType::List(_) | CelType::Map(_, _) => true,
        CelType::Bool | CelType::Int | CelType::Uint => false,
    }
}

/// Whether the type is that of these keys.
pub(crate) fn has_key_type(kind: &CelType, keys: KeyType) -> bool
    ensures { result ≡ type_eq (type_view kind.now) (type_of_key keys) }
{
    match keys {
        KeyType::Bool => *kind == CelType::Bool,
        KeyType::Int => *kind == CelType::Int,
        KeyType::Uint => *kind == CelType::Uint,
        KeyType::Text => *kind == CelType::Text,
    }
}
