//! The slots that operations on texts, bytes, lists and maps leave; none if an operand is of a wrong kind.

ghost use Rattle.std.specs.Prelude.{◌≡◌, IfOk, option_map};
ghost use Rattle.machine_code.specs.Slots.{concat_slot, field_slot, has_field_slot, has_size, in_list_slot, in_map_slot, is_a_key, list_index_slot, map_index_slot, sequence_slot};
ghost use Rattle.code_verifier.specs.private.SlotView.{slot_view};

use crate::elements::type_of_key;
use crate::slot::{Slot, if_type};
use cel_value::{CelType, KeyType};
use std::alloc::AllocError;

/// Two texts, bytes or lists of one type: the same.
pub(crate) fn concat_slot(a: Slot, b: Slot) -> Option<Slot>
    ensures { option_map slot_view result ≡ concat_slot (slot_view a) (slot_view b) }
{
    match a.join(b) {
        Some(joined) => sequence_slot(joined),
        None => None,
    }
}

// Two texts, bytes or lists of one type: the same.
fn sequence_slot(a: Slot) -> Option<Slot>
    ensures { option_map slot_view result ≡ sequence_slot (slot_view a) }
{
    match a {
        Slot::Failing => Some(Slot::Failing),
        Slot::Of(CelType::Text) => Some(Slot::Of(CelType::Text)),
        Slot::Of(CelType::Bytes) => Some(Slot::Of(CelType::Bytes)),
        Slot::Of(CelType::List(items)) => Some(Slot::Of(CelType::List(items))),
        Slot::Of(CelType::Bool) => None,
        Slot::Of(CelType::Int) => None,
        Slot::Of(CelType::Uint) => None,
        Slot::Of(CelType::Map(_, _)) => None,
    }
}

/// Whether a value in the slot may have a size.
pub(crate) fn has_size(a: &Slot) -> bool
    ensures { result ≡ has_size (slot_view a.now) }
{
    match a {
        Slot::Failing => true,
        Slot::Of(CelType::Bool) => false,
        Slot::Of(CelType::Int) => false,
        Slot::Of(CelType::Uint) => false,
        Slot::Of(CelType::Text) => true,
        Slot::Of(CelType::Bytes) => true,
        Slot::Of(CelType::List(_)) => true,
        Slot::Of(CelType::Map(_, _)) => true,
    }
}

/// A list and an int: an item.
pub(crate) fn list_index_slot(a: &Slot, b: &Slot) -> Result<Option<Slot>, AllocError>
    ensures { IfOk result
        (λ o. option_map slot_view o ≡ list_index_slot (slot_view a.now) (slot_view b.now)) }
{
    let index = b.is_a(&CelType::Int);
    match a {
        Slot::Failing => Ok(if index { Some(Slot::Failing) } else { None }),
        Slot::Of(CelType::List(items)) => Ok(if_type(index, items.copy()?)),
        Slot::Of(CelType::Bool) => Ok(None),
        Slot::Of(CelType::Int) => Ok(None),
        Slot::Of(CelType::Uint) => Ok(None),
        Slot::Of(CelType::Text) => Ok(None),
        Slot::Of(CelType::Bytes) => Ok(None),
        Slot::Of(CelType::Map(_, _)) => Ok(None),
    }
}

// Whether the slot may be used as some key.
fn is_a_key(a: &Slot) -> bool
    ensures { result ≡ is_a_key (slot_view a.now) }
{
    match a {
        Slot::Failing => true,
        Slot::Of(CelType::Bool) => true,
        Slot::Of(CelType::Int) => true,
        Slot::Of(CelType::Uint) => true,
        Slot::Of(CelType::Text) => true,
        Slot::Of(CelType::Bytes) => false,
        Slot::Of(CelType::List(_)) => false,
        Slot::Of(CelType::Map(_, _)) => false,
    }
}

/// A map and a key: a value.
pub(crate) fn map_index_slot(a: &Slot, b: &Slot) -> Result<Option<Slot>, AllocError>
    ensures { IfOk result
        (λ o. option_map slot_view o ≡ map_index_slot (slot_view a.now) (slot_view b.now)) }
{
    match a {
        Slot::Failing => Ok(if is_a_key(b) {
            Some(Slot::Failing)
        } else {
            None
        }),
        Slot::Of(CelType::Map(keys, values)) => {
            Ok(if_type(b.is_a(&type_of_key(*keys)), values.copy()?))
        }
        Slot::Of(CelType::Bool) => Ok(None),
        Slot::Of(CelType::Int) => Ok(None),
        Slot::Of(CelType::Uint) => Ok(None),
        Slot::Of(CelType::Text) => Ok(None),
        Slot::Of(CelType::Bytes) => Ok(None),
        Slot::Of(CelType::List(_)) => Ok(None),
    }
}

/// A key and a map: a bool.
pub(crate) fn in_map_slot(a: &Slot, b: &Slot) -> Option<Slot>
    ensures { option_map slot_view result ≡ in_map_slot (slot_view a.now) (slot_view b.now) }
{
    match b {
        Slot::Failing => if_type(is_a_key(a), CelType::Bool),
        Slot::Of(CelType::Map(keys, _)) => if_type(a.is_a(&type_of_key(*keys)), CelType::Bool),
        Slot::Of(CelType::Bool) => None,
        Slot::Of(CelType::Int) => None,
        Slot::Of(CelType::Uint) => None,
        Slot::Of(CelType::Text) => None,
        Slot::Of(CelType::Bytes) => None,
        Slot::Of(CelType::List(_)) => None,
    }
}

/// A value and a list of its type: a bool.
pub(crate) fn in_list_slot(a: &Slot, b: &Slot) -> Option<Slot>
    ensures { option_map slot_view result ≡ in_list_slot (slot_view a.now) (slot_view b.now) }
{
    match b {
        Slot::Failing => Some(Slot::Of(CelType::Bool)),
        Slot::Of(CelType::List(items)) => if_type(a.is_a(items), CelType::Bool),
        Slot::Of(CelType::Bool) => None,
        Slot::Of(CelType::Int) => None,
        Slot::Of(CelType::Uint) => None,
        Slot::Of(CelType::Text) => None,
        Slot::Of(CelType::Bytes) => None,
        Slot::Of(CelType::Map(_, _)) => None,
    }
}

/// A map from texts: a value.
pub(crate) fn field_slot(a: &Slot) -> Result<Option<Slot>, AllocError>
    ensures { IfOk result (λ o. option_map slot_view o ≡ field_slot (slot_view a.now)) }
{
    match a {
        Slot::Failing => Ok(Some(Slot::Failing)),
        Slot::Of(CelType::Map(KeyType::Text, values)) => Ok(Some(Slot::Of(values.copy()?))),
        Slot::Of(CelType::Map(KeyType::Bool, _)) => Ok(None),
        Slot::Of(CelType::Map(KeyType::Int, _)) => Ok(None),
        Slot::Of(CelType::Map(KeyType::Uint, _)) => Ok(None),
        Slot::Of(CelType::Bool) => Ok(None),
        Slot::Of(CelType::Int) => Ok(None),
        Slot::Of(CelType::Uint) => Ok(None),
        Slot::Of(CelType::Text) => Ok(None),
        Slot::Of(CelType::Bytes) => Ok(None),
        Slot::Of(CelType::List(_)) => Ok(None),
    }
}

/// A map from texts: a bool.
pub(crate) fn has_field_slot(a: &Slot) -> Option<Slot>
    ensures { option_map slot_view result ≡ has_field_slot (slot_view a.now) }
{
    match a {
        Slot::Failing => Some(Slot::Of(CelType::Bool)),
        Slot::Of(CelType::Map(KeyType::Text, _)) => Some(Slot::Of(CelType::Bool)),
        Slot::Of(CelType::Map(KeyType::Bool, _)) => None,
        Slot::Of(CelType::Map(KeyType::Int, _)) => None,
        Slot::Of(CelType::Map(KeyType::Uint, _)) => None,
        Slot::Of(CelType::Bool) => None,
        Slot::Of(CelType::Int) => None,
        Slot::Of(CelType::Uint) => None,
        Slot::Of(CelType::Text) => None,
        Slot::Of(CelType::Bytes) => None,
        Slot::Of(CelType::List(_)) => None,
    }
}
