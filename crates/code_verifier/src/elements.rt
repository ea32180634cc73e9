//! The slots of lists and maps, and of their elements.

ghost use Rattle.std.specs.Prelude.{◌≡◌, IfOk, option_map};
ghost use Rattle.cel_value.specs.Types.{type_of_key, type_view};
ghost use Rattle.machine_code.specs.Slots.{list_of, loop_slot, map_of_slots, pair_slots};
ghost use Rattle.code_verifier.specs.private.SlotView.{both_view, slot_view};

use crate::slot::Slot;
use cel_value::{CelType, KeyType};
use std::alloc::{AllocError, Global};
use std::sync::Arc;

/// The type of a key as a value.
pub(crate) fn type_of_key(keys: KeyType) -> CelType
    ensures { type_view result ≡ type_of_key keys }
{
    match keys {
        KeyType::Bool => CelType::Bool,
        KeyType::Int => CelType::Int,
        KeyType::Uint => CelType::Uint,
        KeyType::Text => CelType::Text,
    }
}

/// The slot of a list of items in this slot.
pub(crate) fn list_of(alloc: Global, a: Slot) -> Result<Slot, AllocError>
    ensures { IfOk result (λ slot. slot_view slot ≡ list_of (slot_view a)) }
{
    match a {
        Slot::Failing => Ok(Slot::Failing),
        Slot::Of(t) => Ok(Slot::Of(CelType::List(Arc::new(alloc, t)?))),
    }
}

/// The slot of a map of keys and values in these slots; none if no key has the first type.
pub(crate) fn map_of(alloc: Global, key: Slot, value: Slot) -> Result<Option<Slot>, AllocError>
    ensures { IfOk result
        (λ o. option_map slot_view o ≡ map_of_slots (slot_view key, slot_view value)) }
{
    let Slot::Of(key) = key else {
        return Ok(Some(Slot::Failing));
    };
    let Some(keys) = key.key_type() else {
        return Ok(None);
    };
    match value {
        Slot::Failing => Ok(Some(Slot::Failing)),
        Slot::Of(t) => Ok(Some(Slot::Of(CelType::Map(keys, Arc::new(alloc, t)?)))),
    }
}

/// The slot of the element of a loop over a list or a map.
pub(crate) fn loop_slot(a: &Slot) -> Result<Option<Slot>, AllocError>
    ensures { IfOk result (λ o. option_map slot_view o ≡ loop_slot (slot_view a.now)) }
{
    match a {
        Slot::Failing => Ok(Some(Slot::Failing)),
        Slot::Of(CelType::List(items)) => Ok(Some(Slot::Of(items.copy()?))),
        Slot::Of(CelType::Map(keys, _)) => Ok(Some(Slot::Of(type_of_key(*keys)))),
        Slot::Of(CelType::Bool) => Ok(None),
        Slot::Of(CelType::Int) => Ok(None),
        Slot::Of(CelType::Uint) => Ok(None),
        Slot::Of(CelType::Text) => Ok(None),
        Slot::Of(CelType::Bytes) => Ok(None),
    }
}

/// The slots of an index and an item of a list, or of a key and a value of a map.
pub(crate) fn pair_slots(a: &Slot) -> Result<Option<(Slot, Slot)>, AllocError>
    ensures { IfOk result (λ o. option_map both_view o ≡ pair_slots (slot_view a.now)) }
{
    match a {
        Slot::Failing => Ok(Some((Slot::Failing, Slot::Failing))),
        Slot::Of(CelType::List(items)) => {
            Ok(Some((Slot::Of(CelType::Int), Slot::Of(items.copy()?))))
        }
        Slot::Of(CelType::Map(keys, values)) => {
            Ok(Some((Slot::Of(type_of_key(*keys)), Slot::Of(values.copy()?))))
        }
        Slot::Of(CelType::Bool) => Ok(None),
        Slot::Of(CelType::Int) => Ok(None),
        Slot::Of(CelType::Uint) => Ok(None),
        Slot::Of(CelType::Text) => Ok(None),
        Slot::Of(CelType::Bytes) => Ok(None),
    }
}
