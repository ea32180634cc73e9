//! The slots that constants and attributes leave.

ghost use Rattle.std.specs.Prelude.{◌≡◌, IfOk, Some, option_map};
ghost use Rattle.cel_value.specs.Texts.{text_view};
ghost use Rattle.cel_value.specs.Values.{int, text, uint};
ghost use Rattle.machine_code.specs.Attributes.{attribute_slot};
ghost use Rattle.machine_code.specs.Instructions.{constant_view};
ghost use Rattle.machine_code.specs.Slots.{constant_slot};
ghost use Rattle.code_verifier.specs.private.SlotView.{slot_view};

use crate::slot::Slot;
use attributes::{AttrId, AttrType, attr_type};
use cel_value::{CelType, KeyType};
use machine_code::Constant;
use std::alloc::{AllocError, Global};
use std::sync::{Arc, ArcStr};

/// The slot that a constant leaves.
pub(crate) fn constant_slot(constant: &Constant) -> Slot
    ensures { option_map slot_view (Some result) ≡ constant_slot (constant_view constant.now) }
{
    match constant {
        Constant::Bool(_) => Slot::Of(CelType::Bool),
        Constant::Int(number) => int_slot(*number),
        Constant::Uint(number) => uint_slot(*number),
        Constant::Text(text) => text_slot(text),
        Constant::Bytes(_) => Slot::Of(CelType::Bytes),
    }
}

fn int_slot(number: i64) -> Slot
    ensures { option_map slot_view (Some result) ≡ constant_slot (int number) }
{
    Slot::Of(CelType::Int)
}

fn uint_slot(number: u64) -> Slot
    ensures { option_map slot_view (Some result) ≡ constant_slot (uint number) }
{
    Slot::Of(CelType::Uint)
}

fn text_slot(value: &ArcStr) -> Slot
    ensures { option_map slot_view (Some result) ≡ constant_slot (text (text_view value.now)) }
{
    Slot::Of(CelType::Text)
}

/// The slot that an attribute leaves.
pub(crate) fn attribute_slot(alloc: Global, id: AttrId) -> Result<Slot, AllocError>
    ensures { IfOk result (λ slot. slot_view slot ≡ attribute_slot id) }
{
    match attr_type(id) {
        AttrType::Text => Ok(Slot::Of(CelType::Text)),
        AttrType::Int => Ok(Slot::Of(CelType::Int)),
        AttrType::Uint => Ok(Slot::Of(CelType::Uint)),
        AttrType::Bool => Ok(Slot::Of(CelType::Bool)),
        AttrType::TextMap => {
            let values = Arc::new(alloc, CelType::Text)?;
            Ok(Slot::Of(CelType::Map(KeyType::Text, values)))
        }
    }
}
