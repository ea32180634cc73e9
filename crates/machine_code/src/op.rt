//! Instructions whose parts are lent by the code.

ghost use Rattle.std.specs.Prelude.{◌≡◌, IfOk};
ghost use Rattle.machine_code.specs.Instructions.{instr_view};
ghost use Rattle.machine_code.specs.Lent.{op_view};

use crate::instr::{Constant, Instr};
use attributes::AttrId;
use cel_ops::Operation;
use cel_value::{CelType, KeyType};
use std::alloc::AllocError;
use std::sync::ArcStr;

/// An instruction with its constant, name or type lent.
#[derive(Clone, Copy)]
pub enum Op<'a> {
    Const(&'a Constant),
    Attr(AttrId),
    Load(u8),
    Store(u8),
    Operate(Operation),
    Field(&'a ArcStr),
    HasField(&'a ArcStr),
    MakeList(u16),
    EmptyList(&'a CelType),
    MakeMap(u16),
    EmptyMap(KeyType, &'a CelType),
    Jump(u16),
    IfFalse(u16),
    IfTrue(u16),
    Test { otherwise: u16, failed: u16 },
    LoopStart { failed: u16 },
    LoopNext { local: u8, done: u16 },
    LoopNext2 { key: u8, value: u8, done: u16 },
    LoopTest { done: u16, failed: u16 },
}

impl<'a> Op<'a> {
    /// A copy of the instruction, which shares its parts.
    pub fn instr(self) -> Result<Instr, AllocError>
        ensures { IfOk result (λ instr. instr_view instr ≡ op_view self.entry) }
    {
        match self {
            Op::Const(constant) => Ok(Instr::Const(constant.copy()?)),
            Op::Attr(id) => Ok(Instr::Attr(id)),
            Op::Load(local) => Ok(Instr::Load(local)),
            Op::Store(local) => Ok(Instr::Store(local)),
            Op::Operate(op) => Ok(Instr::Operate(op)),
            Op::Field(name) => Ok(Instr::Field(name.clone()?)),
            Op::HasField(name) => Ok(Instr::HasField(name.clone()?)),
            Op::MakeList(count) => Ok(Instr::MakeList(count)),
            Op::EmptyList(items) => Ok(Instr::EmptyList(items.copy()?)),
            Op::MakeMap(count) => Ok(Instr::MakeMap(count)),
            Op::EmptyMap(keys, values) => Ok(Instr::EmptyMap(keys, values.copy()?)),
            Op::Jump(target) => Ok(Instr::Jump(target)),
            Op::IfFalse(target) => Ok(Instr::IfFalse(target)),
            Op::IfTrue(target) => Ok(Instr::IfTrue(target)),
            Op::Test { otherwise, failed } => Ok(Instr::Test { otherwise, failed }),
            Op::LoopStart { failed } => Ok(Instr::LoopStart { failed }),
            Op::LoopNext { local, done } => Ok(Instr::LoopNext { local, done }),
            Op::LoopNext2 { key, value, done } => Ok(Instr::LoopNext2 { key, value, done }),
            Op::LoopTest { done, failed } => Ok(Instr::LoopTest { done, failed }),
        }
    }
}
