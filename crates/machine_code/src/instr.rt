//! Instructions of the machine.

ghost use Rattle.std.specs.Prelude.{◌≡◌, IfOk};
ghost use Rattle.cel_value.specs.View.{value_view};
ghost use Rattle.machine_code.specs.Instructions.{constant_view, instr_view};

use attributes::AttrId;
use cel_ops::Operation;
use cel_value::{CelType, KeyType, Value};
use std::alloc::AllocError;
use std::sync::{ArcSlice, ArcStr};

/// A value in the code.
#[derive(Drop)]
pub enum Constant {
    Bool(bool),
    Int(i64),
    Uint(u64),
    Text(ArcStr),
    Bytes(ArcSlice<u8>),
}

/// One instruction. It works on a stack of results, on numbered locals and on open loops. A target
/// is a position in the code, counted from 0, or the code's end.
#[derive(Drop)]
pub enum Instr {
    /// Pushes a constant.
    Const(Constant),
    /// Pushes an attribute of the request, or `MissingAttribute`.
    Attr(AttrId),
    /// Pushes the value of a local.
    Load(u8),
    /// Pops a result, and sets a local to it.
    Store(u8),
    /// Pops the operands of an operation, and pushes its answer.
    Operate(Operation),
    /// Pops a map, and pushes the value at this text.
    Field(ArcStr),
    /// Pops a map, and pushes whether this text is one of its keys.
    HasField(ArcStr),
    /// Pops so many values, at least one, and pushes the list of them.
    MakeList(u16),
    /// Pushes the empty list of items of this type; `MakeList` needs at least one.
    EmptyList(CelType),
    /// Pops so many keys, at least one, each with its value on top of it, and pushes the map of
    /// them.
    MakeMap(u16),
    /// Pushes the empty map from keys to values of these types; `MakeMap` needs at least one entry.
    EmptyMap(KeyType, CelType),
    /// Goes to a target.
    Jump(u16),
    /// Goes to a target if the top is false, and keeps the top.
    IfFalse(u16),
    /// Goes to a target if the top is true, and keeps the top.
    IfTrue(u16),
    /// Pops a bool: continues if it is true, and goes to a target if it is false. An error is
    /// pushed again.
    Test {
        /// The target for false.
        otherwise: u16,
        /// The target for an error.
        failed: u16,
    },
    /// Pops a list or a map, and opens a loop over its items or its ascending keys. An error is
    /// pushed again.
    LoopStart {
        /// The target for an error.
        failed: u16,
    },
    /// Sets a local to the next element of the innermost loop; if there is none, closes the loop.
    LoopNext {
        /// The local that is set.
        local: u8,
        /// The target after the loop is closed.
        done: u16,
    },
    /// Sets two locals for the next turn of the innermost loop, or closes the loop if there is none. The locals
    /// are set to the index and the item of a list, or to the key and the value of a map.
    LoopNext2 {
        /// The local for the index or the key.
        key: u8,
        /// The local for the item or the value.
        value: u8,
        /// The target once no turn is left.
        done: u16,
    },
    /// Pops a bool: continues if it is true, and closes the innermost loop if it is false. An error
    /// closes the loop and is pushed again.
    LoopTest {
        /// The target for false.
        done: u16,
        /// The target for an error.
        failed: u16,
    },
}

impl Constant {
    /// Another owner of the same constant.
    pub fn copy(&self) -> Result<Constant, AllocError>
        ensures { IfOk result (λ copy. constant_view copy ≡ constant_view self.now) }
    {
        match self {
            Constant::Bool(b) => Ok(Constant::Bool(*b)),
            Constant::Int(i) => Ok(Constant::Int(*i)),
            Constant::Uint(n) => Ok(Constant::Uint(*n)),
            Constant::Text(text) => Ok(Constant::Text(text.clone()?)),
            Constant::Bytes(bytes) => Ok(Constant::Bytes(bytes.clone()?)),
        }
    }

    /// The constant as a value that shares its text or bytes.
    pub fn value(&self) -> Result<Value, AllocError>
        ensures { IfOk result (λ value. value_view value ≡ constant_view self.now) }
    {
        match self {
            Constant::Bool(b) => Ok(Value::Bool(*b)),
            Constant::Int(i) => Ok(Value::Int(*i)),
            Constant::Uint(n) => Ok(Value::Uint(*n)),
            Constant::Text(text) => Ok(Value::Text(text.clone()?)),
            Constant::Bytes(bytes) => Ok(Value::Bytes(bytes.clone()?)),
        }
    }
}

impl Instr {
    /// Another owner of the same instruction.
    pub fn copy(&self) -> Result<Instr, AllocError>
        ensures { IfOk result (λ copy. instr_view copy ≡ instr_view self.now) }
    {
        match self {
            Instr::Const(constant) => Ok(Instr::Const(constant.copy()?)),
            Instr::Attr(id) => Ok(Instr::Attr(*id)),
            Instr::Load(local) => Ok(Instr::Load(*local)),
            Instr::Store(local) => Ok(Instr::Store(*local)),
            Instr::Operate(op) => Ok(Instr::Operate(*op)),
            Instr::Field(name) => Ok(Instr::Field(name.clone()?)),
            Instr::HasField(name) => Ok(Instr::HasField(name.clone()?)),
            Instr::MakeList(count) => Ok(Instr::MakeList(*count)),
            Instr::EmptyList(items) => Ok(Instr::EmptyList(items.copy()?)),
            Instr::MakeMap(count) => Ok(Instr::MakeMap(*count)),
            Instr::EmptyMap(keys, values) => Ok(Instr::EmptyMap(*keys, values.copy()?)),
            Instr::Jump(target) => Ok(Instr::Jump(*target)),
            Instr::IfFalse(target) => Ok(Instr::IfFalse(*target)),
            Instr::IfTrue(target) => Ok(Instr::IfTrue(*target)),
            Instr::Test { otherwise, failed } => Ok(Instr::Test {
                otherwise: *otherwise,
                failed: *failed,
            }),
            Instr::LoopStart { failed } => Ok(Instr::LoopStart { failed: *failed }),
            Instr::LoopNext { local, done } => Ok(Instr::LoopNext {
                local: *local,
                done: *done,
            }),
            Instr::LoopNext2 { key, value, done } => Ok(Instr::LoopNext2 {
                key: *key,
                value: *value,
                done: *done,
            }),
            Instr::LoopTest { done, failed } => Ok(Instr::LoopTest {
                done: *done,
                failed: *failed,
            }),
        }
    }
}
