//! Values of CEL.

ghost use Rattle.std.specs.Prelude.{◌≡◌, IfOk};
ghost use Rattle.cel_value.specs.Values.{value_of_key};
ghost use Rattle.cel_value.specs.View.{answer_view, key_view, map_view, value_view};

use crate::error::CelError;
use std::alloc::AllocError;
use std::sync::{Arc, ArcSlice, ArcStr};

/// The key of a map.
#[derive(Drop)]
pub enum Key {
    Bool(bool),
    Int(i64),
    Uint(u64),
    Text(ArcStr),
}

/// A value (CEL language definition, "Values"). Its parts are shared: a copy of a list or map copies
/// no item.
#[derive(Drop)]
#[cycle(value)]
pub enum Value {
    Bool(bool),
    Int(i64),
    Uint(u64),
    Text(ArcStr),
    Bytes(ArcSlice<u8>),
    List(Arc<Vec<Value>>),
    Map(Map),
}

/// A map, its entries by ascending key.
#[derive(Drop)]
#[cycle(value)]
pub enum Map {
    /// Keys with values.
    Entries(Arc<Vec<(Key, Value)>>),
    /// Pairs of texts, such as the headers of a request.
    Texts(Arc<Vec<(ArcStr, ArcStr)>>),
}

/// The result of an expression: a value, or an error.
pub type Answer = Result<Value, CelError>;

impl Key {
    /// Another owner of the same key.
    pub fn copy(&self) -> Result<Key, AllocError>
        ensures { IfOk result (λ copy. key_view copy ≡ key_view self.now) }
    {
        match self {
            Key::Bool(b) => Ok(Key::Bool(*b)),
            Key::Int(i) => Ok(Key::Int(*i)),
            Key::Uint(n) => Ok(Key::Uint(*n)),
            Key::Text(text) => Ok(Key::Text(text.clone()?)),
        }
    }
}

impl Value {
    /// Another owner of the same value.
    pub fn copy(&self) -> Result<Value, AllocError>
        ensures { IfOk result (λ copy. value_view copy ≡ value_view self.now) }
    {
        match self {
            Value::Bool(b) => Ok(Value::Bool(*b)),
            Value::Int(i) => Ok(Value::Int(*i)),
            Value::Uint(n) => Ok(Value::Uint(*n)),
            Value::Text(text) => Ok(Value::Text(text.clone()?)),
            Value::Bytes(bytes) => Ok(Value::Bytes(bytes.clone()?)),
            Value::List(items) => Ok(Value::List(items.clone()?)),
            Value::Map(map) => Ok(Value::Map(map.copy()?)),
        }
    }
}

impl Map {
    /// Another owner of the same map.
    pub fn copy(&self) -> Result<Map, AllocError>
        ensures { IfOk result (λ copy. map_view copy ≡ map_view self.now) }
    {
        match self {
            Map::Entries(entries) => Ok(Map::Entries(entries.clone()?)),
            Map::Texts(pairs) => Ok(Map::Texts(pairs.clone()?)),
        }
    }
}

/// Another owner of the same answer.
pub fn copy_answer(answer: &Answer) -> Result<Answer, AllocError>
    ensures { IfOk result (λ copy. answer_view copy ≡ answer_view answer.now) }
{
    match answer {
        Ok(value) => Ok(Ok(value.copy()?)),
        Err(error) => Ok(Err(*error)),
    }
}

impl From<Key> for Value {
    ghost from_gives = { λ key value. value_view value ≡ value_of_key (key_view key) };

    fn from(key: Key) -> Value {
        match key {
            Key::Bool(b) => Value::Bool(b),
            Key::Int(i) => Value::Int(i),
            Key::Uint(n) => Value::Uint(n),
            Key::Text(text) => Value::Text(text),
        }
    }
}
