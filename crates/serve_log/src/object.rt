//! Objects that are made member by member.

use serde_json::{Map, Value};
use std::alloc::{AllocError, Global};

/// A JSON object that is made member by member.
#[derive(Drop)]
pub(crate) struct Object {
    alloc: Global,
    members: Map<String, Value>,
}

impl Object {
    /// An object without members.
    pub(crate) fn new(alloc: Global) -> Object {
        Object {
            alloc,
            members: Map::new(alloc),
        }
    }

    /// Puts a member.
    pub(crate) fn put(&mut self, name: &str, value: Value) -> Result<(), AllocError> {
        serde_json::put(&mut self.members, self.alloc, name, value)
    }

    /// Puts a text.
    pub(crate) fn put_text(&mut self, name: &str, text: &str) -> Result<(), AllocError> {
        let value = Value::try_from_str(self.alloc, text)?;
        self.put(name, value)
    }

    /// Puts a text, or `null`.
    pub(crate) fn put_or_null(&mut self, name: &str, text: Option<&str>) -> Result<(), AllocError> {
        match text {
            Some(text) => self.put_text(name, text),
            None => self.put(name, Value::Null),
        }
    }

    /// Puts a number.
    pub(crate) fn put_number(&mut self, name: &str, number: u64) -> Result<(), AllocError> {
        self.put(name, Value::from(number))
    }

    /// The value of the object.
    pub(crate) fn value(self) -> Value {
        Value::Object(self.members)
    }

    /// The text of the object.
    pub(crate) fn line(self) -> Result<String, AllocError> {
        let alloc = self.alloc;
        self.value().to_string(alloc)
    }
}
