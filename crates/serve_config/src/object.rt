//! An object of the configuration, and its members by their names.
ghost use Rattle.std.specs.Prelude.{◌≡◌, ◌↔◌, ◌⊎◌, Some, IfErr, IfOk, IfSome, IsSomeAnd, IsTrue, OnOk, map, option_map};
ghost use Rattle.std.specs.Range.{range_inclusive_end, range_inclusive_start};
ghost use Rattle.serde_json.specs.View.{view};
ghost use Rattle.program_texts.specs.Members.{HasOnly};
ghost use Rattle.serve_config.specs.Members.{IsFlag, IsNumberFrom, IsOrNull, IsPath, IsPathText, data_of, member_of};

use crate::fault::ServeConfigFault;
use crate::numbers::number_or;
use program_texts::{InvalidValue, is_among, require_names};
use serde_json::Value;
use std::alloc::{AllocError, Global};
use std::ops::RangeInclusive;

// The reason for which a path is refused.
const BAD_PATH: &str = "is not a text of at least one byte without NUL";

/// An object of the configuration, and where it is.
#[derive(Clone, Copy)]
pub(crate) struct Object<'a> {
    pub(crate) alloc: Global,
    // The object; `None` if it is absent.
    value: Option<&'a Value>,
    // Its name; empty for the whole configuration.
    name: &'a str,
}

impl<'a> Object<'a> {
    /// The whole configuration, whose members have only these names.
    pub(crate) fn whole(
        alloc: Global,
        value: &'a Value,
        names: &[&str],
    ) -> Result<Object<'a>, ServeConfigFault>
        ensures found { IfOk result (λ o. data_of o ≡ Some (view value.now)) }
        ensures names { OnOk result (HasOnly (map (λ n. n.now) names.now) (view value.now)) }
    {
        let whole = Object {
            alloc,
            value: Some(value),
            name: "",
        };
        whole.require_names(names)?;
        Ok(whole)
    }

    /// The object of this name, whose members have only these names; an absent one if there is none.
    pub(crate) fn object(
        self,
        name: &'a str,
        names: &[&str],
    ) -> Result<Object<'a>, ServeConfigFault>
        ensures found { IfOk result (λ o. data_of o ≡ member_of name.now (data_of self.entry)) }
        ensures names { OnOk result (IfSome (member_of name.now (data_of self.entry)) (HasOnly (map (λ n. n.now) names.now))) }
    {
        let object = Object {
            alloc: self.alloc,
            value: self.get(name),
            name,
        };
        object.require_names(names)?;
        Ok(object)
    }

    /// The object that a member is, whose members have only these names. `path` is the path of the member.
    pub(crate) fn inner(
        self,
        value: &'a Value,
        path: &'a str,
        names: &[&str],
    ) -> Result<Object<'a>, ServeConfigFault>
        ensures found { IfOk result (λ o. data_of o ≡ Some (view value.now)) }
        ensures names { OnOk result (HasOnly (map (λ n. n.now) names.now) (view value.now)) }
    {
        let object = Object {
            alloc: self.alloc,
            value: Some(value),
            name: path,
        };
        object.require_names(names)?;
        Ok(object)
    }

    /// The object of this name; `None` if it is absent or null.
    pub(crate) fn object_or_null(
        self,
        name: &'a str,
        names: &[&str],
    ) -> Result<Option<Object<'a>>, ServeConfigFault>
        ensures { IfOk result (IsOrNull (λ d o. (data_of o ≡ Some d) × HasOnly (map (λ n. n.now) names.now) d)
            (member_of name.now (data_of self.entry))) }
    {
        match self.get(name) {
            None | Some(Value::Null) => Ok(None),
            Some(Value::Object(_)) => Ok(Some(self.object(name, names)?)),
            Some(_) => Err(self.refuse(name, "is not an object or null")),
        }
    }

    // Refuses a value that is no object, or that has a member whose name is not among these.
    fn require_names(self, names: &[&str]) -> Result<(), ServeConfigFault>
        ensures found { OnOk result (IfSome (data_of self.entry) (HasOnly (map (λ n. n.now) names.now))) }
        ensures fault { IfErr result (λ e. (e ≡ ServeConfigFault.Memory)
            ⊎ IsSomeAnd (data_of self.entry) (λ d. ¬ HasOnly (map (λ n. n.now) names.now) d)) }
    {
        let Some(value) = self.value else {
            return Ok(());
        };
        match require_names(value, names) {
            Ok(()) => Ok(()),
            Err(InvalidValue) => Err(self.bad_object(value, names)?),
        }
    }

    // The fault of a value that is no object, or that has a member whose name is not among these.
    fn bad_object(self, value: &Value, names: &[&str]) -> Result<ServeConfigFault, AllocError> {
        if let Some(name) = first_unknown(value, names) {
            return self.unknown(name, names);
        }
        let whole = Object { name: "", ..self };
        let name = match self.name {
            "" => "configuration",
            name => name,
        };
        Ok(whole.refuse(name, "is not an object"))
    }

    // The fault of a member whose name is not among these.
    fn unknown(self, name: &str, names: &[&str]) -> Result<ServeConfigFault, AllocError> {
        let mut reason = format!(in self.alloc; "there is no member {name:?}; the members are")?;
        let mut mark = " ";
        for known in names {
            reason.push_str(mark)?;
            reason.push_str(known)?;
            mark = ", ";
        }
        Ok(self.refuse(name, reason.as_str()))
    }

    /// The fault of a member: its name, and the reason, which has no control characters.
    pub(crate) fn refuse(self, name: &str, reason: &str) -> ServeConfigFault {
        match self.fault(name, reason) {
            Ok(fault) => fault,
            Err(_) => ServeConfigFault::Memory,
        }
    }

    fn fault(self, name: &str, reason: &str) -> Result<ServeConfigFault, AllocError> {
        let alloc = self.alloc;
        let (path, name) = (self.name, name.escape_debug());
        let member = if path.is_empty() {
            format!(in alloc; "{name}")?
        } else {
            format!(in alloc; "{path}.{name}")?
        };
        let reason = String::from_str(alloc, reason)?;
        Ok(ServeConfigFault::Member { member, reason })
    }

    /// The member of this name, if there is one.
    pub(crate) fn get(self, name: &str) -> Option<&'a Value>
        ensures { option_map (λ v. view v.now) result ≡ member_of name.now (data_of self.entry) }
    {
        match self.value {
            Some(value) => value.get(name),
            None => None,
        }
    }

    /// The member of this name, which is required.
    pub(crate) fn required(self, name: &str) -> Result<&'a Value, ServeConfigFault>
        ensures { IfOk result (λ v. member_of name.now (data_of self.entry) ≡ Some (view v.now)) }
    {
        match self.get(name) {
            Some(value) => Ok(value),
            None => Err(self.refuse(name, "is missing")),
        }
    }

    /// The number of this name, which is in the range; `absent` if there is none.
    pub(crate) fn number(
        self,
        name: &str,
        range: &RangeInclusive<u64>,
        absent: u64,
    ) -> Result<u64, ServeConfigFault>
        ensures { IfOk result (IsNumberFrom (range_inclusive_start range.now) (range_inclusive_end range.now) absent
            (member_of name.now (data_of self.entry))) }
    {
        match number_or(self.get(name), range, absent) {
            Some(number) => Ok(number),
            None => Err(self.bad_number(name, range)?),
        }
    }

    fn bad_number(
        self,
        name: &str,
        range: &RangeInclusive<u64>,
    ) -> Result<ServeConfigFault, AllocError> {
        let (least, greatest) = (range.start(), range.end());
        let reason = format!(in self.alloc; "is not a whole number from {least} to {greatest}")?;
        Ok(self.refuse(name, reason.as_str()))
    }

    /// The path of this name, which is required.
    pub(crate) fn path(self, name: &str) -> Result<String, ServeConfigFault>
        ensures { IfOk result (λ path. IsSomeAnd (member_of name.now (data_of self.entry)) (λ d. IsPathText d path)) }
    {
        match self.required(name)?.as_str() {
            Some(path) if is_path(path) => Ok(String::from_str(self.alloc, path)?),
            _ => Err(self.refuse(name, BAD_PATH)),
        }
    }

    /// The path of this name; `None` if it is absent or null.
    pub(crate) fn path_or_null(self, name: &str) -> Result<Option<String>, ServeConfigFault>
        ensures { IfOk result (IsOrNull IsPathText (member_of name.now (data_of self.entry))) }
    {
        match self.get(name) {
            None | Some(Value::Null) => Ok(None),
            Some(_) => Ok(Some(self.path(name)?)),
        }
    }

    /// The truth value of this name; false if it is absent.
    pub(crate) fn flag(self, name: &str) -> Result<bool, ServeConfigFault>
        ensures { IfOk result (IsFlag (member_of name.now (data_of self.entry))) }
    {
        match self.get(name) {
            None => Ok(false),
            Some(Value::Bool(flag)) => Ok(*flag),
            Some(_) => Err(self.refuse(name, "is not true or false")),
        }
    }
}

// The first name of an object's members that is not among these.
fn first_unknown<'v>(value: &'v Value, names: &[&str]) -> Option<&'v str> {
    for key in value.as_object()?.keys() {
        let name = key.as_str();
        if !is_among(name, names) {
            return Some(name);
        }
    }
    None
}

/// Whether a text may be a path: it is not empty and has no NUL.
pub(crate) fn is_path(text: &str) -> bool
    ensures { IsTrue result ↔ IsPath text.now }
{
    !text.is_empty() && !text.as_bytes().contains(&0)
}
