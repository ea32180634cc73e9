//! The members of a JSON object, by their names.
ghost use Rattle.std.specs.Prelude.{◌≡◌, ◌≢◌, ◌↔◌, ℕ, List, Some, IfOk, IsTrue, OnErr, OnOk, map};
ghost use Rattle.serde_json.specs.Data.{Items, array, number, string, unsigned};
ghost use Rattle.serde_json.specs.Find.{get};
ghost use Rattle.serde_json.specs.View.{items_view, members_view, view};
ghost use Rattle.proto_wire.specs.Merge.{SomeOf};
ghost use Rattle.program_texts.specs.Members.{AreAmong, HasOnly, IsNumberOr};

use serde_json::{Map, Value};

/// The value is not of the required kind, or has a member with a name that is not allowed.
#[derive(Clone, Copy, Debug)]
pub struct InvalidValue;

/// Refuses any value but an object whose members have only these names.
pub fn require_names(value: &Value, names: &[&str]) -> Result<(), InvalidValue>
    ensures found { OnOk result (HasOnly (map (λ n. n.now) names.now) (view value.now)) }
    ensures fault { OnErr result (¬ HasOnly (map (λ n. n.now) names.now) (view value.now)) }
{
    if !has_only(value, names) {
        return Err(InvalidValue);
    }
    Ok(())
}

fn has_only(value: &Value, names: &[&str]) -> bool
    ensures { IsTrue result ↔ HasOnly (map (λ n. n.now) names.now) (view value.now) }
{
    match value.as_object() {
        Some(members) => are_among(members, names),
        None => false,
    }
}

fn are_among(members: &Map<String, Value>, names: &[&str]) -> bool
    ensures { IsTrue result ↔ AreAmong (map (λ n. n.now) names.now) (members_view members.now.entries) }
{
    members.keys().all(|name| is_among(name.as_str(), names))
}

/// Whether the name is one of these.
pub fn is_among(name: &str, names: &[&str]) -> bool
    ensures { IsTrue result ↔ SomeOf (λ n. n ≡ name.now) (map (λ n. n.now) names.now) }
{
    for known in names {
        if *known == name {
            return true;
        }
    }
    false
}

/// The text of the member with this name, which is required.
pub fn str_at<'a>(object: &'a Value, name: &str) -> Result<&'a str, InvalidValue>
    ensures found { IfOk result (λ text. get name.now (view object.now) ≡ Some (string text.now)) }
    ensures fault { OnErr result ((text : List ℕ) → get name.now (view object.now) ≢ Some (string text)) }
{
    let Some(value) = object.get(name) else {
        return Err(InvalidValue);
    };
    match value.as_str() {
        Some(text) => Ok(text),
        None => Err(InvalidValue),
    }
}

/// The values of the array with this name, which is required.
pub fn items_at<'a>(object: &'a Value, name: &str) -> Result<&'a [Value], InvalidValue>
    ensures found { IfOk result (λ items. get name.now (view object.now) ≡ Some (array (items_view items.now))) }
    ensures fault { OnErr result ((items : Items) → get name.now (view object.now) ≢ Some (array items)) }
{
    let Some(value) = object.get(name) else {
        return Err(InvalidValue);
    };
    match value.as_array() {
        Some(items) => Ok(items),
        None => Err(InvalidValue),
    }
}

/// The number of the member with this name; `absent` if there is none.
pub fn number_or(object: &Value, name: &str, absent: u64) -> Result<u64, InvalidValue>
    ensures found { IfOk result (IsNumberOr absent (get name.now (view object.now))) }
    ensures fault { OnErr result ((n : ℕ) → ¬ IsNumberOr absent (get name.now (view object.now)) n) }
{
    let Some(value) = object.get(name) else {
        return Ok(absent);
    };
    match value.as_u64() {
        Some(number) => Ok(number),
        None => Err(InvalidValue),
    }
}

/// The unsigned integer of the member with this name, which is required.
pub fn number_at(object: &Value, name: &str) -> Result<u64, InvalidValue>
    ensures found { IfOk result (λ n. get name.now (view object.now) ≡ Some (number (unsigned n))) }
    ensures fault { OnErr result ((n : ℕ) → get name.now (view object.now) ≢ Some (number (unsigned n))) }
{
    let Some(value) = object.get(name) else {
        return Err(InvalidValue);
    };
    match value.as_u64() {
        Some(number) => Ok(number),
        None => Err(InvalidValue),
    }
}
