//! The place of a fault in a filter's message in words, for readers of a refusal. No contract mentions the words.

use crate::numbers::{
    ACTION, AUDIT_LOGGING_OPTIONS, CHECKED_CONDITION, EXPR, PERMISSIONS, POLICIES, PRINCIPALS,
    REFERENCE_MAP, RULES, TYPE_MAP,
};
use proto_wire::{
    Fault, Field, MapEntry, Refusal, Step, len_of, payloads_of, read_entries, read_fields,
    read_parts,
};
use rbac_match::{Side, path_in_rule, place_in_rule};
use std::alloc::Global;

// The step from a filter's rules to a policy, by its index.
const TO_POLICY: usize = 1;

// The step from a policy to one of its rules, or to its condition.
const INTO_POLICY: usize = 2;

// The step from a condition to its node, or to a field of a checked one.
const INTO_CONDITION: usize = 3;

// The step from a field of a checked condition to its node, or to its entry.
const INTO_CHECKED: usize = 4;

// How many steps lead from a filter to a permission or a principal.
const STEPS_TO_A_RULE: usize = 3;

/// The part of the filter's message that has the fault with which `admit_at` refused it, such as
/// `policy "p": permissions[0].and_rules.rules[2].header.name` or `policy "p": checked_condition.expr, node 5`.
/// Control characters of the name are escaped. If the conditions take more than the budget has, it is the first
/// condition with which their sum is above it.
/// `None` if no part can be named.
pub fn place_of_fault(alloc: Global, bytes: &[u8], fault: &Fault) -> Option<String> {
    fault.place.step(0)?;
    let top = read_fields(alloc, bytes).ok()?;
    let rules = payloads_of(alloc, &top, RULES).ok()?;
    place_in_rules(alloc, &rules, fault)
}

// Each of these functions lends what it owns to the next. At an exit a function drops all that it owns, which
// is expensive in a proof.

// The part of the filter's rules that has the fault.
fn place_in_rules(alloc: Global, rules: &[&[u8]], fault: &Fault) -> Option<String> {
    let Some(step) = fault.place.step(TO_POLICY) else {
        return String::from_str(alloc, part_of_rules(fault)?).ok();
    };
    let fields = read_parts(alloc, rules).ok()?;
    let entries = payloads_of(alloc, &fields, POLICIES).ok()?;
    place_in_entries(alloc, &entries, step.position as usize, fault)
}

// The field of the filter's rules that has the fault.
fn part_of_rules(fault: &Fault) -> Option<&'static str> {
    if fault.refusal == Refusal::UnknownField {
        return None;
    }
    match fault.place.field()? {
        AUDIT_LOGGING_OPTIONS => Some("rules.audit_logging_options"),
        ACTION => Some("rules.action"),
        _ => None,
    }
}

// The policy of this number, in the order of the policies' names, and the part of it that has the fault.
fn place_in_entries(
    alloc: Global,
    entries: &[&[u8]],
    number: usize,
    fault: &Fault,
) -> Option<String> {
    let named: Vec<MapEntry<'_, &str>> = read_entries(alloc, entries).ok()?;
    let entry = named.get(number)?;
    place_in_policy(alloc, entry.0, &entry.1, fault)
}

fn place_in_policy(alloc: Global, name: &str, parts: &[&[u8]], fault: &Fault) -> Option<String> {
    match part_of_policy(alloc, parts, fault) {
        Some(part) => format!(in alloc; "policy {name:?}{part}").ok(),
        None => format!(in alloc; "policy {name:?}").ok(),
    }
}

fn part_of_policy(alloc: Global, parts: &[&[u8]], fault: &Fault) -> Option<String> {
    let Some(step) = fault.place.step(INTO_POLICY) else {
        let number = fault.place.field()?;
        return format!(in alloc; ", field {number}").ok();
    };
    let fields = read_parts(alloc, parts).ok()?;
    let part = part_of_fields(alloc, &fields, step, fault)?;
    format!(in alloc; ": {part}").ok()
}

// The rule or the condition to which the step leads, and the part of it that has the fault.
fn part_of_fields(
    alloc: Global,
    fields: &[Field<'_>],
    step: Step,
    fault: &Fault,
) -> Option<String> {
    match step.number {
        PERMISSIONS => part_of_side(alloc, Side::Permission, fields, step, fault),
        PRINCIPALS => part_of_side(alloc, Side::Principal, fields, step, fault),
        CHECKED_CONDITION => part_of_checked(alloc, fault),
        _ => node_at(alloc, "condition", fault.place.step(INTO_CONDITION)),
    }
}

// The part of a checked condition that has the fault: a node, as `checked_condition.expr, node 5`, or an entry of a
// map, as `checked_condition.type_map[5]`. For `TooCostly` it is the condition.
fn part_of_checked(alloc: Global, fault: &Fault) -> Option<String> {
    if fault.refusal == Refusal::TooCostly {
        return String::from_str(alloc, "checked_condition").ok();
    }
    let id = fault.place.step(INTO_CHECKED);
    match number_in_checked(fault) {
        Some(EXPR) => node_at(alloc, "checked_condition.expr", id),
        Some(TYPE_MAP) => entry_at(alloc, "checked_condition.type_map", id),
        Some(REFERENCE_MAP) => entry_at(alloc, "checked_condition.reference_map", id),
        _ => String::from_str(alloc, "checked_condition").ok(),
    }
}

// The field of a checked expression that has the fault.
fn number_in_checked(fault: &Fault) -> Option<u32> {
    match fault.place.step(INTO_CONDITION) {
        Some(step) => Some(step.number),
        None => fault.place.field(),
    }
}

// A node of an expression, by the step to it. A node of the id 0 is not named.
fn node_at(alloc: Global, name: &str, step: Option<Step>) -> Option<String> {
    match step {
        Some(Step { position, .. }) if position != 0 => {
            format!(in alloc; "{name}, node {position}").ok()
        }
        _ => String::from_str(alloc, name).ok(),
    }
}

// An entry of a map, by the step to it.
fn entry_at(alloc: Global, name: &str, step: Option<Step>) -> Option<String> {
    match step {
        Some(Step { position, .. }) => format!(in alloc; "{name}[{position}]").ok(),
        None => String::from_str(alloc, name).ok(),
    }
}

// The rule of this side to which the step leads, and the path to the part of it that has the fault.
fn part_of_side(
    alloc: Global,
    side: Side,
    fields: &[Field<'_>],
    step: Step,
    fault: &Fault,
) -> Option<String> {
    let name = match side {
        Side::Permission => "permissions",
        Side::Principal => "principals",
    };
    let position = step.position as usize;
    let rule = len_of(fields.get(position)?, step.number)?;
    let index = index_of(fields, step.number, position);
    let path = match fault.place.is_cut_short() {
        true => path_in_rule(alloc, side, rule, fault.refusal)?,
        false => place_in_rule(alloc, side, fault, STEPS_TO_A_RULE)?,
    };
    format!(in alloc; "{name}[{index}]{path}").ok()
}

// How many fields of this number are before the position.
fn index_of(fields: &[Field<'_>], number: u32, position: usize) -> usize {
    let mut index = 0usize;
    for (at, field) in fields.iter().enumerate() {
        if at < position && field.number == number {
            index = index.saturating_add(1);
        }
    }
    index
}
