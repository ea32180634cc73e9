//! The condition of a policy as a filter's message has it, read again for explanations.

use crate::numbers::{CHECKED_CONDITION, POLICIES, RULES};
use crate::policy::{has_condition, read_expr};
use cel_tree::Checked;
use proto_wire::{
    MapEntry, Refusal, has_payload, payloads_of, read_entries, read_fields, read_parts,
};
use std::alloc::Global;

/// The condition of a policy as the filter's message has it. An unchecked one has no entries in its maps.
#[derive(Drop)]
pub struct WrittenCondition {
    pub is_checked: bool,
    pub checked: Checked,
}

/// The condition of the policy of this number, in the order of the policies' names. `None`: there is no such policy, or
/// it has no condition. A refusal is that of the part which does not read; an admitted filter gives only `Memory`. No
/// contract says so.
pub fn written_condition(
    alloc: Global,
    bytes: &[u8],
    number: usize,
) -> Result<Option<WrittenCondition>, Refusal> {
    let top = read_fields(alloc, bytes)?;
    let rules = payloads_of(alloc, &top, RULES)?;
    condition_in_rules(alloc, &rules, number)
}

// Each of these functions lends what it owns to the next. At an exit a function drops all that it owns, which
// is expensive in a proof.

fn condition_in_rules(
    alloc: Global,
    rules: &[&[u8]],
    number: usize,
) -> Result<Option<WrittenCondition>, Refusal> {
    let fields = read_parts(alloc, rules)?;
    let entries = payloads_of(alloc, &fields, POLICIES)?;
    condition_in_entries(alloc, &entries, number)
}

fn condition_in_entries(
    alloc: Global,
    entries: &[&[u8]],
    number: usize,
) -> Result<Option<WrittenCondition>, Refusal> {
    let named: Vec<MapEntry<'_, &str>> = read_entries(alloc, entries)?;
    match named.get(number) {
        Some(entry) => condition_in_policy(alloc, &entry.1),
        None => Ok(None),
    }
}

fn condition_in_policy(
    alloc: Global,
    parts: &[&[u8]],
) -> Result<Option<WrittenCondition>, Refusal> {
    let fields = read_parts(alloc, parts)?;
    if !has_condition(&fields) {
        return Ok(None);
    }
    Ok(Some(WrittenCondition {
        is_checked: has_payload(&fields, CHECKED_CONDITION),
        checked: read_expr(alloc, &fields)?,
    }))
}
