//! Admission: reads the bytes of a filter's message as a filter, or refuses them.

ghost use Rattle.std.specs.Prelude.{◌≡◌, ◌≢◌, ◌<◌, ◌≤◌, ◌⊎◌, List, [], IfOk, IfErr, OnOk, MatchResult, map};
ghost use Rattle.std.specs.FinMap.{entries};
ghost use Rattle.cel_tree.specs.Checked.{CelChecked};
ghost use Rattle.proto_wire.specs.Fields.{field_view};
ghost use Rattle.proto_wire.specs.Places.{FaultOr, IsAt};
ghost use Rattle.proto_wire.specs.Refusal.{MemoryOr};
ghost use Rattle.proto_wire.specs.Values.{payloads};
ghost use Rattle.proto_wire.specs.Maps.{Entry, text, Readable, map_of};
ghost use Rattle.proto_wire.specs.declared.refusal.Refusal.TheVariants.{Missing, OutOfRange, TooLarge, Unsupported};
ghost use Rattle.cost_bound.specs.Budgets.{Covers};
ghost use Rattle.rbac_policy.specs.Budget.{OverAt, OverInRules};
ghost use Rattle.rbac_policy.specs.Enforced.{Enforces, total_needs};
ghost use Rattle.rbac_policy.specs.Filter.{Filter};
ghost use Rattle.rbac_policy.specs.Keys.{filter_field, rules_field};
ghost use Rattle.rbac_policy.specs.Message.{AreFilterRules, action_in, action_number, most_policies};
ghost use Rattle.rbac_policy.specs.declared.filter.Action.TheVariants.{Log};
ghost use Rattle.rbac_policy.specs.Fault.{FilterFault, HoldsPolicies, RulesFault};
ghost use Rattle.rbac_policy.specs.Admission.{Admits, Fault};
ghost use Rattle.rbac_policy.specs.Places.{FieldsOr, PlacedOr, of_filter};
ghost use Rattle.rbac_policy.specs.private.Conditions.{ConditionsFault};
ghost use Rattle.rbac_policy.specs.Admitted.{filter_view, limits_view, filter_rules_view};

use crate::filter::{Action, Admitted, FilterRules};
use crate::keys::{FILTER_KEYS, RULES_KEYS};
use crate::numbers::{ACTION, AUDIT_LOGGING_OPTIONS, POLICIES, RULES};
use crate::policy::read_policies;
use crate::policy_index::PolicyIndex;
use attributes::Limits;
use cost_bound::Budget;
use proto_wire::{
    Fault as Placed, Field, Refusal, has_payload, inside_field, payloads_of, read_entries,
    read_message_at, uint32_at,
};
use rbac_match::RuleList;
use std::alloc::Global;

// The most policies that a filter may have.
const MOST_POLICIES: usize = 256;

/// Reads the message of an HTTP RBAC filter (`envoy.extensions.filters.http.rbac.v3.RBAC`) for requests
/// within the limits. Its conditions together may take the steps and the visits of the budget. The filter is taken whole or
/// refused whole, with a fault that it has. A fault is `BadWire`, `BadText`, `UnknownField`, `Missing`,
/// `OutOfRange`, `Unsupported`, `BothConditions`, `TooLarge`, `UnknownName`, `NoOverload`, `BadTypeEntry`,
/// `BadReference`, `NotBool`, `NeedsType` or `TooCostly`. `Memory`: it is out of memory. There is always room
/// for a condition's code, and the code is always verified, so the refusal is never `CodeRefused`.
pub fn admit(
    alloc: Global,
    bytes: &[u8],
    limits: &Limits,
    budget: Budget,
) -> Result<Admitted, Refusal>
    ensures found { IfOk result (λ a. (filter : Filter CelChecked)
        × Admits bytes.now limits.now budget filter (filter_view a)) }
    ensures limits { IfOk result (λ a. limits_view a ≡ limits.now) }
    ensures fault { IfErr result (MemoryOr (λ e. Fault e bytes.now limits.now budget)) }
{
    let mut left = budget;
    Ok(admit_at(alloc, bytes, limits, &mut left)?)
}

/// Reads a filter as `admit` does. The budget is `left` before the call; after it, `left` is what the conditions that
/// were admitted leave. The place of a fault is the part of the message that has it. If the conditions take more than
/// the budget has, it is the expression of the first condition with which their sum is above it.
pub fn admit_at(
    alloc: Global,
    bytes: &[u8],
    limits: &Limits,
    left: &mut Budget,
) -> Result<Admitted, Placed>
    ensures found { IfOk result (λ a. (filter : Filter CelChecked)
        × Admits bytes.now limits.now left.old filter (filter_view a)) }
    ensures limits { IfOk result (λ a. limits_view a ≡ limits.now) }
    ensures fault { IfErr result (FaultOr (λ e. Fault e bytes.now limits.now left.old)) }
    ensures place { IfErr result (PlacedOr (OverAt bytes.now limits.now left.old left.new)
        (of_filter bytes.now)) }
{
    let rules = read_filter(alloc, bytes, limits, left)?;
    Ok(Admitted::new(rules, *limits))
}

// Reads the rules of the filter's message.
fn read_filter(
    alloc: Global,
    bytes: &[u8],
    limits: &Limits,
    left: &mut Budget,
) -> Result<FilterRules, Placed>
    ensures found { IfOk result (λ rules. (filter : Filter CelChecked)
        × Admits bytes.now limits.now left.old filter (filter_rules_view rules)) }
    ensures fault { IfErr result (FaultOr (λ e. FilterFault bytes.now e
        ⊎ ((policies : List (Entry text)) × HoldsPolicies bytes.now policies
        × ConditionsFault policies limits.now left.old e))) }
    ensures place { IfErr result (PlacedOr (OverAt bytes.now limits.now left.old left.new)
        (of_filter bytes.now)) }
{
    let top = read_message_at(alloc, &[bytes], &FILTER_KEYS)?;
    require_rules(&top)?;
    let parts = payloads_of(alloc, &top, RULES)?;
    let fields = inside_field(read_message_at(alloc, &parts, &RULES_KEYS), RULES, 0)?;
    inside_field(read_rules(alloc, &fields, limits, left), RULES, 0)
}

// Refuses a filter without rules.
fn require_rules(top: &[Field<'_>]) -> Result<(), Placed>
    ensures found { OnOk result (payloads filter_field.rules (map field_view top.now) ≢ []) }
    ensures fault { IfErr result (λ f. IsAt filter_field.rules Missing f
        × (payloads filter_field.rules (map field_view top.now) ≡ [])) }
{
    if !has_payload(top, RULES) {
        return Err(Placed::at(Refusal::Missing, RULES));
    }
    Ok(())
}

// Reads the filter's rules from their fields, all of which are known.
fn read_rules(
    alloc: Global,
    fields: &[Field<'_>],
    limits: &Limits,
    left: &mut Budget,
) -> Result<FilterRules, Placed>
    ensures found { IfOk result (λ rules. (filter : Filter CelChecked)
        × AreFilterRules (map field_view fields.now) filter
        × Enforces limits.now filter (filter_rules_view rules)) }
    ensures covered { IfOk result (λ rules. Covers left.old (total_needs (filter_rules_view rules))) }
    ensures fault { IfErr result (FaultOr (λ e. RulesFault (map field_view fields.now) e
        ⊎ ((read : List (Entry text))
        × Readable text (payloads rules_field.policies (map field_view fields.now)) read
        × ConditionsFault (entries (map_of text read)) limits.now left.old e))) }
    ensures place { IfErr result (FieldsOr (OverInRules limits.now left.old left.new (map field_view fields.now))
        (map field_view fields.now)) }
{
    refuse_audit_options(fields)?;
    let action = read_action(fields)?;
    let entries = payloads_of(alloc, fields, POLICIES)?;
    let named = read_entries(alloc, &entries)?;
    refuse_many(named.len())?;
    let mut list = RuleList::new(alloc);
    let (policies, bound) = read_policies(&mut list, &named, limits, left)?;
    list.shrink();
    let policy_index = PolicyIndex::of(alloc, &list, &policies)?;
    Ok(FilterRules::new(action, list, policies, policy_index, bound))
}

// Refuses rules with options of an audit log.
fn refuse_audit_options(fields: &[Field<'_>]) -> Result<(), Placed>
    ensures found { OnOk result (payloads rules_field.audit_logging_options (map field_view fields.now)
        ≡ []) }
    ensures fault { IfErr result (λ f. IsAt rules_field.audit_logging_options Unsupported f
        × (payloads rules_field.audit_logging_options (map field_view fields.now) ≢ [])) }
{
    if has_payload(fields, AUDIT_LOGGING_OPTIONS) {
        return Err(Placed::at(Refusal::Unsupported, AUDIT_LOGGING_OPTIONS));
    }
    Ok(())
}

// Refuses more policies than a filter may have.
fn refuse_many(count: usize) -> Result<(), Placed>
    ensures found { OnOk result (count ≤ most_policies) }
    ensures fault { IfErr result (λ f. IsAt rules_field.policies TooLarge f × (most_policies < count)) }
{
    if count > MOST_POLICIES {
        return Err(Placed::at(Refusal::TooLarge, POLICIES));
    }
    Ok(())
}

// The action: the low 32 bits of the enum's number, and 0 if the field is absent.
fn read_action(fields: &[Field<'_>]) -> Result<Action, Placed>
    ensures { MatchResult result (λ action. action_in (map field_view fields.now)
        ≡ action_number action)
        (λ f. IsAt rules_field.action OutOfRange f
        × (action_number Log < action_in (map field_view fields.now))) }
{
    match uint32_at(fields, ACTION) {
        0 => Ok(Action::Allow),
        1 => Ok(Action::Deny),
        2 => Ok(Action::Log),
        _ => Err(Placed::at(Refusal::OutOfRange, ACTION)),
    }
}
