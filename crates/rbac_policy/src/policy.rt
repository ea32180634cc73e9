//! Policies, and the reading of their messages.

ghost use Rattle.std.specs.Prelude.{◌≡◌, ◌≢◌, ◌⊎◌, ◌++◌, ◌∷◌, [], List, T, Ok, IfOk, IfErr, IsErrAnd, OnOk, MatchBool, MatchResult, length, map, option_map};
ghost use Rattle.std.specs.FinMap.{is_sorted};
ghost use Rattle.std.specs.String.{string_bytes};
ghost use Rattle.attributes.specs.Headers.{name_cmp};
ghost use Rattle.proto_wire.specs.Fields.{field_view};
ghost use Rattle.proto_wire.specs.Values.{payloads};
ghost use Rattle.proto_wire.specs.Maps.{text, SomeValueFault};
ghost use Rattle.proto_wire.specs.private.Maps.{Held};
ghost use Rattle.proto_wire.specs.Places.{FaultOr, path_of};
ghost use Rattle.cel_tree.specs.Places.{PlacedOr as Placed};
ghost use Rattle.cel_read.specs.Places.{ExprFaultAt};
ghost use Rattle.proto_wire.specs.Merge.{parts_view};
ghost use Rattle.rbac_match.specs.Tokens.{GoesOn, Token};
ghost use Rattle.cost_bound.specs.Budgets.{Covers};
ghost use Rattle.rbac_policy.specs.Budget.{OverInCondition, OverInEntry, OverInFields, OverInPolicies, OverInPolicy};
ghost use Rattle.rbac_policy.specs.Enforced.{policies_need, program_needs};
ghost use Rattle.rbac_policy.specs.Keys.{policy_field};
ghost use Rattle.cel_tree.specs.Message.{ExprFault, IsExprOf, ArePresent};
ghost use Rattle.cel_tree.specs.View.{checked_view};
ghost use Rattle.rbac_policy.specs.Message.{HasBothSides, condition_in};
ghost use Rattle.rbac_policy.specs.Fault.{PolicyFault};
ghost use Rattle.rbac_policy.specs.Named.{named_views, policy_view, program_view};
ghost use Rattle.rbac_policy.specs.Places.{ConditionOr, ConditionPartOr, EntryOr, IsOfExpr, PlacedOr, PoliciesOr, condition_field, of_policy};
ghost use Rattle.rbac_policy.specs.private.Conditions.{ConditionFault, ConditionsFault, HasProgram, IsEnforced};
ghost use Rattle.rbac_policy.specs.private.Named.{names_view};
ghost use Rattle.proto_wire.specs.declared.refusal.Refusal.TheVariants.{BothConditions, Missing};

use crate::condition::{Condition, condition_of};
use crate::keys::POLICY_KEYS;
use crate::numbers::{CHECKED_CONDITION, CONDITION, EXPR, PERMISSIONS, POLICIES, PRINCIPALS};
use attributes::Limits;
use cel_read::{read_checked_at, read_unchecked_at};
use cel_tree::Checked;
use cost_bound::Budget;
use proto_wire::{
    Fault, Field, MapEntry, Refusal, has_payload, inside_field, payloads_of, read_message_at,
};
use rbac_match::{RULE_DEPTH, RuleList, Rules, Side, read_rules_at};
use std::alloc::Global;

/// A policy with its name. It matches if some permission and some principal match, and its condition is true,
/// if it has one. Its rules are in the filter's list.
#[derive(Debug, Drop)]
pub(crate) struct NamedPolicy {
    pub name: String,
    pub permissions: Rules,
    pub principals: Rules,
    pub condition: Option<Condition>,
}

impl NamedPolicy {
    /// What the policy's condition takes of a budget.
    pub(crate) fn needs(&self) -> Budget
        ensures { result ≡ program_needs (option_map program_view self.now.condition) }
    {
        match &self.condition {
            None => Budget::nothing(),
            Some(condition) => condition.needs,
        }
    }
}

/// Reads the policies of the map's entries, which ascend by name, for requests within the limits, and appends
/// their rules to the list. Their conditions together may take what is left of a budget, which is `left` before the
/// call. Also gives how many steps they may take. After the call, `left` is what these policies leave, or what
/// those before a fault leave. The place of a fault begins with the policy that has it, by its index.
pub(crate) fn read_policies(
    list: &mut RuleList,
    named: &[MapEntry<'_, &str>],
    limits: &Limits,
    left: &mut Budget,
) -> Result<(Vec<NamedPolicy>, u64), Fault>
    requires { T (is_sorted name_cmp (names_view named.now)) }
    ensures found { IfOk result (λ r. Held text (IsEnforced limits.now)
        (names_view named.now) (named_views list.new r.0.items)) }
    ensures cost { IfOk result (λ r. r.1 ≡ (policies_need (named_views list.new r.0.items)).steps) }
    ensures covered { IfOk result (λ r. Covers left.old (policies_need (named_views list.new r.0.items))) }
    ensures fault { IfErr result (FaultOr (λ e.
        SomeValueFault text PolicyFault (names_view named.now) e
        ⊎ ConditionsFault (names_view named.now) limits.now left.old e)) }
    ensures place { IfErr result (PoliciesOr
        (OverInPolicies limits.now left.old left.new (names_view named.now)) (names_view named.now)) }
{
    let budget = *left;
    let mut policies = Vec::with_capacity(list.alloc(), named.len())?;
    for entry in named {
        let policy = read_entry(list, entry, policies.len(), limits, *left)?;
        *left = left.less(policy.needs());
        policies.push(policy)?;
    }
    Ok((policies, budget.steps - left.steps))
}

// Reads the policy of an entry as `read_policy` does; it has this number in the order of names.
fn read_entry(
    list: &mut RuleList,
    entry: &MapEntry<'_, &str>,
    number: usize,
    limits: &Limits,
    left: Budget,
) -> Result<NamedPolicy, Fault>
    ensures named { IfOk result (λ policy. string_bytes policy.name ≡ entry.now.0.now) }
    ensures found { IfOk result (λ policy. (more : List Token) → IsEnforced limits.now
        (parts_view entry.now.1.items) (policy_view (list.new ++ more) policy)) }
    ensures kept { OnOk result (GoesOn list.old list.new) }
    ensures covered { IfOk result (λ policy. Covers left
        (program_needs (option_map program_view policy.condition))) }
    ensures fault { IfErr result (FaultOr (λ e. PolicyFault (parts_view entry.now.1.items) e
        ⊎ ConditionsFault ((entry.now.0.now, parts_view entry.now.1.items) ∷ []) limits.now left e)) }
    ensures place { IfErr result (EntryOr
        (OverInEntry limits.now left number (entry.now.0.now, parts_view entry.now.1.items))
        number (entry.now.0.now, parts_view entry.now.1.items)) }
{
    inside_field(
        read_policy(list, entry.0, &entry.1, limits, left),
        POLICIES,
        number,
    )
}

// Reads a policy from its parts, for requests within the limits; its condition may take what is left of a
// budget. Appends its rules to the list, where they stay if it grows. The place of a fault is the part of the
// policy that has it. It is the condition's expression if this takes more than is left.
fn read_policy(
    list: &mut RuleList,
    name: &str,
    parts: &[&[u8]],
    limits: &Limits,
    left: Budget,
) -> Result<NamedPolicy, Fault>
    ensures named { IfOk result (λ policy. string_bytes policy.name ≡ name.now) }
    ensures found { IfOk result (λ policy. (more : List Token) → IsEnforced limits.now
        (parts_view parts.now) (policy_view (list.new ++ more) policy)) }
    ensures kept { OnOk result (GoesOn list.old list.new) }
    ensures covered { IfOk result (λ policy. Covers left
        (program_needs (option_map program_view policy.condition))) }
    ensures fault { IfErr result (FaultOr (λ e. PolicyFault (parts_view parts.now) e
        ⊎ ConditionsFault ((name.now, parts_view parts.now) ∷ []) limits.now left e)) }
    ensures place { IfErr result (PlacedOr (OverInPolicy limits.now left (parts_view parts.now))
        (of_policy (parts_view parts.now))) }
{
    let alloc = list.alloc();
    let fields = read_message_at(alloc, parts, &POLICY_KEYS)?;
    refuse_both(&fields)?;
    require_sides(&fields)?;
    let permissions = read_rules_at(list, Side::Permission, &fields, PERMISSIONS, RULE_DEPTH)?;
    let principals = read_rules_at(list, Side::Principal, &fields, PRINCIPALS, RULE_DEPTH)?;
    let condition = condition_at(alloc, &fields, limits, left)?;
    let name = String::from_str(alloc, name)?;
    Ok(NamedPolicy {
        name,
        permissions,
        principals,
        condition,
    })
}

// Refuses a policy that has both conditions.
fn refuse_both(fields: &[Field<'_>]) -> Result<(), Refusal>
    ensures found { OnOk result ((payloads policy_field.condition (map field_view fields.now) ≡ [])
        ⊎ (payloads policy_field.checked_condition (map field_view fields.now) ≡ [])) }
    ensures fault { IfErr result (λ e. (e ≡ BothConditions)
        × (payloads policy_field.condition (map field_view fields.now) ≢ [])
        × (payloads policy_field.checked_condition (map field_view fields.now) ≢ [])) }
{
    if !has_payload(fields, CONDITION) {
        return Ok(());
    }
    if !has_payload(fields, CHECKED_CONDITION) {
        return Ok(());
    }
    Err(Refusal::BothConditions)
}

// Reads the condition as `read_condition` does. The place of a fault is in the condition.
fn condition_at(
    alloc: Global,
    fields: &[Field<'_>],
    limits: &Limits,
    left: Budget,
) -> Result<Option<Condition>, Fault>
    ensures found { IfOk result (λ found. HasProgram limits.now
        (condition_in (map field_view fields.now)) (option_map program_view found)) }
    ensures covered { IfOk result (λ found. Covers left (program_needs (option_map program_view found))) }
    ensures fault { IfErr result (FaultOr (λ e. ArePresent (condition_in (map field_view fields.now))
        × ConditionFault (condition_in (map field_view fields.now)) limits.now left e)) }
    ensures place { IfErr result (ConditionOr (OverInFields limits.now left (map field_view fields.now))
        (map field_view fields.now)) }
{
    match read_condition(alloc, fields, limits, left) {
        Ok(condition) => Ok(condition),
        Err(fault) => Err(fault.inside(condition_number(fields), 0)),
    }
}

// The number of the field that has the condition, if there is one.
fn condition_number(fields: &[Field<'_>]) -> u32
    ensures { result ≡ condition_field (condition_in (map field_view fields.now)) }
{
    if has_payload(fields, CHECKED_CONDITION) {
        return CHECKED_CONDITION;
    }
    CONDITION
}

// Reads the condition, checked or not, if there is one. The place of a fault names a node, or the entry of a map.
fn read_condition(
    alloc: Global,
    fields: &[Field<'_>],
    limits: &Limits,
    left: Budget,
) -> Result<Option<Condition>, Fault>
    ensures found { IfOk result (λ found. HasProgram limits.now
        (condition_in (map field_view fields.now)) (option_map program_view found)) }
    ensures covered { IfOk result (λ found. Covers left (program_needs (option_map program_view found))) }
    ensures fault { IfErr result (FaultOr (λ e. ArePresent (condition_in (map field_view fields.now))
        × ConditionFault (condition_in (map field_view fields.now)) limits.now left e)) }
    ensures place { IfErr result (ConditionPartOr
        (OverInCondition limits.now left (condition_in (map field_view fields.now)))
        (condition_in (map field_view fields.now))) }
{
    if !has_condition(fields) {
        return Ok(None);
    }
    let checked = read_expr(alloc, fields)?;
    let condition = inside_expr(fields, condition_of(alloc, &checked, limits, left))?;
    Ok(Some(condition))
}

// What was made of a condition's expression, or its fault as one of the condition.
#[inline(always)]
fn inside_expr<T>(fields: &[Field<'_>], made: Result<T, Fault>) -> Result<T, Fault>
    ensures { MatchResult made (λ x. result ≡ Ok x)
        (λ e. IsErrAnd result (λ f. (f.refusal ≡ e.refusal)
        × IsOfExpr (condition_in (map field_view fields.now)) (path_of e.place) (path_of f.place))) }
{
    match made {
        Ok(value) => Ok(value),
        Err(fault) => Err(of_expr(fields, fault)),
    }
}

// The fault of a condition's expression, as one of the condition: a checked condition has its expression in a field.
#[cold]
#[inline(never)]
fn of_expr(fields: &[Field<'_>], fault: Fault) -> Fault
    ensures { (result.refusal ≡ fault.refusal)
        × IsOfExpr (condition_in (map field_view fields.now)) (path_of fault.place) (path_of result.place) }
{
    if has_payload(fields, CHECKED_CONDITION) {
        return fault.inside(EXPR, 0);
    }
    fault
}

/// Whether there is a condition, checked or not.
pub(crate) fn has_condition(fields: &[Field<'_>]) -> bool
    ensures { MatchBool result (ArePresent (condition_in (map field_view fields.now)))
        (ArePresent (condition_in (map field_view fields.now)) → ⊥) }
{
    if has_payload(fields, CHECKED_CONDITION) {
        return true;
    }
    has_payload(fields, CONDITION)
}

/// Reads the expression of the condition: a checked expression, or one without entries. The place of a fault names a
/// node, or the entry of a map.
pub(crate) fn read_expr(alloc: Global, fields: &[Field<'_>]) -> Result<Checked, Fault>
    ensures found { IfOk result (λ c. IsExprOf (condition_in (map field_view fields.now)) (checked_view c)) }
    ensures fault { IfErr result (FaultOr (ExprFault (condition_in (map field_view fields.now)))) }
    ensures place { IfErr result (Placed (ExprFaultAt (condition_in (map field_view fields.now)))) }
{
    if has_payload(fields, CHECKED_CONDITION) {
        let parts = payloads_of(alloc, fields, CHECKED_CONDITION)?;
        return read_checked_at(alloc, &parts);
    }
    let parts = payloads_of(alloc, fields, CONDITION)?;
    read_unchecked_at(alloc, &parts)
}

// Refuses a policy without permissions or without principals.
fn require_sides(fields: &[Field<'_>]) -> Result<(), Refusal>
    ensures found { OnOk result (HasBothSides (map field_view fields.now)) }
    ensures fault { IfErr result (λ e. ¬ (HasBothSides (map field_view fields.now))
        × (e ≡ Missing)) }
{
    if !has_payload(fields, PERMISSIONS) {
        return Err(Refusal::Missing);
    }
    if !has_payload(fields, PRINCIPALS) {
        return Err(Refusal::Missing);
    }
    Ok(())
}
