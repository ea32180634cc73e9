//! The reading of rules, down to a depth.

ghost use Rattle.std.specs.Prelude.{◌≡◌, ◌++◌, ◌∷◌, List, IfOk, IfErr, OnOk, length, map};
ghost use Rattle.proto_wire.specs.Fields.{field_view};
ghost use Rattle.proto_wire.specs.Merge.{parts_view};
ghost use Rattle.proto_wire.specs.Places.{FaultOr};
ghost use Rattle.proto_wire.specs.Refusal.{MemoryOr};
ghost use Rattle.proto_wire.specs.Values.{payloads};
ghost use Rattle.rbac_match.specs.Formula.{Formula, Formulas, leaf, not_of};
ghost use Rattle.rbac_match.specs.Leaves.{IsLeaf, LeafFault};
ghost use Rattle.rbac_match.specs.Places.{EachOr, PlacedOr, part_of, rule, set};
ghost use Rattle.rbac_match.specs.Rules.{IsRule, AreRules, IsSet, MemberSays, RuleFault, SomeRuleFault};
ghost use Rattle.rbac_match.specs.Tokens.{AddsRule, AddsRules, GoesOn, Token, joins, tokens};
ghost use Rattle.rbac_match.specs.View.{rules_view};
ghost use Rattle.rbac_match.specs.declared.matcher.Matcher.{Matcher};

use crate::fields::{require_true, trailing_run};
use crate::keys::{RULES, SET, rule_keys};
use crate::leaf::read_leaf;
use crate::list::{Joint, RuleList, Rules};
use crate::member::{LastMember, LeafKind, Member, last_member};
use crate::rule::Side;
use proto_wire::{
    Fault, Field, Refusal, inside_field, len_of, payloads_of, read_message_at, require_level,
    require_payload,
};

/// The most levels of a permission or a principal; a rule that is in no other is level 1.
pub const RULE_DEPTH: u32 = 32;

/// Reads a rule of at most `depth` levels from its parts, and appends it to the list. It checks the depth
/// before it reads anything of the rule. `TooLarge`: the rule has more levels. `BadWire`, `BadText`,
/// `UnknownField`, `Missing`, `OutOfRange` or `Unsupported`: its message has this fault. `Memory`: it is out
/// of memory. What a refused rule leaves in the list is of no use.
pub fn read_rule(
    list: &mut RuleList,
    side: Side,
    parts: &[&[u8]],
    depth: u32,
) -> Result<(), Refusal>
    ensures found { OnOk result (AddsRule (IsRule side depth (parts_view parts.now)) list.old list.new) }
    ensures fault { IfErr result (MemoryOr (RuleFault side depth (parts_view parts.now))) }
{
    read_rule_at(list, side, parts, depth)?;
    Ok(())
}

/// Reads a rule as `read_rule` does. The place of a fault is the part of the rule that has it.
#[cycle(rule)]
pub fn read_rule_at(
    list: &mut RuleList,
    side: Side,
    parts: &[&[u8]],
    depth: u32,
) -> Result<(), Fault>
    ensures found { OnOk result (AddsRule (IsRule side depth (parts_view parts.now)) list.old list.new) }
    ensures fault { IfErr result (PlacedOr side (rule depth (parts_view parts.now))) }
{
    require_level(depth)?;
    let fields = read_message_at(list.alloc(), parts, rule_keys(side))?;
    let last = last_member(side, &fields)?;
    let run = trailing_run(&fields);
    inside_field(
        read_member(list, side, last, run, depth - 1),
        last.number,
        0,
    )
}

// Reads a rule from the run of its last member, and appends it; the rules in it may have `depth` levels.
#[cycle(rule)]
fn read_member(
    list: &mut RuleList,
    side: Side,
    last: LastMember,
    run: &[Field<'_>],
    depth: u32,
) -> Result<(), Fault>
    ensures found { OnOk result (AddsRule
        (MemberSays (IsRule side depth) last.member last.number (map field_view run.now))
        list.old list.new) }
    ensures fault { IfErr result (PlacedOr side
        (part_of depth last.member last.number (map field_view run.now))) }
{
    match last.member {
        Member::And => {
            let set = payloads_of(list.alloc(), run, last.number)?;
            read_joined(list, side, Joint::And, &set, depth)
        }
        Member::Or => {
            let set = payloads_of(list.alloc(), run, last.number)?;
            read_joined(list, side, Joint::Or, &set, depth)
        }
        Member::Any => {
            require_true(run, last.number)?;
            Ok(list.add_any()?)
        }
        Member::Not => {
            let parts = payloads_of(list.alloc(), run, last.number)?;
            read_negated(list, side, &parts, depth)
        }
        Member::Leaf(kind) => read_test(list, kind, last.number, run),
    }
}

// Reads a set from its parts, and appends a rule that joins the set's rules, and these rules.
#[cycle(rule)]
fn read_joined(
    list: &mut RuleList,
    side: Side,
    joint: Joint,
    parts: &[&[u8]],
    depth: u32,
) -> Result<(), Fault>
    ensures found { OnOk result ((gs : Formulas) × IsSet (IsRule side depth) (parts_view parts.now) gs
        × (list.new ≡ list.old ++ joins joint (length (tokens gs)) ∷ tokens gs)) }
    ensures fault { IfErr result (PlacedOr side (set depth (parts_view parts.now))) }
{
    let place = list.len();
    list.add_any()?;
    read_set(list, side, parts, depth)?;
    Ok(list.join(place, joint)?)
}

// Reads a rule from its parts, and appends its negation.
#[cycle(rule)]
fn read_negated(list: &mut RuleList, side: Side, parts: &[&[u8]], depth: u32) -> Result<(), Fault>
    ensures found { OnOk result (AddsRule (λ f. (g : Formula) × IsRule side depth (parts_view parts.now) g
        × (f ≡ not_of g)) list.old list.new) }
    ensures fault { IfErr result (PlacedOr side (rule depth (parts_view parts.now))) }
{
    let place = list.len();
    list.add_any()?;
    read_rule_at(list, side, parts, depth)?;
    Ok(list.join(place, Joint::Not)?)
}

// Reads a test of this kind from the run of its member, which has this number, and appends it. The frame of a level
// of rules stays small without it.
#[inline(never)]
fn read_test(
    list: &mut RuleList,
    kind: LeafKind,
    number: u32,
    run: &[Field<'_>],
) -> Result<(), Fault>
    ensures found { OnOk result (AddsRule (λ f. (m : Matcher)
        × IsLeaf kind number (map field_view run.now) m × (f ≡ leaf m)) list.old list.new) }
    ensures fault { IfErr result (FaultOr (LeafFault kind number (map field_view run.now))) }
{
    let test = read_leaf(list.alloc(), kind, number, run)?;
    Ok(list.add_leaf(&test)?)
}

// Reads the rules of a set from the set's parts, and appends them.
#[cycle(rule)]
fn read_set(list: &mut RuleList, side: Side, parts: &[&[u8]], depth: u32) -> Result<(), Fault>
    ensures found { OnOk result (AddsRules (IsSet (IsRule side depth) (parts_view parts.now))
        list.old list.new) }
    ensures fault { IfErr result (PlacedOr side (set depth (parts_view parts.now))) }
{
    let fields = read_message_at(list.alloc(), parts, &SET)?;
    require_payload(&fields, RULES)?;
    read_each(list, side, &fields, RULES, depth)
}

// Reads the rules in the fields of this number, in order, and appends them.
#[cycle(rule)]
fn read_each(
    list: &mut RuleList,
    side: Side,
    fields: &[Field<'_>],
    number: u32,
    depth: u32,
) -> Result<(), Fault>
    ensures found { OnOk result (AddsRules (AreRules (IsRule side depth)
        (payloads number (map field_view fields.now))) list.old list.new) }
    ensures fault { IfErr result (EachOr side depth number (map field_view fields.now)) }
{
    for (index, field) in fields.iter().enumerate() {
        if let Some(payload) = len_of(field, number) {
            inside_field(read_rule_at(list, side, &[payload], depth), number, index)?;
        }
    }
    Ok(())
}

/// Reads the rules in the fields of this number, and appends them to the list, where they stay if it grows.
/// Each is in one payload, and has at most `depth` levels. If a rule has a fault, all are refused, with a
/// fault that a rule has. These are `BadWire`, `BadText`, `UnknownField`, `Missing`, `OutOfRange`,
/// `Unsupported`, and `TooLarge` for too many levels. `Memory`: it is out of memory.
pub fn read_rules(
    list: &mut RuleList,
    side: Side,
    fields: &[Field<'_>],
    number: u32,
    depth: u32,
) -> Result<Rules, Refusal>
    ensures found { IfOk result (λ rules. (more : List Token) → AreRules (IsRule side depth)
        (payloads number (map field_view fields.now)) (rules_view (list.new ++ more) rules)) }
    ensures kept { OnOk result (GoesOn list.old list.new) }
    ensures fault { IfErr result (MemoryOr
        (SomeRuleFault side depth (payloads number (map field_view fields.now)))) }
{
    Ok(read_rules_at(list, side, fields, number, depth)?)
}

/// Reads rules as `read_rules` does. The place of a fault begins with the rule's field, and is the part of the
/// rule that has the fault.
pub fn read_rules_at(
    list: &mut RuleList,
    side: Side,
    fields: &[Field<'_>],
    number: u32,
    depth: u32,
) -> Result<Rules, Fault>
    ensures found { IfOk result (λ rules. (more : List Token) → AreRules (IsRule side depth)
        (payloads number (map field_view fields.now)) (rules_view (list.new ++ more) rules)) }
    ensures kept { OnOk result (GoesOn list.old list.new) }
    ensures fault { IfErr result (EachOr side depth number (map field_view fields.now)) }
{
    let place = list.len();
    read_each(list, side, fields, number, depth)?;
    Ok(list.since(place)?)
}
