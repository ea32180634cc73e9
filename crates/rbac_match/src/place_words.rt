//! Places of faults in Envoy's words, for readers of a refusal. No contract mentions the words.

use crate::authenticated::PRINCIPAL_NAME;
use crate::cidr::{ADDRESS_PREFIX, PREFIX_LEN};
use crate::fields::trailing_run;
use crate::keys::{AND, ANY, NOT, OR, RULES, permission, principal, rule_keys};
use crate::list::RuleList;
use crate::path::PATH;
use crate::read::{RULE_DEPTH, read_rule_at};
use crate::rule::Side;
use crate::{header, text};
use proto_wire::{
    Fault, Field, MOST_STEPS, Payloads, Place, Refusal, Step, len_of, payloads_of, read_message,
    read_parts,
};
use std::alloc::Global;
use std::fmt::Write;

// What a field holds: a message in a rule, the rule itself, or no message.
#[derive(Clone, Copy)]
enum Message {
    Rule(Side),
    Set(Side),
    Header,
    Text,
    Path,
    Addresses,
    Number,
    Range,
    Authenticated,
    Scalar,
}

// A field: its name in Envoy's messages, as a step of a path, and what it holds.
#[derive(Clone, Copy)]
struct Named {
    step: &'static str,
    message: Message,
}

/// The path from a rule with a fault to the part of its message that has it, such as `.header.name`. An unknown
/// field is named by its number, as `.header, field 99`. The path is empty if that part is the rule itself. `None`
/// if the rule does not have this fault, or the memory runs out.
pub fn path_in_rule(alloc: Global, side: Side, rule: &[u8], refusal: Refusal) -> Option<String> {
    let mut path = String::new(alloc);
    let mut inner = Inner {
        parts: one_payload(alloc, rule)?,
        depth: RULE_DEPTH,
    };
    add_path(alloc, side, &mut inner, refusal, &mut path)?;
    Some(path)
}

// Adds the path from this rule to the part of its message that has the fault. At its end the rule may be one inside
// of the first.
fn add_path(
    alloc: Global,
    side: Side,
    inner: &mut Inner<'_>,
    refusal: Refusal,
    path: &mut String,
) -> Option<()> {
    for _ in 0..RULE_DEPTH {
        to_rule_below_nots(alloc, side, inner, path)?;
        let fault = fault_of_rule(alloc, side, inner)?;
        if fault.refusal != refusal {
            return None;
        }
        if !fault.place.is_cut_short() {
            return add_place(side, &fault, 0, path);
        }
        to_last_rule(alloc, side, inner, &fault, path)?;
    }
    None
}

/// The path from a rule to the place of its fault, of which the first `before` steps lead to the rule. A path that
/// was cut short ends with `..`. `None` if the memory runs out.
pub fn place_in_rule(alloc: Global, side: Side, fault: &Fault, before: usize) -> Option<String> {
    let mut path = String::new(alloc);
    add_place(side, fault, before, &mut path)?;
    Some(path)
}

// The payloads of a rule inside another one, and how many levels it may have.
#[derive(Drop)]
struct Inner<'a> {
    parts: Payloads<'a>,
    depth: u32,
}

fn one_payload<'a>(alloc: Global, payload: &'a [u8]) -> Option<Payloads<'a>> {
    let mut parts = Payloads::new(alloc);
    parts.push(payload).ok()?;
    Some(parts)
}

// Goes to the rule to which `not` alone leads from this one; adds these steps to the path. Such rules need no second
// reading: what is wrong is inside them.
fn to_rule_below_nots(
    alloc: Global,
    side: Side,
    inner: &mut Inner<'_>,
    path: &mut String,
) -> Option<()> {
    for _ in 0..RULE_DEPTH {
        if !to_negated(alloc, side, inner) {
            return Some(());
        }
        add_field(Message::Rule(side), NOT, path)?;
    }
    Some(())
}

// Goes to the rule that this one negates, if there is one and it may have a level.
fn to_negated(alloc: Global, side: Side, inner: &mut Inner<'_>) -> bool {
    if inner.depth == 0 {
        return false;
    }
    match negated(alloc, side, &inner.parts) {
        Some(parts) => {
            inner.parts = parts;
            inner.depth -= 1;
            true
        }
        None => false,
    }
}

// The payloads of the rule that a rule negates, if its own message has no fault.
fn negated<'a>(alloc: Global, side: Side, parts: &[&'a [u8]]) -> Option<Payloads<'a>> {
    let fields = read_message(alloc, parts, rule_keys(side)).ok()?;
    negated_in(alloc, &fields)
}

fn negated_in<'a>(alloc: Global, fields: &[Field<'a>]) -> Option<Payloads<'a>> {
    let run = trailing_run(fields);
    match run.first() {
        Some(field) if field.number == NOT => payloads_of(alloc, run, NOT).ok(),
        _ => None,
    }
}

fn fault_of_rule(alloc: Global, side: Side, rule: &Inner<'_>) -> Option<Fault> {
    let mut list = RuleList::new(alloc);
    read_rule_at(&mut list, side, &rule.parts, rule.depth).err()
}

// Goes to the last rule to which the steps of a place lead from this rule; adds these steps to the path. `None` if
// they lead to no rule.
fn to_last_rule(
    alloc: Global,
    side: Side,
    inner: &mut Inner<'_>,
    fault: &Fault,
    path: &mut String,
) -> Option<()> {
    let count = steps_to_a_rule(side, &fault.place);
    if count == 0 {
        return None;
    }
    let mut part = Message::Rule(side);
    for index in 0..count {
        let step = fault.place.step(index)?;
        to_part(alloc, part, step, inner)?;
        part = add_step(part, step, path)?;
        if let Message::Rule(_) = part {
            inner.depth = inner.depth.saturating_sub(1);
        }
    }
    Some(())
}

// Goes to the part to which a step leads.
fn to_part(alloc: Global, part: Message, step: Step, inner: &mut Inner<'_>) -> Option<()> {
    inner.parts = payloads_in(alloc, part, &inner.parts, step)?;
    Some(())
}

// How many steps of the place lead from a rule to the last rule on its path.
fn steps_to_a_rule(side: Side, place: &Place) -> usize {
    let mut part = Message::Rule(side);
    let mut count = 0;
    for index in 0..MOST_STEPS {
        let Some(step) = place.step(index) else {
            return count;
        };
        let Some(field) = field_of(part, step.number) else {
            return count;
        };
        part = field.message;
        if let Message::Rule(_) = part {
            count = index + 1;
        }
    }
    count
}

// The payloads of the part to which a step leads: a set's rule, or the member of a rule that counts.
fn payloads_in<'a>(
    alloc: Global,
    part: Message,
    parts: &[&'a [u8]],
    step: Step,
) -> Option<Payloads<'a>> {
    let fields = read_parts(alloc, parts).ok()?;
    payloads_at(alloc, part, &fields, step)
}

fn payloads_at<'a>(
    alloc: Global,
    part: Message,
    fields: &[Field<'a>],
    step: Step,
) -> Option<Payloads<'a>> {
    if let Message::Set(_) = part {
        let field = fields.get(step.position as usize)?;
        return one_payload(alloc, len_of(field, step.number)?);
    }
    payloads_of(alloc, trailing_run(fields), step.number).ok()
}

// Adds the path from a rule to the place, of which the first `before` steps lead to the rule.
fn add_place(side: Side, fault: &Fault, before: usize, path: &mut String) -> Option<()> {
    let mut part = Message::Rule(side);
    for index in before..MOST_STEPS {
        if let Some(step) = fault.place.step(index) {
            part = add_step(part, step, path)?;
        }
    }
    add_end(part, fault, path)
}

fn add_step(part: Message, step: Step, path: &mut String) -> Option<Message> {
    let inner = add_field(part, step.number, path)?;
    if let Message::Set(_) = part {
        write!(path, "[{}]", step.position).ok()?;
    }
    Some(inner)
}

// Adds the field that the place names, if it names one.
fn add_end(part: Message, fault: &Fault, path: &mut String) -> Option<()> {
    if fault.place.is_cut_short() {
        return path.push_str("..").ok();
    }
    let Some(number) = fault.place.field() else {
        return Some(());
    };
    if fault.refusal == Refusal::UnknownField {
        return add_number(number, path);
    }
    add_field(part, number, path)?;
    Some(())
}

// Adds the name of the field, or its number if it has none, and gives what it holds.
fn add_field(part: Message, number: u32, path: &mut String) -> Option<Message> {
    let Some(field) = field_of(part, number) else {
        add_number(number, path)?;
        return Some(Message::Scalar);
    };
    path.push_str(field.step).ok()?;
    Some(field.message)
}

fn add_number(number: u32, path: &mut String) -> Option<()> {
    write!(path, ", field {number}").ok()
}

// The field of this number.
fn field_of(message: Message, number: u32) -> Option<Named> {
    match message {
        Message::Rule(Side::Permission) => permission_field(number),
        Message::Rule(Side::Principal) => principal_field(number),
        Message::Set(side) if number == RULES => set_field(side),
        Message::Header => header_field(number),
        Message::Text => text_field(number),
        Message::Path if number == PATH => of_message(".path", Message::Text),
        Message::Authenticated if number == PRINCIPAL_NAME => {
            of_message(".principal_name", Message::Text)
        }
        Message::Addresses => match number {
            ADDRESS_PREFIX => scalar(".address_prefix"),
            PREFIX_LEN => of_message(".prefix_len", Message::Number),
            _ => None,
        },
        _ => None,
    }
}

// A field without a message.
fn scalar(step: &'static str) -> Option<Named> {
    of_message(step, Message::Scalar)
}

fn of_message(step: &'static str, message: Message) -> Option<Named> {
    Some(Named { step, message })
}

fn set_field(side: Side) -> Option<Named> {
    match side {
        Side::Permission => of_message(".rules", Message::Rule(side)),
        Side::Principal => of_message(".ids", Message::Rule(side)),
    }
}

fn permission_field(number: u32) -> Option<Named> {
    match number {
        AND => of_message(".and_rules", Message::Set(Side::Permission)),
        OR => of_message(".or_rules", Message::Set(Side::Permission)),
        ANY => scalar(".any"),
        NOT => of_message(".not_rule", Message::Rule(Side::Permission)),
        permission::HEADER => of_message(".header", Message::Header),
        permission::DESTINATION_IP => of_message(".destination_ip", Message::Addresses),
        permission::DESTINATION_PORT => scalar(".destination_port"),
        permission::METADATA => scalar(".metadata"),
        permission::REQUESTED_SERVER_NAME => of_message(".requested_server_name", Message::Text),
        permission::URL_PATH => of_message(".url_path", Message::Path),
        permission::DESTINATION_PORT_RANGE => of_message(".destination_port_range", Message::Range),
        permission::MATCHER => scalar(".matcher"),
        _ => None,
    }
}

fn principal_field(number: u32) -> Option<Named> {
    match number {
        AND => of_message(".and_ids", Message::Set(Side::Principal)),
        OR => of_message(".or_ids", Message::Set(Side::Principal)),
        ANY => scalar(".any"),
        NOT => of_message(".not_id", Message::Rule(Side::Principal)),
        principal::AUTHENTICATED => of_message(".authenticated", Message::Authenticated),
        principal::SOURCE_IP => scalar(".source_ip"),
        principal::HEADER => of_message(".header", Message::Header),
        principal::METADATA => scalar(".metadata"),
        principal::URL_PATH => of_message(".url_path", Message::Path),
        principal::DIRECT_REMOTE_IP => of_message(".direct_remote_ip", Message::Addresses),
        principal::REMOTE_IP => of_message(".remote_ip", Message::Addresses),
        principal::FILTER_STATE => scalar(".filter_state"),
        _ => None,
    }
}

fn header_field(number: u32) -> Option<Named> {
    match number {
        header::NAME => scalar(".name"),
        header::EXACT_MATCH => scalar(".exact_match"),
        header::RANGE_MATCH => of_message(".range_match", Message::Range),
        header::PREFIX_MATCH => scalar(".prefix_match"),
        header::SUFFIX_MATCH => scalar(".suffix_match"),
        header::SAFE_REGEX_MATCH => scalar(".safe_regex_match"),
        header::CONTAINS_MATCH => scalar(".contains_match"),
        header::STRING_MATCH => of_message(".string_match", Message::Text),
        _ => None,
    }
}

fn text_field(number: u32) -> Option<Named> {
    match number {
        text::EXACT => scalar(".exact"),
        text::PREFIX => scalar(".prefix"),
        text::SUFFIX => scalar(".suffix"),
        text::SAFE_REGEX => scalar(".safe_regex"),
        text::CONTAINS => scalar(".contains"),
        _ => None,
    }
}
