//! Why a request is not made, in numbers.

ghost use Rattle.std.specs.Prelude.{◌≡◌, ◌≢◌, ◌⊎◌, map};
ghost use Rattle.attributes.specs.Conn.{conn_view};
ghost use Rattle.attributes.specs.Limits.{largest};
ghost use Rattle.c_inputs.specs.Requests.{parts_given};
ghost use Rattle.http_front.specs.Parts.{field_view};
ghost use Rattle.vupresal_c.specs.Causes.{Exceeds, NamesLimit, has_long_name, limit_number, no_cause, part_number, reason_of, rule_number};
ghost use Rattle.vupresal_c.specs.Decisions.{Fails};
ghost use Rattle.vupresal_c.specs.Handles.{facts_in};
ghost use Rattle.vupresal_c.specs.Making.{HeadMakesNone, PartsMakeNone};
ghost use Rattle.vupresal_c.specs.Statuses.{done, status_of};
ghost use Rattle.vupresal_c.specs.declared.fault.Fault.{Fault as FaultValue};

use crate::connection::Connection;
use crate::fault::{Fault, OK};
use crate::making::{made_of_head, made_of_parts};
use attributes::{Conn, Limit, Limits};
use c_inputs::RequestInput;
use http_front::{HeadFault, HeadPart, Line};
use std::alloc::Global;

// The greatest limit of fields without the three pseudo-headers.
const MOST_LINES: usize = 61;

/// Why a request is not made: the number of the rule that it breaks. Beside it is that of the exceeded limit, if it is known.
#[repr(C)]
#[derive(Drop)]
pub struct Cause {
    pub reason: u32,
    pub limit: u32,
}

impl Cause {
    // No cause.
    fn none() -> Cause
        ensures { result ≡ no_cause }
    {
        Cause {
            reason: 0,
            limit: 0,
        }
    }
}

/// Tells why a request is not made of its parts on the connection. The status is that of making it. The cause is 0 after 0, and
/// if the status says it all.
#[unsafe(no_mangle)]
pub extern "C" fn vupresal_cause_of_parts(
    alloc: Global,
    connection: &mut Connection,
    request: &RequestInput<'_>,
    cause: &mut Cause,
) -> i32
    ensures none { result ≡ done → cause.new ≡ no_cause }
    ensures fault { result ≢ done → (e : FaultValue)
        × Fails (facts_in connection.old) (PartsMakeNone request.now) e
        × (result ≡ status_of e) × (cause.new.reason ≡ reason_of e) }
    ensures limit { NamesLimit (facts_in connection.old) (parts_given request.now) cause.new.limit }
    ensures same { facts_in connection.new ≡ facts_in connection.old }
{
    *cause = Cause::none();
    let Some(opened) = connection.take(alloc) else {
        return Fault::Empty.status();
    };
    let answer = made_of_parts(alloc, &opened.conn, request);
    let limit = exceeded_by(request, &opened.conn);
    connection.put(opened);
    match answer {
        Ok(_) => OK,
        Err(fault) => {
            *cause = Cause {
                reason: reason_of(fault),
                limit: limit_of(fault, limit),
            };
            fault.status()
        }
    }
}

/// Tells why a request is not made of its head on the connection. The status is that of making it. Which limit a head exceeds is
/// not told.
#[unsafe(no_mangle)]
pub extern "C" fn vupresal_cause_of_head(
    alloc: Global,
    connection: &mut Connection,
    head: &[u8],
    cause: &mut Cause,
) -> i32
    ensures none { result ≡ done → cause.new ≡ no_cause }
    ensures fault { result ≢ done → (e : FaultValue)
        × Fails (facts_in connection.old) (HeadMakesNone head.now) e
        × (result ≡ status_of e) × (cause.new.reason ≡ reason_of e) }
    ensures same { facts_in connection.new ≡ facts_in connection.old }
{
    *cause = Cause::none();
    let Some(opened) = connection.take(alloc) else {
        return Fault::Empty.status();
    };
    let answer = made_of_head(alloc, &opened.conn, head);
    connection.put(opened);
    match answer {
        Ok(_) => OK,
        Err(fault) => {
            *cause = Cause {
                reason: reason_of(fault),
                limit: 0,
            };
            fault.status()
        }
    }
}

// The number of the limit beside a fault of limits.
fn limit_of(fault: Fault, limit: Limit) -> u32
    ensures { (result ≡ 0) ⊎ (result ≡ limit_number limit) }
{
    match fault {
        Fault::Head(HeadFault::OutsideLimits) => limit_number(limit),
        _ => 0,
    }
}

// The first limit that the parts exceed, if they exceed one: by their lengths, or by a text of the connection. A value is what is
// left: one line's, or those of all lines of one name.
fn exceeded_by(request: &RequestInput<'_>, conn: &Conn) -> Limit
    ensures { Exceeds largest (parts_given request.now) (conn_view conn.now) result }
{
    let limits = Limits::largest();
    if request.method.len() > limits.get(Limit::Method) {
        return Limit::Method;
    }
    if request.target.len() > limits.get(Limit::Target) {
        return Limit::Target;
    }
    if request.lines.len() > MOST_LINES {
        return Limit::Fields;
    }
    if has_long_name(request.lines, limits.get(Limit::Name)) {
        return Limit::Name;
    }
    if !limits.fits_conn(conn) {
        return Limit::Text;
    }
    Limit::Value
}

// Whether some line's name has more than `most` bytes.
fn has_long_name(lines: &[Line<'_>], most: usize) -> bool
    ensures { result ≡ has_long_name most (map field_view lines.now) }
{
    for line in lines {
        if line.name.len() > most {
            return true;
        }
    }
    false
}

// The number of a fault; 0 if the status says it all.
fn reason_of(fault: Fault) -> u32
    ensures { result ≡ reason_of fault }
{
    match fault {
        Fault::Empty => 0,
        Fault::OutOfRange => 0,
        Fault::Refused(_) => 0,
        Fault::OutOfSteps => 0,
        Fault::BadFacts => 18,
        Fault::Unfinished => 8,
        Fault::Head(fault) => rule_number(fault),
    }
}

// The number of the rule that a head breaks.
fn rule_number(fault: HeadFault) -> u32
    ensures { result ≡ rule_number fault }
{
    match fault {
        HeadFault::Malformed(part) => part_number(part),
        HeadFault::Unfinished => 8,
        HeadFault::TooLong => 9,
        HeadFault::OtherForm => 10,
        HeadFault::BadText => 11,
        HeadFault::NoHost => 12,
        HeadFault::TwoHosts => 13,
        HeadFault::TwoLengths => 14,
        HeadFault::BadLength => 15,
        HeadFault::TransferCoding => 16,
        HeadFault::OutsideLimits => 17,
    }
}

// The number of a malformed part.
fn part_number(part: HeadPart) -> u32
    ensures { result ≡ part_number part }
{
    match part {
        HeadPart::Method => 1,
        HeadPart::Target => 2,
        HeadPart::Version => 3,
        HeadPart::LineEnd => 4,
        HeadPart::FieldName => 5,
        HeadPart::FieldValue => 6,
        HeadPart::FoldedLine => 7,
    }
}

// The number of a limit.
fn limit_number(limit: Limit) -> u32
    ensures { result ≡ limit_number limit }
{
    match limit {
        Limit::Fields => 1,
        Limit::Name => 2,
        Limit::Value => 3,
        Limit::Method => 4,
        Limit::Target => 5,
        Limit::Text => 6,
    }
}
