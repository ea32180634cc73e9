//! The meanings of refusals and of head faults, in words.

use http_front::{HeadFault, HeadPart};
use proto_wire::Refusal;

/// The meaning of a refusal.
pub fn meaning_of(refusal: Refusal) -> &'static str {
    match refusal {
        Refusal::BadWire => "the bytes are not whole fields of Protocol Buffers",
        Refusal::BadText => "a text is not UTF-8",
        Refusal::UnknownField => "a field is unknown, or has the wrong wire type",
        Refusal::Missing => "a required part is missing",
        Refusal::OutOfRange => "a value is outside its range",
        Refusal::Unsupported => "a part is known but not supported",
        Refusal::TooLarge => "a limit of size, number or depth is exceeded",
        Refusal::BothConditions => "a policy has a checked and an unchecked condition",
        Refusal::UnknownName => "a condition has a name that is not known",
        Refusal::NoOverload => "a condition's function does not take these operands",
        Refusal::BadTypeEntry => "a condition's type map names another type than the one found",
        Refusal::BadReference => "a condition's reference map names something else",
        Refusal::NotBool => "the type of a condition is not bool",
        Refusal::NeedsType => "an empty list or map in a condition has no type",
        Refusal::TooCostly => "the conditions may take more steps than the budget has",
        Refusal::DuplicateResource => "two resources have the same name",
        Refusal::WrongType => "a resource has the wrong type",
        Refusal::CodeRefused => "a condition's code is not accepted",
        Refusal::Memory => "memory ran out",
    }
}

/// The rule of HTTP or of this program that a head with this fault breaks.
pub fn rule_of(fault: HeadFault) -> &'static str {
    match fault {
        HeadFault::Malformed(part) => wrong_part(part),
        HeadFault::Unfinished => "the input ends before its head does",
        HeadFault::TooLong => "the head is longer than 65536 bytes",
        HeadFault::OtherForm => "the target does not begin with a slash",
        HeadFault::BadText => "the value of a field is not UTF-8",
        HeadFault::NoHost => "a request of HTTP/1.1 must have a Host field",
        HeadFault::TwoHosts => "there is more than one Host field",
        HeadFault::TwoLengths => "there is more than one Content-Length field",
        HeadFault::BadLength => "a Content-Length is not 1 to 18 digits",
        HeadFault::TransferCoding => "there is a Transfer-Encoding field",
        HeadFault::OutsideLimits => "the request is outside the limits of sizes and numbers",
    }
}

// The fault of the part of a head at which its parser stopped.
fn wrong_part(part: HeadPart) -> &'static str {
    match part {
        HeadPart::Method => "the method is not a token followed by a space",
        HeadPart::Target => "the target is empty, is not UTF-8, or has a byte that is not allowed",
        HeadPart::Version => "the version is neither HTTP/1.0 nor HTTP/1.1",
        HeadPart::LineEnd => "a line does not end in CR LF or LF",
        HeadPart::FieldName => "the name of a field is not a token followed by a colon",
        HeadPart::FieldValue => "the value of a field has a control byte",
        HeadPart::FoldedLine => "a line begins with white space (obsolete folding)",
    }
}
