//! Why a JSON value means no facts of a connection, and which member has the fault.

use crate::fact::Fact;
use attributes::{Limit, Limits};
use std::fmt;

/// Why a value means no facts within the limits: the member that has the fault, and which fault that is.
#[derive(Clone, Copy, Debug)]
pub enum FactFault<'a> {
    /// The value is no JSON object.
    NoObject,
    /// No fact has the name of this member.
    NoFact(&'a str),
    /// No fact of this name can have its member's value.
    NotOfKind(Fact),
    /// The text of this fact has so many bytes, more than the greatest limit.
    TooLong(Fact, usize),
}

/// Writes the fault in words for the author of the value.
impl<'a> fmt::Display for FactFault<'a> {
    fn fmt<W: fmt::Write>(&self, f: &mut fmt::Formatter<W>) -> fmt::Result {
        match *self {
            FactFault::NoObject => f.write_str("it is not a JSON object"),
            FactFault::NoFact(name) => write!(f, "there is no fact {name:?}"),
            FactFault::NotOfKind(fact) => {
                let (name, kind) = (fact.name(), fact.kind());
                write!(f, "the value of {name} is not {kind}")
            }
            FactFault::TooLong(fact, count) => {
                let (name, most) = (fact.name(), Limits::largest().get(Limit::Text));
                write!(
                    f,
                    "the value of {name} has {count} bytes; it may have {most}"
                )
            }
        }
    }
}
