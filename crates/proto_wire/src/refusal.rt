//! Why a message is refused.

ghost use Rattle.std.specs.Prelude.{◌≡◌, Some};
ghost use Rattle.proto_wire.specs.Refusal.{number_of, name_of, text_of};
ghost use Rattle.proto_wire.specs.declared.refusal.Refusal.TheVariants.{BadWire, Memory};

use crate::fault::WireError;
use std::alloc::{AllocError, AllocFailed};
use std::error::Error;
use std::fmt;

/// Why a message is refused; each reason has a number, and the first is 1.
#[derive(Clone, Copy, PartialEq, Eq, Debug)]
pub enum Refusal {
    /// The bytes are not a list of whole fields.
    BadWire = 1,
    /// A text is not UTF-8.
    BadText,
    /// A field is not known, or not of its wire type.
    UnknownField,
    /// A required field is absent.
    Missing,
    /// A number is outside its range.
    OutOfRange,
    /// A field is known but not supported.
    Unsupported,
    /// A policy has two conditions.
    BothConditions,
    /// A size or depth is above its limit.
    TooLarge,
    /// A name is not declared.
    UnknownName,
    /// No overload takes the arguments.
    NoOverload,
    /// An entry of the type map gives a type that its node does not have.
    BadTypeEntry,
    /// An entry of the reference map names another variable than its node, or holds a value.
    BadReference,
    /// A condition is not of type bool.
    NotBool,
    /// A node lacks a type.
    NeedsType,
    /// A condition costs too much.
    TooCostly,
    /// A response has two resources of one name.
    DuplicateResource,
    /// A resource is of another type.
    WrongType,
    /// Code did not pass its verifier.
    CodeRefused,
    /// Out of memory.
    Memory = 19,
}

impl Refusal {
    /// The number of the reason, 1 to 19.
    pub fn number(self) -> u8
        ensures { result ≡ number_of self }
    {
        self as u8
    }

    /// The name of the reason.
    pub fn name(self) -> &'static str
        ensures { result.now ≡ name_of self }
    {
        match self {
            Refusal::BadWire => "BadWire",
            Refusal::BadText => "BadText",
            Refusal::UnknownField => "UnknownField",
            Refusal::Missing => "Missing",
            Refusal::OutOfRange => "OutOfRange",
            Refusal::Unsupported => "Unsupported",
            Refusal::BothConditions => "BothConditions",
            Refusal::TooLarge => "TooLarge",
            Refusal::UnknownName => "UnknownName",
            Refusal::NoOverload => "NoOverload",
            Refusal::BadTypeEntry => "BadTypeEntry",
            Refusal::BadReference => "BadReference",
            Refusal::NotBool => "NotBool",
            Refusal::NeedsType => "NeedsType",
            Refusal::TooCostly => "TooCostly",
            Refusal::DuplicateResource => "DuplicateResource",
            Refusal::WrongType => "WrongType",
            Refusal::CodeRefused => "CodeRefused",
            Refusal::Memory => "Memory",
        }
    }
}

/// Writes the number, a space and the name, as in `5 OutOfRange`.
impl fmt::Display for Refusal {
    ghost output = { λ refusal. Some (text_of refusal) };

    fn fmt<W: fmt::Write>(&self, f: &mut fmt::Formatter<W>) -> fmt::Result {
        write!(f, "{} {}", self.number(), self.name())
    }
}

impl Error for Refusal {}

impl From<WireError> for Refusal {
    ghost from_gives = { λ _ e. e ≡ BadWire };

    fn from(_error: WireError) -> Refusal {
        Refusal::BadWire
    }
}

impl From<AllocError> for Refusal {
    ghost from_gives = { λ _ e. e ≡ Memory };

    fn from(_error: AllocError) -> Refusal {
        Refusal::Memory
    }
}

impl<T: Drop> From<AllocFailed<T>> for Refusal {
    ghost from_gives = { λ _ e. e ≡ Memory };

    fn from(_error: AllocFailed<T>) -> Refusal {
        Refusal::Memory
    }
}
