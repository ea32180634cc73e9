//! Why an expression has no value.

ghost use Rattle.std.specs.Prelude.{◌≡◌, Some};
ghost use Rattle.cel_value.specs.Names.{error_name};

use std::error::Error;
use std::fmt;

/// Why an expression has no value (CEL language definition, "Runtime Errors").
#[derive(Clone, Copy, PartialEq, Eq, Debug)]
pub enum CelError {
    /// A number does not fit its 64 bits.
    Overflow,
    /// A number is divided by zero.
    ZeroDivisor,
    /// A map does not have the key.
    NoKey,
    /// The list has no item at the index.
    Index,
    /// The request does not have the attribute.
    MissingAttribute,
    /// A map literal repeats a key.
    RepeatedKey,
    /// A number is outside of the numbers of the type that it is converted to.
    Range,
    /// Bytes that are converted to a text are not UTF-8.
    InvalidText,
}

impl CelError {
    /// The name of the error, as in `ZeroDivisor`.
    pub fn name(self) -> &'static str
        ensures { result.now ≡ error_name self }
    {
        match self {
            CelError::Overflow => "Overflow",
            CelError::ZeroDivisor => "ZeroDivisor",
            CelError::NoKey => "NoKey",
            CelError::Index => "Index",
            CelError::MissingAttribute => "MissingAttribute",
            CelError::RepeatedKey => "RepeatedKey",
            CelError::Range => "Range",
            CelError::InvalidText => "InvalidText",
        }
    }
}

/// Writes the name.
impl fmt::Display for CelError {
    ghost output = { λ error. Some (error_name error) };

    fn fmt<W: fmt::Write>(&self, f: &mut fmt::Formatter<W>) -> fmt::Result {
        f.write_str(self.name())
    }
}

impl Error for CelError {}
