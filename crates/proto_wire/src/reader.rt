//! Reads the fields of a message in order.

ghost use Rattle.std.specs.Prelude.{◌≡◌, ◌≢◌, ◌↔◌, List, [], Ok, None, Err, IfOk, IfErr, IfSome, IsOkAnd, IsSomeAnd, ℕ};
ghost use Rattle.proto_wire.specs.Fields.{Wire, StartsField, FailsField, field_view};

use crate::fault::WireError;
use crate::field::Field;
use crate::spelling::read_field;
use std::marker::Model;

/// Reads the fields of a message, from its first byte on. It takes no memory.
#[derive(Debug, Drop)]
pub struct Reader<'a> {
    rest: &'a [u8],
}

impl<'a> Model for Reader<'a> {
    ghost Value = { List ℕ };

    ghost view = { λ reader. reader.rest.now };
}

impl<'a> Reader<'a> {
    /// A reader of all the bytes.
    pub fn new(bytes: &'a [u8]) -> Reader<'a>
        ensures { result ≡ bytes.now }
    {
        Reader { rest: bytes }
    }

    /// The next field; `None` exactly at the end, and the reader stays there. Any error of
    /// `WireError` is possible. After an error the reader has not moved, so the next call gives the
    /// same error.
    pub fn next(&mut self) -> Result<Option<Field<'a>>, WireError>
        ensures field { IfOk result (λ found.
            IfSome found (λ f. StartsField self.old (field_view f) self.new)) }
        ensures none { (result ≡ Ok None) ↔ (self.old ≡ []) }
        ensures end { self.old ≡ [] → self.new ≡ [] }
        ensures fault { IfErr result (λ e.
            (self.old ≢ []) × FailsField self.old e × (self.new ≡ self.old)) }
        ensures reads { (f : Wire) (rest : List ℕ) → StartsField self.old f rest
            → IsOkAnd result (λ found. IsSomeAnd found (λ g. field_view g ≡ f))
            × (self.new ≡ rest) }
        ensures fails { (e : WireError) → self.old ≢ [] → FailsField self.old e → result ≡ Err e }
    {
        if self.rest.is_empty() {
            return Ok(None);
        }
        let (field, rest) = read_field(self.rest)?;
        self.rest = rest;
        Ok(Some(field))
    }
}
