//! Ranges of whole numbers, the reading of their messages, and which texts are numbers in them.

ghost use Rattle.std.specs.Prelude.{◌≡◌, IfOk, IfErr};
ghost use Rattle.proto_wire.specs.Merge.{parts_view};
ghost use Rattle.proto_wire.specs.Messages.{MessageFault};
ghost use Rattle.proto_wire.specs.Places.{FaultOr};
ghost use Rattle.rbac_match.specs.Int64Range.{IsRange, int64_in, is_within, range_holds};
ghost use Rattle.rbac_match.specs.Message.{range_keys};

use crate::keys::{END, RANGE, START};
use proto_wire::{Fault, int64_at, read_message_at};
use std::alloc::Global;

/// The numbers from `start` on that are below `end`; none if `start` is not below `end`.
#[derive(Clone, Copy)]
pub struct Int64Range {
    pub(crate) start: i64,
    pub(crate) end: i64,
}

impl Int64Range {
    // Whether the number is in the range.
    fn contains(&self, number: i64) -> bool
        ensures { result ≡ is_within self.now number }
    {
        self.start <= number && number < self.end
    }

    /// Whether the whole text is a decimal number of 64 bits in the range.
    pub(crate) fn matches(&self, text: &str) -> bool
        ensures { result ≡ range_holds self.now text.now }
    {
        match parse_int64(text) {
            Some(number) => self.contains(number),
            None => false,
        }
    }
}

// The number that the whole text spells: an optional `+` or `-`, then at least one decimal digit. `None` for
// any other text, and for a number that does not fit in 64 bits.
fn parse_int64(text: &str) -> Option<i64>
    ensures { result ≡ int64_in text.now }
{
    text.parse().ok()
}

/// Reads an Int64Range (`envoy.type.v3.Int64Range`) from its parts.
pub(crate) fn read_int64_range(alloc: Global, parts: &[&[u8]]) -> Result<Int64Range, Fault>
    ensures found { IfOk result (λ range. IsRange (parts_view parts.now) range) }
    ensures fault { IfErr result (FaultOr (MessageFault range_keys (parts_view parts.now))) }
{
    let fields = read_message_at(alloc, parts, &RANGE)?;
    Ok(Int64Range {
        start: int64_at(&fields, START),
        end: int64_at(&fields, END),
    })
}
