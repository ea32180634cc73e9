//! The run at the end of a message's fields, and the check of a bool that must be true.

ghost use Rattle.std.specs.Prelude.{◌≡◌, true, false, map, OnOk, IfErr};
ghost use Rattle.proto_wire.specs.Fields.{field_view};
ghost use Rattle.proto_wire.specs.Values.{bool_at};
ghost use Rattle.proto_wire.specs.declared.refusal.Refusal.TheVariants.{OutOfRange};
ghost use Rattle.proto_wire.specs.Oneof.{trailing_run};

use proto_wire::{Field, Refusal, bool_at};

/// The longest suffix of the fields in which all have one number. If all fields are members of one oneof, it
/// is the run of the last member.
pub fn trailing_run<'a, 'b>(fields: &'b [Field<'a>]) -> &'b [Field<'a>]
    ensures { map field_view result.now ≡ trailing_run (map field_view fields.now) }
{
    let mut start = 0;
    for (place, field) in fields.iter().enumerate() {
        if fields[start].number != field.number {
            start = place;
        }
    }
    &fields[start..]
}

/// Refuses a bool that must be true and is false.
pub(crate) fn require_true(fields: &[Field<'_>], number: u32) -> Result<(), Refusal>
    ensures found { OnOk result (bool_at number (map field_view fields.now) ≡ true) }
    ensures fault { IfErr result (λ e. (bool_at number (map field_view fields.now) ≡ false)
        × (e ≡ OutOfRange)) }
{
    if bool_at(fields, number) {
        return Ok(());
    }
    Err(Refusal::OutOfRange)
}
