//! What a turn of a comprehension does after its condition.

ghost use Rattle.std.specs.Prelude.{◌≡◌};
ghost use Rattle.cel_value.specs.View.{answer_view};
ghost use Rattle.cel_meaning.specs.private.Plain.{way_of};

use cel_value::{Answer, Value};

/// What a turn does after its condition.
#[derive(Clone, Copy)]
pub(super) enum Way {
    /// It takes its step.
    Goes,
    /// It ends the loop.
    Ends,
    /// Its condition's error is the loop's answer.
    Fails,
    /// Its condition is of a wrong kind.
    Nothing,
}

/// What a turn does after a condition with this answer.
pub(super) fn way_of(condition: &Answer) -> Way
    ensures { result ≡ way_of (answer_view condition.now) }
{
    match condition {
        Ok(Value::Bool(true)) => Way::Goes,
        Ok(Value::Bool(false)) => Way::Ends,
        Ok(_) => Way::Nothing,
        Err(_) => Way::Fails,
    }
}
