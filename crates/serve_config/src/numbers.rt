//! The whole numbers that members may have.
ghost use Rattle.std.specs.Prelude.{ℕ, IfSome, IsNone, option_map};
ghost use Rattle.std.specs.Range.{range_inclusive_end, range_inclusive_start};
ghost use Rattle.serde_json.specs.View.{view};
ghost use Rattle.serve_config.specs.Members.{IsNumberFrom};

use serde_json::Value;
use std::ops::RangeInclusive;

/// The number of a member, if it is a whole number of the range; `absent` if there is no member.
pub(crate) fn number_or(
    member: Option<&Value>,
    range: &RangeInclusive<u64>,
    absent: u64,
) -> Option<u64>
    ensures found { IfSome result (IsNumberFrom (range_inclusive_start range.now) (range_inclusive_end range.now)
        absent (option_map (λ v. view v.now) member.entry)) }
    ensures fault { IsNone result → (n : ℕ) → ¬ IsNumberFrom (range_inclusive_start range.now)
        (range_inclusive_end range.now) absent (option_map (λ v. view v.now) member.entry) n }
{
    let Some(value) = member else {
        return Some(absent);
    };
    let number = value.as_u64()?;
    if *range.start() <= number && number <= *range.end() {
        Some(number)
    } else {
        None
    }
}
