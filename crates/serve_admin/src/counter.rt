//! A row of counters.
ghost use Rattle.std.specs.Prelude.{◌≡◌};
ghost use Rattle.serve_admin.specs.Counting.{counted};

/// One more in a place, if the row has it. A counter at its greatest value stays there.
pub(crate) fn count_in(counters: &mut [u64], place: usize)
    ensures { counters.new ≡ counted counters.old place }
{
    if place < counters.len() {
        counters[place] = counters[place].saturating_add(1);
    }
}

/// The sum of the counters, or the greatest number.
pub(crate) fn total(counters: &[u64]) -> u64 {
    let mut sum = 0u64;
    for counter in counters {
        sum = sum.saturating_add(*counter);
    }
    sum
}
