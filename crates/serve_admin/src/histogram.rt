//! Numbers counted by their powers of ten.
ghost use Rattle.std.specs.Prelude.{◌≡◌, ◌≤◌, ◌<◌, ◌-◌, ◌^◌, max, replicate};
ghost use Rattle.serve_admin.specs.Counting.{bucket, counted, raised};

use crate::counter::{count_in, total};

/// The limits of all buckets except the last, which has none.
pub(crate) const LIMITS: [u64; 9] = [
    1,
    10,
    100,
    1_000,
    10_000,
    100_000,
    1_000_000,
    10_000_000,
    100_000_000,
];

/// How many numbers fell into each bucket, their sum and the greatest.
#[derive(Clone, Copy, PartialEq, Eq, Debug)]
pub struct Histogram {
    counts: [u64; 10],
    sum: u64,
    greatest: u64,
}

impl Histogram {
    /// Of no number.
    pub(crate) fn new() -> Histogram
        ensures { result ≡ record { counts = replicate 10 0; sum = 0; greatest = 0 } }
    {
        Histogram {
            counts: [0; 10],
            sum: 0,
            greatest: 0,
        }
    }

    /// Counts a number.
    pub(crate) fn add(&mut self, number: u64)
        ensures counts { self.new.counts ≡ counted self.old.counts (bucket number) }
        ensures sum { self.new.sum ≡ raised self.old.sum number }
        ensures greatest { self.new.greatest ≡ max self.old.greatest number }
    {
        count_in(&mut self.counts, bucket_of(number));
        self.sum = self.sum.saturating_add(number);
        self.greatest = self.greatest.max(number);
    }

    /// How many numbers were counted.
    pub(crate) fn count(&self) -> u64 {
        total(&self.counts)
    }

    /// How many numbers fell into each bucket.
    pub(crate) fn counts(&self) -> &[u64]
        ensures { result.now ≡ self.now.counts }
    {
        &self.counts
    }

    /// The sum of the numbers.
    pub(crate) fn sum(&self) -> u64
        ensures { result ≡ self.now.sum }
    {
        self.sum
    }

    /// The greatest number, or 0.
    pub(crate) fn greatest(&self) -> u64
        ensures { result ≡ self.now.greatest }
    {
        self.greatest
    }
}

/// The bucket of a number: the first whose limit is not below it. The limit of bucket k is 10 to the power of k, but
/// the bucket 9 has none.
pub fn bucket_of(number: u64) -> usize
    ensures place { result ≡ bucket number }
    ensures range { result ≤ 9 }
    ensures fits { result < 9 → number ≤ 10 ^ result }
    ensures first { 0 < result → 10 ^ (result - 1) < number }
{
    match number {
        0..=1 => 0,
        2..=10 => 1,
        11..=100 => 2,
        101..=1_000 => 3,
        1_001..=10_000 => 4,
        10_001..=100_000 => 5,
        100_001..=1_000_000 => 6,
        1_000_001..=10_000_000 => 7,
        10_000_001..=100_000_000 => 8,
        _ => 9,
    }
}
