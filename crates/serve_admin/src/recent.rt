//! The verdicts of the last minutes.

use crate::counter::count_in;
use crate::verdict::{VERDICTS, Verdict};
use std::alloc::{AllocError, Global};

/// How many milliseconds one bucket covers.
pub const BUCKET_TIME: u64 = 5_000;
/// How many buckets there are: 15 minutes of them.
pub const BUCKETS: usize = 180;

/// How often each verdict was given, by the buckets of the time.
#[derive(Debug, Drop)]
pub(crate) struct Recent {
    buckets: Vec<[u64; VERDICTS.len()]>,
    // the number of the bucket that is now counted in, once the time is known
    now: Option<u64>,
}

impl Recent {
    /// No verdict.
    pub(crate) fn new(alloc: Global) -> Result<Recent, AllocError> {
        let mut buckets = Vec::with_capacity(alloc, BUCKETS)?;
        for _ in 0..BUCKETS {
            buckets.push([0; VERDICTS.len()])?;
        }
        Ok(Recent { buckets, now: None })
    }

    /// Counts a verdict.
    pub(crate) fn decided(&mut self, verdict: Verdict) {
        let place = place_of(self.now.unwrap_or(0));
        if let Some(bucket) = self.buckets.get_mut(place) {
            count_in(bucket, verdict.place());
        }
    }

    /// Says what time it is, in milliseconds since a fixed time. An earlier time than before is ignored.
    pub(crate) fn tick(&mut self, now: u64) {
        let number = now / BUCKET_TIME;
        let before = self.now.unwrap_or(number);
        let passed = number.saturating_sub(before);
        for k in 1..=passed.min(BUCKETS as u64) {
            if let Some(bucket) = self.buckets.get_mut(place_of(before.saturating_add(k))) {
                *bucket = [0; VERDICTS.len()];
            }
        }
        self.now = Some(before.max(number));
    }

    /// How often one of the verdicts in these places was given, for each bucket, the oldest first.
    pub(crate) fn counts(&self, alloc: Global, places: &[usize]) -> Result<Vec<u64>, AllocError> {
        let now = self.now.unwrap_or(0);
        let mut counts = Vec::with_capacity(alloc, BUCKETS)?;
        for k in 1..=BUCKETS as u64 {
            let mut count = 0u64;
            if let Some(bucket) = self.buckets.get(place_of(now.saturating_add(k))) {
                for place in places {
                    count = count.saturating_add(bucket.get(*place).copied().unwrap_or(0));
                }
            }
            counts.push(count)?;
        }
        Ok(counts)
    }
}

// The place of the bucket with a number.
fn place_of(number: u64) -> usize {
    (number % BUCKETS as u64) as usize
}
