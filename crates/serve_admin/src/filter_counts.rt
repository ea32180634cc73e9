//! What is counted for one filter.
ghost use Rattle.std.specs.Prelude.{◌≡◌, []};
ghost use Rattle.serve_admin.specs.Counting.{counted};

use crate::counter::count_in;
use crate::histogram::Histogram;
use std::alloc::{AllocError, Global};

/// How often each of a filter's policies matched, and the steps that its conditions took.
#[derive(Debug, Drop)]
pub(crate) struct FilterCounts {
    matches: Vec<u64>,
    pub(crate) steps: Histogram,
}

impl FilterCounts {
    /// Of a filter without policies.
    pub(crate) fn new(alloc: Global) -> FilterCounts
        ensures { result.matches.items ≡ [] }
    {
        FilterCounts {
            matches: Vec::new(alloc),
            steps: Histogram::new(),
        }
    }

    /// Counts a match, if the filter has a policy with this number.
    pub(crate) fn matched(&mut self, policy: usize)
        ensures matches { self.new.matches.items ≡ counted self.old.matches.items policy }
        ensures steps { self.new.steps ≡ self.old.steps }
    {
        count_in(&mut self.matches, policy);
    }

    /// How often each policy matched.
    pub(crate) fn matches(&self) -> &[u64]
        ensures { result.now ≡ self.now.matches.items }
    {
        &self.matches
    }

    /// Replaces the counters of the policies.
    pub(crate) fn set_matches(&mut self, matches: Vec<u64>)
        ensures { self.new ≡ record self.old { matches = matches } }
    {
        self.matches = matches;
    }
}

/// So many counters at 0.
pub(crate) fn zeros(alloc: Global, count: usize) -> Result<Vec<u64>, AllocError> {
    let mut counters = Vec::with_capacity(alloc, count)?;
    for _ in 0..count {
        counters.push(0)?;
    }
    Ok(counters)
}
