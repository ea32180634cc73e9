//! The counters of a server.
ghost use Rattle.std.specs.Prelude.{◌≡◌};
ghost use Rattle.serve_admin.specs.Counting.{full_after, raised, takes_last};

use crate::counter::count_in;
use crate::faults::StatusCounts;
use crate::filter_counts::{FilterCounts, zeros};
use crate::histogram::Histogram;
use crate::recent::Recent;
use crate::slowest::Slowest;
use crate::verdict::{Closed, REASONS, VERDICTS, Verdict};
use std::alloc::{AllocError, Global};

/// The counters of a server. A counter at its greatest value stays there.
#[derive(Debug, Drop)]
pub struct Metrics {
    alloc: Global,
    pub(crate) verdicts: [u64; VERDICTS.len()],
    pub(crate) faults: StatusCounts,
    pub(crate) filters: Vec<FilterCounts>,
    pub(crate) accepted: u64,
    pub(crate) refused_connections: u64,
    pub(crate) open: u64,
    pub(crate) most_open: u64,
    /// How many may be open; 0 if that is not known.
    pub(crate) limit: u64,
    /// How often the last place was taken.
    pub(crate) full: u64,
    pub(crate) closed: [u64; REASONS.len()],
    pub(crate) responses_accepted: u64,
    pub(crate) responses_refused: u64,
    pub(crate) admissions: Histogram,
    pub(crate) slowest: Slowest,
    pub(crate) stream_up: bool,
    pub(crate) control_errors: u64,
    pub(crate) dropped_lines: u64,
    pub(crate) recent: Recent,
}

impl Metrics {
    /// All at 0, for so many filters without policies.
    pub fn new(alloc: Global, filters: usize) -> Result<Metrics, AllocError> {
        let mut counts = Vec::with_capacity(alloc, filters)?;
        for _ in 0..filters {
            counts.push(FilterCounts::new(alloc))?;
        }
        Ok(Metrics {
            alloc,
            verdicts: [0; VERDICTS.len()],
            faults: StatusCounts::new(),
            filters: counts,
            accepted: 0,
            refused_connections: 0,
            open: 0,
            most_open: 0,
            limit: 0,
            full: 0,
            closed: [0; REASONS.len()],
            responses_accepted: 0,
            responses_refused: 0,
            admissions: Histogram::new(),
            slowest: Slowest::new(alloc),
            stream_up: false,
            control_errors: 0,
            dropped_lines: 0,
            recent: Recent::new(alloc)?,
        })
    }

    /// A filter has new policies, so many: their matches are counted from 0 on. After an error nothing has changed.
    pub fn set_policies(&mut self, filter: usize, policies: usize) -> Result<(), AllocError> {
        let matches = zeros(self.alloc, policies)?;
        if let Some(counts) = self.filters.get_mut(filter) {
            counts.set_matches(matches);
        }
        Ok(())
    }

    /// A request was judged. In place i of `matches` is the number of the policy that matched in filter i.
    pub fn decided(&mut self, verdict: Verdict, matches: &[Option<usize>]) {
        count_in(&mut self.verdicts, verdict.place());
        self.recent.decided(verdict);
        if let Verdict::Fault(status) = verdict {
            self.faults.add(status);
        }
        for (counts, matched) in self.filters.iter_mut().zip(matches) {
            if let Some(policy) = matched {
                counts.matched(*policy);
            }
        }
    }

    /// The conditions of a filter took so many steps for one request.
    pub fn steps(&mut self, filter: usize, steps: u64) {
        if let Some(counts) = self.filters.get_mut(filter) {
            counts.steps.add(steps);
        }
    }

    /// A connection was accepted.
    pub fn accepted(&mut self) {
        self.accepted = self.accepted.saturating_add(1);
    }

    /// No connection could be accepted, though one waited.
    pub fn refused_connection(&mut self) {
        self.refused_connections = self.refused_connections.saturating_add(1);
    }

    /// A connection is served from now on.
    pub fn opened(&mut self)
        ensures opens { self.new.open ≡ raised self.old.open 1 }
        ensures full { self.new.full ≡ full_after self.old.limit self.new.open self.old.full }
    {
        self.open = self.open.saturating_add(1);
        self.most_open = self.most_open.max(self.open);
        if takes_last(self.open, self.limit) {
            self.full = self.full.saturating_add(1);
        }
    }

    /// So many connections may be open at once.
    pub fn set_limit(&mut self, connections: u64)
        ensures { self.new ≡ record self.old { limit = connections } }
    {
        self.limit = connections;
    }

    /// How many connections may be open at once; 0 if that is not known.
    pub fn limit(&self) -> u64
        ensures { result ≡ self.now.limit }
    {
        self.limit
    }

    /// How often the last place was taken.
    pub fn full(&self) -> u64
        ensures { result ≡ self.now.full }
    {
        self.full
    }

    /// A connection is no longer served.
    pub fn closed(&mut self, why: Closed) {
        self.open = self.open.saturating_sub(1);
        count_in(&mut self.closed, why.place());
    }

    /// A response of the control plane was judged, in so many microseconds.
    pub fn response(&mut self, accepted: bool, microseconds: u64) {
        match accepted {
            true => self.responses_accepted = self.responses_accepted.saturating_add(1),
            false => self.responses_refused = self.responses_refused.saturating_add(1),
        }
        self.admissions.add(microseconds);
    }

    /// Keeps the version of a response if it is among the ten that took longest; `time` is in milliseconds since 1970.
    pub fn admission(
        &mut self,
        version: &str,
        time: u64,
        microseconds: u64,
    ) -> Result<(), AllocError> {
        self.slowest.offer(self.alloc, version, time, microseconds)
    }

    /// Whether the control plane can be reached and its file can be read, and how often either failed.
    pub fn set_control(&mut self, is_up: bool, errors: u64)
        ensures { self.new ≡ record self.old { stream_up = is_up; control_errors = errors } }
    {
        self.stream_up = is_up;
        self.control_errors = errors;
    }

    /// So many lines of a log were dropped.
    pub fn dropped_lines(&mut self, lines: u64) {
        self.dropped_lines = self.dropped_lines.saturating_add(lines);
    }

    /// Says what time it is, in milliseconds since a fixed time, for the verdicts of the last minutes.
    pub fn tick(&mut self, now: u64) {
        self.recent.tick(now);
    }
}

// Whether the last of so many open connections took the last place. A limit of 0 is not known.
fn takes_last(count: u64, limit: u64) -> bool
    ensures { result ≡ takes_last count limit }
{
    limit > 0 && limit <= count
}
