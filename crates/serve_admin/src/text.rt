//! Prometheus' text format.

use crate::histogram::{Histogram, LIMITS};
use crate::label::push_escaped;
use itoa::Buffer;
use std::alloc::{AllocError, Global};

/// The kind of a metric.
#[derive(Clone, Copy, PartialEq, Eq, Debug)]
pub(crate) enum Kind {
    Counter,
    Gauge,
    Histogram,
}

/// A label's name and its value.
pub(crate) type Label<'a> = (&'static str, &'a str);

/// A text with metrics.
#[derive(Debug, Drop)]
pub(crate) struct MetricsText {
    bytes: Vec<u8>,
}

impl MetricsText {
    pub(crate) fn new(alloc: Global) -> MetricsText {
        MetricsText {
            bytes: Vec::new(alloc),
        }
    }

    pub(crate) fn into_bytes(self) -> Vec<u8> {
        self.bytes
    }

    /// Adds what a metric is. Its samples follow.
    pub(crate) fn family(&mut self, name: &str, kind: Kind, help: &str) -> Result<(), AllocError> {
        let kind = match kind {
            Kind::Counter => " counter\n",
            Kind::Gauge => " gauge\n",
            Kind::Histogram => " histogram\n",
        };
        for piece in ["# HELP ", name, " ", help, "\n# TYPE ", name, kind] {
            self.push(piece)?;
        }
        Ok(())
    }

    /// Adds a sample.
    pub(crate) fn sample(
        &mut self,
        name: &str,
        labels: &[Label<'_>],
        value: u64,
    ) -> Result<(), AllocError> {
        self.named(name, labels)?;
        self.number(value)?;
        self.push("\n")
    }

    /// Adds a metric of one sample.
    pub(crate) fn single(
        &mut self,
        name: &str,
        kind: Kind,
        help: &str,
        value: u64,
    ) -> Result<(), AllocError> {
        self.family(name, kind, help)?;
        self.sample(name, &[], value)
    }

    /// Adds a sample whose value is in millionths.
    pub(crate) fn millionths(
        &mut self,
        name: &str,
        labels: &[Label<'_>],
        value: u64,
    ) -> Result<(), AllocError> {
        self.named(name, labels)?;
        self.number(value / 1_000_000)?;
        self.push(".")?;
        let mut below = value % 1_000_000;
        for unit in [100_000u64, 10_000, 1_000, 100, 10, 1] {
            self.number(below / unit)?;
            below %= unit;
        }
        self.push("\n")
    }

    /// Adds the buckets of a histogram and the count of its numbers. The name ends with `_bucket` or `_count` there.
    pub(crate) fn buckets(
        &mut self,
        names: HistogramNames,
        labels: &[Label<'_>],
        histogram: &Histogram,
    ) -> Result<(), AllocError> {
        let mut below = 0u64;
        for (limit, count) in names.limits.iter().zip(histogram.counts()) {
            below = below.saturating_add(*count);
            match labels.first() {
                Some(label) => self.sample(names.bucket, &[*label, ("le", *limit)], below)?,
                None => self.sample(names.bucket, &[("le", *limit)], below)?,
            }
        }
        self.sample(names.count, labels, histogram.count())
    }

    // Adds a name with labels, and a space.
    fn named(&mut self, name: &str, labels: &[Label<'_>]) -> Result<(), AllocError> {
        self.push(name)?;
        let mut before = "{";
        for (label, value) in labels {
            self.push(before)?;
            self.push(label)?;
            self.push("=\"")?;
            push_escaped(&mut self.bytes, value)?;
            self.push("\"")?;
            before = ",";
        }
        match labels.is_empty() {
            true => self.push(" "),
            false => self.push("} "),
        }
    }

    fn number(&mut self, value: u64) -> Result<(), AllocError> {
        self.push(Buffer::new().format(value))
    }

    fn push(&mut self, piece: &str) -> Result<(), AllocError> {
        self.bytes.extend_from_slice(piece.as_bytes())
    }
}

/// The names of a histogram's samples.
#[derive(Clone, Copy, Debug)]
pub(crate) struct HistogramNames {
    pub(crate) bucket: &'static str,
    pub(crate) count: &'static str,
    pub(crate) sum: &'static str,
    /// The limits of the buckets.
    pub(crate) limits: [&'static str; LIMITS.len() + 1],
}
