//! What the page shows, as JSON.

use crate::metrics::Metrics;
use crate::recent::BUCKET_TIME;
use crate::slowest::Admission;
use crate::status::Status;
use serde::Serialize;
use std::alloc::{AllocError, Global};

// The places of the verdicts that are neither allow nor deny.
const OTHERS: [usize; 4] = [2, 3, 4, 5];

// What the page shows.
#[derive(Drop, Serialize)]
struct PageData<'a> {
    ready: bool,
    status: &'a Status,
    // How often each policy matched, by filter and number.
    matches: Vec<&'a [u64]>,
    recent: RecentData,
    slowest: &'a [Admission],
    open: u64,
    most_open: u64,
}

// The verdicts of the last minutes, the oldest bucket first.
#[derive(Drop, Serialize)]
struct RecentData {
    // The milliseconds of a bucket.
    bucket: u64,
    allow: Vec<u64>,
    deny: Vec<u64>,
    other: Vec<u64>,
}

/// What the page shows, as JSON.
pub(crate) fn page_data(
    alloc: Global,
    metrics: &Metrics,
    status: &Status,
) -> Result<Vec<u8>, AllocError> {
    let mut matches = Vec::with_capacity(alloc, metrics.filters.len())?;
    for filter in &metrics.filters {
        matches.push(filter.matches())?;
    }
    let recent = RecentData {
        bucket: BUCKET_TIME,
        allow: metrics.recent.counts(alloc, &[0])?,
        deny: metrics.recent.counts(alloc, &[1])?,
        other: metrics.recent.counts(alloc, &OTHERS)?,
    };
    let data = PageData {
        ready: status.is_ready(),
        status,
        matches,
        recent,
        slowest: metrics.slowest.admissions(),
        open: metrics.open,
        most_open: metrics.most_open,
    };
    json_of(alloc, &data)
}

/// A value as JSON. Only memory can fail.
pub(crate) fn json_of<T: Serialize>(alloc: Global, value: &T) -> Result<Vec<u8>, AllocError> {
    serde_json::to_vec(alloc, value).map_err(|_| AllocError)
}
