//! The counters and the status in Prometheus' text format.

use crate::filter_counts::FilterCounts;
use crate::metrics::Metrics;
use crate::status::{FilterStatus, Status};
use crate::text::{HistogramNames, Kind, MetricsText};
use crate::verdict::{REASONS, VERDICTS};
use itoa::Buffer;
use std::alloc::{AllocError, Global};

const REQUESTS_HELP: &str = "Requests that were judged, by verdict.";

const FAULTS_HELP: &str = "Requests whose head has a fault, by the status of the answer.";

const STEPS_HELP: &str =
    "Steps that the conditions of a filter took for one request, of a sample of the requests.";

const MATCHES_HELP: &str =
    "Requests that a policy matched, by filter and policy; from 0 again once the policies of the filter are replaced.";

const STEPS: HistogramNames = HistogramNames {
    bucket: "rbacd_condition_steps_bucket",
    count: "rbacd_condition_steps_count",
    sum: "rbacd_condition_steps_sum",
    limits: [
        "1",
        "10",
        "100",
        "1000",
        "10000",
        "100000",
        "1000000",
        "10000000",
        "100000000",
        "+Inf",
    ],
};

const ADMISSION: HistogramNames = HistogramNames {
    bucket: "rbacd_admission_seconds_bucket",
    count: "rbacd_admission_seconds_count",
    sum: "rbacd_admission_seconds_sum",
    limits: [
        "0.000001", "0.00001", "0.0001", "0.001", "0.01", "0.1", "1", "10", "100", "+Inf",
    ],
};

/// The counters and the status of a server as a text.
pub(crate) fn exposition(
    alloc: Global,
    metrics: &Metrics,
    status: &Status,
) -> Result<Vec<u8>, AllocError> {
    let mut text = MetricsText::new(alloc);
    add_requests(&mut text, metrics)?;
    add_filters(&mut text, metrics, status)?;
    add_connections(&mut text, metrics)?;
    add_updates(&mut text, metrics)?;
    add_silence(&mut text, status)?;
    add_server(&mut text, metrics, status)?;
    Ok(text.into_bytes())
}

fn add_requests(text: &mut MetricsText, metrics: &Metrics) -> Result<(), AllocError> {
    let name = "rbacd_requests_total";
    text.family(name, Kind::Counter, REQUESTS_HELP)?;
    for (word, count) in VERDICTS.iter().zip(&metrics.verdicts) {
        text.sample(name, &[("verdict", *word)], *count)?;
    }
    let name = "rbacd_head_faults_total";
    text.family(name, Kind::Counter, FAULTS_HELP)?;
    for (status, count) in metrics.faults.places() {
        if *count > 0 {
            text.sample(name, &[("status", Buffer::new().format(*status))], *count)?;
        }
    }
    if metrics.faults.others() > 0 {
        text.sample(name, &[("status", "other")], metrics.faults.others())?;
    }
    Ok(())
}

fn add_filters(
    text: &mut MetricsText,
    metrics: &Metrics,
    status: &Status,
) -> Result<(), AllocError> {
    text.family("rbacd_matches_total", Kind::Counter, MATCHES_HELP)?;
    for (filter, counts) in status.filters.iter().zip(&metrics.filters) {
        add_matches(text, filter, counts)?;
    }
    text.family("rbacd_condition_steps", Kind::Histogram, STEPS_HELP)?;
    for (filter, counts) in status.filters.iter().zip(&metrics.filters) {
        let labels = [("filter", filter.name.as_str())];
        text.buckets(STEPS, &labels, &counts.steps)?;
        text.sample(STEPS.sum, &labels, counts.steps.sum())?;
    }
    Ok(())
}

fn add_matches(
    text: &mut MetricsText,
    filter: &FilterStatus,
    counts: &FilterCounts,
) -> Result<(), AllocError> {
    let Some(policies) = &filter.policies else {
        return Ok(());
    };
    for (policy, count) in policies.names.iter().zip(counts.matches()) {
        let labels = [
            ("filter", filter.name.as_str()),
            ("policy", policy.as_str()),
        ];
        text.sample("rbacd_matches_total", &labels, *count)?;
    }
    Ok(())
}

fn add_connections(text: &mut MetricsText, metrics: &Metrics) -> Result<(), AllocError> {
    let help = "Connections that are open.";
    text.single("rbacd_connections_open", Kind::Gauge, help, metrics.open)?;
    let help = "The greatest number of connections that were open at once.";
    text.single(
        "rbacd_connections_open_greatest",
        Kind::Gauge,
        help,
        metrics.most_open,
    )?;
    add_limit(text, metrics)?;
    let help = "Connections that were accepted.";
    text.single(
        "rbacd_connections_accepted_total",
        Kind::Counter,
        help,
        metrics.accepted,
    )?;
    let help = "Connections that could not be accepted.";
    let refused = metrics.refused_connections;
    text.single(
        "rbacd_connections_refused_total",
        Kind::Counter,
        help,
        refused,
    )?;
    let name = "rbacd_connections_closed_total";
    text.family(name, Kind::Counter, "Connections that ended, by reason.")?;
    for (word, count) in REASONS.iter().zip(&metrics.closed) {
        text.sample(name, &[("reason", *word)], *count)?;
    }
    Ok(())
}

fn add_limit(text: &mut MetricsText, metrics: &Metrics) -> Result<(), AllocError> {
    let help = "The greatest number of connections that may be open at once.";
    text.single("rbacd_connections_limit", Kind::Gauge, help, metrics.limit)?;
    let help = "How often the last place for a connection was taken.";
    text.single(
        "rbacd_connections_full_total",
        Kind::Counter,
        help,
        metrics.full,
    )
}

fn add_updates(text: &mut MetricsText, metrics: &Metrics) -> Result<(), AllocError> {
    let help = "1 while the update stream is up, else 0.";
    text.single(
        "rbacd_stream_up",
        Kind::Gauge,
        help,
        u64::from(metrics.stream_up),
    )?;
    let help = "Failed tries to reach the control plane, or to look at its file.";
    text.single(
        "rbacd_control_errors_total",
        Kind::Counter,
        help,
        metrics.control_errors,
    )?;
    let name = "rbacd_responses_total";
    text.family(
        name,
        Kind::Counter,
        "Responses of the control plane, by result.",
    )?;
    text.sample(name, &[("result", "accepted")], metrics.responses_accepted)?;
    text.sample(name, &[("result", "refused")], metrics.responses_refused)?;
    let help = "Seconds that it took to judge a response of the control plane.";
    text.family("rbacd_admission_seconds", Kind::Histogram, help)?;
    text.buckets(ADMISSION, &[], &metrics.admissions)?;
    text.millionths(ADMISSION.sum, &[], metrics.admissions.sum())?;
    let name = "rbacd_admission_greatest_seconds";
    text.family(
        name,
        Kind::Gauge,
        "The greatest time that it took to judge a response.",
    )?;
    text.millionths(name, &[], metrics.admissions.greatest())
}

fn add_silence(text: &mut MetricsText, status: &Status) -> Result<(), AllocError> {
    let name = "rbacd_control_silence_seconds";
    let help = "Seconds since the control plane was heard.";
    text.family(name, Kind::Gauge, help)?;
    text.millionths(name, &[], status.control_silence.saturating_mul(1_000))
}

fn add_server(
    text: &mut MetricsText,
    metrics: &Metrics,
    status: &Status,
) -> Result<(), AllocError> {
    let help = "Lines of logs that were dropped.";
    text.single(
        "rbacd_log_lines_dropped_total",
        Kind::Counter,
        help,
        metrics.dropped_lines,
    )?;
    let help = "Memory that the server takes, in bytes.";
    text.single(
        "rbacd_resident_memory_bytes",
        Kind::Gauge,
        help,
        status.resident_memory,
    )?;
    let help = "How often the policies were replaced.";
    text.single("rbacd_generation", Kind::Gauge, help, status.generation)?;
    let help = "When the server was started, in seconds since 1970.";
    text.single(
        "rbacd_start_time_seconds",
        Kind::Gauge,
        help,
        status.started / 1_000,
    )?;
    let help =
        "1 while the server is ready: policies, a control plane that is heard, no draining. Else 0.";
    text.single(
        "rbacd_ready",
        Kind::Gauge,
        help,
        u64::from(status.is_ready()),
    )
}
