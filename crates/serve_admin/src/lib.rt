//! The admin port of a server that judges requests: its counters and its status, and the answers to HTTP requests for
//! them. The caller moves the bytes.
//!
//! The owner has one `Admin`, counts in its `metrics` and writes its `status`. Each connection to the port is an
//! `AdminConnection`. The owner feeds it what it reads, takes the action after each piece, and sends the output. A
//! connection answers one request. The owner closes it once it is done, or takes too long.
//!
//! - `/healthz`: 200.
//! - `/ready`: 200 if each filter has policies and the server does not drain, else 503 with the reason.
//! - `/config`: the status as JSON.
//! - `/metrics`: the counters in Prometheus' text format.
//! - `/`: a page for a browser, which reads `/page.json`.
//! - `/drain` and `/reopen`: with POST 200, and an `AdminAction` for the owner.
//!
//! A request is refused with 403 if a host that it names is neither an IP address nor a loopback name. So is one that asks
//! for an action from a page of another site.
#![tactic(auto)]

mod admin;
mod connection;
mod counter;
mod exposition;
mod faults;
mod filter_counts;
mod guard;
mod histogram;
mod label;
pub mod laws;
mod metrics;
mod page;
mod page_data;
mod page_script;
mod page_style;
mod recent;
mod reply;
mod route;
mod slowest;
mod status;
mod text;
mod verdict;

pub use admin::Admin;
pub use connection::AdminConnection;
pub use histogram::bucket_of;
pub use label::push_escaped;
pub use metrics::Metrics;
pub use route::AdminAction;
pub use status::{FilterStatus, PoliciesStatus, RefusalStatus, Status, StreamStatus};
pub use verdict::{Closed, Verdict};
