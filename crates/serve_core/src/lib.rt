//! The core as the service of a server's loop: each event that the loop takes is a turn of a worker. Requests may be
//! those of front proxies, which give those of clients.
#![tactic(auto)]

mod events;
mod front_answer;
mod front_connection;
mod front_faults;
mod fronts;
mod judging;
mod last_event;
pub mod laws;
mod mapped_service;
mod other_protocol;
mod rule;
mod served;
mod steps;
mod unjudged;
mod worker_service;

pub use front_answer::{ClientRequest, FrontAnswer};
pub use last_event::LastEvent;
pub use mapped_service::MappedService;
pub use other_protocol::OtherProtocol;
pub use rule::MappingRule;
pub use served::Served;
pub use unjudged::Unjudged;
pub use worker_service::WorkerService;
