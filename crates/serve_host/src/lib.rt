//! A server as a process, over its sockets, its logs and its admin port.
#![tactic(auto)]

mod admin_port;
mod admin_stream;
mod descriptors;
mod errors;
mod facts;
mod fault;
mod history;
mod loop_settings;
mod network;
mod piece;
mod process;
mod request_reader;
mod serving;
mod streams;
mod upkeep;

pub use fault::HostFault;
pub use network::HostNetwork;
pub use process::{open_network, serve_on};
pub use serving::EndedServer;
