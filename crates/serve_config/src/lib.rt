//! The settings of a server, as one JSON object.
#![tactic(auto)]

mod address;
mod addresses;
mod config;
mod fault;
mod grpc;
mod map;
mod meaning_text;
mod numbers;
mod object;
mod reading;

pub use address::{Address, ControlAddress};
pub use config::{AccessLog, Paths, Record, ServeConfig, Timeouts};
pub use fault::ServeConfigFault;
pub use grpc::{CallMethod, GrpcCall, Metadata};
pub use meaning_text::meaning;
pub use reading::read_serve_config;
