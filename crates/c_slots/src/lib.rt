//! Room in a C program's memory for an admitted filter, a chain of filters, a connection, a request, and a proxy's core.
#![tactic(auto)]

mod chain_slot;
mod conn_slot;
mod filter_slot;
pub mod laws;
mod proxy_slot;
mod request_slot;

pub use chain_slot::{Chain, ChainSlot};
pub use conn_slot::{ConnSlot, Opened};
pub use filter_slot::FilterSlot;
pub use proxy_slot::{Core, ProxySlot};
pub use request_slot::{Made, RequestSlot};
