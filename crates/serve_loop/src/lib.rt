//! The loop of a server: it moves bytes between the streams of a network and a service, and observers see each event. What
//! is on the wire is what the service took and what it answered, in order.
#![tactic(auto)]

mod attempt;
mod board;
mod both;
mod connection;
mod flow;
mod idle;
pub mod laws;
mod network;
mod observer;
mod parties;
mod places;
mod server;
mod service;
mod settings;
mod stream;
mod times;
mod updates;
mod upkeep;

pub use attempt::Attempt;
pub use board::Board;
pub use both::Both;
pub use network::{Network, Ready, Waited};
pub use observer::{Failed, Observer};
pub use server::Server;
pub use service::{Outcome, Service};
pub use settings::Settings;
pub use stream::{CloseReason, Event, Stream};
pub use times::earliest;
pub use upkeep::Upkeep;
