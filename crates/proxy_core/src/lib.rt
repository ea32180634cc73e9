//! The core of the proxy: events go in, and what is to be sent comes out. It has no socket, thread or clock. A `Proxy` has
//! up to eight connections. A server with any number keeps a `Client`, and a `Session` for each connection.
#![tactic(auto)]

mod answered_ask;
mod answering;
mod chain;
mod event;
pub mod laws;
mod proxy;
mod session;
mod step;

pub use ads::{Client, Config, ConfigFault, Ended, Fed, Filter, Judgement};
pub use answered_ask::AnsweredAsk;
pub use attributes::{Conn, Ip, Limit, LimitFault, Limits, Request, parse_ip};
pub use event::{Event, Output};
pub use http_front::{Ask, Case, HeadFault, HeadPart, Reply};
pub use proxy::Proxy;
pub use session::Session;
