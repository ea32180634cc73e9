//! HTTP/2 (RFC 9113) in cleartext with prior knowledge. It has frames in any cutting, a client with one call of gRPC, and servers of
//! one call and of unary calls.
//!
//! A [`Tunnel`] has no socket and no clock. Its caller moves bytes, in turns:
//!
//! 1. `out` has bytes for the peer: it writes the first of them, and calls `sent` and then `work`.
//! 2. The peer sent bytes: it gives them to `receive`, again until all are taken. If none is taken, it goes on with 1.
//! 3. `data` has bytes for the core: it hands them on, and calls `take`.
//! 4. The core has bytes: it gives them to `say`, and keeps those that were not taken.
//! 5. `end` says why the call is over: it hands on what `data` has, writes what `out` has, and closes the connection.
//!
//! `finish` says that the core has no more, `cancel` gives the call up. A caller that wants to notice a peer that vanished
//! calls `ping` with the time: `ping_waits` has it until the peer has acknowledged.
//!
//! A [`Server`] is used the same way. Once `request` has the request's fields, its caller gives `answer` the fields that begin
//! the answer. At the end it gives `finish` those that end it. `over` says why the call is over.
//!
//! A [`UnaryServer`] has many calls on one connection. `receive` and `work` look at the client's frames and answer those, give the
//! connection's window back, and say why it ends. They never write an answer of a call: `answer`, `say` and `finish` do.
#![tactic(auto)]

mod accounts;
mod acting;
mod answer;
mod answering;
mod check;
mod control;
mod cut;
mod end;
mod exchange;
mod fault;
mod fields;
mod first_words;
mod frame;
mod gathering;
pub mod laws;
mod message;
mod news;
mod opening;
mod over;
mod pipe;
mod queue;
mod request;
mod requests;
mod server;
mod serving;
mod stream;
mod streams;
mod tunnel;
mod unary;
mod unary_frames;
mod wire;
mod written;

pub use cut::first_frame;
pub use end::End;
pub use fault::{Code, Fault};
pub use first_words::WINDOW;
pub use frame::Frame;
pub use over::Over;
pub use request::is_call;
pub use server::Server;
pub use serving::Phase;
pub use stream::{Call, Request};
pub use tunnel::{PENDING, Tunnel};
pub use unary::{Answering, UnaryServer};
