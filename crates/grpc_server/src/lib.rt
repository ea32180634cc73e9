//! A call of gRPC over HTTP/2 with prior knowledge, as the two ends of a stream.
//!
//! `call_on` makes both ends of the first call on a link. What they give and take are gRPC's messages, each with its head. The
//! answer begins once the request came, and ends after the client's last message, or by `end`.
//!
//! For a server of unary calls, `message_in` has the message of a call's content, and a `Reply` writes its answer.
#![tactic(auto)]

mod answer;
mod call;
mod ends;
mod message;
mod reply;

pub use ends::{CallReader, CallWriter, call_on};
pub use message::{StatusCode, content_of, message_in};
pub use reply::{Reply, Written};
