//! The sockets of a server: its listeners, its admin port, its control plane, and the end of its standard input.
//!
//! Nothing here waits but `Sockets::wait`. Events come at changes alone. So whoever uses a stream or a listener that is
//! ready goes on until it says `WouldBlock`.
#![tactic(auto)]

mod accepted;
mod call_end;
mod call_fields;
mod control;
mod event;
mod fault;
mod file;
mod frame;
mod grpc;
mod inherited;
mod input;
mod link;
mod listener;
mod listeners;
mod nonblocking;
mod places;
mod sockets;
mod stream;
mod tcp;
mod turn;
mod unix_path;

pub use accepted::Accepted;
pub use event::Ready;
pub use fault::OpenFault;
pub use file::{FileStream, Look, MOST_CONTENTS};
pub use grpc::GrpcStream;
pub use nonblocking::unblock;
pub use places::Places;
pub use sockets::Sockets;
pub use stream::NetStream;
pub use tcp::TcpLink;
