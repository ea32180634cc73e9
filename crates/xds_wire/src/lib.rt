//! The contents of the update stream: messages in frames, and the discovery messages.
#![tactic(auto)]

mod any;
mod cut;
mod extension;
mod fault;
mod frames;
mod head;
pub mod laws;
mod message;
mod node;
mod request;
mod response;
mod state;
mod status;
mod texts;
mod writing;

pub use any::Any;
pub use extension::{TypedExtensionConfig, read_extension, write_extension};
pub use fault::{FrameError, FrameFault};
pub use frames::{Frames, write_frame};
pub use message::Message;
pub use node::Node;
pub use request::{DiscoveryRequest, read_request, write_request};
pub use response::{DiscoveryResponse, read_response, write_response};
pub use status::Status;
