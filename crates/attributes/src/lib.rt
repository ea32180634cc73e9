//! Requests as values, with their limits, their attributes and the addresses of their connections.
#![tactic(auto)]

mod address;
mod attribute;
mod conn;
mod draft;
mod headers;
pub mod laws;
mod limits;
mod lookup;
mod part;
mod protocol;
mod request;

pub use address::{Cidr, Ip, parse_ip};
pub use attribute::{AttrId, AttrType, AttrValue, attr_named, attr_type};
pub use conn::{Conn, server_name};
pub use draft::{Draft, Room};
pub use limits::{Limit, LimitFault, Limits};
pub use lookup::{Header, Headers};
pub use protocol::Protocol;
pub use request::{Request, request_is_sound};
