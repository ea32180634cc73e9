//! Events, and the outputs of the core.

use attributes::Conn;

/// An event for the core: each event is one step.
#[derive(Debug, Drop)]
pub enum Event<'a> {
    /// The update stream comes up. If a stream is up already, it is lost first.
    AdsUp,
    /// The update stream delivers these bytes.
    AdsBytes(&'a [u8]),
    /// The update stream is lost.
    AdsLost,
    /// A connection of this number, 0 to 7, opens with these facts. If one is open under the number, it is closed
    /// first.
    HttpOpen(u64, &'a Conn),
    /// The connection of this number delivers these bytes.
    HttpBytes(u64, &'a [u8]),
    /// The connection of this number is closed.
    HttpClosed(u64),
}

/// What to do after an event.
#[derive(Debug, Drop)]
pub struct Output {
    /// The bytes to send on the update stream.
    pub ads: Vec<u8>,
    /// Whether to close the update stream after these bytes. The core then counts it as lost.
    pub ads_close: bool,
    /// The bytes to send on the event's own connection.
    pub http: Vec<u8>,
    /// Whether to close that connection after these bytes. The core then counts it as closed.
    pub http_close: bool,
}
