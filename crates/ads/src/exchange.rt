//! What a control plane received and what it sent for it, for a log.

/// A request that a control plane received, and the response that it sent for it.
#[derive(Debug, Drop)]
pub struct Exchange {
    /// The request's version.
    pub version: String,
    /// The request's nonce: that of the response that it answers. Empty if it answers none.
    pub nonce: String,
    /// What the request says.
    pub meaning: RequestMeaning,
    /// The response that was sent for it.
    pub sent: Option<Sent>,
}

/// What a request says.
#[derive(Debug, Drop)]
pub enum RequestMeaning {
    /// It asks for resources, and answers no response.
    Asks,
    /// It accepts a response.
    Accepts,
    /// It refuses a response, with this text.
    Refuses(String),
}

/// A response that was sent.
#[derive(Clone, Copy, PartialEq, Eq, Debug)]
pub struct Sent {
    /// Its version: the number of its snapshot.
    pub snapshot: u64,
    /// Its nonce: how many responses were sent with it.
    pub count: u64,
}
