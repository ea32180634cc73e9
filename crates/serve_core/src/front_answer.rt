//! What is answered to a front proxy.
ghost use Rattle.std.specs.Prelude.{◌≡◌};
ghost use Rattle.http_front.specs.Answer.{reply_view};
ghost use Rattle.serve_core.specs.Fronts.{reply_in};

use crate::unjudged::Unjudged;
use attributes::Conn;
use http_front::Reply;
use proxy_core::AnsweredAsk;

/// The request of a client, as the core was given it, and its answer.
#[derive(Debug, Drop)]
pub struct ClientRequest {
    /// The facts of the client's connection.
    pub conn: Conn,
    /// The head of its request. It is empty if the facts are outside the limits: then the core was given no byte.
    pub head: String,
    /// What the head asks, and the core's own reply.
    pub answered_ask: AnsweredAsk,
}

/// The answer to a request of a front proxy.
#[derive(Debug, Drop)]
pub enum FrontAnswer {
    /// The core's, to the request of a client.
    Judged(ClientRequest),
    /// That of a request that is not judged.
    Unjudged(Unjudged, Reply),
}

impl FrontAnswer {
    /// The reply.
    pub fn reply(&self) -> &Reply
        ensures { reply_view result.now ≡ reply_in self.now }
    {
        match self {
            FrontAnswer::Judged(request) => &request.answered_ask.reply,
            FrontAnswer::Unjudged(_, reply) => reply,
        }
    }
}
