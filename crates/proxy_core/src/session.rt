//! A connection that is open, beside the client that it shares with others.

ghost use Rattle.std.specs.Prelude.{◌≡◌, ◌↔◌, [], IfOk, IfSome, IsOk, IsTrue};
ghost use Rattle.attributes.specs.Conn.{conn_view};
ghost use Rattle.attributes.specs.Limits.{FactsInLimits};
ghost use Rattle.ads.specs.Ends.{client_view};
ghost use Rattle.http_front.specs.Heads.{reading, rest_of_body};
ghost use Rattle.proxy_core.specs.Step.{OpensFront, AnswersBytes};

use crate::answered_ask::AnsweredAsk;
use crate::answering::{open_front, take_bytes};
use crate::step::kept_by;
use ads::Client;
use attributes::Conn;
use http_front::Front;
use std::alloc::{AllocError, Global};
use std::marker::Model;

/// A connection that is open. Its owner keeps it with the socket. Any number of connections share a client.
#[derive(Drop)]
pub struct Session {
    front: Front,
}

impl Model for Session {
    ghost use Rattle.std.specs.Prelude.{◌≡◌, false};
    ghost use Rattle.http_front.specs.Front.{FrontValue};
    ghost use Rattle.http_front.specs.Heads.{is_closed};

    ghost Value = { FrontValue };

    ghost view = { λ session. session.front };

    ghost invariant = { λ session. is_closed session.front.kept ≡ false };
}

impl Session {
    /// A connection opens with these facts; none if they are outside the client's limits: then close it. In that case
    /// no memory is taken.
    pub fn open(alloc: Global, client: &Client, conn: &Conn) -> Result<Option<Session>, AllocError>
        ensures found { IfOk result (OpensFront (client_view client.now).config.limits (conn_view conn.now)) }
        ensures limits { IfOk result (λ s. IfSome s (λ s. s.limits ≡ (client_view client.now).config.limits)) }
        ensures unfit { (FactsInLimits (conn_view conn.now) (client_view client.now).config.limits → ⊥)
            → IsOk result }
    {
        let Some(front) = open_front(alloc, client, conn)? else {
            return Ok(None);
        };
        Ok(Some(Session { front }))
    }

    /// The connection delivers bytes. Returns the answers to send, and the connection; none if it is to be closed after
    /// the answers. A request that is completed is judged by what the client has accepted. The client's limits are those
    /// that the connection was opened with. After an error the connection is gone, and nothing is to be sent.
    /// Also returns what was asked and answered, for a log.
    pub fn take(
        self,
        alloc: Global,
        client: &Client,
        bytes: &[u8],
    ) -> Result<(Vec<u8>, Option<Session>, Vec<AnsweredAsk>), AllocError>
        requires { self.limits ≡ (client_view client.now).config.limits }
        ensures limits { IfOk result (λ r. IfSome r.1 (λ s. s.limits ≡ (client_view client.now).config.limits)) }
        ensures found { IfOk result (λ r. AnswersBytes (client_view client.now).accepted self bytes.now
            r.2.items r.0.items r.1) }
    {
        let Session { mut front } = self;
        if kept_by(&mut front, bytes)? {
            return Ok((Vec::new(alloc), Some(Session { front }), Vec::new(alloc)));
        }
        let (answers, front, answered_asks) = take_bytes(alloc, client, front, bytes)?;
        let Some(front) = front else {
            return Ok((answers, None, answered_asks));
        };
        Ok((answers, Some(Session { front }), answered_asks))
    }

    /// Whether it is as a new one with its facts is: each byte so far belongs to a request that was answered.
    pub fn is_fresh(&self) -> bool
        ensures { IsTrue result ↔ (self.now.kept ≡ reading 0 []) }
    {
        self.front.is_fresh()
    }

    /// How many bytes are still to come of the body of a request that was answered; 0 if none is.
    pub fn rest_of_body(&self) -> u64
        ensures { result ≡ rest_of_body self.now.kept }
    {
        self.front.rest_of_body()
    }
}
