//! A worker under a loop that reads and writes by itself: what waits, what was sent, and how much may be read.
ghost use Rattle.std.specs.Prelude.{◌≡◌, ◌≢◌, ◌<◌, ◌≤◌, ℕ, List, [], length, take, is_some, IfOk, OnErr, OnOk};
ghost use Rattle.ads.specs.Client.{CompletesOne};
ghost use Rattle.proxy_core.specs.Events.{ads_bytes, ads_output};
ghost use Rattle.rbac_serve.specs.Tables.{waiting_at};
ghost use Rattle.rbac_serve.specs.Turns.{IsOneRequest, JudgesTurn, TurnDoes, Works, answer_sent, request_sent};
ghost use Rattle.rbac_serve.specs.Workers.{worker_view};

use crate::connection::ConnectionState;
use crate::outbox::Outbox;
use crate::places::{new_connection, put_connection};
use crate::results::Fed;
use crate::worker::Worker;
use std::alloc::AllocError;

impl Worker {
    /// The answers that wait for the connection in place `k`; none if there is no such place.
    pub fn answers(&self, k: usize) -> &[u8]
        ensures { result.now ≡ waiting_at k (worker_view self.now).answers }
    {
        match self.connections.get(k) {
            Some(connection) => connection.outbox.rest(),
            None => &[],
        }
    }

    /// So many bytes of the answers that wait for the connection in place `k` were sent. It takes no memory.
    pub fn sent(&mut self, k: usize, count: usize)
        requires { count ≤ length (waiting_at k (worker_view self.old).answers) }
        ensures { TurnDoes (worker_view self.old) (answer_sent k (take count (waiting_at k (worker_view self.old).answers)))
            (worker_view self.new) }
    {
        if k >= self.connections.len() {
            return;
        }
        let ConnectionState {
            session,
            mut outbox,
        } = put_connection(&mut self.connections, k, new_connection(self.alloc));
        outbox.drop_first(count);
        let _free = put_connection(
            &mut self.connections,
            k,
            ConnectionState { session, outbox },
        );
    }

    /// So many bytes of the request that waits were sent. It takes no memory.
    pub fn request_sent(&mut self, count: usize)
        requires { count ≤ length (worker_view self.old).requests }
        ensures { TurnDoes (worker_view self.old) (request_sent (take count (worker_view self.old).requests))
            (worker_view self.new) }
    {
        self.requests.drop_first(count);
    }

    /// How many bytes of the update stream may be read: so many that they complete at most one message, and none while a
    /// request waits.
    pub fn room(&self) -> usize
        ensures waits { (worker_view self.now).requests ≢ [] → result ≡ 0 }
        ensures some { (worker_view self.now).requests ≡ [] → 0 < result }
        ensures one { (bytes : List ℕ) → length bytes ≤ result → 0 < length bytes
            → CompletesOne (worker_view self.now).core.client bytes }
    {
        if self.has_request() {
            return 0;
        }
        self.client.lacks()
    }

    /// The update stream delivers bytes while no request waits, and all of them are taken. If they are at most `room`,
    /// they complete at most one message. If no stream is up, they are dropped. The only error is out of memory outside
    /// of an admission; after it all is as before the call.
    pub fn feed_all(&mut self, bytes: &[u8]) -> Result<Fed, AllocError>
        requires { (worker_view self.old).requests ≡ [] }
        ensures found { IfOk result (λ fed. Works (worker_view self.old) (ads_bytes bytes.now)
            (ads_output (worker_view self.new).requests (is_some fed.ended)) (worker_view self.new)) }
        ensures one { CompletesOne (worker_view self.old).core.client bytes.now
            → OnOk result (IsOneRequest (worker_view self.new).requests) }
        ensures judged { IfOk result (λ fed. JudgesTurn (worker_view self.old) bytes.now (length bytes.now)
            fed.judgements.items fed.ended (worker_view self.new)) }
        ensures count { IfOk result (λ fed. fed.count ≡ length bytes.now) }
        ensures fault { OnErr result (worker_view self.new ≡ worker_view self.old) }
    {
        if !self.client.is_up() {
            return Ok(Fed {
                count: bytes.len(),
                judgements: Vec::new(self.alloc),
                ended: None,
            });
        }
        let fed = self.client.feed(bytes)?;
        self.requests = Outbox::of(fed.replies);
        Ok(Fed {
            count: bytes.len(),
            judgements: fed.judgements,
            ended: fed.ended,
        })
    }
}
