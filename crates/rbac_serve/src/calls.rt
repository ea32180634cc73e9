//! The events of a worker, and the writes of what waits.

ghost use Rattle.std.specs.Prelude.{◌≡◌, ◌≢◌, ◌<◌, ◌≤◌, ◌↔◌, ℕ, List, [], length, take, false, is_some, IfOk, OnOk, OnErr, IsTrue};
ghost use Rattle.std.specs.Io.KnownBytes.{Appends};
ghost use Rattle.attributes.specs.Conn.{conn_view};
ghost use Rattle.ads.specs.Ends.{client_view};
ghost use Rattle.proxy_core.specs.Events.{ads_bytes, ads_lost, ads_output, ads_up, http_closed, http_open, http_output, no_output};
ghost use Rattle.proxy_core.specs.Step.{front_at};
ghost use Rattle.rbac_serve.specs.Tables.{IsFresh, body_at, closed_at, new_worker, waiting_at};
ghost use Rattle.rbac_serve.specs.Turns.{FeedsTurn, JudgesTurn, AnswersTurn, TurnDoes, Works, answer_sent, request_sent};
ghost use Rattle.rbac_serve.specs.Workers.{worker_view};

use crate::connection::ConnectionState;
use crate::outbox::{Outbox, Sent};
use crate::places::{answer_connection, new_connection, new_connections, put_connection};
use crate::results::{Answered, Fed};
use crate::worker::Worker;
use ads::{Client, Config};
use attributes::Conn;
use proxy_core::Session;
use std::alloc::{AllocError, Global};
use std::io::Write;

impl Worker {
    /// A worker with so many places, in which no connection is open. Its update stream is down.
    pub fn new(alloc: Global, config: &Config, places: usize) -> Result<Worker, AllocError>
        ensures { IfOk result (λ w. worker_view w ≡ new_worker places config.now) }
    {
        let client = Client::new(alloc, config)?;
        Ok(Worker {
            alloc,
            client,
            connections: new_connections(alloc, places)?,
            requests: Outbox::new(alloc),
        })
    }

    /// The client of the update stream.
    pub fn client(&self) -> &Client
        ensures { client_view result.now ≡ (worker_view self.now).core.client }
    {
        &self.client
    }

    /// The number of places.
    pub fn places(&self) -> usize
        ensures { result ≡ length (worker_view self.now).core.conns }
    {
        self.connections.len()
    }

    /// How many bytes wait for the connection in place `k`; none if there is no such place.
    pub fn waiting(&self, k: usize) -> usize
        ensures { result ≡ length (waiting_at k (worker_view self.now).answers) }
    {
        match self.connections.get(k) {
            Some(connection) => connection.outbox.len(),
            None => 0,
        }
    }

    /// Whether the connection in place `k` is as one that was just opened: each of its bytes belongs to a request that was
    /// answered.
    pub fn is_fresh(&self, k: usize) -> bool
        ensures { IsTrue result ↔ IsFresh (front_at (worker_view self.now).core k) }
    {
        match self.connections.get(k) {
            Some(connection) => match &connection.session {
                Some(session) => session.is_fresh(),
                None => false,
            },
            None => false,
        }
    }

    /// How many bytes are still to come, in place `k`, of the body of a request that was answered; 0 if none is.
    pub fn rest_of_body(&self, k: usize) -> u64
        ensures { result ≡ body_at (front_at (worker_view self.now).core k) }
    {
        match self.connections.get(k) {
            Some(connection) => match &connection.session {
                Some(session) => session.rest_of_body(),
                None => 0,
            },
            None => 0,
        }
    }

    /// The bytes of the request that waits for the update stream.
    pub fn request(&self) -> &[u8]
        ensures { result.now ≡ (worker_view self.now).requests }
    {
        self.requests.rest()
    }

    /// Whether a request waits for the update stream.
    pub fn has_request(&self) -> bool
        ensures { IsTrue result ↔ ((worker_view self.now).requests ≢ []) }
    {
        !self.requests.is_empty()
    }

    /// A connection opens in place `k` with these facts. Returns whether it is to be closed, since the facts are outside
    /// the limits. If a connection is open in the place, it is closed first. If there is no such place, nothing is done.
    /// After an error all is as before the call.
    pub fn open(&mut self, k: usize, conn: &Conn) -> Result<bool, AllocError>
        ensures found { IfOk result (λ closes. Works (worker_view self.old) (http_open k (conn_view conn.now))
            (http_output [] closes) (worker_view self.new)) }
        ensures fault { OnErr result (worker_view self.new ≡ worker_view self.old) }
    {
        if k >= self.connections.len() {
            return Ok(false);
        }
        let session = Session::open(self.alloc, &self.client, conn)?;
        let closes = session.is_none();
        let connection = ConnectionState {
            session,
            outbox: Outbox::new(self.alloc),
        };
        let _closed = put_connection(&mut self.connections, k, connection);
        Ok(closes)
    }

    /// The connection in place `k` delivers bytes. The answers to the requests that they complete are put after those
    /// that wait. After an error, which is out of memory, the connection is closed and nothing waits for it.
    pub fn bytes(&mut self, k: usize, bytes: &[u8]) -> Result<Answered, AllocError>
        ensures found { IfOk result (λ r. AnswersTurn (worker_view self.old) k bytes.now r.answered_asks.items r.closes
            (worker_view self.new)) }
        ensures fault { OnErr result (worker_view self.new ≡ closed_at k (worker_view self.old)) }
    {
        if k >= self.connections.len() {
            return Ok(Answered {
                answered_asks: Vec::new(self.alloc),
                closes: false,
            });
        }
        let connection = put_connection(&mut self.connections, k, new_connection(self.alloc));
        let (connection, answered) = answer_connection(
            self.alloc,
            &self.client,
            connection,
            bytes,
        )?;
        let _free = put_connection(&mut self.connections, k, connection);
        Ok(answered)
    }

    /// The connection in place `k` is closed, and what waits for it is dropped. It takes no memory.
    pub fn close(&mut self, k: usize)
        ensures { Works (worker_view self.old) (http_closed k) no_output (worker_view self.new) }
    {
        if k >= self.connections.len() {
            return;
        }
        let _closed = put_connection(&mut self.connections, k, new_connection(self.alloc));
    }

    /// The update stream comes up. If one is up, it is lost first.
    pub fn up(&mut self) -> Result<(), AllocError>
        ensures found { OnOk result ((bytes : List ℕ)
            × Works (worker_view self.old) ads_up (ads_output bytes false) (worker_view self.new)) }
        ensures fault { OnErr result (worker_view self.new ≡ worker_view self.old) }
    {
        let bytes = self.client.connected()?;
        self.requests = Outbox::of(bytes);
        Ok(())
    }

    /// The update stream delivers bytes. Takes so many of them that at most one message is complete, and the answer to it
    /// waits. While a request waits, none are taken. If no stream is up, bytes are dropped. The only error is out of
    /// memory outside of an admission; after it all is as before the call.
    pub fn feed(&mut self, bytes: &[u8]) -> Result<Fed, AllocError>
        ensures found { IfOk result (λ fed. FeedsTurn (worker_view self.old) bytes.now fed.count (is_some fed.ended)
            (worker_view self.new)) }
        ensures judged { IfOk result (λ fed. JudgesTurn (worker_view self.old) bytes.now fed.count
            fed.judgements.items fed.ended (worker_view self.new)) }
        ensures fault { OnErr result (worker_view self.new ≡ worker_view self.old) }
    {
        if self.has_request() {
            return Ok(Fed {
                count: 0,
                judgements: Vec::new(self.alloc),
                ended: None,
            });
        }
        let count = self.client.lacks().min(bytes.len());
        if !self.client.is_up() {
            return Ok(Fed {
                count,
                judgements: Vec::new(self.alloc),
                ended: None,
            });
        }
        let fed = self.client.feed(&bytes[..count])?;
        self.requests = Outbox::of(fed.replies);
        Ok(Fed {
            count,
            judgements: fed.judgements,
            ended: fed.ended,
        })
    }

    /// The update stream is lost, and what waits for it is dropped. It takes no memory.
    pub fn lost(&mut self)
        ensures { Works (worker_view self.old) ads_lost no_output (worker_view self.new) }
    {
        self.client.lost();
        self.requests = Outbox::new(self.alloc);
    }

    /// Writes once to the stream of the connection in place `k`, if answers wait for it.
    pub fn send<W: Write>(&mut self, k: usize, stream: &mut W) -> Sent
        ensures order { (sent : List ℕ) × Appends (W.contents stream.old) (W.contents stream.new) sent
            × TurnDoes (worker_view self.old) (answer_sent k sent) (worker_view self.new) }
        ensures all { (result ≡ Sent.All) ↔ (waiting_at k (worker_view self.new).answers ≡ []) }
    {
        if k >= self.connections.len() {
            return Sent::All;
        }
        let ConnectionState {
            session,
            mut outbox,
        } = put_connection(&mut self.connections, k, new_connection(self.alloc));
        let sent = outbox.send(stream);
        let _free = put_connection(
            &mut self.connections,
            k,
            ConnectionState { session, outbox },
        );
        sent
    }

    /// Writes once to the update stream, if a request waits for it.
    pub fn send_request<W: Write>(&mut self, stream: &mut W) -> Sent
        ensures order { (sent : List ℕ) × Appends (W.contents stream.old) (W.contents stream.new) sent
            × TurnDoes (worker_view self.old) (request_sent sent) (worker_view self.new) }
        ensures all { (result ≡ Sent.All) ↔ ((worker_view self.new).requests ≡ []) }
    {
        self.requests.send(stream)
    }
}
