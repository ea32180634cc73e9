//! The connections of front proxies beside the core that their clients share.
ghost use Rattle.std.specs.Prelude.{◌≡◌, ◌≤◌, ◌<◌, ℕ, [], None, Some, IfOk, MatchResult, drop, length, set, slice_get, take, vec_len};
ghost use Rattle.rbac_serve.specs.Workers.{worker_view};
ghost use Rattle.serve_loop.specs.declared.stream.Stream.TheVariants.{Place};
ghost use Rattle.serve_loop.specs.Events.{event_view};
ghost use Rattle.serve_loop.specs.History.{Fits, accepted, answered, gave, no_memory, received, took};
ghost use Rattle.attributes.specs.Conn.{conn_view};
ghost use Rattle.serve_core.specs.ClientRequests.{rule_view};
ghost use Rattle.serve_core.specs.Fronts.{AreMatched, FrontsDo, IsForCore, added_in, connection_at, fronts_view, kept_in, waits_in};
ghost use Rattle.serve_core.specs.Turns.{room_for};

use crate::events::after;
use crate::front_answer::FrontAnswer;
use crate::front_connection::FrontConnection;
use crate::judging::FrontPlace;
use crate::rule::MappingRule;
use crate::worker_service::WorkerService;
use attributes::Conn;
use serve_loop::{Event, Outcome, Service, Stream};
use std::alloc::{AllocError, Global};
use std::mem;

/// The connections of front proxies, by place, and the core to which each of their requests is a connection.
#[derive(Drop)]
pub(crate) struct Fronts<'m> {
    pub(crate) alloc: Global,
    pub(crate) rule: MappingRule<'m>,
    pub(crate) core: WorkerService,
    pub(crate) connections: Vec<Option<FrontConnection>>,
    /// What the last event answered, in order.
    pub(crate) answers: Vec<FrontAnswer>,
}

/// So many places, in which no connection is open.
pub(crate) fn free_places(
    alloc: Global,
    places: usize,
) -> Result<Vec<Option<FrontConnection>>, AllocError>
    ensures length { IfOk result (λ connections. length connections.items ≡ places) }
    ensures none { IfOk result (λ connections. (k : ℕ) → connection_at k connections.items ≡ None) }
{
    let mut connections = Vec::new(alloc);
    'adding: while connections.len() < places {
        connections.push(None)?;
    }
    Ok(connections)
}

// Puts a connection, or none, in a place, and returns the one that was there. If there is no such place, it puts none.
fn put(
    connections: &mut Vec<Option<FrontConnection>>,
    k: usize,
    connection: Option<FrontConnection>,
) -> Option<FrontConnection>
    ensures before { result ≡ connection_at k connections.old.items }
    ensures after { connections.new.items ≡ set connections.old.items k connection }
{
    if k >= connections.len() {
        return None;
    }
    put_within(connections, k, connection)
}

// The same, where there is such a place.
fn put_within(
    connections: &mut Vec<Option<FrontConnection>>,
    k: usize,
    connection: Option<FrontConnection>,
) -> Option<FrontConnection>
    requires { k < vec_len connections.old }
    ensures before { slice_get connections.old.items k ≡ Some result }
    ensures after { connections.new.items ≡ set connections.old.items k connection }
{
    mem::replace(&mut connections[k], connection)
}

// The outcome of an event of a connection that completes no message.
fn begun(closes: bool) -> Outcome
    ensures { result.closes ≡ closes }
{
    Outcome {
        closes,
        completes: false,
        refuses: false,
        rests: true,
        is_foreign: false,
    }
}

impl Fronts<'_> {
    /// An event of the loop happens. The answers to the requests that it completes are added to `answers`.
    pub(crate) fn happen(&mut self, event: &Event<'_, Conn>) -> Result<Outcome, AllocError>
        requires room { Fits (λ s. room_for s self.old.core.room) (event_view event.now) }
        requires matched { AreMatched (fronts_view self.old) }
        requires none { self.old.answers.items ≡ [] }
        ensures found { MatchResult result
            (λ outcome. FrontsDo (rule_view self.old.rule) (fronts_view self.old) (took (event_view event.now) (answered (added_in (event_view event.now)
            (kept_in (event_view event.now) (fronts_view self.old)) (fronts_view self.new)) outcome.closes)) self.new.answers.items (fronts_view self.new))
            (λ _. FrontsDo (rule_view self.old.rule) (fronts_view self.old) (took (event_view event.now) no_memory) self.new.answers.items (fronts_view self.new)) }
        ensures rule { rule_view self.new.rule ≡ rule_view self.old.rule }
    {
        match *event {
            Event::Accepted(k, conn) => self.accept(k, conn),
            Event::Received(Stream::Place(k), bytes) => self.receive(k, bytes),
            Event::Closed(Stream::Place(k), _) => {
                let _closed = put(&mut self.connections, k, None);
                Ok(begun(false))
            }
            Event::Received(Stream::Updates, _) => self.pass(event),
            Event::Connected => self.pass(event),
            Event::Closed(Stream::Updates, _) => self.pass(event),
            Event::Drain => self.pass(event),
        }
    }

    // The core takes an event of its own.
    fn pass(&mut self, event: &Event<'_, Conn>) -> Result<Outcome, AllocError>
        requires room { Fits (λ s. room_for s self.old.core.room) (event_view event.now) }
        requires own { IsForCore (event_view event.now) }
        requires none { self.old.answers.items ≡ [] }
        ensures found { MatchResult result
            (λ outcome. FrontsDo (rule_view self.old.rule) (fronts_view self.old) (took (event_view event.now) (answered (added_in (event_view event.now)
            (kept_in (event_view event.now) (fronts_view self.old)) (fronts_view self.new)) outcome.closes)) self.new.answers.items (fronts_view self.new))
            (λ _. FrontsDo (rule_view self.old.rule) (fronts_view self.old) (took (event_view event.now) no_memory) self.new.answers.items (fronts_view self.new)) }
        ensures rule { rule_view self.new.rule ≡ rule_view self.old.rule }
    {
        self.core.step(event)
    }

    // A connection of a front opens, unless its facts are outside the limits.
    fn accept(&mut self, k: usize, conn: &Conn) -> Result<Outcome, AllocError>
        requires { self.old.answers.items ≡ [] }
        ensures found { MatchResult result
            (λ outcome. FrontsDo (rule_view self.old.rule) (fronts_view self.old) (took (accepted k conn.now) (answered [] outcome.closes)) self.new.answers.items (fronts_view self.new))
            (λ _. FrontsDo (rule_view self.old.rule) (fronts_view self.old) (took (accepted k conn.now) no_memory) self.new.answers.items (fronts_view self.new)) }
        ensures rule { rule_view self.new.rule ≡ rule_view self.old.rule }
    {
        let _closed = put(&mut self.connections, k, None);
        let limits = *self.core.client().config().limits();
        if !limits.fits_conn(conn) {
            return Ok(begun(true));
        }
        let connection = FrontConnection::new(self.alloc, &limits, conn)?;
        let _none = put(&mut self.connections, k, Some(connection));
        Ok(begun(false))
    }

    // A connection of a front delivers bytes. After an error it is closed.
    fn receive(&mut self, k: usize, bytes: &[u8]) -> Result<Outcome, AllocError>
        requires matched { AreMatched (fronts_view self.old) }
        requires none { self.old.answers.items ≡ [] }
        ensures found { MatchResult result
            (λ outcome. FrontsDo (rule_view self.old.rule) (fronts_view self.old) (took (received (Place k) bytes.now) (answered
            (drop (length (waits_in (Place k) (fronts_view self.old))) (waits_in (Place k) (fronts_view self.new))) outcome.closes)) self.new.answers.items (fronts_view self.new))
            (λ _. FrontsDo (rule_view self.old.rule) (fronts_view self.old) (took (received (Place k) bytes.now) no_memory) self.new.answers.items (fronts_view self.new)) }
        ensures rule { rule_view self.new.rule ≡ rule_view self.old.rule }
    {
        let at = FrontPlace {
            alloc: self.alloc,
            rule: self.rule,
            place: k,
        };
        let Some(mut connection) = put(&mut self.connections, k, None) else {
            return Ok(begun(false));
        };
        connection.receive(at, &mut self.core, bytes, &mut self.answers)?;
        let outcome = Outcome {
            closes: connection.front.is_closed(),
            completes: !self.answers.is_empty(),
            refuses: false,
            rests: connection.front.is_fresh(),
            is_foreign: false,
        };
        let _none = put(&mut self.connections, k, Some(connection));
        Ok(outcome)
    }

    /// The bytes that wait for a stream.
    pub(crate) fn unsent(&self, stream: Stream) -> &[u8]
        ensures { result.now ≡ waits_in stream (fronts_view self.now) }
    {
        match stream {
            Stream::Place(k) => self.answers_at(k),
            Stream::Updates => self.core.unsent(Stream::Updates),
        }
    }

    // The answers that wait for the connection in a place.
    fn answers_at(&self, k: usize) -> &[u8]
        ensures { result.now ≡ waits_in (Place k) (fronts_view self.now) }
    {
        match self.connections.get(k) {
            Some(Some(connection)) => connection.outbox.rest(),
            _ => &[],
        }
    }

    /// So many bytes of those that wait for a stream were sent.
    pub(crate) fn sent(&mut self, stream: Stream, count: usize)
        requires { count ≤ length (waits_in stream (fronts_view self.old)) }
        ensures found { FrontsDo (rule_view self.old.rule) (fronts_view self.old) (gave stream (take count (waits_in stream (fronts_view self.old))))
            [] (fronts_view self.new) }
        ensures rule { rule_view self.new.rule ≡ rule_view self.old.rule }
    {
        match stream {
            Stream::Place(k) => self.sent_at(k, count),
            Stream::Updates => self.core.give(Stream::Updates, count),
        }
    }

    // So many bytes of the answers that wait for the connection in a place were sent.
    fn sent_at(&mut self, k: usize, count: usize)
        requires { count ≤ length (waits_in (Place k) (fronts_view self.old)) }
        ensures found { FrontsDo (rule_view self.old.rule) (fronts_view self.old) (gave (Place k) (take count (waits_in (Place k) (fronts_view self.old))))
            [] (fronts_view self.new) }
        ensures rule { rule_view self.new.rule ≡ rule_view self.old.rule }
    {
        if let Some(mut connection) = put(&mut self.connections, k, None) {
            connection.outbox.drop_first(count);
            let _none = put(&mut self.connections, k, Some(connection));
        }
    }

    /// How many bytes wait for the event's stream before those that the event adds.
    pub(crate) fn waiting_before(&self, event: &Event<'_, Conn>) -> usize
        ensures { result ≡ kept_in (event_view event.now) (fronts_view self.now) }
    {
        match *event {
            Event::Received(stream, _) => self.unsent(stream).len(),
            _ => 0,
        }
    }

    /// The bytes that the event added to those that wait for its stream.
    pub(crate) fn added(&self, event: &Event<'_, Conn>, before: usize) -> &[u8]
        ensures { result.now ≡ added_in (event_view event.now) before (fronts_view self.now) }
    {
        match *event {
            Event::Received(stream, _) => after(self.unsent(stream), before),
            Event::Connected => self.unsent(Stream::Updates),
            _ => &[],
        }
    }
}
