//! Each event of the loop as calls of a worker.
ghost use Rattle.std.specs.Prelude.{◌≡◌, ◌≢◌, ◌≤◌, ◌<◌, ℕ, List, [], length, take, drop, false, is_some, IfOk, MatchResult};
ghost use Rattle.serve_loop.specs.declared.stream.Stream.TheVariants.{Place, Updates};
ghost use Rattle.serve_loop.specs.Events.{event_view};
ghost use Rattle.serve_loop.specs.History.{accepted, answered, closed, connected, gave, no_memory, received, took};
ghost use Rattle.serve_core.specs.Cores.{IsQuiet, Tells};
ghost use Rattle.serve_core.specs.Turns.{Does, added_by, kept_before, waits_for};
ghost use Rattle.rbac_serve.specs.Tables.{waiting_at};
ghost use Rattle.rbac_serve.specs.Workers.{worker_view};

use crate::last_event::LastEvent;
use ads::{Judgement, ResponseOutcome};
use attributes::Conn;
use rbac_serve::Worker;
use serve_loop::{Event, Outcome, Stream};
use std::alloc::AllocError;

// The outcome of an event that completes no message.
fn begun(closes: bool) -> Outcome
    ensures { result.closes ≡ closes }
{
    Outcome {
        closes,
        completes: false,
        refuses: false,
        rests: true,
        is_foreign: false,
    }
}

// A connection with these facts was accepted in a place.
fn accept(worker: &mut Worker, k: usize, conn: &Conn) -> Result<Outcome, AllocError>
    ensures { MatchResult result
        (λ outcome. Does (worker_view worker.old) (took (accepted k conn.now) (answered [] outcome.closes)) (worker_view worker.new))
        (λ _. Does (worker_view worker.old) (took (accepted k conn.now) no_memory) (worker_view worker.new)) }
{
    match worker.open(k, conn) {
        Ok(closes) => Ok(begun(closes)),
        Err(error) => {
            worker.close(k);
            Err(error)
        }
    }
}

// The connection in a place delivers bytes.
fn receive(
    worker: &mut Worker,
    k: usize,
    bytes: &[u8],
    last: &mut LastEvent,
) -> Result<Outcome, AllocError>
    requires { IsQuiet last.old }
    ensures turn { MatchResult result
        (λ outcome. Does (worker_view worker.old) (took (received (Place k) bytes.now) (answered
        (drop (length (waiting_at k (worker_view worker.old).answers)) (waiting_at k (worker_view worker.new).answers))
        outcome.closes)) (worker_view worker.new))
        (λ _. Does (worker_view worker.old) (took (received (Place k) bytes.now) no_memory) (worker_view worker.new)) }
    ensures tells { IfOk result (λ _. Tells (received (Place k) bytes.now) (worker_view worker.old) last.new
        (worker_view worker.new)) }
    ensures other { last.new.other_protocol ≡ last.old.other_protocol }
{
    match worker.bytes(k, bytes) {
        Ok(it) => {
            let completes = !it.answered_asks.is_empty();
            last.answered_asks = it.answered_asks;
            Ok(Outcome {
                closes: it.closes,
                completes,
                refuses: false,
                rests: worker.is_fresh(k),
                is_foreign: false,
            })
        }
        Err(error) => Err(error),
    }
}

// The update stream was connected.
fn connect(worker: &mut Worker) -> Result<Outcome, AllocError>
    ensures { MatchResult result
        (λ outcome. Does (worker_view worker.old) (took connected (answered (worker_view worker.new).requests outcome.closes))
        (worker_view worker.new))
        (λ _. Does (worker_view worker.old) (took connected no_memory) (worker_view worker.new)) }
{
    match worker.up() {
        Ok(()) => Ok(begun(false)),
        Err(error) => {
            worker.lost();
            Err(error)
        }
    }
}

// Whether the last response was refused.
fn ends_refused(judgements: &[Judgement]) -> bool {
    match judgements.last() {
        Some(judgement) => match judgement.outcome {
            ResponseOutcome::Accepted(_) => false,
            ResponseOutcome::Refused(_) => true,
        },
        None => false,
    }
}

// The update stream delivers bytes, while no request waits.
fn update(worker: &mut Worker, bytes: &[u8], last: &mut LastEvent) -> Result<Outcome, AllocError>
    requires none { (worker_view worker.old).requests ≡ [] }
    requires quiet { IsQuiet last.old }
    ensures turn { MatchResult result
        (λ outcome. Does (worker_view worker.old) (took (received Updates bytes.now)
        (answered (worker_view worker.new).requests outcome.closes)) (worker_view worker.new))
        (λ _. Does (worker_view worker.old) (took (received Updates bytes.now) no_memory) (worker_view worker.new)) }
    ensures tells { IfOk result (λ _. Tells (received Updates bytes.now) (worker_view worker.old) last.new
        (worker_view worker.new)) }
    ensures other { last.new.other_protocol ≡ last.old.other_protocol }
{
    match worker.feed_all(bytes) {
        Ok(fed) => {
            let completes = !fed.judgements.is_empty();
            let refuses = ends_refused(&fed.judgements);
            let closes = fed.ended.is_some();
            last.judgements = fed.judgements;
            last.ended = fed.ended;
            Ok(Outcome {
                closes,
                completes,
                refuses,
                rests: completes,
                is_foreign: last.other_protocol.is_some(),
            })
        }
        Err(error) => {
            worker.lost();
            Err(error)
        }
    }
}

// A stream delivers bytes.
fn got(
    worker: &mut Worker,
    stream: Stream,
    bytes: &[u8],
    last: &mut LastEvent,
) -> Result<Outcome, AllocError>
    requires none { stream ≡ Updates → (worker_view worker.old).requests ≡ [] }
    requires quiet { IsQuiet last.old }
    ensures turn { MatchResult result
        (λ outcome. Does (worker_view worker.old) (took (received stream bytes.now)
        (answered (added_by (received stream bytes.now) (kept_before (received stream bytes.now) (worker_view worker.old))
        (worker_view worker.new)) outcome.closes)) (worker_view worker.new))
        (λ _. Does (worker_view worker.old) (took (received stream bytes.now) no_memory) (worker_view worker.new)) }
    ensures tells { IfOk result (λ _. Tells (received stream bytes.now) (worker_view worker.old) last.new
        (worker_view worker.new)) }
    ensures other { last.new.other_protocol ≡ last.old.other_protocol }
{
    match stream {
        Stream::Place(k) => receive(worker, k, bytes, last),
        Stream::Updates => update(worker, bytes, last),
    }
}

// A stream was closed.
fn close(worker: &mut Worker, stream: Stream)
    ensures { Does (worker_view worker.old) (took (closed stream) (answered [] false)) (worker_view worker.new) }
{
    match stream {
        Stream::Place(k) => worker.close(k),
        Stream::Updates => worker.lost(),
    }
}

/// An event of the loop happens to a worker.
pub(crate) fn happen(
    worker: &mut Worker,
    event: &Event<'_, Conn>,
    last: &mut LastEvent,
) -> Result<Outcome, AllocError>
    requires none { (bytes : List ℕ) → event_view event.now ≡ received Updates bytes → (worker_view worker.old).requests ≡ [] }
    requires quiet { IsQuiet last.old }
    ensures turn { MatchResult result
        (λ outcome. Does (worker_view worker.old) (took (event_view event.now) (answered (added_by (event_view event.now)
        (kept_before (event_view event.now) (worker_view worker.old)) (worker_view worker.new)) outcome.closes))
        (worker_view worker.new))
        (λ _. Does (worker_view worker.old) (took (event_view event.now) no_memory) (worker_view worker.new)) }
    ensures tells { IfOk result (λ _. Tells (event_view event.now) (worker_view worker.old) last.new (worker_view worker.new)) }
    ensures other { last.new.other_protocol ≡ last.old.other_protocol }
{
    match *event {
        Event::Accepted(k, conn) => accept(worker, k, conn),
        Event::Received(stream, bytes) => got(worker, stream, bytes, last),
        Event::Connected => connect(worker),
        Event::Closed(stream, _) => {
            close(worker, stream);
            Ok(begun(false))
        }
        Event::Drain => Ok(begun(false)),
    }
}

/// How many bytes wait for the event's stream before those that the event adds.
pub(crate) fn waiting_before(worker: &Worker, event: &Event<'_, Conn>) -> usize
    ensures { result ≡ kept_before (event_view event.now) (worker_view worker.now) }
{
    match *event {
        Event::Received(Stream::Place(k), _) => worker.waiting(k),
        _ => 0,
    }
}

/// The bytes that the event added to those that wait for its stream.
pub(crate) fn added<'a>(worker: &'a Worker, event: &Event<'_, Conn>, before: usize) -> &'a [u8]
    ensures { result.now ≡ added_by (event_view event.now) before (worker_view worker.now) }
{
    match *event {
        Event::Received(Stream::Place(k), _) => after(worker.answers(k), before),
        Event::Received(Stream::Updates, _) => worker.request(),
        Event::Connected => worker.request(),
        _ => &[],
    }
}

/// The bytes after so many.
pub(crate) fn after(bytes: &[u8], before: usize) -> &[u8]
    ensures { result.now ≡ drop before bytes.now }
{
    if before > bytes.len() {
        return &[];
    }
    &bytes[before..]
}

/// The bytes that wait for a stream.
pub(crate) fn unsent_of(worker: &Worker, stream: Stream) -> &[u8]
    ensures { result.now ≡ waits_for stream (worker_view worker.now) }
{
    match stream {
        Stream::Place(k) => worker.answers(k),
        Stream::Updates => worker.request(),
    }
}

/// So many bytes of those that wait for a stream were sent.
pub(crate) fn sent_of(worker: &mut Worker, stream: Stream, count: usize)
    requires { count ≤ length (waits_for stream (worker_view worker.old)) }
    ensures { Does (worker_view worker.old) (gave stream (take count (waits_for stream (worker_view worker.old))))
        (worker_view worker.new) }
{
    match stream {
        Stream::Place(k) => worker.sent(k, count),
        Stream::Updates => worker.request_sent(count),
    }
}
