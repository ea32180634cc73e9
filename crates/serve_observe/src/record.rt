//! What the record is given of each event: the events of the core, in order.
ghost use Rattle.std.specs.Prelude.{◌≡◌, ◌-◌, Some, IfSome, length, is_some, option_copied, option_map, slice_get};
ghost use Rattle.serve_core.specs.Served.{served_core};
ghost use Rattle.serve_loop.specs.Events.{event_view};
ghost use Rattle.serve_observe.specs.Entries.{Says, core_event, event_in, is_closing, is_of_place, recorded};
ghost use Rattle.serve_observe.specs.Recording.{Records};
ghost use Rattle.serve_log.specs.Recording.{Feeds};

use crate::responses::places_of;
use ads::{Judgement, ResponseOutcome};
use attributes::Conn;
use serve_core::{Served, WorkerService};
use serve_log::{LogFiles, RecordPosition, Recorder, UpdateBytes};
use serve_loop::{Event, Outcome, Stream};
use std::alloc::{AllocError, Global};

/// What the record is given of one event of the core.
#[derive(Clone, Copy)]
pub(crate) enum Entry<'e, 's> {
    /// A connection opens in this place, with this number and these facts.
    Opened(usize, u64, &'e Conn),
    /// The connection in this place delivers bytes, and is fresh after them or not.
    Received(usize, &'e [u8], bool),
    /// The connection in this place is closed.
    Closed(usize),
    /// The update stream comes up.
    Up,
    /// The update stream delivers bytes, which complete a response that is judged so, or none.
    Fed(&'e [u8], Option<&'s ResponseOutcome>),
    /// The update stream is lost.
    Lost,
}

/// What the record is given of an event, whose connection has this number if it opens one. Without an outcome memory ran
/// out at the event. A front's connection is none of the core.
pub(crate) fn entry_of<'e, 's>(
    event: &Event<'e, Conn>,
    outcome: Option<Outcome>,
    number: u64,
    service: &'s Served<'_>,
) -> Option<Entry<'e, 's>>
    ensures event { option_map event_in result ≡ recorded service.now (is_some outcome) (event_view event.now) }
    ensures says { IfSome result (Says (served_core service.now) number) }
{
    if outcome.is_none() && !is_closing(event) {
        return None;
    }
    match service {
        Served::Mapped(_) if is_of_place(event) => None,
        _ => core_entry(event, number, service.core()),
    }
}

// Whether an event is that of a stream that is closed.
fn is_closing(event: &Event<'_, Conn>) -> bool
    ensures { result ≡ is_closing (event_view event.now) }
{
    match event {
        Event::Closed(_, _) => true,
        _ => false,
    }
}

// Whether an event is one of a connection.
fn is_of_place(event: &Event<'_, Conn>) -> bool
    ensures { result ≡ is_of_place (event_view event.now) }
{
    match event {
        Event::Accepted(_, _) => true,
        Event::Received(Stream::Place(_), _) | Event::Closed(Stream::Place(_), _) => true,
        _ => false,
    }
}

// The entry of an event that the core took. The end of the server has none, since it is no event of the core.
fn core_entry<'e, 's>(
    event: &Event<'e, Conn>,
    number: u64,
    core: &'s WorkerService,
) -> Option<Entry<'e, 's>>
    ensures event { option_map event_in result ≡ core_event (event_view event.now) }
    ensures says { IfSome result (Says core.now number) }
{
    match *event {
        Event::Accepted(k, conn) => Some(Entry::Opened(k, number, conn)),
        Event::Received(Stream::Place(k), bytes) => {
            Some(Entry::Received(k, bytes, core.is_fresh(k)))
        }
        Event::Closed(Stream::Place(k), _) => Some(Entry::Closed(k)),
        Event::Connected => Some(Entry::Up),
        Event::Received(Stream::Updates, bytes) => {
            Some(Entry::Fed(bytes, last_outcome(&core.last().judgements)))
        }
        Event::Closed(Stream::Updates, _) => Some(Entry::Lost),
        Event::Drain => None,
    }
}

// How the last response was judged.
fn last_outcome(judgements: &[Judgement]) -> Option<&ResponseOutcome>
    ensures { option_copied result ≡ option_map (λ j. j.outcome) (slice_get judgements.now (length judgements.now - 1)) }
{
    match judgements.last() {
        Some(judgement) => Some(&judgement.outcome),
        None => None,
    }
}

/// Gives an entry to the record. Returns where the record has the bytes of a connection; none if it has not.
pub(crate) fn record<F: LogFiles + Drop>(
    alloc: Global,
    recorder: &mut Recorder<F>,
    entry: &Entry<'_, '_>,
) -> Option<RecordPosition>
    ensures { Records F.File.contents entry.now recorder.old.connections.items recorder.new.connections.items
        recorder.old.open_files recorder.new.open_files }
{
    match *entry {
        Entry::Opened(k, number, conn) => {
            recorder.opened(k, number, conn);
            None
        }
        Entry::Received(k, bytes, is_fresh) => recorder.received(k, bytes, is_fresh),
        Entry::Closed(k) => {
            recorder.closed(k);
            None
        }
        Entry::Up => {
            recorder.up();
            None
        }
        Entry::Fed(bytes, outcome) => {
            record_updates(alloc, recorder, bytes, outcome);
            None
        }
        Entry::Lost => {
            recorder.lost();
            None
        }
    }
}

// Records bytes of the update stream, which complete a response that is judged so, or none.
fn record_updates<F: LogFiles + Drop>(
    alloc: Global,
    recorder: &mut Recorder<F>,
    bytes: &[u8],
    outcome: Option<&ResponseOutcome>,
)
    ensures { Feeds F.File.contents bytes.now recorder.old.open_files recorder.new.open_files }
{
    match outcome {
        None => recorder.fed(bytes, &UpdateBytes::Partial),
        Some(ResponseOutcome::Refused(_)) => recorder.fed(bytes, &UpdateBytes::Refused),
        Some(ResponseOutcome::Accepted(given)) => match places_of(alloc, given) {
            Ok(places) => recorder.fed(bytes, &UpdateBytes::Accepted(&places)),
            Err(AllocError) => recorder.fed(bytes, &UpdateBytes::Accepted(&[])),
        },
    }
}
