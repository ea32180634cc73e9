//! How what happens is recorded: each event of the core, and the requests of fronts' clients.
ghost use Rattle.std.specs.Prelude.{◌≡◌, IfSome, is_some};
ghost use Rattle.serve_loop.specs.Events.{event_view};
ghost use Rattle.serve_observe.specs.Recording.{Records, RecordsAnswer, RecordsClient, RecordsClients, RecordsOwn, RecordsRequest, next_after};

use crate::access_log::DecisionContext;
use crate::clocks::unix_millis;
use crate::metrics::count_decision;
use crate::observers::Observers;
use crate::record::{Entry, entry_of, record};
use ads::Client;
use attributes::Conn;
use serve_core::{ClientRequest, FrontAnswer, MappedService, Served};
use serve_log::{LogFiles, RecordPosition};
use serve_loop::{Event, Outcome};
use std::rt::Clock;

impl<'r, R: Clock, F: LogFiles + Drop> Observers<'r, R, F> {
    /// Returns the number of the next connection, which an event that opens one takes. Without an outcome memory ran out,
    /// and the connection has no number.
    pub(crate) fn number(&mut self, event: &Event<'_, Conn>, outcome: Option<Outcome>) -> u64
        ensures number { result ≡ self.old.connections.next }
        ensures next { self.new.connections.next ≡ next_after (is_some outcome) (event_view event.now) self.old.connections.next }
        ensures record { self.new.logs.recorder ≡ self.old.logs.recorder }
    {
        let number = self.connections.next_number();
        if let (Event::Accepted(k, conn), Some(outcome)) = (event, outcome) {
            self.connections.open(*k, conn, outcome.closes);
        }
        number
    }

    /// Gives an entry to the record, if there is one. Returns where it has the bytes of a connection.
    pub(crate) fn record(&mut self, entry: &Entry<'_, '_>) -> Option<RecordPosition>
        ensures same { is_some self.new.logs.recorder ≡ is_some self.old.logs.recorder }
        ensures records { IfSome self.old.logs.recorder (λ old. IfSome self.new.logs.recorder (λ new. Records F.File.contents
            entry.now old.connections.items new.connections.items old.open_files new.open_files)) }
        ensures numbers { self.new.connections ≡ self.old.connections }
    {
        match &mut self.logs.recorder {
            Some(recorder) => record(self.alloc, recorder, entry),
            None => None,
        }
    }

    /// Records an event, whose connection has this number if it opens one. Returns where the record has the bytes of a
    /// connection.
    pub(crate) fn record_event(
        &mut self,
        event: &Event<'_, Conn>,
        outcome: Option<Outcome>,
        number: u64,
        service: &Served<'_>,
    ) -> Option<RecordPosition>
        ensures same { is_some self.new.logs.recorder ≡ is_some self.old.logs.recorder }
        ensures records { IfSome self.old.logs.recorder (λ old. IfSome self.new.logs.recorder (λ new. RecordsOwn F.File.contents service.now
            (is_some outcome) (event_view event.now) number (old.connections.items, old.open_files) (new.connections.items, new.open_files))) }
        ensures numbers { self.new.connections ≡ self.old.connections }
    {
        match entry_of(event, outcome, number, service) {
            Some(entry) => self.record(&entry),
            None => None,
        }
    }

    // Records the request of a client, which is a connection of its own in this place, with this number.
    fn record_client(
        &mut self,
        k: usize,
        number: u64,
        request: &ClientRequest,
    ) -> Option<RecordPosition>
        ensures same { is_some self.new.logs.recorder ≡ is_some self.old.logs.recorder }
        ensures records { IfSome self.old.logs.recorder (λ old. IfSome self.new.logs.recorder (λ new. RecordsRequest F.File.contents
            k number request.now (old.connections.items, old.open_files) (new.connections.items, new.open_files))) }
        ensures numbers { self.new.connections ≡ self.old.connections }
    {
        self.record(&Entry::Opened(k, number, &request.conn));
        let position = self.record(&Entry::Received(k, request.head.as_bytes(), true));
        self.record(&Entry::Closed(k));
        position
    }

    /// Requests of a front proxy were answered.
    pub(crate) fn answered_front(&mut self, k: usize, mapped: &MappedService<'_>)
        ensures same { is_some self.new.logs.recorder ≡ is_some self.old.logs.recorder }
        ensures records { IfSome self.old.logs.recorder (λ old. IfSome self.new.logs.recorder (λ new. RecordsClients F.File.contents k mapped.now.fronts.answers.items
            (self.old.connections.next, (old.connections.items, old.open_files)) (self.new.connections.next, (new.connections.items, new.open_files)))) }
    {
        for answer in mapped.answers() {
            self.answered_request(k, answer, mapped.core().client());
        }
    }

    // A request of a front proxy was answered.
    fn answered_request(&mut self, k: usize, answer: &FrontAnswer, client: &Client)
        ensures same { is_some self.new.logs.recorder ≡ is_some self.old.logs.recorder }
        ensures records { IfSome self.old.logs.recorder (λ old. IfSome self.new.logs.recorder (λ new. RecordsAnswer F.File.contents k answer.now
            (self.old.connections.next, (old.connections.items, old.open_files)) (self.new.connections.next, (new.connections.items, new.open_files)))) }
    {
        match answer {
            FrontAnswer::Judged(request) => self.answered_client(k, request, client),
            FrontAnswer::Unjudged(unjudged, reply) => self.unjudged(k, unjudged, reply),
        }
    }

    // The request of a client was judged, as the one of a connection of its own.
    fn answered_client(&mut self, k: usize, request: &ClientRequest, client: &Client)
        ensures same { is_some self.new.logs.recorder ≡ is_some self.old.logs.recorder }
        ensures records { IfSome self.old.logs.recorder (λ old. IfSome self.new.logs.recorder (λ new. RecordsClient F.File.contents k request.now
            (self.old.connections.next, (old.connections.items, old.open_files)) (self.new.connections.next, (new.connections.items, new.open_files)))) }
    {
        let connection = self.connections.number(&request.conn, false);
        let record = self.record_client(k, connection.number, request);
        let answered_ask = &request.answered_ask;
        count_decision(
            &mut self.admin.metrics,
            &mut self.sample,
            answered_ask,
            client,
        );
        if let Some(accesses) = &mut self.logs.accesses {
            accesses.log_decision(
                answered_ask,
                &DecisionContext {
                    time: unix_millis(self.rt),
                    connection: &connection,
                    client,
                    record: &record,
                },
            );
        }
    }
}
