//! What sees each event of a server: it is counted, logged and recorded. None of that has an effect on the service.
ghost use Rattle.std.specs.Prelude.{◌≡◌, [], ◌∷◌, IfOk, IfSome, is_some};
ghost use Rattle.serve_loop.specs.Events.{event_view};
ghost use Rattle.serve_loop.specs.Law.{events_of};
ghost use Rattle.serve_observe.specs.Recording.{RecordsAnswered, RecordsAnswers, RecordsEvent};
ghost use Rattle.serve_observe.specs.Control.{Shows, after_event, after_failed_look, after_failed_opening, after_good_look, no_control};

use crate::access_log::DecisionContext;
use crate::clocks::{micros, unix_millis};
use crate::connections::Connections;
use crate::control::ControlState;
use crate::frame::NextMessage;
use crate::logs::Logs;
use crate::metrics::{closed_of, count_decision, count_judgement, count_unjudged};
use crate::responses::JudgedResponse;
use crate::sample::Sample;
use crate::status::{note_down, note_judgement, note_up};
use crate::update_log::{
    BytesEnd, Loss, bytes_end, log_judgement, log_loss, log_unreachable, log_update, loss_of,
    words_of,
};
use ads::Client;
use attributes::Conn;
use http_front::Reply;
use proxy_core::AnsweredAsk;
use serve_admin::Admin;
use serve_core::{Served, Unjudged, WorkerService};
use serve_log::{LogFiles, RecordPosition, Update};
use serve_loop::{CloseReason, Event, Failed, Observer, Outcome, Stream};
use serve_trace::{Note, Trace};
use std::alloc::{AllocError, Global};
use std::io;
use std::rt::Clock;

// The steps of one in so many decisions are counted.
const STEPS_SAMPLE: u64 = 64;

/// What sees each event of a server: the counters and the status, the logs, and the record.
#[derive(Drop)]
pub struct Observers<'r, R: Clock, F: LogFiles + Drop> {
    pub(crate) alloc: Global,
    pub(crate) rt: &'r R,
    /// The counters and the status.
    pub admin: Admin,
    /// The logs and the record.
    pub logs: Logs<F>,
    pub(crate) connections: Connections,
    control: ControlState,
    /// The decisions whose steps are counted.
    pub(crate) sample: Sample,
    // why the last bytes of the update stream end it
    end: Option<BytesEnd>,
    next_message: NextMessage,
    // when an event of the update stream was last seen, in microseconds
    looked: u64,
    // why a connection could not be accepted, if that was not reported yet
    refused: Option<io::Error>,
    trace: Trace<Conn>,
}

impl<'r, R: Clock, F: LogFiles + Drop> Observers<'r, R, F> {
    /// Nothing has happened to the server, which has so many places for connections.
    pub fn new(
        alloc: Global,
        rt: &'r R,
        places: usize,
        admin: Admin,
        logs: Logs<F>,
    ) -> Result<Observers<'r, R, F>, AllocError>
        ensures trace { IfOk result (λ o. o.trace.turns ≡ []) }
        ensures control { IfOk result (λ o. o.control ≡ no_control) }
    {
        Ok(Observers {
            alloc,
            rt,
            admin,
            logs,
            connections: Connections::new(alloc, places)?,
            control: ControlState::new(),
            sample: Sample::new(STEPS_SAMPLE),
            end: None,
            next_message: NextMessage::new(alloc),
            looked: 0,
            refused: None,
            trace: Trace::new(),
        })
    }

    /// Why a connection could not be accepted, if that was not reported yet.
    pub fn refused(&mut self) -> Option<io::Error>
        ensures { self.new.trace ≡ self.old.trace }
    {
        self.refused.take()
    }

    /// Logs why a call to a control plane of gRPC ended.
    pub fn log_end(&mut self, cause: &str)
        ensures { self.new.trace ≡ self.old.trace }
    {
        let time = unix_millis(self.rt);
        let update = Update::Ended(cause);
        log_update(self.alloc, &mut self.logs.updates, time, &update);
    }

    /// A look at the file of the control plane failed at this time, in milliseconds since a fixed time, for this cause. That
    /// is counted, and logged at most once a minute. The stream counts as down.
    pub fn look_failed(&mut self, cause: &io::Error, now: u64)
        ensures trace { self.new.trace ≡ self.old.trace }
        ensures control { self.new.control ≡ after_failed_look now self.old.control }
        ensures shown { Shows self.new.control self.new.admin.metrics }
    {
        let time = unix_millis(self.rt);
        let mut control = self.control;
        if control.is_up() {
            note_down(self.alloc, &mut self.admin.status, time, "unreachable");
        }
        if control.look_fails(now) {
            log_unreachable(self.alloc, &mut self.logs.updates, time, cause);
        }
        self.set_control(control);
    }

    /// A look at the file of the control plane does not fail any more. That is logged if the log says that it could not be
    /// read. The stream counts as up if it is open.
    pub fn look_worked(&mut self)
        ensures trace { self.new.trace ≡ self.old.trace }
        ensures control { self.new.control ≡ after_good_look self.old.control }
        ensures shown { Shows self.new.control self.new.admin.metrics }
    {
        let time = unix_millis(self.rt);
        let mut control = self.control;
        if control.look_works() {
            log_update(self.alloc, &mut self.logs.updates, time, &Update::Up);
        }
        if control.is_up() {
            note_up(&mut self.admin.status, time);
        }
        self.set_control(control);
    }

    // This is known of the control plane from now on, and the metrics show it.
    fn set_control(&mut self, control: ControlState)
        ensures trace { self.new.trace ≡ self.old.trace }
        ensures control { self.new.control ≡ control }
        ensures shown { Shows control self.new.admin.metrics }
        ensures record { self.new.logs.recorder ≡ self.old.logs.recorder }
        ensures numbers { self.new.connections.next ≡ self.old.connections.next }
    {
        self.admin
            .metrics
            .set_control(control.is_up(), control.errors());
        self.control = control;
    }

    // A connection was accepted.
    fn accepted(&mut self, outcome: Option<Outcome>)
        ensures record { self.new.logs.recorder ≡ self.old.logs.recorder }
        ensures numbers { self.new.connections.next ≡ self.old.connections.next }
    {
        self.admin.metrics.accepted();
        if outcome.is_some() {
            self.admin.metrics.opened();
        }
    }

    // Counts and logs an event. The record has the bytes of a connection here; bytes of the update stream took so many
    // microseconds. The requests of a front's clients are recorded.
    fn note(
        &mut self,
        event: &Event<'_, Conn>,
        outcome: Option<Outcome>,
        record: Option<RecordPosition>,
        service: &Served<'_>,
        micros: u64,
    )
        ensures same { is_some self.new.logs.recorder ≡ is_some self.old.logs.recorder }
        ensures records { IfSome self.old.logs.recorder (λ old. IfSome self.new.logs.recorder (λ new. RecordsAnswered F.File.contents service.now (event_view event.now)
            (self.old.connections.next, (old.connections.items, old.open_files)) (self.new.connections.next, (new.connections.items, new.open_files)))) }
    {
        match *event {
            Event::Accepted(_, _) => self.accepted(outcome),
            Event::Received(Stream::Place(k), _) => self.received(k, record, service),
            Event::Closed(Stream::Place(k), reason) => self.closed(k, reason),
            Event::Connected => self.connected(outcome),
            Event::Received(Stream::Updates, bytes) => self.fed(bytes, outcome, service, micros),
            Event::Closed(Stream::Updates, reason) => self.lost(loss_of(reason, self.end)),
            Event::Drain => self.admin.status.drains = true,
        }
    }

    // The connection in a place delivered bytes, which the record has here.
    fn received(&mut self, k: usize, record: Option<RecordPosition>, service: &Served<'_>)
        ensures same { is_some self.new.logs.recorder ≡ is_some self.old.logs.recorder }
        ensures records { IfSome self.old.logs.recorder (λ old. IfSome self.new.logs.recorder (λ new. RecordsAnswers F.File.contents k service.now
            (self.old.connections.next, (old.connections.items, old.open_files)) (self.new.connections.next, (new.connections.items, new.open_files)))) }
    {
        match service {
            Served::AsSent(worker) => self.answered(k, record, worker),
            Served::Mapped(mapped) => self.answered_front(k, mapped),
        }
    }

    // Requests were answered as they were sent.
    fn answered(&mut self, k: usize, record: Option<RecordPosition>, worker: &WorkerService)
        ensures record { self.new.logs.recorder ≡ self.old.logs.recorder }
        ensures numbers { self.new.connections.next ≡ self.old.connections.next }
    {
        for answered_ask in &worker.last().answered_asks {
            let metrics = &mut self.admin.metrics;
            count_decision(metrics, &mut self.sample, answered_ask, worker.client());
            self.log_decision(k, &record, answered_ask, worker.client());
        }
    }

    // Logs the answer to a request of the connection in a place.
    fn log_decision(
        &mut self,
        k: usize,
        record: &Option<RecordPosition>,
        answered_ask: &AnsweredAsk,
        client: &Client,
    )
        ensures record { self.new.logs.recorder ≡ self.old.logs.recorder }
        ensures numbers { self.new.connections.next ≡ self.old.connections.next }
    {
        if let (Some(accesses), Some(connection)) = (
            &mut self.logs.accesses,
            self.connections.get(k),
        ) {
            let context = DecisionContext {
                time: unix_millis(self.rt),
                connection,
                client,
                record,
            };
            accesses.log_decision(answered_ask, &context);
        }
    }

    /// A request of a front proxy was answered without being judged.
    pub(crate) fn unjudged(&mut self, k: usize, unjudged: &Unjudged, reply: &Reply)
        ensures record { self.new.logs.recorder ≡ self.old.logs.recorder }
        ensures numbers { self.new.connections.next ≡ self.old.connections.next }
    {
        count_unjudged(&mut self.admin.metrics, unjudged.case);
        if let (Some(accesses), Some(connection)) = (
            &mut self.logs.accesses,
            self.connections.get(k),
        ) {
            accesses.log_unjudged(unjudged, reply, connection, unix_millis(self.rt));
        }
    }

    // The connection in a place was closed.
    fn closed(&mut self, k: usize, reason: CloseReason)
        ensures record { self.new.logs.recorder ≡ self.old.logs.recorder }
        ensures numbers { self.new.connections.next ≡ self.old.connections.next }
    {
        if let Some(connection) = self.connections.close(k) {
            self.admin.metrics.closed(closed_of(&connection, reason));
        }
    }

    // The update stream was connected. Without an outcome memory ran out, and it is closed.
    fn connected(&mut self, outcome: Option<Outcome>)
        ensures record { self.new.logs.recorder ≡ self.old.logs.recorder }
        ensures numbers { self.new.connections.next ≡ self.old.connections.next }
    {
        self.end = None;
        self.next_message.clear();
        if outcome.is_none() {
            return;
        }
        let time = unix_millis(self.rt);
        note_up(&mut self.admin.status, time);
        log_update(self.alloc, &mut self.logs.updates, time, &Update::Up);
    }

    // The update stream delivered bytes. Judging a response that they complete took so many microseconds.
    fn fed(&mut self, bytes: &[u8], outcome: Option<Outcome>, service: &Served<'_>, micros: u64)
        ensures record { self.new.logs.recorder ≡ self.old.logs.recorder }
        ensures numbers { self.new.connections.next ≡ self.old.connections.next }
    {
        let last = service.core().last();
        self.end = bytes_end(last);
        self.next_message.add(bytes);
        let (Some(_), Some(judgement)) = (outcome, last.judgements.last()) else {
            return;
        };
        self.next_message.begin_last(last.judgements.len());
        let judged = JudgedResponse {
            judgement,
            client: service.client(),
            micros,
            time: unix_millis(self.rt),
            message: self.next_message.message(),
        };
        let _ = note_judgement(self.alloc, &mut self.admin, &judged);
        log_judgement(self.alloc, &mut self.logs.updates, &judged);
        count_judgement(&mut self.admin.metrics, &judged);
        self.next_message.judged();
    }

    // How long bytes of the update stream took, in microseconds. That is since the last event of that stream was seen, or
    // since this time in milliseconds, at which the turn began.
    fn passed(&self, event: &Event<'_, Conn>, now: u64) -> u64 {
        match event {
            Event::Received(Stream::Updates, _) => {
                let since = self.looked.max(now.saturating_mul(1_000));
                micros(self.rt).saturating_sub(since)
            }
            _ => 0,
        }
    }

    // Looks at the clock after an event of the update stream.
    fn look(&mut self, event: &Event<'_, Conn>)
        ensures record { self.new.logs.recorder ≡ self.old.logs.recorder }
        ensures numbers { self.new.connections.next ≡ self.old.connections.next }
    {
        if let Event::Connected | Event::Received(Stream::Updates, _) = event {
            self.looked = micros(self.rt);
        }
    }

    // The update stream was lost.
    fn lost(&mut self, loss: Loss)
        ensures record { self.new.logs.recorder ≡ self.old.logs.recorder }
        ensures numbers { self.new.connections.next ≡ self.old.connections.next }
    {
        let (alloc, time) = (self.alloc, unix_millis(self.rt));
        if let Ok(why) = words_of(alloc, loss, self.next_message.message()) {
            note_down(alloc, &mut self.admin.status, time, why.as_str());
            log_loss(alloc, &mut self.logs.updates, time, why.as_str());
        }
    }

    // The update stream could not be connected, for this cause.
    fn unreachable(&mut self, cause: &io::Error)
        ensures { self.new.trace ≡ self.old.trace }
    {
        let time = unix_millis(self.rt);
        note_down(self.alloc, &mut self.admin.status, time, "unreachable");
        log_unreachable(self.alloc, &mut self.logs.updates, time, cause);
    }
}

impl<'m, 'r, R: Clock, F: LogFiles + Drop> Observer<Conn, Served<'m>> for Observers<'r, R, F> {
    ghost seen = { λ o. events_of o.trace.turns };

    fn see(
        &mut self,
        event: &Event<'_, Conn>,
        outcome: Option<Outcome>,
        service: &Served<'m>,
        now: u64,
    )
        ensures seen { events_of self.new.trace.turns ≡ event_view event.now ∷ events_of self.old.trace.turns }
        ensures control { self.new.control ≡ after_event (event_view event.now) (is_some outcome) self.old.control }
        ensures shown { Shows self.new.control self.new.admin.metrics }
        ensures same { is_some self.new.logs.recorder ≡ is_some self.old.logs.recorder }
        ensures records { IfSome self.old.logs.recorder (λ old. IfSome self.new.logs.recorder (λ new. RecordsEvent F.File.contents service.now (is_some outcome) (event_view event.now)
            (self.old.connections.next, (old.connections.items, old.open_files)) (self.new.connections.next, (new.connections.items, new.open_files)))) }
    {
        let trace = self.trace.then(&Note::Took(event));
        let mut control = self.control;
        control.see(event, outcome.is_some());
        let passed = self.passed(event, now);
        let number = self.number(event, outcome);
        let record = self.record_event(event, outcome, number, service);
        self.note(event, outcome, record, service, passed);
        self.look(event);
        self.set_control(control);
        self.trace = trace;
    }

    fn failed(&mut self, failed: Failed, cause: io::Error)
        ensures seen { events_of self.new.trace.turns ≡ events_of self.old.trace.turns }
        ensures control { self.new.control ≡ after_failed_opening failed self.old.control }
        ensures shown { Shows self.new.control self.new.admin.metrics }
    {
        let mut control = self.control;
        control.opening_fails(failed);
        match failed {
            Failed::Accept => {
                self.admin.metrics.refused_connection();
                self.refused = Some(cause);
            }
            Failed::Connect => self.unreachable(&cause),
        }
        self.set_control(control);
    }
}
