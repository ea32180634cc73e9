//! What is done between the turns of the loop: the admin port is served, logs are written, and the status is brought up
//! to date.
ghost use Rattle.std.specs.Prelude.{◌≡◌, ◌&&◌, None, Some, false, if◌then◌else◌, nat_lt};
ghost use Rattle.serve_host.specs.Looks.{after_look};
ghost use Rattle.serve_observe.specs.Control.{is_due};

use crate::admin_port::AdminPort;
use crate::network::HostNetwork;
use attributes::Conn;
use serve_admin::{Admin, AdminAction, Metrics};
use serve_core::Served;
use serve_log::{LogFiles, LogWriter};
use serve_loop::Upkeep;
use serve_net::Look;
use serve_observe::{Logs, Observers, is_due};
use std::alloc::AllocError;
use std::fs::{self, File, Files};
use std::io::{self, ErrorKind, Input, Read, Write};
use std::net::Net;
use std::rt::Clock;

// How often the memory that the process takes is read, and faults of logs are reported, in milliseconds.
const PAUSE: u64 = 1_000;
// How many logs there are, of which each may report its faults.
const LOGS: u8 = 3;
// The size of a page of memory in bytes, on x86-64.
const PAGE: u64 = 4_096;

/// The admin port, and when something was last done.
#[derive(Drop)]
pub(crate) struct HostUpkeep<'r, R: Files> {
    rt: &'r R,
    port: AdminPort,
    // whether memory ran out at the admin port
    lacks_memory: bool,
    errors: LogWriter,
    // the path of the record, if there is one
    record: Option<String>,
    // when it was last reported that the record was removed; none if it was not
    missed: Option<u64>,
    // when faults of logs were last reported
    looked: u64,
    // when it was last reported that connections cannot be accepted; none if it was not
    reported: Option<u64>,
    // how many dropped lines were counted
    dropped: u64,
    // how often the last place was taken at the last look, and when that was last reported; none if it was not
    full: u64,
    full_reported: Option<u64>,
}

impl<'r, R: Files> HostUpkeep<'r, R> {
    /// Complaints go to this writer. The record has this path, if there is one.
    pub(crate) fn new(
        rt: &'r R,
        port: AdminPort,
        errors: LogWriter,
        record: Option<String>,
    ) -> HostUpkeep<'r, R>
        ensures { (result.lacks_memory ≡ false) × (result.missed ≡ None) × (result.reported ≡ None) }
    {
        HostUpkeep {
            rt,
            port,
            lacks_memory: false,
            errors,
            record,
            missed: None,
            looked: 0,
            reported: None,
            dropped: 0,
            full: 0,
            full_reported: None,
        }
    }

    // Begins a new file of the record if its path has none any more.
    fn seek<F: LogFiles + Drop>(&mut self, logs: &mut Logs<F>, now: u64) {
        let Some(path) = &self.record else {
            return;
        };
        let is_gone = match fs::metadata(self.rt, path.as_str()) {
            Ok(_) => false,
            Err(error) => error.kind() == ErrorKind::NotFound,
        };
        if !is_gone {
            return;
        }
        if let Some(recorder) = &mut logs.recorder {
            recorder.reopen();
        }
        if is_due(self.missed, now) {
            self.missed = Some(now);
            let _ = writeln!(
                self.errors,
                "{path}: the record was removed; a new file is begun"
            );
        }
    }

    // Counts the lines that were dropped, reports what is wrong with logs, and reads the memory that the process takes.
    fn look<F: LogFiles + Drop>(&mut self, admin: &mut Admin, logs: &mut Logs<F>, now: u64) {
        if let Ok(pages) = resident_pages(self.rt) {
            admin.status.resident_memory = pages.saturating_mul(PAGE);
        }
        let dropped = logs.dropped();
        admin
            .metrics
            .dropped_lines(dropped.saturating_sub(self.dropped));
        self.dropped = dropped;
        for _ in 0..LOGS {
            if let Some(fault_report) = logs.fault_report(now) {
                let _ = writeln!(self.errors, "{fault_report}");
            }
        }
    }

    // Reports that the limit of connections is reached, if it was since the last look: at most once a minute.
    fn look_at_limit(&mut self, metrics: &Metrics, now: u64)
        ensures full { self.new.full ≡ metrics.now.full }
        ensures reported { self.new.full_reported ≡ (if nat_lt self.old.full metrics.now.full && is_due self.old.full_reported now
            then Some now else self.old.full_reported) }
    {
        let full = metrics.full();
        let is_reached = full > self.full;
        self.full = full;
        if is_reached && is_due(self.full_reported, now) {
            self.full_reported = Some(now);
            let limit = metrics.limit();
            let _ = writeln!(
                self.errors,
                "the limit of {limit} connections is reached: one that is idle for a second gives up its place"
            );
        }
    }

    // Reports why a connection could not be accepted.
    fn complain(&mut self, cause: &io::Error, now: u64)
        ensures { self.new.reported ≡ Some now }
    {
        self.reported = Some(now);
        let _ = writeln!(self.errors, "cannot accept connections: {cause}");
    }
}

/// What needs memory, and may not get it.
pub(crate) trait UsesMemory {
    /// Whether memory ran out.
    fn lacks_memory(&self) -> bool;
}

impl<'r, R: Files> UsesMemory for HostUpkeep<'r, R> {
    fn lacks_memory(&self) -> bool {
        self.lacks_memory
    }
}

impl<'m, 'r, R: Net + Files + Clock + Input, F: LogFiles + Drop> Upkeep<
    Conn,
    HostNetwork<'r>,
    Served<'m>,
    Observers<'r, R, F>,
> for HostUpkeep<'r, R> {
    fn turn(
        &mut self,
        network: &mut HostNetwork<'r>,
        _service: &Served<'m>,
        observer: &mut Observers<'r, R, F>,
        now: u64,
    ) {
        let served = network.serve_admin(&mut self.port, &mut observer.admin, now);
        self.lacks_memory = served.is_err();
        match observer.admin.take_action() {
            Some(AdminAction::Drain) => network.drains = true,
            Some(AdminAction::Reopen) => observer.logs.reopen(),
            None => {}
        }
        if let Some(cause) = network.take_end_words() {
            observer.log_end(cause.as_str());
        }
        if let Some(look) = network.take_look() {
            report_look(observer, &look, now);
        }
        observer.admin.status.control_silence = network.silence();
        observer.admin.status.drains = network.drains;
        observer.admin.metrics.tick(now);
        observer.logs.flush(now);
        if now.saturating_sub(self.looked) < PAUSE {
            return;
        }
        self.looked = now;
        self.look(&mut observer.admin, &mut observer.logs, now);
        self.look_at_limit(&observer.admin.metrics, now);
        if is_due(self.reported, now) {
            if let Some(cause) = observer.refused() {
                self.complain(&cause, now);
            }
        }
        self.seek(&mut observer.logs, now);
    }
}

// Reports what a look at the control plane's file found at this time.
fn report_look<R: Clock, F: LogFiles + Drop>(
    observer: &mut Observers<'_, R, F>,
    look: &Look,
    now: u64,
)
    ensures trace { observer.new.trace ≡ observer.old.trace }
    ensures control { observer.new.control ≡ after_look look.now now observer.old.control }
{
    match look {
        Look::Failed(cause) => observer.look_failed(cause, now),
        Look::Works => observer.look_worked(),
    }
}

// How many pages of memory the process takes: the second number of this file of the system.
fn resident_pages<R: Files>(rt: &R) -> io::Result<u64> {
    let mut room = [0u8; 128];
    let count = File::open(rt, "/proc/self/statm")?.read(&mut room)?;
    let text = str::from_utf8(room.get(..count).unwrap_or(&[])).unwrap_or("");
    let pages = text.split(' ').nth(1).unwrap_or("");
    Ok(pages.parse::<u64>().unwrap_or(0))
}
