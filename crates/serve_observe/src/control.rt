//! What is known of the control plane: whether its stream is open and its file can be read, and how often that failed.
//! Also what the log of updates says of the file.
ghost use Rattle.std.specs.Prelude.{◌≡◌, ◌&&◌};
ghost use Rattle.serve_loop.specs.Events.{event_view};
ghost use Rattle.serve_observe.specs.Control.{after_event, after_failed_look, after_failed_opening, after_good_look, is_due, is_up, no_control};
ghost use Rattle.serve_observe.specs.Sampling.{one_more};

use attributes::Conn;
use serve_loop::{Event, Failed, Stream};

// How often one thing is reported at most, in milliseconds.
const SILENCE: u64 = 60_000;

/// Whether something is to be reported that was last reported at this time, if it was: at most once a minute. Times are in
/// milliseconds since a fixed time.
pub fn is_due(last: Option<u64>, now: u64) -> bool
    ensures { result ≡ is_due last now }
{
    match last {
        Some(last) => now.saturating_sub(last) >= SILENCE,
        None => true,
    }
}

/// What is known of the control plane.
#[derive(Clone, Copy, Debug)]
pub struct ControlState {
    // whether the update stream is open
    is_open: bool,
    // whether the last look at its file failed
    is_unread: bool,
    // how many openings and looks failed; the greatest number stays
    errors: u64,
    // when it was last logged that the file cannot be read; none if it was not
    logged: Option<u64>,
    // whether the log says that the file cannot be read, and not since that it can
    says_unread: bool,
}

impl ControlState {
    /// The stream was not opened yet.
    pub(crate) fn new() -> ControlState
        ensures { result ≡ no_control }
    {
        ControlState {
            is_open: false,
            is_unread: false,
            errors: 0,
            logged: None,
            says_unread: false,
        }
    }

    /// Whether the stream is open and its file can be read.
    pub(crate) fn is_up(&self) -> bool
        ensures { result ≡ is_up self.now }
    {
        self.is_open && !self.is_unread
    }

    /// How many openings and looks failed.
    pub(crate) fn errors(&self) -> u64
        ensures { result ≡ self.now.errors }
    {
        self.errors
    }

    /// An event happens, which the service took, or at which memory ran out.
    pub(crate) fn see(&mut self, event: &Event<'_, Conn>, is_taken: bool)
        ensures { self.new ≡ after_event (event_view event.now) is_taken self.old }
    {
        match *event {
            Event::Connected => {
                if is_taken {
                    self.is_open = true;
                    self.is_unread = false;
                    self.says_unread = false;
                }
            }
            Event::Closed(Stream::Updates, _) => self.is_open = false,
            Event::Closed(Stream::Place(_), _) => {}
            Event::Accepted(_, _) | Event::Received(_, _) | Event::Drain => {}
        }
    }

    /// An opening fails: of a connection, or of the stream.
    pub(crate) fn opening_fails(&mut self, failed: Failed)
        ensures { self.new ≡ after_failed_opening failed self.old }
    {
        match failed {
            Failed::Accept => {}
            Failed::Connect => {
                self.is_open = false;
                self.count_failure();
            }
        }
    }

    // One more opening or look fails.
    fn count_failure(&mut self)
        ensures { self.new ≡ record self.old { errors = one_more self.old.errors } }
    {
        self.errors = self.errors.saturating_add(1);
    }

    /// A look at the file fails at this time. Returns whether that is logged: at most once a minute.
    pub(crate) fn look_fails(&mut self, now: u64) -> bool
        ensures due { result ≡ is_due self.old.logged now }
        ensures state { self.new ≡ after_failed_look now self.old }
    {
        self.is_unread = true;
        self.count_failure();
        if !is_due(self.logged, now) {
            return false;
        }
        self.logged = Some(now);
        self.says_unread = true;
        true
    }

    /// A look at the file does not fail any more. Returns whether that is logged: if the log says that the file cannot be
    /// read, and the stream is open. An opening is logged by itself.
    pub(crate) fn look_works(&mut self) -> bool
        ensures due { result ≡ (self.old.says_unread && self.old.is_open) }
        ensures state { self.new ≡ after_good_look self.old }
    {
        let says_unread = self.says_unread;
        self.is_unread = false;
        self.says_unread = false;
        says_unread && self.is_open
    }
}
