//! The connections of the admin port.
ghost use Rattle.std.specs.Prelude.{◌≡◌, [], true, false, None, IfOk};
ghost use Rattle.serve_loop.specs.Earliest.{IsEarliest};

use crate::admin_stream::{AdminStream, Next};
use serve_admin::{Admin, AdminConnection};
use serve_loop::earliest;
use serve_net::{Places, Sockets};
use std::alloc::{AllocError, Global};
use std::fs::Files;
use std::hash::RandomState;
use std::io::{ErrorKind, Input};
use std::net::Net;
use std::rt::Clock;

// How many connections to the admin port are served at once.
const PLACES: usize = 16;
// One place more is only for a connection that takes the place of the one that is silent for the longest time.
const ALL_PLACES: usize = PLACES + 1;
// How long such a connection may take, in milliseconds.
const TIME: u64 = 10_000;

/// What is to be done at the admin port.
#[derive(Drop)]
pub(crate) struct AdminReady {
    /// Whether connections may wait to be accepted.
    pub(crate) waits: bool,
    /// The places that may be read or written.
    pub(crate) due: Vec<usize>,
}

impl AdminReady {
    /// Nothing is to be done.
    pub(crate) fn new(alloc: Global) -> AdminReady
        ensures { (result.waits ≡ false) × (result.due.items ≡ []) }
    {
        AdminReady {
            waits: false,
            due: Vec::new(alloc),
        }
    }
}

/// The connections of the admin port.
#[derive(Drop)]
pub(crate) struct AdminPort {
    alloc: Global,
    keys: RandomState,
    admin_streams: Places<AdminStream>,
}

impl AdminPort {
    /// No connection is open. The keys are secret.
    pub(crate) fn new(alloc: Global, keys: RandomState) -> Result<AdminPort, AllocError>
        ensures { IfOk result (λ port. port.keys ≡ keys) }
    {
        Ok(AdminPort {
            alloc,
            keys,
            admin_streams: Places::new(alloc, ALL_PLACES)?,
        })
    }

    /// Accepts connections, and gives a turn to each that is due. Times are in milliseconds since a fixed time.
    pub(crate) fn turn<R: Net + Files + Clock + Input>(
        &mut self,
        sockets: &mut Sockets<'_, R>,
        ready: &mut AdminReady,
        admin: &mut Admin,
        now: u64,
    ) -> Result<(), AllocError> {
        for _ in 0..PLACES {
            if ready.waits {
                self.accept(sockets, ready, now)?;
            }
        }
        let count = ready.due.len();
        for at in 0..count {
            if let Some(k) = ready.due.get(at) {
                let k = *k;
                if self.visit(k, admin, now) == Next::Again {
                    ready.due.push(k)?;
                }
            }
        }
        let done = count.min(ready.due.len());
        ready.due.drain(..done);
        self.end_late(now);
        Ok(())
    }

    // Accepts the next connection. If all places are taken then, the one that is silent for the longest time is closed. If
    // the system has no room for it, it is tried again in a later turn.
    fn accept<R: Net + Files + Clock + Input>(
        &mut self,
        sockets: &mut Sockets<'_, R>,
        ready: &mut AdminReady,
        now: u64,
    ) -> Result<(), AllocError> {
        let Some(k) = self.admin_streams.first_free() else {
            return Ok(());
        };
        match sockets.accept_admin(k) {
            Ok(stream) => {
                let heard = self.heard();
                let connection = AdminConnection::new(self.alloc, self.keys);
                self.admin_streams
                    .put(k, AdminStream::new(stream, connection, now));
                let has_free = self.admin_streams.first_free().is_some();
                if let Some(longest) = given_up(has_free, &heard) {
                    self.admin_streams.free(longest);
                }
                ready.due.push(k)?;
                Ok(())
            }
            Err(error) => {
                ready.waits = error.kind() != ErrorKind::WouldBlock;
                Ok(())
            }
        }
    }

    // When each connection was heard last, by place; none where none is open.
    fn heard(&self) -> [Option<u64>; ALL_PLACES] {
        let mut times: [Option<u64>; ALL_PLACES] = [None; ALL_PLACES];
        for (k, time) in times.iter_mut().enumerate() {
            if let Some(admin_stream) = self.admin_streams.get(k) {
                *time = Some(admin_stream.heard());
            }
        }
        times
    }

    // One turn of the connection in a place.
    fn visit(&mut self, k: usize, admin: &mut Admin, now: u64) -> Next {
        let next = match self.admin_streams.get_mut(k) {
            Some(admin_stream) => admin_stream.turn(admin, now),
            None => Next::Waits,
        };
        if next == Next::Over {
            self.admin_streams.free(k);
        }
        next
    }

    // Ends the connections that take too long.
    fn end_late(&mut self, now: u64) {
        for k in 0..self.admin_streams.len() {
            let is_late = match self.admin_streams.get(k) {
                Some(admin_stream) => admin_stream.is_older(TIME, now),
                None => false,
            };
            if is_late {
                self.admin_streams.free(k);
            }
        }
    }
}

// Whose place is freed, of connections that were heard last at these times. It is none while a place is free, and else
// that of the one that is silent for the longest time.
fn given_up(has_free: bool, heard: &[Option<u64>]) -> Option<usize>
    ensures free { has_free ≡ true → result ≡ None }
    ensures full { has_free ≡ false → IsEarliest heard.now result }
{
    if has_free {
        return None;
    }
    earliest(heard)
}
