//! The front of a connection.
ghost use Rattle.std.specs.Prelude.{◌≡◌, ◌≤◌, ◌++◌, ◌↔◌, [], IfOk, IfSome, IsTrue, Ok, OnErr, OnOk, drop, option_map, true, false, vec_len};
ghost use Rattle.std.specs.Bool.{OnTrue};
ghost use Rattle.attributes.specs.Conn.{Facts, conn_view};
ghost use Rattle.attributes.specs.Headers.{lines_view};
ghost use Rattle.http_front.specs.Answer.{answer_of, reply_view};
ghost use Rattle.http_front.specs.Front.{HasNoAsk, TakesNext, fed_front, keeping, new_front};
ghost use Rattle.http_front.specs.Heads.{closed, is_closed, reading, rest_of_body};
ghost use Rattle.http_front.specs.Lines.{AreNextLines};
ghost use Rattle.http_front.specs.private.Turns.{IsNextTurn, passing};

use crate::answer::Reply;
use crate::ask::Ask;
use crate::lines::lines_at;
use crate::read::HEAD_ROOM;
use crate::scan::Scan;
use crate::turn::{Turn, turn_of};
use attributes::{Conn, Limits};
use byte_queue::append;
use std::alloc::{AllocError, Global};
use std::marker::Model;
use std::sync::Arc;

/// Gives the asks in the bytes of a connection, in whatever pieces these arrive (RFC 9112). It does not keep bytes
/// whose ask was given. It does not keep bytes of a body that arrive after the ask of its head was taken.
#[derive(Drop)]
pub struct Front {
    limits: Limits,
    conn: Conn,
    // a copy of the facts, made for the first head; all heads share it
    shared: Option<Arc<Conn>>,
    bytes: Vec<u8>,
    // where the bytes begin whose ask was not given yet
    at: usize,
    // how many bytes of a body are still to be skipped
    skip: u64,
    is_closed: bool,
    // whether a head was looked for in some bytes and is incomplete. Then further bytes are scanned, and the head is
    // parsed again only if the scan stops. Without bytes the next ones are parsed at once
    is_tried: bool,
    // the scan of the first bytes whose ask was not given, and their number
    scan: Scan,
    seen: usize,
}

impl Model for Front {
    ghost use Rattle.std.specs.Prelude.{◌≡◌, ◌≤◌, IfSome, drop, vec_len};
    ghost use Rattle.attributes.specs.Conn.{conn_view};
    ghost use Rattle.http_front.specs.Front.{FrontValue};
    ghost use Rattle.http_front.specs.private.Turns.{front_of, kept_of};
    ghost use Rattle.http_front.specs.private.Scans.{AreSeen};

    ghost Value = { FrontValue };

    ghost view = { λ f. front_of f.limits (conn_view f.conn) (kept_of f.is_closed f.skip f.at f.bytes.items) };

    ghost invariant = { λ f. (f.at ≤ vec_len f.bytes) × AreSeen f.scan f.seen (drop f.at f.bytes.items)
        × IfSome f.shared (λ shared. conn_view shared.value ≡ conn_view f.conn) };
}

impl Front {
    /// The front of a connection with these facts, without bytes yet. A request outside the limits is a fault.
    pub fn new(alloc: Global, limits: Limits, conn: Conn) -> Front
        ensures { result ≡ new_front limits (conn_view conn) }
    {
        Front {
            limits,
            conn,
            shared: None,
            bytes: Vec::new(alloc),
            at: 0,
            skip: 0,
            is_closed: false,
            is_tried: false,
            scan: Scan::Blank,
            seen: 0,
        }
    }

    /// A copy of the front.
    pub fn copy(&self) -> Result<Front, AllocError>
        ensures { IfOk result (λ copy. copy ≡ self.now) }
    {
        Ok(Front {
            limits: self.limits,
            conn: self.conn.copy()?,
            shared: copy_shared(&self.shared)?,
            bytes: Vec::from_slice(*self.bytes.allocator(), &self.bytes[self.at..])?,
            at: 0,
            skip: self.skip,
            is_closed: self.is_closed,
            is_tried: self.is_tried,
            scan: self.scan,
            seen: self.seen,
        })
    }

    /// Takes further bytes.
    pub fn feed(&mut self, bytes: &[u8]) -> Result<(), AllocError>
        ensures found { OnOk result (self.new ≡ fed_front self.old bytes.now) }
        ensures fault { OnErr result (self.new ≡ self.old) }
    {
        if self.is_closed {
            return Ok(());
        }
        let passed = self.skip.min(bytes.len() as u64);
        append(&mut self.bytes, &mut self.at, &bytes[passed as usize..])?;
        self.skip -= passed;
        Ok(())
    }

    /// Takes further bytes if it is certain that there is no ask after them, and says whether it did. Then the bytes
    /// need not be fed.
    pub fn keeps(&mut self, bytes: &[u8]) -> Result<bool, AllocError>
        ensures kept { result ≡ Ok true → (self.new ≡ fed_front self.old bytes.now) × HasNoAsk self.new }
        ensures left { result ≡ Ok false → self.new ≡ self.old }
        ensures fault { OnErr result (self.new ≡ self.old) }
    {
        if self.is_closed {
            return Ok(true);
        }
        if self.skip > bytes.len() as u64 {
            self.skip -= bytes.len() as u64;
            return Ok(true);
        }
        if self.skip > 0 || !self.is_tried {
            return Ok(false);
        }
        let before = self.bytes.len();
        self.bytes.extend_from_slice(bytes)?;
        let rest = &self.bytes[self.at..];
        let scan = self.scan.go_on(rest, self.seen);
        let seen = rest.len();
        if seen <= HEAD_ROOM && scan.is_open() {
            self.scan = scan;
            self.seen = seen;
            return Ok(true);
        }
        self.bytes.truncate(before);
        Ok(false)
    }

    /// The next ask, in order, if there is one.
    pub fn next(&mut self) -> Result<Option<Ask>, AllocError>
        ensures found { IfOk result (λ answer. TakesNext self.old answer self.new) }
        ensures fault { OnErr result (self.new ≡ self.old) }
    {
        if self.goes_on() {
            return Ok(None);
        }
        let conn = self.shared_conn()?;
        let turn = self.turn(&conn)?;
        Ok(self.take(turn))
    }

    /// The field lines of the next ask, in order of arrival, each a name in lower case and a value. `None` if its head
    /// breaks a rule, or is incomplete.
    pub fn lines(&self) -> Result<Option<Vec<(String, String)>>, AllocError>
        ensures { IfOk result (λ found. AreNextLines self.now (option_map (λ lines. lines_view lines.items) found)) }
    {
        if self.is_closed || self.skip > 0 {
            return Ok(None);
        }
        lines_at(*self.bytes.allocator(), &self.bytes[self.at..])
    }

    /// Whether the connection closes after the asks that were taken.
    pub fn is_closed(&self) -> bool
        ensures { result ≡ is_closed self.now.kept }
    {
        self.is_closed
    }

    /// Whether it is as a new front is: it keeps no byte, and no byte of a body is still to be skipped.
    pub fn is_fresh(&self) -> bool
        ensures { IsTrue result ↔ (self.now.kept ≡ reading 0 []) }
    {
        !self.is_closed && self.skip == 0 && self.at == self.bytes.len()
    }

    /// How many bytes of a body are still to come, whose ask was taken; 0 if none is.
    pub fn rest_of_body(&self) -> u64
        ensures { result ≡ rest_of_body self.now.kept }
    {
        if self.is_closed {
            return 0;
        }
        self.skip
    }

    /// The bytes of an answer.
    pub fn answer(alloc: Global, reply: &Reply) -> Result<Vec<u8>, AllocError>
        ensures { IfOk result (λ bytes. bytes.items ≡ answer_of (reply_view reply.now)) }
    {
        reply.bytes(alloc)
    }

    // If a head was looked for, scans the bytes that were not scanned. True if it is certain that there is no ask yet.
    fn goes_on(&mut self) -> bool
        ensures same { self.new ≡ self.old }
        ensures rest { OnTrue result (HasNoAsk self.old) }
    {
        if !self.is_tried && self.at < self.bytes.len() {
            return false;
        }
        let rest = &self.bytes[self.at..];
        self.scan = self.scan.go_on(rest, self.seen);
        self.seen = rest.len();
        if self.seen > HEAD_ROOM {
            return false;
        }
        self.scan.is_open()
    }

    // The facts of the connection, as all heads share them.
    fn shared_conn(&mut self) -> Result<Arc<Conn>, AllocError>
        ensures same { self.new ≡ self.old }
        ensures conn { IfOk result (λ conn. conn_view conn.value ≡ self.old.facts) }
    {
        if let Some(shared) = &self.shared {
            return shared.clone();
        }
        let shared = Arc::new(*self.bytes.allocator(), self.conn.copy()?)?;
        self.shared = Some(shared.clone()?);
        Ok(shared)
    }

    // The first ask, and how the bytes continue after it, on the connection `conn`, which is this one.
    fn turn(&self, conn: &Arc<Conn>) -> Result<Turn, AllocError>
        requires { conn_view conn.now.value ≡ self.now.facts }
        ensures { IfOk result (IsNextTurn self.now.limits self.now.facts self.now.kept) }
    {
        if self.is_closed || self.skip > 0 {
            return Ok(Turn::Rest);
        }
        turn_of(
            *self.bytes.allocator(),
            &self.limits,
            conn,
            &self.bytes[self.at..],
        )
    }

    // Takes the first ask, if there is one.
    #[inline(always)]
    fn take(&mut self, turn: Turn) -> Option<Ask>
        requires { IsNextTurn self.old.limits self.old.facts self.old.kept turn }
        ensures { TakesNext self.old result self.new }
    {
        match turn {
            Turn::Rest => {
                self.is_tried = self.skip == 0 && self.at < self.bytes.len();
                None
            }
            Turn::Close(ask) => {
                self.close();
                Some(ask)
            }
            Turn::Pass(request, count) => {
                self.pass(count);
                Some(Ask::Judge(request, false))
            }
        }
    }

    // Forgets all bytes: nothing follows an ask that closes the connection.
    fn close(&mut self)
        ensures { self.new ≡ keeping self.old closed }
    {
        self.is_closed = true;
        self.bytes = Vec::new(*self.bytes.allocator());
        self.at = 0;
        self.scan = Scan::Blank;
        self.seen = 0;
    }

    // Skips a head and its body.
    fn pass(&mut self, count: u64)
        ensures { self.new ≡ keeping self.old (passing count self.old.kept) }
    {
        let here = count.min((self.bytes.len() - self.at) as u64);
        self.at += here as usize;
        self.skip = count - here;
        self.is_tried = false;
        self.scan = Scan::Blank;
        self.seen = 0;
    }
}

// The same facts, shared once more.
fn copy_shared(shared: &Option<Arc<Conn>>) -> Result<Option<Arc<Conn>>, AllocError>
    ensures { (facts : Facts) → IfSome shared.now (λ conn. conn_view conn.value ≡ facts)
        → IfOk result (λ copy. IfSome copy (λ conn. conn_view conn.value ≡ facts)) }
{
    match shared {
        Some(conn) => Ok(Some(conn.clone()?)),
        None => Ok(None),
    }
}
