//! A record of all events of a server, which a replay judges again.
ghost use Rattle.std.specs.Prelude.{◌≡◌, ◌<◌, ℕ, true, [], ◌∷◌, None, Some, IfOk, IfSome, IsSome, OnErr, OnOk, length};
ghost use Rattle.attributes.specs.Conn.{conn_view};
ghost use Rattle.proxy_core.specs.Events.{ads_lost, ads_up};
ghost use Rattle.serve_log.specs.Beginnings.{GoesOn, IsBegun, IsBegunBy, IsNew};
ghost use Rattle.serve_log.specs.Files.{AddsNothing, AddsToAll, counted, files_of};
ghost use Rattle.serve_log.specs.Recording.{Begins, Ends, Feeds, KeepsOthers, Moves, Opens, Receives, connection_at};

use crate::beginning::begin;
use crate::connection::{Connection, put_into, take_from};
use crate::event_lines::{closed_line, lost_line, opened_line, up_line};
use crate::faults::Fault;
use crate::files::LogFiles;
use crate::names::FileNames;
use crate::open_files::OpenFiles;
use crate::pieces::{deliver, feed};
use crate::record_file::{RecordFile, UserChange};
use crate::updates::{UpdateBytes, Updates};
use attributes::Conn;
use std::alloc::{AllocError, Global};
use std::io::{self, Write};

// How long no new file is tried after one could not be begun, in milliseconds.
const PAUSE: u64 = 60_000;

/// Where a line is in a record.
#[derive(Clone, Copy, PartialEq, Eq, Debug)]
pub struct RecordPosition {
    /// The number of the file, counted from 1 since the server began. See `Recorder::name`.
    pub file: u64,
    /// The number of the line in that file, counted from 1.
    pub line: u64,
}

/// The settings of a record.
#[derive(Clone, Copy)]
pub struct RecordSettings<'a> {
    /// The path of the file that is written. Older ones have `.1`, `.2` and so on added to it.
    pub path: &'a str,
    /// A new file is begun once a file has so many bytes.
    pub bytes: u64,
    /// How many older files are kept, at most 1,000.
    pub older: u32,
    /// How many filters the configuration has.
    pub filters: usize,
}

/// A record of all events of a server, which a replay judges again. Each file is whole: it begins with what gives a new
/// proxy core the same policies and the same number of accepted responses. The number `k` of a connection is the
/// server's, and is never used again.
///
/// A connection's events stay in the file that has its earlier ones, until it is fresh. Then it opens again in the file
/// that is written. Of the older files two stay open, each until it has twice the bytes of a full one. If a connection
/// needs another file, or one with a lost line, its events are not recorded until it is fresh.
///
/// A file ends at a line that is lost. Once what waited for it is written, a new file is begun.
#[derive(Drop)]
pub struct Recorder<F: LogFiles + Drop> {
    alloc: Global,
    files: F,
    names: FileNames,
    bytes: u64,
    updates: Updates,
    connections: Vec<Option<Connection>>,
    open_files: OpenFiles<F::File>,
    // no new file is begun before this time
    paused_until: u64,
}

impl<F: LogFiles + Drop> Recorder<F> {
    /// A record for a server to which nothing has happened. A file that has the path becomes an older one.
    pub fn new(alloc: Global, files: F, settings: &RecordSettings<'_>) -> io::Result<Recorder<F>>
        ensures { IfOk result (λ r. IsNew r.updates × IsBegun F.File.contents r.updates 1 r.open_files.current
            × (files_of r.open_files ≡ r.open_files.current ∷ []) × (r.open_files.faults.dropped ≡ 0)) }
    {
        match Recorder::try_new(alloc, files, settings) {
            Ok(recorder) => Ok(recorder),
            Err(fault) => Err(fault.error()),
        }
    }

    fn try_new(alloc: Global, files: F, settings: &RecordSettings<'_>) -> Result<Recorder<F>, Fault>
        ensures { IfOk result (λ r. IsNew r.updates × IsBegun F.File.contents r.updates 1 r.open_files.current
            × (files_of r.open_files ≡ r.open_files.current ∷ []) × (r.open_files.faults.dropped ≡ 0)) }
    {
        let names = FileNames::new(alloc, settings.path, settings.older)?;
        let updates = Updates::new(alloc, settings.filters)?;
        let file = begun(alloc, &files, &names, &updates, 1)?;
        Ok(Recorder {
            alloc,
            files,
            names,
            bytes: settings.bytes,
            updates,
            connections: Vec::new(alloc),
            open_files: OpenFiles::new(alloc, file),
            paused_until: 0,
        })
    }

    /// The update stream comes up.
    pub fn up(&mut self)
        ensures adds { AddsToAll F.File.contents (ads_up ∷ []) self.old.open_files self.new.open_files }
        ensures connections { self.new.connections ≡ self.old.connections }
    {
        self.updates.set_up(true);
        self.open_files.add_to_all(&up_line(self.alloc));
    }

    /// The update stream delivers bytes, of which at most the last one completes a response.
    pub fn fed(&mut self, bytes: &[u8], fed: &UpdateBytes<'_>)
        ensures adds { Feeds F.File.contents bytes.now self.old.open_files self.new.open_files }
        ensures connections { self.new.connections ≡ self.old.connections }
    {
        feed(self.alloc, &mut self.open_files, bytes);
        self.updates.feed(bytes, fed);
    }

    /// The update stream is lost.
    pub fn lost(&mut self)
        ensures adds { AddsToAll F.File.contents (ads_lost ∷ []) self.old.open_files self.new.open_files }
        ensures connections { self.new.connections ≡ self.old.connections }
    {
        self.updates.set_up(false);
        self.open_files.add_to_all(&lost_line(self.alloc));
    }

    /// A connection with this number and these facts opens in a place. A connection that is open there is forgotten.
    pub fn opened(&mut self, place: usize, number: u64, facts: &Conn)
        ensures adds { Begins F.File.contents number (conn_view facts.now)
            (connection_at place self.new.connections.items) self.old.open_files self.new.open_files }
        ensures others { KeepsOthers place self.old.connections.items self.new.connections.items }
    {
        let _ = self.take(place);
        match self.begun_in(place, number, facts) {
            Ok(connection) => {
                let connection = self.opened_here(connection);
                self.put(place, connection);
            }
            Err(AllocError) => self.open_files.lose(Fault::Memory),
        }
    }

    /// The connection in a place delivers bytes. It is fresh if it keeps no unread bytes and no rest of a body after
    /// them. Returns where the line of the bytes is, the last one if there are several; none if they are not recorded.
    pub fn received(&mut self, place: usize, bytes: &[u8], is_fresh: bool) -> Option<RecordPosition>
        ensures adds { Receives F.File.contents bytes.now is_fresh (connection_at place self.old.connections.items)
            (connection_at place self.new.connections.items) self.old.open_files self.new.open_files }
        ensures others { KeepsOthers place self.old.connections.items self.new.connections.items }
    {
        match self.take(place) {
            Some(connection) => {
                let connection = self.moved(connection);
                let line = deliver(self.alloc, &mut self.open_files, &connection, bytes);
                let position = position_of(connection.file, line);
                self.put(place, connection.after_bytes(line.is_some(), is_fresh));
                position
            }
            None => None,
        }
    }

    /// The connection in a place is closed.
    pub fn closed(&mut self, place: usize)
        ensures adds { Ends F.File.contents (connection_at place self.old.connections.items) self.old.open_files self.new.open_files }
        ensures place { connection_at place self.new.connections.items ≡ None }
        ensures others { KeepsOthers place self.old.connections.items self.new.connections.items }
    {
        match self.take(place) {
            Some(connection) => {
                let line = closed_line(self.alloc, connection.number);
                let _ = self.open_files.add(connection.file, &line);
            }
            None => {}
        }
    }

    /// Writes once to each open file, if lines wait for it. Begins a new file if the current one is full. Times are in
    /// milliseconds.
    pub fn flush(&mut self, now_ms: u64)
        ensures current { GoesOn F.File.contents self.old.updates self.old.open_files self.new.open_files }
        ensures connections { self.new.connections ≡ self.old.connections }
    {
        self.open_files.flush(now_ms, self.bytes);
        if self.is_due(now_ms) {
            self.go_on_later(now_ms);
        }
    }

    /// Begins a new file. If that fails, the record goes on in the file that it has.
    pub fn reopen(&mut self)
        ensures current { GoesOn F.File.contents self.old.updates self.old.open_files self.new.open_files }
        ensures connections { self.new.connections ≡ self.old.connections }
    {
        match self.begin() {
            Ok(()) => {}
            Err(fault) => self.open_files.faults.note(fault),
        }
    }

    /// The present name of the file with this number. The latest file has the path itself, the one before it has `.1`
    /// added, and so on. None if the file is not kept, or if memory runs out.
    pub fn name(&self, file: u64) -> Option<String> {
        let later = self.open_files.current.number().checked_sub(file)?;
        self.names.name(later)?.ok()
    }

    /// The number of the file that is written.
    pub fn file(&self) -> u64
        ensures { result ≡ self.now.open_files.current.number }
    {
        self.open_files.current.number()
    }

    /// How many lines were dropped.
    pub fn dropped(&self) -> u64
        ensures { result ≡ self.now.open_files.faults.dropped }
    {
        self.open_files.faults.dropped()
    }

    /// A text for standard error, if a call failed or lines were dropped since the last one. It has the path, the first
    /// cause and the number of lines. There is at most one in a minute.
    pub fn fault_report(&mut self, now_ms: u64) -> Option<String> {
        let name = self.names.path();
        self.open_files
            .faults
            .fault_report(self.alloc, name, now_ms)
    }

    // Whether a new file is to be begun: the one that is written is full, or has lost a line and waits for nothing.
    fn is_due(&self, now_ms: u64) -> bool {
        let current = &self.open_files.current;
        let is_broken = !current.is_whole() && current.is_written();
        now_ms >= self.paused_until && (is_broken || current.is_full(self.bytes))
    }

    // Begins a new file. If that fails, none is tried for a minute after this time.
    fn go_on_later(&mut self, now_ms: u64)
        ensures current { GoesOn F.File.contents self.old.updates self.old.open_files self.new.open_files }
        ensures connections { self.new.connections ≡ self.old.connections }
    {
        match self.begin() {
            Ok(()) => {}
            Err(fault) => {
                self.open_files.faults.note(fault);
                self.paused_until = now_ms.saturating_add(PAUSE);
            }
        }
    }

    // Begins a new file.
    fn begin(&mut self) -> Result<(), Fault>
        ensures begun { OnOk result (GoesOn F.File.contents self.old.updates self.old.open_files self.new.open_files) }
        ensures fault { OnErr result (self.new.open_files ≡ self.old.open_files) }
        ensures connections { self.new.connections ≡ self.old.connections }
    {
        let number = self.file().saturating_add(1);
        let file = begun(self.alloc, &self.files, &self.names, &self.updates, number)?;
        self.open_files.change(file);
        Ok(())
    }

    // A connection with this number and these facts, which is in no file yet, and room for it in its place.
    fn begun_in(
        &mut self,
        place: usize,
        number: u64,
        facts: &Conn,
    ) -> Result<Connection, AllocError>
        ensures number { IfOk result (λ c. (c.number ≡ number) × (c.is_fresh ≡ true)) }
        ensures facts { IfOk result (λ c. conn_view c.facts ≡ conn_view facts.now) }
        ensures room { OnOk result (place < length self.new.connections.items) }
        ensures connections { (k : ℕ) → connection_at k self.new.connections.items ≡ connection_at k self.old.connections.items }
        ensures files { self.new.open_files ≡ self.old.open_files }
    {
        self.make_room(place)?;
        let facts = facts.copy()?;
        Ok(Connection {
            number,
            facts,
            file: 0,
            is_fresh: true,
        })
    }

    // Makes room for a connection in a place.
    fn make_room(&mut self, place: usize) -> Result<(), AllocError>
        ensures room { OnOk result (place < length self.new.connections.items) }
        ensures connections { (k : ℕ) → connection_at k self.new.connections.items ≡ connection_at k self.old.connections.items }
        ensures files { self.new.open_files ≡ self.old.open_files }
    {
        'places: while self.connections.len() <= place {
            self.connections.push(None)?;
        }
        Ok(())
    }

    // The connection, which opens in the file that is written if it is fresh and that file has not its events.
    fn moved(&mut self, connection: Connection) -> Connection
        ensures moves { Moves F.File.contents connection result self.old.open_files self.new.open_files }
        ensures connections { self.new.connections ≡ self.old.connections }
    {
        if !connection.is_fresh {
            return connection;
        }
        if connection.file == self.file() {
            return connection;
        }
        self.opened_here(connection)
    }

    // The connection, which opens in the file that is written.
    fn opened_here(&mut self, connection: Connection) -> Connection
        ensures opens { Opens F.File.contents connection result self.old.open_files self.new.open_files }
        ensures connections { self.new.connections ≡ self.old.connections }
    {
        let current = self.file();
        let text = opened_line(self.alloc, connection.number, &connection.facts);
        let line = self.open_files.add(current, &text);
        connection.opened_in(current, line.is_some())
    }

    // Takes the connection out of a place.
    fn take(&mut self, place: usize) -> Option<Connection>
        ensures found { result ≡ connection_at place self.old.connections.items }
        ensures nothing { AddsNothing F.File.contents 0 self.old.open_files self.new.open_files }
        ensures place { connection_at place self.new.connections.items ≡ None }
        ensures room { IsSome result → place < length self.new.connections.items }
        ensures others { KeepsOthers place self.old.connections.items self.new.connections.items }
    {
        match take_from(&mut self.connections, place) {
            Some(connection) => {
                self.open_files.change_users(&connection, UserChange::Less);
                Some(connection)
            }
            None => None,
        }
    }

    // Puts a connection into a place, if there is one.
    fn put(&mut self, place: usize, connection: Connection)
        ensures nothing { AddsNothing F.File.contents 0 self.old.open_files self.new.open_files }
        ensures place { place < length self.old.connections.items
            → connection_at place self.new.connections.items ≡ Some connection }
        ensures others { KeepsOthers place self.old.connections.items self.new.connections.items }
    {
        self.open_files.change_users(&connection, UserChange::More);
        put_into(&mut self.connections, place, connection);
    }
}

// Where a line of this number is in a file of this number.
fn position_of(file: u64, line: Option<u64>) -> Option<RecordPosition>
    ensures { IfSome result (λ position. (position.file ≡ file) × (Some position.line ≡ line)) }
{
    match line {
        Some(line) => Some(RecordPosition { file, line }),
        None => None,
    }
}

// A file with this number that has its beginning and the path of the record. After an error all files have the names
// that they had, unless one cannot be renamed.
fn begun<F: LogFiles>(
    alloc: Global,
    files: &F,
    names: &FileNames,
    updates: &Updates,
    number: u64,
) -> Result<RecordFile<F::File>, Fault>
    ensures { IfOk result (λ file. IsBegun F.File.contents updates.now number file) }
{
    if !updates.is_complete() {
        return Err(Fault::Memory);
    }
    let name = names.unfinished()?;
    let _ = files.remove(name.as_str());
    let writer = files.append(name.as_str())?;
    let fault = match begun_file(alloc, number, writer, updates) {
        Ok(file) => match names.shift(files) {
            Ok(()) => return Ok(file),
            Err(fault) => fault,
        },
        Err(fault) => fault,
    };
    let _ = files.remove(name.as_str());
    Err(fault)
}

// A file of this writer with this number that has its beginning.
fn begun_file<W: Write + Drop>(
    alloc: Global,
    number: u64,
    writer: W,
    updates: &Updates,
) -> Result<RecordFile<W>, Fault>
    ensures { IfOk result (λ file. IsBegunBy W.contents writer updates.now number file) }
{
    let mut file = RecordFile::new(alloc, number, writer);
    begin(alloc, updates, &mut file)?;
    Ok(file)
}
