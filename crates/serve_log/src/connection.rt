//! A connection of a record.
ghost use Rattle.std.specs.Prelude.{◌≡◌, ◌↔◌, ◌<◌, IsTrue, None, Some, false, set, true};
ghost use Rattle.serve_log.specs.Recording.{connection_at};

use attributes::Conn;
use std::mem;

/// A connection that is open.
#[derive(Drop)]
pub(crate) struct Connection {
    /// Its number; no other connection of the server has it.
    pub(crate) number: u64,
    /// Its facts.
    pub(crate) facts: Conn,
    /// The number of the file that has its events; 0 if none has.
    pub(crate) file: u64,
    /// Whether a new connection with its facts would be served in the same way: none of its bytes wait to be judged.
    pub(crate) is_fresh: bool,
}

impl Connection {
    /// Whether its next event has to go to the file that has its earlier ones.
    pub(crate) fn needs_file(&self) -> bool
        ensures { IsTrue result ↔ ((self.now.is_fresh ≡ false) × (0 < self.now.file)) }
    {
        !self.is_fresh && self.file > 0
    }
    /// The connection after it opened in the file of this number, or in none.
    pub(crate) fn opened_in(self, file: u64, is_there: bool) -> Connection
        ensures same { (result.number ≡ self.number) × (result.facts ≡ self.facts) × (result.is_fresh ≡ self.is_fresh) }
        ensures there { is_there ≡ true → result.file ≡ file }
        ensures lost { is_there ≡ false → result.file ≡ 0 }
    {
        let mut connection = self;
        if is_there {
            connection.file = file;
            return connection;
        }
        connection.file = 0;
        connection
    }

    /// The connection after it delivered bytes. It is in no file if they are not recorded.
    pub(crate) fn after_bytes(self, is_recorded: bool, is_fresh: bool) -> Connection
        ensures same { (result.number ≡ self.number) × (result.facts ≡ self.facts) × (result.is_fresh ≡ is_fresh) }
        ensures recorded { is_recorded ≡ true → result.file ≡ self.file }
        ensures lost { is_recorded ≡ false → result.file ≡ 0 }
    {
        let mut connection = self;
        connection.is_fresh = is_fresh;
        if is_recorded {
            return connection;
        }
        connection.file = 0;
        connection
    }
}

/// Takes the connection out of a place.
pub(crate) fn take_from(
    connections: &mut Vec<Option<Connection>>,
    place: usize,
) -> Option<Connection>
    ensures found { result ≡ connection_at place connections.old.items }
    ensures taken { connections.new.items ≡ set connections.old.items place None }
{
    if place >= connections.len() {
        return None;
    }
    mem::replace(&mut connections[place], None)
}

/// Puts a connection into a place, if there is one.
pub(crate) fn put_into(
    connections: &mut Vec<Option<Connection>>,
    place: usize,
    connection: Connection,
)
    ensures { connections.new.items ≡ set connections.old.items place (Some connection) }
{
    if place >= connections.len() {
        return;
    }
    connections[place] = Some(connection);
}
