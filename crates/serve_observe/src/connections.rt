//! The connections of a server, for its logs.
ghost use Rattle.std.specs.Prelude.{◌≡◌, ◌≤◌, ◌<◌, ◌+◌, ◌^◌, ◌-◌, None, Some, IfOk, IfSome, length, min, option_map, set};
ghost use Rattle.std.specs.Arc.{arc_str_bytes};
ghost use Rattle.std.specs.String.{string_bytes};
ghost use Rattle.serve_observe.specs.Numbers.{AreEmpty, number_at, numbers};

use attributes::Conn;
use std::alloc::{AllocError, Global};
use std::mem;

/// A connection that is open.
#[derive(Drop)]
pub(crate) struct Connection {
    /// Its number. No other has it.
    pub(crate) number: u64,
    /// The address of its peer, if it is known and memory did not run out for it.
    pub(crate) peer: Option<String>,
    /// Whether it is closed at once, since its facts are outside the limits.
    pub(crate) is_unfit: bool,
}

/// The connections that are open, by place.
#[derive(Drop)]
pub(crate) struct Connections {
    alloc: Global,
    places: Vec<Option<Connection>>,
    // the number of the next connection
    next: u64,
}

impl Connections {
    /// So many places in which none is open.
    pub(crate) fn new(alloc: Global, places: usize) -> Result<Connections, AllocError>
        ensures { IfOk result (λ c. AreEmpty (numbers c.places.items) × (c.next ≡ 0)) }
    {
        Ok(Connections {
            alloc,
            places: empty_places(alloc, places)?,
            next: 0,
        })
    }

    /// The number of the next connection.
    pub(crate) fn next_number(&self) -> u64
        ensures { result ≡ self.now.next }
    {
        self.next
    }

    /// A connection with the next number and these facts. It is in no place.
    pub(crate) fn number(&mut self, conn: &Conn, is_unfit: bool) -> Connection
        ensures number { (result.number ≡ self.old.next) × (result.is_unfit ≡ is_unfit) }
        ensures peer { IfSome result.peer (λ p. Some (string_bytes p) ≡ option_map arc_str_bytes conn.now.source_address) }
        ensures next { (self.new.next ≡ min (self.old.next + 1) (2 ^ 64 - 1)) × (self.new.places ≡ self.old.places) }
    {
        let number = self.next;
        self.next = number.saturating_add(1);
        Connection {
            number,
            peer: match &conn.source_address {
                Some(address) => String::from_str(self.alloc, address).ok(),
                None => None,
            },
            is_unfit,
        }
    }

    /// A connection opens in a place. Returns its number.
    pub(crate) fn open(&mut self, k: usize, conn: &Conn, is_unfit: bool) -> u64
        ensures number { result ≡ self.old.next }
        ensures next { self.new.next ≡ min (self.old.next + 1) (2 ^ 64 - 1) }
        ensures place { k < length self.old.places.items
            → numbers self.new.places.items ≡ set (numbers self.old.places.items) k (Some self.old.next) }
        ensures none { length self.old.places.items ≤ k → self.new.places ≡ self.old.places }
    {
        let connection = self.number(conn, is_unfit);
        let number = connection.number;
        if k < self.places.len() {
            self.places[k] = Some(connection);
        }
        number
    }

    /// The connection in a place.
    pub(crate) fn get(&self, k: usize) -> Option<&Connection>
        ensures { option_map (λ c. c.now.number) result ≡ number_at k (numbers self.now.places.items) }
    {
        match self.places.get(k) {
            Some(Some(connection)) => Some(connection),
            _ => None,
        }
    }

    /// The connection in a place is closed. Returns the one that was open.
    pub(crate) fn close(&mut self, k: usize) -> Option<Connection>
        ensures number { option_map (λ c. c.number) result ≡ number_at k (numbers self.old.places.items) }
        ensures place { k < length self.old.places.items
            → numbers self.new.places.items ≡ set (numbers self.old.places.items) k None }
        ensures none { length self.old.places.items ≤ k → self.new.places ≡ self.old.places }
        ensures next { self.new.next ≡ self.old.next }
    {
        if k >= self.places.len() {
            return None;
        }
        mem::replace(&mut self.places[k], None)
    }
}

// So many places in which none is open.
fn empty_places(alloc: Global, count: usize) -> Result<Vec<Option<Connection>>, AllocError>
    ensures { IfOk result (λ places. AreEmpty (numbers places.items)) }
{
    let mut places = Vec::with_capacity(alloc, count)?;
    while places.len() < count {
        places.push(None)?;
    }
    Ok(places)
}
