//! What happened on the wire of a network, for proofs alone, and what is known of its connections.
ghost use Rattle.std.specs.Prelude.{◌≡◌, []};
ghost use Rattle.attributes.specs.Conn.{conn_view};
ghost use Rattle.serve_host.specs.Known.{HasKnownFacts, IsKnownNote};
ghost use Rattle.serve_loop.specs.Law.{wire_of};
ghost use Rattle.serve_trace.specs.Noted.{noted};

use attributes::Conn;
use serve_trace::{Note, Trace};

/// What is known of every connection before it is accepted, and what happened on the wire. Each connection that was
/// accepted has what is known, and its own addresses.
#[derive(Drop)]
pub struct History {
    conn: Conn,
    trace: Trace<Conn>,
    ghost known: { ∥ HasKnownFacts (conn_view conn) (wire_of trace.turns) ∥₁ },
}

impl History {
    /// Nothing happened. This is known of every connection.
    pub(crate) fn new(conn: Conn) -> History
        ensures { (result.conn ≡ conn) × (result.trace.turns ≡ []) }
    {
        History {
            conn,
            trace: Trace::new(),
        }
    }

    /// What is known of every connection.
    pub(crate) fn conn(&self) -> &Conn
        ensures { result.now ≡ self.now.conn }
    {
        &self.conn
    }

    /// This happened.
    pub(crate) fn note(&mut self, note: &Note<'_, Conn>)
        requires { IsKnownNote (conn_view self.old.conn) note.now }
        ensures conn { self.new.conn ≡ self.old.conn }
        ensures trace { self.new.trace.turns ≡ noted self.old.trace.turns note.now }
    {
        self.trace = self.trace.then(note);
    }
}
