//! A history that only proofs read. Implementations of the traits of `serve_loop` keep one.
#![tactic(auto)]

ghost use Rattle.std.specs.Prelude.{◌≡◌, List, []};
ghost use Rattle.std.specs.Borrow.{ftrue};
ghost use Rattle.serve_loop.specs.History.{Turn};

use serve_loop::{Event, Stream};
use std::marker::{Model, PhantomData};

/// The turns of a service, the newest first. It takes no memory, and its methods do nothing at run time.
#[derive(Drop)]
pub struct Trace<F> {
    of: PhantomData<F>,
    pub ghost turns: { List (Turn F) },
}

impl<F> Model for Trace<F> {
    ghost also_owns = { λ _. ftrue };
}

/// One turn.
#[derive(Clone, Copy, Drop)]
pub enum Note<'a, F> {
    /// An event was taken, and memory ran out at it.
    Took(&'a Event<'a, F>),
    /// An event was taken and answered by these bytes, and its stream is to be closed or not.
    Answered(&'a Event<'a, F>, &'a [u8], bool),
    /// These bytes were sent.
    Sent(Stream, &'a [u8]),
}

impl<F> Trace<F> {
    ghost use Rattle.serve_trace.specs.Noted.{noted};

    /// A trace to which nothing has happened.
    pub fn new() -> Trace<F>
        ensures { result.turns ≡ [] }
    {
        Trace { of: PhantomData }
    }

    /// The trace with one more turn.
    pub fn then(&self, _note: &Note<'_, F>) -> Trace<F>
        ensures { result.turns ≡ noted self.now.turns _note.now }
    {
        Trace { of: PhantomData }
    }
}
