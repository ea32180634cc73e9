//! The network: it owns the streams.
ghost use Rattle.std.specs.Prelude.{◌≡◌, ◌≤◌, ◌<◌, ℕ, List, ◌∷◌, length, take, true, false, IfOk, MatchResult};
ghost use Rattle.serve_loop.specs.declared.stream.Stream.TheVariants.{Place, Updates};
ghost use Rattle.serve_loop.specs.History.{Step, event, sent, accepted, connected, received, closed, open_at};
ghost use Rattle.serve_loop.specs.Waiting.{WaitsFor};

use crate::stream::Stream;
use std::io;

/// What may be done after a wait.
#[derive(Clone, Copy, PartialEq, Eq, Debug)]
pub enum Ready {
    /// Connections may wait to be accepted.
    Listener,
    /// This stream may be read or written.
    Stream(Stream),
}

/// What a wait found.
#[derive(Clone, Copy, PartialEq, Eq, Debug)]
pub struct Waited {
    /// The milliseconds since a fixed time.
    pub now: u64,
    /// Whether the server is to end. It is effect once.
    pub drains: bool,
}

/// The streams of a server: the system's sockets, or a test's memory. Only `wait` waits; the others fail with `WouldBlock`.
pub trait Network<F>: Drop {
    /// What happened on the wire, the newest first.
    ghost wire: { Self → List (Step F) };

    /// The type of what it was opened by.
    ghost Setup: { Type 0 };

    /// What it was opened by. Nothing changes that.
    ghost setup: { Self → Self.Setup };

    /// Waits for at most so many milliseconds, and adds what is ready.
    fn wait(&mut self, most: u64, ready: &mut Vec<Ready>) -> io::Result<Waited>
        ensures told { WaitsFor (wire self.old) result (wire self.new) }
        ensures setup { setup self.new ≡ setup self.old };

    /// Accepts the next connection in place `k`. Returns its facts.
    fn accept(&mut self, k: usize) -> io::Result<F>
        requires { open_at (Place k) (wire self.old) ≡ false }
        ensures accepted { MatchResult result (λ facts. wire self.new ≡ event (accepted k facts) ∷ wire self.old)
            (λ _. wire self.new ≡ wire self.old) }
        ensures setup { setup self.new ≡ setup self.old };

    /// Connects the stream of updates. Fails with `WouldBlock` while that goes on; `wait` reports its end.
    fn connect(&mut self) -> io::Result<()>
        requires { open_at Updates (wire self.old) ≡ false }
        ensures connected { MatchResult result (λ _. wire self.new ≡ event connected ∷ wire self.old)
            (λ _. wire self.new ≡ wire self.old) }
        ensures setup { setup self.new ≡ setup self.old };

    /// Reads once. Zero bytes mean that the other end writes no more.
    fn read(&mut self, stream: Stream, room: &mut [u8]) -> io::Result<usize>
        requires { open_at stream (wire self.old) ≡ true }
        ensures bound { IfOk result (λ n. n ≤ length room.new) }
        ensures received { MatchResult result (λ n. (n ≡ 0 → wire self.new ≡ wire self.old)
            × (0 < n → wire self.new ≡ event (received stream (take n room.new)) ∷ wire self.old))
            (λ _. wire self.new ≡ wire self.old) }
        ensures setup { setup self.new ≡ setup self.old };

    /// Writes once. Returns how many of the bytes, from the first on, the stream took.
    fn write(&mut self, stream: Stream, bytes: &[u8]) -> io::Result<usize>
        requires { open_at stream (wire self.old) ≡ true }
        ensures bound { IfOk result (λ n. n ≤ length bytes.now) }
        ensures sent { MatchResult result (λ n. wire self.new ≡ sent stream (take n bytes.now) ∷ wire self.old)
            (λ _. wire self.new ≡ wire self.old) }
        ensures setup { setup self.new ≡ setup self.old };

    /// Tells the other end that nothing more is written.
    fn finish(&mut self, stream: Stream)
        requires { open_at stream (wire self.old) ≡ true }
        ensures still { wire self.new ≡ wire self.old }
        ensures setup { setup self.new ≡ setup self.old };

    /// Closes a stream.
    fn close(&mut self, stream: Stream)
        requires { open_at stream (wire self.old) ≡ true }
        ensures closed { wire self.new ≡ event (closed stream) ∷ wire self.old }
        ensures setup { setup self.new ≡ setup self.old };
}
