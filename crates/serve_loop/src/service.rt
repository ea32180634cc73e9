//! What is served.
ghost use Rattle.std.specs.Prelude.{◌≡◌, ◌≤◌, ℕ, List, ◌∷◌, length, take, MatchResult};
ghost use Rattle.serve_loop.specs.declared.stream.Stream.{Stream};
ghost use Rattle.serve_loop.specs.History.{Turn, took, gave, answered, no_memory, waiting_at, Fits};
ghost use Rattle.serve_loop.specs.Events.{event_view};

use crate::stream::{Event, Stream};
use std::alloc::AllocError;

/// What an event led to.
#[derive(Clone, Copy, PartialEq, Eq, Debug)]
pub struct Outcome {
    /// Whether the stream is to be closed once what waits for it was sent.
    pub closes: bool,
    /// Whether a message was completed: a request that is answered, a response that is judged.
    pub completes: bool,
    /// Whether its sender is to pause, since the message was refused.
    pub refuses: bool,
    /// Whether each byte of the stream so far belongs to a message that was completed.
    pub rests: bool,
    /// Whether the bytes are of another protocol. The stream is closed at once.
    pub is_foreign: bool,
}

/// What is served. It takes each event, and its answers wait until they are sent.
pub trait Service<F>: Drop {
    /// The events that it took and the answers that were sent, the newest first.
    ghost turns: { Self → List (Turn F) };

    /// The type of what it is set up with.
    ghost Setup: { Type 0 };

    /// What it is set up with. No event changes that.
    ghost setup: { Self → Self.Setup };

    /// In how many places connections are accepted, by what it is set up with.
    ghost places: { Self.Setup → ℕ };

    /// How many bytes of a stream it takes.
    ghost takes: { Self → Stream → ℕ };

    /// How many bytes of a stream it takes at most.
    fn room(&self, stream: Stream) -> usize
        ensures { result ≡ takes self.now stream };

    /// It takes an event. The only error is out of memory. After it nothing waits for the stream of the event, which is to
    /// be closed.
    fn take(&mut self, event: &Event<'_, F>) -> Result<Outcome, AllocError>
        requires { Fits (takes self.old) (event_view event.now) }
        ensures turns { MatchResult result
            (λ outcome. (out : List ℕ)
            × (turns self.new ≡ took (event_view event.now) (answered out outcome.closes) ∷ turns self.old))
            (λ _. turns self.new ≡ took (event_view event.now) no_memory ∷ turns self.old) }
        ensures setup { setup self.new ≡ setup self.old };

    /// The bytes that wait for a stream.
    fn unsent(&self, stream: Stream) -> &[u8]
        ensures { result.now ≡ waiting_at stream (turns self.now) };

    /// The first bytes of those that wait for the stream were sent.
    fn sent(&mut self, stream: Stream, count: usize)
        requires { count ≤ length (waiting_at stream (turns self.old)) }
        ensures turns { turns self.new ≡ gave stream (take count (waiting_at stream (turns self.old))) ∷ turns self.old }
        ensures setup { setup self.new ≡ setup self.old };
}
