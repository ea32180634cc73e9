//! What a server is set to.
ghost use Rattle.std.specs.Prelude.{◌≡◌, ◌≤◌, ◌<◌, ◌+◌, ◌*◌, ◌↔◌, IsSomeAnd, IsTrue, if◌then◌else◌, min};

/// How a server is set. All times are in milliseconds.
#[derive(Clone, Copy, Debug)]
pub struct Settings {
    /// How many bytes wait for a connection before its requests are no longer read.
    pub pending: usize,
    /// How long a request takes at most, from its first byte until its head is complete, and again until its body is.
    pub head: u64,
    /// How long a connection stays open that is not used.
    pub idle: u64,
    /// How long a stream may take none of the bytes that wait for it.
    pub write: u64,
    /// How long connections are served once the server is to end.
    pub drain: u64,
    /// How long to wait before the stream of updates is connected again that was lost.
    pub first_backoff: u64,
    /// How long to wait at most before a further try.
    pub greatest_backoff: u64,
    /// How long the stream of updates is not read after a message was refused.
    pub refusal_pause: u64,
    /// How long the first message of the stream of updates takes at most.
    pub first_message: u64,
    /// After how long without a byte the stream of updates ends; 0 for never.
    pub silence: u64,
    /// Whether other processes may accept the same connections.
    pub shares: bool,
    /// How many connections are open at once at most. If all are, the one that is idle for the longest time is closed.
    pub at_once: usize,
}

// How many connections are accepted in one turn.
const ACCEPTS: u8 = 64;

/// How many connections are accepted in one turn: one, if other processes may accept them too.
pub(crate) fn most_accepts(shares: bool) -> u8
    ensures { result ≡ (if shares then 1 else 64) }
{
    if shares { 1 } else { ACCEPTS }
}

/// Whether a stream that was last heard at a time is silent for too long.
pub(crate) fn is_silent(heard: u64, silence: u64, now: u64) -> bool
    ensures { IsTrue result ↔ ((0 < silence) × (heard + silence ≤ now)) }
{
    silence > 0 && has_passed(heard, silence, now)
}

/// Whether so much time has passed.
pub(crate) fn has_passed(since: u64, time: u64, now: u64) -> bool
    ensures { IsTrue result ↔ (since + time ≤ now) }
{
    since <= now && now - since >= time
}

/// Whether so much time has passed since a time, if there is one.
pub(crate) fn passed_since(since: Option<u64>, time: u64, now: u64) -> bool
    ensures { IsTrue result ↔ IsSomeAnd since (λ begun. begun + time ≤ now) }
{
    match since {
        Some(begun) => has_passed(begun, time, now),
        None => false,
    }
}

/// The time to wait after one that was waited in vain: twice as long, up to the greatest.
pub(crate) fn longer(wait: u64, greatest: u64) -> u64
    ensures { result ≡ min (2 * wait) greatest }
{
    if wait > greatest / 2 {
        return greatest;
    }
    2 * wait
}
