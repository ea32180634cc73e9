//! The streams that are open.

ghost use Rattle.std.specs.Prelude.{◌≡◌, ◌<◌, ◌+◌, ◌++◌, ◌∷◌, ℕ, List, [], Some, None, map, length, OnOk, IfSome, IfNone, ◌^◌};
ghost use Rattle.std.specs.Option.{option_map};
ghost use Rattle.http2.specs.Streams.{find, others, are_within, is_beyond};
ghost use Rattle.http2.specs.StreamViews.{stream_view};
ghost use Rattle.http2.specs.declared.stream.Stream.{Stream};

use crate::accounts;
use crate::stream::Stream;
use std::alloc::{AllocError, Global};
use std::marker::Model;

/// The streams that are open.
#[derive(Debug, Drop)]
pub(crate) struct Streams {
    streams: Vec<Stream>,
}

impl Model for Streams {
    ghost use Rattle.std.specs.Prelude.{List, map};
    ghost use Rattle.http2.specs.Streams.{StreamValue};
    ghost use Rattle.http2.specs.StreamViews.{stream_view};

    ghost Value = { List StreamValue };

    ghost view = { λ s. map stream_view s.streams.items };
}

impl Streams {
    /// No stream is open.
    pub(crate) fn new(alloc: Global) -> Streams
        ensures { result ≡ [] }
    {
        Streams {
            streams: Vec::new(alloc),
        }
    }

    /// How many are open.
    pub(crate) fn len(&self) -> usize
        ensures { result ≡ length self.now }
    {
        self.streams.len()
    }

    /// Takes the stream of this number out, if it is open.
    pub(crate) fn remove(&mut self, number: u32) -> Option<Stream>
        ensures found { option_map stream_view result ≡ find number self.old }
        ensures others { self.new ≡ others number self.old }
    {
        match place_of(&self.streams, number) {
            Some(place) => Some(self.streams.remove(place)),
            None => None,
        }
    }

    /// The stream of this number, if it is open.
    pub(crate) fn get(&self, number: u32) -> Option<&Stream>
        ensures found { option_map (λ s. stream_view s.now) result ≡ find number self.now }
        ensures number { IfSome result (λ s. s.now.number ≡ number) }
    {
        stream_of(&self.streams, number)
    }

    /// Adds a stream.
    pub(crate) fn push(&mut self, stream: Stream) -> Result<(), AllocError>
        ensures { OnOk result (self.new ≡ self.old ++ stream_view stream ∷ []) }
    {
        self.streams.push(stream)?;
        Ok(())
    }

    /// Whether no window is too large with this initial size.
    pub(crate) fn are_within(&self, window: u32) -> bool
        ensures { result ≡ are_within window self.now }
    {
        are_within(window, &self.streams)
    }
}

// The place of the stream of a number.
fn place_of(streams: &[Stream], number: u32) -> Option<usize>
    ensures none { IfNone result ((find number (map stream_view streams.now) ≡ None)
        × (others number (map stream_view streams.now) ≡ map stream_view streams.now)) }
    ensures found { IfSome result (λ k. (front back : List Stream) × (s : Stream) × (streams.now ≡ front ++ s ∷ back)
        × (k ≡ length front) × (find number (map stream_view streams.now) ≡ Some (stream_view s))
        × (others number (map stream_view streams.now) ≡ map stream_view (front ++ back))) }
{
    let mut at = 0;
    let mut rest = streams;
    'streams: while let Some((stream, others)) = rest.split_first() {
        if stream.number == number {
            return Some(at);
        }
        rest = others;
        at += 1;
    }
    None
}

// The stream of a number.
fn stream_of<'a>(streams: &'a [Stream], number: u32) -> Option<&'a Stream>
    ensures found { option_map (λ s. stream_view s.now) result ≡ find number (map stream_view streams.now) }
    ensures number { IfSome result (λ s. s.now.number ≡ number) }
{
    let mut rest = streams;
    'streams: while let Some((stream, others)) = rest.split_first() {
        if stream.number == number {
            return Some(stream);
        }
        rest = others;
    }
    None
}

/// Whether a window is larger than any may be.
pub(crate) fn is_beyond(window: u32, raised: u64, used: u64) -> bool
    requires { raised < 2 ^ 63 }
    ensures { result ≡ is_beyond window raised used }
{
    accounts::is_beyond(window, raised, used)
}

// Whether no window is.
fn are_within(window: u32, streams: &[Stream]) -> bool
    ensures { result ≡ are_within window (map stream_view streams.now) }
{
    let mut rest = streams;
    'streams: while let Some((stream, others)) = rest.split_first() {
        if is_beyond(window, stream.raised, stream.used) {
            return false;
        }
        rest = others;
    }
    true
}
