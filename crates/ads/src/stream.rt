//! A stream that is up, and the effects of its bytes.

ghost use Rattle.std.specs.Prelude.{◌≡◌, ◌<◌, ◌≤◌, ◌++◌, ℕ, false, [], List, Bool, Option, length, is_some, IfOk, OnErr, MatchBool};
ghost use Rattle.xds_wire.specs.Frames.{Cut, IsBeginning, Tail};
ghost use Rattle.xds_wire.specs.Stream.{IsUnfinished};
ghost use Rattle.xds_wire.specs.Stream as wire;
ghost use Rattle.ads.specs.declared.ended.Ended.{Ended};
ghost use Rattle.ads.specs.Client.{ended_by, fault_in, most_bytes, stream_after};
ghost use Rattle.ads.specs.Judgements.{AreJudged};
ghost use Rattle.ads.specs.Views.{policies_view};
ghost use Rattle.ads.specs.private.Streams.{kept_of};
ghost use Rattle.ads.specs.Ends.{state_view};
ghost use Rattle.ads.specs.private.Drafts.{Covers, draft_view};
ghost use Rattle.ads.specs.Exchanges.{AreExchanged};
ghost use Rattle.ads.specs.Views.{served_view, snapshots_view};

use crate::accepted::{Draft, State};
use crate::answer::answer_all;
use crate::config::Config;
use crate::ended::Ended;
use crate::response::MOST_BYTES;
use crate::serving::{Served, Serving, serve_all};
use crate::snapshot::Snapshot;
use std::alloc::{AllocError, Global};
use std::marker::Model;
use xds_wire::{FrameError, FrameFault, Frames};

/// A stream that is up. All its complete messages were answered.
#[derive(Debug, Drop)]
pub(crate) struct Stream {
    frames: Frames,
}

impl Model for Stream {
    ghost use Rattle.std.specs.Prelude.{ℕ, List};
    ghost use Rattle.ads.specs.private.Streams.{IsUp, rest_of};

    ghost Value = { List ℕ };

    ghost view = { λ stream. rest_of stream.frames.tail };

    ghost invariant = { λ stream. IsUp stream.frames };
}

impl Stream {
    /// A stream that has received no bytes. It takes no memory.
    pub(crate) fn new(alloc: Global) -> Stream
        ensures { result ≡ [] }
    {
        Stream {
            frames: Frames::new(alloc, MOST_BYTES),
        }
    }

    /// How many bytes complete at most one message, at least 1. It takes no memory.
    pub(crate) fn lacks(&self) -> usize
        ensures some { 0 < result }
        ensures one { (bytes : List ℕ) (messages : List (List ℕ)) (tail : Tail) → length bytes ≤ result
            → Cut (self.now ++ bytes) most_bytes messages tail → length messages ≤ 1 }
    {
        self.frames.lacks()
    }

    /// Takes the bytes if they complete no message and break no frame, and returns whether it took them. If it did not,
    /// and after an error, all is as before the call.
    pub(crate) fn keeps(&mut self, bytes: &[u8]) -> Result<bool, AllocError>
        ensures kept { IfOk result (λ kept. MatchBool kept
            (IsBeginning most_bytes (self.old ++ bytes.now) × (self.new ≡ self.old ++ bytes.now))
            ((IsBeginning most_bytes (self.old ++ bytes.now) → ⊥) × (self.new ≡ self.old))) }
        ensures fault { OnErr result (self.new ≡ self.old) }
    {
        if !self.frames.stays_partial(bytes) {
            return Ok(false);
        }
        feed_frames(&mut self.frames, bytes)?;
        Ok(true)
    }
}

/// Answers the bytes: the draft with the accepted state, the replies and the judgements. Also the stream after them, or
/// why it ended.
pub(crate) fn answered(
    alloc: Global,
    config: &Config,
    accepted: &State,
    stream: &Stream,
    bytes: &[u8],
) -> Result<(Draft, Option<Stream>, Option<Ended>), AllocError>
    ensures answered { IfOk result (λ r. (messages : List (List ℕ)) × (tail : Tail) × (reason : Option Ended)
        × Cut (stream.now ++ bytes.now) most_bytes messages tail
        × AreJudged config.now (state_view accepted.now) messages r.0.judgements.items r.0.replies.items
        (draft_view (policies_view accepted.now.policies.items) r.0) reason
        × (r.1 ≡ stream_after (is_some reason) tail) × (r.2 ≡ ended_by reason (fault_in tail))) }
    ensures covers { IfOk result (λ r. Covers (length config.now.filters) r.0.given.items) }
{
    let mut frames = stream.frames.copy()?;
    let mut draft = Draft::new(alloc, accepted)?;
    let fault = feed_frames(&mut frames, bytes)?;
    let reason = answer_all(alloc, config, &mut draft, &mut frames)?;
    let ended = end_of(reason, fault);
    Ok((draft, kept(frames, ended.is_some()), ended))
}

// Why a stream ends: a message ended it, or its frames are broken.
fn end_of(reason: Option<Ended>, fault: Option<FrameFault>) -> Option<Ended>
    ensures { result ≡ ended_by reason fault }
{
    if reason.is_some() {
        return reason;
    }
    match fault {
        Some(fault) => Some(Ended::BadFrame(fault)),
        None => None,
    }
}

/// Serves the bytes at a control plane: the serving state after them, the bytes to send and the exchanges. Also the stream
/// after them, or why it ended.
pub(crate) fn served_by(
    alloc: Global,
    snapshots: &[Snapshot],
    served: Served,
    stream: &Stream,
    bytes: &[u8],
) -> Result<(Serving, Option<Stream>, Option<Ended>), AllocError>
    ensures { IfOk result (λ r. (messages : List (List ℕ)) × (tail : Tail) × (numbers : List ℕ)
        × (reason : Option Ended) × Cut (stream.now ++ bytes.now) most_bytes messages tail
        × AreExchanged (snapshots_view snapshots.now) (served_view served) messages r.0.exchanges.items
        r.0.replies.items numbers (served_view r.0.served) reason
        × (r.1 ≡ stream_after (is_some reason) tail) × (r.2 ≡ ended_by reason (fault_in tail))) }
{
    let mut frames = stream.frames.copy()?;
    let mut serving = Serving {
        served,
        replies: Vec::new(alloc),
        exchanges: Vec::new(alloc),
    };
    let fault = feed_frames(&mut frames, bytes)?;
    let reason = serve_all(alloc, snapshots, &mut serving, &mut frames)?;
    let ended = end_of(reason, fault);
    Ok((serving, kept(frames, ended.is_some()), ended))
}

// The stream, unless it ended.
fn kept(frames: Frames, ended: bool) -> Option<Stream>
    requires max { frames.max ≡ most_bytes }
    requires taken { ended ≡ false → frames.messages ≡ [] }
    requires whole { ended ≡ false → IsUnfinished frames.tail }
    ensures { result ≡ kept_of ended frames.tail }
{
    if ended {
        return None;
    }
    Some(Stream { frames })
}

// Feeds the frames, and returns why they are broken now, if they are. After an error all is as before the call.
fn feed_frames(frames: &mut Frames, bytes: &[u8]) -> Result<Option<FrameFault>, AllocError>
    ensures found { IfOk result (λ fault. wire.Feeds frames.old bytes.now frames.new
        × (fault ≡ fault_in frames.new.tail)) }
    ensures fault { OnErr result (frames.new ≡ frames.old) }
{
    match frames.feed(bytes) {
        Ok(()) => Ok(None),
        Err(FrameError::Memory) => Err(AllocError),
        Err(FrameError::Compressed) => Ok(Some(FrameFault::Compressed)),
        Err(FrameError::TooLong) => Ok(Some(FrameFault::TooLong)),
    }
}
