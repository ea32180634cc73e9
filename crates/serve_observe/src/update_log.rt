//! The log of updates: which line each event of the update stream becomes.
ghost use Rattle.std.specs.Prelude.{◌≡◌};
ghost use Rattle.serve_observe.specs.Losses.{end_by, loss};

use crate::gaps::Gaps;
use crate::responses::{
    JudgedResponse, RefusalCause, accepted_update, incomplete_update, with_likeness,
};
use ads::{Ended, ResponseOutcome};
use fault_texts::{StreamEnd, likeness_of_response};
use serve_core::{LastEvent, OtherProtocol};
use serve_log::{LogFile, LogFiles, Update, update_line};
use serve_loop::CloseReason;
use std::alloc::{AllocError, Global};
use std::io;

/// Why the bytes of an update stream end it.
#[derive(Clone, Copy, PartialEq, Eq, Debug)]
pub(crate) enum BytesEnd {
    /// They are of another protocol.
    OtherProtocol(OtherProtocol),
    /// They are no response.
    Ended(Ended),
}

/// Why an update stream was lost.
#[derive(Clone, Copy, PartialEq, Eq, Debug)]
pub(crate) enum Loss {
    /// It was closed.
    Closed,
    /// It failed.
    Reset,
    /// Its bytes ended it.
    Bytes(BytesEnd),
    /// No response came in time.
    NoResponse,
    /// No byte came for too long.
    Silence,
    /// A request was not taken in time.
    NotTaken,
    /// Memory ran out.
    Memory,
}

/// Why the bytes of the last event end the update stream; none if they do not.
pub(crate) fn bytes_end(last: &LastEvent) -> Option<BytesEnd>
    ensures { result ≡ end_by last.now.other_protocol last.now.ended }
{
    match (last.other_protocol, last.ended) {
        (Some(protocol), _) => Some(BytesEnd::OtherProtocol(protocol)),
        (None, Some(ended)) => Some(BytesEnd::Ended(ended)),
        (None, None) => None,
    }
}

/// Why an update stream was lost that was closed for this reason, after its bytes ended it or did not.
pub(crate) fn loss_of(reason: CloseReason, end: Option<BytesEnd>) -> Loss
    ensures { result ≡ loss reason end }
{
    match (reason, end) {
        (CloseReason::Served | CloseReason::Foreign, Some(end)) => Loss::Bytes(end),
        (CloseReason::Served | CloseReason::Foreign, None) => Loss::Closed,
        (CloseReason::Left | CloseReason::Idle | CloseReason::Drained | CloseReason::Full, _) => {
            Loss::Closed
        }
        (CloseReason::Silent, _) => Loss::Silence,
        (CloseReason::Reset, _) => Loss::Reset,
        (CloseReason::Slow, _) => Loss::NoResponse,
        (CloseReason::Blocked, _) => Loss::NotTaken,
        (CloseReason::Memory, _) => Loss::Memory,
    }
}

/// Why an update stream was lost, in words. A message that is no response may look like something else.
pub(crate) fn words_of(alloc: Global, loss: Loss, message: &[u8]) -> Result<String, AllocError> {
    let words = match loss {
        Loss::Closed => "closed",
        Loss::Reset => "reset",
        Loss::Bytes(BytesEnd::Ended(ended)) => return end_words(alloc, ended, message),
        Loss::Bytes(BytesEnd::OtherProtocol(OtherProtocol::Http2)) => "the other end speaks HTTP/2",
        Loss::Bytes(BytesEnd::OtherProtocol(OtherProtocol::Tls)) => "the other end speaks TLS",
        Loss::NoResponse => "no response in time",
        Loss::Silence => "silence",
        Loss::NotTaken => "a request was not taken in time",
        Loss::Memory => "out of memory",
    };
    String::from_str(alloc, words)
}

// Why bytes are no response, in words, and what their message looks like.
fn end_words(alloc: Global, ended: Ended, message: &[u8]) -> Result<String, AllocError> {
    let likeness = match ended {
        Ended::BadMessage(_) => likeness_of_response(message),
        _ => None,
    };
    with_likeness(alloc, StreamEnd(ended).to_string(alloc)?, likeness)
}

/// Logs what happened to the update stream, at this time in milliseconds since 1970.
pub(crate) fn log_update<F: LogFiles + Drop>(
    alloc: Global,
    file: &mut LogFile<F>,
    time: u64,
    update: &Update<'_>,
) {
    if let Ok(line) = update_line(alloc, time, update) {
        file.line(line.as_str());
    }
}

/// Logs that the control plane could not be reached, or that its file could not be read, for this cause.
pub(crate) fn log_unreachable<F: LogFiles + Drop>(
    alloc: Global,
    file: &mut LogFile<F>,
    time: u64,
    cause: &io::Error,
) {
    if let Ok(cause) = format!(in alloc; "{cause}") {
        log_update(alloc, file, time, &Update::Unreachable(cause.as_str()));
    }
}

/// Logs why the update stream was lost.
pub(crate) fn log_loss<F: LogFiles + Drop>(
    alloc: Global,
    file: &mut LogFile<F>,
    time: u64,
    why: &str,
) {
    log_update(alloc, file, time, &Update::Lost(why));
}

/// Logs how a response was judged.
pub(crate) fn log_judgement<F: LogFiles + Drop>(
    alloc: Global,
    file: &mut LogFile<F>,
    judged: &JudgedResponse<'_>,
) {
    match &judged.judgement.outcome {
        ResponseOutcome::Accepted(_) => {
            log_update(alloc, file, judged.time, &accepted_update(judged));
            if let Some(gaps) = judged.gaps(alloc) {
                log_gaps(alloc, file, judged, &gaps);
            }
        }
        ResponseOutcome::Refused(refused) => {
            if let Ok(cause) = judged.refusal_cause(alloc, refused) {
                log_refusal(alloc, file, judged, &cause);
            }
        }
    }
}

// Logs what a response leaves open that was accepted.
fn log_gaps<F: LogFiles + Drop>(
    alloc: Global,
    file: &mut LogFile<F>,
    judged: &JudgedResponse<'_>,
    gaps: &Gaps<'_>,
) {
    let update = incomplete_update(judged, gaps);
    log_update(alloc, file, judged.time, &update);
}

// Logs that a response was refused for this cause.
fn log_refusal<F: LogFiles + Drop>(
    alloc: Global,
    file: &mut LogFile<F>,
    judged: &JudgedResponse<'_>,
    cause: &RefusalCause<'_>,
) {
    let update = cause.update(judged);
    log_update(alloc, file, judged.time, &update);
}
