//! The judgements of a control plane's responses, for the log of updates and the status.
ghost use Rattle.std.specs.Prelude.{◌≡◌, IfOk, IfSome};
ghost use Rattle.ads.specs.Ends.{client_view};
ghost use Rattle.serve_observe.specs.Gaps.{AreGaps};
ghost use Rattle.serve_observe.specs.Places.{places_from};
ghost use Rattle.serve_observe.specs.Responses.{SaysAccepted, SaysIncomplete, SaysRefused};

use crate::gaps::Gaps;
use ads::{Client, Judgement, Refused};
use fault_texts::{GuessedFormat, ResponseFault, fault_of, likeness_of_response};
use proto_wire::Refusal;
use serve_log::{Acknowledged, Incomplete, Update};
use std::alloc::{AllocError, Global};

/// The places in the configuration of the filters to which a response gave policies.
pub(crate) fn places_of(alloc: Global, given: &[bool]) -> Result<Vec<usize>, AllocError>
    ensures { IfOk result (λ places. places.items ≡ places_from 0 given.now) }
{
    let mut places = Vec::new(alloc);
    for (place, is_given) in given.iter().enumerate() {
        if *is_given {
            places.push(place)?;
        }
    }
    Ok(places)
}

/// A response that was judged.
#[derive(Clone, Copy)]
pub(crate) struct JudgedResponse<'a> {
    /// How the client judged it.
    pub(crate) judgement: &'a Judgement,
    /// The client, after it.
    pub(crate) client: &'a Client,
    /// How long that took, in microseconds.
    pub(crate) micros: u64,
    /// When it ended, in milliseconds since 1970.
    pub(crate) time: u64,
    /// The message of the response; no bytes if memory ran out for them.
    pub(crate) message: &'a [u8],
}

impl<'a> JudgedResponse<'a> {
    /// Why the client refused it.
    pub(crate) fn refusal_cause(
        &self,
        alloc: Global,
        refused: &Refused,
    ) -> Result<RefusalCause<'a>, AllocError> {
        let reason = refused.fault.refusal;
        let fault = fault_of(alloc, refused, self.client.config());
        let likeness = match fault.filter {
            Some(_) => None,
            None => likeness_of_response(self.message),
        };
        let meaning = fault.part.meaning(reason).to_string(alloc)?;
        let cause = with_likeness(alloc, meaning, likeness)?;
        Ok(RefusalCause {
            reason,
            cause,
            fault,
        })
    }

    /// What it leaves open, if it was accepted. Without memory for that, nothing is said.
    pub(crate) fn gaps(&self, alloc: Global) -> Option<Gaps<'a>>
        ensures { IfSome result (AreGaps (client_view self.now.client.now) self.now.message.now) }
    {
        if self.message.is_empty() {
            return None;
        }
        match Gaps::of(alloc, self.client, self.message) {
            Ok(gaps) if !gaps.is_none() => Some(gaps),
            _ => None,
        }
    }
}

/// A cause, and what the message looks like, if it is plainly no response.
pub(crate) fn with_likeness(
    alloc: Global,
    cause: String,
    likeness: Option<GuessedFormat>,
) -> Result<String, AllocError> {
    match likeness {
        Some(likeness) => format!(in alloc; "{cause}; the message looks like {likeness}"),
        None => Ok(cause),
    }
}

/// Why a response was refused.
#[derive(Drop)]
pub(crate) struct RefusalCause<'a> {
    /// The refusal that the client answered.
    pub(crate) reason: Refusal,
    /// What it means, in words.
    pub(crate) cause: String,
    /// The part of the response that it is about.
    pub(crate) fault: ResponseFault<'a>,
}

impl RefusalCause<'_> {
    /// What the log of updates says of the response that was refused for it.
    pub(crate) fn update<'u>(&'u self, judged: &JudgedResponse<'u>) -> Update<'u>
        ensures { SaysRefused judged.now self.now result }
    {
        Update::Refused(serve_log::Refused {
            version: judged.judgement.version.as_str(),
            nonce: judged.judgement.nonce.as_str(),
            generation: judged.client.generation(),
            number: self.reason.number(),
            name: self.reason.name(),
            cause: self.cause.as_str(),
            filter: self.fault.filter,
            place: self.fault.part.place.as_deref(),
            milliseconds: judged.micros / 1_000,
        })
    }
}

/// What the log of updates says of what a response leaves open that was accepted.
pub(crate) fn incomplete_update<'u>(judged: &JudgedResponse<'u>, gaps: &'u Gaps<'_>) -> Update<'u>
    ensures { SaysIncomplete judged.now gaps.now result }
{
    Update::Incomplete(Incomplete {
        version: judged.judgement.version.as_str(),
        nonce: judged.judgement.nonce.as_str(),
        generation: judged.client.generation(),
        without_policies: &gaps.without_policies,
        unasked: &gaps.unasked,
    })
}

/// What the log of updates says of a response that was accepted.
pub(crate) fn accepted_update<'u>(judged: &JudgedResponse<'u>) -> Update<'u>
    ensures { SaysAccepted judged.now result }
{
    Update::Accepted(Acknowledged {
        version: judged.judgement.version.as_str(),
        nonce: judged.judgement.nonce.as_str(),
        generation: judged.client.generation(),
        milliseconds: judged.micros / 1_000,
    })
}
