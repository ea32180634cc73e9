//! What the status says after each event.

use crate::responses::{JudgedResponse, places_of};
use ads::{Refused, ResponseOutcome};
use rbac_policy::Admitted;
use serve_admin::{Admin, PoliciesStatus, RefusalStatus, Status, StreamStatus};
use std::alloc::{AllocError, Global};

/// The update stream is up since this time, in milliseconds since 1970.
pub(crate) fn note_up(status: &mut Status, time: u64) {
    status.stream = StreamStatus::Up { since: time };
}

/// The update stream is down since this time, in milliseconds since 1970, for this reason.
pub(crate) fn note_down(alloc: Global, status: &mut Status, time: u64, why: &str) {
    if let Ok(why) = String::from_str(alloc, why) {
        status.stream = StreamStatus::Down { since: time, why };
    }
}

/// A response was judged.
pub(crate) fn note_judgement(
    alloc: Global,
    admin: &mut Admin,
    judged: &JudgedResponse<'_>,
) -> Result<(), AllocError> {
    match &judged.judgement.outcome {
        ResponseOutcome::Accepted(given) => note_accepted(alloc, admin, judged, given),
        ResponseOutcome::Refused(refused) => {
            admin.status.refusal = Some(refusal_status(alloc, judged, refused)?);
            Ok(())
        }
    }
}

// A response was accepted. It gave policies to these filters.
fn note_accepted(
    alloc: Global,
    admin: &mut Admin,
    judged: &JudgedResponse<'_>,
    given: &[bool],
) -> Result<(), AllocError> {
    let version = judged.judgement.version.as_str();
    admin.status.generation = judged.client.generation();
    admin.status.version = String::from_str(alloc, version)?;
    for filter in &places_of(alloc, given)? {
        if let Some(Some(admitted)) = judged.client.policies().get(*filter) {
            admin.set_policies(*filter, policies_status(alloc, admitted, version)?)?;
        }
    }
    Ok(())
}

// What the status says of policies.
fn policies_status(
    alloc: Global,
    admitted: &Admitted,
    version: &str,
) -> Result<PoliciesStatus, AllocError> {
    let mut names = Vec::new(alloc);
    for number in 0..admitted.policies() {
        let name = admitted.policy_name(number).unwrap_or("");
        names.push(String::from_str(alloc, name)?)?;
    }
    Ok(PoliciesStatus {
        version: String::from_str(alloc, version)?,
        bound: admitted.bound(),
        names,
    })
}

// What the status says of a response that was refused.
fn refusal_status(
    alloc: Global,
    judged: &JudgedResponse<'_>,
    refused: &Refused,
) -> Result<RefusalStatus, AllocError> {
    let cause = judged.refusal_cause(alloc, refused)?;
    let filter = match cause.fault.filter {
        Some(name) => Some(String::from_str(alloc, name)?),
        None => None,
    };
    Ok(RefusalStatus {
        time: judged.time,
        version: String::from_str(alloc, &judged.judgement.version)?,
        number: u64::from(cause.reason.number()),
        name: String::from_str(alloc, cause.reason.name())?,
        cause: cause.cause,
        filter,
        place: cause.fault.part.place,
    })
}
