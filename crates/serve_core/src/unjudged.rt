//! Requests of a front proxy that are answered without being judged.
ghost use Rattle.std.specs.Prelude.{◌≡◌, None, Some};
ghost use Rattle.http_front.specs.declared.answer.Case.TheVariants as cases;
ghost use Rattle.http_front.specs.declared.fault.HeadFault.TheVariants as faults;
ghost use Rattle.http_front.specs.declared.fault.HeadPart.TheVariants as parts;

use crate::front_faults::{meaning_of_map_fault, meaning_of_path_fault};
use fault_texts::rule_of;
use head_map::{MapFault, Parts, PathFault};
use http_front::{Case, HeadFault, HeadPart};

/// A request that is answered without being judged.
#[derive(Debug, Drop)]
pub struct Unjudged {
    /// The case of the answer.
    pub case: Case,
    /// The reason, for the log.
    pub reason: &'static str,
    /// The request of the client, if it is known.
    pub client: Option<Parts>,
}

/// A request of a front proxy whose bytes have this fault.
pub(crate) fn unjudged_head(fault: HeadFault) -> Unjudged
    ensures { (result.case ≡ cases.Fault fault) × (result.client ≡ None) }
{
    Unjudged {
        case: Case::Fault(fault),
        reason: rule_of(fault),
        client: None,
    }
}

/// A request of a front proxy whose fields have this fault.
pub(crate) fn unjudged_fields(fault: MapFault) -> Unjudged
    ensures { (result.case ≡ cases.Fault (faults.Malformed parts.FieldValue)) × (result.client ≡ None) }
{
    Unjudged {
        case: Case::Fault(HeadFault::Malformed(HeadPart::FieldValue)),
        reason: meaning_of_map_fault(fault),
        client: None,
    }
}

/// A client's request whose path has this fault.
pub(crate) fn unjudged_path(fault: PathFault, client: Parts) -> Unjudged
    ensures { (result.case ≡ cases.Fault (faults.Malformed parts.Target)) × (result.client ≡ Some client) }
{
    Unjudged {
        case: Case::Fault(HeadFault::Malformed(HeadPart::Target)),
        reason: meaning_of_path_fault(fault),
        client: Some(client),
    }
}
