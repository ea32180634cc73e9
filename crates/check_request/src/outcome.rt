//! How a CheckRequest ends, and the codes of that.

ghost use Rattle.std.specs.Prelude.{◌≡◌};
ghost use Rattle.check_request.specs.Answers.{body_of, code_of, status_of, unread_as};

use crate::fault::CheckFault;
use http_front::Case;
use proto_wire::Refusal;

/// How a CheckRequest ends.
#[derive(Clone, Copy, Debug, PartialEq, Eq)]
pub enum Outcome {
    /// A request was read, or memory ran out; the case is that of an answer by HTTP.
    Judged(Case),
    /// No request was read.
    Unread,
}

const DENIED: &str = "RBAC: access denied";

impl Outcome {
    /// The outcome of a message that has this fault.
    pub fn of_fault(fault: CheckFault) -> Outcome
        ensures { result ≡ unread_as fault.refusal }
    {
        match fault.refusal {
            Refusal::Memory => Outcome::Judged(Case::Memory),
            _ => Outcome::Unread,
        }
    }

    /// The code of gRPC (`google.rpc.Code`).
    pub fn code(self) -> u32
        ensures { result ≡ code_of self }
    {
        match self {
            Outcome::Judged(Case::Allow) => 0,
            Outcome::Judged(Case::Deny | Case::Steps) => 7,
            Outcome::Judged(Case::Unready) => 14,
            Outcome::Judged(Case::Memory) => 8,
            Outcome::Judged(Case::Fault(_)) | Outcome::Unread => 3,
        }
    }

    /// The status of HTTP, as in an answer by HTTP.
    pub fn status(self) -> u16
        ensures { result ≡ status_of self }
    {
        match self {
            Outcome::Judged(case) => case.status(),
            Outcome::Unread => 400,
        }
    }

    /// The body, as in an answer by HTTP.
    pub(crate) fn body(self) -> &'static str
        ensures { result.now ≡ body_of self }
    {
        match self {
            Outcome::Judged(Case::Deny | Case::Steps) => DENIED,
            Outcome::Judged(_) | Outcome::Unread => "",
        }
    }
}
