//! The notes that explain a result or a fault, in lines below it. They are the cause, the part of a file that has the
//! fault, and a guess at what the file is.
//!
//! The notes have no effect on the outcome or the status, except that memory may run out here too. No contract
//! describes the texts.

use crate::bad_heads::passed_limit;
use crate::json::Why;
use crate::outcome::Outcome;
use crate::policy_file::PolicyFile;
use cost_bound::Budget;
use fault_texts::{GuessedFormat, RefusedPart, likeness_of, rule_of};
use http_front::HeadFault;
use program_texts::cause_of_bad_facts;
use proto_wire::{Fault, Refusal};
use std::alloc::{AllocError, Global};

/// The notes that are taken during a job.
#[derive(Drop)]
pub struct Notes {
    /// What a refused policy file looks like, if it is plainly no filter message.
    pub policy: Option<GuessedFormat>,
    /// The part of the policy file that has the fault.
    pub part: RefusedPart,
    /// Why the facts file has no facts within the limits.
    pub facts: String,
    /// Why the configuration file has no configuration.
    pub config: String,
    /// The part of a head that exceeds its limit.
    pub head: Option<String>,
}

impl Notes {
    /// No notes.
    pub fn new(alloc: Global) -> Notes {
        Notes {
            policy: None,
            part: RefusedPart::unknown(),
            facts: String::new(alloc),
            config: String::new(alloc),
            head: None,
        }
    }

    /// Notes why this text has no facts within the limits.
    pub fn look_at_facts(&mut self, alloc: Global, text: &[u8]) -> Result<(), AllocError> {
        self.facts = cause_of_bad_facts(alloc, text)?;
        Ok(())
    }

    /// Notes which part of a head exceeds its limit, if its request is outside the limits.
    pub fn look_at_head(&mut self, alloc: Global, head: &[u8], outcome: Outcome) {
        if let Outcome::Fault(HeadFault::OutsideLimits) = outcome {
            self.head = passed_limit(alloc, head).unwrap_or(None);
        }
    }

    /// Why an outcome is no verdict.
    pub fn why(&self, alloc: Global, outcome: Outcome) -> Why {
        match outcome {
            Outcome::Refused(refusal) => Why {
                cause: self.cause_of_refusal(alloc, refusal).ok(),
                place: copy_of(alloc, &self.part.place),
            },
            Outcome::Fault(fault) => Why {
                cause: self.cause_of_fault(alloc, fault).ok(),
                place: None,
            },
            Outcome::Admitted { .. }
            | Outcome::Allowed(_)
            | Outcome::Denied(_)
            | Outcome::OutOfSteps
            | Outcome::Memory => Why::none(),
        }
    }

    // Why a policy file is refused, and what it looks like.
    fn cause_of_refusal(&self, alloc: Global, refusal: Refusal) -> Result<String, AllocError> {
        let meaning = self.part.meaning(refusal);
        match self.policy {
            Some(likeness) => format!(in alloc; "{meaning}; the policy file looks like {likeness}"),
            None => format!(in alloc; "{meaning}"),
        }
    }

    // The rule that a head breaks, and the part that exceeds its limit.
    fn cause_of_fault(&self, alloc: Global, fault: HeadFault) -> Result<String, AllocError> {
        let rule = rule_of(fault);
        match &self.head {
            Some(cause) => format!(in alloc; "{rule}: {cause}"),
            None => String::from_str(alloc, rule),
        }
    }

    /// Notes which part of a policy file has the fault with which it was refused. `left` is what the conditions before
    /// the fault leave of the file's budget. If no part has the fault, and the file's own fields may be wrong, it notes
    /// what the file looks like.
    pub(crate) fn look_at_policy(
        &mut self,
        alloc: Global,
        policy: PolicyFile<'_>,
        fault: &Fault,
        left: Budget,
    ) {
        self.part = RefusedPart::at(alloc, policy.bytes, fault, left, policy.budget);
        if self.part.place.is_none() && is_of_fields(fault.refusal) {
            self.policy = likeness_of(policy.bytes);
        }
    }
}

// A copy of a text, if there is one and there is memory for it.
fn copy_of(alloc: Global, text: &Option<String>) -> Option<String> {
    match text {
        Some(text) => String::from_str(alloc, text.as_str()).ok(),
        None => None,
    }
}

// Whether this refusal may mean that the file's own fields are not those of a filter.
fn is_of_fields(refusal: Refusal) -> bool {
    matches!(
        refusal,
        Refusal::BadWire | Refusal::UnknownField | Refusal::Missing
    )
}
