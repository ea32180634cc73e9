//! The part of a policy file that has a fault, and what its refusal means. No contract describes the texts.

use crate::meanings::meaning_of;
use cost_bound::Budget;
use proto_wire::{Fault, Refusal};
use rbac_policy::place_of_fault;
use std::alloc::Global;
use std::fmt;

/// The part of a policy file that has a fault, as far as it is known.
#[derive(Drop)]
pub struct RefusedPart {
    /// Where it is.
    pub place: Option<String>,
    /// The steps that are left for it, if it is a condition that may take more.
    pub steps: Option<StepsLeft>,
}

impl RefusedPart {
    /// No part is known.
    pub fn unknown() -> RefusedPart {
        RefusedPart {
            place: None,
            steps: None,
        }
    }

    /// The part of these bytes that has the fault with which they were refused. Out of memory is of no part. `left` is
    /// what the conditions before the fault leave of the budget.
    pub fn at(
        alloc: Global,
        bytes: &[u8],
        fault: &Fault,
        left: Budget,
        budget: Budget,
    ) -> RefusedPart {
        let steps = match fault.refusal {
            Refusal::Memory => return RefusedPart::unknown(),
            Refusal::TooCostly => Some(StepsLeft {
                left: left.steps,
                budget: budget.steps,
            }),
            _ => None,
        };
        RefusedPart {
            place: place_of_fault(alloc, bytes, fault),
            steps,
        }
    }

    /// What the refusal of the part means.
    pub fn meaning(&self, refusal: Refusal) -> Meaning {
        Meaning {
            refusal,
            steps: self.steps,
        }
    }
}

/// The steps of a budget that are left for a condition.
#[derive(Clone, Copy)]
pub struct StepsLeft {
    left: u64,
    budget: u64,
}

impl fmt::Display for StepsLeft {
    fn fmt<W: fmt::Write>(&self, f: &mut fmt::Formatter<W>) -> fmt::Result {
        let budget = self.budget;
        match self.left {
            1 => write!(f, "1 of {budget} steps is left"),
            left => write!(f, "{left} of {budget} steps are left"),
        }
    }
}

/// What a refusal means.
#[derive(Clone, Copy)]
pub struct Meaning {
    refusal: Refusal,
    steps: Option<StepsLeft>,
}

/// Writes the meaning; with the steps that are left for the condition, if it may take more.
impl fmt::Display for Meaning {
    fn fmt<W: fmt::Write>(&self, f: &mut fmt::Formatter<W>) -> fmt::Result {
        let meaning = meaning_of(self.refusal);
        match self.steps {
            Some(steps) => write!(
                f,
                "{meaning}: {steps} for the condition at the place, which may take more"
            ),
            None => f.write_str(meaning),
        }
    }
}
