//! Why a call has no answer, and the statuses of calls.

ghost use Rattle.std.specs.Prelude.{◌≡◌, ◌≢◌, ℤ, pos};
ghost use Rattle.vupresal_c.specs.Statuses.{done, status_of};

use ads::ConfigFault;
use c_inputs::FactsFault;
use http_front::HeadFault;
use proto_wire::Refusal;
use stack_machine::RunError;
use std::alloc::{AllocError, AllocFailed};

/// The status of a call that is done.
pub(crate) const OK: i32 = 0;

/// Why a call has no answer.
#[derive(Clone, Copy, Debug)]
pub(crate) enum Fault {
    /// The handle is empty.
    Empty,
    /// The limits, the budget or the configuration are out of range, or a port, an address or a protocol is.
    OutOfRange,
    /// The filter's message has this fault, or memory ran out.
    Refused(Refusal),
    /// A condition took more steps than it may.
    OutOfSteps,
    /// A text of the facts is not UTF-8, or too long to be read.
    BadFacts,
    /// The bytes end inside the head.
    Unfinished,
    /// The head has this fault.
    Head(HeadFault),
}

impl Fault {
    /// The status that C gets.
    pub(crate) fn status(self) -> i32
        ensures value { result ≡ status_of self }
        ensures not_done { result ≢ done }
    {
        match self {
            Fault::Empty => -1,
            Fault::OutOfRange => -2,
            Fault::Refused(refusal) => i32::from(refusal.number()),
            Fault::OutOfSteps => 20,
            Fault::BadFacts => 400,
            Fault::Unfinished => 400,
            Fault::Head(fault) => i32::from(fault.status()),
        }
    }
}

impl From<AllocError> for Fault {
    ghost use Rattle.vupresal_c.specs.Statuses.{memory};

    ghost from_gives = { λ _ e. e ≡ memory };

    fn from(_error: AllocError) -> Fault {
        Fault::Refused(Refusal::Memory)
    }
}

impl<T: Drop> From<AllocFailed<T>> for Fault {
    ghost use Rattle.vupresal_c.specs.Statuses.{memory};

    ghost from_gives = { λ _ e. e ≡ memory };

    fn from(_error: AllocFailed<T>) -> Fault {
        Fault::Refused(Refusal::Memory)
    }
}

impl From<Refusal> for Fault {
    ghost use Rattle.vupresal_c.specs.declared.fault.Fault.TheVariants.{Refused};

    ghost from_gives = { λ refusal e. e ≡ Refused refusal };

    fn from(refusal: Refusal) -> Fault {
        Fault::Refused(refusal)
    }
}

impl From<FactsFault> for Fault {
    ghost use Rattle.vupresal_c.specs.Statuses.{of_facts};

    ghost from_gives = { λ fault e. e ≡ of_facts fault };

    fn from(fault: FactsFault) -> Fault {
        match fault {
            FactsFault::NoText => Fault::BadFacts,
            FactsFault::OutOfRange => Fault::OutOfRange,
            FactsFault::Memory => Fault::Refused(Refusal::Memory),
        }
    }
}

impl From<RunError> for Fault {
    ghost use Rattle.vupresal_c.specs.Statuses.{of_run};

    ghost from_gives = { λ fault e. e ≡ of_run fault };

    fn from(fault: RunError) -> Fault {
        match fault {
            RunError::Memory => Fault::Refused(Refusal::Memory),
            RunError::OutOfSteps => Fault::OutOfSteps,
        }
    }
}

impl From<ConfigFault> for Fault {
    ghost use Rattle.vupresal_c.specs.Statuses.{of_config};

    ghost from_gives = { λ fault e. e ≡ of_config fault };

    fn from(fault: ConfigFault) -> Fault {
        match fault {
            ConfigFault::Memory => Fault::Refused(Refusal::Memory),
            ConfigFault::NoFilter => Fault::OutOfRange,
            ConfigFault::TooManyFilters => Fault::OutOfRange,
            ConfigFault::DoubledName => Fault::OutOfRange,
            ConfigFault::BadName => Fault::OutOfRange,
            ConfigFault::BadBudget => Fault::OutOfRange,
        }
    }
}
