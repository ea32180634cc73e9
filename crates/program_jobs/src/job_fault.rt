//! Why a job has no result.

use std::alloc::{AllocError, AllocFailed};
use std::io;

/// Why a job has no result.
#[derive(Drop)]
pub enum JobFault {
    /// The words name no job: they ask for help, or are mistaken.
    Words(clap::Error),
    /// The file at this path cannot be read, for this cause.
    File(String, io::Error),
    /// The facts file has no facts within the limits.
    Facts,
    /// The configuration file has no configuration.
    Config,
    /// The input cannot be read, for this cause.
    Input(io::Error),
    /// The log at this path cannot be opened, for this cause.
    Log(String, io::Error),
    /// The program cannot listen at this address, for this cause.
    Listen(String, io::Error),
    /// Memory ran out.
    Memory,
}

impl From<AllocError> for JobFault {
    ghost use Rattle.std.specs.Prelude.{◌≡◌};
    ghost use Rattle.program_jobs.specs.declared.job_fault.JobFault.TheVariants.{Memory};

    ghost from_gives = { λ _ e. e ≡ Memory };

    fn from(_refused: AllocError) -> JobFault {
        JobFault::Memory
    }
}

impl<T: Drop> From<AllocFailed<T>> for JobFault {
    ghost use Rattle.std.specs.Prelude.{◌≡◌};
    ghost use Rattle.program_jobs.specs.declared.job_fault.JobFault.TheVariants.{Memory};

    ghost from_gives = { λ _ e. e ≡ Memory };

    fn from(_refused: AllocFailed<T>) -> JobFault {
        JobFault::Memory
    }
}
