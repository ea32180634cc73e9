//! Reads the files of a job.
ghost use Rattle.std.specs.Prelude.{◌≡◌, ◌≢◌, ◌⊎◌, ℕ, IfErr, IfOk, List, Some, option_map, string_bytes};
ghost use Rattle.attributes.specs.Conn.{conn_view};
ghost use Rattle.std.specs.IoError.{error_kind};
ghost use Rattle.program_jobs.specs.Jobs.{HasBadFacts, IsConnOf, IsUnread};
ghost use Rattle.program_jobs.specs.private.Stopping.{MemoryOrStop};
ghost use Rattle.program_jobs.specs.declared.job_fault.JobFault.{JobFault};

use crate::files::Source;
use crate::job_fault::JobFault;
use attributes::Conn;
use program_texts::{FactsFault, read_conn};
use rbac_judge::Notes;
use rbac_judge::judge::plain_conn;
use std::alloc::Global;
use std::io::{self, ErrorKind};

/// The connection with the facts of the facts file; a plain one if no file is named.
pub(crate) fn conn_of<F: Source>(
    alloc: Global,
    facts: Option<String>,
    files: &F,
    notes: &mut Notes,
) -> Result<Conn, JobFault>
    ensures found { IfOk result (λ conn. IsConnOf (F.holds files.now) (F.lacks files.now)
        (option_map string_bytes facts) (conn_view conn)) }
    ensures fault { IfErr result (MemoryOrStop (λ e. (path : List ℕ)
        × (option_map string_bytes facts ≡ Some path)
        × (IsUnread (F.holds files.now) (F.lacks files.now) path e
        ⊎ HasBadFacts (F.holds files.now) (F.lacks files.now) path e))) }
{
    match facts {
        None => Ok(plain_conn(alloc)?),
        Some(path) => read_facts_file(alloc, files, path.as_str(), notes),
    }
}

// The connection with the facts of the facts file at this path.
fn read_facts_file<F: Source>(
    alloc: Global,
    files: &F,
    path: &str,
    notes: &mut Notes,
) -> Result<Conn, JobFault>
    ensures found { IfOk result (λ conn. IsConnOf (F.holds files.now) (F.lacks files.now)
        (Some path.now) (conn_view conn)) }
    ensures fault { IfErr result (MemoryOrStop (λ e.
        IsUnread (F.holds files.now) (F.lacks files.now) path.now e
        ⊎ HasBadFacts (F.holds files.now) (F.lacks files.now) path.now e)) }
{
    let text = read_file(alloc, files, path)?;
    match read_conn(alloc, &text) {
        Ok(conn) => Ok(conn),
        Err(fault) => {
            if matches!(fault, FactsFault::Bad) {
                notes.look_at_facts(alloc, &text)?;
            }
            Err(stop_by_facts(fault))
        }
    }
}

// The job's fault if the facts cannot be read.
fn stop_by_facts(fault: FactsFault) -> JobFault
    ensures bad { fault ≡ FactsFault.Bad → result ≡ JobFault.Facts }
    ensures memory { fault ≡ FactsFault.Memory → result ≡ JobFault.Memory }
{
    match fault {
        FactsFault::Bad => JobFault::Facts,
        FactsFault::Memory => JobFault::Memory,
    }
}

/// The bytes of the file at this path.
pub fn read_file<F: Source>(alloc: Global, files: &F, path: &str) -> Result<Vec<u8>, JobFault>
    ensures found { IfOk result (λ v. F.holds files.now path.now v.items) }
    ensures fault { IfErr result (λ e. (e ≡ JobFault.Memory)
        ⊎ IsUnread (F.holds files.now) (F.lacks files.now) path.now e) }
{
    match files.read_file(alloc, path) {
        Ok(bytes) => Ok(bytes),
        Err(cause) => Err(stop_by_file(String::from_str(alloc, path)?, cause)),
    }
}

// The job's fault if the file of this name cannot be read, for this cause.
fn stop_by_file(name: String, cause: io::Error) -> JobFault
    ensures file { error_kind cause ≢ ErrorKind.OutOfMemory → result ≡ JobFault.File name cause }
    ensures memory { error_kind cause ≡ ErrorKind.OutOfMemory → result ≡ JobFault.Memory }
{
    if cause.kind() == ErrorKind::OutOfMemory {
        return JobFault::Memory;
    }
    JobFault::File(name, cause)
}
