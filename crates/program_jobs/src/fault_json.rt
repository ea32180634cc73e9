//! A fault that stops a job, as a JSON object.
ghost use Rattle.std.specs.Prelude.{◌≡◌, ◌⊎◌, ℕ, List, IfOk, string_bytes};
ghost use Rattle.serde_json.specs.View.{view};
ghost use Rattle.rbac_judge.specs.Json.{fault_json};
ghost use Rattle.program_jobs.specs.Jobs.{LeavesFault, LeavesObject, fault_object, fault_words, status_of_fault};
ghost use Rattle.program_jobs.specs.declared.job_fault.JobFault.{JobFault};

use crate::ending::{BAD_JSON, MISTAKE, end_by_memory, text_of, write_error, write_output_fault};
use crate::job_fault::JobFault;
use program_texts::shown::shown;
use program_texts::write_whole;
use rbac_judge::{Notes, Outcome};
use serde_json::{Value, json};
use std::alloc::{AllocError, Global};
use std::io::Write;

/// Prints the fault that stops a job, as JSON on standard output and in words on standard error, and returns the
/// status. If there is no memory for that, it prints that memory ran out.
pub(crate) fn end_in_json<W: Write, E: Write>(
    alloc: Global,
    fault: &JobFault,
    notes: &Notes,
    out: &mut W,
    errors: &mut E,
) -> u8
    ensures { LeavesObject (W.contents out.old) (W.contents out.new) (E.contents errors.old)
        (E.contents errors.new) result fault.now
        ⊎ LeavesFault (W.contents out.old) (W.contents out.new) (E.contents errors.old)
        (E.contents errors.new) result JobFault.Memory }
{
    let Ok(line) = object_line(alloc, fault, notes) else {
        return end_by_memory(out, errors);
    };
    let Ok(text) = text_of(alloc, fault, notes) else {
        return end_by_memory(out, errors);
    };
    match write_whole(out, line.as_bytes()) {
        Ok(()) => write_error(text.as_bytes(), status_of(fault), errors),
        Err(cause) => write_output_fault(cause, errors),
    }
}

// The exit status of a fault.
fn status_of(fault: &JobFault) -> u8
    ensures { result ≡ status_of_fault fault.now }
{
    match fault {
        JobFault::Facts | JobFault::Config => BAD_JSON,
        JobFault::Memory => Outcome::Memory.status(),
        JobFault::Words(_)
        | JobFault::File(..)
        | JobFault::Input(_)
        | JobFault::Log(..)
        | JobFault::Listen(..) => MISTAKE,
    }
}

// The line with the fault's JSON object.
fn object_line(alloc: Global, fault: &JobFault, notes: &Notes) -> Result<String, AllocError>
    ensures { IfOk result (λ line.
        (cause : List ℕ) × (string_bytes line ≡ fault_object fault.now cause)) }
{
    let cause = cause_of(alloc, fault, notes)?;
    object_with(alloc, fault, cause.as_str())
}

// The line with the fault's JSON object, with this cause.
fn object_with(alloc: Global, fault: &JobFault, cause: &str) -> Result<String, AllocError>
    ensures { IfOk result (λ line. string_bytes line ≡ fault_object fault.now cause.now) }
{
    let words = words_of(alloc, fault)?;
    let value = fault_value(alloc, words.as_str(), cause)?;
    let mut line = value.to_string(alloc)?;
    line.push('\n')?;
    Ok(line)
}

// The JSON object with these words and this cause.
fn fault_value(alloc: Global, words: &str, cause: &str) -> Result<Value, AllocError>
    ensures { IfOk result (λ value. view value ≡ fault_json words.now cause.now) }
{
    json!(in alloc; {"cause": cause, "error": words})
}

// The line of the fault, without its end.
fn words_of(alloc: Global, fault: &JobFault) -> Result<String, AllocError>
    ensures { IfOk result (λ words. string_bytes words ≡ fault_words fault.now) }
{
    match fault {
        JobFault::File(path, _) => {
            let path = shown(alloc, path.as_str())?;
            format!(in alloc; "cannot read {path}")
        }
        JobFault::Facts => String::from_str(alloc, "bad facts"),
        JobFault::Input(_) => String::from_str(alloc, "cannot read standard input"),
        JobFault::Words(_)
        | JobFault::Config
        | JobFault::Log(..)
        | JobFault::Listen(..)
        | JobFault::Memory => Ok(String::new(alloc)),
    }
}

// The cause of the fault.
fn cause_of(alloc: Global, fault: &JobFault, notes: &Notes) -> Result<String, AllocError> {
    match fault {
        JobFault::File(_, cause) => cause.to_string(alloc),
        JobFault::Facts => String::from_str(alloc, notes.facts.as_str()),
        JobFault::Input(cause) => cause.to_string(alloc),
        JobFault::Words(_)
        | JobFault::Config
        | JobFault::Log(..)
        | JobFault::Listen(..)
        | JobFault::Memory => Ok(String::new(alloc)),
    }
}
