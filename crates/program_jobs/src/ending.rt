//! The end of a job without a result: what is printed, and the status.
ghost use Rattle.std.specs.Prelude.{◌≡◌, ◌⊎◌, ◌↔◌, ◌++◌, IfOk, IsTrue, string_bytes};
ghost use Rattle.std.specs.Io.{StartsWith};
ghost use Rattle.rbac_judge.specs.Explain.{cause_line};
ghost use Rattle.rbac_judge.specs.Outcome.{line_of};
ghost use Rattle.program_texts.specs.Output.{Takes};
ghost use Rattle.program_jobs.specs.Jobs.{IsShown, LeavesFault, Prints, first_line};
ghost use Rattle.program_jobs.specs.declared.job_fault.JobFault.{JobFault};

use crate::job_fault::JobFault;
use clap::error::ErrorKind as WordsKind;
use program_texts::shown::{shown, shown_lines};
use program_texts::write_whole;
use rbac_judge::{Notes, Outcome};
use std::alloc::{AllocError, Global};
use std::io::{self, ErrorKind, Write};

/// The status of mistaken words, and of a file or an output that fails.
pub const MISTAKE: u8 = 2;

/// The status of a file whose JSON text is wrong.
pub(crate) const BAD_JSON: u8 = 6;

/// Prints the fault that stops a job, and returns the status. If there is no memory for that, it prints that memory ran
/// out.
pub fn end_by<W: Write, E: Write>(
    alloc: Global,
    fault: &JobFault,
    notes: &Notes,
    out: &mut W,
    errors: &mut E,
) -> u8
    ensures { (reported : JobFault) × ((reported ≡ fault.now) ⊎ (reported ≡ JobFault.Memory))
        × LeavesFault (W.contents out.old) (W.contents out.new) (E.contents errors.old)
        (E.contents errors.new) result reported }
{
    let Ok(text) = text_of(alloc, fault, notes) else {
        return end_by_memory(out, errors);
    };
    match fault {
        JobFault::Memory => end_by_memory(out, errors),
        JobFault::Words(error) if is_shown(error.kind()) => show(text.as_bytes(), 0, out, errors),
        JobFault::Facts | JobFault::Config => write_error(text.as_bytes(), BAD_JSON, errors),
        JobFault::Words(_) => write_error(text.as_bytes(), MISTAKE, errors),
        JobFault::File(..) => write_error(text.as_bytes(), MISTAKE, errors),
        JobFault::Input(_) => write_error(text.as_bytes(), MISTAKE, errors),
        JobFault::Log(..) => write_error(text.as_bytes(), MISTAKE, errors),
        JobFault::Listen(..) => write_error(text.as_bytes(), MISTAKE, errors),
    }
}

// Whether the words ask for a text, and so are no mistake.
fn is_shown(kind: WordsKind) -> bool
    ensures { IsTrue result ↔ IsShown kind }
{
    matches!(kind, WordsKind::DisplayHelp | WordsKind::DisplayVersion)
}

/// The text of a fault for the program's user: its line, and the cause below.
pub(crate) fn text_of(alloc: Global, fault: &JobFault, notes: &Notes) -> Result<String, AllocError>
    ensures { IfOk result (λ text. StartsWith (string_bytes text) (first_line fault.now)) }
{
    match fault {
        JobFault::Words(error) => {
            let text = error.to_string(alloc)?;
            shown_lines(alloc, text.as_str())
        }
        JobFault::File(path, cause) => {
            let path = shown(alloc, path.as_str())?;
            let line = format!(in alloc; "cannot read {path}\n")?;
            with_error(alloc, line, cause)
        }
        JobFault::Facts => {
            let line = String::from_str(alloc, "bad facts\n")?;
            with_cause(alloc, line, notes.facts.as_str())
        }
        JobFault::Config => {
            let line = String::from_str(alloc, "bad config\n")?;
            with_cause(alloc, line, notes.config.as_str())
        }
        JobFault::Input(cause) => {
            let line = String::from_str(alloc, "cannot read standard input\n")?;
            with_error(alloc, line, cause)
        }
        JobFault::Log(path, cause) => {
            let path = shown(alloc, path.as_str())?;
            let line = format!(in alloc; "cannot write {path}\n")?;
            with_error(alloc, line, cause)
        }
        JobFault::Listen(address, cause) => {
            let address = shown(alloc, address.as_str())?;
            let line = format!(in alloc; "cannot listen {address}\n")?;
            with_error(alloc, line, cause)
        }
        JobFault::Memory => Ok(String::new(alloc)),
    }
}

// The text, with a line for the cause of this error below.
fn with_error(alloc: Global, line: String, error: &io::Error) -> Result<String, AllocError>
    ensures { IfOk result (λ text. StartsWith (string_bytes text) (string_bytes line)) }
{
    let cause = error.to_string(alloc)?;
    with_cause(alloc, line, cause.as_str())
}

/// The text, with a line for the cause below.
pub(crate) fn with_cause(alloc: Global, line: String, cause: &str) -> Result<String, AllocError>
    ensures whole { IfOk result (λ text. string_bytes text ≡ string_bytes line ++ cause_line cause.now) }
    ensures starts { IfOk result (λ text. StartsWith (string_bytes text) (string_bytes line)) }
{
    let mut text = line;
    let cause = format!(in alloc; "  {cause}\n")?;
    text.push_str(cause.as_str())?;
    Ok(text)
}

/// Prints that memory ran out, and returns the status.
pub fn end_by_memory<W: Write, E: Write>(out: &mut W, errors: &mut E) -> u8
    ensures { Prints (W.contents out.old) (W.contents out.new) (E.contents errors.old)
        (E.contents errors.new) result 5 (line_of Outcome.Memory) }
{
    show(b"memory\n", Outcome::Memory.status(), out, errors)
}

/// Prints this text on standard output, and returns this status; 2 if that fails.
pub fn show<W: Write, E: Write>(text: &[u8], status: u8, out: &mut W, errors: &mut E) -> u8
    ensures { Prints (W.contents out.old) (W.contents out.new) (E.contents errors.old)
        (E.contents errors.new) result status text.now }
{
    match write_whole(out, text) {
        Ok(()) => status,
        Err(cause) => write_output_fault(cause, errors),
    }
}

/// Prints this text on standard error, and returns this status, even if that fails.
pub fn write_error<E: Write>(text: &[u8], status: u8, errors: &mut E) -> u8
    ensures status { result ≡ status }
    ensures reported { Takes (E.contents errors.old) (E.contents errors.new) text.now }
{
    let _ = write_whole(errors, text);
    status
}

/// Ends with status 2 after a failure of standard output. It prints the cause on standard error, unless the reader
/// closed the pipe.
pub(crate) fn write_output_fault<E: Write>(cause: io::Error, errors: &mut E) -> u8
    ensures { result ≡ 2 }
{
    if cause.kind() != ErrorKind::BrokenPipe {
        let _ = writeln!(errors, "cannot write standard output\n  {cause}");
    }
    MISTAKE
}
