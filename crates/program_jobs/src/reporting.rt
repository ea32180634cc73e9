//! Prints the result of a job that has a report, and says on standard error why it is no verdict.
ghost use Rattle.std.specs.Prelude.{◌≡◌, ◌≢◌, Err, IfErr, IfOk, Ok};
ghost use Rattle.program_jobs.specs.Jobs.{WritesCauseFor, WritesCause};
ghost use Rattle.rbac_judge.specs.Reports.{bare, report_with};
ghost use Rattle.program_jobs.specs.private.Ending.{EndsResult, EndsWith};
ghost use Rattle.program_jobs.specs.declared.job_fault.JobFault.{JobFault};

use crate::ending::{end_by, write_output_fault};
use crate::fault_json::end_in_json;
use crate::job_fault::JobFault;
use fault_texts::rule_of;
use http_front::HeadFault;
use program_texts::write_whole;
use proto_wire::Refusal;
use rbac_judge::judge::{Finding, print_report};
use rbac_judge::{Explanation, Notes, Outcome, Report, unavailable_text};
use std::alloc::Global;
use std::io::Write;

/// Prints the result of a job, a report or the fault that stopped it. Returns the status.
pub(crate) fn end_result<W: Write, E: Write>(
    alloc: Global,
    found: Result<Report, JobFault>,
    json: bool,
    notes: &Notes,
    out: &mut W,
    errors: &mut E,
) -> u8
    ensures { EndsResult (W.contents out.old) (W.contents out.new) (E.contents errors.old)
        (E.contents errors.new) result json found }
{
    match found {
        Ok(report) => end_report(alloc, report, notes, out, errors),
        Err(fault) if json => end_in_json(alloc, &fault, notes, out, errors),
        Err(fault) => end_by(alloc, &fault, notes, out, errors),
    }
}

// Prints the report of a job, with why it is no verdict. Returns the status.
fn end_report<W: Write, E: Write>(
    alloc: Global,
    report: Report,
    notes: &Notes,
    out: &mut W,
    errors: &mut E,
) -> u8
    ensures { EndsWith (W.contents out.old) (W.contents out.new) (E.contents errors.old)
        (E.contents errors.new) result report }
{
    let why = notes.why(alloc, report.outcome);
    match print_report(alloc, report.with_why(why), out) {
        Ok(printed) => {
            write_notes(&printed, notes, errors);
            printed.outcome.status()
        }
        Err(cause) => write_output_fault(cause, errors),
    }
}

/// The report of a job's finding. Out of memory becomes an outcome.
pub(crate) fn report_of(found: Result<Finding, JobFault>, json: bool) -> Result<Report, JobFault>
    ensures kept { IfOk found (λ finding. result ≡ Ok (report_with json finding)) }
    ensures memory { found ≡ Err JobFault.Memory → result ≡ Ok (report_with json (bare Outcome.Memory)) }
    ensures others { IfErr found (λ e. e ≢ JobFault.Memory → result ≡ Err e) }
{
    match found {
        Ok(finding) => Ok(finding.report(json)),
        Err(JobFault::Memory) => Ok(Finding::bare(Outcome::Memory).report(json)),
        Err(fault) => Err(fault),
    }
}

// Prints why an outcome is no verdict, or why a verdict is not explained, on standard error. A failure there is
// ignored.
fn write_notes<E: Write>(report: &Report, notes: &Notes, errors: &mut E)
    ensures { WritesCauseFor (E.contents errors.old) (E.contents errors.new) report.now.explanation
        report.now.outcome }
{
    match report.outcome {
        Outcome::Refused(refusal) => write_refusal(refusal, notes, errors),
        Outcome::Fault(fault) => write_head_fault(fault, notes, errors),
        Outcome::Admitted { .. }
        | Outcome::Allowed(_)
        | Outcome::Denied(_)
        | Outcome::OutOfSteps
        | Outcome::Memory => write_cause(&report.explanation, errors),
    }
}

// Prints why there is no explanation, if one was asked for.
fn write_cause<E: Write>(explanation: &Explanation, errors: &mut E)
    ensures { WritesCause (E.contents errors.old) (E.contents errors.new) explanation.now }
{
    match explanation {
        Explanation::Absent => {}
        Explanation::Trials(_) => {}
        Explanation::Unavailable(cause) => {
            let _ = write_whole(errors, unavailable_text(*cause));
        }
    }
}

// Prints the rule that a head breaks, and the part that exceeds its limit.
fn write_head_fault<E: Write>(fault: HeadFault, notes: &Notes, errors: &mut E) {
    let _ = writeln!(errors, "  {}", rule_of(fault));
    if let Some(cause) = &notes.head {
        let _ = writeln!(errors, "  {cause}");
    }
}

// Prints the meaning of the refusal, the part of the policy file that has the fault, and what the file looks like.
fn write_refusal<E: Write>(refusal: Refusal, notes: &Notes, errors: &mut E) {
    let _ = writeln!(errors, "  {}", notes.part.meaning(refusal));
    if let Some(place) = &notes.part.place {
        let _ = writeln!(errors, "  {place}: {refusal}");
    }
    if let Some(likeness) = notes.policy {
        let _ = writeln!(
            errors,
            "  the policy file looks like {likeness}; it must be one binary message \
             envoy.extensions.filters.http.rbac.v3.RBAC"
        );
    }
}
