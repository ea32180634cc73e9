//! Checks a policy file, and judges a request head by it.
ghost use Rattle.std.specs.Prelude.{◌≡◌, ◌≢◌, ◌⊎◌, ◌↔◌, ℕ, List, Option, Ok, Err, IfErr, IfOk, IsTrue, OnErr, option_map, slice_get, string_bytes};
ghost use Rattle.std.specs.FinMap.{keys};
ghost use Rattle.std.specs.IoError.{error_kind};
ghost use Rattle.std.specs.Io.KnownBytes.{Appends};
ghost use Rattle.attributes.specs.Limits.{largest};
ghost use Rattle.attributes.specs.Conn.{conn_view};
ghost use Rattle.http_front.specs.Asks.{IfJudge};
ghost use Rattle.rbac_judge.specs.Explain.{IsGiven};
ghost use Rattle.rbac_judge.specs.Judging.{IsAllOf, IsCheckOf, IsDecision, IsOutcomeOf, plain_facts};
ghost use Rattle.rbac_policy.specs.Admitted.{filter_view, limits_view};
ghost use Rattle.rbac_policy.specs.Admission.{Admissible};
ghost use Rattle.rbac_policy.specs.Verdict.{IsUnconditional};
ghost use Rattle.rbac_judge.specs.Outcome.{printed_of};
ghost use Rattle.rbac_judge.specs.Reports.{IsPrintedFor, without_memory};
ghost use Rattle.rbac_judge.specs.declared.report.Report.{Report};
ghost use Rattle.program_texts.specs.Output.{BreaksOff};
ghost use Rattle.rbac_judge.specs.private.Judged.{IsAnswerTo, IsExplanationOf, IsNameOf, IsOutcomeOfAsk, IsOutcomeUnder};
ghost use Rattle.rbac_judge.specs.Reports.{bare, report_with};

use crate::admitting::admit_file;
use crate::explain::{Explaining, Explanation, own_trials};
use crate::input::read_ask;
use crate::json::Why;
use crate::notes::Notes;
use crate::outcome::Outcome;
use crate::policy_file::PolicyFile;
use crate::report::Report;
use attributes::{Conn, Request};
use http_front::{HeadAsk, HeadFault};
use program_texts::write_whole;
use rbac_policy::Admitted;
use stack_machine::RunError;
use std::alloc::{AllocError, Global};
use std::io::{self, ErrorKind, Read, Write};
use std::sync::ArcStr;

/// The result of checking or judging.
#[derive(Drop)]
pub struct Finding {
    /// The outcome.
    pub outcome: Outcome,
    /// The name of the policy that matched, if one did.
    pub name: Option<String>,
    /// Why a verdict is what it is, if that was asked for.
    pub explanation: Explanation,
}

impl Finding {
    /// A finding with only an outcome.
    pub fn bare(outcome: Outcome) -> Finding
        ensures { result ≡ bare outcome }
    {
        Finding {
            outcome,
            name: None,
            explanation: Explanation::Absent,
        }
    }

    /// The report of the finding, to be printed as JSON or in words.
    pub fn report(self, json: bool) -> Report
        ensures { result ≡ report_with json self }
    {
        Report {
            outcome: self.outcome,
            name: self.name,
            json,
            explanation: self.explanation,
            why: Why::none(),
        }
    }
}

/// Checks whether a policy file is admitted under its budget. It is noted which part of a refused one has the fault.
pub fn check(alloc: Global, policy: PolicyFile<'_>, notes: &mut Notes) -> Outcome
    ensures { IsCheckOf policy.entry.bytes.now policy.entry.budget result }
{
    match admit_file(alloc, policy, notes) {
        Ok(admitted) => Outcome::Admitted {
            policies: admitted.policies(),
            bound: admitted.bound(),
        },
        Err(refusal) => Outcome::Refused(refusal),
    }
}

/// Prints the report, and returns the report that was printed. If there is no memory for its trials, it is printed
/// without them. If there is none for its line, the report that memory ran out is printed.
pub fn print_report<W: Write>(alloc: Global, report: Report, out: &mut W) -> io::Result<Report>
    ensures same { IfOk result (IsPrintedFor report) }
    ensures text { IfOk result (λ printed. Appends (W.contents out.old) (W.contents out.new)
        (printed_of printed)) }
    ensures part { OnErr result ((printed : Report) × IsPrintedFor report printed
        × BreaksOff (W.contents out.old) (W.contents out.new) (printed_of printed)) }
{
    match report.text(alloc) {
        Ok(text) => {
            write_whole(out, text.as_bytes())?;
            Ok(report)
        }
        Err(AllocError) => print_unexplained(alloc, report, out),
    }
}

// Prints the report without its trials, or the line that memory ran out; returns the report that was printed.
fn print_unexplained<W: Write>(alloc: Global, report: Report, out: &mut W) -> io::Result<Report>
    ensures same { IfOk result (IsPrintedFor report) }
    ensures text { IfOk result (λ printed. Appends (W.contents out.old) (W.contents out.new)
        (printed_of printed)) }
    ensures part { OnErr result ((printed : Report) × IsPrintedFor report printed
        × BreaksOff (W.contents out.old) (W.contents out.new) (printed_of printed)) }
{
    let less = report.unexplained();
    match less.text(alloc) {
        Ok(text) => {
            write_whole(out, text.as_bytes())?;
            Ok(less)
        }
        Err(AllocError) => {
            let none = less.without_memory();
            write_whole(out, memory_line(none.json))?;
            Ok(none)
        }
    }
}

/// The line that memory ran out, in words or as JSON.
pub(crate) fn memory_line(json: bool) -> &'static [u8]
    ensures { (report : Report) → report.json ≡ json
        → result.now ≡ printed_of (without_memory report) }
{
    if json {
        b"{\"memory\":true}\n"
    } else {
        b"memory\n"
    }
}

/// A connection of which only the scheme `http` is known.
pub fn plain_conn(alloc: Global) -> Result<Conn, AllocError>
    ensures { IfOk result (λ conn. conn_view conn ≡ plain_facts) }
{
    Ok(Conn::of_scheme(ArcStr::from_str(alloc, "http")?))
}

/// Judges the head that the input begins with, by a policy file under its budget, on a connection with these facts. It
/// is noted which part of a refused file has the fault. An error is one of the input, of another kind than out of
/// memory.
pub fn judge<R: Read + Drop>(
    alloc: Global,
    policy: PolicyFile<'_>,
    conn: Conn,
    explain: bool,
    input: R,
    notes: &mut Notes,
) -> io::Result<Finding>
    ensures found { IfOk result (λ finding. (bytes : List ℕ) × IsAllOf (R.remaining input) bytes
        × IsOutcomeOf policy.entry.bytes.now policy.entry.budget (conn_view conn) bytes
        (option_map string_bytes finding.name) finding.explanation finding.outcome) }
    ensures given { IfOk result (λ finding.
        IsGiven finding.explanation ↔ (IsTrue explain × IsDecision finding.outcome)) }
    ensures fault { IfErr result (λ e. (error_kind e ≢ ErrorKind.OutOfMemory)
        × Admissible policy.entry.bytes.now largest policy.entry.budget) }
{
    match admit_file(alloc, policy, notes) {
        Ok(admitted) => {
            let explaining = Explaining {
                asked: explain,
                policy: policy.bytes,
            };
            memory_as_finding(head_finding(alloc, &admitted, conn, explaining, input))
        }
        Err(refusal) => Ok(Finding::bare(Outcome::Refused(refusal))),
    }
}

// Turns an out-of-memory error into an outcome; other errors stay errors.
fn memory_as_finding(answer: io::Result<Finding>) -> io::Result<Finding>
    ensures kept { IfOk answer (λ finding. result ≡ Ok finding) }
    ensures memory { OnErr answer (IfOk result (λ finding. finding ≡ bare Outcome.Memory)) }
    ensures others { IfErr result (λ e. (answer ≡ Err e) × (error_kind e ≢ ErrorKind.OutOfMemory)) }
    ensures reported { IfErr answer (λ e. error_kind e ≢ ErrorKind.OutOfMemory → result ≡ Err e) }
{
    match answer {
        Ok(finding) => Ok(finding),
        Err(error) if error.kind() == ErrorKind::OutOfMemory => Ok(Finding::bare(Outcome::Memory)),
        Err(error) => Err(error),
    }
}

// The finding for the head that the input begins with. Out of memory is an error here.
fn head_finding<R: Read + Drop>(
    alloc: Global,
    admitted: &Admitted,
    conn: Conn,
    explaining: Explaining<'_>,
    input: R,
) -> io::Result<Finding>
    requires { limits_view admitted.now ≡ largest }
    ensures outcome { IfOk result (λ finding. (bytes : List ℕ) × IsAllOf (R.remaining input) bytes
        × IsOutcomeUnder (filter_view admitted.now) (conn_view conn) bytes finding.explanation
        finding.outcome) }
    ensures name { IfOk result (λ finding. IsNameOf (filter_view admitted.now) finding.outcome
        (option_map string_bytes finding.name)) }
    ensures given { IfOk result (λ finding.
        IsGiven finding.explanation ↔ (IsTrue explaining.entry.asked × IsDecision finding.outcome)) }
{
    let mut input = input;
    let found = read_ask(alloc, admitted.limits(), conn, &mut input)?;
    Ok(finding_of_ask(alloc, admitted, &found, explaining)?)
}

/// The finding for what the bytes of an input ask.
pub(crate) fn finding_of_ask(
    alloc: Global,
    admitted: &Admitted,
    found: &Option<HeadAsk>,
    explaining: Explaining<'_>,
) -> Result<Finding, AllocError>
    requires { limits_view admitted.now ≡ largest }
    ensures outcome { IfOk result (λ finding.
        IsOutcomeOfAsk (filter_view admitted.now) found.now finding.outcome) }
    ensures explanation { IfOk result (λ finding. IfJudge found.now
        (λ request. IsExplanationOf (filter_view admitted.now) request finding.explanation)) }
    ensures name { IfOk result (λ finding. IsNameOf (filter_view admitted.now) finding.outcome
        (option_map string_bytes finding.name)) }
    ensures given { IfOk result (λ finding.
        IsGiven finding.explanation ↔ (IsTrue explaining.entry.asked × IsDecision finding.outcome)) }
{
    let outcome = outcome_of_ask(admitted, found);
    let name = name_of(alloc, admitted, outcome)?;
    let explanation = explanation_of_ask(alloc, admitted, found, outcome, explaining);
    Ok(Finding {
        outcome,
        name,
        explanation,
    })
}

// The name of the policy that matched, if the outcome has one.
fn name_of(
    alloc: Global,
    admitted: &Admitted,
    outcome: Outcome,
) -> Result<Option<String>, AllocError>
    ensures { IfOk result (λ name. IsNameOf (filter_view admitted.now) outcome
        (option_map string_bytes name)) }
{
    match outcome.matched() {
        Some(number) => name_at(alloc, admitted, number),
        None => Ok(None),
    }
}

// The name of the policy of this number.
fn name_at(alloc: Global, admitted: &Admitted, number: usize) -> Result<Option<String>, AllocError>
    ensures { IfOk result (λ name. option_map string_bytes name
        ≡ slice_get (keys (filter_view admitted.now).policies) number) }
{
    match admitted.policy_name(number) {
        Some(name) => Ok(Some(String::from_str(alloc, name)?)),
        None => Ok(None),
    }
}

// The outcome of an ask, or of a head that is not whole.
fn outcome_of_ask(admitted: &Admitted, found: &Option<HeadAsk>) -> Outcome
    requires { limits_view admitted.now ≡ largest }
    ensures { IsOutcomeOfAsk (filter_view admitted.now) found.now result }
{
    match found {
        Some(HeadAsk::Judge(request)) => decided(admitted, request),
        Some(HeadAsk::Fault(fault)) => Outcome::Fault(*fault),
        None => Outcome::Fault(HeadFault::Unfinished),
    }
}

// The outcome of a request. A filter without conditions never gives `Memory`.
fn decided(admitted: &Admitted, request: &Request) -> Outcome
    requires { limits_view admitted.now ≡ largest }
    ensures never { IsUnconditional (filter_view admitted.now) → result ≢ Outcome.Memory }
    ensures found { IsAnswerTo (filter_view admitted.now) request.now result }
{
    let verdict = match admitted.decide(request) {
        Ok(verdict) => verdict,
        Err(RunError::OutOfSteps) => return Outcome::OutOfSteps,
        Err(RunError::Memory) => return Outcome::Memory,
    };
    if verdict.allowed {
        Outcome::Allowed(verdict.matched)
    } else {
        Outcome::Denied(verdict.matched)
    }
}

// Why a verdict is what it is, if that was asked for.
fn explanation_of_ask(
    alloc: Global,
    admitted: &Admitted,
    found: &Option<HeadAsk>,
    outcome: Outcome,
    explaining: Explaining<'_>,
) -> Explanation
    requires limits { limits_view admitted.now ≡ largest }
    requires asked { IsOutcomeOfAsk (filter_view admitted.now) found.now outcome }
    ensures found { IfJudge found.now
        (λ request. IsExplanationOf (filter_view admitted.now) request result) }
    ensures given { IsGiven result ↔ (IsTrue explaining.entry.asked × IsDecision outcome) }
{
    match found {
        Some(HeadAsk::Judge(request)) if explaining.asked && outcome.is_decision() => {
            explained(alloc, admitted, request, explaining.policy)
        }
        _ => Explanation::Absent,
    }
}

// The explanation with the policies that are tried for the request. The filter is that of the policy file with these
// bytes.
fn explained(alloc: Global, admitted: &Admitted, request: &Request, policy: &[u8]) -> Explanation
    requires { limits_view admitted.now ≡ largest }
    ensures found { IsExplanationOf (filter_view admitted.now) request.now result }
    ensures given { IsGiven result }
{
    let trials = match admitted.trials(request) {
        Ok(trials) => trials,
        Err(cause) => return Explanation::Unavailable(cause),
    };
    match own_trials(alloc, policy, admitted, request, &trials) {
        Ok(own) => Explanation::Trials(own),
        Err(AllocError) => Explanation::Unavailable(RunError::Memory),
    }
}
