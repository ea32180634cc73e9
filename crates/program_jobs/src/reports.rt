//! The jobs that print a report: a check of a policy, and a judgement.
ghost use Rattle.std.specs.Prelude.{◌≡◌, ◌↔◌, IfErr, IfOk, IsTrue, option_map, string_bytes};
ghost use Rattle.rbac_judge.specs.Explain.{IsGiven};
ghost use Rattle.rbac_judge.specs.Judging.{IsDecision};
ghost use Rattle.program_jobs.specs.Jobs.{ChecksTo, EndsReport, IsCheckedAs, IsJudgedAs, IsUnread, JudgesTo, StopsBy};
ghost use Rattle.rbac_judge.specs.Reports.{bare};
ghost use Rattle.program_jobs.specs.private.Stopping.{MemoryOrStop};

use crate::files::Source;
use crate::job_fault::JobFault;
use crate::reading::{conn_of, read_file};
use crate::recorded::Recorded;
use crate::reporting::{end_result, report_of};
use command_line::{CheckWords, JudgeWords};
use cost_bound::Budget;
use rbac_judge::judge::{Finding, check, judge};
use rbac_judge::{Notes, PolicyFile};
use std::alloc::Global;
use std::io::{Read, Write};

/// Checks a policy file, and prints the report. Returns the status.
pub fn run_check<F: Source, W: Write, E: Write>(
    alloc: Global,
    words: &CheckWords,
    files: &F,
    out: &mut W,
    errors: &mut E,
) -> u8
    ensures { EndsReport (W.contents out.old) (W.contents out.new) (E.contents errors.old) (E.contents errors.new)
        result words.now.json (ChecksTo (F.holds files.now) (F.lacks files.now) words.now) }
{
    let mut notes = Notes::new(alloc);
    let finding = check_file(
        alloc,
        words.policy.as_str(),
        words.budget,
        files,
        &mut notes,
    );
    let found = report_of(finding, words.json);
    end_result(alloc, found, words.json, &notes, out, errors)
}

/// Judges the head that the input begins with, and prints the report. Returns the status.
pub fn run_judge<F: Source, R: Read + Drop, W: Write, E: Write>(
    alloc: Global,
    words: JudgeWords,
    files: &F,
    input: R,
    out: &mut W,
    errors: &mut E,
) -> u8
    ensures { EndsReport (W.contents out.old) (W.contents out.new) (E.contents errors.old) (E.contents errors.new)
        result words.json (JudgesTo (F.holds files.now) (F.lacks files.now) (R.remaining input) words) }
{
    let mut notes = Notes::new(alloc);
    let json = words.json;
    let finding = judge_files(alloc, words, files, input, &mut notes);
    let found = report_of(finding, json);
    end_result(alloc, found, json, &notes, out, errors)
}

// Checks a policy file.
fn check_file<F: Source>(
    alloc: Global,
    policy: &str,
    budget: Budget,
    files: &F,
    notes: &mut Notes,
) -> Result<Finding, JobFault>
    ensures found { IfOk result (λ finding. IsCheckedAs (F.holds files.now) (F.lacks files.now)
        policy.now budget finding.outcome) }
    ensures bare { IfOk result (λ finding. finding ≡ bare finding.outcome) }
    ensures fault { IfErr result (MemoryOrStop
        (IsUnread (F.holds files.now) (F.lacks files.now) policy.now)) }
{
    let bytes = read_file(alloc, files, policy)?;
    let policy = PolicyFile {
        bytes: &bytes,
        budget,
    };
    Ok(Finding::bare(check(alloc, policy, notes)))
}

// Judges the head that the input begins with, by a policy file, on a connection with the facts of a facts file.
fn judge_files<F: Source, R: Read + Drop>(
    alloc: Global,
    words: JudgeWords,
    files: &F,
    input: R,
    notes: &mut Notes,
) -> Result<Finding, JobFault>
    ensures found { IfOk result (λ finding. IsJudgedAs (F.holds files.now) (F.lacks files.now)
        (string_bytes words.policy) (option_map string_bytes words.facts) words.budget (R.remaining input)
        (option_map string_bytes finding.name) finding.explanation finding.outcome) }
    ensures given { IfOk result (λ finding.
        IsGiven finding.explanation ↔ (IsTrue words.explain × IsDecision finding.outcome)) }
    ensures fault { IfErr result (MemoryOrStop (StopsBy (F.holds files.now) (F.lacks files.now)
        (string_bytes words.policy) (option_map string_bytes words.facts) words.budget (R.remaining input))) }
{
    let bytes = read_file(alloc, files, words.policy.as_str())?;
    let conn = conn_of(alloc, words.facts, files, notes)?;
    let mut kept = Vec::new(alloc);
    let input = Recorded {
        input,
        kept: &mut kept,
    };
    let policy = PolicyFile {
        bytes: &bytes,
        budget: words.budget,
    };
    match judge(alloc, policy, conn, words.explain, input, notes) {
        Ok(finding) => {
            notes.look_at_head(alloc, &kept, finding.outcome);
            Ok(finding)
        }
        Err(cause) => Err(JobFault::Input(cause)),
    }
}
