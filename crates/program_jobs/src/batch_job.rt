//! The job of a batch: reads its files, answers its lines, and ends with a status.
ghost use Rattle.std.specs.Prelude.{◌≡◌, List, Option, ℕ, IfErr, IfOk, option_map, string_bytes};
ghost use Rattle.attributes.specs.Limits.{largest};
ghost use Rattle.rbac_policy.specs.Admitted.{limits_view};
ghost use Rattle.program_jobs.specs.Jobs.{EndsBatch, StopsBy};
ghost use Rattle.program_jobs.specs.private.BatchJob.{EndsLines, IsBegunBy};
ghost use Rattle.program_jobs.specs.private.Stopping.{MemoryOrStop};

use crate::ending::end_by_memory;
use crate::files::Source;
use crate::job_fault::JobFault;
use crate::reading::{conn_of, read_file};
use crate::reporting::{end_result, report_of};
use crate::settings::end_replay;
use command_line::BatchWords;
use proto_wire::Refusal;
use rbac_judge::batch::{BLOCK, BatchSettings, batch};
use rbac_judge::judge::Finding;
use rbac_judge::{Notes, Outcome, PolicyFile, admit_file};
use std::alloc::Global;
use std::io::{BufReader, Read, Write};

// What a batch begins with.
#[derive(Drop)]
enum Start {
    // The policy is admitted, and heads are judged by this.
    Ready(BatchSettings),
    // The policy is refused.
    Refused(Refusal),
}

/// Judges the head of each line of the input by a policy file. Returns the status.
pub fn run_batch<F: Source, R: Read + Drop, W: Write, E: Write>(
    alloc: Global,
    words: BatchWords,
    files: &F,
    input: R,
    out: &mut W,
    errors: &mut E,
) -> u8
    ensures { EndsBatch (F.holds files.now) (F.lacks files.now) (R.remaining input) (W.contents out.old)
        (W.contents out.new) (E.contents errors.old) (E.contents errors.new) result words }
{
    let mut notes = Notes::new(alloc);
    let json = words.json;
    match begin(alloc, words, files, &mut notes) {
        Ok(Start::Ready(basis)) => answer_lines(alloc, &basis, input, out, errors),
        Ok(Start::Refused(refusal)) => {
            let report = Finding::bare(Outcome::Refused(refusal)).report(json);
            end_result(alloc, Ok(report), json, &notes, out, errors)
        }
        Err(fault) => end_result(
            alloc,
            report_of(Err(fault), json),
            json,
            &notes,
            out,
            errors,
        ),
    }
}

// Reads the files of a batch: the policy, and the facts of lines without facts.
fn begin<F: Source>(
    alloc: Global,
    words: BatchWords,
    files: &F,
    notes: &mut Notes,
) -> Result<Start, JobFault>
    ensures found { IfOk result (IsBegunBy (F.holds files.now) (F.lacks files.now) words) }
    ensures fault { IfErr result (λ e. (input : Option (List ℕ)) → MemoryOrStop (StopsBy (F.holds files.now)
        (F.lacks files.now) (string_bytes words.policy) (option_map string_bytes words.facts) words.budget input) e) }
{
    let bytes = read_file(alloc, files, words.policy.as_str())?;
    let conn = conn_of(alloc, words.facts, files, notes)?;
    let policy = PolicyFile {
        bytes: &bytes,
        budget: words.budget,
    };
    match admit_file(alloc, policy, notes) {
        Ok(admitted) => Ok(Start::Ready(BatchSettings {
            policy: bytes,
            admitted,
            conn,
            explain: words.explain,
        })),
        Err(refusal) => Ok(Start::Refused(refusal)),
    }
}

// Answers the lines of the input. Returns the status.
fn answer_lines<R: Read + Drop, W: Write, E: Write>(
    alloc: Global,
    basis: &BatchSettings,
    input: R,
    out: &mut W,
    errors: &mut E,
) -> u8
    requires { limits_view basis.now.admitted ≡ largest }
    ensures { EndsLines basis.now (R.remaining input) (W.contents out.old) (W.contents out.new)
        (E.contents errors.old) (E.contents errors.new) result }
{
    match BufReader::with_capacity(alloc, BLOCK, input) {
        Ok(mut lines) => match batch(alloc, basis, &mut lines, out) {
            Ok(()) => 0,
            Err(fault) => end_replay(alloc, fault, errors),
        },
        Err(_) => end_by_memory(out, errors),
    }
}
