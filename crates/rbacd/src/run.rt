//! The program's whole run, from its words to its status.
ghost use Rattle.std.specs.Prelude.{◌≡◌, ◌⊎◌, map};
ghost use Rattle.clap.specs.Words.{kind_of};
ghost use Rattle.rbacd.specs.Run.{EndsJob, Ran};
ghost use Rattle.command_line.specs.Words.{IsRunnable};
ghost use Rattle.program_jobs.specs.declared.job_fault.JobFault.{JobFault};

use crate::server::{Hosts, run_serve};
use clap::error::ErrorKind as WordsKind;
use command_line::{Job, read_words};
use program_jobs::{
    JobFault, Sockets, Source, check_config, end_by, replay_config, run_batch, run_check,
    run_control, run_judge, run_proxy,
};
use rbac_judge::Notes;
use std::alloc::Global;
use std::convert::AsStr;
use std::io::{BufRead, Write};

/// Runs the job that the words name; the first word is the program's own name. It reads the named files, and the input
/// if the job has one, or serves at the named addresses. Prints the result, and returns the status.
pub fn run<S: AsStr, F: Source + Sockets + Hosts, R: BufRead + Drop, W: Write, E: Write>(
    alloc: Global,
    words: &[S],
    files: &F,
    input: R,
    out: &mut W,
    errors: &mut E,
) -> u8
    ensures { Ran (F.holds files.now) (F.lacks files.now) (F.connects files.now) (F.accepts files.now) (F.hosted files.now)
        (R.remaining input) (W.contents out.old) (W.contents out.new) (E.contents errors.old) (E.contents errors.new) result
        (map S.text words.now) }
{
    match read_words(alloc, words) {
        Ok(job) => run_named(alloc, job, files, input, out, errors),
        Err(error) => end_by(alloc, &words_fault(error), &Notes::new(alloc), out, errors),
    }
}

// The job's fault if the words have this fault.
fn words_fault(error: clap::Error) -> JobFault
    ensures memory { kind_of error ≡ WordsKind.OutOfMemory → result ≡ JobFault.Memory }
    ensures words { (result ≡ JobFault.Memory) ⊎ (result ≡ JobFault.Words error) }
{
    if error.kind() == WordsKind::OutOfMemory {
        return JobFault::Memory;
    }
    JobFault::Words(error)
}

// Runs the job.
fn run_named<F: Source + Sockets + Hosts, R: BufRead + Drop, W: Write, E: Write>(
    alloc: Global,
    job: Job,
    files: &F,
    input: R,
    out: &mut W,
    errors: &mut E,
) -> u8
    requires { IsRunnable job }
    ensures { EndsJob (F.holds files.now) (F.lacks files.now) (F.connects files.now) (F.accepts files.now) (F.hosted files.now)
        (R.remaining input) (W.contents out.old) (W.contents out.new) (E.contents errors.old) (E.contents errors.new) result job }
{
    match job {
        Job::Check(words) => run_check(alloc, &words, files, out, errors),
        Job::Judge(words) => run_judge(alloc, words, files, input, out, errors),
        Job::Batch(words) => run_batch(alloc, words, files, input, out, errors),
        Job::CheckConfig { config } => check_config(alloc, config.as_str(), files, out, errors),
        Job::Replay(words) => replay_config(alloc, &words, files, input, out, errors),
        Job::Control(words) => run_control(alloc, &words, files, out, errors),
        Job::Proxy(words) => run_proxy(alloc, words, files, out, errors),
        Job::Serve(words) => run_serve(alloc, &words, files, out, errors),
    }
}
