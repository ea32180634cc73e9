//! The jobs that begin with reading a configuration: `check-config` and `replay`.
ghost use Rattle.std.specs.Prelude.{◌≡◌, ◌⊎◌, IfErr, IfOk, string_bytes};
ghost use Rattle.std.specs.Io.{StartsWith};
ghost use Rattle.program_jobs.specs.Jobs.{EndsConfig, EndsReplay, IsConfigOf, LacksConfig, LeavesReplay, WritesLine, bad_line};
ghost use Rattle.program_jobs.specs.private.Stopping.{MemoryOrStop};

use crate::ending::{
    BAD_JSON, MISTAKE, end_by, end_by_memory, show, with_cause, write_error, write_output_fault,
};
use crate::files::Source;
use crate::job_fault::JobFault;
use crate::reading::read_file;
use ads::Config;
use command_line::ReplayWords;
use program_texts::ReplayFault;
use proxy_replay::replay::replay;
use proxy_replay::{ConfigTextFault, cause_of_bad_config, config_text, read_config};
use rbac_judge::{Notes, Outcome};
use std::alloc::{AllocError, Global};
use std::io::{self, BufRead, Write};

/// Prints the meaning of the configuration in the file, or its fault. Returns the status.
pub fn check_config<F: Source, W: Write, E: Write>(
    alloc: Global,
    path: &str,
    files: &F,
    out: &mut W,
    errors: &mut E,
) -> u8
    ensures { EndsConfig (F.holds files.now) (F.lacks files.now) (W.contents out.old) (W.contents out.new)
        (E.contents errors.old) (E.contents errors.new) result path.now }
{
    let mut notes = Notes::new(alloc);
    match config_file(alloc, files, path, &mut notes) {
        Ok(config) => match config_text(alloc, &config) {
            Ok(text) => show(text.as_bytes(), 0, out, errors),
            Err(AllocError) => end_by_memory(out, errors),
        },
        Err(fault) => end_by(alloc, &fault, &notes, out, errors),
    }
}

/// The configuration in the file at this path.
pub(crate) fn config_file<F: Source>(
    alloc: Global,
    files: &F,
    path: &str,
    notes: &mut Notes,
) -> Result<Config, JobFault>
    ensures found { IfOk result (IsConfigOf (F.holds files.now) (F.lacks files.now) path.now) }
    ensures fault { IfErr result (MemoryOrStop
        (LacksConfig (F.holds files.now) (F.lacks files.now) path.now)) }
{
    let text = read_file(alloc, files, path)?;
    match read_config(alloc, &text) {
        Ok(config) => Ok(config),
        Err(ConfigTextFault::Memory) => Err(JobFault::Memory),
        Err(ConfigTextFault::Bad) => {
            notes.config = cause_of_bad_config(alloc, &text)?;
            Err(JobFault::Config)
        }
    }
}

/// Replays the events of the input with the configuration in the file. Returns the status.
pub fn replay_config<F: Source, R: BufRead + Drop, W: Write, E: Write>(
    alloc: Global,
    words: &ReplayWords,
    files: &F,
    input: R,
    out: &mut W,
    errors: &mut E,
) -> u8
    ensures { EndsReplay (F.holds files.now) (F.lacks files.now) (W.contents out.old) (W.contents out.new)
        (E.contents errors.old) (E.contents errors.new) result (string_bytes words.now.config) words.now.connection
        (R.remaining input) }
{
    let mut notes = Notes::new(alloc);
    let mut input = input;
    match config_file(alloc, files, words.config.as_str(), &mut notes) {
        Ok(config) => match replay(alloc, config, words.connection, &mut input, out) {
            Ok(()) => 0,
            Err(fault) => end_replay(alloc, fault, errors),
        },
        Err(fault) => end_by(alloc, &fault, &notes, out, errors),
    }
}

/// Prints why a replay or a batch ended before its input did. Returns the status.
pub(crate) fn end_replay<E: Write>(alloc: Global, fault: ReplayFault, errors: &mut E) -> u8
    ensures { LeavesReplay (E.contents errors.old) (E.contents errors.new) result fault }
{
    match fault {
        ReplayFault::Line(number, cause) => end_by_line(alloc, number, cause.as_str(), errors),
        ReplayFault::Input(cause) => end_by_input(alloc, cause, errors),
        ReplayFault::Output(cause) => write_output_fault(cause, errors),
        ReplayFault::Memory => Outcome::Memory.status(),
    }
}

// Ends the replay at a line that is no event.
fn end_by_line<E: Write>(alloc: Global, number: u64, cause: &str, errors: &mut E) -> u8
    ensures { WritesLine (E.contents errors.old) (E.contents errors.new) result number }
{
    match line_fault_text(alloc, number, cause) {
        Ok(text) => write_error(text.as_bytes(), BAD_JSON, errors),
        Err(AllocError) => Outcome::Memory.status(),
    }
}

// The text on standard error for a line that is no event.
fn line_fault_text(alloc: Global, number: u64, cause: &str) -> Result<String, AllocError>
    ensures { IfOk result (λ text. StartsWith (string_bytes text) (bad_line number)) }
{
    with_cause(alloc, format!(in alloc; "bad line {number}\n")?, cause)
}

// Ends the replay if the input cannot be read.
fn end_by_input<E: Write>(alloc: Global, cause: io::Error, errors: &mut E) -> u8
    ensures { (result ≡ 5) ⊎ (result ≡ 2) }
{
    match input_text(alloc, cause) {
        Ok(text) => write_error(text.as_bytes(), MISTAKE, errors),
        Err(AllocError) => Outcome::Memory.status(),
    }
}

// The text on standard error for an input that cannot be read.
fn input_text(alloc: Global, cause: io::Error) -> Result<String, AllocError> {
    let cause = cause.to_string(alloc)?;
    format!(in alloc; "cannot read standard input\n  {cause}\n")
}
