//! The command line, and the job that its words name.
ghost use Rattle.std.specs.Prelude.{◌≡◌, ◌⊎◌, ℕ, Option, IfErr, IfNone, IfOk, IfSome, codes, false, map, option_map, string_bytes};
ghost use Rattle.clap.specs.Words.{first_of, found_of, kind_of, rows_of, subcommand_rows_of};
ghost use Rattle.command_line.specs.Words.{AreMistaken, AreRoundsOf, IsBudgetOf, IsJobOf, IsConnectionOf, IsJobOfNamed, IsJobOfRows, NamesNoJob, subcommand_name};
ghost use Rattle.command_line.specs.declared.words.Job.{Job};
ghost use Rattle.cost_bound.specs.declared.budget.Budget.{Budget};

use crate::commands::{command, control_command};
use crate::control_words::{ControlWords, control_fault, control_words};
use crate::texts::{has_flag, text_of};
use clap::error::ErrorKind;
use clap::{ArgMatches, Error};
use cost_bound::Budget;
use std::alloc::{AllocError, Global};
use std::convert::AsStr;

/// The greatest number of rounds of a proxy.
pub(crate) const MOST_ROUNDS: u64 = 1_000_000;

// What is wrong with a number that is not allowed.
const NUMBER_FAULT: &str =
    "a budget is a number from 1 to 100000000, visits are a number from 1 to 9223372036854775807, rounds are a number \
    from 0 to 1000000, and a connection is a number from 0 to 18446744073709551615";

/// The job that the program is asked to do.
#[derive(Drop)]
pub enum Job {
    /// `check --policy FILE [--budget N] [--visits N] [--json]`: checks whether a policy file is admitted.
    Check(CheckWords),
    /// `judge --policy FILE [--facts FILE] [--budget N] [--visits N] [--json] [--explain]`: judges the head on standard
    /// input by a policy file.
    Judge(JudgeWords),
    /// `judge --batch` with the other words of `judge`: judges the heads in the lines of standard input.
    Batch(BatchWords),
    /// `check-config --config FILE`: prints the meaning of a configuration.
    CheckConfig {
        /// The path of the configuration.
        config: String,
    },
    /// `replay --config FILE [--connection K]`: runs the core of the proxy on the events on standard input.
    Replay(ReplayWords),
    /// `control --listen ADDR --name F... [--log FILE] [--grpc] FILE...`, or with `--response FILE...` instead of names
    /// and files: serves filters as a control plane.
    Control(ControlWords),
    /// `proxy --config FILE --control ADDR --listen ADDR --rounds N [--facts FILE] [--log FILE]`: judges the requests
    /// of connections.
    Proxy(ProxyWords),
    /// `serve --config FILE [--check]`: serves connections until it is to end.
    Serve(ServeWords),
}

/// What is checked, and how the outcome is printed.
#[derive(Drop)]
pub struct CheckWords {
    /// The path of the policy file.
    pub policy: String,
    /// The budget of the policy's conditions.
    pub budget: Budget,
    /// Whether the outcome is printed as JSON.
    pub json: bool,
}

/// By what a head is judged, and how the outcome is printed.
#[derive(Drop)]
pub struct JudgeWords {
    /// The path of the policy file.
    pub policy: String,
    /// The path of the file with the facts of the connection, if there is one.
    pub facts: Option<String>,
    /// The budget of the policy's conditions.
    pub budget: Budget,
    /// Whether the outcome is printed as JSON.
    pub json: bool,
    /// Whether the policies that were tried are shown.
    pub explain: bool,
}

/// By what a batch is judged, and how it is answered.
#[derive(Drop)]
pub struct BatchWords {
    /// The path of the policy file.
    pub policy: String,
    /// The path of the file with the facts of lines that have none, if there is one.
    pub facts: Option<String>,
    /// The budget of the policy's conditions.
    pub budget: Budget,
    /// Whether a refusal of the policy, or a fault of the files, is printed as JSON.
    pub json: bool,
    /// Whether the policies that were tried are shown.
    pub explain: bool,
}

/// The settings of a proxy.
#[derive(Drop)]
pub struct ProxyWords {
    /// The path of the configuration.
    pub config: String,
    /// The address of the control plane.
    pub control: String,
    /// The address at which it listens.
    pub listen: String,
    /// The number of rounds that it runs, at most `MOST_ROUNDS`.
    pub rounds: u64,
    /// The path of the file with the facts of each connection, if there is one.
    pub facts: Option<String>,
    /// The path of the log, if one is kept.
    pub log: Option<String>,
}

/// What is replayed.
#[derive(Drop)]
pub struct ReplayWords {
    /// The path of the configuration.
    pub config: String,
    /// The number of the connection that alone is replayed, if one is named.
    pub connection: Option<u64>,
}

/// The settings of a server.
#[derive(Drop)]
pub struct ServeWords {
    /// The path of the settings.
    pub config: String,
    /// Whether the meaning of the settings is printed, and nothing is served.
    pub check: bool,
}

/// The job that the words name; the first word is the program's own name. An error has the text for the program's user:
/// the fault, or the help that was asked for.
pub fn read_words<S: AsStr>(alloc: Global, words: &[S]) -> Result<Job, Error>
    ensures job { IfOk result (IsJobOf (map S.text words.now)) }
    ensures mistaken { IfErr result (λ e. (kind_of e ≡ ErrorKind.OutOfMemory)
        ⊎ AreMistaken (map S.text words.now) (kind_of e)) }
{
    let matches = command(alloc)?.try_get_matches_from(words)?;
    match named_job(alloc, &matches)? {
        Some(job) => Ok(job),
        None => Err(value_fault(alloc, &matches)?),
    }
}

// The error for words that the parser accepts but that name no job.
fn value_fault(alloc: Global, matches: &ArgMatches<'_>) -> Result<Error, AllocError>
    ensures { IfOk result (λ e. kind_of e ≡ ErrorKind.ValueValidation) }
{
    match matches.subcommand_matches("control") {
        Some(control) => control_command(alloc)?
            .bin_name("rbacd control")?
            .error(ErrorKind::ValueValidation, control_fault(control)),
        None => command(alloc)?.error(ErrorKind::ValueValidation, NUMBER_FAULT),
    }
}

// The job of the subcommand that was found, if its values are present and allowed.
fn named_job(alloc: Global, matches: &ArgMatches<'_>) -> Result<Option<Job>, AllocError>
    ensures job { IfOk result (λ job. IfSome job (IsJobOfNamed (subcommand_rows_of matches.now))) }
    ensures none { IfOk result (λ job. IfNone job (NamesNoJob (subcommand_rows_of matches.now))) }
{
    if let Some(check) = matches.subcommand_matches("check") {
        return check_job(alloc, check);
    }
    if let Some(judge) = matches.subcommand_matches("judge") {
        return judge_job(alloc, judge);
    }
    if let Some(check_config) = matches.subcommand_matches("check-config") {
        return check_config_job(alloc, check_config);
    }
    if let Some(replay) = matches.subcommand_matches("replay") {
        return replay_job(alloc, replay);
    }
    if let Some(control) = matches.subcommand_matches("control") {
        return control_job(alloc, control);
    }
    if let Some(proxy) = matches.subcommand_matches("proxy") {
        return proxy_job(alloc, proxy);
    }
    match matches.subcommand_matches("serve") {
        Some(serve) => serve_job(alloc, serve),
        None => Ok(None),
    }
}

// The job of the subcommand `check`, if its values are present and its budget is allowed.
fn check_job(alloc: Global, matches: &ArgMatches<'_>) -> Result<Option<Job>, AllocError>
    ensures job { IfOk result (λ job. IfSome job (λ job. (subcommand_name job ≡ codes "check")
        × IsJobOfRows (rows_of (found_of matches.now)) job)) }
    ensures none { IfOk result (λ job. IfNone job ((other : Job) → subcommand_name other ≡ codes "check"
        → ¬ (IsJobOfRows (rows_of (found_of matches.now)) other))) }
{
    let Some(path) = matches.get_str("policy") else {
        return Ok(None);
    };
    let Some(budget) = budget_of(matches) else {
        return Ok(None);
    };
    let policy = String::from_str(alloc, path)?;
    let json = has_flag(matches, "json");
    Ok(Some(Job::Check(CheckWords {
        policy,
        budget,
        json,
    })))
}

// The job of the subcommand `judge`, if its values are present and its budget is allowed.
fn judge_job(alloc: Global, matches: &ArgMatches<'_>) -> Result<Option<Job>, AllocError>
    ensures job { IfOk result (λ job. IfSome job (λ job. (subcommand_name job ≡ codes "judge")
        × IsJobOfRows (rows_of (found_of matches.now)) job)) }
    ensures none { IfOk result (λ job. IfNone job ((other : Job) → subcommand_name other ≡ codes "judge"
        → ¬ (IsJobOfRows (rows_of (found_of matches.now)) other))) }
{
    let Some(policy) = matches.get_str("policy") else {
        return Ok(None);
    };
    let Some(budget) = budget_of(matches) else {
        return Ok(None);
    };
    let policy = String::from_str(alloc, policy)?;
    let facts = text_of(alloc, matches, "facts")?;
    let json = has_flag(matches, "json");
    let explain = has_flag(matches, "explain");
    let batched = has_flag(matches, "batch");
    if batched {
        return Ok(Some(Job::Batch(BatchWords {
            policy,
            facts,
            budget,
            json,
            explain,
        })));
    }
    Ok(Some(Job::Judge(JudgeWords {
        policy,
        facts,
        budget,
        json,
        explain,
    })))
}

// The budget that was given, if it is allowed.
fn budget_of(matches: &ArgMatches<'_>) -> Option<Budget>
    ensures budget { IfSome result (IsBudgetOf (rows_of (found_of matches.now))) }
    ensures none { IfNone result ((budget : Budget)
        → ¬ (IsBudgetOf (rows_of (found_of matches.now)) budget)) }
{
    let steps = matches.get_one::<u64>("budget")?;
    let visits = matches.get_one::<u64>("visits")?;
    let budget = Budget { steps, visits };
    if !budget.is_allowed() {
        return None;
    }
    Some(budget)
}

// The job of the subcommand `check-config`, if its values are present.
fn check_config_job(alloc: Global, matches: &ArgMatches<'_>) -> Result<Option<Job>, AllocError>
    ensures job { IfOk result (λ job. IfSome job (λ job. (subcommand_name job ≡ codes "check-config")
        × IsJobOfRows (rows_of (found_of matches.now)) job)) }
    ensures none { IfOk result (λ job. IfNone job ((other : Job) → subcommand_name other ≡ codes "check-config"
        → ¬ (IsJobOfRows (rows_of (found_of matches.now)) other))) }
{
    match text_of(alloc, matches, "config")? {
        Some(config) => Ok(Some(Job::CheckConfig { config })),
        None => Ok(None),
    }
}

// The job of the subcommand `control`, if its values are present and allowed.
fn control_job(alloc: Global, matches: &ArgMatches<'_>) -> Result<Option<Job>, AllocError>
    ensures job { IfOk result (λ job. IfSome job (λ job. (subcommand_name job ≡ codes "control")
        × IsJobOfRows (rows_of (found_of matches.now)) job)) }
    ensures none { IfOk result (λ job. IfNone job ((other : Job) → subcommand_name other ≡ codes "control"
        → ¬ (IsJobOfRows (rows_of (found_of matches.now)) other))) }
{
    match control_words(alloc, matches)? {
        Some(words) => Ok(Some(Job::Control(words))),
        None => Ok(None),
    }
}

// The job of the subcommand `replay`, if its values are present.
fn replay_job(alloc: Global, matches: &ArgMatches<'_>) -> Result<Option<Job>, AllocError>
    ensures job { IfOk result (λ job. IfSome job (λ job. (subcommand_name job ≡ codes "replay")
        × IsJobOfRows (rows_of (found_of matches.now)) job)) }
    ensures none { IfOk result (λ job. IfNone job ((other : Job) → subcommand_name other ≡ codes "replay"
        → ¬ (IsJobOfRows (rows_of (found_of matches.now)) other))) }
{
    let Some(config) = text_of(alloc, matches, "config")? else {
        return Ok(None);
    };
    match connection_of(matches) {
        Some(connection) => Ok(Some(Job::Replay(ReplayWords { config, connection }))),
        None => Ok(None),
    }
}

// The value of `--connection`: the inner `None` if it was not given, the outer if it is no number.
fn connection_of(matches: &ArgMatches<'_>) -> Option<Option<u64>>
    ensures connection { IfSome result (IsConnectionOf (rows_of (found_of matches.now))) }
    ensures none { IfNone result ((connection : Option ℕ)
        → ¬ (IsConnectionOf (rows_of (found_of matches.now)) connection)) }
{
    let Some(_) = matches.get_str("connection") else {
        return Some(None);
    };
    let k = matches.get_one::<u64>("connection")?;
    Some(Some(k))
}

// The job of the subcommand `serve`, if its values are present.
fn serve_job(alloc: Global, matches: &ArgMatches<'_>) -> Result<Option<Job>, AllocError>
    ensures job { IfOk result (λ job. IfSome job (λ job. (subcommand_name job ≡ codes "serve")
        × IsJobOfRows (rows_of (found_of matches.now)) job)) }
    ensures none { IfOk result (λ job. IfNone job ((other : Job) → subcommand_name other ≡ codes "serve"
        → ¬ (IsJobOfRows (rows_of (found_of matches.now)) other))) }
{
    let Some(config) = text_of(alloc, matches, "config")? else {
        return Ok(None);
    };
    let check = has_flag(matches, "check");
    Ok(Some(Job::Serve(ServeWords { config, check })))
}

// The job of the subcommand `proxy`, if its values are present and its number of rounds is allowed.
fn proxy_job(alloc: Global, matches: &ArgMatches<'_>) -> Result<Option<Job>, AllocError>
    ensures job { IfOk result (λ job. IfSome job (λ job. (subcommand_name job ≡ codes "proxy")
        × IsJobOfRows (rows_of (found_of matches.now)) job)) }
    ensures none { IfOk result (λ job. IfNone job ((other : Job) → subcommand_name other ≡ codes "proxy"
        → ¬ (IsJobOfRows (rows_of (found_of matches.now)) other))) }
{
    let Some(config) = text_of(alloc, matches, "config")? else {
        return Ok(None);
    };
    let Some(control) = text_of(alloc, matches, "control")? else {
        return Ok(None);
    };
    let Some(listen) = text_of(alloc, matches, "listen")? else {
        return Ok(None);
    };
    let Some(rounds) = rounds_of(matches) else {
        return Ok(None);
    };
    let facts_path = text_of(alloc, matches, "facts")?;
    let log_path = text_of(alloc, matches, "log")?;
    Ok(Some(Job::Proxy(ProxyWords {
        config,
        control,
        listen,
        rounds,
        facts: facts_path,
        log: log_path,
    })))
}

fn rounds_of(matches: &ArgMatches<'_>) -> Option<u64>
    ensures rounds { IfSome result (AreRoundsOf (rows_of (found_of matches.now))) }
    ensures none { IfNone result ((rounds : ℕ)
        → ¬ (AreRoundsOf (rows_of (found_of matches.now)) rounds)) }
{
    let rounds = matches.get_one::<u64>("rounds")?;
    if rounds > MOST_ROUNDS {
        return None;
    }
    Some(rounds)
}
