//! The command line that the program takes: its subcommands and their arguments.
ghost use Rattle.std.specs.Prelude.{◌≡◌, IfOk, codes, false};
ghost use Rattle.clap.specs.Words.{app_of, rule_of};
ghost use Rattle.clap.specs.declared.builder.command.Command.TheViews.{out-Command};
ghost use Rattle.command_line.specs.Words.{bare_app, batch_rule, budget_rule, check_app, check_config_app, check_rule, config_rule, connection_rule, control_app, control_rule, explain_rule, facts_rule, files_rule, grpc_rule, json_rule, judge_app, listen_rule, log_rule, name_rule, policy_rule, proxy_app, rbacd_app, replay_app, response_rule, rounds_rule, serve_app, visits_rule};

use crate::help::{
    CHECK_CONFIG_HELP, CHECK_HELP, CONTROL_HELP, EXAMPLE, JUDGE_HELP, PROXY_HELP, REPLAY_HELP,
    SERVE_HELP,
};
use clap::{Arg, ArgAction, Command, value_parser};
use std::alloc::{AllocError, Global};

// The program's version, and the kit that proves it.
const VERSION: &str = "0.1.0, proved with rattle logic dac8208d650f15bf";

// The file of the settings of a server.
const SETTINGS_FILE: &str = "The settings of a server: one JSON object";

// The file of a configuration.
const CONFIGURATION_FILE: &str = "A configuration: one JSON object with node, cluster and filters";

/// The program's command, with a subcommand for each job.
pub(crate) fn command<'a>(alloc: Global) -> Result<Command<'a>, AllocError>
    ensures { IfOk result (λ c. app_of c ≡ rbacd_app) }
{
    let command = bare_command(alloc).subcommand(check_command(alloc)?)?;
    let command = command.subcommand(judge_command(alloc)?)?;
    let command = command.subcommand(check_config_command(alloc)?)?;
    let command = command.subcommand(replay_command(alloc)?)?;
    let command = command.subcommand(control_command(alloc)?)?;
    let command = command.subcommand(proxy_command(alloc)?)?;
    command.subcommand(serve_command(alloc)?)
}

fn check_command<'a>(alloc: Global) -> Result<Command<'a>, AllocError>
    ensures app { IfOk result (λ c. app_of c ≡ check_app) }
    ensures local { IfOk result (λ c. (out-Command c).has_globals ≡ false) }
{
    Command::new(alloc, "check")
        .about("Checks whether a policy file is admitted")
        .after_help(CHECK_HELP)
        .arg(policy_arg(alloc))?
        .arg(budget_arg(alloc))?
        .arg(visits_arg(alloc))?
        .arg(json_arg(alloc))
}

fn judge_command<'a>(alloc: Global) -> Result<Command<'a>, AllocError>
    ensures app { IfOk result (λ c. app_of c ≡ judge_app) }
    ensures local { IfOk result (λ c. (out-Command c).has_globals ≡ false) }
{
    Command::new(alloc, "judge")
        .about("Judges the request head on standard input")
        .after_help(JUDGE_HELP)
        .arg(policy_arg(alloc))?
        .arg(facts_arg(alloc))?
        .arg(budget_arg(alloc))?
        .arg(visits_arg(alloc))?
        .arg(json_arg(alloc))?
        .arg(explain_arg(alloc))?
        .arg(batch_arg(alloc))
}

fn policy_arg<'a>(alloc: Global) -> Arg<'a>
    ensures rule { rule_of result ≡ policy_rule }
    ensures local { result.global ≡ false }
{
    Arg::new(alloc, "policy")
        .long("policy")
        .value_name("FILE")
        .required(true)
        .help("The policy: one HTTP RBAC filter message")
}

fn facts_arg<'a>(alloc: Global) -> Arg<'a>
    ensures rule { rule_of result ≡ facts_rule }
    ensures local { result.global ≡ false }
{
    Arg::new(alloc, "facts")
        .long("facts")
        .value_name("FILE")
        .help("What is known of the connection: one JSON object")
}

fn budget_arg<'a>(alloc: Global) -> Arg<'a>
    ensures rule { rule_of result ≡ budget_rule }
    ensures local { result.global ≡ false }
{
    Arg::new(alloc, "budget")
        .long("budget")
        .value_name("1..100000000")
        .value_parser(value_parser!(u64).range(1..=100_000_000))
        .default_value("1000000")
        .help("What the policy's conditions may cost, from 1 to 100000000")
}

fn visits_arg<'a>(alloc: Global) -> Arg<'a>
    ensures rule { rule_of result ≡ visits_rule }
    ensures local { result.global ≡ false }
{
    Arg::new(alloc, "visits")
        .long("visits")
        .value_name("1..2^63-1")
        .value_parser(value_parser!(u64).range(1..=9_223_372_036_854_775_807))
        .default_value("4194304")
        .help("How many visits the measuring of the conditions may take, from 1 to 2^63 - 1")
}

fn json_arg<'a>(alloc: Global) -> Arg<'a>
    ensures rule { rule_of result ≡ json_rule }
    ensures local { result.global ≡ false }
{
    Arg::new(alloc, "json")
        .long("json")
        .action(ArgAction::SetTrue)
        .help("Print the outcome as one JSON object on a line")
}

fn explain_arg<'a>(alloc: Global) -> Arg<'a>
    ensures rule { rule_of result ≡ explain_rule }
    ensures local { result.global ≡ false }
{
    Arg::new(alloc, "explain")
        .long("explain")
        .action(ArgAction::SetTrue)
        .help("Tell which policies were tried, and why each matches or does not")
}

fn batch_arg<'a>(alloc: Global) -> Arg<'a>
    ensures rule { rule_of result ≡ batch_rule }
    ensures local { result.global ≡ false }
{
    Arg::new(alloc, "batch")
        .long("batch")
        .action(ArgAction::SetTrue)
        .help("Judge many heads: each line of standard input has one, as JSON")
}

// The program's command without its subcommands.
fn bare_command<'a>(alloc: Global) -> Command<'a>
    ensures { app_of result ≡ bare_app }
{
    Command::new(alloc, "rbacd")
        .about("Judges requests by a role-based access policy")
        .version(VERSION)
        .after_help(EXAMPLE)
        .subcommand_required(true)
        .arg_required_else_help(true)
}

fn check_config_command<'a>(alloc: Global) -> Result<Command<'a>, AllocError>
    ensures app { IfOk result (λ c. app_of c ≡ check_config_app) }
    ensures local { IfOk result (λ c. (out-Command c).has_globals ≡ false) }
{
    Command::new(alloc, "check-config")
        .about("Tells what a configuration means, or what is wrong with it")
        .after_help(CHECK_CONFIG_HELP)
        .arg(config_arg(alloc, CONFIGURATION_FILE))
}

fn replay_command<'a>(alloc: Global) -> Result<Command<'a>, AllocError>
    ensures app { IfOk result (λ c. app_of c ≡ replay_app) }
    ensures local { IfOk result (λ c. (out-Command c).has_globals ≡ false) }
{
    Command::new(alloc, "replay")
        .about("Runs the core of the proxy on the events on standard input")
        .after_help(REPLAY_HELP)
        .arg(config_arg(alloc, CONFIGURATION_FILE))?
        .arg(connection_arg(alloc))
}

fn connection_arg<'a>(alloc: Global) -> Arg<'a>
    ensures rule { rule_of result ≡ connection_rule }
    ensures local { result.global ≡ false }
{
    Arg::new(alloc, "connection")
        .long("connection")
        .value_name("K")
        .value_parser(value_parser!(u64))
        .help("Replay the update stream and this connection alone, as connection 0")
}

fn serve_command<'a>(alloc: Global) -> Result<Command<'a>, AllocError>
    ensures app { IfOk result (λ c. app_of c ≡ serve_app) }
    ensures local { IfOk result (λ c. (out-Command c).has_globals ≡ false) }
{
    Command::new(alloc, "serve")
        .about("Serves connections, by the filters of a control plane, until it is to end")
        .after_help(SERVE_HELP)
        .arg(config_arg(alloc, SETTINGS_FILE))?
        .arg(check_arg(alloc))
}

fn check_arg<'a>(alloc: Global) -> Arg<'a>
    ensures rule { rule_of result ≡ check_rule }
    ensures local { result.global ≡ false }
{
    Arg::new(alloc, "check")
        .long("check")
        .action(ArgAction::SetTrue)
        .help("Print what the settings mean, and serve nothing")
}

fn config_arg<'a>(alloc: Global, help: &'a str) -> Arg<'a>
    ensures rule { rule_of result ≡ config_rule }
    ensures local { result.global ≡ false }
{
    Arg::new(alloc, "config")
        .long("config")
        .value_name("FILE")
        .required(true)
        .help(help)
}

pub(crate) fn control_command<'a>(alloc: Global) -> Result<Command<'a>, AllocError>
    ensures app { IfOk result (λ c. app_of c ≡ control_app) }
    ensures local { IfOk result (λ c. (out-Command c).has_globals ≡ false) }
{
    Command::new(alloc, "control")
        .about("Serves filters as a control plane, to one client")
        .after_help(CONTROL_HELP)
        .arg(listen_arg(alloc))?
        .arg(name_arg(alloc))?
        .arg(files_arg(alloc))?
        .arg(response_arg(alloc))?
        .arg(log_arg(alloc))?
        .arg(grpc_arg(alloc))
}

fn proxy_command<'a>(alloc: Global) -> Result<Command<'a>, AllocError>
    ensures app { IfOk result (λ c. app_of c ≡ proxy_app) }
    ensures local { IfOk result (λ c. (out-Command c).has_globals ≡ false) }
{
    Command::new(alloc, "proxy")
        .about("Judges the requests of connections, by the filters of a control plane")
        .after_help(PROXY_HELP)
        .arg(config_arg(alloc, CONFIGURATION_FILE))?
        .arg(control_arg(alloc))?
        .arg(listen_arg(alloc))?
        .arg(rounds_arg(alloc))?
        .arg(facts_arg(alloc))?
        .arg(log_arg(alloc))
}

fn listen_arg<'a>(alloc: Global) -> Arg<'a>
    ensures rule { rule_of result ≡ listen_rule }
    ensures local { result.global ≡ false }
{
    Arg::new(alloc, "listen")
        .long("listen")
        .value_name("ADDR")
        .required(true)
        .help("Where to listen: a host and a port, as 127.0.0.1:18080")
}

fn control_arg<'a>(alloc: Global) -> Arg<'a>
    ensures rule { rule_of result ≡ control_rule }
    ensures local { result.global ≡ false }
{
    Arg::new(alloc, "control")
        .long("control")
        .value_name("ADDR")
        .required(true)
        .help("Where the control plane is: a host and a port")
}

fn name_arg<'a>(alloc: Global) -> Arg<'a>
    ensures rule { rule_of result ≡ name_rule }
    ensures local { result.global ≡ false }
{
    Arg::new(alloc, "name")
        .long("name")
        .value_name("F")
        .action(ArgAction::Append)
        .help("The name of a filter; each snapshot has one file for each name")
}

fn files_arg<'a>(alloc: Global) -> Arg<'a>
    ensures rule { rule_of result ≡ files_rule }
    ensures local { result.global ≡ false }
{
    Arg::new(alloc, "file")
        .value_name("FILE")
        .action(ArgAction::Append)
        .help("One HTTP RBAC filter message; with one name it is a snapshot")
}

fn response_arg<'a>(alloc: Global) -> Arg<'a>
    ensures rule { rule_of result ≡ response_rule }
    ensures local { result.global ≡ false }
{
    Arg::new(alloc, "response")
        .long("response")
        .value_name("FILE")
        .action(ArgAction::Append)
        .help("A snapshot: one DiscoveryResponse with named filters")
}

fn log_arg<'a>(alloc: Global) -> Arg<'a>
    ensures rule { rule_of result ≡ log_rule }
    ensures local { result.global ≡ false }
{
    Arg::new(alloc, "log").long("log").value_name("FILE").help(
        "Where to log what happens, as JSON lines; - is standard error",
    )
}

fn grpc_arg<'a>(alloc: Global) -> Arg<'a>
    ensures rule { rule_of result ≡ grpc_rule }
    ensures local { result.global ≡ false }
{
    Arg::new(alloc, "grpc")
        .long("grpc")
        .action(ArgAction::SetTrue)
        .help("Serve a call of gRPC over HTTP/2, in cleartext with prior knowledge")
}

fn rounds_arg<'a>(alloc: Global) -> Arg<'a>
    ensures rule { rule_of result ≡ rounds_rule }
    ensures local { result.global ≡ false }
{
    Arg::new(alloc, "rounds")
        .long("rounds")
        .value_name("0..1000000")
        .required(true)
        .value_parser(value_parser!(u64).range(0..=1_000_000))
        .help("How many rounds it runs, from 0 to 1000000")
}
