//! The explanation of a verdict: the policies that were tried, and their lines.
ghost use Rattle.std.specs.Prelude.{◌≡◌, ◌∷◌, ◌++◌, [], codes, IfOk, OnOk, map, string_bytes};
ghost use Rattle.std.specs.Fmt.{decimal};
ghost use Rattle.std.specs.List.{flat_map};
ghost use Rattle.rbac_judge.specs.Reports.{without_trials};
ghost use Rattle.rbac_judge.specs.Explain.{cause_line, escaped, own_trial_view, quoted, reason_text, reported_trial_view, trial_line, trial_lines, trial_view, unavailable_text};

use crate::error_place::place_of_error;
use attributes::Request;
use program_texts::shown::push_shown;
use rbac_policy::{Admitted, Reason, Trial};
use stack_machine::RunError;
use std::alloc::{AllocError, Global};
use std::fmt;

// How many causes of each side of a policy are reported at most.
const CAUSES: usize = 8;

/// Whether a verdict is explained, and the bytes of the policy file, in which errors of conditions are placed.
#[derive(Clone, Copy)]
pub(crate) struct Explaining<'a> {
    /// Whether an explanation was asked for.
    pub(crate) asked: bool,
    /// The bytes of the policy file.
    pub(crate) policy: &'a [u8],
}

/// A policy that was tried: its number, its name, and why it matches or does not. The causes are in words: the leaves
/// of its rules that decide, and the part of its condition that an error is from.
#[derive(Drop)]
pub struct OwnTrial {
    /// Its number.
    pub number: usize,
    /// Its name.
    pub name: String,
    /// Why it matches or does not.
    pub reason: Reason,
    /// The texts of the causes.
    pub causes: Vec<String>,
}

/// The explanation of a verdict, if there is one.
#[derive(Drop)]
pub enum Explanation {
    /// None was asked for, or there is no verdict.
    Absent,
    /// The policies that were tried, in order.
    Trials(Vec<OwnTrial>),
    /// It was asked for, but cannot be shown, for this cause.
    Unavailable(RunError),
}

impl Explanation {
    /// The explanation without trials, if there is no memory to print them.
    pub(crate) fn without_trials(self) -> Explanation
        ensures { result ≡ without_trials self }
    {
        match self {
            Explanation::Trials(_) => Explanation::Unavailable(RunError::Memory),
            Explanation::Absent => Explanation::Absent,
            Explanation::Unavailable(cause) => Explanation::Unavailable(cause),
        }
    }
}

/// The trials of the filter for the request, with copies of the names, and with their causes. The filter is that of
/// the policy file with these bytes.
pub(crate) fn own_trials(
    alloc: Global,
    policy: &[u8],
    admitted: &Admitted,
    request: &Request,
    trials: &[Trial<'_>],
) -> Result<Vec<OwnTrial>, AllocError>
    ensures { IfOk result (λ own. map own_trial_view own.items ≡ map trial_view trials.now) }
{
    let mut own = Vec::new(alloc);
    for trial in trials {
        own.push(own_trial(alloc, policy, admitted, request, trial)?)?;
    }
    Ok(own)
}

// The trial, with a copy of the name, and with its causes.
fn own_trial(
    alloc: Global,
    policy: &[u8],
    admitted: &Admitted,
    request: &Request,
    trial: &Trial<'_>,
) -> Result<OwnTrial, AllocError>
    ensures { IfOk result (λ own. own_trial_view own ≡ trial_view trial.now) }
{
    Ok(OwnTrial {
        number: trial.number,
        name: String::from_str(alloc, trial.name)?,
        reason: trial.reason,
        causes: causes_of(alloc, policy, admitted, request, trial)?,
    })
}

// The leaves that decide whether the sides of the trial's policy match the request, in words. If its condition is an
// error, the part of the condition that the error is from follows.
fn causes_of(
    alloc: Global,
    policy: &[u8],
    admitted: &Admitted,
    request: &Request,
    trial: &Trial<'_>,
) -> Result<Vec<String>, AllocError> {
    let mut words = match admitted.causes(trial.number, request, CAUSES)? {
        Some(causes) => causes.words(alloc, request)?,
        None => Vec::new(alloc),
    };
    if let Reason::ConditionFails(_) = trial.reason {
        if let Some(place) = place_of_error(alloc, policy, trial.number, request)? {
            words.push(place)?;
        }
    }
    Ok(words)
}

/// Appends the lines of each of the trials.
pub(crate) fn push_lines(
    alloc: Global,
    text: &mut String,
    trials: &[OwnTrial],
) -> Result<(), AllocError>
    ensures { OnOk result (string_bytes text.new
        ≡ string_bytes text.old ++ flat_map trial_lines (map reported_trial_view trials.now)) }
{
    for trial in trials {
        let lines = lines_of_trial(alloc, trial)?;
        text.push_str(lines.as_str())?;
    }
    Ok(())
}

// The line of a trial, followed by those of its causes.
fn lines_of_trial(alloc: Global, trial: &OwnTrial) -> Result<String, AllocError>
    ensures { IfOk result (λ lines. string_bytes lines ≡ trial_lines (reported_trial_view trial.now)) }
{
    let mut lines = line_of_trial(alloc, trial)?;
    push_causes(&mut lines, &trial.causes)?;
    Ok(lines)
}

// Appends a line for each of the causes.
fn push_causes(text: &mut String, causes: &[String]) -> Result<(), AllocError>
    ensures { OnOk result (string_bytes text.new
        ≡ string_bytes text.old ++ flat_map cause_line (map string_bytes causes.now)) }
{
    for cause in causes {
        push_cause(text, cause.as_str())?;
    }
    Ok(())
}

// Appends the line of a cause.
fn push_cause(text: &mut String, cause: &str) -> Result<(), AllocError>
    ensures { OnOk result (string_bytes text.new ≡ string_bytes text.old ++ cause_line cause.now) }
{
    text.push_str("  ")?;
    text.push_str(cause)?;
    text.push_str("\n")
}

// The line of a trial, such as `0 "p": condition false`.
fn line_of_trial(alloc: Global, trial: &OwnTrial) -> Result<String, AllocError>
    ensures { IfOk result (λ line. string_bytes line ≡ trial_line (own_trial_view trial.now)) }
{
    let name = quoted(alloc, trial.name.as_str())?;
    line_with(alloc, trial.number, name.as_str(), trial.reason)
}

// The line of a trial whose name is quoted already.
fn line_with(alloc: Global, number: usize, name: &str, reason: Reason) -> Result<String, AllocError>
    ensures { IfOk result (λ line. string_bytes line
        ≡ decimal number ++ 32 ∷ (name.now ++ codes ": " ++ reason_text reason ++ 10 ∷ [])) }
{
    let mut line = format!(in alloc; "{number} ")?;
    line.push_str(name)?;
    let reason = ReasonText { reason };
    let rest = format!(in alloc; ": {reason}\n")?;
    line.push_str(rest.as_str())?;
    Ok(line)
}

// A reason, to be printed in words.
#[derive(Clone, Copy)]
struct ReasonText {
    reason: Reason,
}

/// Writes the reason, such as `permission`, `condition error Overflow` or `condition true steps 7 bound 9`.
impl fmt::Display for ReasonText {
    ghost use Rattle.std.specs.Prelude.{Some};
    ghost use Rattle.rbac_judge.specs.Explain.{reason_text};

    ghost output = { λ text. Some (reason_text text.reason) };

    fn fmt<W: fmt::Write>(&self, f: &mut fmt::Formatter<W>) -> fmt::Result {
        match self.reason {
            Reason::NoPermission => f.write_str("permission"),
            Reason::NoPrincipal => f.write_str("principal"),
            Reason::Matches => f.write_str("match"),
            Reason::ConditionFalse => f.write_str("condition false"),
            Reason::ConditionFails(error) => write!(f, "condition error {error}"),
            Reason::ConditionTrue { steps, bound } => {
                write!(f, "condition true steps {steps} bound {bound}")
            }
        }
    }
}

// The name in quotes, with its characters escaped.
fn quoted(alloc: Global, name: &str) -> Result<String, AllocError>
    ensures { IfOk result (λ text. string_bytes text ≡ quoted name.now) }
{
    let mut text = String::new(alloc);
    text.push('"')?;
    for c in name.chars() {
        push_escaped(alloc, &mut text, c)?;
    }
    text.push('"')?;
    Ok(text)
}

// Appends the character as it is written between quotes.
fn push_escaped(alloc: Global, text: &mut String, c: char) -> Result<(), AllocError>
    ensures { OnOk result (string_bytes text.new ≡ string_bytes text.old ++ escaped c) }
{
    match c {
        '"' => text.push_str("\\\""),
        '\\' => text.push_str("\\\\"),
        '\0' => text.push_str("\\0"),
        '\t' => text.push_str("\\t"),
        '\n' => text.push_str("\\n"),
        '\r' => text.push_str("\\r"),
        _ => push_shown(alloc, text, c),
    }
}

/// The text on standard error if the trials cannot be shown, for this cause.
pub fn unavailable_text(cause: RunError) -> &'static [u8]
    ensures { result.now ≡ unavailable_text cause }
{
    match cause {
        RunError::Memory => b"cannot explain\n  memory ran out\n",
        RunError::OutOfSteps => b"cannot explain\n  a condition takes more steps than it may\n",
    }
}
