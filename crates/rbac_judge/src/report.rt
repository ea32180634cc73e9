//! An outcome as it is printed: in words, or as a JSON object.
ghost use Rattle.std.specs.Prelude.{◌≡◌, IfOk, string_bytes, true};
ghost use Rattle.rbac_judge.specs.Explain.{reported_trials, with_trials};
ghost use Rattle.rbac_judge.specs.Outcome.{line_of, printed_of};
ghost use Rattle.rbac_judge.specs.Reports.{with_why, unexplained, without_memory};

use crate::explain::{Explanation, push_lines};
use crate::json::{Why, value_of};
use crate::outcome::Outcome;
use std::alloc::{AllocError, Global};

/// An outcome, and the form in which it is printed.
#[derive(Drop)]
pub struct Report {
    /// The outcome.
    pub outcome: Outcome,
    /// The name of the policy that matched, if one did.
    pub name: Option<String>,
    /// Whether it is printed as a JSON object, rather than in words.
    pub json: bool,
    /// Why a verdict is what it is, if that was asked for.
    pub explanation: Explanation,
    /// Why the outcome is no verdict, if it is none.
    pub why: Why,
}

impl Report {
    /// The report, with why its outcome is no verdict.
    pub fn with_why(self, why: Why) -> Report
        ensures { result ≡ with_why why self }
    {
        Report {
            outcome: self.outcome,
            name: self.name,
            json: self.json,
            explanation: self.explanation,
            why,
        }
    }

    /// The report without its trials, if there is no memory for them.
    pub(crate) fn unexplained(self) -> Report
        ensures { result ≡ unexplained self }
    {
        Report {
            outcome: self.outcome,
            name: self.name,
            json: self.json,
            explanation: self.explanation.without_trials(),
            why: self.why,
        }
    }

    /// The report that memory ran out, in the same form.
    pub(crate) fn without_memory(self) -> Report
        ensures { result ≡ without_memory self }
    {
        Report {
            outcome: Outcome::Memory,
            name: self.name,
            json: self.json,
            explanation: Explanation::Absent,
            why: self.why,
        }
    }

    /// The text of the report: whole lines, each with its line feed.
    pub(crate) fn text(&self, alloc: Global) -> Result<String, AllocError>
        ensures { IfOk result (λ text. string_bytes text ≡ printed_of self.now) }
    {
        if self.json {
            self.json_line(alloc)
        } else {
            lines(alloc, self.outcome, &self.explanation)
        }
    }

    // The line with the report's JSON object.
    fn json_line(&self, alloc: Global) -> Result<String, AllocError>
        requires { self.now.json ≡ true }
        ensures { IfOk result (λ line. string_bytes line ≡ printed_of self.now) }
    {
        let value = value_of(
            alloc,
            self.outcome,
            &self.name,
            &self.explanation,
            &self.why,
        )?;
        let mut line = value.to_string(alloc)?;
        line.push('\n')?;
        Ok(line)
    }
}

// The outcome's line, followed by those of the trials, if there are any to show.
fn lines(alloc: Global, outcome: Outcome, explanation: &Explanation) -> Result<String, AllocError>
    ensures { IfOk result (λ text.
        string_bytes text ≡ with_trials (line_of outcome) (reported_trials explanation.now)) }
{
    let mut text = format!(in alloc; "{outcome}\n")?;
    if let Explanation::Trials(trials) = explanation {
        push_lines(alloc, &mut text, trials)?;
    }
    Ok(text)
}
