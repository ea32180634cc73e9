//! The access log: which line a decision becomes, and which are left out.
ghost use Rattle.std.specs.Prelude.{◌≡◌, ◌≢◌, ◌≤◌, ◌↔◌, ◌-◌, [], None, IsTrue, codes, is_some, length, option_and_then, option_copied, option_map, slice_get, true, if◌then◌else◌};
ghost use Rattle.std.specs.String.{string_bytes};
ghost use Rattle.ads.specs.Config.{names_of};
ghost use Rattle.ads.specs.Ends.{client_view};
ghost use Rattle.ads.specs.Views.{policies_view};
ghost use Rattle.attributes.specs.Request.{header_of};
ghost use Rattle.http_front.specs.declared.answer.Case.TheVariants.{Allow};
ghost use Rattle.serve_observe.specs.Decisions.{SaysDecision, SaysUnjudged, is_fault, request_in};
ghost use Rattle.serve_observe.specs.Names.{matched_name};
ghost use Rattle.serve_observe.specs.Sampling.{one_more};

use crate::connections::Connection;
use crate::sample::Sample;
use ads::{Client, Config};
use fault_texts::rule_of;
use head_map::Parts;
use http_front::{Ask, Case, Reply};
use proxy_core::AnsweredAsk;
use rbac_policy::Admitted;
use serve_core::Unjudged;
use serve_log::{Decision, LogFile, LogFiles, RecordPosition, decision_line};
use std::alloc::Global;

/// The log of decisions. One in so many of the allowed requests is logged, and each other one.
#[derive(Drop)]
pub struct Accesses<F: LogFiles + Drop> {
    alloc: Global,
    /// The file that is written.
    pub file: LogFile<F>,
    // the allowed requests that are logged
    sample: Sample,
}

/// Where and when a decision was made.
#[derive(Clone, Copy)]
pub(crate) struct DecisionContext<'a> {
    /// Milliseconds since 1970.
    pub(crate) time: u64,
    /// The connection whose request was decided.
    pub(crate) connection: &'a Connection,
    /// The client whose policies decided.
    pub(crate) client: &'a Client,
    /// Where the record has the bytes, if one is written.
    pub(crate) record: &'a Option<RecordPosition>,
}

impl<F: LogFiles + Drop> Accesses<F> {
    /// A log in this file, of one in so many of the allowed requests and of each other one.
    pub fn new(alloc: Global, file: LogFile<F>, sample: u64) -> Accesses<F> {
        Accesses {
            alloc,
            file,
            sample: Sample::new(sample),
        }
    }

    /// Logs a decision, unless it is one of the allowed requests that are left out.
    pub(crate) fn log_decision(
        &mut self,
        answered_ask: &AnsweredAsk,
        context: &DecisionContext<'_>,
    ) {
        if self.takes(answered_ask.reply.case) {
            self.log(&decision_of(answered_ask, context));
        }
    }

    /// Logs a request that is not judged, at this time, in milliseconds since 1970, on a connection.
    pub(crate) fn log_unjudged(
        &mut self,
        unjudged: &Unjudged,
        reply: &Reply,
        connection: &Connection,
        time: u64,
    ) {
        self.log(&unjudged_decision(unjudged, reply, connection, time));
    }

    // Whether an answer of this case is logged: one in so many of the allowed requests, and each other one.
    fn takes(&mut self, case: Case) -> bool
        ensures other { case ≢ Allow → (result ≡ true) × (self.new.sample ≡ self.old.sample) }
        ensures allowed { case ≡ Allow → (IsTrue result ↔ (self.old.sample.every ≤ one_more self.old.sample.passed))
            × (self.new.sample.passed ≡ (if result then 0 else one_more self.old.sample.passed)) }
        ensures every { self.new.sample.every ≡ self.old.sample.every }
        ensures file { self.new.file ≡ self.old.file }
    {
        match case {
            Case::Allow => self.sample.picks_next(),
            _ => true,
        }
    }

    fn log(&mut self, decision: &Decision<'_>) {
        if let Ok(line) = decision_line(self.alloc, decision) {
            self.file.line(line.as_str());
        }
    }
}

// What a line says of a request.
#[derive(Clone, Copy)]
struct RequestTexts<'a> {
    method: Option<&'a str>,
    target: Option<&'a str>,
    host: Option<&'a str>,
}

// What a line says of the request that an ask has; nothing if its head has a fault.
fn asked_texts(ask: &Ask) -> RequestTexts<'_>
    ensures method { option_copied result.method ≡ option_map (λ r. r.method) (request_in ask.now) }
    ensures target { option_copied result.target ≡ option_map (λ r. r.target) (request_in ask.now) }
    ensures host { option_copied result.host
        ≡ option_and_then (λ r. header_of r (codes ":authority")) (request_in ask.now) }
{
    match ask {
        Ask::Judge(request, _) => RequestTexts {
            method: Some(request.method()),
            target: Some(request.target()),
            host: request.header(":authority"),
        },
        Ask::Fault(_) => RequestTexts {
            method: None,
            target: None,
            host: None,
        },
    }
}

// What a line says of the request of a client that is not judged.
fn client_texts(client: &Option<Parts>) -> RequestTexts<'_>
    ensures method { option_copied result.method ≡ option_map (λ p. string_bytes p.method) client.now }
    ensures target { option_copied result.target ≡ option_map (λ p. string_bytes p.target) client.now }
    ensures host { result.host ≡ None }
{
    match client {
        Some(parts) => RequestTexts {
            method: Some(parts.method.as_str()),
            target: Some(parts.target.as_str()),
            host: None,
        },
        None => RequestTexts {
            method: None,
            target: None,
            host: None,
        },
    }
}

// The rule that a head breaks, if the answer is of a faulty head.
fn broken_rule(case: Case) -> Option<&'static str>
    ensures { is_some result ≡ is_fault case }
{
    match case {
        Case::Fault(fault) => Some(rule_of(fault)),
        _ => None,
    }
}

// A request that is not judged, as it is logged.
fn unjudged_decision<'a>(
    unjudged: &'a Unjudged,
    reply: &Reply,
    connection: &'a Connection,
    time: u64,
) -> Decision<'a>
    ensures { SaysUnjudged unjudged.now reply.now connection.now time result }
{
    let texts = client_texts(&unjudged.client);
    Decision {
        time,
        connection: connection.number,
        peer: connection.peer.as_deref(),
        method: texts.method,
        target: texts.target,
        host: texts.host,
        verdict: unjudged.case.verdict(),
        status: unjudged.case.status(),
        filter: None,
        policy: None,
        generation: reply.generation,
        fault: Some(unjudged.reason),
        record: None,
    }
}

// The decision, as it is logged.
fn decision_of<'a>(answered_ask: &'a AnsweredAsk, context: &DecisionContext<'a>) -> Decision<'a>
    ensures { SaysDecision answered_ask.now context.now result }
{
    let texts = asked_texts(&answered_ask.ask);
    let reply = &answered_ask.reply;
    let (filter, policy) = names_of(context.client, &reply.matches);
    Decision {
        time: context.time,
        connection: context.connection.number,
        peer: context.connection.peer.as_deref(),
        method: texts.method,
        target: texts.target,
        host: texts.host,
        verdict: reply.case.verdict(),
        status: reply.case.status(),
        filter,
        policy,
        generation: reply.generation,
        fault: broken_rule(reply.case),
        record: context.record.as_ref(),
    }
}

// The names of the filter that was tried last and of its policy that matched; none if no filter was tried.
fn names_of<'a>(client: &'a Client, matches: &[Option<usize>]) -> (Option<&'a str>, Option<&'a str>)
    ensures none { matches.now ≡ [] → (result.0 ≡ None) × (result.1 ≡ None) }
    ensures filter { matches.now ≢ [] → option_map (λ name. name.now) result.0
        ≡ slice_get (names_of (client_view client.now).config.filters) (length matches.now - 1) }
    ensures policy { matches.now ≢ [] → option_map (λ name. name.now) result.1
        ≡ matched_name (slice_get (client_view client.now).accepted.policies (length matches.now - 1))
        (slice_get matches.now (length matches.now - 1)) }
{
    if matches.is_empty() {
        return (None, None);
    }
    let last = matches.len() - 1;
    let filter = filter_name(client.config(), last);
    let policy = policy_name(client.policies(), matches, last);
    (filter, policy)
}

/// The name of the filter in this place.
pub(crate) fn filter_name(config: &Config, place: usize) -> Option<&str>
    ensures { option_map (λ name. name.now) result ≡ slice_get (names_of config.now.filters) place }
{
    match config.filters().get_index(place) {
        Some((name, _)) => Some(name.as_str()),
        None => None,
    }
}

// The name of the policy that matched in the filter in this place.
fn policy_name<'a>(
    policies: &'a [Option<Admitted>],
    matches: &[Option<usize>],
    place: usize,
) -> Option<&'a str>
    ensures { option_map (λ name. name.now) result
        ≡ matched_name (slice_get (policies_view policies.now) place) (slice_get matches.now place) }
{
    match (policies.get(place), matches.get(place)) {
        (Some(Some(admitted)), Some(Some(number))) => admitted.policy_name(*number),
        _ => None,
    }
}
