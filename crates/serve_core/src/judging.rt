//! The requests of the clients of a front proxy: each is a connection of its own to the core.
ghost use Rattle.std.specs.Prelude.{◌≡◌, ◌<◌, IfOk, length, option_map};
ghost use Rattle.attributes.specs.Conn.{Facts};
ghost use Rattle.attributes.specs.Headers.{lines_view};
ghost use Rattle.head_map.specs.Mapped.{parts_view};
ghost use Rattle.http_front.specs.Answer.{reply_view};
ghost use Rattle.http_front.specs.Asks.{request_of_head};
ghost use Rattle.http_front.specs.Head.{HeadValue};
ghost use Rattle.http_front.specs.Heads.{Kept};
ghost use Rattle.http_front.specs.Parts.{spells_http11};
ghost use Rattle.http_front.specs.Rules.{lines_of};
ghost use Rattle.rbac_serve.specs.Workers.{worker_view};
ghost use Rattle.serve_core.specs.ClientRequests.{AnswersAsk, AnswersClient, AnswersHead, AreAskLines, IsFaulty, IsFirst, IsGiven, OnlyAt, Refuses, rule_view};
ghost use Rattle.serve_core.specs.Cores.{core_view};
ghost use Rattle.serve_core.specs.Rules.{reply_without};

use crate::front_answer::{ClientRequest, FrontAnswer};
use crate::rule::MappingRule;
use crate::unjudged::{Unjudged, unjudged_head};
use crate::worker_service::WorkerService;
use attributes::{Conn, Protocol, Request};
use head_map::{Parts, head_of};
use http_front::{Ask, Case, HeadFault, Reply};
use proxy_core::AnsweredAsk;
use serve_loop::{CloseReason, Event, Stream};
use std::alloc::{AllocError, Global};

/// A front's connection is in this place, and its requests give those of clients by this rule.
#[derive(Clone, Copy)]
pub(crate) struct FrontPlace<'m> {
    pub(crate) alloc: Global,
    pub(crate) rule: MappingRule<'m>,
    pub(crate) place: usize,
}

/// The field lines of a head, each a name in lower case and a value.
pub(crate) type Lines = Vec<(String, String)>;

impl FrontPlace<'_> {
    /// The answer to an ask, whose head has these lines. Also after an error, no connection of a client is open.
    pub(crate) fn answer(
        self,
        core: &mut WorkerService,
        ask: &Ask,
        lines: Lines,
    ) -> Result<FrontAnswer, AllocError>
        requires { self.place < length (worker_view core.old.worker).core.conns }
        ensures found { IfOk result (λ answer. (facts : Facts) (kept : Kept) → AreAskLines facts kept ask.now (lines_view lines.items)
            → AnswersAsk (rule_view self.entry.rule) self.entry.place facts kept ask.now (core_view core.old) answer (core_view core.new)) }
        ensures only { OnlyAt self.entry.place (core_view core.old) (core_view core.new) }
    {
        match ask {
            Ask::Judge(request, _) => self.judge(core, request, lines),
            Ask::Fault(fault) => Ok(self.refuse(core, unjudged_head(*fault))),
        }
    }

    // The answer to a request with these lines.
    fn judge(
        self,
        core: &mut WorkerService,
        request: &Request,
        lines: Lines,
    ) -> Result<FrontAnswer, AllocError>
        requires { self.place < length (worker_view core.old.worker).core.conns }
        ensures found { IfOk result (λ answer. (h : HeadValue) (facts : Facts) → request.now ≡ request_of_head h facts
            → lines_view lines.items ≡ lines_of h
            → AnswersHead (rule_view self.entry.rule) self.entry.place h facts (core_view core.old) answer (core_view core.new)) }
        ensures only { OnlyAt self.entry.place (core_view core.old) (core_view core.new) }
    {
        let method = String::from_str(self.alloc, request.method())?;
        let target = String::from_str(self.alloc, request.target())?;
        let conn = request.conn().copy()?;
        let parts = Parts {
            method,
            target,
            lines,
            conn,
        };
        match self.rule.client_of(self.alloc, parts)? {
            Ok(client) => {
                let is_http11 = is_http11(request.protocol());
                let request = judge_client(self.alloc, core, self.place, client, is_http11)?;
                Ok(FrontAnswer::Judged(request))
            }
            Err(unjudged) => Ok(self.refuse(core, unjudged)),
        }
    }

    // The answer to a request that is not judged.
    fn refuse(self, core: &WorkerService, unjudged: Unjudged) -> FrontAnswer
        ensures { Refuses (core_view core.now) unjudged result (core_view core.now) }
    {
        let reply = reply_without(self.alloc, core, unjudged.case);
        FrontAnswer::Unjudged(unjudged, reply)
    }
}

// Whether the head of a request of this protocol is of HTTP/1.1 or, if not, of HTTP/1.0.
fn is_http11(protocol: Protocol) -> bool
    ensures { result ≡ spells_http11 protocol }
{
    match protocol {
        Protocol::Http10 => false,
        Protocol::Http11 | Protocol::Http2 | Protocol::Http3 => true,
    }
}

// Has the request of a client judged, which is a connection of its own in a place of the core. It is closed again,
// also after an error.
fn judge_client(
    alloc: Global,
    core: &mut WorkerService,
    k: usize,
    client: Parts,
    is_http11: bool,
) -> Result<ClientRequest, AllocError>
    requires { k < length (worker_view core.old.worker).core.conns }
    ensures found { IfOk result (λ request. AnswersClient (core_view core.old) k (parts_view client) is_http11 request (core_view core.new)) }
    ensures only { OnlyAt k (core_view core.old) (core_view core.new) }
{
    let head = head_of(alloc, &client, is_http11)?;
    let given = give_client(core, k, &client.conn, head.as_str());
    let _ = core.step(&Event::Closed(Stream::Place(k), CloseReason::Served));
    let conn = client.conn;
    match given? {
        Some(answered_asks) => Ok(ClientRequest {
            conn,
            head,
            answered_ask: first_of(alloc, core, answered_asks),
        }),
        None => Ok(ClientRequest {
            conn,
            head: String::new(alloc),
            answered_ask: faulty(alloc, core, HeadFault::OutsideLimits),
        }),
    }
}

// Gives the core a client's connection and head. Returns what was asked and answered; none if the client's facts are
// outside the limits.
fn give_client(
    core: &mut WorkerService,
    k: usize,
    conn: &Conn,
    head: &str,
) -> Result<Option<Vec<AnsweredAsk>>, AllocError>
    requires place { k < length (worker_view core.old.worker).core.conns }
    requires some { 0 < length head.now }
    ensures found { IfOk result (λ given. IsGiven (core_view core.old) k conn.now head.now (option_map (λ v. v.items) given) (core_view core.new)) }
    ensures only { OnlyAt k (core_view core.old) (core_view core.new) }
{
    let opened = core.step(&Event::Accepted(k, conn))?;
    if opened.closes {
        return Ok(None);
    }
    let _given = core.step(&Event::Received(Stream::Place(k), head.as_bytes()))?;
    Ok(Some(core.take_answered_asks()))
}

// The first ask; if there is none, the head was not whole.
fn first_of(alloc: Global, core: &WorkerService, answered_asks: Vec<AnsweredAsk>) -> AnsweredAsk
    ensures { IsFirst (worker_view core.now.worker) answered_asks.items result }
{
    match answered_asks.into_iter().next() {
        Some(answered_ask) => answered_ask,
        None => faulty(alloc, core, HeadFault::Unfinished),
    }
}

// A head with this fault, and its answer.
fn faulty(alloc: Global, core: &WorkerService, fault: HeadFault) -> AnsweredAsk
    ensures { IsFaulty (worker_view core.now.worker) fault result }
{
    AnsweredAsk {
        ask: Ask::Fault(fault),
        reply: reply_without(alloc, core, Case::Fault(fault)),
    }
}

// The reply of this case, if nothing was judged. It takes no memory.
fn reply_without(alloc: Global, core: &WorkerService, case: Case) -> Reply
    ensures { reply_view result ≡ reply_without case (worker_view core.now.worker) }
{
    Reply {
        case,
        matches: Vec::new(alloc),
        generation: core.client().generation(),
        closes: false,
        is_head: false,
    }
}
