//! The connection of a front proxy.
ghost use Rattle.std.specs.Prelude.{◌≡◌, ◌<◌, ◌++◌, ℕ, [], List, IfOk, IfSome, OnOk, length, option_map};
ghost use Rattle.attributes.specs.Conn.{conn_view};
ghost use Rattle.attributes.specs.Headers.{lines_view};
ghost use Rattle.http_front.specs.Answer.{reply_view};
ghost use Rattle.http_front.specs.Front.{TakesNext, new_front};
ghost use Rattle.rbac_serve.specs.Workers.{worker_view};
ghost use Rattle.serve_core.specs.declared.front_answer.FrontAnswer.{FrontAnswer};
ghost use Rattle.serve_core.specs.ClientRequests.{AreAskLines, AreToldLines, OnlyAt, rule_view};
ghost use Rattle.serve_core.specs.Cores.{core_view};
ghost use Rattle.serve_core.specs.Fronts.{Reads, framed};

use crate::front_answer::FrontAnswer;
use crate::judging::{FrontPlace, Lines};
use crate::worker_service::WorkerService;
use attributes::{Conn, Limits};
use http_front::{Ask, Front, Reply};
use rbac_serve::Outbox;
use std::alloc::{AllocError, Global};

/// The connection of a front proxy: its asks, and the answers that wait to be sent.
#[derive(Drop)]
pub(crate) struct FrontConnection {
    pub(crate) front: Front,
    pub(crate) outbox: Outbox,
}

impl FrontConnection {
    /// A connection with these facts that delivered no bytes.
    pub(crate) fn new(
        alloc: Global,
        limits: &Limits,
        conn: &Conn,
    ) -> Result<FrontConnection, AllocError>
        ensures { IfOk result (λ c. c ≡ record { front = new_front limits.now (conn_view conn.now); outbox = [] }) }
    {
        Ok(FrontConnection {
            front: Front::new(alloc, *limits, conn.copy()?),
            outbox: Outbox::new(alloc),
        })
    }

    /// It delivers bytes. The answers to the requests that they complete are put after those that wait, and their replies
    /// are added to `answers`. Also after an error, no connection of a client is open in the core.
    pub(crate) fn receive(
        &mut self,
        at: FrontPlace<'_>,
        core: &mut WorkerService,
        bytes: &[u8],
        answers: &mut Vec<FrontAnswer>,
    ) -> Result<(), AllocError>
        requires { at.place < length (worker_view core.old.worker).core.conns }
        ensures found { OnOk result ((more : List FrontAnswer) × (out : List ℕ) × (answers.new.items ≡ answers.old.items ++ more)
            × Reads (rule_view at.entry.rule) at.entry.place self.old bytes.now (core_view core.old) more out self.new (core_view core.new)) }
        ensures only { OnlyAt at.entry.place (core_view core.old) (core_view core.new) }
    {
        if self.front.keeps(bytes)? {
            return Ok(());
        }
        self.front.feed(bytes)?;
        'answering: while let Some((ask, lines)) = self.next_ask(at.alloc)? {
            let answer = at.answer(core, &ask, lines)?;
            let reply = framed(at.alloc, &ask, answer.reply())?;
            self.outbox.add(Front::answer(at.alloc, &reply)?)?;
            answers.push(answer)?;
        }
        Ok(())
    }

    // The next ask, if there is one, with the lines of its head.
    fn next_ask(&mut self, alloc: Global) -> Result<Option<(Ask, Lines)>, AllocError>
        ensures next { IfOk result (λ found. TakesNext self.old.front (option_map (λ p. p.0) found) self.new.front) }
        ensures lines { IfOk result (λ found. IfSome found (λ p. AreAskLines self.old.front.facts self.old.front.kept p.0 (lines_view p.1.items))) }
        ensures outbox { self.new.outbox ≡ self.old.outbox }
    {
        let lines = self.next_lines(alloc)?;
        let found = self.front.next()?;
        match found {
            Some(ask) => Ok(Some((ask, lines))),
            None => Ok(None),
        }
    }

    // The lines of the next ask; none if there is no next ask yet, or if it is a fault.
    fn next_lines(&self, alloc: Global) -> Result<Lines, AllocError>
        ensures { IfOk result (λ lines. AreToldLines self.now.front (lines_view lines.items)) }
    {
        let found = self.front.lines()?;
        match found {
            Some(lines) => Ok(lines),
            None => Ok(Vec::new(alloc)),
        }
    }
}

// The reply in the frame of the front's request: it says whether the connection closes, and whether a body is sent.
fn framed(alloc: Global, ask: &Ask, reply: &Reply) -> Result<Reply, AllocError>
    ensures { IfOk result (λ copy. reply_view copy ≡ framed ask.now (reply_view reply.now)) }
{
    let (closes, is_head) = match ask {
        Ask::Judge(request, closes) => (*closes, request.method() == "HEAD"),
        Ask::Fault(_) => (true, false),
    };
    Ok(Reply {
        case: reply.case,
        matches: Vec::from_slice(alloc, &reply.matches)?,
        generation: reply.generation,
        closes,
        is_head,
    })
}
