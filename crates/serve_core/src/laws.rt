//! Laws of a worker under the loop, and of one after front proxies.
ghost use Rattle.std.specs.Prelude.{◌≡◌, ◌≤◌, ℕ, Bool, List, [], codes, length};
ghost use Rattle.attributes.specs.Conn.{Facts};
ghost use Rattle.attributes.specs.Limits.{LimitsValue};
ghost use Rattle.attributes.specs.Request.{RequestValue, head_protocol, request_of};
ghost use Rattle.head_map.specs.Heads.{head_of};
ghost use Rattle.head_map.specs.Mapped.{IsMapped, MappingValue, PartsValue};
ghost use Rattle.http_front.specs.declared.fault.HeadFault.{HeadFault};
ghost use Rattle.http_front.specs.Answer.{row_of};
ghost use Rattle.http_front.specs.Asks.{HeadAsks};
ghost use Rattle.http_front.specs.Head.{HeadValue, StartsHead, head_room};
ghost use Rattle.http_front.specs.Rules.{RuleFault};
ghost use Rattle.serve_config.specs.declared.config.Paths.{Paths};
ghost use Rattle.serve_loop.specs.Law.{Belong};
ghost use Rattle.rbac_serve.specs.Tables.{WorkerValue};
ghost use Rattle.rbac_serve.specs.Workers.{worker_view};
ghost use Rattle.serve_core.specs.ClientHeads.{head_of_client};
ghost use Rattle.serve_core.specs.ClientRequests.{parts_of_head};
ghost use Rattle.serve_core.specs.Headline.{ServerHeadline};
ghost use Rattle.serve_core.specs.MappedHeadline.{ServedHeadline};
ghost use Rattle.serve_core.specs.Rules.{IsUnjudged};
ghost use Rattle.serve_core.specs.Served.{served_setup};
ghost use Rattle.serve_core.specs.Turns.{IsDriven, ServerEvent, ServerStep, ServerTurn};
ghost use Rattle.serve_core.specs.declared.unjudged.Unjudged.{Unjudged};

use crate::served::Served;
use crate::worker_service::WorkerService;
use attributes::Conn;
use serve_loop::{Network, Observer, Server};

/// If the histories belong together, and the turns lead to a worker, the headline holds of what is on the wire. The
/// configuration and the number of places are the worker's.
pub fn the_wire_has_the_headline()
    ensures { (wire : List ServerStep) (turns : List ServerTurn) (seen : List ServerEvent) (w : WorkerValue) → Belong wire turns seen → IsDriven turns w
        → ServerHeadline w.core.client.config (length w.core.conns) wire }
{}

/// At any time, whatever a server of a worker did, the headline holds of what is on its wire.
pub fn a_server_has_the_headline<N: Network<Conn>, O: Observer<Conn, WorkerService>>(
    server: &Server<Conn, N, WorkerService, O>,
)
    ensures { let w = worker_view server.now.board.parties.service.worker in
        ∥ ServerHeadline w.core.client.config (length w.core.conns) (N.wire server.now.board.parties.network) ∥₁ }
{}

/// At any time, whatever a server did, the headline holds of what is on its wire. It holds by the requests as they were
/// sent, or by those of the clients that a rule gives.
pub fn a_served_wire_has_the_headline<'m, N: Network<Conn>, O: Observer<Conn, Served<'m>>>(
    server: &Server<Conn, N, Served<'m>, O>,
)
    ensures { ∥ ServedHeadline (served_setup server.now.board.parties.service) (N.wire server.now.board.parties.network) ∥₁ }
{}

/// A request that is not judged is answered 400, without a verdict.
pub fn an_unjudged_request_is_answered_400()
    ensures { (m : MappingValue) (paths : Paths) (old : PartsValue) (unjudged : Unjudged) → IsUnjudged m paths old unjudged
        → ((row_of unjudged.case).status ≡ 400) × ((row_of unjudged.case).verdict ≡ codes "none") }
{}

/// The head of a mapped request is whole: it has the method, the target and the lines of this request. So if it asks for a
/// request, it is this one. The front's head is whole and breaks no rule, and the head that is written has room.
pub fn a_mapped_head_asks_for_the_mapped_request()
    ensures whole { (m : MappingValue) (bytes : List ℕ) (h : HeadValue) (rest : List ℕ) (facts : Facts) (client : PartsValue)
        → StartsHead bytes h rest → ((fault : HeadFault) → ¬ (RuleFault h fault)) → IsMapped m (parts_of_head h facts) client
        → (http11 : Bool) → length (head_of client http11) ≤ head_room
        → StartsHead (head_of client http11) (head_of_client client http11) [] }
    ensures asks { (m : MappingValue) (bytes : List ℕ) (h : HeadValue) (rest : List ℕ) (facts : Facts) (client : PartsValue)
        → StartsHead bytes h rest → ((fault : HeadFault) → ¬ (RuleFault h fault)) → IsMapped m (parts_of_head h facts) client
        → (http11 : Bool) (limits : LimitsValue) (r : RequestValue) → HeadAsks (head_of client http11) limits client.facts r
        → r ≡ request_of client.method client.target (head_protocol http11) client.lines client.facts }
{}
