//! Serves by settings, over any network.
ghost use Rattle.std.specs.Prelude.{◌≡◌, [], None, true, IfOk, OnOk};
ghost use Rattle.serve_loop.specs.History.{is_told};
ghost use Rattle.serve_loop.specs.Law.{Belong, GoesOn};
ghost use Rattle.serve_core.specs.MappedHeadline.{SettingsHeadline};
ghost use Rattle.serve_core.specs.Served.{served_setup, served_turns};
ghost use Rattle.serve_core.specs.Setups.{IsSetupBy};

use crate::fault::HostFault;
use crate::loop_settings::loop_settings;
use crate::upkeep::UsesMemory;
use ads::Config;
use attributes::Conn;
use serve_config::ServeConfig;
use serve_core::{MappingRule, Served};
use serve_loop::{Board, Network, Observer, Server, Service, Upkeep};
use std::alloc::{AllocError, Global};
use std::io::ErrorKind;

/// What a server needs beside its service.
#[derive(Drop)]
pub(crate) struct Surroundings<N, O, U> {
    pub(crate) network: N,
    pub(crate) observers: O,
    pub(crate) upkeep: U,
    /// How many connections are open at once at most.
    pub(crate) at_once: usize,
}

/// A server that ended, with its network.
#[derive(Drop)]
pub struct EndedServer<N> {
    network: N,
    // why it could not go on; none if it was told to end
    fault: Option<HostFault>,
}

impl<N> EndedServer<N> {
    /// Its network, and why it could not go on; none if it was told to end.
    pub fn into_parts(self) -> (N, Option<HostFault>)
        ensures { (result.0 ≡ self.network) × (result.1 ≡ self.fault) }
    {
        let EndedServer { network, fault } = self;
        (network, fault)
    }
}

/// Serves with this configuration and by these settings until the server is to end. Over any network to which nothing
/// has happened, the headline holds of all that happens on its wire. What it was opened by stays. It ends without a fault
/// only after the network said that it is to end. The error is out of memory before it begins.
pub(crate) fn serve_by<
    'm,
    N: Network<Conn>,
    O: Observer<Conn, Served<'m>>,
    U: Upkeep<Conn, N, Served<'m>, O> + UsesMemory + Drop,
>(
    alloc: Global,
    config: &Config,
    settings: &'m ServeConfig,
    surroundings: Surroundings<N, O, U>,
) -> Result<EndedServer<N>, AllocError>
    requires wire { N.wire surroundings.network ≡ [] }
    requires seen { O.seen surroundings.observers ≡ [] }
    ensures headline { IfOk result (λ ended. SettingsHeadline config.now settings.now (N.wire ended.network)) }
    ensures setup { IfOk result (λ ended. N.setup ended.network ≡ N.setup surroundings.network) }
    ensures told { IfOk result (λ ended. ended.fault ≡ None → is_told (N.wire ended.network) ≡ true) }
{
    let Surroundings {
        network,
        observers,
        upkeep,
        at_once,
    } = surroundings;
    let places = settings.connections;
    let service = service_of(alloc, config, settings)?;
    let board = Board::new(alloc, places, network, service, observers)?;
    let server = Server::new(alloc, places, board, &loop_settings(settings, at_once))?;
    let (server, served) = run(server, upkeep);
    Ok(ended_of(server.into_network(), served))
}

// The end of a server on this network.
fn ended_of<N: Network<Conn>>(network: N, served: Result<(), HostFault>) -> EndedServer<N>
    requires { OnOk served (is_told (N.wire network) ≡ true) }
    ensures network { result.network ≡ network }
    ensures told { result.fault ≡ None → is_told (N.wire result.network) ≡ true }
{
    match served {
        Ok(()) => EndedServer {
            network,
            fault: None,
        },
        Err(fault) => EndedServer {
            network,
            fault: Some(fault),
        },
    }
}

// The core by these settings, to which nothing happened yet.
fn service_of<'m>(
    alloc: Global,
    config: &Config,
    settings: &'m ServeConfig,
) -> Result<Served<'m>, AllocError>
    ensures turns { IfOk result (λ service. served_turns service ≡ []) }
    ensures setup { IfOk result (λ service. IsSetupBy config.now settings.now (served_setup service)) }
{
    let rule = MappingRule::of(settings);
    Served::new(alloc, config, settings.connections, rule)
}

// Serves with this server and this upkeep, which is dropped then. Returns the server, and why it could not go on, if it
// could not.
fn run<
    N: Network<Conn>,
    S: Service<Conn>,
    O: Observer<Conn, S>,
    U: Upkeep<Conn, N, S, O> + UsesMemory + Drop,
>(
    mut server: Server<Conn, N, S, O>,
    mut upkeep: U,
) -> (Server<Conn, N, S, O>, Result<(), HostFault>)
    ensures told { OnOk result.1 (is_told (N.wire result.0.board.parties.network) ≡ true) }
    ensures goes_on { GoesOn N.setup S.turns S.setup server.board.parties result.0.board.parties }
{
    let served = serve(&mut server, &mut upkeep);
    (server, served)
}

// Serves until the server is to end. It returns without a fault only after the network said that. What is on the wire is
// what the service took and what was sent of its answers, and the observers saw it.
fn serve<
    N: Network<Conn>,
    S: Service<Conn>,
    O: Observer<Conn, S>,
    U: Upkeep<Conn, N, S, O> + UsesMemory,
>(server: &mut Server<Conn, N, S, O>, upkeep: &mut U) -> Result<(), HostFault>
    ensures told { OnOk result (is_told (N.wire server.new.board.parties.network) ≡ true) }
    ensures law { ∥ Belong (N.wire server.new.board.parties.network) (S.turns server.new.board.parties.service)
        (O.seen server.new.board.parties.observer) ∥₁ }
    ensures goes_on { GoesOn N.setup S.turns S.setup server.old.board.parties server.new.board.parties }
{
    for _ in 0..u64::MAX {
        let goes_on = server.turn().map_err(HostFault::Wait)?;
        server.keep_up(upkeep);
        if upkeep.lacks_memory() {
            return Err(HostFault::Memory(AllocError));
        }
        if !goes_on && server.board().is_ending() {
            return Ok(());
        }
    }
    Err(HostFault::Wait(ErrorKind::Other.into()))
}
