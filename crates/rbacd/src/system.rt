//! The system that a job runs on.
ghost use Rattle.std.specs.Prelude.{◌≡◌};

use crate::server::Hosts;
use ads::Config;
use attributes::Conn;
use program_jobs::{Sockets, Source};
use serve_config::ServeConfig;
use serve_host::{EndedServer, HostFault, HostNetwork, open_network, serve_on};
use std::alloc::Global;
use std::io;
use std::net::{TcpListener, TcpStream};

/// The system: its files, its sockets, and what runs a server. Proofs assume nothing about what files hold, nor about what
/// sockets gave and took. A network is set up with its facts, and has a history.
#[derive(Clone, Copy)]
pub struct System<'r> {
    rt: &'r HostRuntime,
}

impl<'r> System<'r> {
    /// The system of this runtime.
    pub(crate) fn of(rt: &'r HostRuntime) -> System<'r> {
        System { rt }
    }
}

impl<'r> Source for System<'r> {
    ghost use Rattle.std.specs.Prelude.{⊤};

    ghost holds = { λ _ _ _. ⊤ };

    ghost lacks = { λ _ _. ⊤ };

    fn read_file(&self, alloc: Global, path: &str) -> io::Result<Vec<u8>> {
        self.rt.read_file(alloc, path)
    }

    type Log = <HostRuntime as Source>::Log;

    fn open_log(&self, path: &str) -> io::Result<<HostRuntime as Source>::Log> {
        self.rt.open_log(path)
    }
}

impl<'r> Sockets for System<'r> {
    ghost use Rattle.std.specs.Prelude.{⊤};

    ghost connects = { λ _ _ _. ⊤ };

    ghost accepts = { λ _ _ _. ⊤ };

    type Stream = TcpStream;

    type Listener = TcpListener;

    fn connect(&self, address: &str) -> io::Result<(TcpStream, TcpStream)> {
        self.rt.connect(address)
    }

    fn listen(&self, address: &str) -> io::Result<TcpListener> {
        self.rt.listen(address)
    }
}

impl<'r> Hosts for System<'r> {
    ghost use Rattle.serve_host.specs.Histories.{IsHistoryBy};

    type Network = HostNetwork<'r>;

    ghost opened = { λ _ conn _ network. network.history.conn ≡ conn };

    ghost hosted = { λ _ conn _ wire. IsHistoryBy conn wire };

    fn open(
        &self,
        alloc: Global,
        conn: Conn,
        settings: &ServeConfig,
    ) -> Result<HostNetwork<'r>, HostFault> {
        open_network(alloc, self.rt, conn, settings)
    }

    fn serve(
        &self,
        alloc: Global,
        config: &Config,
        settings: &ServeConfig,
        network: HostNetwork<'r>,
    ) -> Result<EndedServer<HostNetwork<'r>>, HostFault> {
        serve_on(alloc, self.rt, config, settings, network)
    }

    fn close(&self, _network: HostNetwork<'r>) {}
}
