//! The sockets of a server.

use crate::accepted::Accepted;
use crate::control::ControlPlane;
use crate::event::{self, Ready};
use crate::fault::OpenFault;
use crate::file::Look;
use crate::input::StandardInput;
use crate::listener::opened;
use crate::listeners::Listeners;
use crate::stream::NetStream;
use mio::net::TcpListener;
use mio::{Events, Interest, Poll, Token};
use serve_config::ServeConfig;
use std::alloc::{AllocError, Global};
use std::fs::Files;
use std::io::{self, ErrorKind, Input};
use std::net::{Net, SocketAddr};
use std::rt::Clock;
use std::time::{Duration, Instant};

// How many events one wait gives at most. Others come with the next one.
const EVENTS: usize = 1_024;
// How often standard input is read, in milliseconds, if the system does not report it.
const READS: u64 = 100;

/// The sockets of a server, which work on the system's clock, files and network.
#[derive(Drop)]
pub struct Sockets<'r, R: Net + Files + Clock + Input> {
    alloc: Global,
    rt: &'r R,
    start: Instant,
    poll: Poll,
    events: Events,
    listeners: Listeners,
    admin: Option<TcpListener>,
    input: StandardInput,
    control: ControlPlane,
    // whether a connection waits that the system will not report
    has_first: bool,
}

impl<'r, R: Net + Files + Clock + Input> Sockets<'r, R> {
    /// Opens all addresses of `listen` and the admin port, and waits for the end of standard input if the settings say
    /// so. No stream to the control plane is opened yet. A Unix socket gets mode 0600; a stale one at its path is
    /// replaced, and anything else there is a fault.
    ///
    /// Standard input that is a file ends once it was read, and `/dev/null` at once. One that is closed is a fault.
    pub fn open(
        alloc: Global,
        rt: &'r R,
        config: &ServeConfig,
    ) -> Result<Sockets<'r, R>, OpenFault> {
        let mut listeners = Listeners::inherited(alloc, &config.listen)?;
        let start = Instant::now(rt).map_err(OpenFault::System)?;
        let poll = Poll::new(rt).map_err(OpenFault::System)?;
        let registry = poll.registry();
        let input = if config.until_eof {
            let end = named(Ready::Drain).map_err(OpenFault::System)?;
            StandardInput::register(registry, end).map_err(OpenFault::Input)?
        } else {
            StandardInput::Ignored
        };
        listeners.open(alloc, rt, &config.listen)?;
        let token = named(Ready::Listener).map_err(OpenFault::System)?;
        listeners
            .register(registry, token)
            .map_err(OpenFault::System)?;
        let admin = match config.admin {
            Some(address) => Some(open_admin(rt, &poll, address)?),
            None => None,
        };
        Ok(Sockets {
            alloc,
            rt,
            start,
            poll,
            events: Events::with_capacity(alloc, EVENTS)?,
            has_first: listeners.has_first(),
            listeners,
            admin,
            input,
            control: ControlPlane::new(alloc, config)?,
        })
    }

    /// Waits for at most so many milliseconds, and adds what is ready. Returns the milliseconds since the sockets were
    /// opened. A signal ends the wait. A control plane that is a file is looked at once a second.
    pub fn wait(&mut self, most: u64, ready: &mut Vec<Ready>) -> io::Result<u64> {
        let most = Duration::from_millis(self.longest(most));
        match self.poll.poll(&mut self.events, Some(most)) {
            Err(error) if error.kind() != ErrorKind::Interrupted => return Err(error),
            _ => {}
        }
        let mut reads_input = self.input == StandardInput::Read;
        for event in &self.events {
            match event::meaning(event.token().0) {
                Some(Ready::Drain) => reads_input = true,
                Some(found) => ready.push(found)?,
                None => {}
            }
        }
        if self.has_first {
            self.has_first = false;
            ready.push(Ready::Listener)?;
        }
        let now = self.now()?;
        self.control.tell(now);
        if reads_input && self.input_ends()? {
            ready.push(Ready::Drain)?;
        }
        if let ControlPlane::File(file) = &mut self.control {
            if file.look(self.alloc, self.rt, now) {
                ready.push(Ready::Control)?;
            }
        }
        Ok(now)
    }

    // How long a wait takes at most, since something is looked at after it.
    fn longest(&self, most: u64) -> u64 {
        if self.has_first {
            return 0;
        }
        let most = match &self.control {
            ControlPlane::File(file) => most.min(file.pause()),
            _ => most,
        };
        if self.input == StandardInput::Read {
            most.min(READS)
        } else {
            most
        }
    }

    // Whether standard input ends with this read.
    fn input_ends(&mut self) -> io::Result<bool> {
        if self.input == StandardInput::Ignored {
            return Ok(false);
        }
        let token = named(Ready::Drain)?;
        Ok(self.input.read_once(self.rt, self.poll.registry(), token))
    }

    // The milliseconds since the sockets were opened.
    fn now(&self) -> io::Result<u64> {
        let passed = self.start.elapsed(self.rt)?.as_millis();
        Ok(u64::try_from(passed).unwrap_or(u64::MAX))
    }

    /// The next connection, which is reported as the one in this place. The listeners are tried in turn, and it fails
    /// with `WouldBlock` once none of them has one. After another error the next call tries the next listener.
    pub fn accept(&mut self, k: usize) -> io::Result<Accepted> {
        let token = named(Ready::Place(k))?;
        self.listeners.accept(self.poll.registry(), token)
    }

    /// The next connection of the admin port, which is reported as the one in this place of it. Fails with `WouldBlock` if
    /// none waits, or if there is no admin port.
    pub fn accept_admin(&mut self, k: usize) -> io::Result<NetStream> {
        let token = named(Ready::Admin(k))?;
        let Some(listener) = &self.admin else {
            return Err(io::Error::from(ErrorKind::WouldBlock));
        };
        let (stream, _) = listener.accept()?;
        opened(stream, self.poll.registry(), token)
    }

    /// A stream to the control plane. Fails with `WouldBlock` while it is being connected; then it is reported as
    /// `Ready::Control`, and the next call gives it.
    pub fn connect(&mut self) -> io::Result<NetStream> {
        let token = named(Ready::Control)?;
        self.control
            .connect(self.alloc, self.rt, self.poll.registry(), token)
    }

    /// Why the last call to a control plane of gRPC ended, in words, if that was not taken yet.
    pub fn take_end_words(&self) -> Option<String> {
        self.control.take_end_words()
    }

    /// Whether the control plane is a file that was read and can still be read.
    pub fn reads_file(&self) -> bool {
        self.control.reads_file()
    }

    /// What the last look at the control plane's file found, if that is to be reported and was not taken yet.
    pub fn take_look(&mut self) -> Option<Look> {
        self.control.take_look()
    }

    /// The addresses at which TCP connections are accepted. Those of inherited sockets come first, and then the others,
    /// each in the order of the settings.
    pub fn addresses(&self) -> Result<Vec<SocketAddr>, AllocError> {
        self.listeners.addresses(self.alloc)
    }

    /// The address of the admin port.
    pub fn admin_address(&self) -> Option<SocketAddr> {
        self.admin.as_ref()?.local_addr().ok()
    }

    /// The milliseconds since 1970; 0 if the system does not say.
    pub fn now_unix(&self) -> u64 {
        match self.rt.since_1970() {
            Ok(passed) => u64::try_from(passed.as_millis()).unwrap_or(u64::MAX),
            Err(_) => 0,
        }
    }
}

// The token under which this is reported.
fn named(ready: Ready) -> io::Result<Token> {
    match event::token(ready) {
        Some(number) => Ok(Token(number)),
        None => Err(io::Error::from(ErrorKind::InvalidInput)),
    }
}

fn open_admin<R: Net>(rt: &R, poll: &Poll, address: SocketAddr) -> Result<TcpListener, OpenFault> {
    let opened = named(Ready::AdminListener).and_then(|token| {
        let mut listener = TcpListener::bind(rt, address)?;
        poll.registry()
            .register(&mut listener, token, Interest::READABLE)?;
        Ok(listener)
    });
    match opened {
        Ok(listener) => Ok(listener),
        Err(error) => Err(OpenFault::Admin { address, error }),
    }
}
