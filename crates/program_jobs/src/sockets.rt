//! Sockets, by their addresses.
ghost use Rattle.std.specs.Prelude.{List, Option, ℕ, IfOk};
ghost use Rattle.stream_pumps.specs.Rounds.{Link, link_of};

use std::io::{self, Read, Write};
use std::net::{TcpListener, TcpStream};

/// Where streams come from.
pub trait Sockets {
    /// Connecting to this address gives this stream, or none.
    ghost connects: { Self → List ℕ → Option Link → Type 0 };

    /// A listener at this address accepts this stream, or none.
    ghost accepts: { Self → List ℕ → Option Link → Type 0 };

    /// An end of a stream.
    type Stream: Read + Write + Drop;

    /// A listener.
    type Listener: Listen<Stream = Self::Stream> + Drop;

    /// Connects to this address. Gives an end to read from and one to write to.
    fn connect(&self, address: &str) -> io::Result<(Self::Stream, Self::Stream)>
        ensures { connects self.now address.now
            (link_of Self.Stream.remaining Self.Stream.contents result) };

    /// Listens at this address.
    fn listen(&self, address: &str) -> io::Result<Self::Listener>
        ensures { IfOk result (λ listener. (link : Option Link)
            → Self.Listener.accepts listener link → accepts self.now address.now link) };
}

/// A listener.
pub trait Listen {
    /// This stream is accepted, or none.
    ghost accepts: { Self → Option Link → Type 0 };

    /// An end of a stream.
    type Stream: Read + Write + Drop;

    /// Accepts the next stream. Gives an end to read from and one to write to.
    fn next_stream(&self) -> io::Result<(Self::Stream, Self::Stream)>
        ensures { accepts self.now (link_of Self.Stream.remaining Self.Stream.contents result) };
}

/// The sockets of the system. Proofs assume nothing about what arrives at them.
impl Sockets for HostRuntime {
    ghost use Rattle.std.specs.Prelude.{⊤};

    ghost connects = { λ _ _ _. ⊤ };

    ghost accepts = { λ _ _ _. ⊤ };

    type Stream = TcpStream;

    type Listener = TcpListener;

    fn connect(&self, address: &str) -> io::Result<(TcpStream, TcpStream)> {
        both_ends(TcpStream::connect(self, address)?)
    }

    fn listen(&self, address: &str) -> io::Result<TcpListener> {
        TcpListener::bind(self, address)
    }
}

/// Sockets that are shared.
impl<F: Sockets> Sockets for &F {
    ghost connects = { λ sockets. F.connects sockets.now };

    ghost accepts = { λ sockets. F.accepts sockets.now };

    type Stream = F::Stream;

    type Listener = F::Listener;

    fn connect(&self, address: &str) -> io::Result<(F::Stream, F::Stream)> {
        F::connect(*self, address)
    }

    fn listen(&self, address: &str) -> io::Result<F::Listener> {
        F::listen(*self, address)
    }
}

impl Listen for TcpListener {
    ghost use Rattle.std.specs.Prelude.{⊤};

    ghost accepts = { λ _ _. ⊤ };

    type Stream = TcpStream;

    fn next_stream(&self) -> io::Result<(TcpStream, TcpStream)> {
        let (stream, _) = self.accept()?;
        both_ends(stream)
    }
}

// A stream as an end to read from and one to write to.
fn both_ends(stream: TcpStream) -> io::Result<(TcpStream, TcpStream)> {
    Ok((stream.try_clone()?, stream))
}
