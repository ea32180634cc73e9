//! A call to a control plane that speaks gRPC over HTTP/2, as a stream of bytes: gRPC's messages, each with its head.
ghost use Rattle.std.specs.Prelude.{◌≤◌, IfOk, length};

use crate::call_end::{kind_of, words_of};
use crate::link::Link;
use hpack::Field;
use http2::Tunnel;
use std::alloc::{AllocError, Global};
use std::cell::Cell;
use std::io::{self, ErrorKind, Read, Write};
use std::sync::Arc;

// How many bytes are read from the control plane at once.
const CHUNK: usize = 16_384;
// How often the control plane is read at once while its windows allow no data.
const READS: u8 = 64;
// How often it is written at once.
const WRITES: u8 = 64;
// How long the control plane may take to answer a PING, in milliseconds.
const PATIENCE: u64 = 20_000;

/// The time in milliseconds since a fixed time, told by one and read by another.
pub(crate) type Clock = Arc<Cell<u64>, Global>;

/// Why the last call ended, in words, until somebody takes it.
pub(crate) type EndWords = Arc<Cell<Option<String>>, Global>;

/// What the calls of one control plane share with whoever waits for sockets.
#[derive(Drop)]
pub(crate) struct Shared {
    pub(crate) clock: Clock,
    pub(crate) end_words: EndWords,
}

impl Shared {
    pub(crate) fn new(alloc: Global) -> Result<Shared, AllocError> {
        Ok(Shared {
            clock: Arc::new(alloc, Cell::new(0))?,
            end_words: Arc::new(alloc, Cell::new(None))?,
        })
    }

    fn copy(&self) -> Result<Shared, AllocError> {
        Ok(Shared {
            clock: self.clock.clone()?,
            end_words: self.end_words.clone()?,
        })
    }
}

/// A call to a control plane. It is read and written like a stream that has nothing but gRPC's messages.
#[derive(Drop)]
pub struct GrpcStream {
    alloc: Global,
    link: Link,
    tunnel: Tunnel,
    // what was read and is not taken by the tunnel yet
    kept: Vec<u8>,
    shared: Shared,
    // after how many milliseconds without a byte a PING is sent; 0 is never
    keepalive: u64,
    // when bytes came last, and when a PING was sent after them
    heard: u64,
    asked: Option<u64>,
    // whether a PING was not answered in time
    is_silent: bool,
}

impl GrpcStream {
    /// A call with these fields over a link that is new.
    pub(crate) fn new(
        alloc: Global,
        link: Link,
        fields: &[Field],
        shared: &Shared,
        keepalive: u64,
    ) -> io::Result<GrpcStream> {
        let Ok(tunnel) = Tunnel::new(alloc, fields) else {
            return Err(io::Error::from(ErrorKind::OutOfMemory));
        };
        Ok(GrpcStream {
            alloc,
            link,
            tunnel,
            kept: Vec::new(alloc),
            shared: shared.copy()?,
            keepalive,
            heard: shared.clock.get(),
            asked: None,
            is_silent: false,
        })
    }

    /// Says that nothing more is sent on the call.
    pub(crate) fn finish(&mut self) {
        let _ = self.tunnel.finish(self.alloc);
        let _ = self.write_out();
    }

    // Asks a control plane that is silent for too long whether it is there.
    fn watch(&mut self) {
        if self.keepalive == 0 {
            return;
        }
        let now = self.shared.clock.get();
        match self.asked {
            Some(asked) => self.is_silent = now.saturating_sub(asked) >= PATIENCE,
            None if now.saturating_sub(self.heard) >= self.keepalive => self.ask(now),
            None => {}
        }
    }

    // Sends a PING, unless too much waits for the control plane. Then it is silent all the same.
    fn ask(&mut self, now: u64) {
        let _ = self.tunnel.ping(self.alloc, now);
        self.asked = Some(now);
    }

    // Writes what waits for the control plane, as far as the link takes it.
    fn write_out(&mut self) -> io::Result<()> {
        for _ in 0..WRITES {
            let out = self.tunnel.out();
            if out.is_empty() {
                return Ok(());
            }
            let most = out.len();
            match self.link.write(out) {
                Ok(0) => return Err(io::Error::from(ErrorKind::WriteZero)),
                Ok(count) => {
                    self.tunnel.sent(count.min(most));
                    self.tunnel.work(self.alloc);
                }
                Err(error) if error.kind() == ErrorKind::WouldBlock => return Ok(()),
                Err(error) => return Err(error),
            }
        }
        Ok(())
    }

    // Has the tunnel take what was read, and answers it.
    fn take_kept(&mut self) -> io::Result<()> {
        for _ in 0..u64::MAX {
            if self.kept.is_empty() {
                return Ok(());
            }
            let count = self.tunnel.receive(self.alloc, &self.kept)?;
            if count == 0 {
                return Ok(());
            }
            let count = count.min(self.kept.len());
            self.kept.drain(..count);
            self.write_out()?;
        }
        Ok(())
    }

    // Gives the first data to whoever reads.
    fn give(&mut self, buf: &mut [u8]) -> io::Result<usize>
        ensures { IfOk result (λ n. n ≤ length buf.new) }
    {
        let data = self.tunnel.data();
        let count = data.len().min(buf.len());
        buf[..count].copy_from_slice(&data[..count]);
        self.tunnel.take(self.alloc, count)?;
        self.write_out()?;
        Ok(count)
    }

    // Reads the link once. Returns whether bytes came.
    fn read_link(&mut self) -> io::Result<bool> {
        let mut room = [0u8; CHUNK];
        let count = self.link.read(&mut room)?;
        if count == 0 {
            return Ok(false);
        }
        self.heard = self.shared.clock.get();
        self.asked = None;
        self.kept.extend_from_slice(&room[..count])?;
        self.take_kept()?;
        Ok(true)
    }

    // Sends as many bytes as the control plane's windows allow. While they allow none, it reads on, since the control plane
    // opens them by what it sends.
    fn say(&mut self, buf: &[u8]) -> io::Result<usize>
        ensures { IfOk result (λ n. n ≤ length buf.now) }
    {
        for _ in 0..READS {
            let count = self.tunnel.say(self.alloc, buf)?;
            if count > 0 || !self.hear()? {
                return Ok(count);
            }
        }
        Ok(0)
    }

    // Reads the link once, if the tunnel takes what it sends. Returns whether bytes came.
    fn hear(&mut self) -> io::Result<bool> {
        self.take_kept()?;
        if let Some(error) = self.end() {
            return Err(error);
        }
        if !self.kept.is_empty() {
            return Ok(false);
        }
        match self.read_link() {
            Ok(true) => Ok(true),
            Ok(false) => Err(io::Error::from(ErrorKind::UnexpectedEof)),
            Err(error) if error.kind() == ErrorKind::WouldBlock => Ok(false),
            Err(error) => Err(error),
        }
    }

    // The error that the end of the call is, if it is over. Its words are reported.
    fn end(&self) -> Option<io::Error> {
        if self.is_silent {
            self.tell(String::from_str(self.alloc, "no answer to a PING"));
            return Some(io::Error::from(ErrorKind::TimedOut));
        }
        let end = self.tunnel.end()?;
        self.tell(words_of(self.alloc, end, &self.tunnel));
        Some(io::Error::from(kind_of(end)))
    }

    // Reports why the call ended. Without memory it reports nothing.
    fn tell(&self, words: Result<String, AllocError>) {
        self.shared.end_words.set(words.ok());
    }
}

impl Read for GrpcStream {
    /// The data of the call, after at most one read of the link. Fails with `Interrupted` if what came are no data, and with
    /// `WouldBlock` while the control plane does not take what answers it. Fails with the cause once the call is over.
    fn read(&mut self, buf: &mut [u8]) -> io::Result<usize> {
        self.watch();
        self.write_out()?;
        self.take_kept()?;
        if self.tunnel.data().is_empty() {
            if let Some(error) = self.end() {
                return Err(error);
            }
            if !self.kept.is_empty() {
                return Err(io::Error::from(ErrorKind::WouldBlock));
            }
            if !self.read_link()? {
                return Ok(0);
            }
        }
        if !self.tunnel.data().is_empty() {
            return self.give(buf);
        }
        match self.end() {
            Some(error) => Err(error),
            None => Err(io::Error::from(ErrorKind::Interrupted)),
        }
    }
}

impl Write for GrpcStream {
    /// Sends bytes as data of the call. Fails with `WouldBlock` while the control plane's windows allow none.
    fn write(&mut self, buf: &[u8]) -> io::Result<usize> {
        self.write_out()?;
        if buf.is_empty() {
            return Ok(0);
        }
        let count = self.say(buf)?;
        self.write_out()?;
        if count == 0 {
            return Err(io::Error::from(ErrorKind::WouldBlock));
        }
        Ok(count)
    }

    fn flush(&mut self) -> io::Result<()> {
        Ok(())
    }
}
