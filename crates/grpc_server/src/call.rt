//! A call, and the link on which it is.
ghost use Rattle.std.specs.Prelude.{◌≤◌, IfOk, length};

use crate::answer::{Status, is_served, opening, refusal, trailers};
use http2::{Fault, Server};
use std::alloc::{AllocError, Global};
use std::io::{self, ErrorKind, Read, Write};

// How many bytes are read from the client at once.
const CHUNK: usize = 16_384;

// How often the client is read once its call is over.
const READS: u8 = 64;

// How far the answer is.
#[derive(Clone, Copy, PartialEq, Eq)]
enum Progress {
    // The request has not come.
    Waiting,
    // The answer has begun.
    Begun,
    // The request is no call of a method that is served, and was refused.
    Refused,
}

/// A call that is served, and the ends of its link.
#[derive(Drop)]
pub(crate) struct Call<R: Read + Drop, W: Write + Drop> {
    alloc: Global,
    reader: R,
    writer: W,
    server: Server,
    // what was read and is not taken by the server yet
    kept: Vec<u8>,
    progress: Progress,
}

impl<R: Read + Drop, W: Write + Drop> Call<R, W> {
    /// A call on a link of which nothing was read.
    pub(crate) fn new(alloc: Global, reader: R, writer: W) -> Result<Call<R, W>, AllocError> {
        Ok(Call {
            alloc,
            reader,
            writer,
            server: Server::new(alloc)?,
            kept: Vec::new(alloc),
            progress: Progress::Waiting,
        })
    }

    /// The client's data, once some are there; 0 after the last of them. The answer has then ended.
    pub(crate) fn read(&mut self, buf: &mut [u8]) -> io::Result<usize>
        ensures { IfOk result (λ n. n ≤ length buf.new) }
    {
        for _ in 0..u64::MAX {
            self.begin()?;
            if !self.server.data().is_empty() {
                return self.give(buf);
            }
            if self.server.is_closed() {
                self.end(Status::Done);
                return Ok(0);
            }
            self.hear()?;
        }
        Ok(0)
    }

    /// Sends as many bytes as the client's windows allow. While they allow none, it reads on, since the client opens them by
    /// what it sends.
    pub(crate) fn write(&mut self, buf: &[u8]) -> io::Result<usize>
        ensures { IfOk result (λ n. n ≤ length buf.now) }
    {
        if buf.is_empty() {
            return Ok(0);
        }
        for _ in 0..u64::MAX {
            self.begin()?;
            self.write_out()?;
            let count = self.server.say(self.alloc, buf)?;
            if count > 0 {
                self.write_out()?;
                return Ok(count);
            }
            self.hear()?;
        }
        Ok(0)
    }

    /// Ends the answer, unless it has ended. Then the client is read, as long as it sends, so that it can read what was written.
    pub(crate) fn end(&mut self, status: Status) {
        if self.server.over().is_none() && self.write_trailers(status).is_err() {
            return;
        }
        if self.write_out().is_err() {
            return;
        }
        let mut room = [0u8; CHUNK];
        for _ in 0..READS {
            match self.reader.read(&mut room) {
                Ok(0) | Err(_) => return,
                Ok(_) => {}
            }
        }
    }

    // Writes the fields that end the answer.
    fn write_trailers(&mut self, status: Status) -> io::Result<()> {
        let fields = trailers(self.alloc, status)?;
        self.write_out()?;
        written(self.server.finish(self.alloc, &fields))
    }

    // Begins the answer, once the request came. Fails if the request is refused.
    fn begin(&mut self) -> io::Result<()> {
        match self.progress {
            Progress::Begun => return Ok(()),
            Progress::Refused => return Err(io::Error::from(ErrorKind::Unsupported)),
            Progress::Waiting => {}
        }
        let Some(request) = self.server.request() else {
            return Ok(());
        };
        if !is_served(request) {
            return self.refuse();
        }
        let fields = opening(self.alloc)?;
        written(self.server.answer(self.alloc, &fields))?;
        self.progress = Progress::Begun;
        self.write_out()
    }

    // Refuses the request.
    fn refuse(&mut self) -> io::Result<()> {
        self.progress = Progress::Refused;
        let fields = refusal(self.alloc)?;
        written(self.server.finish(self.alloc, &fields))?;
        self.write_out()?;
        Err(io::Error::from(ErrorKind::Unsupported))
    }

    // Gives the first data to whoever reads.
    fn give(&mut self, buf: &mut [u8]) -> io::Result<usize>
        ensures { IfOk result (λ n. n ≤ length buf.new) }
    {
        let data = self.server.data();
        let count = data.len().min(buf.len());
        buf[..count].copy_from_slice(&data[..count]);
        self.server.take(self.alloc, count)?;
        self.write_out()?;
        Ok(count)
    }

    // Reads the link once, and answers what came. Fails once the call is over.
    fn hear(&mut self) -> io::Result<()> {
        if self.server.over().is_some() {
            return Err(io::Error::from(ErrorKind::ConnectionReset));
        }
        if self.kept.is_empty() {
            self.read_link()?;
        }
        let count = self.server.receive(self.alloc, &self.kept)?;
        let count = count.min(self.kept.len());
        self.kept.drain(..count);
        self.write_out()
    }

    // Reads the link once.
    fn read_link(&mut self) -> io::Result<()> {
        let mut room = [0u8; CHUNK];
        let count = self.reader.read(&mut room)?;
        if count == 0 {
            return Err(io::Error::from(ErrorKind::UnexpectedEof));
        }
        self.kept.extend_from_slice(&room[..count])?;
        Ok(())
    }

    // Writes what waits for the client.
    fn write_out(&mut self) -> io::Result<()> {
        for _ in 0..u64::MAX {
            let out = self.server.out();
            if out.is_empty() {
                return Ok(());
            }
            let most = out.len();
            let count = self.writer.write(out)?;
            if count == 0 {
                return Err(io::Error::from(ErrorKind::WriteZero));
            }
            self.server.sent(count.min(most));
            self.server.work(self.alloc);
        }
        Ok(())
    }
}

// Whether fields were written. If not, memory ran out, or the call is over.
fn written(done: Result<bool, Fault>) -> io::Result<()> {
    match done {
        Ok(true) => Ok(()),
        Ok(false) => Err(io::Error::from(ErrorKind::ConnectionReset)),
        Err(_) => Err(io::Error::from(ErrorKind::OutOfMemory)),
    }
}
