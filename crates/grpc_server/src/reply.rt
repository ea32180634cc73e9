//! The answer of a unary call, written as far as the client's windows allow.

use crate::answer::opening;
use crate::message::{StatusCode, content_of, ending};
use http2::{Answering, Fault, UnaryServer};
use std::alloc::{AllocError, Global};

/// How far an answer is written.
#[derive(Clone, Copy, Debug, PartialEq, Eq)]
pub enum Written {
    /// All is written.
    Whole,
    /// The rest waits for the client: later.
    Part,
    /// The call is over, and nothing more is written.
    Gone,
}

/// The answer of a unary call: one message and OK, or another code without a message.
#[derive(Debug, Drop)]
pub struct Reply {
    stream: u32,
    // the message with its head, and how much of it was written
    content: Vec<u8>,
    at: usize,
    // whether the fields that begin the answer were written
    begun: bool,
    code: StatusCode,
}

impl Reply {
    ghost use Rattle.std.specs.Prelude.{◌≡◌, ◌≤◌, ◌<◌, ◌⊎◌, ◌^◌, List, ℕ, [], Ok, true, false, IfOk, OnOk, length};
    ghost use Rattle.grpc_server.specs.Messages.{message_in};
    ghost use Rattle.grpc_server.specs.Replies.{IsFresh, Writes};
    ghost use Rattle.grpc_server.specs.private.Replying.{Begins, Sends, IsStuck};
    ghost use Rattle.grpc_server.specs.declared.message.StatusCode.TheVariants.{Done};

    /// The answer that is this message.
    pub fn message(alloc: Global, stream: u32, message: &[u8]) -> Result<Reply, AllocError>
        requires { length message.now < 2 ^ 32 }
        ensures { IfOk result (λ r. (content : List ℕ) × (message_in content ≡ Ok message.now) × IsFresh stream content Done r) }
    {
        Ok(Reply {
            stream,
            content: content_of(alloc, message)?,
            at: 0,
            begun: false,
            code: StatusCode::Done,
        })
    }

    /// The answer that has no message, and ends with this code.
    pub fn code(alloc: Global, stream: u32, code: StatusCode) -> Reply
        ensures { IsFresh stream [] code result }
    {
        Reply {
            stream,
            content: Vec::new(alloc),
            at: 0,
            begun: false,
            code,
        }
    }

    /// Writes as much as the client's windows and the bytes that wait allow.
    pub fn write(&mut self, alloc: Global, server: &mut UnaryServer) -> Result<Written, Fault>
        ensures { Writes self.old self.new server.old server.new result }
    {
        if self.begun {
            return self.go_on(alloc, server);
        }
        match self.begin(alloc, server)? {
            Answering::Written => self.go_on(alloc, server),
            Answering::Waits => Ok(Written::Part),
            Answering::Gone => Ok(Written::Gone),
        }
    }

    // Writes the fields that begin the answer.
    fn begin(&mut self, alloc: Global, server: &mut UnaryServer) -> Result<Answering, Fault>
        requires { self.old.begun ≡ false }
        ensures { Begins self.old self.new server.old server.new result }
    {
        let fields = opening(alloc)?;
        match server.answer(alloc, self.stream, &fields)? {
            Answering::Written => {
                self.begun = true;
                Ok(Answering::Written)
            }
            Answering::Waits => Ok(Answering::Waits),
            Answering::Gone => Ok(Answering::Gone),
        }
    }

    // Writes what follows the fields that begin the answer.
    fn go_on(&mut self, alloc: Global, server: &mut UnaryServer) -> Result<Written, Fault>
        requires { self.old.begun ≡ true }
        ensures { Writes self.old self.new server.old server.new result }
    {
        self.say(alloc, server)?;
        if self.at < self.content.len() {
            return Ok(if server.is_due(self.stream) {
                Written::Part
            } else {
                Written::Gone
            });
        }
        let fields = ending(alloc, self.code)?;
        match server.finish(alloc, self.stream, &fields)? {
            Answering::Written => Ok(Written::Whole),
            Answering::Waits => Ok(Written::Part),
            Answering::Gone => Ok(Written::Gone),
        }
    }

    // Writes content, frame after frame.
    fn say(&mut self, alloc: Global, server: &mut UnaryServer) -> Result<(), Fault>
        ensures sends { Sends self.old self.new server.old server.new }
        ensures all { OnOk result ((length self.old.content.items ≤ self.new.at) ⊎ IsStuck self.old.stream server.new) }
    {
        'frames: while self.at < self.content.len() {
            let count = server.say(alloc, self.stream, &self.content[self.at..])?;
            if count == 0 {
                return Ok(());
            }
            self.at += count;
        }
        Ok(())
    }
}
