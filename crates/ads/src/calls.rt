//! The calls on a client: its stream comes up, delivers bytes, and is lost.

ghost use Rattle.std.specs.Prelude.{◌≡◌, ◌<◌, ◌≤◌, ℕ, List, length, None, Some, [], IfOk, IfSome, IsOk, OnOk, OnErr, MatchOption, is_some};
ghost use Rattle.std.specs.List.{AllZip};
ghost use Rattle.rbac_policy.specs.Admitted.{limits_view};
ghost use Rattle.ads.specs.Views.{admitted_view, policies_view};
ghost use Rattle.ads.specs.Answer.{first_request};
ghost use Rattle.ads.specs.Client.{IsFrameThen};

use crate::accepted::State;
use crate::client::{Client, Fed};
use crate::config::Config;
use crate::ended::Ended;
use crate::reply::put_first;
use crate::stream::{Stream, answered};
use rbac_policy::Admitted;
use std::alloc::{AllocError, Global};

impl Client {
    ghost use Rattle.ads.specs.Client.{CompletesOne, Feeds, WasAdmitted, WasAdmittedAs, new_client, policies_of, stream_down, stream_up};
    ghost use Rattle.ads.specs.Ends.{client_view};
    ghost use Rattle.ads.specs.Judgements.{ReportsJudgementsBy};
    /// A client that has accepted nothing, and whose stream is down. The only error is out of memory.
    pub fn new(alloc: Global, config: &Config) -> Result<Client, AllocError>
        ensures { IfOk result (λ c. client_view c ≡ new_client config.now) }
    {
        let accepted = State::new(alloc, config)?;
        let config = config.copy()?;
        Ok(Client {
            alloc,
            config,
            stream: None,
            accepted,
        })
    }

    /// A stream comes up: returns the bytes to send first. If a stream is up, it is lost first. The only error is out
    /// of memory; after it all is as before the call.
    pub fn connected(&mut self) -> Result<Vec<u8>, AllocError>
        ensures found { IfOk result (λ bytes.
            IsFrameThen (first_request self.old.config (client_view self.old).accepted) bytes.items []) }
        ensures up { OnOk result (client_view self.new ≡ stream_up (client_view self.old)) }
        ensures fault { OnErr result (client_view self.new ≡ client_view self.old) }
    {
        let mut bytes = Vec::new(self.alloc);
        put_first(self.alloc, &self.config, &self.accepted.version, &mut bytes)?;
        self.stream = Some(Stream::new(self.alloc));
        Ok(bytes)
    }

    /// The stream delivers bytes. Each response that they complete is answered, in order: it is accepted, or refused
    /// with the number of a refusal. That is `WrongType`, `BadWire`, `BadText`, `Missing`, `DuplicateResource` or one
    /// of `rbac_policy::admit`, which include `Memory`. Its judgement says which filter is refused, and which part of its
    /// message has the fault. A broken frame or a message that is not a response ends the stream. Without a stream
    /// nothing is done, which takes no memory. In these cases the result says why no stream is up. The only error is
    /// out of memory outside of an admission; after it all is as before the call.
    pub fn feed(&mut self, bytes: &[u8]) -> Result<Fed, AllocError>
        ensures found { IfOk result (λ fed. (versions : List (List ℕ))
            × Feeds (client_view self.old) bytes.now fed.replies.items (is_some fed.ended) versions
            (client_view self.new)) }
        ensures judged { IfOk result (λ fed. ReportsJudgementsBy (client_view self.old).stream (client_view self.old) bytes.now
            fed.replies.items fed.judgements.items fed.ended (client_view self.new)) }
        ensures agree { IfOk result (λ fed. fed.broken ≡ is_some fed.ended) }
        ensures config { (client_view self.new).config ≡ (client_view self.old).config }
        ensures down { (client_view self.old).stream ≡ None → IsOk result }
        ensures fault { OnErr result (client_view self.new ≡ client_view self.old) }
    {
        let Some(stream) = &mut self.stream else {
            return Ok(Fed {
                replies: Vec::new(self.alloc),
                judgements: Vec::new(self.alloc),
                broken: true,
                ended: Some(Ended::NotUp),
            });
        };
        if stream.keeps(bytes)? {
            return Ok(Fed {
                replies: Vec::new(self.alloc),
                judgements: Vec::new(self.alloc),
                broken: false,
                ended: None,
            });
        }
        let (draft, stream, ended) = answered(
            self.alloc,
            &self.config,
            &self.accepted,
            stream,
            bytes,
        )?;
        self.stream = stream;
        let (replies, judgements) = self.accepted.commit(draft);
        let broken = ended.is_some();
        Ok(Fed {
            replies,
            judgements,
            broken,
            ended,
        })
    }

    /// How many bytes of the stream complete at most one message, at least 1. If no more are fed at once, at most one
    /// response is answered. It takes no memory.
    pub fn lacks(&self) -> usize
        ensures some { 0 < result }
        ensures one { (bytes : List ℕ) → length bytes ≤ result → CompletesOne (client_view self.now) bytes }
    {
        match &self.stream {
            Some(stream) => stream.lacks(),
            None => 1,
        }
    }

    /// The stream is lost, with its unfinished bytes. What was accepted stays. It takes no memory.
    pub fn lost(&mut self)
        ensures { client_view self.new ≡ stream_down (client_view self.old) }
    {
        self.stream = None;
    }

    /// The filter of this name, as it was last accepted. It was admitted for the configuration's limits, under the
    /// filter's budget. None if no filter has the name or nothing was accepted for it. It takes no memory.
    pub fn current(&self, name: &str) -> Option<&Admitted>
        ensures found { let found = policies_of (client_view self.now) name.now in
            MatchOption result (found ≡ None) (λ a. found ≡ Some (admitted_view a.now)) }
        ensures limits { IfSome result (λ a. limits_view a.now ≡ (client_view self.now).config.limits) }
        ensures admitted { IfSome result (λ a.
            ∥ WasAdmittedAs (client_view self.now).config name.now (admitted_view a.now) ∥₁) }
    {
        let Some(place) = self.config.filters().get_index_of(name) else {
            return None;
        };
        match self.accepted.policies.get(place) {
            Some(Some(admitted)) => Some(admitted),
            Some(None) => None,
            None => None,
        }
    }

    /// The policies of each filter, in configured order, as they were last accepted; None if nothing was accepted for
    /// it. Each was admitted for the configuration's limits, under the filter's budget. It takes no memory.
    pub fn policies(&self) -> &[Option<Admitted>]
        ensures found { policies_view result.now ≡ (client_view self.now).accepted.policies }
        ensures admitted { ∥ AllZip (WasAdmitted (client_view self.now).config.limits)
            (client_view self.now).config.filters (client_view self.now).accepted.policies ∥₁ }
    {
        &self.accepted.policies
    }

    /// Whether a stream is up. It takes no memory.
    pub fn is_up(&self) -> bool
        ensures { result ≡ is_some (client_view self.now).stream }
    {
        self.stream.is_some()
    }

    /// The configuration. It takes no memory.
    pub fn config(&self) -> &Config
        ensures { result.now ≡ (client_view self.now).config }
    {
        &self.config
    }

    /// The number of accepted responses, at most 2^64 - 1. It takes no memory.
    pub fn generation(&self) -> u64
        ensures { result ≡ (client_view self.now).accepted.generation }
    {
        self.accepted.generation
    }
}
