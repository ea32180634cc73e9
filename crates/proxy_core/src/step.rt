//! The effect of an event on a proxy.

ghost use Rattle.std.specs.Prelude.{◌≡◌, ◌<◌, [], None, Some, false, true, IfOk, IfSome, IsOk, OnErr, MatchBool, MatchOption};
ghost use Rattle.attributes.specs.Conn.{conn_view};
ghost use Rattle.ads.specs.Ends.{client_view};
ghost use Rattle.ads.specs.Judgements.{ReportsJudgementsBy};
ghost use Rattle.http_front.specs.Front.{HasNoAsk, fed_front};
ghost use Rattle.proxy_core.specs.Events.{ads_bytes, ads_output, ads_up, event_view, http_bytes, http_open, http_output, no_output, output_view};
ghost use Rattle.proxy_core.specs.Proxies.{proxy_view};
ghost use Rattle.proxy_core.specs.Step.{OpensAt, StepsBy, TakesAds, TakesHttp, TakesNoMemory, front_at, new_proxy, with_conn};
ghost use Rattle.proxy_core.specs.private.Fronts.{IsOpenFor, KeepsAt};

use crate::answering::{open_front, take_bytes};
use crate::event::{Event, Output};
use crate::proxy::Proxy;
use ads::{Client, Config, Ended, Judgement};
use attributes::Conn;
use http_front::Front;
use std::alloc::{AllocError, Global};

// The greatest number of connections.
const PLACES: u64 = 8;

impl Output {
    // The output that sends and closes nothing.
    fn none(alloc: Global) -> Output
        ensures { output_view result ≡ no_output }
    {
        Output {
            ads: Vec::new(alloc),
            ads_close: false,
            http: Vec::new(alloc),
            http_close: false,
        }
    }

    // The output that only sends bytes on the update stream, and may close it.
    fn on_ads(alloc: Global, ads: Vec<u8>, ads_close: bool) -> Output
        ensures { output_view result ≡ ads_output ads.items ads_close }
    {
        Output {
            ads,
            ads_close,
            http: Vec::new(alloc),
            http_close: false,
        }
    }

    // The output that only sends bytes on the event's connection, and may close it.
    fn on_http(alloc: Global, http: Vec<u8>, http_close: bool) -> Output
        ensures { output_view result ≡ http_output http.items http_close }
    {
        Output {
            ads: Vec::new(alloc),
            ads_close: false,
            http,
            http_close,
        }
    }
}

impl Proxy {
    /// A proxy with this configuration, to which nothing has happened. The error means out of memory.
    pub fn new(alloc: Global, config: Config) -> Result<Proxy, AllocError>
        ensures { IfOk result (λ p. proxy_view p ≡ new_proxy config) }
    {
        let client = Client::new(alloc, &config)?;
        Ok(Proxy {
            alloc,
            client,
            conns: [None, None, None, None, None, None, None, None],
        })
    }

    /// The client of the update stream, with its accepted policies and the number of accepted responses.
    pub fn client(&self) -> &Client
        ensures { client_view result.now ≡ (proxy_view self.now).client }
    {
        &self.client
    }

    /// Takes an event, and returns what to send. Bytes and closes of a connection or stream that is not open do
    /// nothing. A request that is completed is judged by what was accepted in earlier events. After an error all is as
    /// before the call. An event that only loses or closes takes no memory, and neither does one that does nothing.
    pub fn step(&mut self, event: Event<'_>) -> Result<Output, AllocError>
        ensures found { IfOk result (λ out.
            StepsBy (proxy_view self.old) (event_view event.entry) (output_view out) (proxy_view self.new)) }
        ensures fault { OnErr result (proxy_view self.new ≡ proxy_view self.old) }
        ensures sure { TakesNoMemory (proxy_view self.old) (event_view event.entry) → IsOk result }
    {
        match event {
            Event::AdsUp => self.ads_up(),
            Event::AdsBytes(bytes) => self.ads_bytes(bytes),
            Event::AdsLost => {
                self.client.lost();
                Ok(Output::none(self.alloc))
            }
            Event::HttpOpen(k, conn) => self.http_open(k, conn),
            Event::HttpBytes(k, bytes) => self.http_bytes(k, bytes),
            Event::HttpClosed(k) => {
                self.put(k, None);
                Ok(Output::none(self.alloc))
            }
        }
    }

    /// Takes the event that the update stream delivers bytes, as `step` does. Also returns the judgements of the
    /// responses that the bytes complete, for a log: one for each request in the output, in the same order. The last
    /// part of the result says why no stream is up afterwards; None if one is.
    pub fn receive_updates(
        &mut self,
        bytes: &[u8],
    ) -> Result<(Output, Vec<Judgement>, Option<Ended>), AllocError>
        ensures found { IfOk result (λ r.
            StepsBy (proxy_view self.old) (ads_bytes bytes.now) (output_view r.0) (proxy_view self.new)) }
        ensures judged { IfOk result (λ r. let client = (proxy_view self.old).client in
            ReportsJudgementsBy client.stream client bytes.now r.0.ads.items r.1.items r.2 (proxy_view self.new).client) }
        ensures fault { OnErr result (proxy_view self.new ≡ proxy_view self.old) }
        ensures sure { TakesNoMemory (proxy_view self.old) (ads_bytes bytes.now) → IsOk result }
    {
        if !self.client.is_up() {
            return Ok((
                Output::none(self.alloc),
                Vec::new(self.alloc),
                Some(Ended::NotUp),
            ));
        }
        let fed = self.client.feed(bytes)?;
        let output = Output::on_ads(self.alloc, fed.replies, fed.ended.is_some());
        Ok((output, fed.judgements, fed.ended))
    }

    // The update stream comes up.
    fn ads_up(&mut self) -> Result<Output, AllocError>
        ensures found { IfOk result (λ out.
            StepsBy (proxy_view self.old) ads_up (output_view out) (proxy_view self.new)) }
        ensures fault { OnErr result (proxy_view self.new ≡ proxy_view self.old) }
    {
        let ads = self.client.connected()?;
        Ok(Output::on_ads(self.alloc, ads, false))
    }

    // The update stream delivers bytes. If it is not up, no memory is taken.
    fn ads_bytes(&mut self, bytes: &[u8]) -> Result<Output, AllocError>
        ensures found { IfOk result (λ out. TakesAds (client_view self.old.client).stream (proxy_view self.old) bytes.now
            (output_view out) (proxy_view self.new)) }
        ensures fault { OnErr result (proxy_view self.new ≡ proxy_view self.old) }
        ensures sure { TakesNoMemory (proxy_view self.old) (ads_bytes bytes.now) → IsOk result }
    {
        match self.receive_updates(bytes) {
            Ok((output, _, _)) => Ok(output),
            Err(AllocError) => Err(AllocError),
        }
    }

    // A connection opens in place `k`; it is closed at once if its facts are outside the limits. If it does not open, no
    // memory is taken.
    fn http_open(&mut self, k: u64, conn: &Conn) -> Result<Output, AllocError>
        ensures found { IfOk result (λ out.
            OpensAt (proxy_view self.old) k (conn_view conn.now) (output_view out) (proxy_view self.new)) }
        ensures fault { OnErr result (proxy_view self.new ≡ proxy_view self.old) }
        ensures sure { TakesNoMemory (proxy_view self.old) (http_open k (conn_view conn.now)) → IsOk result }
    {
        if k >= PLACES {
            return Ok(Output::none(self.alloc));
        }
        let front = open_front(self.alloc, &self.client, conn)?;
        let http_close = front.is_none();
        self.put(k, front);
        Ok(Output::on_http(self.alloc, Vec::new(self.alloc), http_close))
    }

    // A connection delivers bytes. If it is not open, no memory is taken.
    fn http_bytes(&mut self, k: u64, bytes: &[u8]) -> Result<Output, AllocError>
        ensures found { IfOk result (λ out. TakesHttp (front_at (proxy_view self.old) k) (proxy_view self.old) k bytes.now
            (output_view out) (proxy_view self.new)) }
        ensures fault { OnErr result (proxy_view self.new ≡ proxy_view self.old) }
        ensures sure { TakesNoMemory (proxy_view self.old) (http_bytes k bytes.now) → IsOk result }
    {
        if self.keeps(k, bytes)? {
            return Ok(Output::none(self.alloc));
        }
        let Some(front) = self.front(k) else {
            return Ok(Output::none(self.alloc));
        };
        let front = front.copy()?;
        let (http, front, _) = take_bytes(self.alloc, &self.client, front, bytes)?;
        let http_close = front.is_none();
        self.put(k, front);
        Ok(Output::on_http(self.alloc, http, http_close))
    }

    // Takes the bytes if the connection is open and they complete no ask, and returns whether it took them. If it did
    // not, and after an error, all is as before the call. If the connection is not open, no memory is taken.
    fn keeps(&mut self, k: u64, bytes: &[u8]) -> Result<bool, AllocError>
        ensures kept { IfOk result (λ kept. MatchBool kept
            (KeepsAt (proxy_view self.old) k bytes.now (proxy_view self.new))
            (proxy_view self.new ≡ proxy_view self.old)) }
        ensures fault { OnErr result (proxy_view self.new ≡ proxy_view self.old) }
        ensures sure { front_at (proxy_view self.old) k ≡ None → IsOk result }
    {
        let Some(mut front) = self.take(k) else {
            return Ok(false);
        };
        let kept = kept_by(&mut front, bytes);
        self.put(k, Some(front));
        kept
    }

    // Takes the front out of a place.
    fn take(&mut self, k: u64) -> Option<Front>
        ensures taken { result ≡ front_at (proxy_view self.old) k }
        ensures fits { IsOpenFor (client_view self.old.client).config.limits result }
        ensures left { proxy_view self.new ≡ with_conn (proxy_view self.old) k None }
        ensures client { self.new.client ≡ self.old.client }
    {
        if k < PLACES {
            return self.conns[k as usize].take();
        }
        None
    }

    // The front in a place, if a connection is open there.
    fn front(&self, k: u64) -> Option<&Front>
        ensures found { let found = front_at (proxy_view self.now) k in
            MatchOption result (found ≡ None) (λ f. found ≡ Some f.now) }
        ensures fits { IfSome result (λ f. IsOpenFor (client_view self.now.client).config.limits (Some f.now)) }
    {
        match self.conns.get(k as usize) {
            Some(Some(front)) => Some(front),
            Some(None) => None,
            None => None,
        }
    }

    // Puts a front, or none, in a place; if there is no such place, nothing changes.
    fn put(&mut self, k: u64, front: Option<Front>)
        requires { IsOpenFor (client_view self.old.client).config.limits front }
        ensures put { proxy_view self.new ≡ with_conn (proxy_view self.old) k front }
        ensures client { self.new.client ≡ self.old.client }
    {
        if k < PLACES {
            self.conns[k as usize] = front;
        }
    }
}

/// Feeds a front the bytes if they complete no ask, and returns whether it did. If it did not, and after an error, all
/// is as before the call.
pub(crate) fn kept_by(front: &mut Front, bytes: &[u8]) -> Result<bool, AllocError>
    ensures kept { IfOk result (λ kept. MatchBool kept
        (HasNoAsk (fed_front front.old bytes.now) × (front.new ≡ fed_front front.old bytes.now))
        (front.new ≡ front.old)) }
    ensures fault { OnErr result (front.new ≡ front.old) }
{
    front.keeps(bytes)
}
