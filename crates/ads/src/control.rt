//! The control plane's end of the update stream.

ghost use Rattle.std.specs.Prelude.{◌≡◌, ℕ, None, List, is_some, IfOk, IsOk, OnErr};

use crate::ended::Ended;
use crate::exchange::Exchange;
use crate::serving::Served;
use crate::snapshot::Snapshot;
use crate::stream::{Stream, served_by};
use std::alloc::{AllocError, Global};

/// The result of a call with bytes of a client's stream.
#[derive(Debug, Drop)]
pub struct Replied {
    /// The bytes to send, in whole frames.
    pub replies: Vec<u8>,
    /// The requests that were complete, in order, with the responses that were sent for them.
    pub exchanges: Vec<Exchange>,
    /// Whether no stream is up after the call.
    pub broken: bool,
    /// Why no stream is up after the call. None if one is up.
    pub ended: Option<Ended>,
}

/// A control plane that serves snapshots to one client in order, the next after each answer (xDS, state of the world).
/// It has no socket: bytes of the stream go in, and bytes to send come out.
#[derive(Debug, Drop)]
pub struct Control {
    alloc: Global,
    snapshots: Vec<Snapshot>,
    stream: Option<Stream>,
    served: Served,
}

impl Control {
    ghost use Rattle.ads.specs.Control.{ServesBytes, new_control, stream_lost};
    ghost use Rattle.ads.specs.Ends.{control_view};
    ghost use Rattle.ads.specs.Exchanges.{ReportsExchangesBy};
    ghost use Rattle.ads.specs.Views.{snapshots_view};
    /// A control plane of these snapshots, numbered from 1, that has received no request. It takes no memory.
    pub fn new(alloc: Global, snapshots: Vec<Snapshot>) -> Control
        ensures { control_view result ≡ new_control (snapshots_view snapshots.items) }
    {
        Control {
            alloc,
            snapshots,
            stream: Some(Stream::new(alloc)),
            served: Served {
                current: 1,
                sent: 0,
                last: None,
                acknowledged: None,
            },
        }
    }

    /// The stream delivers bytes. Each request that they complete is served, in order. The stream ends at a broken
    /// frame and at a message that is not a request. It also ends at a response that is too long, or whose number does
    /// not fit in 64 bits. The result says why. From then on nothing is sent until it is `lost`, which takes no memory.
    /// The only error is out of memory; after it all is as before the call.
    pub fn feed(&mut self, bytes: &[u8]) -> Result<Replied, AllocError>
        ensures found { IfOk result (λ fed. (numbers : List ℕ)
            × ServesBytes (control_view self.old) bytes.now fed.replies.items (is_some fed.ended) numbers
            (control_view self.new)) }
        ensures reported { IfOk result (λ fed. ReportsExchangesBy (control_view self.old).stream (control_view self.old) bytes.now
            fed.replies.items fed.exchanges.items fed.ended (control_view self.new)) }
        ensures agree { IfOk result (λ fed. fed.broken ≡ is_some fed.ended) }
        ensures broken { (control_view self.old).stream ≡ None → IsOk result }
        ensures fault { OnErr result (control_view self.new ≡ control_view self.old) }
    {
        let Some(stream) = &mut self.stream else {
            return Ok(Replied {
                replies: Vec::new(self.alloc),
                exchanges: Vec::new(self.alloc),
                broken: true,
                ended: Some(Ended::NotUp),
            });
        };
        if stream.keeps(bytes)? {
            return Ok(Replied {
                replies: Vec::new(self.alloc),
                exchanges: Vec::new(self.alloc),
                broken: false,
                ended: None,
            });
        }
        let (serving, stream, ended) = served_by(
            self.alloc,
            &self.snapshots,
            self.served,
            stream,
            bytes,
        )?;
        self.stream = stream;
        self.served = serving.served;
        let broken = ended.is_some();
        Ok(Replied {
            replies: serving.replies,
            exchanges: serving.exchanges,
            broken,
            ended,
        })
    }

    /// The stream is lost, with its unfinished bytes, and the next one begins. What was acknowledged stays, and the
    /// current snapshot is sent again. It takes no memory.
    pub fn lost(&mut self)
        ensures { control_view self.new ≡ stream_lost (control_view self.old) }
    {
        self.stream = Some(Stream::new(self.alloc));
        self.served.last = None;
    }

    /// The number of the last acknowledged snapshot; None if none was acknowledged. It takes no memory.
    pub fn acknowledged(&self) -> Option<u64>
        ensures { result ≡ (control_view self.now).served.acknowledged }
    {
        self.served.acknowledged
    }
}
