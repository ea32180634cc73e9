//! What a server of unary calls may write on a stream, and what that changes.

ghost use Rattle.std.specs.Prelude.{◌≡◌, ◌≤◌, ◌<◌, OnOk, IsTrue, ◌+◌};
ghost use Rattle.http2.specs.Streams.{find};
ghost use Rattle.http2.specs.Exchange.{beside};
ghost use Rattle.http2.specs.Exchanged.{can_begin, can_end, room_on, changed, headed, charged, closed};
ghost use Rattle.http2.specs.Exchanges.{exchange_view};

use crate::accounts::left;
use crate::exchange::Exchange;
use std::alloc::AllocError;

impl Exchange {
    /// Whether an answer may begin on the stream: its call is whole, and has none.
    pub(crate) fn can_begin(&self, number: u32) -> bool
        ensures found { result ≡ can_begin (find number (exchange_view self.now).streams) }
        ensures small { IsTrue result → number < 2147483648 }
    {
        match self.streams.get(number) {
            Some(stream) => stream.request.is_none() && !stream.begun,
            None => false,
        }
    }

    /// Whether an answer may end on the stream: its call is whole.
    pub(crate) fn can_end(&self, number: u32) -> bool
        ensures found { result ≡ can_end (find number (exchange_view self.now).streams) }
        ensures small { IsTrue result → number < 2147483648 }
    {
        match self.streams.get(number) {
            Some(stream) => stream.request.is_none(),
            None => false,
        }
    }

    /// How many octets of an answer both windows allow on the stream; none before the answer began.
    pub(crate) fn room(&self, number: u32) -> usize
        ensures found { result ≡ room_on (exchange_view self.now) (find number (exchange_view self.now).streams) }
        ensures small { 0 < result → number < 2147483648 }
    {
        let Some(stream) = self.streams.get(number) else {
            return 0;
        };
        if !stream.begun {
            return 0;
        }
        let narrow = left(self.window, stream.raised, stream.used);
        let wide = left(65_535, self.raised, self.used);
        narrow.min(wide) as usize
    }

    /// The answer's fields were written on the stream.
    pub(crate) fn head(&mut self, number: u32) -> Result<(), AllocError>
        ensures head { OnOk result (exchange_view self.new
            ≡ changed headed (beside (exchange_view self.old) number) (find number (exchange_view self.old).streams)) }
        ensures block { self.new.block ≡ self.old.block }
    {
        let Some(mut stream) = self.streams.remove(number) else {
            return Ok(());
        };
        stream.begun = true;
        self.streams.push(stream)
    }

    /// So much of both windows is used by the stream, whose answer has begun.
    pub(crate) fn charge(&mut self, number: u32, count: usize) -> Result<(), AllocError>
        requires some { 0 < count }
        requires within { count ≤ room_on (exchange_view self.old) (find number (exchange_view self.old).streams) }
        ensures charged { OnOk result (exchange_view self.new
            ≡ record (changed (charged count) (beside (exchange_view self.old) number) (find number (exchange_view self.old).streams))
            { used = self.old.used + count }) }
        ensures block { self.new.block ≡ self.old.block }
    {
        let Some(mut stream) = self.streams.remove(number) else {
            return Ok(());
        };
        stream.used += count as u64;
        self.used += count as u64;
        self.streams.push(stream)
    }

    /// The answer was written to its end on the stream.
    pub(crate) fn close(&mut self, number: u32)
        ensures closed { exchange_view self.new ≡ closed (exchange_view self.old) number }
        ensures block { self.new.block ≡ self.old.block }
    {
        let _closed = self.streams.remove(number).is_some();
        self.resets = self.resets.saturating_sub(1);
    }
}
