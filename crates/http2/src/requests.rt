//! How a server of unary calls receives requests, and how windows are raised.

ghost use Rattle.std.specs.Prelude.{◌≡◌, ◌<◌, Some, None, [], IfOk};
ghost use Rattle.std.specs.Option.{option_map};
ghost use Rattle.hpack.specs.Field.{lines_of};
ghost use Rattle.http2.specs.Frame.{increment_of, stream_of};
ghost use Rattle.http2.specs.Exchange.{opened, request_came, stream_came, trailers_in, trailers_came, fields_came, ended, content_taken, content_in, content_came, data_came, connection_raised, stream_raised, update_came};
ghost use Rattle.http2.specs.Exchanges.{exchange_view, turn_of};
ghost use Rattle.http2.specs.StreamViews.{stream_view, request_view};

use crate::accounts::{flow, raise};
use crate::answer::{is_whole, length_of, without};
use crate::exchange::{Exchange, MOST_STREAMS};
use crate::fault::Code;
use crate::fields::are_plain;
use crate::frame::Frame;
use crate::news::News;
use crate::request::is_request;
use crate::stream::{Call, Request, Stream};
use crate::streams::is_beyond;
use hpack::Field;
use std::alloc::{AllocError, Global};

impl Exchange {
    /// The fields of a whole header block came.
    pub(crate) fn fields_came(
        &mut self,
        alloc: Global,
        number: u32,
        fields: Option<Vec<Field>>,
    ) -> Result<News, AllocError>
        requires { number < 2147483648 }
        ensures turn { IfOk result (λ news. turn_of news (exchange_view self.new)
            ≡ fields_came (exchange_view self.old) number (option_map lines_of fields)) }
        ensures block { self.new.block ≡ self.old.block }
    {
        if number <= self.last {
            let stream = self.streams.remove(number);
            return self.trailers_came(stream, fields);
        }
        self.last = number;
        if self.streams.len() >= MOST_STREAMS {
            return Ok(News::resets(number, Code::RefusedStream));
        }
        self.request_came(alloc, number, fields)
    }

    // The fields of a request came, on a new stream.
    fn request_came(
        &mut self,
        alloc: Global,
        number: u32,
        fields: Option<Vec<Field>>,
    ) -> Result<News, AllocError>
        requires { number < 2147483648 }
        ensures turn { IfOk result (λ news. turn_of news (exchange_view self.new)
            ≡ request_came (exchange_view self.old) number (option_map lines_of fields)) }
        ensures block { self.new.block ≡ self.old.block }
    {
        let Some(fields) = fields else {
            return Ok(self.fails(Code::EnhanceYourCalm, number));
        };
        if !is_request(&fields) {
            return Ok(self.fails(Code::Protocol, number));
        }
        let Some(left) = length_of(&fields) else {
            return Ok(self.fails(Code::Protocol, number));
        };
        let request = Request {
            fields,
            content: Vec::new(alloc),
        };
        self.opened(number, left, request)
    }

    // A well-formed request opens its stream.
    fn opened(
        &mut self,
        number: u32,
        left: Option<u64>,
        request: Request,
    ) -> Result<News, AllocError>
        requires number { number < 2147483648 }
        requires empty { request.content.items ≡ [] }
        ensures turn { IfOk result (λ news. turn_of news (exchange_view self.new)
            ≡ opened (exchange_view self.old) number (lines_of request.fields) (Some left)) }
        ensures block { self.new.block ≡ self.old.block }
    {
        if self.ends {
            return self.ended(left, request, Stream::fresh(number, None, left));
        }
        self.streams
            .push(Stream::fresh(number, Some(request), left))?;
        Ok(News::Quiet)
    }

    // The last of a request came.
    fn ended(
        &mut self,
        left: Option<u64>,
        request: Request,
        stream: Stream,
    ) -> Result<News, AllocError>
        ensures turn { IfOk result (λ news. turn_of news (exchange_view self.new)
            ≡ ended (exchange_view self.old) left (request_view request) (stream_view stream)) }
        ensures block { self.new.block ≡ self.old.block }
    {
        let number = stream.number;
        if !is_whole(left) {
            return Ok(self.fails(Code::Protocol, number));
        }
        self.streams.push(stream)?;
        Ok(News::Asks(Call {
            stream: number,
            request,
        }))
    }

    // Trailers came, on a stream that was taken out if it is open.
    fn trailers_came(
        &mut self,
        stream: Option<Stream>,
        fields: Option<Vec<Field>>,
    ) -> Result<News, AllocError>
        ensures turn { IfOk result (λ news. turn_of news (exchange_view self.new)
            ≡ trailers_came (exchange_view self.old) (option_map stream_view stream) (option_map lines_of fields)) }
        ensures block { self.new.block ≡ self.old.block }
    {
        let Some(mut stream) = stream else {
            return Ok(News::Quiet);
        };
        let Some(request) = stream.request.take() else {
            return Ok(self.fails(Code::StreamClosed, stream.number));
        };
        let Some(fields) = fields else {
            return Ok(self.fails(Code::EnhanceYourCalm, stream.number));
        };
        if !self.ends {
            return Ok(self.fails(Code::Protocol, stream.number));
        }
        if !are_plain(&fields) {
            return Ok(self.fails(Code::Protocol, stream.number));
        }
        self.ended(stream.left, request, stream)
    }

    /// Data came.
    pub(crate) fn data_came(&mut self, frame: &Frame) -> Result<News, AllocError>
        ensures turn { IfOk result (λ news. turn_of news (exchange_view self.new)
            ≡ data_came (exchange_view self.old) frame.now.bytes.items) }
        ensures block { self.new.block ≡ self.old.block }
    {
        let count = flow(frame);
        if count > self.credit {
            return Ok(News::breaks(Code::FlowControl));
        }
        self.credit -= count;
        match self.streams.remove(frame.stream()) {
            Some(stream) => self.content_came(stream, frame.ends_stream(), frame.content()),
            None => Ok(News::Quiet),
        }
    }

    // Content came on a stream that was taken out.
    fn content_came(
        &mut self,
        stream: Stream,
        last: bool,
        octets: &[u8],
    ) -> Result<News, AllocError>
        ensures turn { IfOk result (λ news. turn_of news (exchange_view self.new)
            ≡ content_came (exchange_view self.old) (Some (stream_view stream)) last octets.now) }
        ensures block { self.new.block ≡ self.old.block }
    {
        let mut stream = stream;
        let Some(mut request) = stream.request.take() else {
            return Ok(self.fails(Code::StreamClosed, stream.number));
        };
        let Some(left) = without(stream.left, octets.len()) else {
            return Ok(self.fails(Code::Protocol, stream.number));
        };
        if request.content.len() + octets.len() > self.most {
            return Ok(self.fails(Code::EnhanceYourCalm, stream.number));
        }
        request.content.extend_from_slice(octets)?;
        stream.left = left;
        self.content_taken(stream, request, last)
    }

    // A request has more content.
    fn content_taken(
        &mut self,
        stream: Stream,
        request: Request,
        last: bool,
    ) -> Result<News, AllocError>
        requires taken { stream.request ≡ None }
        ensures turn { IfOk result (λ news. turn_of news (exchange_view self.new)
            ≡ content_taken (exchange_view self.old) (stream_view stream) (request_view request) last (stream_view stream).left) }
        ensures block { self.new.block ≡ self.old.block }
    {
        if last {
            return self.ended(stream.left, request, stream);
        }
        let mut stream = stream;
        stream.request = Some(request);
        self.streams.push(stream)?;
        Ok(News::Quiet)
    }

    /// A window is raised.
    pub(crate) fn update_came(&mut self, frame: &Frame) -> Result<News, AllocError>
        ensures turn { IfOk result (λ news. turn_of news (exchange_view self.new)
            ≡ update_came (exchange_view self.old) frame.now.bytes.items) }
        ensures block { self.new.block ≡ self.old.block }
    {
        let number = frame.stream();
        if number == 0 {
            return Ok(self.connection_raised(frame));
        }
        match self.streams.remove(number) {
            Some(stream) => self.stream_raised(stream, frame),
            None => Ok(News::Quiet),
        }
    }

    // The connection's window is raised.
    fn connection_raised(&mut self, frame: &Frame) -> News
        ensures turn { turn_of result (exchange_view self.new)
            ≡ connection_raised (exchange_view self.old) (increment_of 0 frame.now.bytes.items) }
        ensures block { self.new.block ≡ self.old.block }
    {
        let Some(raised) = raise(self.raised, 0, frame) else {
            return News::breaks(Code::FlowControl);
        };
        if is_beyond(65_535, raised, self.used) {
            return News::breaks(Code::FlowControl);
        }
        self.raised = raised;
        News::Quiet
    }

    // The window of a stream is, which was taken out.
    fn stream_raised(&mut self, stream: Stream, frame: &Frame) -> Result<News, AllocError>
        ensures turn { IfOk result (λ news. turn_of news (exchange_view self.new)
            ≡ stream_raised (exchange_view self.old) (Some (stream_view stream)) (increment_of (stream_of frame.now.bytes.items) frame.now.bytes.items)) }
        ensures block { self.new.block ≡ self.old.block }
    {
        let mut stream = stream;
        let Some(raised) = raise(stream.raised, frame.stream(), frame) else {
            return Ok(self.fails(Code::FlowControl, stream.number));
        };
        if is_beyond(self.window, raised, stream.used) {
            return Ok(self.fails(Code::FlowControl, stream.number));
        }
        stream.raised = raised;
        self.streams.push(stream)?;
        Ok(News::Quiet)
    }
}
