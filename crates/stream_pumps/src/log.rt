//! The log of a proxy and of a control plane: one JSON object on each line. The log has no effect on the answers, and
//! no contract describes it. A line is left out if there is no memory for it, or if the writer of the log fails.

use crate::log_lines::{
    EndedBy, StreamEvent, connection_value, judgement_value, request_value, sent_value,
    stream_value,
};
use ads::{Client, Ended, Exchange, Judgement};
use program_texts::write_whole;
use serde_json::Value;
use std::alloc::Global;
use std::io::Write;

/// A log.
#[derive(Drop)]
pub struct Log<W: Drop> {
    alloc: Global,
    writer: Option<W>,
    // Why a proxy's client ended its stream, if it did.
    ended: Option<Ended>,
    connections: u64,
}

impl<W: Write + Drop> Log<W> {
    /// A log that goes to this writer; without a writer, nothing is logged.
    pub fn new(alloc: Global, writer: Option<W>) -> Log<W> {
        Log {
            alloc,
            writer,
            ended: None,
            connections: 0,
        }
    }

    /// The writer of the log, if it has one.
    pub fn into_writer(self) -> Option<W> {
        self.writer
    }

    /// Logs that the update stream came up, was unreachable, or was lost. If the client ended it, says why.
    pub(crate) fn log_stream(&mut self, event: StreamEvent) {
        let ended = self.ended.take();
        if self.writer.is_some() {
            if let Ok(value) = stream_value(self.alloc, event, ended) {
                self.put_line(&value);
            }
        }
    }

    /// Logs how a proxy's client judged the responses that it received. If it ended the stream, the line on that says
    /// why.
    pub(crate) fn log_judgements(
        &mut self,
        judgements: Vec<Judgement>,
        ended: Option<Ended>,
        client: &Client,
    ) {
        self.ended = ended;
        if self.writer.is_none() {
            return;
        }
        for judgement in &judgements {
            if let Ok(value) = judgement_value(self.alloc, judgement, client) {
                self.put_line(&value);
            }
        }
    }

    /// Logs the requests that a control plane received, each with the response that it sends for it.
    pub(crate) fn log_exchanges(&mut self, exchanges: Vec<Exchange>) {
        if self.writer.is_none() {
            return;
        }
        for exchange in &exchanges {
            if let Ok(value) = request_value(self.alloc, exchange) {
                self.put_line(&value);
            }
            if let Some(sent) = &exchange.sent {
                if let Ok(value) = sent_value(self.alloc, sent) {
                    self.put_line(&value);
                }
            }
        }
    }

    /// Logs that a connection ended, and who ended it.
    pub(crate) fn log_connection(&mut self, end: EndedBy) {
        self.connections = self.connections.saturating_add(1);
        if self.writer.is_some() {
            if let Ok(value) = connection_value(self.alloc, self.connections, end) {
                self.put_line(&value);
            }
        }
    }

    // Writes a line.
    fn put_line(&mut self, value: &Value) {
        let Some(writer) = &mut self.writer else {
            return;
        };
        let Ok(mut line) = value.to_string(self.alloc) else {
            return;
        };
        if line.push('\n').is_ok() {
            let _ = write_whole(writer, line.as_bytes());
        }
    }
}
