//! A connection to the admin port.

use crate::admin::Admin;
use http_server::{Config, Connection};
use http1::Limits;
use std::alloc::{AllocError, Global};
use std::hash::RandomState;

// The greatest number of bytes of a head.
const HEAD: usize = 16_384;
// The greatest number of bytes of a body.
const BODY: usize = 1_024;

const CONFIG: Config = Config {
    limits: Limits {
        max_head_len: HEAD,
        max_extensions_len: BODY,
        max_trailers_len: BODY,
    },
    max_body_len: BODY,
    max_pending: HEAD,
    read_size: BODY,
};

/// A connection to the admin port. It answers one request, and is done once that answer was sent.
#[derive(Drop)]
pub struct AdminConnection {
    connection: Connection,
}

impl AdminConnection {
    /// Allocates nothing. The keys are secret, since others choose the names of headers.
    pub fn new(alloc: Global, keys: RandomState) -> AdminConnection {
        AdminConnection {
            connection: Connection::new(alloc, keys, CONFIG),
        }
    }

    /// The connection delivers bytes. What follows the first request is ignored.
    pub fn feed(&mut self, admin: &mut Admin, bytes: &[u8]) -> Result<(), AllocError> {
        let mut rest = bytes;
        for _ in 0..bytes.len() {
            if rest.is_empty() || !self.connection.wants_read() {
                return Ok(());
            }
            match self.connection.read_from(&mut rest) {
                Ok(_) => self.connection.advance(admin),
                Err(_) => return Err(AllocError),
            }
        }
        Ok(())
    }

    /// The other end sends no more bytes.
    pub fn ended(&mut self, admin: &mut Admin) -> Result<(), AllocError> {
        let mut nothing: &[u8] = b"";
        match self.connection.read_from(&mut nothing) {
            Ok(_) => self.connection.advance(admin),
            Err(_) => return Err(AllocError),
        }
        Ok(())
    }

    /// The next bytes to send.
    pub fn output(&self) -> &[u8] {
        self.connection.output()
    }

    /// So many bytes of the output were sent.
    pub fn sent(&mut self, count: usize) {
        let count = count.min(self.connection.output().len());
        self.connection.sent(count);
    }

    /// Whether the connection is to be closed: it has answered, or memory ran out.
    pub fn is_done(&self) -> bool {
        self.connection.is_done()
    }
}
