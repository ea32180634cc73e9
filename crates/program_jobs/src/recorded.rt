//! An input that keeps a copy of the bytes that were read.
use std::io::{self, Read};

/// An input. The bytes that it gives are also kept, as far as there is memory for them.
#[derive(Drop)]
pub(crate) struct Recorded<'a, R: Drop> {
    pub(crate) input: R,
    pub(crate) kept: &'a mut Vec<u8>,
}

impl<'a, R: Read + Drop> Read for Recorded<'a, R> {
    ghost remaining = { λ r. R.remaining r.input };

    fn read(&mut self, buf: &mut [u8]) -> io::Result<usize> {
        let count = self.input.read(buf)?;
        // bytes for which there is no memory are left out
        let _ = self.kept.extend_from_slice(&buf[..count]);
        Ok(count)
    }
}
