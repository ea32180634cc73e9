//! Why an update stream ended, in words. No contract describes the texts.

use crate::meanings::meaning_of;
use ads::Ended;
use std::fmt;
use xds_wire::FrameFault;

/// Why an update stream ended, in words.
#[derive(Clone, Copy)]
pub struct StreamEnd(pub Ended);

impl fmt::Display for StreamEnd {
    fn fmt<W: fmt::Write>(&self, f: &mut fmt::Formatter<W>) -> fmt::Result {
        match self.0 {
            Ended::NotUp => f.write_str("no stream is up"),
            Ended::BadMessage(refusal) => write!(f, "a bad message: {}", meaning_of(refusal)),
            Ended::Unsendable => f.write_str("a response is too long, or has no number"),
            Ended::BadFrame(FrameFault::Compressed) => {
                f.write_str("a bad frame: its message is compressed")
            }
            Ended::BadFrame(FrameFault::TooLong) => {
                f.write_str("a bad frame: its message is longer than 1 MiB")
            }
        }
    }
}
