//! Why an update stream ends.

use proto_wire::Refusal;
use xds_wire::FrameFault;

/// Why no update stream is up after a call with its bytes.
#[derive(Clone, Copy, PartialEq, Eq, Debug)]
pub enum Ended {
    /// None was up before the call.
    NotUp,
    /// A message is no response, or at a control plane no request, for this reason.
    BadMessage(Refusal),
    /// The bytes begin with no frame, for this reason.
    BadFrame(FrameFault),
    /// A control plane's response is too long, or its number does not fit in 64 bits.
    Unsendable,
}
