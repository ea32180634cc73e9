//! Asks: the requests or faults in the bytes of a connection.
use crate::fault::HeadFault;
use attributes::Request;

/// The request that a head asks for, or the fault of a head or of bytes that can become no head.
#[derive(Debug, Drop)]
pub enum Ask {
    /// The request is to be judged. True if the connection closes after the answer.
    Judge(Request, bool),
    /// There is this fault, and the connection closes.
    Fault(HeadFault),
}
