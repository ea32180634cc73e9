//! Operations on one operand.

use cel_ops::Operation;
use std::sync::ArcStr;

/// An operation on one operand.
#[derive(Clone, Copy)]
pub(crate) enum Unary<'a> {
    Operate(Operation),
    Field(&'a ArcStr),
    HasField(&'a ArcStr),
}
