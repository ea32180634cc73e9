//! What expressions are measured by.

use crate::size::ValueSize;
use crate::variables::VariableSizes;
use attributes::Limits;

/// What surrounds a loop: the limits, and the sizes of the locals in scope. The outermost local is first.
#[derive(Clone, Copy)]
pub(crate) struct Around<'s> {
    pub(crate) limits: &'s Limits,
    pub(crate) locals: &'s [&'s ValueSize],
}

/// What an expression is measured by: what surrounds the innermost loop, and the sizes of that loop's locals. They are
/// apart, so that a turn takes no memory.
#[derive(Clone, Copy)]
pub(crate) struct Measuring<'s> {
    pub(crate) around: Around<'s>,
    pub(crate) inner: &'s [&'s ValueSize],
}

/// The turns of a loop: what surrounds it, and the sizes of its variables.
#[derive(Clone, Copy)]
pub(crate) struct Turns<'s> {
    pub(crate) around: Around<'s>,
    pub(crate) each: &'s VariableSizes,
}
