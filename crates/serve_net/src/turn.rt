//! Whose turn it is: the listener that is accepted from next.

ghost use Rattle.std.specs.Prelude.{◌≡◌, ◌<◌, ◌+◌, ◌%◌};

/// The place of the next one in turn among so many.
pub(crate) fn after(at: usize, count: usize) -> usize
    requires { at < count }
    ensures { result ≡ (at + 1) % count }
{
    let next = at + 1;
    if next == count { 0 } else { next }
}
