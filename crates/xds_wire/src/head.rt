//! The head of a frame: its flag, and the length of its message.

ghost use Rattle.std.specs.Prelude.{◌≡◌, ◌≤◌, ◌<◌, ◌++◌, [], min, ◌+◌, length};
ghost use Rattle.xds_wire.specs.private.Pieces.{head_view};

/// The number of bytes of a head: a flag, and four of length.
pub(crate) const HEAD: usize = 5;

/// The bytes of a head that have arrived.
#[derive(Clone, Copy, Debug)]
pub(crate) struct Head {
    /// The bytes; zeros for those that have not arrived.
    pub(crate) bytes: [u8; HEAD],
    /// How many have arrived.
    pub(crate) count: usize,
}

impl Head {
    /// A head without bytes yet.
    pub(crate) fn empty() -> Head
        ensures nothing { head_view result ≡ [] }
        ensures count { result.count ≡ 0 }
    {
        Head {
            bytes: [0; HEAD],
            count: 0,
        }
    }

    /// Completes the head with the first of the bytes, as far as they reach. Also gives the bytes
    /// that are left.
    pub(crate) fn fill<'a>(self, bytes: &'a [u8]) -> (Head, &'a [u8])
        requires { self.count ≤ HEAD }
        ensures same { head_view result.0 ++ result.1.now ≡ head_view self ++ bytes.now }
        ensures count { result.0.count ≡ min HEAD (self.count + length bytes.now) }
        ensures all { result.0.count < HEAD → result.1.now ≡ [] }
    {
        let (own, rest) = bytes.split_at(bytes.len().min(HEAD - self.count));
        let count = self.count + own.len();
        let mut filled = self.bytes;
        filled[self.count..count].copy_from_slice(own);
        let head = Head {
            bytes: filled,
            count,
        };
        (head, rest)
    }
}
