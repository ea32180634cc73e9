//! A header block in its parts.

ghost use Rattle.std.specs.Prelude.{◌≡◌};

use hpack::{Decoder, Field, HpackError};
use std::alloc::{AllocError, Global};
use std::mem::replace;

/// The most that a header block weighs: its octets, and nine more for each part after the first.
pub(crate) const MOST_WEIGHT: usize = 32_768;

/// The most octets of the fields of a header block, with 32 more for each (RFC 9113, 6.5.2).
pub(crate) const MOST_FIELDS: u32 = 16_384;

/// The octets of HPACK's table, which are those that a peer begins with (RFC 9113, 6.5.2).
pub(crate) const TABLE: u32 = 4_096;

/// What a part makes of a header block.
#[derive(Debug, Drop)]
pub(crate) enum Progress {
    /// It is too heavy.
    Heavy,
    /// It is not whole.
    More,
    /// It cannot be read.
    Garbled,
    /// It is whole: its fields, if they are within the limit of a field list.
    Whole(Option<Vec<Field>>),
}

/// The header block that is not whole, and HPACK's table.
#[derive(Debug, Drop)]
pub(crate) struct Gathering {
    block: Vec<u8>,
    weight: usize,
    decoder: Decoder,
    ghost table: { decoder.most ≡ 4096 },
    ghost fields: { decoder.limit ≡ 16384 },
}

impl Gathering {
    ghost use Rattle.std.specs.Prelude.{◌≢◌, ◌≤◌, [], true, IfOk};
    ghost use Rattle.http2.specs.Gathering.{first_block, with_more, garbled, Gathers};
    ghost use Rattle.http2.specs.Servings.{block_view, gathered_of};

    /// Before the first block.
    pub(crate) fn new(alloc: Global) -> Gathering
        ensures first { block_view result ≡ first_block }
        ensures alive { result.decoder.alive ≡ true }
    {
        Gathering {
            block: Vec::new(alloc),
            weight: 0,
            decoder: Decoder::new(alloc, TABLE, MOST_FIELDS),
        }
    }

    /// A block begins.
    pub(crate) fn begin(&mut self)
        ensures begun { block_view self.new ≡ record (block_view self.old) { octets = []; weight = 0 } }
        ensures decoder { self.new.decoder ≡ self.old.decoder }
    {
        self.block.clear();
        self.weight = 0;
    }

    /// Adds a part that weighs so much more than its octets.
    pub(crate) fn add(
        &mut self,
        alloc: Global,
        head: usize,
        part: &[u8],
        ends: bool,
    ) -> Result<Progress, AllocError>
        requires alive { self.old.decoder.alive ≡ true }
        ensures gathers { IfOk result (λ p. Gathers (with_more (block_view self.old) head part.now) ends
            (gathered_of p) (block_view self.new)) }
        ensures alive { IfOk result (λ p. gathered_of p ≢ garbled → self.new.decoder.alive ≡ true) }
    {
        let weight = self.weight.saturating_add(head).saturating_add(part.len());
        if weight > MOST_WEIGHT {
            return Ok(Progress::Heavy);
        }
        self.block.extend_from_slice(part)?;
        self.weight = weight;
        if !ends {
            return Ok(Progress::More);
        }
        self.read(alloc)
    }

    // The block is whole.
    fn read(&mut self, alloc: Global) -> Result<Progress, AllocError>
        requires alive { self.old.decoder.alive ≡ true }
        requires light { self.old.weight ≤ 32768 }
        ensures gathers { IfOk result (λ p. Gathers (block_view self.old) true (gathered_of p) (block_view self.new)) }
        ensures alive { IfOk result (λ p. gathered_of p ≢ garbled → self.new.decoder.alive ≡ true) }
    {
        self.weight = 0;
        let block = replace(&mut self.block, Vec::new(alloc));
        match self.decoder.decode(alloc, &block) {
            Ok(fields) => Ok(Progress::Whole(fields)),
            Err(HpackError::Compression(_)) => Ok(Progress::Garbled),
            Err(_) => Err(AllocError),
        }
    }
}
