//! Parts of one text, which grows by appending.
ghost use Rattle.std.specs.Prelude.{◌≡◌, ◌≤◌, ◌-◌, ◌∷◌, ◌++◌, IfOk, IsUtf8, drop, length, map, take};
ghost use Rattle.std.specs.Char.{to_ascii_lowercase};
ghost use Rattle.std.specs.Str.{IsAscii};
ghost use Rattle.attributes.specs.private.Parts.{Begins, IsAt, IsPart, part_of};

use std::alloc::AllocError;
use std::str;

/// Where a part of a text is.
#[derive(Clone, Copy, Debug)]
pub(crate) struct Part {
    pub(crate) from: usize,
    pub(crate) to: usize,
}

/// A part of the value of the header at this index.
#[derive(Clone, Copy, Debug)]
pub(crate) struct Spot {
    pub(crate) index: usize,
    pub(crate) from: usize,
    pub(crate) to: usize,
}

impl Part {
    pub(crate) fn len(self) -> usize
        ensures { result ≡ self.to - self.from }
    {
        self.to.saturating_sub(self.from)
    }
}

/// The text of a part.
#[inline(always)]
pub(crate) fn text_at(text: &[u8], part: Part) -> &str
    requires { IsPart text.now part }
    ensures { result.now ≡ part_of text.now part }
{
    unsafe { str::from_utf8_unchecked(&text[part.from..part.to]) }
}

/// The bytes of a part, as far as the text has them.
pub(crate) fn bytes_at(text: &[u8], part: Part) -> &[u8]
    ensures { result.now ≡ part_of text.now part }
{
    if part.from > text.len() {
        return &[];
    }
    let rest = &text[part.from..];
    if part.len() > rest.len() {
        return rest;
    }
    &rest[..part.len()]
}

/// Appends to the text.
pub(crate) fn append(text: &mut Vec<u8>, more: &str) -> Result<Part, AllocError>
    ensures grown { Begins text.old.items text.new.items }
    ensures part { IfOk result (λ part. IsAt text.new.items part more.now) }
    ensures place { IfOk result (λ part.
        (part.from ≡ length text.old.items) × (part.to ≡ length text.new.items)) }
{
    let more = more.as_bytes();
    let from = text.len();
    text.extend_from_slice(more)?;
    Ok(Part {
        from,
        to: text.len(),
    })
}

/// Appends to the text in lower case.
pub(crate) fn append_lower(text: &mut Vec<u8>, more: &str) -> Result<Part, AllocError>
    requires { IsAscii more.now }
    ensures grown { Begins text.old.items text.new.items }
    ensures part { IfOk result (λ part.
        IsAt text.new.items part (map to_ascii_lowercase more.now)) }
{
    let part = append(text, more)?;
    lower_from(text.as_mut_slice(), part.from);
    Ok(part)
}

// Lowers the letters from this place on.
fn lower_from(text: &mut [u8], from: usize)
    requires { from ≤ length text.old }
    ensures { text.new ≡ take from text.old ++ map to_ascii_lowercase (drop from text.old) }
{
    text[from..].make_ascii_lowercase();
}

/// Joins two values with a comma. The joined value is at the end of the text. A first value that
/// ends the text is not copied.
pub(crate) fn join_values(text: &mut Vec<u8>, value: Part, more: Part) -> Result<Part, AllocError>
    requires value { IsPart text.old.items value }
    requires more { IsPart text.old.items more }
    ensures grown { Begins text.old.items text.new.items }
    ensures part { IfOk result (λ part. IsAt text.new.items part
        (part_of text.old.items value ++ 44 ∷ part_of text.old.items more)) }
{
    let from = move_to_end(text, value)?;
    text.push(b',')?;
    text.extend_from_within(more.from..more.to)?;
    Ok(Part {
        from,
        to: text.len(),
    })
}

// Copies the part to the end of the text, unless it is there already. The result is where it
// begins.
fn move_to_end(text: &mut Vec<u8>, part: Part) -> Result<usize, AllocError>
    requires { IsPart text.old.items part }
    ensures grown { Begins text.old.items text.new.items }
    ensures within { IfOk result (λ from. from ≤ length text.new.items) }
    ensures end { IfOk result (λ from.
        drop from text.new.items ≡ part_of text.old.items part) }
{
    let end = text.len();
    if part.to == end {
        return Ok(part.from);
    }
    text.extend_from_within(part.from..part.to)?;
    Ok(end)
}
