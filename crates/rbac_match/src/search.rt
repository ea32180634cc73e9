//! The search for a part of a text, in any case of letters. The search takes no memory, and looks at each
//! byte of the text at most twice (Knuth, Morris and Pratt). So a decision costs the length of what a client
//! sends, and not that length times the part's length.

ghost use Rattle.std.specs.Prelude.{◌≡◌, ◌<◌, ◌≤◌, ℕ, List, [], ◌∷◌, ◌++◌, length, IfOk};
ghost use Rattle.std.specs.Char.{to_ascii_lowercase};
ghost use Rattle.std.specs.Str.{str_to_ascii_lowercase};
ghost use Rattle.rbac_match.specs.Text.{is_substring};
ghost use Rattle.rbac_match.specs.private.Search.{EndsWithMost, AreBorders, AreAllBorders};

use std::alloc::{AllocError, Global};

/// The borders of the part, for the search. There is one for each beginning of the part: the length of the
/// longest shorter beginning that it ends with. Each takes four bytes.
pub(crate) fn borders_of(alloc: Global, part: &[u8]) -> Result<Vec<u32>, AllocError>
    ensures { IfOk result (λ borders. AreAllBorders
        (str_to_ascii_lowercase part.now) borders.items) }
{
    let mut borders: Vec<u32> = Vec::with_capacity(alloc, part.len())?;
    let Some((_, rest)) = part.split_first() else {
        return Ok(borders);
    };
    let mut border = 0;
    borders.push(0)?;
    for byte in rest {
        border = advance(part, &borders, border, *byte);
        borders.push(position(border)?)?;
    }
    Ok(borders)
}

/// The number in four bytes. One that does not fit would be a place after more bytes than a list has room
/// for.
pub(crate) fn position(number: usize) -> Result<u32, AllocError>
    ensures { IfOk result (λ n. n ≡ number) }
{
    if number > u32::MAX as usize {
        return Err(AllocError);
    }
    Ok(number as u32)
}

/// Whether the text contains the part, which is not empty and has these borders.
pub(crate) fn contains_ignore_case(text: &[u8], part: &[u8], borders: &[u32]) -> bool
    requires some { 0 < length part.now }
    requires borders { AreAllBorders (str_to_ascii_lowercase part.now) borders.now }
    ensures { result ≡ is_substring (str_to_ascii_lowercase part.now)
        (str_to_ascii_lowercase text.now) }
{
    let mut matched = 0;
    for byte in text {
        matched = advance(part, borders, matched, *byte);
        if matched == part.len() {
            return true;
        }
    }
    false
}

// The length of the longest beginning of the part that some bytes and then `byte` end with. Without `byte`,
// it is `matched`.
fn advance(part: &[u8], borders: &[u32], matched: usize, byte: u8) -> usize
    requires below { matched < length part.now }
    requires known { matched ≤ length borders.now }
    requires borders { AreBorders (str_to_ascii_lowercase part.now) borders.now }
    ensures { (bytes : List ℕ) → EndsWithMost (str_to_ascii_lowercase part.now) bytes matched
        → EndsWithMost (str_to_ascii_lowercase part.now)
        (bytes ++ to_ascii_lowercase byte ∷ []) result }
{
    let lower = byte.to_ascii_lowercase();
    let mut kept = matched;
    loop {
        if part[kept].to_ascii_lowercase() == lower {
            return kept + 1;
        }
        if kept == 0 {
            return 0;
        }
        kept = borders[kept - 1] as usize;
    }
}
