//! The texts of a filter's rules in one list of bytes, and other data that does not fit a leaf.

ghost use Rattle.std.specs.Prelude.{◌≡◌, ◌≤◌, ◌+◌, ℕ, true, List, length, IfOk, IfSome};
ghost use Rattle.std.specs.Str.{IsUtf8, str_to_ascii_lowercase};
ghost use Rattle.rbac_match.specs.Needs.{Begins};
ghost use Rattle.rbac_match.specs.Tokens.{slice_at};
ghost use Rattle.rbac_match.specs.Text.{is_substring, pattern_holds, text_holds};
ghost use Rattle.rbac_match.specs.private.Leaves.{GoodText, Grows, IsBorders, IsWithin, part_of, text_in};
ghost use Rattle.rbac_match.specs.private.Search.{AreAllBorders};

use crate::search::{borders_of, contains_ignore_case, position};
use crate::text::{Ends, Pattern, TextMatcher, holds, holds_ignore_case};
use attributes::Cidr;
use std::alloc::{AllocError, Global};

/// The texts and the ranges of addresses that leaves refer to by place.
#[derive(Drop)]
pub(crate) struct Pool {
    pub(crate) text: Vec<u8>,
    /// The borders of the texts that are searched for in any case.
    pub(crate) borders: Vec<u32>,
    pub(crate) ranges: Vec<Cidr>,
}

/// Consecutive bytes of the pool's text.
#[derive(Clone, Copy)]
pub(crate) struct Span {
    pub(crate) from: u32,
    pub(crate) count: u32,
}

/// A test of a text; the sought text is in the pool.
#[derive(Clone, Copy)]
pub(crate) enum TextLeaf {
    /// The case of letters counts.
    Plain(Pattern, Span),
    /// The case of letters does not count.
    AnyCase(Ends, Span),
    /// The text contains the sought one, in any case of letters. The number is the place of its borders.
    Searched(Span, u32),
}

impl Pool {
    /// An empty pool.
    pub(crate) fn new(alloc: Global) -> Self {
        Pool {
            text: Vec::new(alloc),
            borders: Vec::new(alloc),
            ranges: Vec::new(alloc),
        }
    }

    /// Frees the unused capacity.
    pub(crate) fn shrink(&mut self)
        ensures { Grows self.old self.new }
    {
        self.text.shrink_to_fit();
        self.borders.shrink_to_fit();
        self.ranges.shrink_to_fit();
    }

    /// Appends the bytes to the pool's text.
    pub(crate) fn keep(&mut self, bytes: &[u8]) -> Result<Span, AllocError>
        ensures grows { Grows self.old self.new }
        ensures kept { IfOk result (λ span. IsWithin span self.new × (part_of span self.new ≡ bytes.now)) }
    {
        let from = position(self.text.len())?;
        let count = position(bytes.len())?;
        self.text.extend_from_slice(bytes)?;
        Ok(Span { from, count })
    }

    /// Appends the text, with its letters in lower case.
    pub(crate) fn keep_lowered(&mut self, alloc: Global, text: &str) -> Result<Span, AllocError>
        ensures grows { Grows self.old self.new }
        ensures kept { IfOk result (λ span. IsWithin span self.new
            × (part_of span self.new ≡ str_to_ascii_lowercase text.now)
            × IsUtf8 (part_of span self.new)) }
    {
        let mut lowered = String::from_str(alloc, text)?;
        lowered.make_ascii_lowercase();
        self.keep(lowered.as_bytes())
    }

    /// Appends the sought text of the test, and its borders if it is searched for in any case.
    pub(crate) fn keep_text(
        &mut self,
        alloc: Global,
        test: &TextMatcher<'_>,
    ) -> Result<TextLeaf, AllocError>
        ensures grows { Grows self.old self.new }
        ensures kept { IfOk result (λ leaf. GoodText self.new leaf × (text_in self.new leaf ≡ test.now)) }
    {
        let span = self.keep(test.sought.as_bytes())?;
        if !test.ignore_case {
            return Ok(TextLeaf::Plain(test.pattern, span));
        }
        match test.pattern {
            Pattern::Exact => Ok(TextLeaf::AnyCase(Ends::Exact, span)),
            Pattern::Prefix => Ok(TextLeaf::AnyCase(Ends::Prefix, span)),
            Pattern::Suffix => Ok(TextLeaf::AnyCase(Ends::Suffix, span)),
            Pattern::Contains => {
                let at = self.keep_borders(alloc, test.sought.as_bytes())?;
                Ok(TextLeaf::Searched(span, at))
            }
        }
    }

    // Appends the borders of a text that is searched for in any case.
    fn keep_borders(&mut self, alloc: Global, part: &[u8]) -> Result<u32, AllocError>
        ensures grows { Grows self.old self.new }
        ensures kept { IfOk result (λ at. (at + length part.now ≤ length self.new.borders.items)
            × AreAllBorders (str_to_ascii_lowercase part.now)
            (slice_at at (length part.now) self.new.borders.items)) }
    {
        let borders = borders_of(alloc, part)?;
        let at = position(self.borders.len())?;
        self.borders.extend_from_slice(&borders)?;
        Ok(at)
    }

    /// The bytes of the span.
    #[inline(always)]
    pub(crate) fn part(&self, span: Span) -> &[u8]
        requires { IsWithin span self.now }
        ensures { result.now ≡ part_of span self.now }
    {
        let from = span.from as usize;
        &self.text[from..from + span.count as usize]
    }

    /// A start of every text that passes the test.
    pub(crate) fn text_start(&self, test: &TextLeaf) -> &[u8]
        requires { GoodText self.now test.now }
        ensures { (bytes : List ℕ) → text_holds (text_in self.now test.now) bytes ≡ true
            → Begins result.now bytes }
    {
        match test {
            TextLeaf::Plain(pattern, span) => self.plain_start(*pattern, *span),
            _ => &[],
        }
    }

    // The same for a test by this pattern, in which the case of letters counts.
    fn plain_start(&self, pattern: Pattern, span: Span) -> &[u8]
        requires { IsWithin span self.now }
        ensures { (bytes : List ℕ) → pattern_holds pattern (part_of span self.now) bytes ≡ true
            → Begins result.now bytes }
    {
        match pattern {
            Pattern::Exact => self.part(span),
            Pattern::Prefix => self.part(span),
            _ => &[],
        }
    }

    /// The text that passes the test, if there is only one.
    pub(crate) fn whole_text(&self, test: &TextLeaf) -> Option<&[u8]>
        requires { GoodText self.now test.now }
        ensures { IfSome result (λ whole. (bytes : List ℕ)
            → text_holds (text_in self.now test.now) bytes ≡ true → bytes ≡ whole.now) }
    {
        match test {
            TextLeaf::Plain(Pattern::Exact, span) => Some(self.part(*span)),
            _ => None,
        }
    }

    /// Whether the text passes the test. It takes no memory.
    #[inline(always)]
    pub(crate) fn text_passes(&self, test: &TextLeaf, text: &str) -> bool
        requires { GoodText self.now test.now }
        ensures { result ≡ text_holds (text_in self.now test.now) text.now }
    {
        match test {
            TextLeaf::Plain(pattern, span) => holds(*pattern, self.part(*span), text.as_bytes()),
            TextLeaf::AnyCase(ends, span) => {
                holds_ignore_case(*ends, self.part(*span), text.as_bytes())
            }
            TextLeaf::Searched(span, at) => self.has_inside(*span, *at, text.as_bytes()),
        }
    }

    // Whether the text contains that of the span, in any case of letters.
    #[inline(never)]
    fn has_inside(&self, span: Span, at: u32, text: &[u8]) -> bool
        requires within { IsWithin span self.now }
        requires borders { IsBorders span at self.now }
        ensures { result ≡ is_substring (str_to_ascii_lowercase (part_of span self.now))
            (str_to_ascii_lowercase text.now) }
    {
        let at = at as usize;
        let borders = &self.borders[at..at + span.count as usize];
        contains_ignore_case(text, self.part(span), borders)
    }
}
