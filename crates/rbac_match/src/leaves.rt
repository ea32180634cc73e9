//! The tests at the leaves of a filter's rules, in one list.

ghost use Rattle.std.specs.Prelude.{◌≡◌, ◌++◌, ◌∷◌, [], length, slice_get, true, unwrap_or, IfOk, IfErr, IfSome, OnOk};
ghost use Rattle.std.specs.Option.{option_copied};
ghost use Rattle.attributes.specs.Attributes.{url_path_of};
ghost use Rattle.attributes.specs.Request.{RequestValue, header_of};
ghost use Rattle.rbac_match.specs.Header.{value_or_empty};
ghost use Rattle.rbac_match.specs.Matcher.{matcher_holds};
ghost use Rattle.rbac_match.specs.Needs.{Begins};
ghost use Rattle.rbac_match.specs.declared.matcher.Matcher.TheVariants.{Header as HeaderOf};
ghost use Rattle.rbac_match.specs.declared.leaves.Leaf.TheVariants.{HeaderText, Named, ServerName, UrlPath};
ghost use Rattle.rbac_match.specs.private.Leaves.{GoodLeaf, GoodName, GoodText, Grows, leaf_in, part_of, passes_at};

use crate::authenticated::peer_name;
use crate::cidr::{AddressSource, address_matches};
use crate::header::{HeaderMatcher, Specifier};
use crate::int64_range::Int64Range;
use crate::matcher::Matcher;
use crate::pool::{Pool, Span, TextLeaf};
use crate::ports::{PortRange, port_matches, port_range_matches};
use crate::search::position;
use attributes::Request;
use std::alloc::{AllocError, Global};
use std::marker::Model;

/// The header of a test: its name in lower case, and the two flags of its HeaderMatcher.
#[derive(Clone, Copy)]
pub(crate) struct NameLeaf {
    pub(crate) name: Span,
    pub(crate) invert_match: bool,
    pub(crate) treat_missing_header_as_empty: bool,
}

/// A test of one fact of a request; its texts are in the pool.
#[derive(Clone, Copy)]
pub(crate) enum Leaf {
    /// The header is present if `true`, and missing if `false`.
    Present(NameLeaf, bool),
    /// The header's value passes the test of texts.
    HeaderText(NameLeaf, TextLeaf),
    /// The header's value is a decimal number in the range.
    HeaderRange(NameLeaf, Int64Range),
    /// An address of the request is in the pool's range at this place.
    Address(AddressSource, u32),
    /// The request goes to this port.
    Port(u16),
    /// The request goes to one of these ports.
    PortRange(PortRange),
    /// The requested server name passes; an absent one is the empty text.
    ServerName(TextLeaf),
    /// The target up to its first `?` or `#` passes.
    UrlPath(TextLeaf),
    /// The connection uses mutual TLS.
    Mutual,
    /// The connection uses mutual TLS, and its peer's name passes.
    Named(TextLeaf),
}

/// Tests; their value is the list of their matchers.
#[derive(Drop)]
pub(crate) struct Leaves {
    leaves: Vec<Leaf>,
    pool: Pool,
}

impl Model for Leaves {
    ghost use Rattle.std.specs.Prelude.{List, map};
    ghost use Rattle.rbac_match.specs.declared.matcher.Matcher.{Matcher};
    ghost use Rattle.rbac_match.specs.private.Leaves.{AreGood, leaf_in};

    ghost Value = { List Matcher };

    ghost view = { λ s. map (leaf_in s.pool) s.leaves.items };

    ghost invariant = { λ s. AreGood s.pool s.leaves.items };
}

impl Leaves {
    /// An empty list of tests.
    pub(crate) fn new(alloc: Global) -> Self
        ensures { result ≡ [] }
    {
        Leaves {
            leaves: Vec::new(alloc),
            pool: Pool::new(alloc),
        }
    }

    /// Appends a test, and gives its place.
    pub(crate) fn push(&mut self, alloc: Global, test: &Matcher<'_>) -> Result<u32, AllocError>
        ensures place { IfOk result (λ place. place ≡ length self.old) }
        ensures pushed { OnOk result (self.new ≡ self.old ++ test.now ∷ []) }
        ensures kept { IfErr result (λ _. self.new ≡ self.old) }
    {
        let place = position(self.leaves.len())?;
        let leaf = leaf_of(&mut self.pool, alloc, test)?;
        self.leaves.push(leaf)?;
        Ok(place)
    }

    /// Frees the unused capacity.
    pub(crate) fn shrink(&mut self)
        ensures { self.new ≡ self.old }
    {
        self.leaves.shrink_to_fit();
        self.pool.shrink();
    }

    /// Whether the request passes the test at this place; if there is no test, every request passes.
    #[inline(always)]
    pub(crate) fn passes(&self, place: u32, request: &Request) -> bool
        ensures { result ≡ passes_at (slice_get self.now place) request.now }
    {
        match self.leaves.get(place as usize) {
            Some(leaf) => leaf_passes(&self.pool, leaf, request),
            None => true,
        }
    }

    /// The leaf at this place, and the pool that has its texts.
    pub(crate) fn leaf(&self, place: u32) -> Option<(&Pool, &Leaf)>
        ensures { IfSome result (λ found. GoodLeaf found.0.now found.1.now) }
    {
        match self.leaves.get(place as usize) {
            Some(leaf) => Some((&self.pool, leaf)),
            None => None,
        }
    }

    /// A start of the path of every request that passes the test at this place.
    pub(crate) fn path_start(&self, place: u32) -> &[u8]
        ensures { (r : RequestValue) → passes_at (slice_get self.now place) r ≡ true
            → Begins result.now (url_path_of r.target) }
    {
        match self.leaves.get(place as usize) {
            Some(leaf) => leaf_start(&self.pool, leaf),
            None => &[],
        }
    }

    /// The name of the header that the test at this place reads, and its value in each request that passes,
    /// if only one passes. A missing header counts as empty.
    pub(crate) fn header_value(&self, place: u32) -> Option<(&str, &[u8])>
        ensures { IfSome result (λ need. (r : RequestValue)
            → passes_at (slice_get self.now place) r ≡ true
            → unwrap_or (header_of r need.0.now) [] ≡ need.1.now) }
    {
        match self.leaves.get(place as usize) {
            Some(leaf) => leaf_value(&self.pool, leaf),
            None => None,
        }
    }
}

// A start of the path of every request that passes the leaf's test.
fn leaf_start<'a>(pool: &'a Pool, leaf: &Leaf) -> &'a [u8]
    requires { GoodLeaf pool.now leaf.now }
    ensures { (r : RequestValue) → matcher_holds (leaf_in pool.now leaf.now) r ≡ true
        → Begins result.now (url_path_of r.target) }
{
    match leaf {
        Leaf::UrlPath(test) => pool.text_start(test),
        _ => &[],
    }
}

// The name of the header that the leaf's test reads, and its value in each request that passes, if only one
// passes.
fn leaf_value<'a>(pool: &'a Pool, leaf: &Leaf) -> Option<(&'a str, &'a [u8])>
    requires { GoodLeaf pool.now leaf.now }
    ensures { IfSome result (λ need. (r : RequestValue)
        → matcher_holds (leaf_in pool.now leaf.now) r ≡ true
        → unwrap_or (header_of r need.0.now) [] ≡ need.1.now) }
{
    match leaf {
        Leaf::HeaderText(name, test) => text_value(pool, name, test),
        _ => None,
    }
}

// The same for a test of the header's text.
fn text_value<'a>(pool: &'a Pool, name: &NameLeaf, test: &TextLeaf) -> Option<(&'a str, &'a [u8])>
    requires name { GoodName pool.now name.now }
    requires text { GoodText pool.now test.now }
    ensures { IfSome result (λ need. (r : RequestValue)
        → matcher_holds (leaf_in pool.now (HeaderText name.now test.now)) r ≡ true
        → unwrap_or (header_of r need.0.now) [] ≡ need.1.now) }
{
    if name.invert_match {
        return None;
    }
    match pool.whole_text(test) {
        Some(whole) => {
            let name = pool.part(name.name);
            Some((unsafe { str::from_utf8_unchecked(name) }, whole))
        }
        None => None,
    }
}

// Makes the leaf of a test, and adds its texts or its range of addresses to the pool.
fn leaf_of(pool: &mut Pool, alloc: Global, test: &Matcher<'_>) -> Result<Leaf, AllocError>
    ensures grows { Grows pool.old pool.new }
    ensures found { IfOk result (λ leaf. GoodLeaf pool.new leaf × (leaf_in pool.new leaf ≡ test.now)) }
{
    match test {
        Matcher::Header(header) => header_leaf(pool, alloc, header),
        Matcher::Address(source, range) => {
            let place = position(pool.ranges.len())?;
            pool.ranges.push(*range)?;
            Ok(Leaf::Address(*source, place))
        }
        Matcher::Port(port) => Ok(Leaf::Port(*port)),
        Matcher::PortRange(range) => Ok(Leaf::PortRange(*range)),
        Matcher::ServerName(text) => Ok(Leaf::ServerName(pool.keep_text(alloc, text)?)),
        Matcher::UrlPath(text) => Ok(Leaf::UrlPath(pool.keep_text(alloc, text)?)),
        Matcher::Authenticated(None) => Ok(Leaf::Mutual),
        Matcher::Authenticated(Some(text)) => Ok(Leaf::Named(pool.keep_text(alloc, text)?)),
    }
}

// Makes the leaf of a test of a header, and adds its texts to the pool.
fn header_leaf(pool: &mut Pool, alloc: Global, test: &HeaderMatcher<'_>) -> Result<Leaf, AllocError>
    ensures grows { Grows pool.old pool.new }
    ensures found { IfOk result (λ leaf. GoodLeaf pool.new leaf
        × (leaf_in pool.new leaf ≡ HeaderOf test.now)) }
{
    let name = NameLeaf {
        name: pool.keep_lowered(alloc, test.name)?,
        invert_match: test.invert_match,
        treat_missing_header_as_empty: test.treat_missing_header_as_empty,
    };
    match &test.specifier {
        Specifier::Present(wanted) => Ok(Leaf::Present(name, *wanted)),
        Specifier::Text(text) => Ok(Leaf::HeaderText(name, pool.keep_text(alloc, text)?)),
        Specifier::Range(range) => Ok(Leaf::HeaderRange(name, *range)),
    }
}

// Whether the request passes the leaf's test. It takes no memory.
#[inline(always)]
fn leaf_passes(pool: &Pool, leaf: &Leaf, request: &Request) -> bool
    requires { GoodLeaf pool.now leaf.now }
    ensures { result ≡ matcher_holds (leaf_in pool.now leaf.now) request.now }
{
    match leaf {
        Leaf::UrlPath(test) => path_passes(pool, test, request),
        Leaf::HeaderText(name, test) => header_text_passes(pool, name, test, request),
        other => other_leaf_passes(pool, other, request),
    }
}

// The same, in a function that is not inlined.
#[inline(never)]
fn other_leaf_passes(pool: &Pool, leaf: &Leaf, request: &Request) -> bool
    requires { GoodLeaf pool.now leaf.now }
    ensures { result ≡ matcher_holds (leaf_in pool.now leaf.now) request.now }
{
    match leaf {
        Leaf::UrlPath(test) => path_passes(pool, test, request),
        Leaf::HeaderText(name, test) => header_text_passes(pool, name, test, request),
        Leaf::Present(name, wanted) => {
            let found = header_at(pool, name, request).is_some();
            (found == *wanted) != name.invert_match
        }
        Leaf::HeaderRange(name, range) => match value_at(pool, name, request) {
            Some(value) => range.matches(value) != name.invert_match,
            None => false,
        },
        Leaf::Address(source, place) => {
            address_matches(*source, &pool.ranges[*place as usize], request)
        }
        Leaf::Port(port) => port_matches(*port, request),
        Leaf::PortRange(range) => port_range_matches(range, request),
        Leaf::ServerName(test) => server_name_passes(pool, test, request),
        Leaf::Mutual => request.conn().mtls == Some(true),
        Leaf::Named(test) => named_passes(pool, test, request),
    }
}

// Whether the target up to its first `?` or `#` passes the test.
#[inline(always)]
fn path_passes(pool: &Pool, test: &TextLeaf, request: &Request) -> bool
    requires { GoodText pool.now test.now }
    ensures { result ≡ matcher_holds (leaf_in pool.now (UrlPath test.now)) request.now }
{
    pool.text_passes(test, request.url_path())
}

// Whether the server name that the client requested passes the test; an absent one is the empty text.
fn server_name_passes(pool: &Pool, test: &TextLeaf, request: &Request) -> bool
    requires { GoodText pool.now test.now }
    ensures { result ≡ matcher_holds (leaf_in pool.now (ServerName test.now)) request.now }
{
    match &request.conn().requested_server_name {
        Some(name) => pool.text_passes(test, name.as_str()),
        None => pool.text_passes(test, ""),
    }
}

// The value of the header in the request, if it is present.
#[inline(always)]
fn header_at<'a>(pool: &Pool, name: &NameLeaf, request: &'a Request) -> Option<&'a str>
    requires { GoodName pool.now name.now }
    ensures { option_copied result ≡ header_of request.now (part_of name.now.name pool.now) }
{
    let name = pool.part(name.name);
    request.header(unsafe { str::from_utf8_unchecked(name) })
}

// The same; a missing header that counts as empty has the empty text.
#[inline(always)]
fn value_at<'a>(pool: &Pool, name: &NameLeaf, request: &'a Request) -> Option<&'a str>
    requires { GoodName pool.now name.now }
    ensures { option_copied result ≡ value_or_empty name.now.treat_missing_header_as_empty
        (header_of request.now (part_of name.now.name pool.now)) }
{
    match header_at(pool, name, request) {
        Some(value) => Some(value),
        None if name.treat_missing_header_as_empty => Some(""),
        None => None,
    }
}

// Whether the header's value passes the test of texts, or fails it if the test is inverted.
#[inline(never)]
fn header_text_passes(pool: &Pool, name: &NameLeaf, test: &TextLeaf, request: &Request) -> bool
    requires name { GoodName pool.now name.now }
    requires text { GoodText pool.now test.now }
    ensures { result ≡ matcher_holds (leaf_in pool.now (HeaderText name.now test.now)) request.now }
{
    match value_at(pool, name, request) {
        Some(value) => pool.text_passes(test, value) != name.invert_match,
        None => false,
    }
}

// Whether the connection is known to use mutual TLS, and its peer's name passes the test.
fn named_passes(pool: &Pool, test: &TextLeaf, request: &Request) -> bool
    requires { GoodText pool.now test.now }
    ensures { result ≡ matcher_holds (leaf_in pool.now (Named test.now)) request.now }
{
    let conn = request.conn();
    if conn.mtls != Some(true) {
        return false;
    }
    match peer_name(conn) {
        Some(name) => pool.text_passes(test, name),
        None => false,
    }
}
