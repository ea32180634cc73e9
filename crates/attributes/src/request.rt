//! A request as values: its parts, its headers and the facts of its connection.
ghost use Rattle.std.specs.Prelude.{◌≡◌, ◌<◌, ◌≤◌, ◌+◌, ◌^◌, ◌==◌, List, All, IfOk, IsTrue, length, map};
ghost use Rattle.std.specs.FinMap.{entries, is_sorted};
ghost use Rattle.std.specs.List.{after_first, before_first};
ghost use Rattle.std.specs.Option.{option_copied};
ghost use Rattle.std.specs.String.{string_bytes};
ghost use Rattle.attributes.specs.Attributes.{query_of, url_path_of};
ghost use Rattle.attributes.specs.Conn.{conn_view};
ghost use Rattle.attributes.specs.Headers.{Entry, headers_of, line_entry, lines_view};
ghost use Rattle.attributes.specs.Request.{IsRequest, IsTextEntry, header_of, in_protocol, request_of};
ghost use Rattle.attributes.specs.private.Parts.{AreFields, entries_in};
ghost use Rattle.attributes.specs.private.Request.{IsCut};

use crate::conn::{Conn, facts_are_sound};
use crate::draft::{Draft, Room, add_lines, add_own};
use crate::headers::{Field, join_sorted, sort_by_name};
use crate::lookup::Headers;
use crate::part::Spot;
use crate::protocol::Protocol;
use std::alloc::{AllocError, Global};
use std::marker::Model;
use std::sync::Arc;

/// A request: its method, target, protocol and headers, and the facts of its connection. Its texts
/// are parts of one text, that of the headers.
#[derive(Debug, Drop)]
pub struct Request {
    headers: Headers,
    // the end of the value of `:method`
    method: Spot,
    // the end of the value of `:path`, and parts of that
    target: Spot,
    url_path: Spot,
    query: Spot,
    lines: usize,
    protocol: Protocol,
    conn: Arc<Conn>,
}

impl Model for Request {
    ghost use Rattle.attributes.specs.Conn.{conn_view};
    ghost use Rattle.attributes.specs.Request.{RequestValue};
    ghost use Rattle.attributes.specs.contracts.address.Ip as ip;
    ghost use Rattle.attributes.specs.contracts.protocol.Protocol as protocols;
    ghost use Rattle.std.specs.Coded.{codes};
    ghost use Rattle.attributes.specs.private.Headers.{header_map_code};
    ghost use Rattle.attributes.specs.private.Parts.{spot_of};
    ghost use Rattle.attributes.specs.private.Request.{IsKept, of_parts};

    ghost Value = { RequestValue };

    ghost coded = { Prim.hlevel (codes, header_map_code, ip.the_row.coded, protocols.the_row.coded) };

    ghost view = { λ r. of_parts (spot_of r.headers r.method) (spot_of r.headers r.target)
        r.protocol r.lines r.headers (conn_view r.conn.value) };

    ghost invariant = { λ r. IsKept
        (of_parts (spot_of r.headers r.method) (spot_of r.headers r.target)
        r.protocol r.lines r.headers (conn_view r.conn.value))
        r.headers r.method r.target r.url_path r.query };
}

impl Request {
    /// A request with these field lines in order of arrival, each a name in lower case and a value.
    /// The values of one name are joined with `,` (RFC 9110 section 5.3). The Host field becomes `:authority`, and `:method`, `:path` and `:scheme`
    /// are added. The caller gives names without a colon, and at most one Host; then no line is
    /// joined to a pseudo-header.
    pub fn new(
        alloc: Global,
        method: String,
        target: String,
        protocol: Protocol,
        lines: Vec<(String, String)>,
        conn: Conn,
    ) -> Result<Request, AllocError>
        ensures { IfOk result (λ r. r ≡ request_of (string_bytes method) (string_bytes target)
            protocol (lines_view lines.items) (conn_view conn)) }
    {
        let room = Room {
            lines: lines.len(),
            bytes: method.len().saturating_add(target.len()),
        };
        let conn = Arc::new(alloc, conn)?;
        let mut draft = Draft::new(alloc, method.as_str(), target.as_str(), room)?;
        add_lines(&mut draft, lines.as_slice())?;
        draft.finish(alloc, protocol, conn)
    }

    /// The method, as it was sent.
    pub fn method(&self) -> &str
        ensures { result.now ≡ self.now.method }
    {
        self.headers.text_of(self.method)
    }

    /// The whole target.
    pub fn target(&self) -> &str
        ensures { result.now ≡ self.now.target }
    {
        self.headers.text_of(self.target)
    }

    /// The target before its first `#` and the first `?`.
    pub fn url_path(&self) -> &str
        ensures { result.now ≡ url_path_of self.now.target }
    {
        self.headers.text_of(self.url_path)
    }

    /// The protocol.
    pub fn protocol(&self) -> Protocol
        ensures { result ≡ self.now.protocol }
    {
        self.protocol
    }

    /// The same request, of another protocol.
    pub fn in_protocol(self, protocol: Protocol) -> Request
        ensures { result ≡ in_protocol protocol self }
    {
        Request { protocol, ..self }
    }

    /// The number of field lines, before values of one name are joined.
    pub fn line_count(&self) -> usize
        ensures { result ≡ self.now.lines }
    {
        self.lines
    }

    /// All headers by ascending name, pseudo-headers included.
    pub fn headers(&self) -> &Headers
        ensures value { result.now ≡ entries self.now.headers }
        ensures sound { IsRequest self.now }
    {
        &self.headers
    }

    /// The value of the header of this name in lower case; the Host field is `:authority`.
    pub fn header(&self, name: &str) -> Option<&str>
        ensures { option_copied result ≡ header_of self.now name.now }
    {
        self.headers.find(name)
    }

    /// The facts of the connection.
    pub fn conn(&self) -> &Conn
        ensures facts { conn_view result.now ≡ self.now.facts }
        ensures sound { IsRequest self.now }
    {
        &self.conn
    }

    pub(crate) fn query(&self) -> &str
        ensures { result.now ≡ query_of self.now.target }
    {
        self.headers.text_of(self.query)
    }
}

impl Draft {
    /// The request of this draft. The values of one name are joined with `,` (RFC 9110 section
    /// 5.3). The pseudo-headers `:method`, `:path` and `:scheme` are added.
    pub fn finish(
        self,
        alloc: Global,
        protocol: Protocol,
        conn: Arc<Conn>,
    ) -> Result<Request, AllocError>
        ensures { IfOk result (λ r. (lines : List Entry) → self.entries ≡ map line_entry lines
            → r ≡ request_of self.method self.target protocol lines (conn_view conn.value)) }
    {
        facts_are_sound(&conn);
        let Draft {
            mut text,
            mut fields,
            method,
            target,
        } = self;
        let lines = fields.len();
        add_own(&mut text, &mut fields, method, target, conn.scheme.as_str())?;
        let headers = sorted_headers(alloc, text, fields)?;
        // where they are if the host is before them
        let method = headers.end_of(":method", 1, method.len());
        let target = headers.end_of(":path", 2, target.len());
        let cut = cut_target(headers.text_of(target));
        Ok(Request {
            headers,
            method,
            target,
            url_path: cut.url_path(target),
            query: cut.query(target),
            lines,
            protocol,
            conn,
        })
    }
}

// The headers of these fields.
fn sorted_headers(alloc: Global, text: Vec<u8>, fields: Vec<Field>) -> Result<Headers, AllocError>
    requires { AreFields text.items fields.items }
    ensures joined { IfOk result (λ headers.
        headers ≡ entries (headers_of (entries_in text.items fields.items))) }
    ensures texts { IfOk result (λ headers. All IsTextEntry headers) }
{
    let mut text = text;
    let mut fields = fields;
    sort_by_name(text.as_slice(), &mut fields)?;
    let joined = join_sorted(alloc, &mut text, fields)?;
    Ok(Headers::new(text, joined))
}

// Where the path ends in a target, and where its query begins and ends.
#[derive(Clone, Copy)]
struct CutPlaces {
    path_end: usize,
    query_from: usize,
    query_to: usize,
}

impl CutPlaces {
    // The path of the target that is here.
    fn url_path(self, target: Spot) -> Spot
        requires { target.from + self.path_end < 2 ^ 64 }
        ensures { result ≡ (record {
          index = target.index;
          from = target.from;
          to = target.from + self.path_end;
        }) }
    {
        Spot {
            index: target.index,
            from: target.from,
            to: target.from + self.path_end,
        }
    }

    // The query of the target that is here.
    fn query(self, target: Spot) -> Spot
        requires fits { target.from + self.query_to < 2 ^ 64 }
        requires ordered { self.query_from ≤ self.query_to }
        ensures { result ≡ (record {
          index = target.index;
          from = target.from + self.query_from;
          to = target.from + self.query_to;
        }) }
    {
        Spot {
            index: target.index,
            from: target.from + self.query_from,
            to: target.from + self.query_to,
        }
    }
}

// Where the target is cut at its first `#`, and before that at the first `?`.
fn cut_target(target: &str) -> CutPlaces
    ensures { IsCut target.now result }
{
    let whole = before(target, '#');
    let (path, query) = cut(whole, '?');
    CutPlaces {
        path_end: path.len(),
        query_from: whole.len() - query.len(),
        query_to: whole.len(),
    }
}

// The text before the first such character; the whole text if there is none.
fn before(text: &str, mark: char) -> &str
    requires { mark < 128 }
    ensures value { result.now ≡ before_first (λ b. b == mark) text.now }
{
    match text.split_once(mark) {
        Some((front, _)) => front,
        None => text,
    }
}

// The text before the first such character, and the text after it. If there is none, the whole text
// and the empty one.
fn cut(text: &str, mark: char) -> (&str, &str)
    requires { mark < 128 }
    ensures front { result.0.now ≡ before_first (λ b. b == mark) text.now }
    ensures back { result.1.now ≡ after_first (λ b. b == mark) text.now }
{
    match text.split_once(mark) {
        Some(parts) => parts,
        None => (text, ""),
    }
}

/// Every request satisfies `IsRequest`. A proof that needs this calls the function.
pub fn request_is_sound(request: &Request)
    ensures { IsRequest request.now }
{
    request.conn();
}
