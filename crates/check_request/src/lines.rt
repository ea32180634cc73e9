//! The field lines of a CheckRequest.

ghost use Rattle.std.specs.Prelude.{◌≡◌, ◌++◌, IfErr, IfOk, OnOk, filter, map, not};
ghost use Rattle.std.specs.List.{AllZip};
ghost use Rattle.http_front.specs.Parts.{field_view as line_view};
ghost use Rattle.proto_wire.specs.Fields.{field_view};
ghost use Rattle.proto_wire.specs.Maps.{SomeEntryFault, entries_view, text};
ghost use Rattle.proto_wire.specs.Merge.{parts_view};
ghost use Rattle.check_request.specs.Faults.{FaultOr, LinesFault};
ghost use Rattle.check_request.specs.Lines.{AreHeaders, AreLines, AreMapped, AreSent, IsHeader, entry_line, host_lines, is_pseudo, last_payload, line_of, raw_or};
ghost use Rattle.check_request.specs.declared.part.CheckPart.TheVariants.{Headers};
ghost use Rattle.check_request.specs.private.Headers.{HeadersFault, MapFault};

use crate::fault::CheckFault;
use crate::fields::{entries_in, fields_in};
use crate::part::CheckPart;
use http_front::Line;
use proto_wire::{Field, MapEntry, bytes_at, payloads_of};
use std::alloc::{AllocError, Global};

// The number of `headers` in an HttpRequest.
const HEADERS: u32 = 3;

// The number of `host` in an HttpRequest.
const HOST: u32 = 5;

// The number of `header_map` in an HttpRequest.
const HEADER_MAP: u32 = 13;

// The number of `headers` in a HeaderMap.
const MAP_HEADERS: u32 = 1;

// The numbers of `key`, `value` and `raw_value` in a HeaderValue.
const KEY: u32 = 1;

const VALUE: u32 = 2;

const RAW_VALUE: u32 = 3;

/// The field lines of an HttpRequest with these fields.
pub(crate) fn read_lines<'a>(alloc: Global, http: &[Field<'a>]) -> Result<Vec<Line<'a>>, CheckFault>
    ensures found { IfOk result (λ v. AreLines (map field_view http.now) (map line_view v.items)) }
    ensures fault { IfErr result (FaultOr (LinesFault (map field_view http.now))) }
{
    let sent = read_sent(alloc, http)?;
    let mut lines = without_pseudo(sent);
    push_host(&mut lines, bytes_at(http, HOST))?;
    Ok(lines)
}

// The field lines that were sent.
fn read_sent<'a>(alloc: Global, http: &[Field<'a>]) -> Result<Vec<Line<'a>>, CheckFault>
    ensures found { IfOk result (λ v. AreSent (map field_view http.now) (map line_view v.items)) }
    ensures fault { IfErr result (FaultOr (LinesFault (map field_view http.now))) }
{
    let raw = payloads_of(alloc, http, HEADER_MAP)?;
    if !raw.is_empty() {
        return read_header_map(alloc, &raw);
    }
    let parts = payloads_of(alloc, http, HEADERS)?;
    read_headers(alloc, &parts)
}

// The lines of a HeaderMap, which these payloads merge to.
fn read_header_map<'a>(alloc: Global, parts: &[&'a [u8]]) -> Result<Vec<Line<'a>>, CheckFault>
    ensures found { IfOk result (λ v. AreHeaders (parts_view parts.now) (map line_view v.items)) }
    ensures fault { IfErr result (FaultOr (MapFault (parts_view parts.now))) }
{
    let fields = fields_in(alloc, parts, CheckPart::HeaderMap)?;
    let headers = payloads_of(alloc, &fields, MAP_HEADERS)?;
    read_each(alloc, &headers)
}

// The line of each HeaderValue.
fn read_each<'a>(alloc: Global, parts: &[&'a [u8]]) -> Result<Vec<Line<'a>>, CheckFault>
    ensures found { IfOk result (λ v.
        AllZip IsHeader (parts_view parts.now) (map line_view v.items)) }
    ensures fault { IfErr result (FaultOr (HeadersFault (parts_view parts.now))) }
{
    let mut lines = Vec::with_capacity(alloc, parts.len())?;
    for (index, part) in parts.iter().enumerate() {
        let fields = fields_in(alloc, &[*part], CheckPart::Header(index))?;
        lines.push(line_of(&fields))?;
    }
    Ok(lines)
}

// The line of a HeaderValue with these fields.
fn line_of<'a>(fields: &[Field<'a>]) -> Line<'a>
    ensures { line_view result ≡ line_of (map field_view fields.now) }
{
    Line {
        name: bytes_at(fields, KEY),
        value: raw_or(bytes_at(fields, RAW_VALUE), bytes_at(fields, VALUE)),
    }
}

fn raw_or<'a>(raw: &'a [u8], value: &'a [u8]) -> &'a [u8]
    ensures { result.now ≡ raw_or raw.now value.now }
{
    if raw.is_empty() {
        return value;
    }
    raw
}

// The lines of a map of headers.
fn read_headers<'a>(alloc: Global, parts: &[&'a [u8]]) -> Result<Vec<Line<'a>>, CheckFault>
    ensures found { IfOk result (λ v. AreMapped (parts_view parts.now) (map line_view v.items)) }
    ensures fault { IfErr result (FaultOr (λ p e. (p ≡ Headers)
        × SomeEntryFault text (parts_view parts.now) e)) }
{
    let entries = entries_in(alloc, parts, CheckPart::Headers)?;
    Ok(entry_lines(alloc, &entries)?)
}

// The lines of these entries.
fn entry_lines<'a>(
    alloc: Global,
    entries: &[MapEntry<'a, &'a str>],
) -> Result<Vec<Line<'a>>, AllocError>
    ensures { IfOk result (λ v. map line_view v.items
        ≡ map entry_line (entries_view text (λ key. key.now) entries.now)) }
{
    let mut lines = Vec::with_capacity(alloc, entries.len())?;
    for entry in entries {
        lines.push(Line {
            name: entry.0.as_bytes(),
            value: last_payload(&entry.1),
        })?;
    }
    Ok(lines)
}

/// The last payload; empty if there is none.
pub(crate) fn last_payload<'a>(parts: &[&'a [u8]]) -> &'a [u8]
    ensures { result.now ≡ last_payload (parts_view parts.now) }
{
    match parts.last() {
        Some(part) => part,
        None => &[],
    }
}

// The lines but those of pseudo-headers.
fn without_pseudo(lines: Vec<Line<'_>>) -> Vec<Line<'_>>
    ensures { map line_view result.items
        ≡ filter (λ l. not (is_pseudo l.0)) (map line_view lines.entry.items) }
{
    let mut lines = lines;
    lines.retain(|line| !is_pseudo(line.name));
    lines
}

fn is_pseudo(name: &[u8]) -> bool
    ensures { result ≡ is_pseudo name.now }
{
    name.first() == Some(&b':')
}

// Appends the line of a host, unless it is empty.
fn push_host<'a>(lines: &mut Vec<Line<'a>>, host: &'a [u8]) -> Result<(), AllocError>
    ensures { OnOk result (map line_view lines.new.items
        ≡ map line_view lines.old.items ++ host_lines host.now) }
{
    if host.is_empty() {
        return Ok(());
    }
    lines.push(Line {
        name: b":authority",
        value: host,
    })?;
    Ok(())
}
