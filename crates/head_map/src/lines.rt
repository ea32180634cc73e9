//! The field lines of a request (RFC 9110, section 5).
ghost use Rattle.std.specs.Prelude.{◌≡◌, ◌∷◌, [], IfOk, MatchResult, codes, filter, map, not, option_map};
ghost use Rattle.std.specs.List.{list_all};
ghost use Rattle.std.specs.Str.{bytes_eq};
ghost use Rattle.std.specs.String.{string_bytes};
ghost use Rattle.attributes.specs.Headers.{lines_view, values_of};
ghost use Rattle.head_map.specs.Mapped.{is_named, is_present, lines_with_host, other_lines};
ghost use Rattle.head_map.specs.private.Lines.{LacksOneValue};

use crate::fact::{MapFault, NamedFact};
use std::alloc::{AllocError, Global};

// A name in lower case and a value.
type Line = (String, String);

/// The value of the one line of this name.
pub(crate) fn value_of<'a>(lines: &'a [Line], name: &str) -> Result<&'a str, MapFault>
    ensures { MatchResult result (λ value. values_of name.now (lines_view lines.now) ≡ value.now ∷ [])
        (LacksOneValue name.now (lines_view lines.now)) }
{
    let mut found: Option<&'a str> = None;
    for line in lines {
        if line.0.as_str() == name {
            if found.is_some() {
                return Err(MapFault::Doubled);
            }
            found = Some(line.1.as_str());
        }
    }
    match found {
        Some(value) => Ok(value),
        None => Err(MapFault::Missing),
    }
}

/// Whether each of these names has a line.
pub(crate) fn are_present(lines: &[Line], names: &[String]) -> bool
    ensures { result ≡ list_all (is_present (lines_view lines.now)) (map string_bytes names.now) }
{
    for name in names {
        if !is_present(lines, name.as_str()) {
            return false;
        }
    }
    true
}

// Whether one of the lines has this name.
fn is_present(lines: &[Line], name: &str) -> bool
    ensures { result ≡ is_present (lines_view lines.now) name.now }
{
    for line in lines {
        if line.0.as_str() == name {
            return true;
        }
    }
    false
}

// Whether one of the fields has this name.
fn is_named(named: &[NamedFact], name: &str) -> bool
    ensures { result ≡ is_named named.now name.now }
{
    named.iter().any(|one| one.field.as_str() == name)
}

/// The lines of the fields that are not named.
pub(crate) fn other_lines(named: &[NamedFact], lines: Vec<Line>) -> Vec<Line>
    ensures { lines_view result.items ≡ other_lines named.now (lines_view lines.items) }
{
    let mut lines = lines;
    lines.retain(|line| !is_named(named, line.0.as_str()));
    lines
}

/// The lines with this host instead of theirs, if there is one.
pub(crate) fn lines_with_host(
    alloc: Global,
    host: Option<String>,
    lines: Vec<Line>,
) -> Result<Vec<Line>, AllocError>
    ensures { IfOk result (λ new. lines_view new.items
        ≡ lines_with_host (option_map string_bytes host) (lines_view lines.items)) }
{
    match host {
        None => Ok(lines),
        Some(host) => {
            let mut lines = without_host(lines);
            lines.push((String::from_str(alloc, "host")?, host))?;
            Ok(lines)
        }
    }
}

// The lines but those of the Host field.
fn without_host(lines: Vec<Line>) -> Vec<Line>
    ensures { lines_view result.items
        ≡ filter (λ l. not (bytes_eq l.0 (codes "host"))) (lines_view lines.items) }
{
    let mut lines = lines;
    lines.retain(|line| line.0.as_str() != "host");
    lines
}
