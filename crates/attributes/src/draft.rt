//! A request in the making: a method, a target and field lines, gathered in one text.
ghost use Rattle.std.specs.Prelude.{◌≡◌, ◌++◌, [], IfOk, MatchResult, OnOk, map};
ghost use Rattle.std.specs.Char.{to_ascii_lowercase};
ghost use Rattle.std.specs.Str.{IsAscii};
ghost use Rattle.attributes.specs.Draft.{first_draft, with_entries, with_entry};
ghost use Rattle.attributes.specs.Headers.{header_name, line_entry, lines_view};
ghost use Rattle.attributes.specs.private.Drafts.{IsAdded, own_entries, own_names};
ghost use Rattle.attributes.specs.private.Parts.{AreFields, Begins, IsAt, IsPart, entries_in, part_of};

use crate::headers::Field;
use crate::lookup::start_of;
use crate::part::{Part, append, append_lower, text_at};
use std::alloc::{AllocError, Global};
use std::marker::Model;

// The names of the headers that are no field lines, in a row.
const NAMES: &str = ":authority:method:path:scheme";

// Where each of them is.
const AUTHORITY: Part = Part { from: 0, to: 10 };

const METHOD: Part = Part { from: 10, to: 17 };

const PATH: Part = Part { from: 17, to: 22 };

const SCHEME: Part = Part { from: 22, to: 29 };

// The bytes of these names and of a scheme.
const OWN_BYTES: usize = 40;

/// The room that a draft has from the start. It takes more if it needs more.
#[derive(Clone, Copy, Debug)]
pub struct Room {
    /// The number of field lines.
    pub lines: usize,
    /// The bytes of the method, the target, and all names and values.
    pub bytes: usize,
}

/// A request in the making: a method, a target and field lines.
#[derive(Debug, Drop)]
pub struct Draft {
    pub(crate) text: Vec<u8>,
    pub(crate) fields: Vec<Field>,
    pub(crate) method: Part,
    pub(crate) target: Part,
}

impl Model for Draft {
    ghost use Rattle.attributes.specs.Draft.{DraftValue};
    ghost use Rattle.attributes.specs.private.Drafts.{IsDraft, draft_in};

    ghost Value = { DraftValue };

    ghost view = { λ d. draft_in d.text.items d.fields.items d.method d.target };

    ghost invariant = { λ d. IsDraft d.text.items d.fields.items d.method d.target };
}

impl Draft {
    /// A draft of this method and target, without field lines.
    pub fn new(alloc: Global, method: &str, target: &str, room: Room) -> Result<Draft, AllocError>
        ensures { IfOk result (λ d. d ≡ first_draft method.now target.now) }
    {
        let fields = Vec::with_capacity(alloc, room.lines.saturating_add(3))?;
        let mut text = Vec::with_capacity(alloc, room.bytes.saturating_add(OWN_BYTES))?;
        append(&mut text, NAMES)?;
        let method = append(&mut text, method)?;
        let target = append(&mut text, target)?;
        Ok(Draft {
            text,
            fields,
            method,
            target,
        })
    }

    /// Adds a field line: a name in lower case and a value.
    pub fn add_line(&mut self, name: &str, value: &str) -> Result<(), AllocError>
        ensures { OnOk result (self.new
            ≡ with_entry self.old (line_entry (name.now, value.now))) }
    {
        let name = add_name(&mut self.text, name)?;
        push_field(&mut self.text, &mut self.fields, name, value)
    }

    /// Adds a field line as it was sent: a name, which is kept in lower case, and a value.
    pub fn add_sent_line(&mut self, name: &str, value: &str) -> Result<(), AllocError>
        requires { IsAscii name.now }
        ensures { OnOk result (self.new
            ≡ with_entry self.old (line_entry (map to_ascii_lowercase name.now, value.now))) }
    {
        let name = add_sent_name(&mut self.text, name)?;
        push_field(&mut self.text, &mut self.fields, name, value)
    }
}

/// Adds field lines, each a name in lower case and a value.
pub(crate) fn add_lines(draft: &mut Draft, lines: &[(String, String)]) -> Result<(), AllocError>
    ensures { OnOk result (draft.new
        ≡ with_entries draft.old (map line_entry (lines_view lines.now))) }
{
    for line in lines {
        draft.add_line(line.0.as_str(), line.1.as_str())?;
    }
    Ok(())
}

/// Adds the pseudo-headers as fields.
pub(crate) fn add_own(
    text: &mut Vec<u8>,
    fields: &mut Vec<Field>,
    method: Part,
    target: Part,
    scheme: &str,
) -> Result<(), AllocError>
    requires names { Begins own_names text.old.items }
    requires fields { AreFields text.old.items fields.old.items }
    requires method { IsPart text.old.items method }
    requires target { IsPart text.old.items target }
    ensures parts { OnOk result (AreFields text.new.items fields.new.items) }
    ensures entries { OnOk result (entries_in text.new.items fields.new.items
        ≡ entries_in text.old.items fields.old.items
        ++ own_entries (part_of text.old.items method) (part_of text.old.items target) scheme.now) }
{
    let scheme = append(text, scheme)?;
    let text = text.as_slice();
    fields.push(field_of(text, METHOD, method))?;
    fields.push(field_of(text, PATH, target))?;
    fields.push(field_of(text, SCHEME, scheme))?;
    Ok(())
}

// The field of this name and this value.
fn field_of(text: &[u8], name: Part, value: Part) -> Field
    requires { IsPart text.now name }
    ensures name { result.name ≡ name }
    ensures value { result.value ≡ value }
{
    Field {
        start: start_of(text_at(text, name)),
        name,
        value,
    }
}

// Adds a field of this name, and its value to the text.
fn push_field(
    text: &mut Vec<u8>,
    fields: &mut Vec<Field>,
    name: Part,
    value: &str,
) -> Result<(), AllocError>
    requires { IsPart text.old.items name }
    ensures grown { Begins text.old.items text.new.items }
    ensures added { MatchResult result
        (λ done. IsAdded text.new.items fields.old.items fields.new.items
        (part_of text.old.items name, value.now))
        (λ error. fields.new.items ≡ fields.old.items) }
{
    let value = append(text, value)?;
    fields.push(field_of(text.as_slice(), name, value))?;
    Ok(())
}

// The name of a line's header, as a part of the text.
fn add_name(text: &mut Vec<u8>, name: &str) -> Result<Part, AllocError>
    requires { Begins own_names text.old.items }
    ensures grown { Begins text.old.items text.new.items }
    ensures part { IfOk result (λ part. IsAt text.new.items part (header_name name.now)) }
{
    if name == "host" {
        return Ok(AUTHORITY);
    }
    append(text, name)
}

// The same for a name that is not in lower case yet.
fn add_sent_name(text: &mut Vec<u8>, name: &str) -> Result<Part, AllocError>
    requires names { Begins own_names text.old.items }
    requires ascii { IsAscii name.now }
    ensures grown { Begins text.old.items text.new.items }
    ensures part { IfOk result (λ part. IsAt text.new.items part
        (header_name (map to_ascii_lowercase name.now))) }
{
    if name.eq_ignore_ascii_case("host") {
        return Ok(AUTHORITY);
    }
    append_lower(text, name)
}
