//! The limit that a head exceeds, in words for its sender. No contract describes these texts.
use attributes::{Limit, Limits};
use std::alloc::{AllocError, Global};

/// The part of a head that exceeds its limit, if that is known. The head is whole and keeps the rules of HTTP.
pub(crate) fn passed_limit(alloc: Global, head: &[u8]) -> Result<Option<String>, AllocError> {
    let lines = lines_of(alloc, head)?;
    let Some((first, fields)) = lines.split_first() else {
        return Ok(None);
    };
    let mut words = first.split(|byte| *byte == b' ');
    let method = words.next().unwrap_or(&[]);
    let target = words.next().unwrap_or(&[]);
    if let Some(cause) = above(alloc, "the method", method.len(), Limit::Method)? {
        return Ok(Some(cause));
    }
    if let Some(cause) = above(alloc, "the target", target.len(), Limit::Target)? {
        return Ok(Some(cause));
    }
    passed_by_fields(alloc, fields)
}

// The first line of a head and the lines of its fields, without line ends.
fn lines_of<'a>(alloc: Global, head: &'a [u8]) -> Result<Vec<&'a [u8]>, AllocError> {
    let mut lines = Vec::new(alloc);
    for line in head.split(|byte| *byte == b'\n') {
        let line = line.strip_suffix(b"\r").unwrap_or(line);
        if !line.is_empty() {
            lines.push(line)?;
        } else if !lines.is_empty() {
            return Ok(lines);
        }
    }
    Ok(lines)
}

// The part of these fields that exceeds its limit.
fn passed_by_fields(alloc: Global, fields: &[&[u8]]) -> Result<Option<String>, AllocError> {
    let (count, most) = (
        fields.len().saturating_add(3),
        Limits::largest().get(Limit::Fields),
    );
    if count > most {
        return Ok(Some(format!(in alloc;
            "there are {count} headers, counting :method, :path and :scheme; there may be {most}"
        )?));
    }
    for field in fields {
        let name = name_of(field);
        if let Some(cause) = above(alloc, "the name of a header", name.len(), Limit::Name)? {
            return Ok(Some(cause));
        }
        let what = format!(in alloc; "the value of {:?}", str::from_utf8(name).unwrap_or(""))?;
        let count = joined_length(fields, name);
        if let Some(cause) = above(alloc, what.as_str(), count, Limit::Value)? {
            return Ok(Some(cause));
        }
    }
    Ok(None)
}

// The words for a text that exceeds its limit; None if it does not.
fn above(
    alloc: Global,
    what: &str,
    count: usize,
    limit: Limit,
) -> Result<Option<String>, AllocError> {
    let most = Limits::largest().get(limit);
    if count <= most {
        return Ok(None);
    }
    Ok(Some(format!(in alloc; "{what} has {count} bytes; it may have {most}")?))
}

// The name of a field, which ends at a colon.
fn name_of(field: &[u8]) -> &[u8] {
    field.split(|byte| *byte == b':').next().unwrap_or(&[])
}

// The value of a field, without the white space around it.
fn value_of(field: &[u8]) -> &[u8] {
    let start = name_of(field).len().saturating_add(1);
    field.get(start..).unwrap_or(&[]).trim_ascii()
}

// The length in bytes of the values of all fields with this name, joined by commas.
fn joined_length(fields: &[&[u8]], name: &[u8]) -> usize {
    let mut count: usize = 0;
    let mut is_first = true;
    for field in fields {
        if name_of(field).eq_ignore_ascii_case(name) {
            let comma = if is_first { 0 } else { 1 };
            is_first = false;
            count = count
                .saturating_add(comma)
                .saturating_add(value_of(field).len());
        }
    }
    count
}
