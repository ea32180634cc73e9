//! A request as the bytes of a head.
ghost use Rattle.std.specs.Prelude.{◌≡◌, ◌++◌, IfOk, OnOk, codes};
ghost use Rattle.std.specs.String.{string_bytes};
ghost use Rattle.attributes.specs.Headers.{lines_view};
ghost use Rattle.attributes.specs.Request.{head_protocol, protocol_of};
ghost use Rattle.httparse.specs.Ascii.{crlf_bytes};
ghost use Rattle.head_map.specs.Heads.{field_line, field_lines, head_of};
ghost use Rattle.head_map.specs.Mapped.{parts_view};

use crate::parts::Parts;
use attributes::Protocol;
use std::alloc::{AllocError, Global};

/// The head of the request with these parts, as it is written. It is of HTTP/1.1 or, if not, of HTTP/1.0.
pub fn head_of(alloc: Global, parts: &Parts, http11: bool) -> Result<String, AllocError>
    ensures { IfOk result (λ text. string_bytes text ≡ head_of (parts_view parts.now) http11) }
{
    let mut text = request_line(alloc, parts, http11)?;
    push_lines(&mut text, &parts.lines)?;
    text.push_str("\r\n")?;
    Ok(text)
}

// The request line.
fn request_line(alloc: Global, parts: &Parts, http11: bool) -> Result<String, AllocError>
    ensures { let p = parts_view parts.now in IfOk result (λ text. string_bytes text
        ≡ p.method ++ codes " " ++ p.target ++ codes " " ++ protocol_of (head_protocol http11) ++ crlf_bytes) }
{
    let mut text = String::from_str(alloc, parts.method.as_str())?;
    text.push_str(" ")?;
    text.push_str(parts.target.as_str())?;
    text.push_str(" ")?;
    text.push_str(Protocol::of_head(http11).text())?;
    text.push_str("\r\n")?;
    Ok(text)
}

// Appends the field lines.
fn push_lines(text: &mut String, lines: &[(String, String)]) -> Result<(), AllocError>
    ensures { OnOk result (string_bytes text.new ≡ string_bytes text.old ++ field_lines (lines_view lines.now)) }
{
    let mut rest = lines;
    while let [first, others @ ..] = rest {
        push_line(text, first.0.as_str(), first.1.as_str())?;
        rest = others;
    }
    Ok(())
}

// Appends a field line.
fn push_line(text: &mut String, name: &str, value: &str) -> Result<(), AllocError>
    ensures { OnOk result (string_bytes text.new ≡ string_bytes text.old ++ field_line (name.now, value.now)) }
{
    text.push_str(name)?;
    text.push_str(": ")?;
    text.push_str(value)?;
    text.push_str("\r\n")
}
