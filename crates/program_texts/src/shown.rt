//! Texts of the command line in messages. Characters that would command a terminal are escaped.
ghost use Rattle.std.specs.Prelude.{◌≡◌, ◌++◌, IfOk, OnOk, string_bytes};
ghost use Rattle.program_texts.specs.Shown.{is_hidden, shown, shown_character};

use std::alloc::{AllocError, Global};

/// The text as messages print it: hidden characters are escaped, as `\u{1b}`.
pub fn shown(alloc: Global, text: &str) -> Result<String, AllocError>
    ensures { IfOk result (λ shown_text. string_bytes shown_text ≡ shown text.now) }
{
    let mut shown = String::new(alloc);
    for c in text.chars() {
        push_shown(alloc, &mut shown, c)?;
    }
    Ok(shown)
}

/// The lines of a text as messages print them: as `shown`, except that line feeds stay.
pub fn shown_lines(alloc: Global, text: &str) -> Result<String, AllocError> {
    let mut shown = String::new(alloc);
    for c in text.chars() {
        match c {
            '\n' => shown.push('\n')?,
            _ => push_shown(alloc, &mut shown, c)?,
        }
    }
    Ok(shown)
}

/// Appends the character as messages print it.
pub fn push_shown(alloc: Global, text: &mut String, c: char) -> Result<(), AllocError>
    ensures { OnOk result (string_bytes text.new ≡ string_bytes text.old ++ shown_character c) }
{
    if is_hidden(c as u32) {
        let code = format!(in alloc; "\\u{{{:x}}}", c as u32)?;
        return text.push_str(code.as_str());
    }
    text.push(c)
}

// Whether the character with this code is invisible, or moves its neighbours.
fn is_hidden(code: u32) -> bool
    ensures { result ≡ is_hidden code }
{
    code <= 0x1f
        || (0x7f <= code && code <= 0x9f)
        || code == 0x61c
        || (0x200b <= code && code <= 0x200f)
        || (0x2028 <= code && code <= 0x202e)
        || (0x2060 <= code && code <= 0x206f)
        || code == 0xfeff
}
