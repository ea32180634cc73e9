//! The texts and the flags that the words give.
ghost use Rattle.std.specs.Prelude.{◌≡◌, IfOk, map, option_map, string_bytes};
ghost use Rattle.clap.specs.Words.{all_of, first_of, found_of, rows_of};
ghost use Rattle.command_line.specs.Words.{HasFlag};

use clap::ArgMatches;
use std::alloc::{AllocError, Global};

/// The value of this argument, if it has one.
pub(crate) fn text_of(
    alloc: Global,
    matches: &ArgMatches<'_>,
    name: &str,
) -> Result<Option<String>, AllocError>
    ensures { IfOk result (λ text.
        first_of name.now (rows_of (found_of matches.now)) ≡ option_map string_bytes text) }
{
    match matches.get_str(name) {
        Some(text) => Ok(Some(String::from_str(alloc, text)?)),
        None => Ok(None),
    }
}

/// The values of this argument, if it has any.
pub(crate) fn texts_of(
    alloc: Global,
    matches: &ArgMatches<'_>,
    name: &str,
) -> Result<Option<Vec<String>>, AllocError>
    ensures { IfOk result (λ texts. all_of name.now (rows_of (found_of matches.now))
        ≡ option_map (λ v. map string_bytes v.items) texts) }
{
    match matches.get_strs(name) {
        Some(texts) => Ok(Some(copy_texts(alloc, texts)?)),
        None => Ok(None),
    }
}

fn copy_texts(alloc: Global, texts: &[&str]) -> Result<Vec<String>, AllocError>
    ensures { IfOk result (λ v. map string_bytes v.items ≡ map (λ text. text.now) texts.now) }
{
    let mut copies = Vec::new(alloc);
    for text in texts {
        copies.push(String::from_str(alloc, text)?)?;
    }
    Ok(copies)
}

/// Whether this flag was given.
pub(crate) fn has_flag(matches: &ArgMatches<'_>, name: &str) -> bool
    ensures { HasFlag name.now (rows_of (found_of matches.now)) result }
{
    match matches.get_str(name) {
        Some(text) => text == "true",
        None => false,
    }
}
