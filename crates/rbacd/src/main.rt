//! Judges requests by a role-based access policy.
#![tactic(auto)]

use program_jobs::MISTAKE;
use rbac_judge::Outcome;
use run::run;
use std::env::{Env, FillError};
use std::io::{ErrorKind, Write};
use std::process::ExitCode;
use std::{env, io};
use system::System;

pub mod run;
pub mod server;
pub mod system;

// The words of the command line; the first is the program's own name.
fn words_of<R: Env + AllocGlobal>(rt: &R) -> io::Result<Vec<String>> {
    Ok(env::args(rt)?.collect(rt.alloc())?)
}

// The index of the first word that is not UTF-8; 0 is the program's name. Words of more than 4,096 bytes are not
// examined.
fn first_bad_word<R: Env>(rt: &R) -> Option<usize> {
    let mut room = [0u8; 4_096];
    for index in 0..usize::MAX {
        match rt.arg(index, &mut room) {
            Ok(count) => {
                if str::from_utf8(room.get(..count).unwrap_or(&[])).is_err() {
                    return Some(index);
                }
            }
            Err(FillError::TooLong) => {}
            Err(FillError::NotPresent) => return None,
        }
    }
    None
}

// Prints why the words of the command line cannot be read.
fn write_word_fault<R: Env, E: Write>(rt: &R, cause: io::Error, errors: &mut E) {
    let _ = match first_bad_word(rt) {
        Some(index) => writeln!(
            errors,
            "error: word {index} of the command line is not UTF-8"
        ),
        None => writeln!(errors, "{cause}"),
    };
}

fn main(rt: HostRuntime) -> ExitCode {
    let mut errors = rt.stderr();
    let words = match words_of(&rt) {
        Ok(words) => words,
        Err(error) if error.kind() == ErrorKind::OutOfMemory => {
            let _ = rt.println(Outcome::Memory);
            return ExitCode::from(Outcome::Memory.status());
        }
        Err(error) => {
            write_word_fault(&rt, error, &mut errors);
            return ExitCode::from(MISTAKE);
        }
    };
    let mut out = io::writer(&rt);
    let system = System::of(&rt);
    let status = run(
        rt.alloc(),
        &words,
        &system,
        rt.reader(),
        &mut out,
        &mut errors,
    );
    ExitCode::from(status)
}
