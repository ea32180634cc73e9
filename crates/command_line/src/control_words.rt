//! The words of a control plane.
ghost use Rattle.std.specs.Prelude.{◌↔◌, IfNone, IfOk, IfSome, IsTrue, map, option_map, string_bytes};
ghost use Rattle.clap.specs.Words.{found_of, rows_of};
ghost use Rattle.command_line.specs.Words.{AreFilesOf, AreFilesOfRows, AreGrouped, IsJobOfRows};
ghost use Rattle.command_line.specs.declared.control_words.ControlWords.{ControlWords};
ghost use Rattle.command_line.specs.declared.control_words.SnapshotFiles.{SnapshotFiles};
ghost use Rattle.command_line.specs.declared.words.Job.TheVariants.{Control};

use crate::texts::{has_flag, text_of, texts_of};
use clap::ArgMatches;
use std::alloc::{AllocError, Global};

/// What a control plane serves, and where.
#[derive(Drop)]
pub struct ControlWords {
    /// The address at which it listens.
    pub listen: String,
    /// The files of its snapshots.
    pub snapshots: SnapshotFiles,
    /// The path of the log, if one is kept.
    pub log: Option<String>,
    /// Whether it serves a call of gRPC.
    pub grpc: bool,
}

/// The files of snapshots.
#[derive(Drop)]
pub enum SnapshotFiles {
    /// Files of filters: for each snapshot one of each name, in the order of the names.
    Filters {
        /// The names of the filters; there is at least one.
        names: Vec<String>,
        /// The paths of the files; their number is a multiple of the number of names.
        files: Vec<String>,
    },
    /// Files of responses; each is a snapshot.
    Responses {
        /// The paths of the files.
        files: Vec<String>,
    },
}

/// The words of the subcommand `control`, if its values are present and allowed.
pub(crate) fn control_words(
    alloc: Global,
    matches: &ArgMatches<'_>,
) -> Result<Option<ControlWords>, AllocError>
    ensures words { IfOk result (λ found. IfSome found (λ words.
        IsJobOfRows (rows_of (found_of matches.now)) (Control words))) }
    ensures none { IfOk result (λ found. IfNone found ((other : ControlWords)
        → ¬ (IsJobOfRows (rows_of (found_of matches.now)) (Control other)))) }
{
    let Some(listen) = text_of(alloc, matches, "listen")? else {
        return Ok(None);
    };
    let Some(snapshots) = snapshot_files(alloc, matches)? else {
        return Ok(None);
    };
    let log_path = text_of(alloc, matches, "log")?;
    let grpc = has_flag(matches, "grpc");
    Ok(Some(ControlWords {
        listen,
        snapshots,
        log: log_path,
        grpc,
    }))
}

// The files of the snapshots, if the words name them in one of the two ways.
fn snapshot_files(
    alloc: Global,
    matches: &ArgMatches<'_>,
) -> Result<Option<SnapshotFiles>, AllocError>
    ensures files { IfOk result (λ found. IfSome found (AreFilesOfRows (rows_of (found_of matches.now)))) }
    ensures none { IfOk result (λ found. IfNone found ((other : SnapshotFiles)
        → ¬ (AreFilesOfRows (rows_of (found_of matches.now)) other))) }
{
    let names = texts_of(alloc, matches, "name")?;
    let files = texts_of(alloc, matches, "file")?;
    let responses = texts_of(alloc, matches, "response")?;
    Ok(chosen_files(names, files, responses))
}

// The files of snapshots: with names, or of responses. None if both or neither are given, or if not each snapshot has
// a file for each name.
fn chosen_files(
    names: Option<Vec<String>>,
    files: Option<Vec<String>>,
    responses: Option<Vec<String>>,
) -> Option<SnapshotFiles>
    ensures files { let texts = option_map (λ v. map string_bytes v.items) in
        IfSome result (AreFilesOf (texts names) (texts files) (texts responses)) }
    ensures none { let texts = option_map (λ v. map string_bytes v.items) in
        IfNone result ((other : SnapshotFiles)
        → ¬ (AreFilesOf (texts names) (texts files) (texts responses) other)) }
{
    let Some(files) = files else {
        if names.is_some() {
            return None;
        }
        let files = responses?;
        return Some(SnapshotFiles::Responses { files });
    };
    let names = names?;
    if responses.is_some() || !are_grouped(names.len(), files.len()) {
        return None;
    }
    Some(SnapshotFiles::Filters { names, files })
}

// Whether so many files are one for each name, in each of some snapshots.
fn are_grouped(names: usize, files: usize) -> bool
    ensures { IsTrue result ↔ AreGrouped names files }
{
    if names == 0 {
        return false;
    }
    files % names == 0
}

/// What is wrong with words that the parser accepts but that name no snapshots.
pub(crate) fn control_fault(matches: &ArgMatches<'_>) -> &'static str {
    let named = matches.contains_id("name");
    let has_files = matches.contains_id("file");
    if matches.contains_id("response") {
        return "the argument '--response <FILE>' cannot be used with '--name <F>' or '[FILE]...'";
    }
    match (named, has_files) {
        (true, true) => {
            "each snapshot has one FILE for each '--name <F>': the number of FILEs is a multiple of the number of names"
        }
        (true, false) =>
            "'--name <F>' requires '[FILE]...', one FILE for each name in each snapshot",
        (false, true) => "'[FILE]...' requires '--name <F>', the name of the filter in each FILE",
        (false, false) =>
            "one of '--name <F>' with '[FILE]...' and '--response <FILE>' is required",
    }
}
