//! The command line of the program: its subcommands and their arguments, its help, and the job that its words name.
#![tactic(auto)]

mod commands;
mod control_words;
mod help;
mod texts;
mod words;

pub use control_words::{ControlWords, SnapshotFiles};
pub use words::{
    BatchWords, CheckWords, Job, JudgeWords, ProxyWords, ReplayWords, ServeWords, read_words,
};
