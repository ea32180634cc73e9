//! The logs of a server: its decisions, the updates of its policies, and a record of its events that can be replayed.
//! Nothing here waits for long or stops the server: a line that cannot be written is dropped and counted.
#![tactic(auto)]

mod appender;
mod beginning;
mod connection;
mod decision;
mod event_lines;
mod facts;
mod faults;
mod files;
mod frames;
pub mod laws;
mod log_file;
mod names;
mod object;
mod open_files;
mod pieces;
mod record_file;
mod recorder;
mod time;
mod update;
mod updates;
mod waiting;

pub use decision::{Decision, decision_line};
pub use facts::facts_value;
pub use files::{LogFiles, LogWriter};
pub use frames::{empty_response, frame};
pub use log_file::LogFile;
pub use recorder::{RecordPosition, RecordSettings, Recorder};
pub use time::time_text;
pub use update::{Acknowledged, Incomplete, Refused, Update, update_line};
pub use updates::UpdateBytes;
pub use waiting::{LostLine, MOST_WAITING, Waiting, Written};
