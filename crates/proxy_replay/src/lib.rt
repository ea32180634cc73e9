//! Reads the configuration of a proxy, and replays events from lines.
#![tactic(auto)]

mod configuration;
pub mod laws;
mod lines;
mod meaning_text;
pub mod replay;

pub use configuration::{ConfigTextFault, config_at, read_config};
pub use lines::{LineEvent, line_event, line_text};
pub use meaning_text::{cause_of_bad_config, causes_of_bad_settings, causes_text, config_text};
