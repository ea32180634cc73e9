//! The jobs of the program, except a running server: what each reads, prints and ends with.
#![tactic(auto)]

mod batch_job;
mod ending;
mod fault_json;
mod files;
mod job_fault;
mod paths;
mod reading;
mod recorded;
mod reporting;
mod reports;
mod serve;
mod server_settings;
mod settings;
mod settings_faults;
mod snapshots;
mod sockets;

pub use batch_job::run_batch;
pub use ending::{MISTAKE, end_by, end_by_memory, show, write_error};
pub use files::Source;
pub use job_fault::JobFault;
pub use reading::read_file;
pub use reports::{run_check, run_judge};
pub use serve::{run_control, run_proxy};
pub use server_settings::{
    ServerSettings, ServerSettingsFault, read_server_settings, server_settings_text,
};
pub use settings::{check_config, replay_config};
pub use sockets::{Listen, Sockets};
