//! The texts that the program reads and writes: members of JSON objects, facts of a connection, lines of an input, outputs.
#![tactic(auto)]

mod fact;
mod fact_fault;
mod facts;
mod given;
mod input;
pub mod laws;
mod line_fault;
mod members;
mod output;
mod replay_fault;
mod short;
pub mod shown;

pub use fact::Fact;
pub use fact_fault::FactFault;
pub use facts::{
    FactsFault, cause_of_bad_facts, cause_of_bad_value, conn_at, conn_of, conn_within, read_conn,
    read_facts,
};
pub use input::read_some;
pub use line_fault::LineFault;
pub use members::{InvalidValue, is_among, items_at, number_at, number_or, require_names, str_at};
pub use output::write_whole;
pub use replay_fault::{ReplayFault, input_fault};
pub use short::within_limits;
