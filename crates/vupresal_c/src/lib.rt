//! The engine for programs in C: filters, and the core of a proxy. `include/vupresal.h` declares the exports.
#![tactic(auto)]

mod adding;
mod admission;
mod by_head;
mod by_parts;
mod by_request;
mod by_set;
mod cause;
mod connection;
mod copying;
mod decision;
mod fault;
mod filter;
mod freeing;
mod laws;
mod made_request;
mod making;
mod outputs;
mod proxy;
mod queries;
mod set;
mod settings;
mod sharing;
mod starting;
mod step;
mod version;
