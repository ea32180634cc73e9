//! The code of conditions: its instructions, the meaning of their runs, and which code is typable.
#![tactic(auto)]

mod code;
mod instr;
pub mod laws;
mod numbers;
mod op;
mod pool;
mod pools;
mod stack;
mod verified;
mod word;

pub use code::{Code, CodeFault};
pub use instr::{Constant, Instr};
pub use op::Op;
pub use stack::Stack;
pub use verified::Verified;
pub use word::Word;
