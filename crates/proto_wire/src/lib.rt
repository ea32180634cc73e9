//! Protocol Buffers messages as lists of fields, and the values of fields.
#![tactic(auto)]

mod fault;
mod field;
mod key;
pub mod laws;
mod maps;
mod message;
mod oneof;
mod place;
mod placed;
mod reader;
mod refusal;
mod spelling;
mod values;
mod varint;
mod writer;

pub use fault::WireError;
pub use field::{Field, Payload, WireType};
pub use key::{Key, first_unknown};
pub use maps::{KeyOrder, MapEntry, MapKey, read_entries};
pub use message::{
    MessageFields, read_fields, read_message, read_message_at, read_parts, require_level,
};
pub use oneof::{MemberRun, last_member, last_number, member_run};
pub use place::{MOST_STEPS, Place, Step};
pub use placed::{Fault, at_field, inside_field};
pub use reader::Reader;
pub use refusal::Refusal;
pub use values::{
    Payloads, bool_at, bytes_at, has_field, has_payload, int32_at, int64_at, last_len, last_varint,
    len_of, payloads_of, require_payload, text_at, text_of, uint32_at,
};
pub use writer::Writer;
