//! The facts of a connection, as a JSON object.
ghost use Rattle.std.specs.Prelude.{◌≡◌, IfErr, IfOk};
ghost use Rattle.attributes.specs.Conn.{Facts, conn_view};
ghost use Rattle.attributes.specs.Limits.{FactsInLimits, largest};
ghost use Rattle.serde_json.specs.View.{view};
ghost use Rattle.program_texts.specs.Facts.{AreFacts, HasFactFault, IsFactsText, MeansNone, MeansNoFacts};
ghost use Rattle.program_texts.specs.declared.facts.FactsFault.TheVariants.{Bad};

use crate::fact_fault::FactFault;
use crate::given::{given_facts, owned};
use crate::short::within_limits;
use attributes::Conn;
use serde_json::Value;
use std::alloc::{AllocError, Global};
use std::error::Error;
use std::fmt;

/// Why facts cannot be read.
#[derive(Clone, Copy, Debug)]
pub enum FactsFault {
    /// The text is no JSON object of facts.
    Bad,
    /// Memory ran out.
    Memory,
}

impl fmt::Display for FactsFault {
    ghost use Rattle.program_texts.specs.Facts.{fault_text};
    ghost use Rattle.std.specs.Prelude.{Some};

    ghost output = { λ fault. Some (fault_text fault) };

    fn fmt<W: fmt::Write>(&self, f: &mut fmt::Formatter<W>) -> fmt::Result {
        f.write_str(match self {
            FactsFault::Bad => "bad facts",
            FactsFault::Memory => "memory",
        })
    }
}

impl Error for FactsFault {}

impl From<AllocError> for FactsFault {
    ghost use Rattle.std.specs.Prelude.{◌≡◌};
    ghost use Rattle.program_texts.specs.declared.facts.FactsFault.TheVariants.{Memory};

    ghost from_gives = { λ _ e. e ≡ Memory };

    fn from(_refused: AllocError) -> FactsFault {
        FactsFault::Memory
    }
}

impl From<serde_json::Error> for FactsFault {
    ghost use Rattle.std.specs.Prelude.{◌≡◌, ◌⊎◌};
    ghost use Rattle.serde_json.specs.Errors.{IsMemory};
    ghost use Rattle.program_texts.specs.declared.facts.FactsFault.TheVariants.{Bad, Memory};

    ghost from_gives = { λ error e. ((e ≡ Memory) × IsMemory error) ⊎ ((e ≡ Bad) × ¬ IsMemory error) };

    fn from(error: serde_json::Error) -> FactsFault {
        if error.is_memory() {
            FactsFault::Memory
        } else {
            FactsFault::Bad
        }
    }
}

/// The facts of a JSON text (RFC 8259): an object whose members have the names of the facts in `Conn`. Texts are
/// strings, addresses are strings that `parse_ip` reads, and ports are integers below 65,536. The connection's number
/// is an integer below 2^64, and `connection.mtls` is `true` or `false`. Each may be absent; `request.scheme` is then
/// `http`. Of two members with the same name the last counts. `Bad` if the text has no facts, `Memory` if memory ran
/// out.
pub fn read_facts(alloc: Global, text: &[u8]) -> Result<Conn, FactsFault>
    ensures found { IfOk result (λ conn. IsFactsText text.now (conn_view conn)) }
    ensures fault { IfErr result (λ e. e ≡ Bad → (f : Facts) → ¬ IsFactsText text.now f) }
{
    let value = Value::from_slice(alloc, text)?;
    conn_of(alloc, &value)
}

/// The connection with the facts of a facts file, as in `read_facts`. Its facts are within the limits. `Bad` if the
/// text has no facts within the limits, `Memory` if memory ran out.
pub fn read_conn(alloc: Global, text: &[u8]) -> Result<Conn, FactsFault>
    ensures found { IfOk result (λ conn. IsFactsText text.now (conn_view conn)
        × FactsInLimits (conn_view conn) largest) }
    ensures fault { IfErr result (λ e. e ≡ Bad → MeansNoFacts text.now) }
{
    match within_limits(read_facts(alloc, text)?) {
        Ok(conn) => Ok(conn),
        Err(_) => Err(FactsFault::Bad),
    }
}

/// The facts of a JSON value, with the errors of `read_facts`.
pub fn conn_of(alloc: Global, value: &Value) -> Result<Conn, FactsFault>
    ensures found { IfOk result (λ conn. AreFacts (view value.now) (conn_view conn)) }
    ensures fault { IfErr result (λ e. e ≡ Bad → (f : Facts) → ¬ AreFacts (view value.now) f) }
{
    match conn_at(alloc, value)? {
        Ok(conn) => Ok(conn),
        Err(_) => Err(FactsFault::Bad),
    }
}

/// The facts of a JSON value as in `read_facts`, or the member that has a fault.
pub fn conn_at<'a>(
    alloc: Global,
    value: &'a Value,
) -> Result<Result<Conn, FactFault<'a>>, AllocError>
    ensures found { IfOk result (λ read. IfOk read (λ conn. AreFacts (view value.now) (conn_view conn))) }
    ensures fault { IfOk result (λ read. IfErr read (HasFactFault (view value.now))) }
{
    match given_facts(value) {
        Ok(facts) => Ok(Ok(owned(alloc, &facts)?)),
        Err(fault) => Ok(Err(fault)),
    }
}

/// The facts of a JSON value, if they are within the limits; otherwise the member that has a fault.
pub fn conn_within<'a>(
    alloc: Global,
    value: &'a Value,
) -> Result<Result<Conn, FactFault<'a>>, AllocError>
    ensures found { IfOk result (λ read. IfOk read (λ conn. AreFacts (view value.now) (conn_view conn)
        × FactsInLimits (conn_view conn) largest)) }
    ensures fault { IfOk result (λ read. IfErr read (MeansNone (view value.now))) }
{
    match conn_at(alloc, value)? {
        Ok(conn) => Ok(within_limits(conn)),
        Err(fault) => Ok(Err(fault)),
    }
}

/// Why a text has no facts within the limits, in words for its author.
pub fn cause_of_bad_facts(alloc: Global, text: &[u8]) -> Result<String, AllocError> {
    if text.is_empty() {
        return String::from_str(alloc, "the file is empty");
    }
    let value = match Value::from_slice(alloc, text) {
        Ok(value) => value,
        Err(error) => return format!(in alloc; "it is not a JSON text: {error}"),
    };
    match cause_of_bad_value(alloc, &value)? {
        Some(cause) => Ok(cause),
        None => String::from_str(alloc, "a text is longer than the limit"),
    }
}

/// Why a JSON value has no facts within the limits, in words for its author; `None` if it has.
pub fn cause_of_bad_value(alloc: Global, value: &Value) -> Result<Option<String>, AllocError> {
    match conn_within(alloc, value)? {
        Ok(_) => Ok(None),
        Err(fault) => Ok(Some(format!(in alloc; "{fault}")?)),
    }
}
