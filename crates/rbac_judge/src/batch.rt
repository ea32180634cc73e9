//! A batch: judges the heads of lines, and prints an answer for each line.
ghost use Rattle.std.specs.Prelude.{◌≡◌, ◌≤◌, ◌++◌, ◌∷◌, [], ℕ, List, Option, Some, true, IfErr, IfOk, IfSome, OnErr, OnOk, codes, drop, option_map, string_bytes};
ghost use Rattle.std.specs.Io.KnownBytes.{Appends};
ghost use Rattle.attributes.specs.Conn.{Facts, conn_view};
ghost use Rattle.attributes.specs.Limits.{largest};
ghost use Rattle.rbac_policy.specs.Admitted.{filter_view, limits_view};
ghost use Rattle.serde_json.specs.Data.{depth};
ghost use Rattle.serde_json.specs.Find.{get};
ghost use Rattle.serde_json.specs.Read.{max_depth, read};
ghost use Rattle.serde_json.specs.View.{view};
ghost use Rattle.serde_json.specs.Written.{compact_text};
ghost use Rattle.rbac_judge.specs.Batches.{AreFactsOr, IsBatch, IsCutShort, IsTooLong, LeavesAnswers, bad_json, with_id};
ghost use Rattle.rbac_judge.specs.Outcome.{printed_of};
ghost use Rattle.rbac_judge.specs.private.Batching.{BreaksOutput, IsAnsweredBy, IsIdText, IsLineOf, IsPlainAnswer, IsReportAt, IsReportOf, IsSomeHeadLine, LacksHead};
ghost use Rattle.rbac_judge.specs.Batches.{OfPolicies};
ghost use Rattle.rbac_judge.specs.Reports.{without_memory};
ghost use Rattle.rbac_judge.specs.declared.report.Report.{Report};
ghost use Rattle.program_texts.specs.declared.line_fault.LineFault.TheVariants.{BadLine};

use crate::explain::Explaining;
use crate::head_lines::{HeadLine, read_head_line};
use crate::judge::{finding_of_ask, memory_line};
use crate::notes::Notes;
use crate::report::Report;
use attributes::{Conn, Limits};
use http_front::read_head;
use program_texts::{
    FactsFault, LineFault, ReplayFault, cause_of_bad_value, conn_of, require_names, str_at,
    write_whole,
};
use rbac_policy::Admitted;
use serde_json::{Value, json};
use std::alloc::{AllocError, Global};
use std::io::{self, BufRead, ErrorKind, Write};

/// How many bytes are read or written at once.
pub const BLOCK: usize = 65_536;

/// What the heads of a batch are judged by.
#[derive(Drop)]
pub struct BatchSettings {
    /// The bytes of the policy file.
    pub policy: Vec<u8>,
    /// The filter of the policy file.
    pub admitted: Admitted,
    /// The connection of a line without facts.
    pub conn: Conn,
    /// Whether verdicts are explained.
    pub explain: bool,
}

/// Judges the head of each line of the input, and prints an answer for each line, in order. The answers are collected
/// and written in blocks. The batch ends at the end of the input.
pub fn batch<R: BufRead, W: Write>(
    alloc: Global,
    basis: &BatchSettings,
    input: &mut R,
    out: &mut W,
) -> Result<(), ReplayFault>
    requires { limits_view basis.now.admitted ≡ largest }
    ensures whole { OnOk result (OfPolicies (filter_view basis.now.admitted) (λ policy budget.
        IsBatch policy budget (conn_view basis.now.conn) basis.now.explain
        (R.remaining input.old) (W.contents out.old) (R.remaining input.new) (W.contents out.new))) }
    ensures short { IfErr result (λ fault. OfPolicies (filter_view basis.now.admitted) (λ policy budget.
        IsCutShort policy budget (conn_view basis.now.conn) basis.now.explain
        (R.remaining input.old) (W.contents out.old) fault (W.contents out.new))) }
{
    let mut pending = Vec::new(alloc);
    for number in 1..u64::MAX {
        match next_line(alloc, input, &pending, out)? {
            Some(line) => {
                let answered = answer(alloc, basis, &line, number);
                put_answer(&mut pending, bytes_of(&answered), out)?;
            }
            None => return write_all(&pending, out),
        }
    }
    write_all(&pending, out)?;
    Err(ReplayFault::Input(io::Error::from(ErrorKind::TimedOut)))
}

// The next line of the input, if there is one. If the input fails, the answers that are collected are written.
fn next_line<R: BufRead, W: Write>(
    alloc: Global,
    input: &mut R,
    pending: &[u8],
    out: &mut W,
) -> Result<Option<HeadLine>, ReplayFault>
    ensures found { IfOk result (λ found.
        IsSomeHeadLine found (R.remaining input.old) (R.remaining input.new)) }
    ensures kept { OnOk result (W.contents out.new ≡ W.contents out.old) }
    ensures fault { IfErr result (LeavesAnswers (W.contents out.old) (W.contents out.new) pending.now) }
{
    match read_head_line(alloc, input) {
        Ok(found) => Ok(found),
        Err(fault) => {
            write_all(pending, out)?;
            Err(fault)
        }
    }
}

// Collects an answer. Writes the answers that are collected if they are as many as are written at once, or if there is
// no memory for one more.
fn put_answer<W: Write>(
    pending: &mut Vec<u8>,
    answer: &[u8],
    out: &mut W,
) -> Result<(), ReplayFault>
    ensures written { OnOk result ((done : List ℕ)
        × (pending.old.items ++ answer.now ≡ done ++ pending.new.items)
        × Appends (W.contents out.old) (W.contents out.new) done) }
    ensures fault { IfErr result (BreaksOutput (W.contents out.old) (W.contents out.new)
        (pending.old.items ++ answer.now)) }
{
    match pending.extend_from_slice(answer) {
        Ok(()) => make_room(pending, out),
        Err(AllocError) => {
            write_pending(pending, out)?;
            write_all(answer, out)
        }
    }
}

// Writes the answers that are collected, if they are as many as are written at once.
fn make_room<W: Write>(pending: &mut Vec<u8>, out: &mut W) -> Result<(), ReplayFault>
    ensures written { OnOk result ((done : List ℕ)
        × (pending.old.items ≡ done ++ pending.new.items)
        × Appends (W.contents out.old) (W.contents out.new) done) }
    ensures fault { IfErr result (BreaksOutput (W.contents out.old) (W.contents out.new) pending.old.items) }
{
    if pending.len() < BLOCK {
        return Ok(());
    }
    write_pending(pending, out)
}

// Writes the answers that are collected, after which none is.
fn write_pending<W: Write>(pending: &mut Vec<u8>, out: &mut W) -> Result<(), ReplayFault>
    ensures written { OnOk result (Appends (W.contents out.old) (W.contents out.new) pending.old.items) }
    ensures none { OnOk result (pending.new.items ≡ []) }
    ensures fault { IfErr result (BreaksOutput (W.contents out.old) (W.contents out.new) pending.old.items) }
{
    write_all(pending, out)?;
    pending.clear();
    Ok(())
}

// Writes the answers that are collected.
fn write_all<W: Write>(pending: &[u8], out: &mut W) -> Result<(), ReplayFault>
    ensures written { OnOk result (Appends (W.contents out.old) (W.contents out.new) pending.now) }
    ensures fault { IfErr result (BreaksOutput (W.contents out.old) (W.contents out.new) pending.now) }
{
    match write_whole(out, pending) {
        Ok(()) => Ok(()),
        Err(cause) => Err(ReplayFault::Output(cause)),
    }
}

// The line that answers a line, or that memory ran out for it.
fn bytes_of(answered: &Result<Vec<u8>, AllocError>) -> &[u8]
    ensures answer { IfOk answered.now (λ text. result.now ≡ text.items) }
    ensures memory { OnErr answered.now ((report : Report) → report.json ≡ true
        → result.now ≡ printed_of (without_memory report)) }
{
    match answered {
        Ok(text) => text.as_slice(),
        Err(AllocError) => memory_line(true),
    }
}

// The line that answers this line: the report on its head, or why it has none.
fn answer(
    alloc: Global,
    basis: &BatchSettings,
    line: &HeadLine,
    number: u64,
) -> Result<Vec<u8>, AllocError>
    requires { limits_view basis.now.admitted ≡ largest }
    ensures { IfOk result (λ text. (bytes : List ℕ) → IsLineOf line.now bytes
        → IsAnsweredBy (filter_view basis.now.admitted) basis.now.explain (conn_view basis.now.conn)
        number bytes text.items) }
{
    match line {
        HeadLine::Whole(bytes) => answer_to_bytes(alloc, basis, bytes, number),
        HeadLine::TooLong => {
            let text = bad_text(alloc, number, "the line has more than 1048576 bytes")?;
            Ok(text.into_bytes())
        }
    }
}

// The line that answers a line with these bytes. Its first member is the line's id, if it has one.
fn answer_to_bytes(
    alloc: Global,
    basis: &BatchSettings,
    line: &[u8],
    number: u64,
) -> Result<Vec<u8>, AllocError>
    requires { limits_view basis.now.admitted ≡ largest }
    ensures { IfOk result (λ text. ¬ IsTooLong line.now
        → IsAnsweredBy (filter_view basis.now.admitted) basis.now.explain (conn_view basis.now.conn)
        number line.now text.items) }
{
    match Value::from_slice(alloc, line) {
        Ok(value) => {
            let text = answer_to_value(alloc, basis, &value, number)?;
            with_id(alloc, value.get("id"), text)
        }
        Err(error) if error.is_memory() => Err(AllocError),
        Err(error) => {
            let cause = cause_of_no_json(alloc, line, error)?;
            let text = bad_text(alloc, number, cause.as_str())?;
            Ok(text.into_bytes())
        }
    }
}

// The line that answers a line with this JSON value, without the line's id.
fn answer_to_value(
    alloc: Global,
    basis: &BatchSettings,
    value: &Value,
    number: u64,
) -> Result<String, AllocError>
    requires { limits_view basis.now.admitted ≡ largest }
    ensures { IfOk result (λ text. IsPlainAnswer (filter_view basis.now.admitted) basis.now.explain
        (conn_view basis.now.conn) (view value.now) number (string_bytes text)) }
{
    match report_of_value(alloc, basis, value) {
        Ok(report) => report.text(alloc),
        Err(LineFault::BadLine) => {
            let cause = cause_of_no_head(alloc, value)?;
            bad_text(alloc, number, cause.as_str())
        }
        Err(LineFault::Memory) => Err(AllocError),
    }
}

// The text of an object, with the id as its first member, if there is one.
fn with_id(alloc: Global, id: Option<&Value>, text: String) -> Result<Vec<u8>, AllocError>
    requires { IfSome id (λ v. depth (view v.now) ≤ max_depth) }
    ensures { IfOk result (λ line. (reported : Option (List ℕ))
        × IsIdText (option_map (λ v. view v.now) id.entry) reported
        × (line.items ≡ with_id reported (string_bytes text))) }
{
    match id {
        Some(value) => with_value(alloc, value, text.as_bytes()),
        None => Ok(text.into_bytes()),
    }
}

// The text of an object, with this value as the first member `id`.
fn with_value(alloc: Global, value: &Value, text: &[u8]) -> Result<Vec<u8>, AllocError>
    requires { depth (view value.now) ≤ max_depth }
    ensures { IfOk result (λ line. (id : List ℕ) × (read id ≡ Some (view value.now))
        × (line.items ≡ with_id (Some id) text.now)) }
{
    let id = value.to_string(alloc)?;
    let mut line = Vec::new(alloc);
    line.extend_from_slice(b"{\"id\":")?;
    line.extend_from_slice(id.as_bytes())?;
    line.extend_from_slice(b",")?;
    line.extend_from_slice(without_first(text))?;
    Ok(line)
}

// The bytes without the first, if there is one.
fn without_first(bytes: &[u8]) -> &[u8]
    ensures { result.now ≡ drop 1 bytes.now }
{
    &bytes[bytes.len().min(1)..]
}

// The line that answers a line without a head.
fn bad_text(alloc: Global, number: u64, cause: &str) -> Result<String, AllocError>
    ensures { IfOk result (λ text. string_bytes text ≡ compact_text (bad_json number cause.now) ++ 10 ∷ []) }
{
    let value = bad_value(alloc, number, cause)?;
    let mut text = value.to_string(alloc)?;
    text.push('\n')?;
    Ok(text)
}

// The object that answers a line without a head.
fn bad_value(alloc: Global, number: u64, cause: &str) -> Result<Value, AllocError>
    ensures { IfOk result (λ value. view value ≡ bad_json number cause.now) }
{
    json!(in alloc; {"cause": cause, "line": number})
}

// The report on the head of a JSON value.
fn report_of_value(alloc: Global, basis: &BatchSettings, value: &Value) -> Result<Report, LineFault>
    requires { limits_view basis.now.admitted ≡ largest }
    ensures found { IfOk result (IsReportAt (filter_view basis.now.admitted) basis.now.explain
        (conn_view basis.now.conn) (view value.now)) }
    ensures fault { IfErr result (λ e. e ≡ BadLine → LacksHead (conn_view basis.now.conn) (view value.now)) }
{
    require_names(value, &["head", "facts", "id"])?;
    let head = str_at(value, "head")?;
    let conn = facts_or(alloc, value, &basis.conn)?;
    if !Limits::largest().fits_conn(&conn) {
        return Err(LineFault::BadLine);
    }
    Ok(report_of_head(alloc, basis, head.as_bytes(), conn)?)
}

// The connection with the facts of the member `facts`; this one if there is no such member.
fn facts_or(alloc: Global, object: &Value, absent: &Conn) -> Result<Conn, LineFault>
    ensures found { IfOk result (λ conn. AreFactsOr (conn_view absent.now)
        (get (codes "facts") (view object.now)) (conn_view conn)) }
    ensures fault { IfErr result (λ e. e ≡ BadLine → (facts : Facts)
        → ¬ AreFactsOr (conn_view absent.now) (get (codes "facts") (view object.now)) facts) }
{
    let Some(value) = object.get("facts") else {
        return Ok(absent.copy()?);
    };
    match conn_of(alloc, value) {
        Ok(conn) => Ok(conn),
        Err(FactsFault::Memory) => Err(LineFault::Memory),
        Err(FactsFault::Bad) => Err(LineFault::BadLine),
    }
}

// The report on a head that arrives on this connection, as JSON.
fn report_of_head(
    alloc: Global,
    basis: &BatchSettings,
    head: &[u8],
    conn: Conn,
) -> Result<Report, AllocError>
    requires { limits_view basis.now.admitted ≡ largest }
    ensures { IfOk result (IsReportOf (filter_view basis.now.admitted) basis.now.explain head.now
        (conn_view conn)) }
{
    let found = read_head(alloc, head, basis.admitted.limits(), conn)?;
    let explaining = Explaining {
        asked: basis.explain,
        policy: &basis.policy,
    };
    let finding = finding_of_ask(alloc, &basis.admitted, &found, explaining)?;
    let mut notes = Notes::new(alloc);
    notes.look_at_head(alloc, head, finding.outcome);
    let why = notes.why(alloc, finding.outcome);
    Ok(finding.report(true).with_why(why))
}

/// Why a line is no JSON text, in words for its author. The place is reported without a line's number, since the answer has
/// that of the line.
pub(crate) fn cause_of_no_json(
    alloc: Global,
    line: &[u8],
    error: serde_json::Error,
) -> Result<String, AllocError> {
    if line.trim_ascii().is_empty() {
        return String::from_str(alloc, "the line is empty");
    }
    let said = error.to_string(alloc)?;
    let what = said.as_str().split(" at line ").next().unwrap_or("");
    match error.line() {
        1 => {
            let column = error.column();
            format!(in alloc; "it is not a JSON text: {what} at column {column}")
        }
        _ => format!(in alloc; "it is not a JSON text: {what} at its end"),
    }
}

// Why a line with this JSON value has no head, in words for its author.
fn cause_of_no_head(alloc: Global, value: &Value) -> Result<String, AllocError> {
    if value.as_object().is_none() {
        return String::from_str(alloc, "it is not a JSON object");
    }
    if require_names(value, &["head", "facts", "id"]).is_err() {
        return String::from_str(alloc, "it has a member other than head, facts and id");
    }
    if str_at(value, "head").is_err() {
        return String::from_str(alloc, "head is missing or not a text");
    }
    if let Some(facts) = value.get("facts") {
        if let Some(cause) = cause_of_bad_value(alloc, facts)? {
            return Ok(cause);
        }
    }
    String::from_str(alloc, "its facts are not within the limits")
}
