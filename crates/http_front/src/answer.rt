//! Writes answers.
ghost use Rattle.std.specs.Prelude.{◌≡◌, ◌++◌, [], IfOk, OnOk, codes, decimal, if◌then◌else◌};
ghost use Rattle.std.specs.String.{string_bytes};
ghost use Rattle.httparse.specs.Ascii.{crlf_bytes};
ghost use Rattle.http_front.specs.Answer.{answer_by, answer_of, closing_field, fault_phrase, fault_row, lines_of_row, match_list, match_text, matches_text, reply_view, row_of};
ghost use Rattle.http_front.specs.private.Rows.{row_view};

use crate::fault::HeadFault;
use std::alloc::{AllocError, Global};

/// The case of an answer; it determines status and body.
#[derive(Clone, Copy, Debug, PartialEq, Eq)]
pub enum Case {
    /// The request is allowed.
    Allow,
    /// The request is denied.
    Deny,
    /// A condition ran out of steps, so the request is denied.
    Steps,
    /// Some filter has no policy yet.
    Unready,
    /// A decision ran out of memory.
    Memory,
    /// The head has this fault.
    Fault(HeadFault),
}

/// An answer.
#[derive(Debug, Drop)]
pub struct Reply {
    /// The case.
    pub case: Case,
    /// For each filter that was tried, in order, the number of the policy that matched.
    pub matches: Vec<Option<usize>>,
    /// The generation of the policies.
    pub generation: u64,
    /// Whether the connection closes after the answer.
    pub closes: bool,
    /// Whether the method is HEAD: then the answer has no body (RFC 9110, section 9.3.2).
    pub is_head: bool,
}

// A row of the table of answers.
#[derive(Clone, Copy, Debug)]
struct Row {
    status: u16,
    phrase: &'static str,
    verdict: &'static str,
    // whether the answer shows the matches
    tells_matches: bool,
    body: &'static str,
}

const DENIED: &str = "RBAC: access denied";

impl Case {
    /// The status of the answer (RFC 9110, section 15).
    pub fn status(self) -> u16
        ensures { result ≡ (row_of self).status }
    {
        self.row().status
    }

    /// The word of the answer's field `x-rbac-verdict`.
    pub fn verdict(self) -> &'static str
        ensures { result.now ≡ (row_of self).verdict }
    {
        self.row().verdict
    }

    // The row of this case.
    fn row(self) -> Row
        ensures { row_view result ≡ row_of self }
    {
        match self {
            Case::Allow => Row::new(200, "OK", "allow", true, ""),
            Case::Deny => Row::new(403, "Forbidden", "deny", true, DENIED),
            Case::Steps => Row::new(403, "Forbidden", "steps", false, DENIED),
            Case::Unready => Row::new(503, "Service Unavailable", "unready", false, ""),
            Case::Memory => Row::new(503, "Service Unavailable", "memory", false, ""),
            Case::Fault(fault) => fault_row(fault.status()),
        }
    }
}

// The row of a fault with this status.
fn fault_row(status: u16) -> Row
    ensures { row_view result ≡ fault_row status }
{
    Row::new(status, fault_phrase(status), "none", false, "")
}

fn fault_phrase(status: u16) -> &'static str
    ensures { result.now ≡ fault_phrase status }
{
    match status {
        431 => "Request Header Fields Too Large",
        501 => "Not Implemented",
        _ => "Bad Request",
    }
}

impl Row {
    fn new(
        status: u16,
        phrase: &'static str,
        verdict: &'static str,
        tells_matches: bool,
        body: &'static str,
    ) -> Row
        ensures { row_view result ≡ record {
          status = status;
          phrase = phrase.now;
          verdict = verdict.now;
          tells_matches = tells_matches;
          body = body.now;
        } }
    {
        Row {
            status,
            phrase,
            verdict,
            tells_matches,
            body,
        }
    }

    // The bytes of an answer with this row.
    fn answer(&self, alloc: Global, reply: &Reply) -> Result<Vec<u8>, AllocError>
        ensures { IfOk result (λ bytes.
            bytes.items ≡ answer_by (row_view self.now) (reply_view reply.now)) }
    {
        let mut text = self.lines(alloc, reply)?;
        text.push_str(closing_text(reply.closes))?;
        text.push_str("\r\n")?;
        text.push_str(sent_body(self.body, reply.is_head))?;
        Ok(text.into_bytes())
    }

    // The status line, and the fields that every answer has.
    fn lines(&self, alloc: Global, reply: &Reply) -> Result<String, AllocError>
        ensures { IfOk result (λ text. string_bytes text
            ≡ lines_of_row (row_view self.now) reply.now.matches.items reply.now.generation) }
    {
        let mut text = self.status_line(alloc)?;
        let matches = matches_text(alloc, self, &reply.matches)?;
        let generation = number_text(alloc, reply.generation)?;
        let size = number_text(alloc, self.body.len() as u64)?;
        push_line(&mut text, "x-rbac-verdict: ", self.verdict)?;
        push_line(&mut text, "x-rbac-match: ", matches.as_str())?;
        push_line(&mut text, "x-rbac-generation: ", generation.as_str())?;
        push_line(&mut text, "content-length: ", size.as_str())?;
        Ok(text)
    }

    fn status_line(&self, alloc: Global) -> Result<String, AllocError>
        ensures { IfOk result (λ text. string_bytes text
            ≡ codes "HTTP/1.1 " ++ decimal self.now.status ++ codes " " ++ self.now.phrase.now
            ++ crlf_bytes) }
    {
        let status = number_text(alloc, self.status as u64)?;
        let mut text = String::from_str(alloc, "HTTP/1.1 ")?;
        text.push_str(status.as_str())?;
        text.push_str(" ")?;
        text.push_str(self.phrase)?;
        text.push_str("\r\n")?;
        Ok(text)
    }
}

impl Reply {
    /// The bytes of the answer.
    pub(crate) fn bytes(&self, alloc: Global) -> Result<Vec<u8>, AllocError>
        ensures { IfOk result (λ bytes. bytes.items ≡ answer_of (reply_view self.now)) }
    {
        let row = self.case.row();
        row.answer(alloc, self)
    }
}

// Appends a field line; `name` ends with a colon and a space.
fn push_line(text: &mut String, name: &str, value: &str) -> Result<(), AllocError>
    ensures { OnOk result (string_bytes text.new
        ≡ string_bytes text.old ++ name.now ++ value.now ++ crlf_bytes) }
{
    text.push_str(name)?;
    text.push_str(value)?;
    text.push_str("\r\n")?;
    Ok(())
}

// The field for a connection that closes; empty if it does not.
fn closing_text(closes: bool) -> &'static str
    ensures { result.now ≡ (if closes then closing_field else []) }
{
    if closes {
        return "connection: close\r\n";
    }
    ""
}

// The body, or nothing if the method was HEAD.
fn sent_body(body: &'static str, is_head: bool) -> &'static str
    ensures { result.now ≡ (if is_head then [] else body.now) }
{
    if is_head {
        return "";
    }
    body
}

// The numbers of the matches, if the row shows them; otherwise a dash.
fn matches_text(alloc: Global, row: &Row, matches: &[Option<usize>]) -> Result<String, AllocError>
    ensures { IfOk result (λ text.
        string_bytes text ≡ matches_text (row_view row.now) matches.now) }
{
    if !row.tells_matches {
        return String::from_str(alloc, "-");
    }
    match_list(alloc, matches)
}

// The numbers of all matches, or dashes, with commas between.
fn match_list(alloc: Global, matches: &[Option<usize>]) -> Result<String, AllocError>
    ensures { IfOk result (λ text. string_bytes text ≡ match_list matches.now) }
{
    let [first, others @ ..] = matches else {
        return Ok(String::new(alloc));
    };
    let mut text = match_text(alloc, *first)?;
    for other in others {
        text.push_str(",")?;
        text.push_str(match_text(alloc, *other)?.as_str())?;
    }
    Ok(text)
}

fn match_text(alloc: Global, found: Option<usize>) -> Result<String, AllocError>
    ensures { IfOk result (λ text. string_bytes text ≡ match_text found) }
{
    match found {
        Some(number) => number_text(alloc, number as u64),
        None => String::from_str(alloc, "-"),
    }
}

// The number in decimal.
fn number_text(alloc: Global, number: u64) -> Result<String, AllocError>
    ensures { IfOk result (λ text. string_bytes text ≡ decimal number) }
{
    format!(in alloc; "{number}")
}
