//! Laws that need the parser: a head, or the parts of a request, ask for a request or have a fault. By the laws
//! `asks_unique`, `asks_fault_disjoint` and their like they never have both, nor two requests.
ghost use Rattle.std.specs.Prelude.{◌≡◌, ◌==◌, count_by, length, take};
ghost use Rattle.attributes.specs.Conn.{conn_view};
ghost use Rattle.httparse.specs.Ascii.{line_feed};
ghost use Rattle.http_front.specs.Asks.{AskOrFail};
ghost use Rattle.http_front.specs.Head.{head_room};
ghost use Rattle.http_front.specs.Parts.{PartsAskOrFail, parts_view};

use crate::head::{Parsed, parse};
use crate::parts::HeadParts;
use crate::read::{HEAD_ROOM, refusal_of};
use crate::spelled::Spelled;
use attributes::{Conn, Limits};
use httparse::spans::HeaderSpan;

/// Bytes ask for a request or have a fault, or they have no whole head yet. `fields` is room for as many fields as the
/// bytes have line feeds.
pub fn bytes_ask_or_fail(bytes: &[u8], fields: &mut [HeaderSpan], limits: &Limits, conn: &Conn)
    requires { length fields.old ≡ count_by (λ b. b == line_feed) (take head_room bytes.now) }
    ensures { AskOrFail bytes.now limits.now (conn_view conn.now) }
{
    let room = &bytes[..bytes.len().min(HEAD_ROOM)];
    match parse(room, fields) {
        Parsed::Whole(head, _) => {
            let _refused = refusal_of(&head, limits);
        }
        Parsed::Hopeless(_) => {}
        Parsed::Unfinished => {}
    }
}

/// The parts of a request ask for a request, or they have a fault.
pub fn parts_ask_or_fail(parts: &HeadParts<'_>, limits: &Limits, conn: &Conn)
    ensures { PartsAskOrFail (parts_view parts.now) limits.now (conn_view conn.now) }
{
    let head = Spelled::of(parts);
    match head.size() {
        Ok(_) => {
            let _refused = head.refusal(limits);
        }
        Err(_) => {}
    }
}
