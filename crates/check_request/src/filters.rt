//! Which filters a CheckRequest asks.

ghost use Rattle.std.specs.Prelude.{◌≡◌, IfErr, IfOk, MatchOption, None, Some};
ghost use Rattle.std.specs.Map.{lookup};
ghost use Rattle.std.specs.Str.{bytes_eq};
ghost use Rattle.proto_wire.specs.Maps.{entries_view, text};
ghost use Rattle.proto_wire.specs.Merge.{parts_view};
ghost use Rattle.check_request.specs.Check.{AreFilters};
ghost use Rattle.check_request.specs.Faults.{FaultOr, FiltersFault};
ghost use Rattle.check_request.specs.View.{text_view};

use crate::fault::CheckFault;
use crate::fields::{as_text, entries_in};
use crate::lines::last_payload;
use crate::part::CheckPart;
use proto_wire::{MapEntry, Payloads};
use std::alloc::Global;

/// The names of the filters, which the payloads of `context_extensions` say; `None` if they say none.
pub(crate) fn read_filters<'a>(
    alloc: Global,
    parts: &[&'a [u8]],
) -> Result<Option<&'a str>, CheckFault>
    ensures found { IfOk result (λ filters. AreFilters (parts_view parts.now) (text_view filters)) }
    ensures fault { IfErr result (FaultOr (FiltersFault (parts_view parts.now))) }
{
    let entries = entries_in(alloc, parts, CheckPart::Extensions)?;
    let Some(value) = value_at(&entries, "filters") else {
        return Ok(None);
    };
    let filters = as_text(last_payload(value), CheckPart::Filters)?;
    Ok(Some(filters))
}

// The payloads of the value at this key.
fn value_at<'b, 'a>(entries: &'b [MapEntry<'a, &'a str>], key: &str) -> Option<&'b Payloads<'a>>
    ensures { let found = lookup (λ other. bytes_eq other key.now)
        (entries_view text (λ k. k.now) entries.now) in
        MatchOption result (found ≡ None) (λ value. found ≡ Some (parts_view value.now.items)) }
{
    for entry in entries {
        if entry.0 == key {
            return Some(&entry.1);
        }
    }
    None
}
