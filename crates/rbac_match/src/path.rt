//! Tests of a request's path (`envoy.type.matcher.v3.PathMatcher`).

ghost use Rattle.std.specs.Prelude.{◌≡◌, ◌⊎◌, IfOk, IfErr};
ghost use Rattle.proto_wire.specs.Merge.{parts_view};
ghost use Rattle.proto_wire.specs.Places.{FaultOr};
ghost use Rattle.rbac_match.specs.Path.{IsPathMatcher, PathFault};

use crate::text::{TextMatcher, read_text_matcher};
use proto_wire::{
    Fault, Key, at_field, inside_field, keys, payloads_of, read_message_at, require_payload,
};
use std::alloc::Global;

pub(crate) const PATH: u32 = 1;

static PATH_MATCHER: [Key; 1] = keys![Len PATH];

/// Reads a PathMatcher from its parts. `Missing`: it has no path. It refuses a path as `read_text_matcher`
/// does.
pub(crate) fn read_path_matcher<'a>(
    alloc: Global,
    parts: &[&'a [u8]],
) -> Result<TextMatcher<'a>, Fault>
    ensures found { IfOk result (λ test. IsPathMatcher (parts_view parts.now) test) }
    ensures fault { IfErr result (FaultOr (PathFault (parts_view parts.now))) }
{
    let fields = read_message_at(alloc, parts, &PATH_MATCHER)?;
    at_field(require_payload(&fields, PATH), PATH)?;
    let path = payloads_of(alloc, &fields, PATH)?;
    inside_field(read_text_matcher(alloc, &path), PATH, 0)
}
