//! Paths that an application could read as another path.
ghost use Rattle.std.specs.Prelude.{◌≡◌, ◌<◌, ◌⊎◌, ◌↔◌, All, IfNone, IfSome, IsTrue, MatchOption};
ghost use Rattle.std.specs.List.{list_any};
ghost use Rattle.std.specs.Str.Iter.{HasSubslice};
ghost use Rattle.head_map.specs.declared.path.PathFault.{PathFault};
ghost use Rattle.head_map.specs.Paths.{EndsIn, HasPathFault, HasTargetFault, before_fragment, before_query, is_control};

/// Why an application could read a path as another one (RFC 3986, sections 2.1, 3.3 and 5.2.4).
#[derive(Clone, Copy, Debug, PartialEq, Eq)]
pub enum PathFault {
    /// A segment is empty: `//`.
    DoubleSlash,
    /// A segment is `.`: the path has `/./`, or ends in `/.`.
    DotSegment,
    /// A segment is `..`: the path has `/../`, or ends in `/..`.
    ParentSegment,
    /// A dot is encoded: `%2e`, in any case of letters.
    EncodedDot,
    /// A slash is encoded: `%2f`, in any case of letters.
    EncodedSlash,
    /// A backslash is encoded: `%5c`, in any case of letters.
    EncodedBackslash,
    /// A zero byte is encoded: `%00`.
    EncodedNull,
    /// The path has a backslash.
    Backslash,
    /// The path has a semicolon, which begins parameters of a segment.
    Semicolon,
    /// The path has a control byte: one below 32, or 127.
    ControlByte,
}

// Every fault, in the order in which they are sought.
const PATH_FAULTS: [PathFault; 10] = [
    PathFault::DoubleSlash,
    PathFault::DotSegment,
    PathFault::ParentSegment,
    PathFault::EncodedDot,
    PathFault::EncodedSlash,
    PathFault::EncodedBackslash,
    PathFault::EncodedNull,
    PathFault::Backslash,
    PathFault::Semicolon,
    PathFault::ControlByte,
];

/// A fault of the target's path, which is all before the first `?`. Some applications end it at a `#` before that, so
/// that path is tried too. `None` if neither has a fault, so that the path is strict.
pub fn path_is_strict(target: &str) -> Option<PathFault>
    ensures sound { IfNone result ((fault : PathFault) → ¬ (HasTargetFault fault target.now)) }
    ensures fault { IfSome result (λ fault. HasTargetFault fault target.now) }
{
    let path = before_query(target);
    match first_fault(&PATH_FAULTS, path) {
        Some(fault) => Some(fault),
        None => first_fault(&PATH_FAULTS, before_fragment(path)),
    }
}

// The first of these faults that the path has.
fn first_fault(faults: &[PathFault], path: &str) -> Option<PathFault>
    ensures { MatchOption result (All (λ fault. ¬ (HasPathFault fault path.now)) faults.now)
        (λ fault. HasPathFault fault path.now) }
{
    for fault in faults {
        if fault.is_in(path) {
            return Some(*fault);
        }
    }
    None
}

// The target before its first `?`.
fn before_query(target: &str) -> &str
    ensures { result.now ≡ before_query target.now }
{
    match target.split_once('?') {
        Some((path, _)) => path,
        None => target,
    }
}

// The text before its first `#`.
fn before_fragment(text: &str) -> &str
    ensures { result.now ≡ before_fragment text.now }
{
    match text.split_once('#') {
        Some((path, _)) => path,
        None => text,
    }
}

impl PathFault {
    // Whether the path has this fault.
    fn is_in(self, path: &str) -> bool
        ensures { IsTrue result ↔ HasPathFault self path.now }
    {
        match self {
            PathFault::DoubleSlash => has(path, "//"),
            PathFault::DotSegment => has_segment(path, "/./", "/."),
            PathFault::ParentSegment => has_segment(path, "/../", "/.."),
            PathFault::EncodedDot => has_either(path, "%2e", "%2E"),
            PathFault::EncodedSlash => has_either(path, "%2f", "%2F"),
            PathFault::EncodedBackslash => has_either(path, "%5c", "%5C"),
            PathFault::EncodedNull => has(path, "%00"),
            PathFault::Backslash => has(path, "\\"),
            PathFault::Semicolon => has(path, ";"),
            PathFault::ControlByte => has_control(path),
        }
    }
}

fn has(path: &str, text: &str) -> bool
    ensures { IsTrue result ↔ HasSubslice path.now text.now }
{
    path.contains(text)
}

// Whether the path has one of the two texts.
fn has_either(path: &str, text: &str, other: &str) -> bool
    ensures { IsTrue result
        ↔ (HasSubslice path.now text.now ⊎ HasSubslice path.now other.now) }
{
    has(path, text) || has(path, other)
}

// Whether the path has the first text, or ends in the second.
fn has_segment(path: &str, inner: &str, last: &str) -> bool
    ensures { IsTrue result ↔ (HasSubslice path.now inner.now ⊎ EndsIn path.now last.now) }
{
    has(path, inner) || ends_in(path, last)
}

fn ends_in(path: &str, text: &str) -> bool
    ensures { IsTrue result ↔ EndsIn path.now text.now }
{
    path.ends_with(text)
}

fn has_control(path: &str) -> bool
    ensures { result ≡ list_any is_control path.now }
{
    path.as_bytes()
        .iter()
        .any(|byte| *byte < 32 || *byte == 127)
}
