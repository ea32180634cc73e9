//! What is wrong with a request of a front proxy, in words.

use head_map::{MapFault, PathFault};

/// What is wrong with the fields of a front proxy.
pub(crate) fn meaning_of_map_fault(fault: MapFault) -> &'static str {
    match fault {
        MapFault::Missing => "a field that is mapped or required is missing",
        MapFault::Doubled => "there is more than one field of a mapped name",
        MapFault::Unreadable => "the value of a mapped field is not what the field holds",
    }
}

/// What is wrong with a path.
pub(crate) fn meaning_of_path_fault(fault: PathFault) -> &'static str {
    match fault {
        PathFault::DoubleSlash => "the path has an empty segment: //",
        PathFault::DotSegment => "the path has the segment .",
        PathFault::ParentSegment => "the path has the segment ..",
        PathFault::EncodedDot => "the path has an encoded dot: %2e",
        PathFault::EncodedSlash => "the path has an encoded slash: %2f",
        PathFault::EncodedBackslash => "the path has an encoded backslash: %5c",
        PathFault::EncodedNull => "the path has an encoded zero byte: %00",
        PathFault::Backslash => "the path has a backslash",
        PathFault::Semicolon => "the path has a semicolon",
        PathFault::ControlByte => "the path has a control byte",
    }
}
