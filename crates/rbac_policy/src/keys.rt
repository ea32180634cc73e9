//! The fields of a filter's messages, by number and wire type.

use crate::numbers;
use proto_wire::{Key, keys};

/// The fields of the filter's message: its rules, and fields that are skipped.
pub(crate) static FILTER_KEYS: [Key; 3] = keys![
    Len numbers::RULES, Len numbers::SHADOW_RULES, Len numbers::SHADOW_RULES_STAT_PREFIX
];

/// The fields of its rules: the action, the policies, and the audit log's options.
pub(crate) static RULES_KEYS: [Key; 3] = keys![
    Varint numbers::ACTION, Len numbers::POLICIES, Len numbers::AUDIT_LOGGING_OPTIONS
];

/// The fields of a policy: permissions, principals and the two conditions.
pub(crate) static POLICY_KEYS: [Key; 4] = keys![
    Len numbers::PERMISSIONS, Len numbers::PRINCIPALS, Len numbers::CONDITION,
    Len numbers::CHECKED_CONDITION
];
