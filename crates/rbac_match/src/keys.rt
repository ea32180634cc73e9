//! The fields of the messages Permission, Principal and Set, and of ranges of integers, by number
//! and wire type.

ghost use Rattle.std.specs.Prelude.{◌≡◌};
ghost use Rattle.rbac_match.specs.Message.{rule_keys};

use crate::rule::Side;
use proto_wire::{Key, keys};

/// `and_rules` of a permission, and `and_ids` of a principal. Members that hold rules have the same number in
/// both.
pub const AND: u32 = 1;

/// `or_rules` of a permission, and `or_ids` of a principal.
pub const OR: u32 = 2;

pub(crate) const ANY: u32 = 3;

/// `not_rule` of a permission, and `not_id` of a principal.
pub const NOT: u32 = 8;

/// The other members of a permission (`envoy.config.rbac.v3.Permission`).
pub(crate) mod permission {
    pub(crate) const HEADER: u32 = 4;

    pub(crate) const DESTINATION_IP: u32 = 5;

    pub(crate) const DESTINATION_PORT: u32 = 6;

    pub(crate) const METADATA: u32 = 7;

    pub(crate) const REQUESTED_SERVER_NAME: u32 = 9;

    pub(crate) const URL_PATH: u32 = 10;

    pub(crate) const DESTINATION_PORT_RANGE: u32 = 11;

    pub(crate) const MATCHER: u32 = 12;
}

/// The other members of a principal (`envoy.config.rbac.v3.Principal`).
pub(crate) mod principal {
    pub(crate) const AUTHENTICATED: u32 = 4;

    pub(crate) const SOURCE_IP: u32 = 5;

    pub(crate) const HEADER: u32 = 6;

    pub(crate) const METADATA: u32 = 7;

    pub(crate) const URL_PATH: u32 = 9;

    pub(crate) const DIRECT_REMOTE_IP: u32 = 10;

    pub(crate) const REMOTE_IP: u32 = 11;

    pub(crate) const FILTER_STATE: u32 = 12;
}

/// `rules` of a permission's set, and `ids` of a principal's set.
pub const RULES: u32 = 1;

/// The field of a range's first integer.
pub(crate) const START: u32 = 1;

/// The field of the integer after a range's last.
pub(crate) const END: u32 = 2;

static PERMISSION: [Key; 12] = keys![
    Len AND, Len OR, Varint ANY, Len permission::HEADER, Len permission::DESTINATION_IP,
    Varint permission::DESTINATION_PORT, Len permission::METADATA, Len NOT,
    Len permission::REQUESTED_SERVER_NAME, Len permission::URL_PATH,
    Len permission::DESTINATION_PORT_RANGE, Len permission::MATCHER
];

static PRINCIPAL: [Key; 12] = keys![
    Len AND, Len OR, Varint ANY, Len principal::AUTHENTICATED, Len principal::SOURCE_IP,
    Len principal::HEADER, Len principal::METADATA, Len NOT, Len principal::URL_PATH,
    Len principal::DIRECT_REMOTE_IP, Len principal::REMOTE_IP, Len principal::FILTER_STATE
];

/// The fields of a set of rules.
pub(crate) static SET: [Key; 1] = keys![Len RULES];

/// The fields of a range of integers.
pub(crate) static RANGE: [Key; 2] = keys![Varint START, Varint END];

/// The members of the oneof of a permission or of a principal.
pub(crate) fn rule_keys(side: Side) -> &'static [Key]
    ensures { result.now ≡ rule_keys side }
{
    match side {
        Side::Permission => &PERMISSION,
        Side::Principal => &PRINCIPAL,
    }
}
