//! The members of a permission's or a principal's oneof, by number, and which of them counts.

ghost use Rattle.std.specs.Prelude.{◌≡◌, Some, None, IfOk, IfErr, MatchOption, map};
ghost use Rattle.proto_wire.specs.Fields.{field_view};
ghost use Rattle.proto_wire.specs.Keys.{AllKnown};
ghost use Rattle.proto_wire.specs.declared.refusal.Refusal.TheVariants.{Missing, Unsupported};
ghost use Rattle.rbac_match.specs.Message.{members, rule_keys};
ghost use Rattle.proto_wire.specs.Oneof.{last_number, member_in};
ghost use Rattle.proto_wire.specs.Places.{IsAt};

use crate::cidr::AddressSource;
use crate::keys::{AND, ANY, NOT, OR, permission, principal};
use crate::rule::Side;
use proto_wire::{Fault, Field, Refusal};

/// A supported member of the oneof.
#[derive(Clone, Copy)]
pub(crate) enum Member {
    /// `and_rules` or `and_ids`
    And,
    /// `or_rules` or `or_ids`
    Or,
    /// `any`
    Any,
    /// `not_rule` or `not_id`
    Not,
    /// A test of one fact.
    Leaf(LeafKind),
}

/// The kind of a test of one fact, by its member of the oneof.
#[derive(Clone, Copy)]
pub(crate) enum LeafKind {
    /// `header`
    Header,
    /// `destination_ip`, `direct_remote_ip` or `remote_ip`
    Address(AddressSource),
    /// `destination_port`
    Port,
    /// `destination_port_range`
    PortRange,
    /// `requested_server_name`
    ServerName,
    /// `url_path`
    UrlPath,
    /// `authenticated`
    Authenticated,
}

/// The last member of a rule, which is the one that counts.
#[derive(Clone, Copy)]
pub(crate) struct LastMember {
    pub member: Member,
    pub number: u32,
}

// The member of this number; `None` if it is not supported.
fn member_at(side: Side, number: u32) -> Option<Member>
    ensures { result ≡ member_in (members side) number }
{
    match (side, number) {
        (_, AND) => Some(Member::And),
        (_, OR) => Some(Member::Or),
        (_, ANY) => Some(Member::Any),
        (_, NOT) => Some(Member::Not),
        (Side::Permission, permission::HEADER) => Some(Member::Leaf(LeafKind::Header)),
        (Side::Permission, permission::DESTINATION_IP) => {
            Some(Member::Leaf(LeafKind::Address(AddressSource::Destination)))
        }
        (Side::Permission, permission::DESTINATION_PORT) => Some(Member::Leaf(LeafKind::Port)),
        (Side::Permission, permission::REQUESTED_SERVER_NAME) => {
            Some(Member::Leaf(LeafKind::ServerName))
        }
        (Side::Permission, permission::URL_PATH) => Some(Member::Leaf(LeafKind::UrlPath)),
        (Side::Permission, permission::DESTINATION_PORT_RANGE) => {
            Some(Member::Leaf(LeafKind::PortRange))
        }
        (Side::Principal, principal::AUTHENTICATED) => Some(Member::Leaf(LeafKind::Authenticated)),
        (Side::Principal, principal::HEADER) => Some(Member::Leaf(LeafKind::Header)),
        (Side::Principal, principal::URL_PATH) => Some(Member::Leaf(LeafKind::UrlPath)),
        (Side::Principal, principal::DIRECT_REMOTE_IP) => {
            Some(Member::Leaf(LeafKind::Address(AddressSource::DirectRemote)))
        }
        (Side::Principal, principal::REMOTE_IP) => {
            Some(Member::Leaf(LeafKind::Address(AddressSource::Remote)))
        }
        _ => None,
    }
}

/// The last member of a rule's fields, which are all members. `Missing`: there is none. `Unsupported`: the
/// last member is not supported.
pub(crate) fn last_member(side: Side, fields: &[Field<'_>]) -> Result<LastMember, Fault>
    requires { AllKnown (rule_keys side) (map field_view fields.now) }
    ensures found { IfOk result (λ last.
        (last_number (rule_keys side) (map field_view fields.now) ≡ Some last.number)
        × (member_in (members side) last.number ≡ Some last.member)) }
    ensures fault { IfErr result (λ e. MatchOption
        (last_number (rule_keys side) (map field_view fields.now))
        (IsAt 0 Missing e) (λ n. (member_in (members side) n ≡ None) × IsAt n Unsupported e)) }
{
    let Some(last) = fields.last() else {
        return Err(Fault::at(Refusal::Missing, 0));
    };
    let number = last.number;
    match member_at(side, number) {
        Some(member) => Ok(LastMember { member, number }),
        None => Err(Fault::at(Refusal::Unsupported, number)),
    }
}
