//! The reading of tests of one fact.

ghost use Rattle.std.specs.Prelude.{◌≡◌, IfOk, IfErr, map};
ghost use Rattle.proto_wire.specs.Fields.{field_view};
ghost use Rattle.proto_wire.specs.Merge.{parts_view};
ghost use Rattle.proto_wire.specs.Places.{FaultOr};
ghost use Rattle.proto_wire.specs.Values.{payloads};
ghost use Rattle.rbac_match.specs.Leaves.{IsLeaf, LeafFault};

use crate::authenticated::read_authenticated;
use crate::cidr::read_cidr;
use crate::header::read_header_matcher;
use crate::matcher::Matcher;
use crate::member::LeafKind;
use crate::path::read_path_matcher;
use crate::ports::{read_port, read_port_range};
use crate::text::read_text_matcher;
use proto_wire::{Fault, Field, payloads_of};
use std::alloc::Global;

/// Reads a test of this kind from the run of its member; the member has this number.
pub(crate) fn read_leaf<'a>(
    alloc: Global,
    kind: LeafKind,
    number: u32,
    run: &[Field<'a>],
) -> Result<Matcher<'a>, Fault>
    ensures found { IfOk result (λ m. IsLeaf kind number (map field_view run.now) m) }
    ensures fault { IfErr result (FaultOr (LeafFault kind number (map field_view run.now))) }
{
    let parts = payloads_of(alloc, run, number)?;
    let leaf = leaf_in(alloc, kind, number, run, &parts);
    drop(parts);
    leaf
}

// The same from the payloads of the run as well.
fn leaf_in<'a>(
    alloc: Global,
    kind: LeafKind,
    number: u32,
    run: &[Field<'a>],
    parts: &[&'a [u8]],
) -> Result<Matcher<'a>, Fault>
    requires { parts_view parts.now ≡ payloads number (map field_view run.now) }
    ensures found { IfOk result (λ m. IsLeaf kind number (map field_view run.now) m) }
    ensures fault { IfErr result (FaultOr (LeafFault kind number (map field_view run.now))) }
{
    match kind {
        LeafKind::Header => Ok(Matcher::Header(read_header_matcher(alloc, parts)?)),
        LeafKind::Address(source) => Ok(Matcher::Address(source, read_cidr(alloc, parts)?)),
        LeafKind::Port => Ok(Matcher::Port(read_port(run, number)?)),
        LeafKind::PortRange => Ok(Matcher::PortRange(read_port_range(alloc, parts)?)),
        LeafKind::ServerName => Ok(Matcher::ServerName(read_text_matcher(alloc, parts)?)),
        LeafKind::UrlPath => Ok(Matcher::UrlPath(read_path_matcher(alloc, parts)?)),
        LeafKind::Authenticated => Ok(Matcher::Authenticated(read_authenticated(alloc, parts)?)),
    }
}
