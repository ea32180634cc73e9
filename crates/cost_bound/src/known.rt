//! The sizes that are known before an expression runs: of constants and of attributes.

ghost use Rattle.std.specs.Prelude.{◌≡◌, IfOk};
ghost use Rattle.attributes.specs.Limits.{limit_of};
ghost use Rattle.attributes.specs.declared.attribute.AttrId.TheVariants.{RequestHeaders};
ghost use Rattle.cel_tree.specs.View.{constant_view};
ghost use Rattle.cel_costs.specs.Costs.{attribute_size, constant_size};
ghost use Rattle.cel_costs.specs.Sizes.{Text};
ghost use Rattle.cost_bound.specs.private.SizeView.{size_view};

use crate::measuring::Measuring;
use crate::size::{ValueSize, table};
use attributes::{AttrId, Limit, Limits};
use cel_tree::Constant;
use cel_value::text_length;
use std::alloc::{AllocError, Global};

/// The size of a constant: exactly its length, or flat.
pub(crate) fn constant_size(constant: &Constant) -> ValueSize
    ensures { size_view result ≡ constant_size (constant_view constant.now) }
{
    match constant {
        Constant::Text(text) => ValueSize::Text(text_length(text)),
        Constant::Bytes(bytes) => ValueSize::Text(bytes.len() as u64),
        Constant::Bool(_) => ValueSize::Flat,
        Constant::Int(_) => ValueSize::Flat,
        Constant::Uint(_) => ValueSize::Flat,
    }
}

fn limit_of(limits: &Limits, limit: Limit) -> ValueSize
    ensures { size_view result ≡ Text (limit_of limit limits.now) }
{
    ValueSize::Text(limits.get(limit) as u64)
}

/// The size of an attribute: the greatest within the limits.
pub(crate) fn attribute_size(
    alloc: Global,
    at: &Measuring<'_>,
    id: AttrId,
) -> Result<ValueSize, AllocError>
    ensures { IfOk result (λ size. size_view size ≡ attribute_size at.now.around.limits.now id) }
{
    let limits = at.around.limits;
    match id {
        AttrId::RequestHeaders => headers_size(alloc, limits),
        AttrId::SourcePort => Ok(ValueSize::Flat),
        AttrId::DestinationPort => Ok(ValueSize::Flat),
        AttrId::ConnectionMtls => Ok(ValueSize::Flat),
        AttrId::ConnectionId => Ok(ValueSize::Flat),
        AttrId::RequestMethod => Ok(limit_of(limits, Limit::Method)),
        AttrId::RequestPath => Ok(limit_of(limits, Limit::Target)),
        AttrId::RequestUrlPath => Ok(limit_of(limits, Limit::Target)),
        AttrId::RequestQuery => Ok(limit_of(limits, Limit::Target)),
        AttrId::RequestHost => Ok(limit_of(limits, Limit::Value)),
        AttrId::RequestReferer => Ok(limit_of(limits, Limit::Value)),
        AttrId::RequestUseragent => Ok(limit_of(limits, Limit::Value)),
        AttrId::RequestId => Ok(limit_of(limits, Limit::Value)),
        AttrId::RequestScheme => Ok(limit_of(limits, Limit::Text)),
        AttrId::RequestProtocol => Ok(limit_of(limits, Limit::Text)),
        AttrId::SourceAddress => Ok(limit_of(limits, Limit::Text)),
        AttrId::DestinationAddress => Ok(limit_of(limits, Limit::Text)),
        AttrId::ConnectionRequestedServerName => Ok(limit_of(limits, Limit::Text)),
        AttrId::ConnectionTlsVersion => Ok(limit_of(limits, Limit::Text)),
        AttrId::ConnectionSubjectPeerCertificate => Ok(limit_of(limits, Limit::Text)),
        AttrId::ConnectionDnsSanPeerCertificate => Ok(limit_of(limits, Limit::Text)),
        AttrId::ConnectionUriSanPeerCertificate => Ok(limit_of(limits, Limit::Text)),
    }
}

fn headers_size(alloc: Global, limits: &Limits) -> Result<ValueSize, AllocError>
    ensures { IfOk result (λ size. size_view size ≡ attribute_size limits.now RequestHeaders) }
{
    let fields = limits.get(Limit::Fields) as u64;
    table(
        alloc,
        fields,
        limit_of(limits, Limit::Name),
        limit_of(limits, Limit::Value),
    )
}
