//! The judging of a response, as a function of the response alone: the policies that it gives each filter, or the
//! refusal.

ghost use Rattle.std.specs.Prelude.{◌≡◌, ◌≢◌, ℕ, Some, Err, [], ◌∷◌, List, map, IfOk, IfErr, OnOk, OnErr, MatchOption};
ghost use Rattle.std.specs.Option.{option_map};
ghost use Rattle.std.specs.List.{AllZip};
ghost use Rattle.proto_wire.specs.declared.refusal.Refusal.TheVariants.{DuplicateResource, Missing, WrongType};
ghost use Rattle.xds_wire.specs.Discovery.{ExtensionMessage};
ghost use Rattle.xds_wire.specs.View.{any_view, extension_view, response_view};
ghost use Rattle.ads.specs.Answer.{IsResource, HoldsFilter, FirstOf, Gives, RefusesNothing, named, extension_type};
ghost use Rattle.ads.specs.Judgements.{Unfit};
ghost use Rattle.ads.specs.Views.{admitted_view, entries_view, policies_view};
ghost use Rattle.ads.specs.declared.judging.Judged.TheVariants.{Given, Refused};
ghost use Rattle.ads.specs.declared.refused.NotAccepted.TheVariants.{NoMemory};
ghost use Rattle.ads.specs.private.Taking.{IsDoubled, IsFirstUnfit, IsJudged, MatchNotAccepted, ReadFault, Reads, RunsOut, filter_of, given_of};

use crate::config::Config;
use crate::refused::{NotAccepted, RefusalCause, memory_apart};
use attributes::Limits;
use cost_bound::Budget;
use indexmap::IndexMap;
use proto_wire::Refusal;
use rbac_policy::{Admitted, admit_at};
use std::alloc::{AllocError, Global};
use xds_wire::{Any, DiscoveryResponse, TypedExtensionConfig, read_extension};

/// The type URL of the resources that a client subscribes to.
pub(crate) const EXTENSION_TYPE: &str =
    "type.googleapis.com/envoy.config.core.v3.TypedExtensionConfig";

/// The type URL of a filter's message.
pub(crate) const FILTER_TYPE: &str =
    "type.googleapis.com/envoy.extensions.filters.http.rbac.v3.RBAC";

/// The judgement of a response.
#[derive(Debug, Drop)]
pub(crate) enum Judged<'a> {
    /// The policies that it gives each filter, in configured order.
    Given(Vec<Option<Admitted>>),
    /// Why it is refused, and where.
    Refused(RefusalCause<'a>),
}

/// Judges a response. The error means out of memory outside of an admission, where nothing that was read is refused.
pub(crate) fn judge<'a>(
    alloc: Global,
    config: &Config,
    response: &DiscoveryResponse<'a>,
) -> Result<Judged<'a>, AllocError>
    ensures found { IfOk result (IsJudged config.now (response_view response.now)) }
    ensures fault { OnErr result (RunsOut config.now (response_view response.now)) }
{
    judgement(given_by(alloc, config, response))
}

// The judgement, with exactly this refusal. The error is out of memory exactly if memory ran out outside of an
// admission.
fn judgement<'a>(
    given: Result<Vec<Option<Admitted>>, NotAccepted<'a>>,
) -> Result<Judged<'a>, AllocError>
    ensures found { IfOk result (λ judged. given.entry ≡ given_of judged) }
    ensures fault { OnErr result (given.entry ≡ Err NoMemory) }
{
    match given {
        Ok(given) => Ok(Judged::Given(given)),
        Err(NotAccepted::Refused(refusing)) => Ok(Judged::Refused(refusing)),
        Err(NotAccepted::NoMemory) => Err(AllocError),
    }
}

// The policies that a response gives each filter.
fn given_by<'a>(
    alloc: Global,
    config: &Config,
    response: &DiscoveryResponse<'a>,
) -> Result<Vec<Option<Admitted>>, NotAccepted<'a>>
    ensures found { IfOk result (λ given. IsJudged config.now (response_view response.now) (Given given)) }
    ensures fault { IfErr result (MatchNotAccepted
        (λ e. IsJudged config.now (response_view response.now) (Refused e))
        (RunsOut config.now (response_view response.now))) }
{
    check_type(response.type_url)?;
    let extensions = memory_apart(read_resources(alloc, &response.resources))??;
    take_all(alloc, config.limits(), config.filters(), &extensions)
}

// Refuses any type but that of the resources.
fn check_type(type_url: &str) -> Result<(), Refusal>
    ensures found { OnOk result (type_url.now ≡ extension_type) }
    ensures fault { IfErr result (λ e. (type_url.now ≢ extension_type) × (e ≡ WrongType)) }
{
    if type_url != EXTENSION_TYPE {
        return Err(Refusal::WrongType);
    }
    Ok(())
}

// The resources as extensions; each has a name.
fn read_resources<'a>(
    alloc: Global,
    resources: &[Any<'a>],
) -> Result<Vec<TypedExtensionConfig<'a>>, Refusal>
    ensures found { IfOk result (λ v.
        AllZip IsResource (map any_view resources.now) (map extension_view v.items)) }
    ensures fault { IfErr result (λ e. FirstOf Reads (λ any. ReadFault any e) (map any_view resources.now)) }
{
    let mut extensions = Vec::new(alloc);
    for resource in resources {
        extensions.push(read_resource(alloc, resource)?)?;
    }
    Ok(extensions)
}

// The resource as an extension; it has a name.
fn read_resource<'a>(alloc: Global, resource: &Any<'a>) -> Result<TypedExtensionConfig<'a>, Refusal>
    ensures found { IfOk result (λ x. IsResource (any_view resource.now) (extension_view x)) }
    ensures fault { IfErr result (ReadFault (any_view resource.now)) }
{
    check_type(resource.type_url)?;
    let extension = read_extension(alloc, resource.value)?;
    require_name(&extension)?;
    Ok(extension)
}

// Refuses an extension without a name.
fn require_name(extension: &TypedExtensionConfig<'_>) -> Result<(), Refusal>
    ensures found { OnOk result (extension.now.name.now ≢ []) }
    ensures fault { IfErr result (λ e. (extension.now.name.now ≡ []) × (e ≡ Missing)) }
{
    if extension.name.is_empty() {
        return Err(Refusal::Missing);
    }
    Ok(())
}

// The policies that the extensions give each of the filters.
fn take_all<'a>(
    alloc: Global,
    limits: &Limits,
    filters: &IndexMap<String, Budget>,
    extensions: &[TypedExtensionConfig<'a>],
) -> Result<Vec<Option<Admitted>>, NotAccepted<'a>>
    ensures found { IfOk result (λ given. AllZip
        (λ f. Gives limits.now f (named f.name (map extension_view extensions.now)))
        (entries_view filters.now.entries) (policies_view given.items)) }
    ensures fault { let xs = map extension_view extensions.now in
        IfErr result (MatchNotAccepted
        (IsFirstUnfit limits.now xs (entries_view filters.now.entries))
        (FirstOf (RefusesNothing limits.now xs) (RefusesNothing limits.now xs)
        (entries_view filters.now.entries))) }
{
    let mut given = Vec::new(alloc);
    for (name, budget) in filters {
        match take(alloc, limits, name, *budget, extensions) {
            Ok(policies) => given.push(policies)?,
            Err(refusing) => return Err(NotAccepted::Refused(refusing.at(given.len()))),
        }
    }
    Ok(given)
}

// The policies that the extensions give the filter of this name.
fn take<'a>(
    alloc: Global,
    limits: &Limits,
    name: &str,
    budget: Budget,
    extensions: &[TypedExtensionConfig<'a>],
) -> Result<Option<Admitted>, RefusalCause<'a>>
    ensures found { IfOk result (λ given. Gives limits.now (filter_of name.now budget)
        (named name.now (map extension_view extensions.now)) (option_map admitted_view given)) }
    ensures fault { IfErr result (λ e. Unfit limits.now (map extension_view extensions.now)
        (filter_of name.now budget) e.fault e.message.now) }
{
    match find(extensions, name)? {
        None => Ok(None),
        Some(extension) => {
            let admitted = admit_extension(alloc, limits, budget, &extension)?;
            Ok(Some(admitted))
        }
    }
}

// The extension of this name, if there is one. Refuses two of the name.
fn find<'a>(
    extensions: &[TypedExtensionConfig<'a>],
    name: &str,
) -> Result<Option<TypedExtensionConfig<'a>>, Refusal>
    ensures found { let xs = named name.now (map extension_view extensions.now) in
        IfOk result (λ o. MatchOption o (xs ≡ []) (λ x. xs ≡ extension_view x ∷ [])) }
    ensures fault { IfErr result (λ e. IsDoubled name.now (map extension_view extensions.now)
        × (e ≡ DuplicateResource)) }
{
    let mut found = None;
    for extension in extensions {
        if extension.name != name {
            continue;
        }
        if found.is_some() {
            return Err(Refusal::DuplicateResource);
        }
        found = Some(*extension);
    }
    Ok(found)
}

// Admits the filter that the extension holds.
fn admit_extension<'a>(
    alloc: Global,
    limits: &Limits,
    budget: Budget,
    extension: &TypedExtensionConfig<'a>,
) -> Result<Admitted, RefusalCause<'a>>
    ensures found { IfOk result (λ a. (name : List ℕ)
        → Gives limits.now (filter_of name budget) (extension_view extension.now ∷ []) (Some (admitted_view a))) }
    ensures fault { IfErr result (λ e. (name : List ℕ) (xs : List ExtensionMessage)
        → named name xs ≡ extension_view extension.now ∷ []
        → Unfit limits.now xs (filter_of name budget) e.fault e.message.now) }
{
    let message = filter_bytes(extension)?;
    let mut left = budget;
    match admit_at(alloc, message, limits, &mut left) {
        Ok(admitted) => Ok(admitted),
        Err(fault) => Err(RefusalCause {
            fault,
            filter: None,
            message,
            left,
        }),
    }
}

// The bytes of the filter's message that the extension holds.
fn filter_bytes<'a>(extension: &TypedExtensionConfig<'a>) -> Result<&'a [u8], Refusal>
    ensures found { IfOk result (λ bytes. HoldsFilter (extension_view extension.now) bytes.now) }
    ensures fault { IfErr result (λ e. (e ≡ WrongType)
        × ((bytes : List ℕ) → HoldsFilter (extension_view extension.now) bytes → ⊥)) }
{
    match extension.typed_config {
        Some(config) if config.type_url == FILTER_TYPE => Ok(config.value),
        _ => Err(Refusal::WrongType),
    }
}
