//! What a response that was accepted leaves open: filters without policies, and names that nobody asked for.
ghost use Rattle.std.specs.Prelude.{◌≡◌, IfOk, map, option_map};
ghost use Rattle.ads.specs.Config.{names_of};
ghost use Rattle.ads.specs.Ends.{client_view};
ghost use Rattle.ads.specs.Views.{admitted_view};
ghost use Rattle.xds_wire.specs.View.{any_view, texts_view};
ghost use Rattle.serve_observe.specs.Gaps.{AreGaps, AreUnasked, AreUnaskedIn, is_asked, lacks_policies, names_without};

use crate::access_log::filter_name;
use ads::{Client, Config};
use proto_wire::Refusal;
use rbac_policy::Admitted;
use std::alloc::{AllocError, Global};
use xds_wire::{Any, read_extension, read_response};

/// What a response that was accepted leaves open.
#[derive(Drop)]
pub(crate) struct Gaps<'a> {
    /// The filters that are without policies: none came yet, or they have none.
    pub(crate) without_policies: Vec<&'a str>,
    /// The names of its resources that nobody asked for.
    pub(crate) unasked: Vec<&'a str>,
}

impl<'a> Gaps<'a> {
    /// What the client has after it accepted this message, and what it did not ask for.
    pub(crate) fn of(
        alloc: Global,
        client: &'a Client,
        message: &'a [u8],
    ) -> Result<Gaps<'a>, Refusal>
        ensures { IfOk result (AreGaps (client_view client.now) message.now) }
    {
        Ok(Gaps {
            without_policies: without_policies(alloc, client)?,
            unasked: unasked(alloc, client.config(), message)?,
        })
    }

    /// Whether nothing is open.
    pub(crate) fn is_none(&self) -> bool {
        self.without_policies.is_empty() && self.unasked.is_empty()
    }
}

// The names of the filters that are without policies, in their order.
fn without_policies(alloc: Global, client: &Client) -> Result<Vec<&str>, AllocError>
    ensures { IfOk result (λ names. texts_view names.items
        ≡ names_without (names_of (client_view client.now).config.filters) (client_view client.now).accepted.policies) }
{
    without_in(alloc, client.config(), client.policies())
}

// The same, of the filters of a configuration that have these policies.
fn without_in<'a>(
    alloc: Global,
    config: &'a Config,
    policies: &[Option<Admitted>],
) -> Result<Vec<&'a str>, AllocError>
    ensures { IfOk result (λ names. texts_view names.items
        ≡ names_without (names_of config.now.filters) (map (option_map admitted_view) policies.now)) }
{
    let mut names = Vec::new(alloc);
    for place in 0..policies.len() {
        if is_without(&policies[place]) {
            if let Some(name) = filter_name(config, place) {
                names.push(name)?;
            }
        }
    }
    Ok(names)
}

// Whether a filter is without policies: none came yet, or it has none.
fn is_without(policies: &Option<Admitted>) -> bool
    ensures { result ≡ lacks_policies (option_map admitted_view policies.now) }
{
    match policies {
        Some(admitted) => admitted.policies() == 0,
        None => true,
    }
}

// The names of the resources of a message that are no filters of the configuration, in their order.
fn unasked<'a>(alloc: Global, config: &Config, message: &'a [u8]) -> Result<Vec<&'a str>, Refusal>
    ensures { IfOk result (λ names. AreUnasked (names_of config.now.filters) message.now (texts_view names.items)) }
{
    let response = read_response(alloc, message)?;
    unasked_in(alloc, config, &response.resources)
}

// The same, of these resources.
fn unasked_in<'a>(
    alloc: Global,
    config: &Config,
    resources: &[Any<'a>],
) -> Result<Vec<&'a str>, Refusal>
    ensures { IfOk result (λ names. AreUnaskedIn (names_of config.now.filters) (map any_view resources.now)
        (texts_view names.items)) }
{
    let mut names = Vec::new(alloc);
    for place in 0..resources.len() {
        let extension = read_extension(alloc, resources[place].value)?;
        if !has_filter(config, extension.name) {
            names.push(extension.name)?;
        }
    }
    Ok(names)
}

// Whether a filter of the configuration has this name.
fn has_filter(config: &Config, name: &str) -> bool
    ensures { result ≡ is_asked (names_of config.now.filters) name.now }
{
    config.filters().contains_key(name)
}
