//! The settings of a proxy, as C gives them.

ghost use Rattle.std.specs.Prelude.{◌≡◌, IfOk, IfErr, IsTrue, map};
ghost use Rattle.std.specs.Str.{IsUtf8};
ghost use Rattle.std.specs.String.{string_bytes};
ghost use Rattle.ads.specs.Views.{filter_view, filters_view};
ghost use Rattle.vupresal_c.specs.Settings.{AreTexts, IsConfig, IsNewCore, SettingsFail, TextFails, are_too_long, has_long_name, is_long_name, resource_given, resources_given};

use crate::admission::budget_of;
use crate::fault::Fault;
use ads::{Config, Filter};
use c_inputs::{Bounds, limits_of};
use c_slots::Core;
use proxy_core::{Output, Proxy as State};
use std::alloc::Global;
use std::str;

// More filters, and longer names, are not read: their number may be wrong.
const MOST_FILTERS: usize = 8;

const LONGEST_NAME: usize = 256;

/// A filter's resource: its name of 1 to 256 bytes, and the budget of its conditions, 1 to 100,000,000 steps.
#[repr(C)]
#[derive(Drop)]
pub struct Resource<'a> {
    pub name: &'a [u8],
    pub budget: u64,
}

/// The settings of a proxy. The node and its cluster have at most 256 bytes each. There are 1 to 8 filters with distinct
/// names, and the limits of requests.
#[repr(C)]
#[derive(Drop)]
pub struct Settings<'a> {
    pub node: &'a [u8],
    pub cluster: &'a [u8],
    pub filters: &'a [Resource<'a>],
    pub bounds: Bounds,
}

impl<'a> Settings<'a> {
    /// Whether the settings are out of range by the lengths of their parts alone. No byte of a name is read.
    pub(crate) fn are_too_long(&self) -> bool
        ensures { result ≡ are_too_long self.now }
    {
        self.node.len() > LONGEST_NAME
            || self.cluster.len() > LONGEST_NAME
            || self.filters.len() > MOST_FILTERS
            || has_long_name(self.filters)
    }
}

// Whether some resource's name is too long.
fn has_long_name(resources: &[Resource<'_>]) -> bool
    ensures { result ≡ has_long_name resources.now }
{
    resources.iter().any(|resource| is_long_name(resource))
}

fn is_long_name(resource: &Resource<'_>) -> bool
    ensures { result ≡ is_long_name resource.now }
{
    resource.name.len() > LONGEST_NAME
}

/// The core of a new proxy with these settings, in a box.
pub(crate) fn core_of(alloc: Global, settings: &Settings<'_>) -> Result<Box<Core>, Fault>
    ensures found { IfOk result (λ core. IsNewCore settings.now core.value) }
    ensures fault { IfErr result (SettingsFail settings.now) }
{
    let config = config_of(alloc, settings)?;
    let core = Core {
        proxy: State::new(alloc, config)?,
        output: Output {
            ads: Vec::new(alloc),
            ads_close: false,
            http: Vec::new(alloc),
            http_close: false,
        },
    };
    Ok(Box::new(alloc, core)?)
}

// The configuration of these settings.
fn config_of(alloc: Global, settings: &Settings<'_>) -> Result<Config, Fault>
    ensures found { IfOk result (IsConfig settings.now) }
    ensures fault { IfErr result (SettingsFail settings.now) }
{
    let Some(limits) = limits_of(&settings.bounds) else {
        return Err(Fault::OutOfRange);
    };
    let node = text(alloc, settings.node)?;
    let cluster = text(alloc, settings.cluster)?;
    let filters = filters_of(alloc, settings.filters, &settings.bounds)?;
    match Config::new(alloc, node, cluster, filters, limits) {
        Ok(config) => Ok(config),
        Err(fault) => Err(Fault::from(fault)),
    }
}

// The filters of these resources, whose budgets have the visits of the bounds.
fn filters_of(
    alloc: Global,
    resources: &[Resource<'_>],
    bounds: &Bounds,
) -> Result<Vec<Filter>, Fault>
    ensures found { IfOk result (λ filters. filters_view filters.items ≡ resources_given bounds.now resources.now) }
    ensures fault { IfErr result (TextFails (AreTexts resources.now)) }
{
    let mut filters = Vec::new(alloc);
    for resource in resources {
        let filter = filter_of(alloc, resource, bounds)?;
        filters.push(filter)?;
    }
    Ok(filters)
}

// The filter of a resource.
fn filter_of(alloc: Global, resource: &Resource<'_>, bounds: &Bounds) -> Result<Filter, Fault>
    ensures found { IfOk result (λ filter. filter_view filter ≡ resource_given bounds.now resource.now) }
    ensures fault { IfErr result (TextFails (IsUtf8 resource.now.name.now)) }
{
    let name = text(alloc, resource.name)?;
    Ok(Filter {
        name,
        budget: budget_of(bounds, resource.budget),
    })
}

// The text of these bytes.
fn text(alloc: Global, bytes: &[u8]) -> Result<String, Fault>
    ensures found { IfOk result (λ text. string_bytes text ≡ bytes.now) }
    ensures fault { IfErr result (TextFails (IsUtf8 bytes.now)) }
{
    match str::from_utf8(bytes) {
        Ok(text) => Ok(String::from_str(alloc, text)?),
        Err(_) => Err(Fault::OutOfRange),
    }
}
