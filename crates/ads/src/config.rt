//! A configuration: the node, the filters in configured order, and the limits of their requests.

ghost use Rattle.std.specs.Prelude.{◌≡◌, ◌⊎◌, ◌<◌, ◌≤◌, length, map, IfOk, IfErr, OnOk, MatchBool};
ghost use Rattle.std.specs.List.{AllByRecursion};
ghost use Rattle.std.specs.String.{string_bytes};
ghost use Rattle.proto_wire.specs.Merge.{SomeOf};
ghost use Rattle.ads.specs.Config.{FilterIsAtFault, IsFilter, IsSound, IsAtFault, Repeats, HasName};
ghost use Rattle.ads.specs.declared.config.ConfigFault.TheVariants.{NoFilter, TooManyFilters, DoubledName, BadName, BadBudget, Memory};
ghost use Rattle.ads.specs.Views.{filter_view, filters_view, entries_view};

use attributes::Limits;
use cost_bound::Budget;
use indexmap::IndexMap;
use std::alloc::{AllocError, AllocFailed, Global};
use std::marker::Model;

/// The greatest number of filters in a configuration.
pub(crate) const MOST_FILTERS: usize = 8;

// The greatest length in bytes of a filter's name, of the node and of the cluster.
const LONGEST_NAME: usize = 256;

/// A filter: the name of its resource, and the budget of its conditions.
#[derive(Debug, Drop)]
pub struct Filter {
    /// The name, of 1 to 256 bytes.
    pub name: String,
    /// The budget, 1 to 100,000,000 steps and 1 to 2^63 - 1 visits.
    pub budget: Budget,
}

/// Why a configuration is refused.
#[derive(Clone, Copy, PartialEq, Eq, Debug)]
pub enum ConfigFault {
    /// There is no filter.
    NoFilter,
    /// There are more than 8 filters.
    TooManyFilters,
    /// Two filters have the same name.
    DoubledName,
    /// A filter's name is empty or has more than 256 bytes, or the node or the cluster has more.
    BadName,
    /// A budget has too few or too many steps or visits.
    BadBudget,
    /// Memory ran out.
    Memory,
}

impl From<AllocError> for ConfigFault {
    ghost from_gives = { λ _ e. e ≡ Memory };

    fn from(_error: AllocError) -> ConfigFault {
        ConfigFault::Memory
    }
}

impl<T: Drop> From<AllocFailed<T>> for ConfigFault {
    ghost from_gives = { λ _ e. e ≡ Memory };

    fn from(_error: AllocFailed<T>) -> ConfigFault {
        ConfigFault::Memory
    }
}

/// The node and its cluster, the filters, and the limits of the requests that they judge.
#[derive(Debug, Drop)]
pub struct Config {
    node: String,
    cluster: String,
    filters: IndexMap<String, Budget>,
    limits: Limits,
}

impl Model for Config {
    ghost use Rattle.std.specs.String.{string_bytes};
    ghost use Rattle.ads.specs.Config.{ConfigValue, IsSound};
    ghost use Rattle.ads.specs.Views.{entries_view};

    ghost Value = { ConfigValue };

    ghost view = { λ c. record {
      node = string_bytes c.node;
      cluster = string_bytes c.cluster;
      filters = entries_view c.filters.entries;
      limits = c.limits;
    } };

    ghost invariant = { λ c. IsSound (record {
      node = string_bytes c.node;
      cluster = string_bytes c.cluster;
      filters = entries_view c.filters.entries;
      limits = c.limits;
    }) };
}

impl Config {
    ghost use Rattle.ads.specs.Config.{IsSound, IsAtFault};
    ghost use Rattle.ads.specs.Views.{config_of, entries_view};
    /// A configuration with these parts. The errors are `NoFilter`, `TooManyFilters`, `BadName` (of a filter, the node
    /// or the cluster), `BadBudget`, `DoubledName`, and `Memory` if it is out of memory. If there are several faults,
    /// one of them is returned.
    pub fn new(
        alloc: Global,
        node: String,
        cluster: String,
        filters: Vec<Filter>,
        limits: Limits,
    ) -> Result<Config, ConfigFault>
        ensures found { IfOk result (λ c. c ≡ config_of node cluster filters.items limits) }
        ensures sound { IfOk result IsSound }
        ensures fault { IfErr result (λ e. (e ≡ Memory)
            ⊎ IsAtFault (config_of node cluster filters.items limits) e) }
    {
        check_count(filters.len())?;
        check_text(&node)?;
        check_text(&cluster)?;
        check_filters(&filters)?;
        check_names(&filters)?;
        let filters = ordered(alloc, filters)?;
        Ok(Config {
            node,
            cluster,
            filters,
            limits,
        })
    }

    /// A copy of the configuration. The only error is out of memory.
    pub fn copy(&self) -> Result<Config, AllocError>
        ensures { IfOk result (λ copy. copy ≡ self.now) }
    {
        Ok(Config {
            node: self.node.clone()?,
            cluster: self.cluster.clone()?,
            filters: self.filters.clone()?,
            limits: self.limits,
        })
    }

    /// The id of the node.
    pub fn node(&self) -> &str
        ensures { result.now ≡ self.now.node }
    {
        self.node.as_str()
    }

    /// The cluster of the node.
    pub fn cluster(&self) -> &str
        ensures { result.now ≡ self.now.cluster }
    {
        self.cluster.as_str()
    }

    /// The limits of the requests that the filters judge.
    pub fn limits(&self) -> &Limits
        ensures { result.now ≡ self.now.limits }
    {
        &self.limits
    }

    /// The filters' names and budgets, in configured order.
    pub fn filters(&self) -> &IndexMap<String, Budget>
        ensures { entries_view result.now.entries ≡ self.now.filters }
    {
        &self.filters
    }
}

// Refuses a configuration without a filter, or with more than 8.
fn check_count(count: usize) -> Result<(), ConfigFault>
    ensures found { OnOk result ((0 < count) × (count ≤ 8)) }
    ensures fault { IfErr result (λ e. ((count ≡ 0) × (e ≡ NoFilter)) ⊎ ((8 < count) × (e ≡ TooManyFilters))) }
{
    if count == 0 {
        return Err(ConfigFault::NoFilter);
    }
    if count > MOST_FILTERS {
        return Err(ConfigFault::TooManyFilters);
    }
    Ok(())
}

// Refuses a node or a cluster of more than 256 bytes.
fn check_text(text: &str) -> Result<(), ConfigFault>
    ensures found { OnOk result (length text.now ≤ 256) }
    ensures fault { IfErr result (λ e. (256 < length text.now) × (e ≡ BadName)) }
{
    if text.len() > LONGEST_NAME {
        return Err(ConfigFault::BadName);
    }
    Ok(())
}

// Refuses filters with a bad name or a bad budget.
fn check_filters(filters: &[Filter]) -> Result<(), ConfigFault>
    ensures found { OnOk result (AllByRecursion IsFilter (filters_view filters.now)) }
    ensures fault { IfErr result (λ e. SomeOf (λ f. FilterIsAtFault f e) (filters_view filters.now)) }
{
    for filter in filters {
        check_filter(filter)?;
    }
    Ok(())
}

// Refuses a filter with a bad name or a bad budget.
fn check_filter(filter: &Filter) -> Result<(), ConfigFault>
    ensures found { OnOk result (IsFilter (filter_view filter.now)) }
    ensures fault { IfErr result (FilterIsAtFault (filter_view filter.now)) }
{
    if filter.name.is_empty() || filter.name.len() > LONGEST_NAME {
        return Err(ConfigFault::BadName);
    }
    if !filter.budget.is_allowed() {
        return Err(ConfigFault::BadBudget);
    }
    Ok(())
}

// Refuses filters if two have the same name.
fn check_names(filters: &[Filter]) -> Result<(), ConfigFault>
    ensures found { OnOk result (Repeats (filters_view filters.now) → ⊥) }
    ensures fault { IfErr result (λ e. Repeats (filters_view filters.now) × (e ≡ DoubledName)) }
{
    let mut rest = filters;
    while let Some((first, behind)) = rest.split_first() {
        if has_name(behind, &first.name) {
            return Err(ConfigFault::DoubledName);
        }
        rest = behind;
    }
    Ok(())
}

// Whether a filter has the name.
fn has_name(filters: &[Filter], name: &str) -> bool
    ensures { MatchBool result
        (SomeOf (HasName name.now) (filters_view filters.now))
        (SomeOf (HasName name.now) (filters_view filters.now) → ⊥) }
{
    for filter in filters {
        if filter.name.as_str() == name {
            return true;
        }
    }
    false
}

// The filters as a map, in the same order. No two have the same name.
fn ordered(alloc: Global, filters: Vec<Filter>) -> Result<IndexMap<String, Budget>, AllocError>
    requires { Repeats (filters_view filters.items) → ⊥ }
    ensures { IfOk result (λ m. entries_view m.entries ≡ filters_view filters.items) }
{
    let mut map = IndexMap::new(alloc);
    for filter in filters {
        map.insert(filter.name, filter.budget)?;
    }
    Ok(map)
}
