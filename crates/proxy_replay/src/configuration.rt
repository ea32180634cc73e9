//! The configuration of a proxy, as a JSON object.
ghost use Rattle.std.specs.Prelude.{◌≡◌, ◌≢◌, ℕ, List, Some, IfOk, IfErr, OnErr, codes};
ghost use Rattle.std.specs.List.{AllZip};
ghost use Rattle.ads.specs.Config.{ConfigValue, FilterValue, IsSound};
ghost use Rattle.ads.specs.Views.{config_of, filter_view, filters_view};
ghost use Rattle.attributes.specs.Limits.{AreLimits, LimitsValue, declared, largest, limit_of};
ghost use Rattle.serde_json.specs.Data.{Items, array};
ghost use Rattle.serde_json.specs.Find.{get};
ghost use Rattle.serde_json.specs.View.{items_view, view};
ghost use Rattle.proxy_replay.specs.Configuration.{AreDeclared, DeclaresLimits, IsConfig, IsConfigText, IsFilterObject};
ghost use Rattle.program_texts.specs.Members.{IsNumberOr, values};
ghost use Rattle.proxy_replay.specs.declared.configuration.ConfigTextFault.TheVariants.{Bad, Memory};

use ads::{Config, ConfigFault, Filter};
use attributes::{Limit, Limits};
use cost_bound::{Budget, USUAL_STEPS, USUAL_VISITS};
use program_texts::{InvalidValue, items_at, number_or, require_names, str_at};
use serde_json::Value;
use std::alloc::{AllocError, AllocFailed, Global};
use std::error::Error;
use std::fmt;

/// The names of the members that a configuration may have.
pub(crate) const CONFIG_NAMES: [&str; 4] = ["node", "cluster", "filters", "limits"];

/// The names of the members that a filter may have.
pub(crate) const FILTER_NAMES: [&str; 3] = ["name", "budget", "visits"];

/// The names of the members that limits may have.
pub(crate) const LIMIT_NAMES: [&str; 6] = ["fields", "name", "value", "method", "target", "text"];

/// Why a configuration cannot be read.
#[derive(Clone, Copy, Debug)]
pub enum ConfigTextFault {
    /// The text is no JSON object of a configuration.
    Bad,
    /// Memory ran out.
    Memory,
}

impl fmt::Display for ConfigTextFault {
    ghost use Rattle.proxy_replay.specs.Configuration.{fault_text};
    ghost use Rattle.std.specs.Prelude.{Some};

    ghost output = { λ fault. Some (fault_text fault) };

    fn fmt<W: fmt::Write>(&self, f: &mut fmt::Formatter<W>) -> fmt::Result {
        f.write_str(match self {
            ConfigTextFault::Bad => "bad config",
            ConfigTextFault::Memory => "memory",
        })
    }
}

impl Error for ConfigTextFault {}

impl From<AllocError> for ConfigTextFault {
    ghost use Rattle.std.specs.Prelude.{◌≡◌};
    ghost use Rattle.proxy_replay.specs.declared.configuration.ConfigTextFault.TheVariants.{Memory};

    ghost from_gives = { λ _ e. e ≡ Memory };

    fn from(_refused: AllocError) -> ConfigTextFault {
        ConfigTextFault::Memory
    }
}

impl<T: Drop> From<AllocFailed<T>> for ConfigTextFault {
    ghost use Rattle.std.specs.Prelude.{◌≡◌};
    ghost use Rattle.proxy_replay.specs.declared.configuration.ConfigTextFault.TheVariants.{Memory};

    ghost from_gives = { λ _ e. e ≡ Memory };

    fn from(_refused: AllocFailed<T>) -> ConfigTextFault {
        ConfigTextFault::Memory
    }
}

impl From<InvalidValue> for ConfigTextFault {
    ghost use Rattle.std.specs.Prelude.{◌≡◌};
    ghost use Rattle.proxy_replay.specs.declared.configuration.ConfigTextFault.TheVariants.{Bad};

    ghost from_gives = { λ _ e. e ≡ Bad };

    fn from(_misfit: InvalidValue) -> ConfigTextFault {
        ConfigTextFault::Bad
    }
}

impl From<serde_json::Error> for ConfigTextFault {
    ghost use Rattle.std.specs.Prelude.{◌≡◌, ◌⊎◌};
    ghost use Rattle.serde_json.specs.Errors.{IsMemory};
    ghost use Rattle.proxy_replay.specs.declared.configuration.ConfigTextFault.TheVariants.{Bad, Memory};

    ghost from_gives = { λ error e. ((e ≡ Memory) × IsMemory error) ⊎ ((e ≡ Bad) × ¬ IsMemory error) };

    fn from(error: serde_json::Error) -> ConfigTextFault {
        if error.is_memory() {
            ConfigTextFault::Memory
        } else {
            ConfigTextFault::Bad
        }
    }
}

/// The configuration of a JSON text (RFC 8259): an object with `node` and `cluster`, both strings of at most 256 bytes,
/// and `filters`. These are an array of 1 to 8 objects, each with a `name` of 1 to 256 bytes, all different. A filter
/// may have a `budget` of 1 to 100,000,000 steps, and `visits` of 1 to 2^63 - 1. The configuration may have `limits`, an
/// object with any of `fields`, `name`, `value`, `method`, `target` and `text`. None of them may be 0 or above the
/// greatest. Of two members with the same name the last counts. `Bad` if the text is no configuration, `Memory` if memory ran out.
pub fn read_config(alloc: Global, text: &[u8]) -> Result<Config, ConfigTextFault>
    ensures found { IfOk result (IsConfigText text.now) }
    ensures fault { IfErr result (λ e. e ≡ Bad → (c : ConfigValue) → ¬ IsConfigText text.now c) }
{
    let value = Value::from_slice(alloc, text)?;
    config_at(alloc, &value)
}

/// The configuration of a JSON value, as in `read_config`.
pub fn config_at(alloc: Global, value: &Value) -> Result<Config, ConfigTextFault>
    ensures found { IfOk result (IsConfig (view value.now)) }
    ensures fault { IfErr result (λ e. e ≡ Bad → (c : ConfigValue) → ¬ IsConfig (view value.now) c) }
{
    require_names(value, &CONFIG_NAMES)?;
    let node = str_at(value, "node")?;
    let cluster = str_at(value, "cluster")?;
    let items = items_at(value, "filters")?;
    let filters = filters_of(alloc, items)?;
    let limits = limits_at(value)?;
    let node = String::from_str(alloc, node)?;
    let cluster = String::from_str(alloc, cluster)?;
    sound_config(alloc, node, cluster, filters, limits)
}

// The configuration with these parts, if they are allowed.
fn sound_config(
    alloc: Global,
    node: String,
    cluster: String,
    filters: Vec<Filter>,
    limits: Limits,
) -> Result<Config, ConfigTextFault>
    ensures found { IfOk result (λ c. c ≡ config_of node cluster filters.items limits) }
    ensures sound { IfOk result IsSound }
    ensures fault { IfErr result (λ e. e ≡ Bad → ¬ IsSound (config_of node cluster filters.items limits)) }
{
    match Config::new(alloc, node, cluster, filters, limits) {
        Ok(config) => Ok(config),
        Err(fault) => Err(text_fault(fault)),
    }
}

// The fault of the text for a fault of a configuration's parts.
fn text_fault(fault: ConfigFault) -> ConfigTextFault
    ensures { result ≡ Bad → fault ≢ ConfigFault.Memory }
{
    match fault {
        ConfigFault::Memory => ConfigTextFault::Memory,
        ConfigFault::NoFilter
        | ConfigFault::TooManyFilters
        | ConfigFault::DoubledName
        | ConfigFault::BadName
        | ConfigFault::BadBudget => ConfigTextFault::Bad,
    }
}

// The filters of these JSON values.
fn filters_of(alloc: Global, items: &[Value]) -> Result<Vec<Filter>, ConfigTextFault>
    ensures found { IfOk result (λ v. AllZip IsFilterObject (values (items_view items.now)) (filters_view v.items)) }
    ensures fault { IfErr result (λ e. e ≡ Bad
        → (fs : List FilterValue) → ¬ AllZip IsFilterObject (values (items_view items.now)) fs) }
{
    let mut filters = Vec::new(alloc);
    for item in items {
        let filter = filter_of(alloc, item)?;
        filters.push(filter)?;
    }
    Ok(filters)
}

// The filter of a JSON value.
fn filter_of(alloc: Global, value: &Value) -> Result<Filter, ConfigTextFault>
    ensures found { IfOk result (λ f. IsFilterObject (view value.now) (filter_view f)) }
    ensures fault { IfErr result (λ e. e ≡ Bad → (f : FilterValue) → ¬ IsFilterObject (view value.now) f) }
{
    require_names(value, &FILTER_NAMES)?;
    let name = str_at(value, "name")?;
    let steps = number_or(value, "budget", USUAL_STEPS)?;
    let visits = number_or(value, "visits", USUAL_VISITS)?;
    let name = String::from_str(alloc, name)?;
    let budget = Budget { steps, visits };
    Ok(Filter { name, budget })
}

// The limits that a configuration declares; the greatest if it declares none.
fn limits_at(value: &Value) -> Result<Limits, InvalidValue>
    ensures found { IfOk result (AreDeclared (get (codes "limits") (view value.now))) }
    ensures fault { OnErr result ((l : LimitsValue) → ¬ AreDeclared (get (codes "limits") (view value.now)) l) }
{
    match value.get("limits") {
        Some(object) => declared_limits(object),
        None => Ok(Limits::largest()),
    }
}

// The limits that a JSON object declares.
fn declared_limits(object: &Value) -> Result<Limits, InvalidValue>
    ensures found { IfOk result (DeclaresLimits (view object.now)) }
    ensures fault { OnErr result ((l : LimitsValue) → ¬ DeclaresLimits (view object.now) l) }
{
    require_names(object, &LIMIT_NAMES)?;
    let fields = limit_at(object, "fields", Limit::Fields)?;
    let name = limit_at(object, "name", Limit::Name)?;
    let value = limit_at(object, "value", Limit::Value)?;
    let method = limit_at(object, "method", Limit::Method)?;
    let target = limit_at(object, "target", Limit::Target)?;
    let text = limit_at(object, "text", Limit::Text)?;
    sound_limits(fields, name, value, method, target, text)
}

/// The limit of this name; the greatest of its kind if there is none.
pub(crate) fn limit_at(object: &Value, name: &str, limit: Limit) -> Result<usize, InvalidValue>
    ensures found { IfOk result (IsNumberOr (limit_of limit largest) (get name.now (view object.now))) }
    ensures fault { OnErr result ((n : ℕ)
        → ¬ IsNumberOr (limit_of limit largest) (get name.now (view object.now)) n) }
{
    let greatest = Limits::largest().get(limit);
    Ok(number_or(object, name, greatest as u64)? as usize)
}

// Limits as declared, if none of them is 0 or above the greatest.
fn sound_limits(
    fields: usize,
    name: usize,
    value: usize,
    method: usize,
    target: usize,
    text: usize,
) -> Result<Limits, InvalidValue>
    ensures found { IfOk result (λ l. (l ≡ declared fields name value method target text) × AreLimits l) }
    ensures fault { OnErr result (¬ AreLimits (declared fields name value method target text)) }
{
    match Limits::new(fields, name, value, method, target, text) {
        Ok(limits) => Ok(limits),
        Err(_) => Err(InvalidValue),
    }
}
