//! The numbers of the fields of a filter's messages (Envoy v3,
//! `extensions/filters/http/rbac/v3/rbac.proto` and `config/rbac/v3/rbac.proto`).

/// `rules` of the HTTP filter.
pub(crate) const RULES: u32 = 1;

/// `shadow_rules` of the HTTP filter.
pub(crate) const SHADOW_RULES: u32 = 2;

/// `shadow_rules_stat_prefix` of the HTTP filter.
pub(crate) const SHADOW_RULES_STAT_PREFIX: u32 = 3;

/// `action` of the rules.
pub(crate) const ACTION: u32 = 1;

/// `policies` of the rules.
pub(crate) const POLICIES: u32 = 2;

/// `audit_logging_options` of the rules.
pub(crate) const AUDIT_LOGGING_OPTIONS: u32 = 3;

/// `permissions` of a policy.
pub(crate) const PERMISSIONS: u32 = 1;

/// `principals` of a policy.
pub(crate) const PRINCIPALS: u32 = 2;

/// `condition` of a policy.
pub(crate) const CONDITION: u32 = 3;

/// `checked_condition` of a policy.
pub(crate) const CHECKED_CONDITION: u32 = 4;

/// `reference_map` of a checked expression (`google/api/expr/v1alpha1/checked.proto`).
pub(crate) const REFERENCE_MAP: u32 = 2;

/// `type_map` of a checked expression.
pub(crate) const TYPE_MAP: u32 = 3;

/// `expr` of a checked expression.
pub(crate) const EXPR: u32 = 4;
