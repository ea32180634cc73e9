//! The two kinds of rules.

/// The kind of a rule; the two kinds use the same numbers for different members.
#[derive(Clone, Copy, PartialEq, Eq, Debug)]
pub enum Side {
    /// What a request wants to do (`envoy.config.rbac.v3.Permission`).
    Permission,
    /// Who wants to do it (`envoy.config.rbac.v3.Principal`).
    Principal,
}
