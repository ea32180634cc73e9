//! A policy file.

use cost_bound::Budget;

/// The bytes of a policy file, and the budget of its conditions.
#[derive(Clone, Copy)]
pub struct PolicyFile<'a> {
    pub bytes: &'a [u8],
    pub budget: Budget,
}
