//! The sizes of a loop's variables.

ghost use Rattle.std.specs.Prelude.{◌≡◌, IfOk};
ghost use Rattle.cel_costs.specs.Costs.{variable_sizes};
ghost use Rattle.cost_bound.specs.private.SizeView.{size_view, variables_view};

use crate::size::ValueSize;
use cel_types::Variables;
use std::alloc::AllocError;

/// The sizes of a loop's variables: of the innermost one, and of the index or key if there are two.
#[derive(Drop)]
pub(crate) struct VariableSizes {
    pub(crate) value: ValueSize,
    pub(crate) key: Option<ValueSize>,
}

impl VariableSizes {
    /// The sizes by the size of the range.
    pub(crate) fn of_range(
        variables: Variables,
        range: &ValueSize,
    ) -> Result<VariableSizes, AllocError>
        ensures { IfOk result (λ sizes. variables_view sizes ≡ variable_sizes variables (size_view range.now)) }
    {
        match variables {
            Variables::One => Ok(VariableSizes {
                value: range.element()?,
                key: None,
            }),
            Variables::Two => {
                let key = range.key()?;
                Ok(VariableSizes {
                    value: range.value()?,
                    key: Some(key),
                })
            }
        }
    }
}
