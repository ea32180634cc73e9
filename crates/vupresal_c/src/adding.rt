//! Filters that are added to a set.

ghost use Rattle.std.specs.Arc.{arc_value};
ghost use Rattle.std.specs.Prelude.{◌≡◌, ◌≢◌, ◌++◌, ◌∷◌, [], IfErr, OnOk};
ghost use Rattle.vupresal_c.specs.Decisions.{Fails};
ghost use Rattle.vupresal_c.specs.Handles.{filter_in, filters_in};
ghost use Rattle.vupresal_c.specs.Sets.{IsAdded};
ghost use Rattle.vupresal_c.specs.Statuses.{done, memory, status_of};
ghost use Rattle.vupresal_c.specs.declared.fault.Fault.{Fault as FaultValue};

use crate::fault::{Fault, OK};
use crate::filter::Filter;
use crate::set::Set;
use c_slots::Chain;
use rbac_policy::Admitted;
use std::alloc::Global;
use std::sync::Arc;

/// Adds another owner of the filter to the set, as its last. The status is 0, 19, or -1 for an empty filter. If it is not
/// 0, both handles are as before. The filter is freed with its last owner.
#[unsafe(no_mangle)]
pub extern "C" fn vupresal_set_add(alloc: Global, set: &mut Set, filter: &mut Filter) -> i32
    ensures found { result ≡ done
        → IsAdded (filter_in filter.old) (filters_in set.old) (filters_in set.new) }
    ensures fault { result ≢ done
        → (e : FaultValue) × Fails (filter_in filter.old) (λ _ e. e ≡ memory) e × (result ≡ status_of e) }
    ensures kept { result ≢ done → filters_in set.new ≡ filters_in set.old }
    ensures same { filter_in filter.new ≡ filter_in filter.old }
{
    let Some(owner) = filter.take(alloc) else {
        return Fault::Empty.status();
    };
    let answer = add(alloc, set, &owner);
    filter.put(owner);
    match answer {
        Ok(()) => OK,
        Err(fault) => fault.status(),
    }
}

// Adds another owner of the same filter to the set.
fn add(alloc: Global, set: &mut Set, owner: &Arc<Admitted>) -> Result<(), Fault>
    ensures added { OnOk result (filters_in set.new
        ≡ filters_in set.old ++ (arc_value owner.now ∷ [])) }
    ensures fault { IfErr result (λ e. (e ≡ memory) × (filters_in set.new ≡ filters_in set.old)) }
{
    let another = Arc::try_clone(owner)?;
    let mut chain = match set.take(alloc) {
        Some(chain) => chain,
        None => Box::new(
            alloc,
            Chain {
                filters: Vec::new(alloc),
            },
        )?,
    };
    let pushed = chain.filters.push(another);
    set.put(chain);
    match pushed {
        Ok(()) => Ok(()),
        Err(error) => Err(Fault::from(error)),
    }
}
