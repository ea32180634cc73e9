//! Further owners of a filter.

ghost use Rattle.std.specs.Arc.{arc_value};
ghost use Rattle.std.specs.Prelude.{◌≡◌, ◌≢◌, None, IfOk, IfErr};
ghost use Rattle.vupresal_c.specs.Decisions.{Fails};
ghost use Rattle.vupresal_c.specs.Handles.{filter_in};
ghost use Rattle.vupresal_c.specs.Statuses.{done, memory, status_of};
ghost use Rattle.vupresal_c.specs.declared.fault.Fault.{Fault as FaultValue};

use crate::fault::{Fault, OK};
use crate::filter::Filter;
use rbac_policy::Admitted;
use std::alloc::Global;
use std::sync::Arc;

/// Puts another owner of the first handle's filter into the second handle, instead of what that held. The status is 0, 19, or
/// -1 for an empty first handle. If it is not 0, both handles are as before. The filter is freed with its last owner.
#[unsafe(no_mangle)]
pub extern "C" fn vupresal_filter_share_distinct(
    alloc: Global,
    from: &mut Filter,
    to: &mut Filter,
) -> i32
    ensures found { result ≡ done
        → (filter_in from.old ≢ None) × (filter_in to.new ≡ filter_in from.old) }
    ensures fault { result ≢ done
        → (e : FaultValue) × Fails (filter_in from.old) (λ _ e. e ≡ memory) e × (result ≡ status_of e) }
    ensures same { filter_in from.new ≡ filter_in from.old }
    ensures kept { result ≢ done → filter_in to.new ≡ filter_in to.old }
{
    let Some(owner) = from.take(alloc) else {
        return Fault::Empty.status();
    };
    let another = another_owner(alloc, &owner);
    from.put(owner);
    match another {
        Ok(another) => {
            drop(to.take(alloc));
            to.put(another);
            OK
        }
        Err(fault) => fault.status(),
    }
}

// Another owner of the same filter, in a box.
fn another_owner(alloc: Global, owner: &Arc<Admitted>) -> Result<Box<Arc<Admitted>>, Fault>
    ensures found { IfOk result (λ another. arc_value another.value ≡ arc_value owner.now) }
    ensures fault { IfErr result (λ e. e ≡ memory) }
{
    let another = Arc::try_clone(owner)?;
    Ok(Box::new(alloc, another)?)
}
