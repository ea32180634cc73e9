//! Admission of filters.

ghost use Rattle.std.specs.Arc.{arc_value};
ghost use Rattle.std.specs.Prelude.{◌≡◌, ◌≢◌, [], IfOk, IfErr, IsSomeAnd};
ghost use Rattle.vupresal_c.specs.Admission.{AdmitFails, IsAdmission, budget_given, fault_in};
ghost use Rattle.vupresal_c.specs.Copies.{HoldsSomeText, HoldsText};
ghost use Rattle.vupresal_c.specs.Handles.{filter_in};
ghost use Rattle.vupresal_c.specs.Statuses.{done, status_of};
ghost use Rattle.vupresal_c.specs.declared.fault.Fault.{Fault as FaultValue};

use crate::copying::copy_text;
use crate::fault::{Fault, OK};
use crate::filter::Filter;
use c_inputs::{Bounds, limits_of};
use cost_bound::Budget;
use proto_wire::Fault as Placed;
use rbac_policy::{Admitted, admit_at, place_of_fault};
use std::alloc::{AllocFailed, Global};
use std::sync::Arc;

/// Admits the message of an HTTP RBAC filter (`envoy.extensions.filters.http.rbac.v3.RBAC`) and puts the filter into the
/// handle, instead of what it held. The budget is 1 to 100,000,000 steps, and the visits of the bounds. The status is 0,
/// the number of the refusal, or -2 for limits or a budget out of range. If it is not 0, the handle is as before. The place
/// of a refusal goes into the room as UTF-8 with a zero at its end. It is empty if no part can be named, and after an
/// admission.
#[unsafe(no_mangle)]
pub extern "C" fn vupresal_filter_admit(
    alloc: Global,
    filter: &mut Filter,
    message: &[u8],
    bounds: &Bounds,
    budget: u64,
    place: &mut [u8],
) -> i32
    ensures found { result ≡ done
        → IsSomeAnd (filter_in filter.new) (IsAdmission message.now bounds.now budget) }
    ensures fault { result ≢ done
        → (e : FaultValue) × AdmitFails message.now bounds.now budget e × (result ≡ status_of e) }
    ensures kept { result ≢ done → filter_in filter.new ≡ filter_in filter.old }
    ensures place { HoldsSomeText place.old place.new }
    ensures no_place { result ≡ done → HoldsText [] place.old place.new }
{
    match admitted(alloc, message, bounds, budget) {
        Ok(owner) => {
            drop(filter.take(alloc));
            filter.put(owner);
            copy_text("", place);
            OK
        }
        Err(fault) => {
            tell_place(fault.place(alloc, message), place);
            fault.fault().status()
        }
    }
}

// Copies the words for a place, or an empty text if there are none.
fn tell_place(named: Option<String>, room: &mut [u8])
    ensures { HoldsSomeText room.old room.new }
{
    match named {
        Some(named) => copy_text(&named, room),
        None => copy_text("", room),
    }
}

// Why a message is not admitted.
#[derive(Clone, Copy, Debug)]
enum NotAdmitted {
    // The limits or the budget are out of range.
    OutOfRange,
    // A part of the message has this fault, or memory ran out.
    Refused(Placed),
}

impl NotAdmitted {
    // The fault.
    fn fault(self) -> Fault
        ensures { result ≡ fault_in self }
    {
        match self {
            NotAdmitted::OutOfRange => Fault::OutOfRange,
            NotAdmitted::Refused(placed) => Fault::Refused(placed.refusal),
        }
    }

    // The words for the part of the message that has the fault, if it can be named.
    fn place(self, alloc: Global, message: &[u8]) -> Option<String> {
        match self {
            NotAdmitted::OutOfRange => None,
            NotAdmitted::Refused(placed) => place_of_fault(alloc, message, &placed),
        }
    }
}

impl From<Placed> for NotAdmitted {
    ghost use Rattle.vupresal_c.specs.declared.admission.NotAdmitted.TheVariants.{Refused};

    ghost from_gives = { λ placed e. e ≡ Refused placed };

    fn from(placed: Placed) -> NotAdmitted {
        NotAdmitted::Refused(placed)
    }
}

impl<T: Drop> From<AllocFailed<T>> for NotAdmitted {
    ghost use Rattle.vupresal_c.specs.Admission.{fault_in};
    ghost use Rattle.vupresal_c.specs.Statuses.{memory};

    ghost from_gives = { λ _ e. fault_in e ≡ memory };

    fn from(error: AllocFailed<T>) -> NotAdmitted {
        NotAdmitted::Refused(Placed::from(error))
    }
}

/// The budget of so many steps, and of the visits of the bounds.
pub(crate) fn budget_of(bounds: &Bounds, steps: u64) -> Budget
    ensures { result ≡ budget_given bounds.now steps }
{
    if bounds.visits == 0 {
        return Budget::of_steps(steps);
    }
    Budget {
        steps,
        visits: bounds.visits,
    }
}

// The first owner of the filter of a message, in a box.
fn admitted(
    alloc: Global,
    message: &[u8],
    bounds: &Bounds,
    budget: u64,
) -> Result<Box<Arc<Admitted>>, NotAdmitted>
    ensures found { IfOk result (λ owner.
        IsAdmission message.now bounds.now budget (arc_value owner.value)) }
    ensures fault { IfErr result (λ e. AdmitFails message.now bounds.now budget (fault_in e)) }
{
    let Some(limits) = limits_of(bounds) else {
        return Err(NotAdmitted::OutOfRange);
    };
    let mut left = budget_of(bounds, budget);
    if !left.is_allowed() {
        return Err(NotAdmitted::OutOfRange);
    }
    let admitted = admit_at(alloc, message, &limits, &mut left)?;
    let owner = Arc::new(alloc, admitted)?;
    Ok(Box::new(alloc, owner)?)
}
