//! What a filter says of itself.

ghost use Rattle.std.specs.Prelude.{◌≡◌, length};
ghost use Rattle.vupresal_c.specs.Copies.{filled};
ghost use Rattle.vupresal_c.specs.Handles.{filter_in};
ghost use Rattle.vupresal_c.specs.Queries.{bound_in, name_in, policies_in};

use crate::copying::copy;
use crate::filter::Filter;
use rbac_policy::Admitted;
use std::alloc::Global;

/// The number of the filter's policies; 0 if the handle is empty.
#[unsafe(no_mangle)]
pub extern "C" fn vupresal_filter_policies(alloc: Global, filter: &mut Filter) -> usize
    ensures count { result ≡ policies_in (filter_in filter.old) }
    ensures kept { filter_in filter.new ≡ filter_in filter.old }
{
    let Some(owner) = filter.take(alloc) else {
        return 0;
    };
    let count = owner.policies();
    filter.put(owner);
    count
}

/// How many steps the filter's conditions together may take; 0 if the handle is empty.
#[unsafe(no_mangle)]
pub extern "C" fn vupresal_filter_bound(alloc: Global, filter: &mut Filter) -> u64
    ensures bound { result ≡ bound_in (filter_in filter.old) }
    ensures kept { filter_in filter.new ≡ filter_in filter.old }
{
    let Some(owner) = filter.take(alloc) else {
        return 0;
    };
    let bound = owner.bound();
    filter.put(owner);
    bound
}

/// Copies as much of the name of the policy of this number as the room takes, counted from 0 in ascending order of
/// names. Returns the name's whole length in bytes; 0 if there is no such policy.
#[unsafe(no_mangle)]
pub extern "C" fn vupresal_filter_policy_name(
    alloc: Global,
    filter: &mut Filter,
    number: u64,
    room: &mut [u8],
) -> usize
    ensures count { result ≡ length (name_in (filter_in filter.old) number) }
    ensures filled { room.new ≡ filled (name_in (filter_in filter.old) number) room.old }
    ensures kept { filter_in filter.new ≡ filter_in filter.old }
{
    let Some(owner) = filter.take(alloc) else {
        return copy(b"", room);
    };
    let length = copy_name(&owner, number as usize, room);
    filter.put(owner);
    length
}

fn copy_name(admitted: &Admitted, number: usize, room: &mut [u8]) -> usize
    ensures count { result ≡ length (name_in (Some admitted.now) number) }
    ensures filled { room.new ≡ filled (name_in (Some admitted.now) number) room.old }
{
    match admitted.policy_name(number) {
        Some(name) => copy(name.as_bytes(), room),
        None => copy(b"", room),
    }
}
