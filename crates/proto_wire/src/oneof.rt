//! Which member of a oneof counts.

ghost use Rattle.std.specs.Prelude.{◌≡◌, map, IfOk, OnOk};
ghost use Rattle.std.specs.Option.{option_map};
ghost use Rattle.proto_wire.specs.Fields.{field_view};
ghost use Rattle.proto_wire.specs.Oneof.{last_member, last_number, member_run};
ghost use Rattle.proto_wire.specs.private.Run.{run_with};

use crate::field::Field;
use crate::key::{Key, is_known};
use smallvec::SmallVec;
use std::alloc::{AllocError, Global};

/// The occurrences of a member; nearly always one.
pub type MemberRun<'a> = SmallVec<Field<'a>, 1>;

/// The last member of a oneof of scalars: the last field that has a member's key. It takes no
/// memory.
pub fn last_member<'a>(fields: &[Field<'a>], keys: &[Key]) -> Option<Field<'a>>
    ensures { option_map field_view result ≡ last_member keys.now (map field_view fields.now) }
{
    let mut last = None;
    for candidate in fields {
        if is_known(candidate, keys) {
            last = Some(*candidate);
        }
    }
    last
}

/// The number of a oneof's last member. It takes no memory.
pub fn last_number(fields: &[Field<'_>], keys: &[Key]) -> Option<u32>
    ensures { result ≡ last_number keys.now (map field_view fields.now) }
{
    last_member(fields, keys).map(|field| field.number)
}

/// The occurrences of a oneof's last member, which merge: the last run of fields of one number,
/// among those that have a member's key.
pub fn member_run<'a>(
    alloc: Global,
    fields: &[Field<'a>],
    keys: &[Key],
) -> Result<MemberRun<'a>, AllocError>
    ensures { IfOk result (λ v. map field_view v.items
        ≡ member_run keys.now (map field_view fields.now)) }
{
    let mut run = MemberRun::new(alloc);
    for field in fields {
        if is_known(field, keys) {
            push_member(&mut run, *field, fields.len())?;
        }
    }
    Ok(run)
}

// Adds a member's field to the run if it has the run's number; otherwise begins a new run with it. Before it
// adds a second field to a run, it makes room for `room` more.
fn push_member<'a>(run: &mut MemberRun<'a>, field: Field<'a>, room: usize) -> Result<(), AllocError>
    ensures { OnOk result (map field_view run.new.items
        ≡ run_with (map field_view run.old.items) (field_view field.entry)) }
{
    if run
        .first()
        .is_some_and(|first| first.number != field.number)
    {
        run.clear();
    }
    if run.len() == 1 {
        run.reserve_exact(room)?;
    }
    run.push(field)?;
    Ok(())
}
