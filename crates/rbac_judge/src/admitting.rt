//! The admission of a policy file.
ghost use Rattle.std.specs.Prelude.{◌≡◌, IfErr, IfOk};
ghost use Rattle.attributes.specs.Limits.{largest};
ghost use Rattle.cel_tree.specs.Checked.{CelChecked};
ghost use Rattle.proto_wire.specs.Refusal.{MemoryOr};
ghost use Rattle.rbac_policy.specs.Admission.{Admits, Fault};
ghost use Rattle.rbac_policy.specs.Admitted.{filter_view, limits_view};
ghost use Rattle.rbac_policy.specs.Filter.{Filter};

use crate::notes::Notes;
use crate::policy_file::PolicyFile;
use attributes::Limits;
use proto_wire::Refusal;
use rbac_policy::{Admitted, admit_at};
use std::alloc::Global;

/// The filter of a policy file, for requests within the greatest limits; or its refusal, whose part is noted.
pub fn admit_file(
    alloc: Global,
    policy: PolicyFile<'_>,
    notes: &mut Notes,
) -> Result<Admitted, Refusal>
    ensures found { IfOk result (λ a. (filter : Filter CelChecked)
        × Admits policy.entry.bytes.now largest policy.entry.budget filter (filter_view a)) }
    ensures limits { IfOk result (λ a. limits_view a ≡ largest) }
    ensures fault { IfErr result (MemoryOr (λ e. Fault e policy.entry.bytes.now largest policy.entry.budget)) }
{
    let mut left = policy.budget;
    match admit_at(alloc, policy.bytes, &Limits::largest(), &mut left) {
        Ok(admitted) => Ok(admitted),
        Err(fault) => {
            notes.look_at_policy(alloc, policy, &fault, left);
            Err(fault.refusal)
        }
    }
}
