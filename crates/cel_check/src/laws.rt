//! Laws of the places of faults: statements on the definitions alone, for all expressions.

ghost use Rattle.cel_tree.specs.Checked.{CelChecked};
ghost use Rattle.cel_types.specs.TypingFaults.{CheckFault};
ghost use Rattle.proto_wire.specs.Places.{Path};
ghost use Rattle.proto_wire.specs.declared.refusal.Refusal.{Refusal};
ghost use Rattle.cel_check.specs.Places.{CheckFaultAt};

/// An expression that has a fault at a place has the fault.
pub fn fault_at_a_place_is_a_fault()
    ensures { (c : CelChecked) (path : Path) (e : Refusal) → CheckFaultAt c path e → CheckFault c e }
{}
