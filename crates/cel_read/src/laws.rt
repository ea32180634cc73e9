//! Laws of the definitions. Payloads are the message of at most one expression, or have a fault, and never both.
//! The constants of its tree have the types of their kinds, and its ids are int64. What has a fault at a place has the
//! fault.

ghost use Rattle.std.specs.Prelude.{◌≡◌, ◌⊎◌, ℕ, List};
ghost use Rattle.proto_wire.specs.Places.{Path};
ghost use Rattle.proto_wire.specs.declared.refusal.Refusal.{Refusal};
ghost use Rattle.cel_tree.specs.Checked.{CelChecked};
ghost use Rattle.cel_tree.specs.GoodConstants.{HasGoodConstants};
ghost use Rattle.cel_tree.specs.Ids.{IdsAreInt64};
ghost use Rattle.cel_tree.specs.Message.{IsChecked, CheckedFault, ExprFault, ExprParts, IsExprOf};
ghost use Rattle.cel_read.specs.Places.{CheckedFaultAt, ExprFaultAt};

/// Payloads are the message of a checked expression, or have a fault.
pub fn checked_total()
    ensures { (parts : List (List ℕ)) → ((c : CelChecked) × IsChecked parts c) ⊎ ((e : Refusal) × CheckedFault parts e) }
{}

/// No payloads are both the message of a checked expression and at fault.
pub fn checked_disjoint()
    ensures { (parts : List (List ℕ)) (c : CelChecked) (e : Refusal) → IsChecked parts c → CheckedFault parts e → ⊥ }
{}

/// Payloads are the message of at most one checked expression.
pub fn checked_unique()
    ensures { (parts : List (List ℕ)) (c d : CelChecked) → IsChecked parts c → IsChecked parts d → c ≡ d }
{}

/// Payloads, checked or not, are the message of an expression, or have a fault.
pub fn expr_total()
    ensures { (parts : ExprParts) → ((c : CelChecked) × IsExprOf parts c) ⊎ ((e : Refusal) × ExprFault parts e) }
{}

/// None of these payloads are both the message of an expression and at fault.
pub fn expr_disjoint()
    ensures { (parts : ExprParts) (c : CelChecked) (e : Refusal) → IsExprOf parts c → ExprFault parts e → ⊥ }
{}

/// These payloads are the message of at most one expression.
pub fn expr_unique()
    ensures { (parts : ExprParts) (c d : CelChecked) → IsExprOf parts c → IsExprOf parts d → c ≡ d }
{}

/// Each constant of an expression that was read has the type of its kind.
pub fn constants_have_types()
    ensures { (parts : ExprParts) (c : CelChecked) → IsExprOf parts c → HasGoodConstants c.tree }
{}

/// The id of each node, and each id of the maps, is from -2^63 to 2^63 - 1.
pub fn ids_are_int64()
    ensures { (parts : List (List ℕ)) (c : CelChecked) → IsChecked parts c → IdsAreInt64 c }
{}

/// Payloads that have a fault at a place have the fault.
pub fn fault_at_a_place_is_a_fault()
    ensures checked { (parts : List (List ℕ)) (path : Path) (e : Refusal) → CheckedFaultAt parts path e
        → CheckedFault parts e }
    ensures expr { (parts : ExprParts) (path : Path) (e : Refusal) → ExprFaultAt parts path e
        → ExprFault parts e }
{}
