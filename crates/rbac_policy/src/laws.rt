//! Laws of admission: statements on the definitions alone, for all bytes, limits and budgets.

ghost use Rattle.std.specs.Prelude.{◌≡◌, ◌⊎◌, ◌↔◌, ℕ, Bool, List, Option};
ghost use Rattle.attributes.specs.Limits.{LimitsValue};
ghost use Rattle.proto_wire.specs.declared.place.Step.{Step};
ghost use Rattle.proto_wire.specs.declared.refusal.Refusal.{Refusal};
ghost use Rattle.rbac_policy.specs.Admission.{Admissible, Admits, Fault};
ghost use Rattle.attributes.specs.Request.{RequestValue};
ghost use Rattle.cel_tree.specs.Checked.{CelChecked};
ghost use Rattle.cel_tree.specs.Message.{ExprParts, IsExprOf};
ghost use Rattle.cel_value.specs.Types.{bool_type};
ghost use Rattle.machine_code.specs.Typable.{Forward};
ghost use Rattle.cost_bound.specs.declared.budget.Budget.{Budget};
ghost use Rattle.rbac_policy.specs.Condition.{IsProgramOf, Program};
ghost use Rattle.rbac_policy.specs.Costs.{FilterCosts};
ghost use Rattle.rbac_policy.specs.Enforced.{Enforces, total_needs};
ghost use Rattle.rbac_policy.specs.Filter.{Filter};
ghost use Rattle.rbac_policy.specs.Places.{FaultAt, of_filter};
ghost use Rattle.rbac_policy.specs.Verdict.{IsVerdict};

/// No bytes are both admissible and at fault.
pub fn admission_disjoint()
    ensures { (e : Refusal) (bytes : List ℕ) (limits : LimitsValue) (budget : Budget)
        → Admissible bytes limits budget → Fault e bytes limits budget → ⊥ }
{}

/// All bytes are admissible or have a fault.
pub fn admission_total()
    ensures { (bytes : List ℕ) (limits : LimitsValue) (budget : Budget)
        → Admissible bytes limits budget ⊎ ((e : Refusal) × Fault e bytes limits budget) }
{}

/// The code of each condition that can be read passes the verifier, which makes one pass.
pub fn nothing_is_unverified()
    ensures { (parts : ExprParts) (condition : CelChecked) (limits : LimitsValue) (program : Program)
        → IsExprOf parts condition → IsProgramOf limits condition program → Forward program.code bool_type }
{}

/// Bytes are admitted as at most one filter, and at most one filter is enforced for them.
pub fn filter_unique()
    ensures { (bytes : List ℕ) (limits : LimitsValue) (budget : Budget) (f f' : Filter CelChecked)
        (g g' : Filter Program)
        → Admits bytes limits budget f g → Admits bytes limits budget f' g' → (f ≡ f') × (g ≡ g') }
{}

/// A filter's conditions together take these steps and visits exactly if the enforced filter may take these steps,
/// and these visits were taken for it.
pub fn bound_is_cost()
    ensures { (limits : LimitsValue) (filter : Filter CelChecked) (enforced : Filter Program) (needs : Budget)
        → Enforces limits filter enforced
        → FilterCosts limits filter needs ↔ (needs ≡ total_needs enforced) }
{}

/// A filter gives a request at most one verdict, by which of its conditions the request meets. This holds for
/// a filter as it is written, and as it is enforced.
pub fn verdict_unique()
    ensures written { (is_met : CelChecked → Bool) (r : RequestValue) (filter : Filter CelChecked)
        (a b : Bool) (m n : Option ℕ)
        → IsVerdict is_met r filter a m → IsVerdict is_met r filter b n → (a ≡ b) × (m ≡ n) }
    ensures enforced { (is_met : Program → Bool) (r : RequestValue) (filter : Filter Program)
        (a b : Bool) (m n : Option ℕ)
        → IsVerdict is_met r filter a m → IsVerdict is_met r filter b n → (a ≡ b) × (m ≡ n) }
{}

/// Bytes that have a fault at a place have the fault, whatever the limits and the budget are.
pub fn fault_at_a_place_is_a_fault()
    ensures { (bytes : List ℕ) (limits : LimitsValue) (budget : Budget) (steps : List Step) (e : Refusal)
        → FaultAt steps (of_filter bytes) e → Fault e bytes limits budget }
{}
