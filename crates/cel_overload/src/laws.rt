//! Laws of the table: a call has at most one overload, or one fault, and answers of the result's
//! type.

ghost use Rattle.std.specs.Prelude.{◌≡◌, ◌⊎◌, ℕ, Bool, List};
ghost use Rattle.cel_value.specs.Types.{ValueType};
ghost use Rattle.cel_value.specs.Values.{CelAnswer};
ghost use Rattle.cel_ops.specs.Typed.{Answers};
ghost use Rattle.cel_overload.specs.Answers.{HaveTypes, function_answer, overload_answer};
ghost use Rattle.cel_overload.specs.Overloads.{CallFault, IsCall, IsOverload, Takes};
ghost use Rattle.cel_overload.specs.declared.function.Function.{Function};
ghost use Rattle.cel_overload.specs.declared.overload.Overload.{Overload};
ghost use Rattle.cel_overload.specs.declared.overload.OverloadFault.{OverloadFault};

/// A call has at most one overload, and its result has one type.
pub fn overload_unique()
    ensures { (name : List ℕ) (target : Bool) (ts : List ValueType) (o p : Overload) (r s : ValueType)
        → IsCall name target ts o r → IsCall name target ts p s → (o ≡ p) × (r ≡ s) }
{}

/// A call has an overload or a fault.
pub fn overload_total()
    ensures { (name : List ℕ) (target : Bool) (ts : List ValueType)
        → ((o : Overload) × (r : ValueType) × IsCall name target ts o r)
        ⊎ ((e : OverloadFault) × CallFault name target ts e) }
{}

/// No call has both an overload and a fault.
pub fn overload_disjoint()
    ensures { (name : List ℕ) (target : Bool) (ts : List ValueType) (o : Overload) (r : ValueType)
        (e : OverloadFault) → IsCall name target ts o r → CallFault name target ts e → ⊥ }
{}

/// A call has at most one fault.
pub fn overload_fault_unique()
    ensures { (name : List ℕ) (target : Bool) (ts : List ValueType) (d e : OverloadFault)
        → CallFault name target ts d → CallFault name target ts e → d ≡ e }
{}

/// On operands of its types, an overload answers with a value of its result's type, or with an
/// error.
pub fn overload_typed()
    ensures { (o : Overload) (ts : List ValueType) (r : ValueType) (answers : List CelAnswer)
        → Takes o ts r → HaveTypes answers ts → Answers (overload_answer o answers) r }
{}

/// On operands of an overload's types, its function gives the same answer as the overload.
pub fn overload_is_its_function()
    ensures { (f : Function) (target : Bool) (ts : List ValueType) (o : Overload) (r : ValueType)
        (answers : List CelAnswer) → IsOverload f target ts o r → HaveTypes answers ts
        → function_answer f answers ≡ overload_answer o answers }
{}
