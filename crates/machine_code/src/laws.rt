//! Laws of all runs.

ghost use Rattle.std.specs.Prelude.{◌≡◌, ◌≤◌, ℕ, List};
ghost use Rattle.cel_value.specs.Types.{AnswerHasType, ValueType};
ghost use Rattle.cel_value.specs.Values.{CelAnswer};
ghost use Rattle.attributes.specs.Request.{IsRequest, RequestValue};
ghost use Rattle.machine_code.specs.Instructions.{Instruction};
ghost use Rattle.machine_code.specs.Machine.{Ends, NeverStuck, RunsOut};
ghost use Rattle.machine_code.specs.Typable.{Forward, Typable};

/// No run of typable code is ever stuck.
pub fn never_stuck()
    ensures { (code : List Instruction) (t : ValueType) (request : RequestValue)
        → Typable code t → IsRequest request → NeverStuck code request }
{}

/// The result of typable code has the type, or is an error.
pub fn results_are_typed()
    ensures { (code : List Instruction) (t : ValueType) (request : RequestValue)
        → Typable code t → IsRequest request
        → (a : CelAnswer) (steps : ℕ) → Ends code request a steps → AnswerHasType a t }
{}

/// A run ends in at most one way.
pub fn ends_unique()
    ensures { (code : List Instruction) (request : RequestValue) (a b : CelAnswer) (m n : ℕ)
        → Ends code request a m → Ends code request b n → (a ≡ b) × (m ≡ n) }
{}

/// A run that ends within the fuel does not run out of it.
pub fn ends_or_runs_out_disjoint()
    ensures { (code : List Instruction) (request : RequestValue) (a : CelAnswer) (steps fuel : ℕ)
        → Ends code request a steps → steps ≤ fuel → RunsOut code request fuel → ⊥ }
{}

/// Code whose table one pass finds is typable.
pub fn forward_is_typable()
    ensures { (code : List Instruction) (t : ValueType) → Forward code t → Typable code t }
{}
