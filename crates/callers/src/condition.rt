//! Checks, compiles, verifies and runs one condition.

ghost use Rattle.std.specs.Prelude.{◌≡◌, ◌↔◌, ◌⊎◌, ◌∷◌, ℕ, Some, [], List, IfErr, IfOk, true};
ghost use Rattle.attributes.specs.Limits.{InLimits, LimitsValue};
ghost use Rattle.callers.specs.Conditions.{IsCodeOf};
ghost use Rattle.cel_tree.specs.Checked.{CelChecked};
ghost use Rattle.cel_tree.specs.Message.{CheckedFault, IsChecked};
ghost use Rattle.cel_tree.specs.View.{checked_view};
ghost use Rattle.cel_types.specs.Meaning.{eval};
ghost use Rattle.cel_types.specs.TypingFaults.{CheckFault};
ghost use Rattle.cel_value.specs.Types.{type_view};
ghost use Rattle.cel_value.specs.Values.{bool, value};
ghost use Rattle.cel_value.specs.View.{answer_view};
ghost use Rattle.machine_code.specs.Instructions.{code_view};
ghost use Rattle.machine_code.specs.Machine.{RunsOut};
ghost use Rattle.machine_code.specs.Typable.{Forward};
ghost use Rattle.proto_wire.specs.Refusal.{MemoryOr};

use attributes::{Request, request_is_sound};
use cel_check::check;
use cel_compile::compile;
use cel_read::read_checked;
use cel_tree::Checked;
use cel_value::{Answer, CelType, Value};
use code_verifier::{VerifyFault, verify};
use machine_code::{Code, Verified};
use proto_wire::Refusal;
use stack_machine::{RunError, run};
use std::alloc::Global;

/// The verified code of a checked expression (`google.api.expr.v1alpha1.CheckedExpr`). It is refused if it does not
/// read or has no type, or with `Memory`.
pub fn prepare(alloc: Global, bytes: &[u8]) -> Result<Verified, Refusal>
    ensures found { IfOk result (λ code. (c : CelChecked) × IsChecked (bytes.now ∷ []) c
        × IsCodeOf c (code_view code)) }
    ensures fault { IfErr result (MemoryOr (λ e. CheckedFault (bytes.now ∷ []) e
        ⊎ ((c : CelChecked) × IsChecked (bytes.now ∷ []) c × CheckFault c e))) }
{
    let checked = read_checked(alloc, bytes)?;
    compiled(alloc, &checked)
}

/// Whether the condition evaluates to true for the request. An error is not true. `OutOfSteps` if it takes more steps
/// than the fuel, and `Memory` if it is out of memory.
pub fn holds(
    alloc: Global,
    condition: &Verified,
    request: &Request,
    fuel: u64,
) -> Result<bool, RunError>
    ensures found { IfOk result (λ met. (limits : LimitsValue) (parts : List (List ℕ)) (c : CelChecked)
        → InLimits request.now limits → IsChecked parts c → IsCodeOf c (code_view condition.now)
        → (met ≡ true) ↔ (eval c.tree request.now [] ≡ Some (value (bool true)))) }
    ensures fault { IfErr result (λ e. (e ≡ RunError.Memory)
        ⊎ ((e ≡ RunError.OutOfSteps) × RunsOut (code_view condition.now) request.now fuel)) }
{
    request_is_sound(request);
    let outcome = run(alloc, condition, request, fuel)?;
    Ok(is_true(&outcome.result))
}

// Whether an answer is true.
fn is_true(answer: &Answer) -> bool
    ensures { (result ≡ true) ↔ (answer_view answer.now ≡ value (bool true)) }
{
    matches!(answer, Ok(Value::Bool(true)))
}

// The verified code of an expression that was read.
fn compiled(alloc: Global, checked: &Checked) -> Result<Verified, Refusal>
    requires { (parts : List (List ℕ)) × IsChecked parts (checked_view checked.now) }
    ensures found { IfOk result (λ code. IsCodeOf (checked_view checked.now) (code_view code)) }
    ensures fault { IfErr result (MemoryOr (CheckFault (checked_view checked.now))) }
{
    let typed = check(alloc, checked)?;
    let code = compile(alloc, &typed)?;
    verified(alloc, code, typed.root.cel_type())
}

// Verifies code of which one pass finds a table.
fn verified(alloc: Global, code: Code, result_type: &CelType) -> Result<Verified, Refusal>
    requires { Forward (code_view code) (type_view result_type.now) }
    ensures found { IfOk result (λ v. v ≡ code) }
    ensures fault { IfErr result (λ e. e ≡ Refusal.Memory) }
{
    match verify(alloc, code, result_type) {
        Ok(verified) => Ok(verified),
        Err((_, VerifyFault::Memory)) => Err(Refusal::Memory),
        Err((_, VerifyFault::NotTypable(_))) => unreachable!(),
    }
}
