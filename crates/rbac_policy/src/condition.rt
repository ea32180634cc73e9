//! Conditions: their admission and their runs.

ghost use Rattle.std.specs.Prelude.{◌≡◌, ◌≢◌, ℕ, List, IfErr, IfOk, OnOk, Some};
ghost use Rattle.cel_tree.specs.Checked.{CelChecked};
ghost use Rattle.cel_tree.specs.Message.{ExprParts, IsExprOf};
ghost use Rattle.cel_tree.specs.View.{checked_view};
ghost use Rattle.cel_types.specs.Elaborated.{IsElaborated};
ghost use Rattle.cel_types.specs.View.{typed_view};
ghost use Rattle.cel_value.specs.Types.{bool_type, type_view};
ghost use Rattle.cel_tree.specs.Places.{NamesNode};
ghost use Rattle.cel_check.specs.Places.{id_of};
ghost use Rattle.proto_wire.specs.Places.{FaultOr, path_of};
ghost use Rattle.proto_wire.specs.declared.refusal.Refusal.TheVariants.{NotBool};
ghost use Rattle.cel_value.specs.View.{answer_view};
ghost use Rattle.cost_bound.specs.Budgets.{Covers};
ghost use Rattle.rbac_policy.specs.Budget.{OverIn};
ghost use Rattle.rbac_policy.specs.Condition.{IsProgramOf, MemoryOrSteps, came_true};
ghost use Rattle.rbac_policy.specs.Named.{program_view};
ghost use Rattle.rbac_policy.specs.Places.{NodeOr};
ghost use Rattle.rbac_policy.specs.private.Conditions.{ExpressionFault};
ghost use Rattle.rbac_policy.specs.private.Runs.{RunsAs};
ghost use Rattle.rbac_policy.specs.Trials.{IsReasonOf};
ghost use Rattle.rbac_policy.specs.private.Trials.{EndsWith, TakesOf};
ghost use Rattle.machine_code.specs.Instructions.{code_view};
ghost use Rattle.machine_code.specs.Machine.{RunsOut};
ghost use Rattle.machine_code.specs.Typable.{Forward};

use crate::reason::Reason;
use attributes::{Limits, Request};
use cel_check::{check_at, id_of};
use cel_compile::compile;
use cel_tree::{Checked, fault_of_node};
use cel_types::Typed;
use cel_value::{Answer, CelType, Value};
use code_verifier::{VerifyFault, verify};
use cost_bound::{Budget, bound};
use machine_code::{Code, Verified};
use proto_wire::{Fault, Refusal};
use stack_machine::{RunError, run};
use std::alloc::Global;
use std::fmt;

/// An admitted condition: its code, and what it takes of a budget. Its code may take these steps.
#[derive(Drop)]
pub(crate) struct Condition {
    pub code: Verified,
    pub needs: Budget,
}

impl fmt::Debug for Condition {
    fn fmt<W: fmt::Write>(&self, f: &mut fmt::Formatter<W>) -> fmt::Result {
        write!(f, "a condition of at most {} steps", self.needs.steps)
    }
}

impl Condition {
    /// Whether the request meets the condition: its code evaluates to true. An error is no match.
    pub(crate) fn is_met(&self, alloc: Global, request: &Request) -> Result<bool, RunError>
        ensures found { IfOk result (λ met. RunsAs request.now (program_view self.now) met) }
        ensures fault { IfErr result (MemoryOrSteps
            (RunsOut (code_view self.now.code) request.now self.now.needs.steps)) }
    {
        let outcome = run(alloc, &self.code, request, self.needs.steps)?;
        Ok(is_true(&outcome.result))
    }

    /// Why the request meets the condition, or does not.
    pub(crate) fn reason(&self, alloc: Global, request: &Request) -> Result<Reason, RunError>
        ensures found { IfOk result (IsReasonOf (EndsWith request.now) (TakesOf request.now)
            (program_view self.now)) }
        ensures fault { IfErr result (MemoryOrSteps
            (RunsOut (code_view self.now.code) request.now self.now.needs.steps)) }
    {
        let outcome = run(alloc, &self.code, request, self.needs.steps)?;
        if is_true(&outcome.result) {
            return Ok(Reason::ConditionTrue {
                steps: outcome.steps,
                bound: self.needs.steps,
            });
        }
        match &outcome.result {
            Ok(_) => Ok(Reason::ConditionFalse),
            Err(error) => Ok(Reason::ConditionFails(*error)),
        }
    }
}

// Whether an answer is true.
fn is_true(answer: &Answer) -> bool
    ensures { result ≡ came_true (Some (answer_view answer.now)) }
{
    matches!(answer, Ok(Value::Bool(true)))
}

/// The condition of the expression, for requests within the limits; it may take what is left of a budget. The
/// expression was read from some parts, so a code has room for it, and the code is verified. Its tree is not
/// kept. The place of a fault names a node, or the expression itself if it takes more than is left.
pub(crate) fn condition_of(
    alloc: Global,
    checked: &Checked,
    limits: &Limits,
    left: Budget,
) -> Result<Condition, Fault>
    requires { (parts : ExprParts) × IsExprOf parts (checked_view checked.now) }
    ensures found { IfOk result (λ c. IsProgramOf limits.now (checked_view checked.now) (program_view c)) }
    ensures covered { IfOk result (λ c. Covers left c.needs) }
    ensures fault { IfErr result (FaultOr (ExpressionFault (checked_view checked.now) limits.now left)) }
    ensures place { IfErr result (NodeOr (OverIn limits.now left (checked_view checked.now)) (checked_view checked.now)) }
{
    let typed = check_at(alloc, checked)?;
    enforced(alloc, id_of(&checked.tree), &typed, limits, left)
}

// The condition of an elaborated expression, whose root has this id. The expression was read from some parts.
fn enforced(
    alloc: Global,
    root: i64,
    typed: &Typed<'_>,
    limits: &Limits,
    left: Budget,
) -> Result<Condition, Fault>
    requires { (parts : ExprParts) × (x : CelChecked) × IsExprOf parts x
        × IsElaborated x (typed_view typed.now) }
    ensures found { (x : CelChecked) → IsElaborated x (typed_view typed.now)
        → IfOk result (λ c. IsProgramOf limits.now x (program_view c)) }
    ensures covered { IfOk result (λ c. Covers left c.needs) }
    ensures fault { (x : CelChecked) → IsElaborated x (typed_view typed.now)
        → IfErr result (FaultOr (ExpressionFault x limits.now left)) }
    ensures place { (x : CelChecked) → IsElaborated x (typed_view typed.now) → id_of x.tree ≡ root
        → IfErr result (NodeOr (OverIn limits.now left x) x) }
{
    require_bool(root, typed.root.cel_type())?;
    let needs = bound(alloc, typed, limits, left)?;
    let code = compile(alloc, typed)?;
    let code = verified(alloc, code)?;
    Ok(Condition { code, needs })
}

// Refuses every type except bool, at the node with this id.
fn require_bool(root: i64, found: &CelType) -> Result<(), Fault>
    ensures found { OnOk result (type_view found.now ≡ bool_type) }
    ensures fault { IfErr result (λ f. (type_view found.now ≢ bool_type) × (f.refusal ≡ NotBool)
        × NamesNode root (path_of f.place)) }
{
    if *found == CelType::Bool {
        return Ok(());
    }
    Err(fault_of_node(Refusal::NotBool, root))
}

// Verifies that the code answers a bool.
fn verified(alloc: Global, code: Code) -> Result<Verified, Refusal>
    requires { Forward (code_view code) bool_type }
    ensures found { IfOk result (λ v. v ≡ code) }
    ensures fault { IfErr result (λ e. e ≡ Refusal.Memory) }
{
    match verify(alloc, code, &CelType::Bool) {
        Ok(verified) => Ok(verified),
        Err((_, VerifyFault::Memory)) => Err(Refusal::Memory),
        Err((_, VerifyFault::NotTypable(_))) => unreachable!(),
    }
}
