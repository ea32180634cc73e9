//! Laws of every expression's code.

ghost use Rattle.std.specs.Prelude.{◌≡◌, ◌≤◌, ◌<◌, ◌*◌, ℕ, List, [], length};
ghost use Rattle.attributes.specs.Limits.{InLimits, LimitsValue};
ghost use Rattle.attributes.specs.Request.{IsRequest, RequestValue};
ghost use Rattle.cel_tree.specs.Checked.{CelChecked};
ghost use Rattle.cel_tree.specs.GoodConstants.{HasGoodConstants};
ghost use Rattle.cel_tree.specs.Message.{ExprParts, IsExprOf};
ghost use Rattle.cel_tree.specs.Trees.{node_count};
ghost use Rattle.cel_types.specs.Elaborated.{IsElaborated, TypedTree, kind};
ghost use Rattle.cel_types.specs.WellTyped.{IsWellTyped};
ghost use Rattle.machine_code.specs.Instructions.{Instruction};
ghost use Rattle.machine_code.specs.Machine.{NeverStuck};
ghost use Rattle.machine_code.specs.Typable.{Forward};
ghost use Rattle.cel_compile.specs.Codes.{code_of};
ghost use Rattle.cel_compile.specs.Slots.{HasFewLocals};
ghost use Rattle.cel_compile.specs.Sound.{IsSound, RunsToMeaning};

/// On every request within the limits, the code of a well typed expression ends with the expression's answer,
/// within its cost.
pub fn compiled_code_is_sound()
    ensures { (e : TypedTree) (code : List Instruction) → IsWellTyped [] e → code ≡ code_of 0 0 e
        → IsSound code e }
{}

/// On every request within the limits, the code of a checked expression's elaboration ends with what the
/// expression means, within its cost.
pub fn compiled_code_means_its_expression()
    ensures { (c : CelChecked) (e : TypedTree) → HasGoodConstants c.tree → IsElaborated c e
        → (request : RequestValue) (limits : LimitsValue) → IsRequest request → InLimits request limits
        → RunsToMeaning (code_of 0 0 e) c e request limits }
{}

/// No run of a well typed expression's code is ever stuck, on any request. No instruction lacks an operand,
/// meets one of the wrong kind or leads out of the code.
pub fn compiled_code_is_never_stuck()
    ensures { (e : TypedTree) (request : RequestValue) → IsWellTyped [] e → IsRequest request
        → NeverStuck (code_of 0 0 e) request }
{}

/// The code of an elaboration has fewer than two instructions for each node of the expression, wherever it
/// begins. An expression that was read has at most 2,048 nodes, so its code has at most 4,095 instructions. If
/// it is typed, at most 64 locals are in scope. So it is never too large for a code.
pub fn compiled_code_is_short()
    ensures short { (c : CelChecked) (e : TypedTree) (p d : ℕ) → IsElaborated c e
        → length (code_of p d e) < 2 * node_count c.tree }
    ensures room { (parts : ExprParts) (c : CelChecked) (e : TypedTree) → IsExprOf parts c
        → IsElaborated c e → (length (code_of 0 0 e) ≤ 65535) × HasFewLocals 0 e }
{}

/// One pass over the code of a well typed expression finds a table of shapes that fits the code, with the
/// expression's type. So does one pass over the code of a checked expression's elaboration. So a verifier
/// refuses no compiled code, if it finds a table whenever one pass does.
pub fn compiled_code_is_forward()
    ensures typed { (e : TypedTree) → IsWellTyped [] e → Forward (code_of 0 0 e) (kind e) }
    ensures checked { (c : CelChecked) (e : TypedTree) → HasGoodConstants c.tree → IsElaborated c e
        → Forward (code_of 0 0 e) (kind e) }
{}
