//! The meaning of expressions, computed: a plain and slow evaluator. It follows the definition of meaning: it walks the
//! tree and looks names up. With an error it finds where the error begins. No decision uses it: it explains errors of
//! conditions, and tests compare the machine's results with it.
#![tactic(auto)]

ghost use Rattle.std.specs.Prelude.{◌≡◌, ◌<◌, ◌≤◌, IfErr, IfOk, OnOk, option_map};
ghost use Rattle.cel_tree.specs.View.{tree_view};
ghost use Rattle.cel_value.specs.View.{answer_view};
ghost use Rattle.cel_types.specs.Meaning.{eval};
ghost use Rattle.cel_meaning.specs.Origin.{placed};
ghost use Rattle.cel_meaning.specs.Places.{around, locals_view, placed_view};
ghost use Rattle.cel_meaning.specs.Steps.{steps};

mod around;
mod binary;
mod calls;
mod elements;
mod known;
pub mod laws;
mod leaves;
mod literals;
mod nodes;
mod place;
mod stopped;
mod unary;
mod way;

use crate::known::bare_locals;
use around::Around;
use attributes::Request;
use cel_tree::Tree;
use cel_value::Answer;
use nodes::eval;
pub use place::{Place, Placed};
use std::alloc::Global;
use std::sync::ArcStr;
pub use stopped::Stopped;

/// The answer of an expression for a request and these locals, the innermost first. If it is an error, with where it
/// begins. `None` if a value is of a wrong kind or a name is not known; neither occurs in an expression that has a type.
/// It takes at most so many steps, one for each part that is evaluated. A step's own time grows with the number of locals
/// and with the sizes of values. `OutOfSteps` exactly if it would take more steps, unless memory runs out before.
pub fn evaluate_plainly<'t>(
    alloc: Global,
    tree: &'t Tree,
    request: &Request,
    locals: &[(ArcStr, Answer)],
    most: u64,
) -> Result<Option<Placed<'t>>, Stopped>
    ensures meaning { IfOk result (λ found. option_map (λ a. answer_view a.answer) found
        ≡ eval (tree_view tree.now) request.now (locals_view locals.now)) }
    ensures place { IfOk result (λ found. option_map placed_view found
        ≡ placed request.now (around (locals_view locals.now)) (tree_view tree.now)) }
    ensures within { OnOk result (steps request.now (around (locals_view locals.now)) (tree_view tree.now) ≤ most) }
    ensures out { IfErr result (λ e. e ≡ Stopped.OutOfSteps
        → most < steps request.now (around (locals_view locals.now)) (tree_view tree.now)) }
{
    evaluate(alloc, tree, request, locals, most)
}

// The same, by its place alone.
fn evaluate<'t>(
    alloc: Global,
    tree: &'t Tree,
    request: &Request,
    locals: &[(ArcStr, Answer)],
    most: u64,
) -> Result<Option<Placed<'t>>, Stopped>
    ensures place { IfOk result (λ found. option_map placed_view found
        ≡ placed request.now (around (locals_view locals.now)) (tree_view tree.now)) }
    ensures within { OnOk result (steps request.now (around (locals_view locals.now)) (tree_view tree.now) ≤ most) }
    ensures out { IfErr result (λ e. e ≡ Stopped.OutOfSteps
        → most < steps request.now (around (locals_view locals.now)) (tree_view tree.now)) }
{
    let known = bare_locals(alloc, locals)?;
    let outermost = Around {
        alloc,
        request,
        turns: &[],
        known: &known,
    };
    let mut left = most;
    eval(&outermost, tree, &mut left)
}
