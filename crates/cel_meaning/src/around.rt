//! What is around a part of an expression.

ghost use Rattle.std.specs.Prelude.{◌≡◌, ◌∷◌, Err, IfOk, Some, map, option_map};
ghost use Rattle.cel_ops.specs.Collections.{list_literal, map_literal};
ghost use Rattle.cel_overload.specs.Functions.{function_named};
ghost use Rattle.cel_tree.specs.View.{tree_view};
ghost use Rattle.cel_types.specs.Meaning.{call_answer, name_answer};
ghost use Rattle.cel_types.specs.Names.{local};
ghost use Rattle.cel_value.specs.Texts.{text_view};
ghost use Rattle.cel_value.specs.View.{answer_view};
ghost use Rattle.cel_meaning.specs.Origin.{begins, call_place, choice_place, first_place, place_of, settled};
ghost use Rattle.cel_meaning.specs.Places.{place_view, placed_view};
ghost use Rattle.cel_meaning.specs.private.Plain.{around_view, shared_view};

use crate::calls::call;
use crate::known::{answers_of_locals, find};
use crate::leaves::name_answer;
use crate::literals::{list_of, map_of};
use crate::place::{Place, Placed, answers_of, copy_place, first_place};
use attributes::Request;
use cel_overload::{Function, function_named};
use cel_tree::Tree;
use cel_value::{Answer, Value};
use std::alloc::{AllocError, Global};
use std::sync::{Arc, ArcStr};

/// What is around a part of an expression that is evaluated for a request.
#[derive(Clone, Copy)]
pub(super) struct Around<'c, 't> {
    pub(super) alloc: Global,
    pub(super) request: &'c Request,
    /// The numbers of the turns, the innermost first.
    pub(super) turns: &'c [usize],
    /// The locals, the innermost first.
    pub(super) known: &'c [(ArcStr, Placed<'t>)],
}

impl<'c, 't> Around<'c, 't> {
    /// The numbers of the turns around a turn of this number.
    pub(super) fn turns_with(&self, number: usize) -> Result<Vec<usize>, AllocError>
        ensures { IfOk result (λ turns. turns.items ≡ number ∷ self.now.turns.now) }
    {
        let mut turns = Vec::new(self.alloc);
        turns.push(number)?;
        turns.extend_from_slice(self.turns)?;
        Ok(turns)
    }

    /// The answer of an expression. If it is an error, it begins in the operand with this place, or else at the
    /// expression.
    pub(super) fn settled(
        &self,
        tree: &'t Tree,
        answer: Option<Answer>,
        inner: Option<Arc<Place<'t>>>,
    ) -> Result<Option<Placed<'t>>, AllocError>
        ensures { IfOk result (λ found. option_map placed_view found
            ≡ settled (tree_view tree.now) (around_view self.now) (option_map answer_view answer) (shared_view inner.entry)) }
    {
        match answer {
            None => Ok(None),
            Some(Ok(value)) => Ok(Some(Placed::of(value))),
            Some(Err(error)) => Ok(Some(Placed {
                answer: Err(error),
                place: Some(self.begins(tree, inner)?),
            })),
        }
    }

    // The place of an error.
    fn begins(
        &self,
        tree: &'t Tree,
        inner: Option<Arc<Place<'t>>>,
    ) -> Result<Arc<Place<'t>>, AllocError>
        ensures { IfOk result (λ place. place_view place.value
            ≡ begins (tree_view tree.now) (around_view self.now) (shared_view inner.entry)) }
    {
        if let Some(place) = inner {
            return Ok(place);
        }
        let mut turns = Vec::new(self.alloc);
        turns.extend_from_slice(self.turns)?;
        let locals = answers_of_locals(self.alloc, self.known)?;
        let place = Place {
            part: tree,
            turns,
            locals,
        };
        Ok(Arc::new(self.alloc, place)?)
    }

    /// The answer of a name.
    pub(super) fn name(
        &self,
        tree: &'t Tree,
        name: &ArcStr,
    ) -> Result<Option<Placed<'t>>, AllocError>
        ensures { let found = local (text_view name.now) (around_view self.now).locals in
            IfOk result (λ named. option_map placed_view named ≡ settled (tree_view tree.now) (around_view self.now)
            (name_answer self.now.request.now (text_view name.now) (option_map (λ a. a.0) found)) (place_of found)) }
    {
        let found = find(self.known, name);
        let answer = name_answer(self.alloc, name, self.request, found)?;
        self.settled(tree, answer, place_of(found)?)
    }

    /// The answer of a call on these operands, its target first.
    pub(super) fn call(
        &self,
        tree: &'t Tree,
        name: &ArcStr,
        operands: &[Placed<'t>],
    ) -> Result<Option<Placed<'t>>, AllocError>
        ensures { let placed = map placed_view operands.now in IfOk result (λ found. option_map placed_view found
            ≡ settled (tree_view tree.now) (around_view self.now)
            (call_answer (text_view name.now) (Some (map (λ a. a.0) placed)))
            (call_place (function_named (text_view name.now)) placed)) }
    {
        let answers = answers_of(self.alloc, operands)?;
        let answer = call(self.alloc, name.as_str(), &answers)?;
        let inner = call_place(function_named(name.as_str()), operands)?;
        self.settled(tree, answer, inner)
    }

    /// A list literal of these elements.
    pub(super) fn list(
        &self,
        tree: &'t Tree,
        operands: &[Placed<'t>],
    ) -> Result<Option<Placed<'t>>, AllocError>
        ensures { let placed = map placed_view operands.now in IfOk result (λ found. option_map placed_view found
            ≡ settled (tree_view tree.now) (around_view self.now) (list_literal (map (λ a. a.0) placed))
            (first_place placed)) }
    {
        let answer = list_of(self.alloc, answers_of(self.alloc, operands)?)?;
        self.settled(tree, answer, first_place(operands)?)
    }

    /// A map literal of these keys and values, in turn.
    pub(super) fn map(
        &self,
        tree: &'t Tree,
        operands: &[Placed<'t>],
    ) -> Result<Option<Placed<'t>>, AllocError>
        ensures { let placed = map placed_view operands.now in IfOk result (λ found. option_map placed_view found
            ≡ settled (tree_view tree.now) (around_view self.now) (map_literal (map (λ a. a.0) placed))
            (first_place placed)) }
    {
        let answer = map_of(self.alloc, answers_of(self.alloc, operands)?)?;
        self.settled(tree, answer, first_place(operands)?)
    }
}

// The place of a local's answer.
fn place_of<'t>(found: Option<&Placed<'t>>) -> Result<Option<Arc<Place<'t>>>, AllocError>
    ensures { IfOk result (λ place. shared_view place ≡ place_of (option_map (λ a. placed_view a.now) found.entry)) }
{
    match found {
        None => Ok(None),
        Some(local) => copy_place(&local.place),
    }
}

// The place in the operands of a call.
fn call_place<'t>(
    function: Option<Function>,
    operands: &[Placed<'t>],
) -> Result<Option<Arc<Place<'t>>>, AllocError>
    ensures { IfOk result (λ found. shared_view found ≡ call_place function (map placed_view operands.now)) }
{
    match function {
        Some(Function::Conditional) => choice_place(operands),
        _ => first_place(operands),
    }
}

// The place in a choice: in the branch that it takes, or else in its condition.
fn choice_place<'t>(operands: &[Placed<'t>]) -> Result<Option<Arc<Place<'t>>>, AllocError>
    ensures { IfOk result (λ found. shared_view found ≡ choice_place (map placed_view operands.now)) }
{
    match operands {
        [condition, first, second] => match condition.answer {
            Ok(Value::Bool(true)) => copy_place(&first.place),
            Ok(Value::Bool(false)) => copy_place(&second.place),
            _ => first_place(operands),
        },
        _ => first_place(operands),
    }
}
