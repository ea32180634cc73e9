//! Where errors begin.

ghost use Rattle.std.specs.Prelude.{◌≡◌, ◌++◌, IfOk, map};
ghost use Rattle.cel_value.specs.View.{answer_view, value_view};
ghost use Rattle.cel_value.specs.Values.{value};
ghost use Rattle.cel_meaning.specs.Origin.{bare, first_place};
ghost use Rattle.cel_meaning.specs.Places.{placed_view};
ghost use Rattle.cel_meaning.specs.private.Plain.{shared_view};

use cel_tree::Tree;
use cel_value::{Answer, Value, copy_answer};
use std::alloc::{AllocError, Global};
use std::sync::{Arc, ArcStr};

/// Where an error begins.
#[derive(Drop)]
pub struct Place<'t> {
    /// The part of the expression.
    pub part: &'t Tree,
    /// The numbers of the turns around it, from 0, the innermost first.
    pub turns: Vec<usize>,
    /// The names and answers of the locals there, the innermost first.
    pub locals: Vec<(ArcStr, Answer)>,
}

/// An answer, and where it begins if it is an error.
#[derive(Drop)]
pub struct Placed<'t> {
    pub answer: Answer,
    pub place: Option<Arc<Place<'t>>>,
}

impl<'t> Placed<'t> {
    /// A value.
    pub(crate) fn of(found: Value) -> Placed<'t>
        ensures { placed_view result ≡ bare (value (value_view found)) }
    {
        Placed {
            answer: Ok(found),
            place: None,
        }
    }

    /// An answer without a place.
    pub(crate) fn bare(answer: &Answer) -> Result<Placed<'t>, AllocError>
        ensures { IfOk result (λ made. placed_view made ≡ bare (answer_view answer.now)) }
    {
        Ok(Placed {
            answer: copy_answer(answer)?,
            place: None,
        })
    }

    /// Another owner of the same answer and place.
    pub(crate) fn copy(&self) -> Result<Placed<'t>, AllocError>
        ensures { IfOk result (λ copy. placed_view copy ≡ placed_view self.now) }
    {
        Ok(Placed {
            answer: copy_answer(&self.answer)?,
            place: copy_place(&self.place)?,
        })
    }
}

/// Another owner of the same place.
pub(crate) fn copy_place<'t>(
    place: &Option<Arc<Place<'t>>>,
) -> Result<Option<Arc<Place<'t>>>, AllocError>
    ensures { IfOk result (λ copy. shared_view copy ≡ shared_view place.now) }
{
    match place {
        None => Ok(None),
        Some(place) => Ok(Some(place.clone()?)),
    }
}

/// The leftmost place.
pub(crate) fn first_place<'t>(operands: &[Placed<'t>]) -> Result<Option<Arc<Place<'t>>>, AllocError>
    ensures { IfOk result (λ found. shared_view found ≡ first_place (map placed_view operands.now)) }
{
    for operand in operands {
        if let Some(place) = &operand.place {
            return Ok(Some(place.clone()?));
        }
    }
    Ok(None)
}

/// The answers.
pub(crate) fn answers_of(alloc: Global, operands: &[Placed<'_>]) -> Result<Vec<Answer>, AllocError>
    ensures { IfOk result (λ answers.
        map answer_view answers.items ≡ map (λ a. a.0) (map placed_view operands.now)) }
{
    let mut answers = Vec::new(alloc);
    for operand in operands {
        answers.push(copy_answer(&operand.answer)?)?;
    }
    Ok(answers)
}

/// The operands, and then the others.
pub(crate) fn joined<'t>(
    first: Vec<Placed<'t>>,
    others: Vec<Placed<'t>>,
) -> Result<Vec<Placed<'t>>, AllocError>
    ensures { IfOk result (λ all. map placed_view all.items
        ≡ map placed_view first.entry.items ++ map placed_view others.entry.items) }
{
    let mut all = first;
    let mut more = others;
    all.append(&mut more)?;
    Ok(all)
}
