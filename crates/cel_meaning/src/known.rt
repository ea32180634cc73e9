//! The locals in scope: their names and placed answers, the innermost first.

ghost use Rattle.std.specs.Prelude.{◌≡◌, ◌↔◌, [], ◌∷◌, IfOk, IsTrue, map, option_map};
ghost use Rattle.std.specs.Str.{bytes_eq};
ghost use Rattle.cel_tree.specs.View.{tree_view};
ghost use Rattle.cel_value.specs.Texts.{text_view};
ghost use Rattle.cel_value.specs.View.{answer_view};
ghost use Rattle.cel_types.specs.Names.{bare_root, local, root_of, turn_scope, variables_of};
ghost use Rattle.cel_meaning.specs.Origin.{answers_of, bare};
ghost use Rattle.cel_meaning.specs.Places.{around, locals_view, placed_view};
ghost use Rattle.cel_meaning.specs.private.Plain.{known_view, turn_view};

use crate::elements::Turn;
use crate::place::Placed;
use cel_tree::{Comprehension, Tree};
use cel_types::{Variables, is_root};
use cel_value::{Answer, copy_answer};
use std::alloc::{AllocError, Global};
use std::sync::ArcStr;

/// The locals with one more, the innermost.
pub(super) fn with_local<'t>(
    alloc: Global,
    known: &[(ArcStr, Placed<'t>)],
    name: &ArcStr,
    answer: &Placed<'t>,
) -> Result<Vec<(ArcStr, Placed<'t>)>, AllocError>
    ensures { IfOk result (λ v. known_view v.items
        ≡ (text_view name.now, placed_view answer.now) ∷ known_view known.now) }
{
    let mut locals = Vec::new(alloc);
    locals.push((name.clone()?, answer.copy()?))?;
    for (outer, known_answer) in known {
        locals.push((outer.clone()?, known_answer.copy()?))?;
    }
    Ok(locals)
}

/// The locals without places.
pub(super) fn answers_of_locals(
    alloc: Global,
    known: &[(ArcStr, Placed<'_>)],
) -> Result<Vec<(ArcStr, Answer)>, AllocError>
    ensures { IfOk result (λ v. locals_view v.items ≡ answers_of (known_view known.now)) }
{
    let mut locals = Vec::new(alloc);
    for (name, placed) in known {
        locals.push((name.clone()?, copy_answer(&placed.answer)?))?;
    }
    Ok(locals)
}

/// These locals, whose answers have no places.
pub(super) fn bare_locals<'t>(
    alloc: Global,
    locals: &[(ArcStr, Answer)],
) -> Result<Vec<(ArcStr, Placed<'t>)>, AllocError>
    ensures { IfOk result (λ v. known_view v.items ≡ (around (locals_view locals.now)).locals) }
{
    let mut known = Vec::new(alloc);
    for (name, answer) in locals {
        known.push((name.clone()?, Placed::bare(answer)?))?;
    }
    Ok(known)
}

/// The locals of a turn: its variables, and then the accumulator, before the locals around.
pub(super) fn turn_scope<'t>(
    alloc: Global,
    parts: &Comprehension,
    known: &[(ArcStr, Placed<'t>)],
    turn: &Turn,
    gathered: &Placed<'t>,
) -> Result<Vec<(ArcStr, Placed<'t>)>, AllocError>
    ensures { IfOk result (λ v. known_view v.items
        ≡ turn_scope (text_view parts.now.iter_var) (text_view parts.now.iter_var2) (text_view parts.now.accu_var)
        (map bare (turn_view turn.now)) (placed_view gathered.now) (known_view known.now)) }
{
    let inner = with_local(alloc, known, &parts.accu_var, gathered)?;
    let innermost = Placed::of(turn.value.copy()?);
    if is_nameless(&parts.iter_var2) {
        return with_local(alloc, &inner, &parts.iter_var, &innermost);
    }
    match &turn.key {
        None => with_local(alloc, &inner, &parts.iter_var2, &innermost),
        Some(first) => with_both(alloc, parts, &inner, first, &innermost),
    }
}

// The locals with both variables of a turn.
fn with_both<'t>(
    alloc: Global,
    parts: &Comprehension,
    known: &[(ArcStr, Placed<'t>)],
    first: &Answer,
    second: &Placed<'t>,
) -> Result<Vec<(ArcStr, Placed<'t>)>, AllocError>
    ensures { IfOk result (λ v. known_view v.items
        ≡ (text_view parts.now.iter_var2, placed_view second.now)
        ∷ (text_view parts.now.iter_var, bare (answer_view first.now)) ∷ known_view known.now) }
{
    let first = Placed::bare(first)?;
    let outer = with_local(alloc, known, &parts.iter_var, &first)?;
    with_local(alloc, &outer, &parts.iter_var2, second)
}

/// How many variables a comprehension has, by its second name.
pub(super) fn variables_of(name: &ArcStr) -> Variables
    ensures { result ≡ variables_of (text_view name.now) }
{
    if is_nameless(name) {
        return Variables::One;
    }
    Variables::Two
}

fn is_nameless(name: &ArcStr) -> bool
    ensures { IsTrue result ↔ (text_view name.now ≡ []) }
{
    name.as_str().is_empty()
}

/// The answer of the innermost local of a name.
pub(super) fn find<'k, 't>(
    known: &'k [(ArcStr, Placed<'t>)],
    name: &ArcStr,
) -> Option<&'k Placed<'t>>
    ensures { option_map (λ a. placed_view a.now) result ≡ local (text_view name.now) (known_view known.now) }
{
    for (own, answer) in known {
        if same_names(own, name) {
            return Some(answer);
        }
    }
    None
}

fn same_names(left: &ArcStr, right: &ArcStr) -> bool
    ensures { result ≡ bytes_eq (text_view left.now) (text_view right.now) }
{
    left == right
}

/// The root that an expression is; none if it is anything but a root that no local hides.
pub(super) fn bare_root<'r>(tree: &'r Tree, known: &[(ArcStr, Placed<'_>)]) -> Option<&'r ArcStr>
    ensures { option_map (λ name. text_view name.now) result ≡ root_of (tree_view tree.now) (known_view known.now) }
{
    let Tree::Ident { name, .. } = tree else {
        return None;
    };
    if is_bare_root(name, known) {
        return Some(name);
    }
    None
}

fn is_bare_root(name: &ArcStr, known: &[(ArcStr, Placed<'_>)]) -> bool
    ensures { result ≡ bare_root (text_view name.now) (known_view known.now) }
{
    if find(known, name).is_some() {
        return false;
    }
    is_root(name.as_str())
}
