//! Laws of where errors begin: statements on the definitions alone, for all expressions and requests.

ghost use Rattle.std.specs.Prelude.{◌≡◌, Option, Some, is_some, option_map};
ghost use Rattle.attributes.specs.Request.{RequestValue};
ghost use Rattle.cel_tree.specs.Tree.{CelTree};
ghost use Rattle.cel_value.specs.Values.{CelAnswer};
ghost use Rattle.cel_types.specs.Meaning.{Locals, eval};
ghost use Rattle.cel_meaning.specs.Origin.{CelPlace, placed};
ghost use Rattle.cel_meaning.specs.Places.{around, is_error, place_around};

/// The answer with a place is the answer of the definition of meaning.
pub fn placed_is_the_meaning()
    ensures { (r : RequestValue) (ls : Locals) (t : CelTree)
        → option_map (λ a. a.0) (placed r (around ls) t) ≡ eval t r ls }
{}

/// The part at which an error begins is the same error, with the locals there.
pub fn origin_is_the_error()
    ensures { (r : RequestValue) (ls : Locals) (t : CelTree) (a : CelAnswer) (place : CelPlace)
        → placed r (around ls) t ≡ Some (a, Some place) → eval place.part r place.locals ≡ Some a }
{}

/// An evaluation of that part finds the same place again.
pub fn origin_is_innermost()
    ensures { (r : RequestValue) (ls : Locals) (t : CelTree) (a : CelAnswer) (place : CelPlace)
        → placed r (around ls) t ≡ Some (a, Some place)
        → placed r (place_around place) place.part ≡ Some (a, Some place) }
{}

/// There is a place if and only if the answer is an error.
pub fn errors_have_an_origin()
    ensures { (r : RequestValue) (ls : Locals) (t : CelTree) (a : CelAnswer) (place : Option CelPlace)
        → placed r (around ls) t ≡ Some (a, place) → is_error a ≡ is_some place }
{}
