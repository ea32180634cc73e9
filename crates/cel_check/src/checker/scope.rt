//! The locals in scope.

ghost use Rattle.std.specs.Prelude.{◌≡◌, ◌≤◌, [], ◌∷◌, ◌++◌, length, option_map};
ghost use Rattle.std.specs.Str.{bytes_eq};
ghost use Rattle.cel_value.specs.Texts.{text_view};
ghost use Rattle.cel_value.specs.Types.{type_view};
ghost use Rattle.cel_types.specs.Elaborated.{slot};
ghost use Rattle.cel_types.specs.Names.{bound, local};
ghost use Rattle.cel_types.specs.Typing.{most_locals};
ghost use Rattle.cel_check.specs.private.Kinds.{second_type};
ghost use Rattle.cel_check.specs.private.Scopes.{found_slot, found_type, scope_view};

use cel_value::CelType;
use std::sync::ArcStr;

/// The locals in scope, the innermost first.
#[derive(Clone, Copy)]
#[cycle(scope)]
pub(super) enum Scope<'s> {
    Empty,
    Local {
        name: &'s ArcStr,
        cel_type: &'s CelType,
        outer: &'s Scope<'s>,
    },
}

/// A local that was found.
#[derive(Clone, Copy)]
pub(super) struct FoundLocal<'s> {
    pub cel_type: &'s CelType,
    /// The number of locals outside of it.
    pub outside: u8,
}

impl<'s> Scope<'s> {
    /// The scope with one more local.
    pub(super) fn with(&'s self, name: &'s ArcStr, cel_type: &'s CelType) -> Scope<'s>
        ensures { scope_view result ≡ (text_view name.now, type_view cel_type.now) ∷ scope_view self.now }
    {
        Scope::Local {
            name,
            cel_type,
            outer: self,
        }
    }

    /// The scope with one more local, if there is a type for it.
    pub(super) fn with_second(
        &'s self,
        name: &'s ArcStr,
        cel_type: &'s Option<CelType>,
    ) -> Scope<'s>
        ensures { scope_view result
            ≡ bound (text_view name.now ∷ []) (second_type cel_type.now) ++ scope_view self.now }
    {
        match cel_type {
            None => *self,
            Some(cel_type) => self.with(name, cel_type),
        }
    }

    /// The innermost local of a name.
    pub(super) fn find(&self, name: &ArcStr) -> Option<FoundLocal<'s>>
        requires { length (scope_view self.now) ≤ most_locals }
        ensures kind { option_map found_type result ≡ local (text_view name.now) (scope_view self.now) }
        ensures slot { option_map found_slot result ≡ slot (text_view name.now) (scope_view self.now) }
    {
        match self {
            Scope::Empty => None,
            Scope::Local {
                name: own,
                cel_type,
                outer,
            } => {
                if same_names(own, name) {
                    return Some(FoundLocal {
                        cel_type,
                        outside: outer.count(),
                    });
                }
                outer.find(name)
            }
        }
    }

    // The number of locals in scope.
    fn count(&self) -> u8
        requires { length (scope_view self.now) ≤ most_locals }
        ensures { result ≡ length (scope_view self.now) }
    {
        match self {
            Scope::Empty => 0,
            Scope::Local { outer, .. } => outer.count() + 1,
        }
    }
}

/// Whether two names are the same.
pub(super) fn same_names(left: &ArcStr, right: &ArcStr) -> bool
    ensures { result ≡ bytes_eq (text_view left.now) (text_view right.now) }
{
    left == right
}
