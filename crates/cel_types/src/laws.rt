//! Laws of meaning and typing.

ghost use Rattle.std.specs.Prelude.{◌≡◌, ◌↔◌, ◌⊎◌, ℕ, ℤ, List, [], ◌∷◌, Some};
ghost use Rattle.std.specs.Option.{option_and_then};
ghost use Rattle.attributes.specs.Attributes.{attr_name};
ghost use Rattle.attributes.specs.Request.{IsRequest, RequestValue};
ghost use Rattle.attributes.specs.declared.attribute.AttrId.{AttrId};
ghost use Rattle.cel_types.specs.Agreeing.{IsAgreeing};
ghost use Rattle.cel_types.specs.Attributes.{attribute_named};
ghost use Rattle.cel_value.specs.Types.{AnswerHasType, ValueType};
ghost use Rattle.cel_value.specs.Values.{CelAnswer, value};
ghost use Rattle.cel_tree.specs.Checked.{CelChecked};
ghost use Rattle.cel_tree.specs.GoodConstants.{HasGoodConstants};
ghost use Rattle.cel_tree.specs.Tree.{CelTree, comprehension};
ghost use Rattle.cel_types.specs.Elaborated.{IsElaborated, TypedTree, kind};
ghost use Rattle.cel_types.specs.Meaning.{Locals, eval};
ghost use Rattle.cel_types.specs.OneVariable.{fold_elements, over_elements};
ghost use Rattle.cel_types.specs.TypingFaults.{CheckFault, IsTyped};
ghost use Rattle.cel_types.specs.TypedMeaning.{typed_answer};
ghost use Rattle.cel_types.specs.WellTyped.{IsWellTyped};
ghost use Rattle.proto_wire.specs.declared.refusal.Refusal.{Refusal};

/// An attribute is found by its name, and by no other.
pub fn attribute_is_named()
    ensures { (name : List ℕ) (id : AttrId) → (attribute_named name ≡ Some id) ↔ (name ≡ attr_name id) }
{}

/// A comprehension without a second name is a fold over the elements of its range.
pub fn one_variable_is_a_fold()
    ensures { (id : ℤ) (x acc : List ℕ) (range init condition step result : CelTree) (r : RequestValue) (ls : Locals)
        → eval (comprehension id x [] acc range init condition step result) r ls
        ≡ over_elements (eval range r ls) (λ vs. option_and_then
        (fold_elements (λ v a. eval condition r ((x, value v) ∷ (acc, a) ∷ ls))
        (λ v a. eval step r ((x, value v) ∷ (acc, a) ∷ ls)) (λ a. eval result r ((acc, a) ∷ ls)) vs)
        (eval init r ls)) }
{}

/// A checked expression has at most one type.
pub fn typing_unique()
    ensures { (c : CelChecked) (s t : ValueType) → IsTyped c s → IsTyped c t → s ≡ t }
{}

/// A checked expression has a type or a fault.
pub fn typing_total()
    ensures { (c : CelChecked) → ((t : ValueType) × IsTyped c t) ⊎ ((e : Refusal) × CheckFault c e) }
{}

/// A checked expression never has both a type and a fault.
pub fn typing_disjoint()
    ensures { (c : CelChecked) (t : ValueType) (e : Refusal) → IsTyped c t → CheckFault c e → ⊥ }
{}

/// A checked expression is typed exactly if the rules give it a type, its entries agree, and no node has too many locals
/// in scope.
pub fn typed_is_agreeing()
    ensures { (c : CelChecked) (t : ValueType) → IsTyped c t ↔ IsAgreeing c t }
{}

/// A checked expression that has a type has an elaboration of that type.
pub fn typed_is_elaborated()
    ensures { (c : CelChecked) (t : ValueType) → IsTyped c t
        → (e : TypedTree) × IsElaborated c e × (kind e ≡ t) }
{}

/// A checked expression has at most one elaboration.
pub fn elaboration_unique()
    ensures { (c : CelChecked) (e f : TypedTree) → IsElaborated c e → IsElaborated c f → e ≡ f }
{}

/// If the constants of an expression have the types of their kinds, its elaboration is well typed.
pub fn elaboration_is_well_typed()
    ensures { (c : CelChecked) (e : TypedTree) → HasGoodConstants c.tree → IsElaborated c e
        → IsWellTyped [] e }
{}

/// A well typed expression has an answer of its type for each request.
pub fn typed_answers_have_their_type()
    ensures { (e : TypedTree) (r : RequestValue) → IsWellTyped [] e → IsRequest r
        → (a : CelAnswer) × (typed_answer e r [] ≡ Some a) × AnswerHasType a (kind e) }
{}

/// An elaboration has the same answers as its expression.
pub fn elaboration_means_the_same()
    ensures { (c : CelChecked) (e : TypedTree) (r : RequestValue) → HasGoodConstants c.tree
        → IsElaborated c e → IsRequest r → eval c.tree r [] ≡ typed_answer e r [] }
{}

/// An expression with an elaboration has an answer of its type for each request.
pub fn meaning_has_the_type()
    ensures { (c : CelChecked) (e : TypedTree) (r : RequestValue) → HasGoodConstants c.tree
        → IsElaborated c e → IsRequest r
        → (a : CelAnswer) × (eval c.tree r [] ≡ Some a) × AnswerHasType a (kind e) }
{}

/// A checked expression that has a type has an answer of that type for each request.
pub fn typed_expression_means_something()
    ensures { (c : CelChecked) (t : ValueType) (r : RequestValue) → IsTyped c t
        → HasGoodConstants c.tree → IsRequest r
        → (a : CelAnswer) × (eval c.tree r [] ≡ Some a) × AnswerHasType a t }
{}
