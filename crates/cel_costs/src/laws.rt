//! Laws of sizes and costs.

ghost use Rattle.std.specs.Prelude.{◌≡◌, ◌≤◌, List, [], Some};
ghost use Rattle.attributes.specs.Limits.{InLimits, LimitsValue};
ghost use Rattle.attributes.specs.Request.{IsRequest, RequestValue};
ghost use Rattle.cel_value.specs.Types.{ValueType};
ghost use Rattle.cel_value.specs.Values.{CelAnswer};
ghost use Rattle.cel_overload.specs.Answers.{HaveTypes};
ghost use Rattle.cel_types.specs.Elaborated.{TypedTree};
ghost use Rattle.cel_types.specs.TypedMeaning.{typed_answer};
ghost use Rattle.cel_types.specs.WellTyped.{IsWellTyped};
ghost use Rattle.cel_costs.specs.Costs.{cost_of, size_of};
ghost use Rattle.cel_costs.specs.Reaches.{Reaches};
ghost use Rattle.cel_costs.specs.Sizes.{AllWithin, Size, Within};

/// The answer of a well typed expression is within its size. This holds for each request within the
/// limits, and for locals of their types within their sizes.
pub fn results_are_within_their_size()
    ensures { (e : TypedTree) (r : RequestValue) (l : LimitsValue) (ks : List ValueType)
        (ls : List CelAnswer) (sizes : List Size) (a : CelAnswer)
        → IsWellTyped ks e → IsRequest r → InLimits r l → HaveTypes ls ks → AllWithin ls sizes
        → typed_answer e r ls ≡ Some a → Within a (size_of e l sizes) }
{}

/// Each part that evaluation reaches is well typed, for some types that its locals have there.
pub fn reached_parts_are_well_typed()
    ensures { (e : TypedTree) (r : RequestValue) (l : LimitsValue) (part : TypedTree)
        (ls : List CelAnswer) (sizes : List Size)
        → IsWellTyped [] e → IsRequest r → InLimits r l → Reaches e r l part ls sizes
        → (ks : List ValueType) × IsWellTyped ks part × HaveTypes ls ks }
{}

/// The locals of each part that evaluation reaches are within their sizes. With these locals, the part has
/// an answer, within its size.
pub fn reached_parts_are_within_their_size()
    ensures { (e : TypedTree) (r : RequestValue) (l : LimitsValue) (part : TypedTree)
        (ls : List CelAnswer) (sizes : List Size)
        → IsWellTyped [] e → IsRequest r → InLimits r l → Reaches e r l part ls sizes
        → AllWithin ls sizes × ((a : CelAnswer) × (typed_answer part r ls ≡ Some a)
        × Within a (size_of part l sizes)) }
{}

/// The cost of each part that evaluation reaches, at these sizes, is at most the cost of the whole.
pub fn reached_parts_are_paid_for()
    ensures { (e : TypedTree) (r : RequestValue) (l : LimitsValue) (part : TypedTree)
        (ls : List CelAnswer) (sizes : List Size)
        → IsWellTyped [] e → IsRequest r → InLimits r l → Reaches e r l part ls sizes
        → cost_of part l sizes ≤ cost_of e l [] }
{}
