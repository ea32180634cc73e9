//! Laws of the definitions: a CheckRequest asks one thing or has a fault, and what is written of an answer reads back.

ghost use Rattle.std.specs.Prelude.{◌≡◌, ◌⊎◌, ℕ, List};
ghost use Rattle.attributes.specs.Headers.{Entry as Line};
ghost use Rattle.attributes.specs.Limits.{LimitsValue};
ghost use Rattle.attributes.specs.Request.{RequestValue};
ghost use Rattle.check_request.specs.Answers.{AnswerValue, AnswerWritten, IsAnswer, answer_of};
ghost use Rattle.check_request.specs.Check.{CheckAsks, CheckValue, IsCheck};
ghost use Rattle.check_request.specs.Faults.{CheckFails, HasFault};
ghost use Rattle.check_request.specs.declared.outcome.Outcome.{Outcome};
ghost use Rattle.check_request.specs.declared.part.PrincipalName.{PrincipalName};
ghost use Rattle.check_request.specs.declared.part.CheckPart.{CheckPart};
ghost use Rattle.proto_wire.specs.declared.refusal.Refusal.{Refusal};

/// A CheckRequest asks one thing at most.
pub fn check_unique()
    ensures { (name : PrincipalName) (bytes : List ℕ) (c d : CheckValue)
        → IsCheck name bytes c → IsCheck name bytes d → c ≡ d }
{}

/// Bytes are a CheckRequest that asks something, or they have a fault.
pub fn check_total()
    ensures { (name : PrincipalName) (bytes : List ℕ) → ((c : CheckValue) × IsCheck name bytes c)
        ⊎ ((part : CheckPart) × (e : Refusal) × HasFault bytes part e) }
{}

/// A CheckRequest that asks something has no fault.
pub fn check_disjoint()
    ensures { (name : PrincipalName) (bytes : List ℕ) (c : CheckValue) (part : CheckPart) (e : Refusal)
        → IsCheck name bytes c → ¬ (HasFault bytes part e) }
{}

/// A CheckRequest means one request at most.
pub fn check_asks_unique()
    ensures { (name : PrincipalName) (limits : LimitsValue) (bytes : List ℕ) (r q : RequestValue)
        → CheckAsks name limits bytes r → CheckAsks name limits bytes q → r ≡ q }
{}

/// A CheckRequest that means a request has no fault, and neither have the parts that it asks.
pub fn check_asks_disjoint()
    ensures { (name : PrincipalName) (limits : LimitsValue) (bytes : List ℕ) (r : RequestValue)
        → CheckAsks name limits bytes r → ¬ (CheckFails name limits bytes) }
{}

/// What is written of an outcome reads back as its answer.
pub fn answer_reads_back()
    ensures { (outcome : Outcome) (set : List Line) (remove : List (List ℕ)) (bytes : List ℕ)
        → AnswerWritten (answer_of outcome set remove) bytes → IsAnswer bytes (answer_of outcome set remove) }
{}

/// Bytes are one answer at most.
pub fn answer_unique()
    ensures { (bytes : List ℕ) (a b : AnswerValue) → IsAnswer bytes a → IsAnswer bytes b → a ≡ b }
{}
