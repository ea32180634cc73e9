//! Functions by their names (CEL language definition, "List of Standard Definitions").

ghost use Rattle.std.specs.Prelude.{◌≡◌};
ghost use Rattle.cel_value.specs.Texts.{points_of};
ghost use Rattle.cel_overload.specs.Functions.{function_at, function_named, may_take};
ghost use Rattle.cel_overload.specs.private.View.{names_view};

use cel_ops::{ArithmeticOp, CompareOp, TextTest};

/// A function: an operator or a named one.
#[derive(Clone, Copy, PartialEq, Eq, Debug)]
pub enum Function {
    /// `_&&_`.
    And,
    /// `_||_`.
    Or,
    /// `!_`.
    Not,
    /// `@not_strictly_false`: macros use it to continue past an error.
    NotStrictlyFalse,
    /// `_?_:_`.
    Conditional,
    /// `_==_`, `_!=_`, `_<_`, `_<=_`, `_>_` and `_>=_`.
    Compare(CompareOp),
    /// `_+_`, `_-_`, `_*_`, `_/_` and `_%_`.
    Arithmetic(ArithmeticOp),
    /// `-_`.
    Negate,
    /// `_[_]`.
    Index,
    /// `@in`.
    In,
    /// `size`.
    Size,
    /// `contains`, `startsWith` and `endsWith`.
    TestText(TextTest),
    /// `int`.
    ToInt,
    /// `uint`.
    ToUint,
    /// `string`.
    ToText,
    /// `bytes`.
    ToBytes,
}

// Each name with its function.
const FUNCTIONS: [(&'static str, Function); 30] = [
    ("_&&_", Function::And),
    ("_||_", Function::Or),
    ("!_", Function::Not),
    ("@not_strictly_false", Function::NotStrictlyFalse),
    ("__not_strictly_false__", Function::NotStrictlyFalse),
    ("_?_:_", Function::Conditional),
    ("_==_", Function::Compare(CompareOp::Equal)),
    ("_!=_", Function::Compare(CompareOp::NotEqual)),
    ("_<_", Function::Compare(CompareOp::Less)),
    ("_<=_", Function::Compare(CompareOp::LessOrEqual)),
    ("_>_", Function::Compare(CompareOp::Greater)),
    ("_>=_", Function::Compare(CompareOp::GreaterOrEqual)),
    ("_+_", Function::Arithmetic(ArithmeticOp::Add)),
    ("_-_", Function::Arithmetic(ArithmeticOp::Subtract)),
    ("_*_", Function::Arithmetic(ArithmeticOp::Multiply)),
    ("_/_", Function::Arithmetic(ArithmeticOp::Divide)),
    ("_%_", Function::Arithmetic(ArithmeticOp::Remainder)),
    ("-_", Function::Negate),
    ("_[_]", Function::Index),
    ("@in", Function::In),
    ("_in_", Function::In),
    ("in", Function::In),
    ("size", Function::Size),
    ("contains", Function::TestText(TextTest::Contains)),
    ("startsWith", Function::TestText(TextTest::StartsWith)),
    ("endsWith", Function::TestText(TextTest::EndsWith)),
    ("int", Function::ToInt),
    ("uint", Function::ToUint),
    ("string", Function::ToText),
    ("bytes", Function::ToBytes),
];

/// The function of a name; `None` if no function has it.
pub fn function_named(name: &str) -> Option<Function>
    ensures { result ≡ function_named (points_of name.now) }
{
    find_function(&FUNCTIONS, name)
}

// The function of the first entry with this name.
fn find_function(entries: &[(&'static str, Function)], name: &str) -> Option<Function>
    ensures { result ≡ function_at name.now (names_view entries.now) }
{
    for (own, function) in entries {
        if *own == name {
            return Some(*function);
        }
    }
    None
}

/// Whether a function can be called with a target, or without one.
pub(crate) fn may_take(function: Function, has_target: bool) -> bool
    ensures { result ≡ may_take function has_target }
{
    match function {
        Function::Size => true,
        Function::TestText(_) => has_target,
        _ => !has_target,
    }
}
