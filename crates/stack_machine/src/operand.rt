//! Results of a run: owned, or lent by the code or by the request.

ghost use Rattle.std.specs.Prelude.{◌≡◌, IfOk, IfSome, Ok};
ghost use Rattle.cel_value.specs.Texts.{points_of};
ghost use Rattle.cel_value.specs.Values.{text, value};
ghost use Rattle.cel_value.specs.View.{answer_view};
ghost use Rattle.machine_code.specs.Instructions.{constant_view};
ghost use Rattle.stack_machine.specs.private.Operands.{operand_view};

use attributes::Headers;
use cel_value::{Answer, CelError, Key, Map, Value};
use machine_code::Constant;
use std::alloc::{AllocError, Global};
use std::sync::{Arc, ArcSlice, ArcStr};

/// A result. Texts and headers that the code or the request keeps are lent, so that no references
/// are counted.
#[derive(Drop)]
pub(crate) enum Operand<'a> {
    Bool(bool),
    Int(i64),
    Uint(u64),
    Fails(CelError),
    /// A shared text that is lent.
    Lent(&'a ArcStr),
    /// A part of the request's text, which is lent.
    Part(&'a str),
    /// Headers that are lent.
    Headers(&'a Headers),
    Text(ArcStr),
    Bytes(ArcSlice<u8>),
    List(Arc<Vec<Value>>),
    Entries(Arc<Vec<(Key, Value)>>),
    Texts(Arc<Vec<(ArcStr, ArcStr)>>),
}

impl<'a> Operand<'a> {
    /// The constant as a result, with its text lent.
    #[inline(always)]
    pub(crate) fn lend(constant: &'a Constant) -> Result<Operand<'a>, AllocError>
        ensures { IfOk result (λ operand. operand_view operand ≡ value (constant_view constant.now)) }
    {
        match constant {
            Constant::Bool(b) => Ok(Operand::Bool(*b)),
            Constant::Int(i) => Ok(Operand::Int(*i)),
            Constant::Uint(n) => Ok(Operand::Uint(*n)),
            Constant::Text(text) => Ok(Operand::Lent(text)),
            Constant::Bytes(bytes) => Ok(Operand::Bytes(bytes.clone()?)),
        }
    }

    /// The answer as a result.
    pub(crate) fn of(answer: Answer) -> Operand<'a>
        ensures { operand_view result ≡ answer_view answer }
    {
        match answer {
            Ok(value) => Operand::of_value(value),
            Err(error) => Operand::Fails(error),
        }
    }

    /// The value as a result.
    pub(crate) fn of_value(value: Value) -> Operand<'a>
        ensures { operand_view result ≡ answer_view (Ok value) }
    {
        match value {
            Value::Bool(b) => Operand::Bool(b),
            Value::Int(i) => Operand::Int(i),
            Value::Uint(n) => Operand::Uint(n),
            Value::Text(text) => Operand::Text(text),
            Value::Bytes(bytes) => Operand::Bytes(bytes),
            Value::List(items) => Operand::List(items),
            Value::Map(Map::Entries(entries)) => Operand::Entries(entries),
            Value::Map(Map::Texts(pairs)) => Operand::Texts(pairs),
        }
    }

    /// The result as an answer of its own. Copies what the request lends.
    #[inline(always)]
    pub(crate) fn answer(&self, alloc: Global) -> Result<Answer, AllocError>
        ensures { IfOk result (λ answer. answer_view answer ≡ operand_view self.now) }
    {
        match self {
            Operand::Bool(b) => Ok(Ok(Value::Bool(*b))),
            Operand::Int(i) => Ok(Ok(Value::Int(*i))),
            Operand::Uint(n) => Ok(Ok(Value::Uint(*n))),
            Operand::Fails(error) => Ok(Err(*error)),
            Operand::Lent(text) => Ok(Ok(Value::Text((*text).clone()?))),
            Operand::Part(text) => Ok(Ok(Value::Text(ArcStr::from_str(alloc, *text)?))),
            Operand::Headers(headers) => Ok(Ok(Value::Map(Map::Texts(headers.to_pairs(alloc)?)))),
            Operand::Text(text) => Ok(Ok(Value::Text(text.clone()?))),
            Operand::Bytes(bytes) => Ok(Ok(Value::Bytes(bytes.clone()?))),
            Operand::List(items) => Ok(Ok(Value::List(items.clone()?))),
            Operand::Entries(entries) => Ok(Ok(Value::Map(Map::Entries(entries.clone()?)))),
            Operand::Texts(pairs) => Ok(Ok(Value::Map(Map::Texts(pairs.clone()?)))),
        }
    }

    /// A copy of the result, which shares its parts.
    #[inline(always)]
    pub(crate) fn copy(&self, alloc: Global) -> Result<Operand<'a>, AllocError>
        ensures { IfOk result (λ copy. operand_view copy ≡ operand_view self.now) }
    {
        match self {
            Operand::Bool(b) => Ok(Operand::Bool(*b)),
            Operand::Int(i) => Ok(Operand::Int(*i)),
            Operand::Uint(n) => Ok(Operand::Uint(*n)),
            Operand::Fails(error) => Ok(Operand::Fails(*error)),
            Operand::Lent(text) => Ok(Operand::Lent(*text)),
            Operand::Part(text) => Ok(Operand::Part(*text)),
            Operand::Headers(headers) => Ok(Operand::Headers(*headers)),
            _ => self.shared(alloc),
        }
    }

    /// The text of the result, if it is lent.
    #[inline(always)]
    pub(crate) fn lent_text(&self) -> Option<&str>
        ensures { IfSome result (λ found. operand_view self.now ≡ value (text (points_of found.now))) }
    {
        match self {
            Operand::Lent(text) => Some(text.as_str()),
            Operand::Part(text) => Some(*text),
            _ => None,
        }
    }

    // A copy of a result that is not lent.
    #[inline(never)]
    fn shared(&self, alloc: Global) -> Result<Operand<'a>, AllocError>
        ensures { IfOk result (λ copy. operand_view copy ≡ operand_view self.now) }
    {
        Ok(Operand::of(self.answer(alloc)?))
    }
}
